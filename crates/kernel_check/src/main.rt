// Steps through the edges that document 01 wants run, through those of document 02's queues, and through damaged records, and prints what comes back.
#![tactic(auto)]

mod damaged;
mod damaged_queues;
mod edges;
mod kept;
mod messages;
mod queue_refusals;
mod run;
mod show;

use std::io;

fn main(rt: HostRuntime) -> io::Result<()> {
    edges::all(&rt)?;
    queue_refusals::all(&rt)?;
    messages::all(&rt)?;
    damaged::all(&rt)?;
    damaged_queues::all(&rt)
}
