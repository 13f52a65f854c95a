// Runs the functions of `text`, `decimal` and `arrive` on edge inputs and prints what they answer, to be compared with the stored output.
#![tactic(auto)]

mod arrivals;
mod cuts;
mod numbers;
mod show;

use std::io;

fn main(rt: HostRuntime) -> io::Result<()> {
    numbers::parsing(&rt)?;
    numbers::rooms(&rt)?;
    cuts::fields(&rt)?;
    cuts::lines(&rt)?;
    arrivals::splits(&rt)?;
    arrivals::longest(&rt)?;
    arrivals::places(&rt)
}
