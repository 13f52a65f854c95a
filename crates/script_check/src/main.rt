// Runs scripts that lie whole in lent memory, a line at a time by its place, sessions with too little lent memory, and some with a record that isn't
// sound; what they write is compared with the stored output.
#![tactic(auto)]

mod lent;
mod stops;
mod unsound;

use reader::whole;
use record::{State, WORDS};
use script_lines::run;
use std::io;
use text::cut;

// The longest log line: three numbers, two tabs and an LF.
const LINE: usize = 33;

// The words of the lent block: too few for the deepest queue of the widest messages.
const BLOCK: usize = 64;

// A line run, and its log line written.
fn step(
    rt: &impl Print,
    s: State,
    words: &mut [u32],
    block: &mut [u32],
    line: &[u8],
) -> io::Result<State> {
    let mut log = [0u8; LINE];
    let r = run::run_line(s, line, words, block, &mut log);
    // `&log[..r.written]`: tried and the proof didn't close, as no clause bounds `written`; so here and below
    rt.write_all(cut::part(&log, 0, r.written))?;
    Ok(r.state)
}

// The first line, then each further one.
fn replay(rt: &impl Print, text: &[u8]) -> io::Result<()> {
    let mut log = [0u8; LINE];
    let head = run::run_header(reader::first_line(text), &mut log);
    rt.write_all(cut::part(&log, 0, head.map_or(0, |h| h.written)))?;
    let mut words = [0u32; WORDS];
    let mut block = [0u32; BLOCK];
    let mut s = record::fresh();
    let mut at = reader::next_at(text, 0);
    for _ in 1..whole::count_lines(text) {
        s = step(rt, s, &mut words, &mut block, reader::line_at(text, at))?;
        at = reader::next_at(text, at);
    }
    Ok(())
}

// Document 01's whole session, with an empty line, one that is no step, and a last line without LF.
fn first_session(rt: &impl Print) -> io::Result<()> {
    replay(
        rt,
        b"kernel\t1\ntask\t5\ntask\t3\ntask\t1\nmutex\t1\nstart\nsleep\t3\nsleep\t2\nlock\t0\t0\ntick\ntick\ntick\nlock\t0\t10\nlevel\t0\nunlock\t0\n\nrest\t1\ntick",
    )
}

// Queues: a wrong size and a block without room, messages to and from a queue without owner, which is full in between, and through an owned one.
fn queues(rt: &impl Print) -> io::Result<()> {
    replay(
        rt,
        b"kernel\t1\ntask\t3\ntask\t5\nqueue\t2\t1\nqueue\t1\t2\t1\nqueue\t3\t1\nqueue\t8\t64\nstart\nsend\t0\t0\t7\nsend\t0\t0\t11\t12\nsend\t0\t0\t1\t2\nsend\t0\t5\t21\t22\nword\t0\t0\nreceive\t0\t0\nword\t1\t0\nword\t1\t1\nword\t1\t2\nword\t1\t8\noutcome\t0\nreceive\t0\t0\nword\t0\t1\nreceive\t0\t0\n",
    )?;
    replay(
        rt,
        b"kernel\t1\ntask\t3\ntask\t5\nqueue\t1\t2\t1\nstart\nsend\t0\t0\t5\nsend\t0\t0\t6\nreceive\t0\t0\nsend\t0\t10\t7\nlevel\t1\nsend\t0\t0\t9\nreceive\t0\t0\nword\t1\t0\nword\t0\t0\nword\t0\t1\nsend\t0\t0\nsend\t0\t0\t1\t2\t3\t4\t5\t6\t7\t8\t9\n",
    )
}

fn main(rt: HostRuntime) -> io::Result<()> {
    first_session(&rt)?;
    queues(&rt)?;
    stops::good(&rt)?;
    stops::bad(&rt)?;
    stops::sent(&rt)?;
    unsound::between_pieces(&rt)?;
    unsound::lent_less(&rt)
}
