// Document 02, K1: where a message goes, and what a sender that waits lends to the owner.
use crate::kept::Kept;
use crate::run::Row;
use record::{FOREVER, Request};
use std::io;

// Row "K1 stuck sender" of the table of edges: up to the receive that takes the waiting sender's message in, and what is left then.
fn stuck_sender(rt: &impl Print) -> io::Result<()> {
    println!(rt; "stuck sender")?;
    let mut row = Row::new(rt, Kept::fresh(4));
    row.task(5)?;
    row.task(2)?;
    row.owned_queue(1, 2, 0)?;
    row.queue(2, 1)?;
    row.queue(1, 1)?;
    row.ask(Request::Start)?;
    row.send(0, 5, &[])?;
    row.send(0, 5, &[7])?;
    row.send(0, 5, &[8])?;
    row.send(0, 0, &[9])?;
    row.send(0, 5, &[9, 9])?;
    row.receive(0, 5)?;
    row.send(0, 5, &[9])?;
    row.level(0)?;
    row.send(0, 5, &[6])?;
    row.receive(0, 0)?;
    row.word(0, 0)?;
    row.outcome(1)?;
    row.word(1, 0)?;
    row.ask(Request::Sleep { time: 1 })?;
    row.level(0)?;
    row.receive(0, 0)?;
    row.receive(0, 0)?;
    row.word(0, 0)?;
    row.receive(0, 0)?;
    row.word(0, 8)?;
    row.ask(Request::Tick)?;
    row.block()
}

// Row "K1 ring": through a mutex and a queue.
fn ring(rt: &impl Print) -> io::Result<()> {
    println!(rt; "ring")?;
    let mut row = Row::new(rt, Kept::fresh(1));
    row.task(5)?;
    row.task(2)?;
    row.ask(Request::Mutex { kind: 0 })?;
    row.owned_queue(1, 1, 0)?;
    row.ask(Request::Start)?;
    row.ask(Request::Lock { mutex: 0, time: 0 })?;
    row.send(0, 5, &[7])?;
    row.ask(Request::Sleep { time: 1 })?;
    row.ask(Request::Lock { mutex: 0, time: 9 })?;
    row.ask(Request::Tick)?;
    row.send(0, 5, &[7])
}

// "A message goes to the best waiting receiver": task 2, though task 1 waited first; then to task 1. The block stays.
fn delivered(rt: &impl Print) -> io::Result<()> {
    println!(rt; "to a receiver")?;
    let mut row = Row::new(rt, Kept::fresh(4));
    row.task(9)?;
    row.task(5)?;
    row.task(2)?;
    row.queue(2, 2)?;
    row.ask(Request::Start)?;
    row.ask(Request::Sleep { time: 1 })?;
    row.receive(0, 9)?;
    row.ask(Request::Tick)?;
    row.receive(0, FOREVER)?;
    row.send(0, 0, &[11, 12])?;
    row.word(2, 0)?;
    row.word(2, 1)?;
    row.word(2, 2)?;
    row.outcome(2)?;
    row.ask(Request::Sleep { time: 9 })?;
    row.send(0, 0, &[21, 22])?;
    row.word(1, 1)?;
    row.word(0, 0)?;
    row.block()
}

// "else to the tail", round the end of the ring; queue 0 and the word behind queue 1 stay as they are.
fn queued(rt: &impl Print) -> io::Result<()> {
    println!(rt; "to the tail")?;
    let mut row = Row::new(rt, Kept::fresh(6));
    row.task(5)?;
    row.queue(1, 1)?;
    row.queue(2, 2)?;
    row.ask(Request::Start)?;
    row.send(1, 0, &[31, 32])?;
    row.block()?;
    row.send(1, 0, &[41, 42])?;
    row.send(1, 0, &[51, 52])?;
    row.receive(1, 0)?;
    row.word(0, 0)?;
    row.send(1, 0, &[51, 52])?;
    row.block()?;
    row.receive(1, 0)?;
    row.word(0, 1)?;
    row.receive(1, 0)?;
    row.word(0, 1)?;
    row.word(0, 2)?;
    row.receive(1, 0)?;
    row.block()
}

// Task 2 waits to send to task 1's queue, and task 1 to task 0's: both are lent task 2's level. Each receive lets a stuck sender in.
fn chain(rt: &impl Print) -> io::Result<()> {
    println!(rt; "chain of queues")?;
    let mut row = Row::new(rt, Kept::fresh(2));
    row.task(9)?;
    row.task(5)?;
    row.task(2)?;
    row.owned_queue(1, 1, 1)?;
    row.owned_queue(1, 1, 0)?;
    row.ask(Request::Start)?;
    row.send(0, 0, &[21])?;
    row.send(1, 0, &[22])?;
    row.ask(Request::Sleep { time: 1 })?;
    row.send(1, 5, &[31])?;
    row.level(0)?;
    row.ask(Request::Tick)?;
    row.send(0, 5, &[41])?;
    row.level(0)?;
    row.level(1)?;
    row.receive(1, 0)?;
    row.level(0)?;
    row.level(1)?;
    row.outcome(1)?;
    row.word(0, 0)?;
    row.block()?;
    row.receive(0, 0)?;
    row.level(1)?;
    row.outcome(2)?;
    row.word(1, 0)?;
    row.block()
}

// "A send that timed out never queues its words"; the task holds them still. A queue without an owner has no links, and nothing is lent.
fn timed_out(rt: &impl Print) -> io::Result<()> {
    println!(rt; "time-out of a sender")?;
    let mut row = Row::new(rt, Kept::fresh(1));
    row.task(5)?;
    row.task(3)?;
    row.queue(1, 1)?;
    row.ask(Request::Start)?;
    row.send(0, 0, &[11])?;
    row.send(0, 2, &[12])?;
    row.level(0)?;
    row.word(1, 0)?;
    row.ask(Request::Tick)?;
    row.ask(Request::Tick)?;
    row.outcome(1)?;
    row.word(1, 0)?;
    row.receive(0, 0)?;
    row.word(1, 0)?;
    row.receive(0, 0)?;
    row.block()
}

// The owner's level falls when the sender's time is up.
fn time_out_lowers(rt: &impl Print) -> io::Result<()> {
    println!(rt; "time-out lowers the owner")?;
    let mut row = Row::new(rt, Kept::fresh(1));
    row.task(5)?;
    row.task(3)?;
    row.owned_queue(1, 1, 0)?;
    row.ask(Request::Start)?;
    row.send(0, 0, &[11])?;
    row.send(0, 2, &[12])?;
    row.level(0)?;
    row.ask(Request::Tick)?;
    row.ask(Request::Tick)?;
    row.level(0)?;
    row.outcome(1)?;
    row.block()
}

pub fn all(rt: &impl Print) -> io::Result<()> {
    stuck_sender(rt)?;
    ring(rt)?;
    delivered(rt)?;
    queued(rt)?;
    chain(rt)?;
    timed_out(rt)?;
    time_out_lowers(rt)
}
