// Document 02, K1: each refusal of queue, send, receive and word, and the order of those that apply together.
use crate::kept::{Kept, ROOM};
use crate::run::Row;
use record::{FOREVER, MAX_TICKS, Request};
use std::io;

// One more than the longest waiting time.
const TOO_LONG: u32 = MAX_TICKS + 1;

// "6 for no such queue or owner, 7 for a wrong size, depth, .., 8 when table or block lacks room at creation"
fn queue(rt: &impl Print) -> io::Result<()> {
    println!(rt; "queue")?;
    let mut row = Row::new(rt, Kept::fresh(ROOM));
    row.task(5)?;
    row.owned_queue(1, 1, 1)?;
    row.owned_queue(3, 0, 1)?;
    row.queue(0, 1)?;
    row.queue(3, 1)?;
    row.queue(16, 1)?;
    row.queue(1, 0)?;
    row.queue(1, 65)?;
    row.owned_queue(8, 65, 0)?;
    row.queue(8, u32::MAX)?;
    row.queue(1, 64)?;
    row.owned_queue(8, 1, 0)?;
    row.queue(1, 1)?;
    row.queue(3, 1)?;
    row.ask(Request::Start)?;
    row.queue(3, 1)?;
    row.owned_queue(1, 1, 1)
}

// A block one word too short for the queue, and one that is long enough.
fn block(rt: &impl Print) -> io::Result<()> {
    println!(rt; "block of 15 and of 16 words")?;
    for space in [15, 16] {
        Row::new(rt, Kept::fresh(space)).queue(8, 2)?;
    }
    Ok(())
}

// The eighth queue and the ninth; the block has room for both.
fn table(rt: &impl Print) -> io::Result<()> {
    println!(rt; "eight queues")?;
    let mut row = Row::new(rt, Kept::fresh(ROOM));
    for _ in 0..9 {
        row.queue(1, 1)?;
    }
    Ok(())
}

// Task 0 owns queue 0; queue 1 has no owner. Task 1 is the more urgent one.
fn two_queues<R: Print>(row: &mut Row<R>) -> io::Result<()> {
    row.task(5)?;
    row.task(3)?;
    row.owned_queue(1, 1, 0)?;
    row.queue(2, 1)?;
    row.ask(Request::Mutex { kind: 0 })
}

// "14 for a send with no word or over 8", 4, 6, 7, and where the queue is full 3 and 11. A message that has room goes even while held.
fn send(rt: &impl Print) -> io::Result<()> {
    println!(rt; "send")?;
    let mut row = Row::new(rt, Kept::fresh(4));
    two_queues(&mut row)?;
    row.send(0, 0, &[1])?;
    row.send(0, 0, &[])?;
    row.ask(Request::Start)?;
    row.send(2, 0, &[])?;
    row.send(2, 0, &[1; 9])?;
    row.send(0, 0, &[1; 8])?;
    row.send(1, 0, &[1])?;
    row.send(2, TOO_LONG, &[1])?;
    row.send(0, TOO_LONG, &[1])?;
    row.send(0, FOREVER, &[1])?;
    row.send(0, 0, &[2, 2])?;
    row.send(0, 0, &[2])?;
    row.ask(Request::Hold)?;
    row.send(0, 0, &[2])?;
    row.send(0, 5, &[2])?;
    row.send(1, 5, &[2, 2])?;
    row.block()
}

// "9 owner sending to its own full queue", also held and with time 0; "12 for a ring", after 3 and 11; 5.
fn stuck(rt: &impl Print) -> io::Result<()> {
    println!(rt; "send to a full queue")?;
    let mut row = Row::new(rt, Kept::fresh(4));
    two_queues(&mut row)?;
    row.ask(Request::Start)?;
    row.ask(Request::Lock { mutex: 0, time: 0 })?;
    row.ask(Request::Sleep { time: 1 })?;
    row.send(0, 0, &[1])?;
    row.send(0, 0, &[2])?;
    row.send(0, TOO_LONG, &[2])?;
    row.ask(Request::Hold)?;
    row.send(0, 5, &[2])?;
    row.ask(Request::Free)?;
    row.ask(Request::Lock { mutex: 0, time: 9 })?;
    row.send(0, 0, &[2])?;
    row.send(0, 0, &[])?;
    row.ask(Request::Tick)?;
    row.send(0, 0, &[2])?;
    row.send(0, 5, &[2])?;
    row.ask(Request::Hold)?;
    row.send(0, 5, &[2])?;
    row.block()
}

// 4, 6, 7, "10 receive by another than the owner", 3, 11 and 5; an owner may wait at its own queue.
fn receive(rt: &impl Print) -> io::Result<()> {
    println!(rt; "receive")?;
    let mut row = Row::new(rt, Kept::fresh(4));
    two_queues(&mut row)?;
    row.receive(0, 0)?;
    row.ask(Request::Start)?;
    row.receive(2, TOO_LONG)?;
    row.receive(0, TOO_LONG)?;
    row.receive(0, 0)?;
    row.receive(0, 5)?;
    row.receive(1, 0)?;
    row.ask(Request::Hold)?;
    row.receive(0, 5)?;
    row.receive(1, 0)?;
    row.receive(1, 5)?;
    row.ask(Request::Free)?;
    row.receive(1, FOREVER)?;
    row.receive(0, MAX_TICKS)?;
    row.receive(0, 5)
}

// "`word i n`, allowed as `level` is": in any phase, and with none running; 6, then 7.
fn word(rt: &impl Print) -> io::Result<()> {
    println!(rt; "word")?;
    let mut row = Row::new(rt, Kept::fresh(0));
    row.task(5)?;
    row.word(0, 0)?;
    row.word(0, 7)?;
    row.word(0, 8)?;
    row.word(1, 0)?;
    row.word(1, 8)?;
    row.ask(Request::Start)?;
    row.ask(Request::Sleep { time: 1 })?;
    row.word(0, 7)?;
    row.word(0, 8)
}

pub fn all(rt: &impl Print) -> io::Result<()> {
    queue(rt)?;
    block(rt)?;
    table(rt)?;
    send(rt)?;
    stuck(rt)?;
    receive(rt)?;
    word(rt)
}
