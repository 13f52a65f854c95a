// Sessions that are lent too little memory: each stops at the line that has no room, and goes on from there with more.
use crate::lent::Lent;
use script::session;
use script::session::Moved;
use std::io;
use text::cut;

// Too little for any log line, just enough for one of six bytes, and enough for two.
const LITTLE: usize = 5;

const ONE: usize = 6;

const ENOUGH: usize = 40;

// The words of the lent block.
const BLOCK: usize = 2;

// What a call came to, and the whole lent memory then: bytes that were not written are dots.
fn show(rt: &impl Print, m: Moved, log: &[u8]) -> io::Result<()> {
    let number = if m.full { 8 } else { 0 };
    println!(rt;
        "number {number}, next {}, held {}, written {}",
        m.next, m.session.held, m.written
    )?;
    rt.write_all(log)?;
    println!(rt)
}

// A piece handed in with so much memory; what is left of it.
fn hand_in<'a>(
    rt: &impl Print,
    lent: &mut Lent<BLOCK>,
    bytes: &'a [u8],
    log: &mut [u8],
) -> io::Result<&'a [u8]> {
    let m = lent.arrive(bytes, log);
    show(rt, m, log)?;
    // not `&bytes[m.next..]`: no clause bounds `next`, so its proof cannot close
    Ok(cut::part(bytes, m.next, bytes.len()))
}

// Handed in with too little, and what is left of it each time with more.
fn in_three(rt: &impl Print, lent: &mut Lent<BLOCK>, bytes: &[u8]) -> io::Result<()> {
    let rest = hand_in(rt, lent, bytes, &mut [b'.'; LITTLE])?;
    let rest = hand_in(rt, lent, rest, &mut [b'.'; ONE])?;
    hand_in(rt, lent, rest, &mut [b'.'; ENOUGH])?;
    Ok(())
}

fn end(rt: &impl Print, lent: &mut Lent<BLOCK>, log: &mut [u8]) -> io::Result<()> {
    let m = lent.end(log);
    show(rt, m, log)
}

// The end, with too little and then with enough.
fn end_in_two(rt: &impl Print, lent: &mut Lent<BLOCK>) -> io::Result<()> {
    end(rt, lent, &mut [b'.'; LITTLE])?;
    end(rt, lent, &mut [b'.'; ENOUGH])
}

// The first line, a step in the middle of a piece, a line that began in the piece before, and a last line without LF.
pub fn good(rt: &impl Print) -> io::Result<()> {
    let mut lent = Lent::begin();
    in_three(rt, &mut lent, b"kernel\t1\ntask\t5\nta")?;
    in_three(rt, &mut lent, b"sk\t3\nstart\nlevel\t0")?;
    end_in_two(rt, &mut lent)
}

// A bad first line; and a script with no line.
pub fn bad(rt: &impl Print) -> io::Result<()> {
    let mut lent = Lent::begin();
    in_three(rt, &mut lent, b"kernel\t2\ntask\t5\n")?;
    end_in_two(rt, &mut lent)?;
    lent.session = session::begin();
    end_in_two(rt, &mut lent)
}

// A message that is sent where its log line has no room, and where it has: only then its word is in the block.
pub fn sent(rt: &impl Print) -> io::Result<()> {
    let mut lent = Lent::begin();
    let ready = b"kernel\t1\ntask\t5\nqueue\t1\t2\nstart\n";
    let line = b"send\t0\t0\t77\n";
    hand_in(rt, &mut lent, ready, &mut [b'.'; ENOUGH])?;
    hand_in(rt, &mut lent, line, &mut [b'.'; LITTLE])?;
    println!(rt; "word {}", lent.block[0])?;
    hand_in(rt, &mut lent, line, &mut [b'.'; ONE])?;
    println!(rt; "word {}", lent.block[0])
}
