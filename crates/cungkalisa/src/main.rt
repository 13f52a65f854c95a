// Replays a script: standard input to standard output. All that matters is in the library `script`.
#![tactic(auto)]

use arrive::LONGEST;
use record::WORDS;
use script::session;
use script::session::Session;
use script_lines::run::OVER;
use std::io;
use std::io::Read;

// How many bytes of the script are read at a time, and how many of its log are written at a time.
const PIECE: usize = 16384;

const ROOM: usize = 16384;

// "scripts are run with a block of 4096 words". All buffers together: 16384 bytes of block, 512 of words that tasks hold, 160 of carry, piece and log:
// 49824, below 64 KiB. A write that is taken in parts goes on from the log itself.
const BLOCK: usize = 4096;

// What a session is lent: the words that tasks hold, the block, the carry and the log memory.
#[derive(Drop)]
struct Lent {
    words: [u32; WORDS],
    block: [u32; BLOCK],
    carry: [u8; LONGEST],
    log: [u8; ROOM],
}

// The script has ended; there is room for any log line, so the end is answered at once.
#[tactic(auto, using(script::specs::ProgressLaws::end_written))]
fn close(rt: &impl Print, s: Session, lent: &mut Lent) -> io::Result<()> {
    let m = session::end(
        s,
        &mut lent.words,
        &mut lent.block,
        &lent.carry,
        &mut lent.log,
    );
    rt.write_all(&lent.log[..m.written])
}

// A piece of the script: as far as the log memory goes, its log written, and on from there. Each call goes on by a line at least, or to the
// end of the piece, since there is room for any log line. The session then, or None where the script is over.
#[tactic(auto, using(script::specs::ProgressLaws::piece_goes))]
fn replay(
    rt: &impl Print,
    before: Session,
    lent: &mut Lent,
    bytes: &[u8],
) -> io::Result<Option<Session>> {
    let mut s = before;
    let mut rest = bytes;
    while !rest.is_empty() {
        let m = session::arrive(
            s,
            &mut lent.words,
            &mut lent.block,
            &mut lent.carry,
            rest,
            &mut lent.log,
        );
        s = m.session;
        rest = &rest[m.next..];
        rt.write_all(&lent.log[..m.written])?;
    }
    Ok((s.stage != OVER).then_some(s))
}

// Reads once, and writes the log of what came before it waits for more. None once there is no more to do.
fn one_turn(
    rt: &impl Print,
    input: &mut impl Read,
    s: Session,
    lent: &mut Lent,
    piece: &mut [u8],
) -> io::Result<Option<Session>> {
    let n = input.read(piece)?;
    if n > 0 {
        return replay(rt, s, lent, &piece[..n]);
    }
    close(rt, s, lent)?;
    Ok(None)
}

// A proved loop has to end, and nothing says that an input does. So it has a number of turns that no run uses up.
fn main(rt: HostRuntime) -> io::Result<()> {
    let mut input = rt.stdin();
    let mut lent = Lent {
        words: [0; WORDS],
        block: [0; BLOCK],
        carry: [0; LONGEST],
        log: [0; ROOM],
    };
    let mut piece = [0; PIECE];
    let mut s = session::begin();
    for _ in 0..u64::MAX {
        let Some(next) = one_turn(&rt, &mut input, s, &mut lent, &mut piece)? else {
            return Ok(());
        };
        s = next;
    }
    Ok(())
}
