// A session with a record that isn't sound: each line is answered 15, or 14 where it is no step, with no task to run.
ghost use Rattle.std.specs.Prelude.{◌≤◌};

use crate::lent::Lent;
use record::WORDS;
use script::session;
use std::io;
use text::cut;

const ENOUGH: usize = 80;

// The words of the lent block.
const BLOCK: usize = 16;

// A piece of the script, and its log written.
fn piece(rt: &impl Print, lent: &mut Lent<BLOCK>, bytes: &[u8]) -> io::Result<()> {
    let mut log = [0u8; ENOUGH];
    let m = lent.arrive(bytes, &mut log);
    // `&log[..m.written]`: tried and the proof didn't close, as no clause bounds `written`; so here and below
    rt.write_all(cut::part(&log, 0, m.written))
}

// Damaged between two pieces, in the middle of a line: a phase that is none. The last line has no LF.
pub fn between_pieces(rt: &impl Print) -> io::Result<()> {
    let mut lent = Lent::begin();
    piece(rt, &mut lent, b"kernel\t1\ntask\t5\nstart\nlev")?;
    lent.session.state.started = 2;
    piece(rt, &mut lent, b"el\t0\ntick\nrest\nyield\ntick")?;
    let mut log = [0u8; ENOUGH];
    let m = lent.end(&mut log);
    rt.write_all(cut::part(&log, 0, m.written))
}

// A tick that is lent only so many of the words and so much of the block.
fn tick(rt: &impl Print, lent: &mut Lent<BLOCK>, words: usize, block: usize) -> io::Result<()>
    requires { (words ≤ 128) × (block ≤ 16) }
{
    let mut log = [0u8; ENOUGH];
    let all = &mut lent.words[..];
    let whole = &mut lent.block[..];
    let m = session::arrive(
        lent.session,
        &mut all[..words],
        &mut whole[..block],
        &mut lent.carry,
        b"tick\n",
        &mut log,
    );
    lent.session = m.session;
    rt.write_all(cut::part(&log, 0, m.written))
}

// A queue that fills the block: with a word of it less, or a word less for the tasks, the record isn't sound; with all of them it is again.
pub fn lent_less(rt: &impl Print) -> io::Result<()> {
    let mut lent = Lent::begin();
    piece(rt, &mut lent, b"kernel\t1\ntask\t5\nqueue\t8\t2\nstart\n")?;
    tick(rt, &mut lent, WORDS, BLOCK - 1)?;
    tick(rt, &mut lent, WORDS - 1, BLOCK)?;
    tick(rt, &mut lent, WORDS, BLOCK)
}
