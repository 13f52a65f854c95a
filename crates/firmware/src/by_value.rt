// What the functions for C do: the record's test, where it lies too, and what is done once it is taken out, the record by value, its words and the block in
// lent memory.
ghost use Rattle.std.specs.Prelude.{◌≡◌, List, ℕ, length};
ghost use Rattle.record.specs.Whole.{whole};
ghost use Rattle.record.specs.SoundRecord.{sound_of};
ghost use Rattle.record.specs.GoodRecord.{Typed};
ghost use Rattle.moves.specs.Moves.{words_after, block_after};
ghost use Rattle.calls.specs.Call.{CallGives};
ghost use Rattle.calls.specs.Packed.{Carries};

use calls::answers;
use record::{Held, Plan, State, WORDS};

// Is the record sound, with the words held and a block of `space` words?
pub fn tested(x: Held, space: usize) -> bool
    ensures { (block : List ℕ) → length block ≡ space → result ≡ sound_of (whole x.state x.words block) }
{
    let s = x.state;
    let words = x.words;
    sound::is_sound(s, &words, space)
}

// The same where the record lies, for a step of it: the copy that the test is handed is gone when the step begins.
#[inline(never)]
pub fn tested_in_place(x: &Held, space: usize) -> bool
    ensures answer { (block : List ℕ) → length block ≡ space → result ≡ sound_of (whole x.now.state x.now.words block) }
    ensures types { Typed x.now.state }
{
    let s = x.state;
    sound::is_sound(s, &x.words, space)
}

// The step of a code on a record with its words, before any word is moved: the message has `count` words, the lent block `space`.
pub fn made(
    s: State,
    code: u32,
    a: u32,
    b: u32,
    c: u32,
    words: &mut [u32; WORDS],
    count: usize,
    space: usize,
) -> Plan
    ensures { CallGives s code a b c words.old count space result × (words.new ≡ words.old) }
{
    let x = calls::request_of(code, a, b, c);
    calls::call(s, x, count, space, words)
}

// The record after the step.
pub fn state_of(o: Plan) -> State
    ensures { result ≡ o.state }
{
    o.state
}

// What the step moves is moved, and its answer given in one number.
pub fn given(o: Plan, words: &mut [u32; WORDS], message: &[u32], block: &mut [u32]) -> u64
    ensures { Carries result o.answer × (words.new ≡ words_after o.moves words.old message.now block.old) × (block.new ≡ block_after o.moves words.old message.now block.old) }
{
    let m = o.moves;
    moves::make(m, words, message, block);
    let a = o.answer;
    answers::answer_code(a)
}
