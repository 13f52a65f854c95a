// The record changed where it lies: each function takes it out whole, has the work done by value, and stores the result; the words that tasks hold are
// lent where they lie.
ghost use Rattle.std.specs.Prelude.{◌≡◌, List, ℕ, length};
ghost use Rattle.record.specs.Whole.{whole};
ghost use Rattle.record.specs.SoundRecord.{sound_of};
ghost use Rattle.record.specs.DemandRecord.{fresh_held};
ghost use Rattle.calls.specs.Call.{call_out, call_words, call_block};
ghost use Rattle.calls.specs.Packed.{Carries};

use crate::by_value;
use record::Held;

// The fresh record and its words, whatever stood there.
#[unsafe(no_mangle)]
pub extern "C" fn cungkalisa_fresh(x: &mut Held)
    ensures { x.new ≡ fresh_held }
{
    let first = record::fresh_held();
    *x = first;
}

// Is the record sound, with a block of `space` words?
#[unsafe(no_mangle)]
pub extern "C" fn cungkalisa_is_sound(x: &Held, space: usize) -> bool
    ensures { (block : List ℕ) → length block ≡ space → result ≡ sound_of (whole x.now.state x.now.words block) }
{
    let t = *x;
    by_value::tested(t, space)
}

// The step of a code, made on the record where it lies; the answer in one number. The record is stored before words are moved: with a store to words or
// block between taking it out and storing it, the compiler would keep one copy of it more.
#[unsafe(no_mangle)]
pub extern "C" fn cungkalisa_step(
    x: &mut Held,
    code: u32,
    a: u32,
    b: u32,
    c: u32,
    message: &[u32],
    block: &mut [u32],
) -> u64
    ensures { Carries result (call_out x.old.state code a b c x.old.words message.now block.old).answer × (x.new.state ≡ (call_out x.old.state code a b c x.old.words message.now block.old).state) × (x.new.words ≡ call_words x.old.state code a b c x.old.words message.now block.old) × (block.new ≡ call_block x.old.state code a b c x.old.words message.now block.old) }
{
    let asked = calls::request_of(code, a, b, c);
    let sound = by_value::tested_in_place(x, block.len());
    let t = x.state;
    let o = calls::tested_call(t, sound, asked, message.len(), block.len(), &x.words);
    let n = by_value::state_of(o);
    x.state = n;
    by_value::given(o, &mut x.words, message, block)
}
