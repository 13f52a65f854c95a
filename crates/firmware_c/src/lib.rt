// The library for C: each of its functions is `firmware`'s of that name, with the same promises. A crate is a library or one for C, and not both.
#![tactic(auto)]

ghost use Rattle.std.specs.Prelude.{◌≡◌, List, ℕ, length};
ghost use Rattle.record.specs.Whole.{whole};
ghost use Rattle.record.specs.SoundRecord.{sound_of};
ghost use Rattle.record.specs.DemandRecord.{fresh_held};
ghost use Rattle.calls.specs.Call.{call_out, call_words, call_block};
ghost use Rattle.calls.specs.Packed.{Carries, number_in, run_in, value_in};

use record::Held;

// The fresh record and its words, whatever stood there.
#[unsafe(no_mangle)]
pub extern "C" fn cungkalisa_fresh(x: &mut Held)
    ensures { x.new ≡ fresh_held }
{
    firmware::cungkalisa_fresh(x);
}

// Is the record sound, with a block of `space` words?
#[unsafe(no_mangle)]
pub extern "C" fn cungkalisa_is_sound(x: &Held, space: usize) -> bool
    ensures { (block : List ℕ) → length block ≡ space → result ≡ sound_of (whole x.now.state x.now.words block) }
{
    firmware::cungkalisa_is_sound(x, space)
}

// The step of a code, made on the record where it lies; the answer in one number.
#[unsafe(no_mangle)]
pub extern "C" fn cungkalisa_step(
    x: &mut Held,
    code: u32,
    a: u32,
    b: u32,
    c: u32,
    message: &[u32],
    block: &mut [u32],
) -> u64
    ensures { Carries result (call_out x.old.state code a b c x.old.words message.now block.old).answer × (x.new.state ≡ (call_out x.old.state code a b c x.old.words message.now block.old).state) × (x.new.words ≡ call_words x.old.state code a b c x.old.words message.now block.old) × (block.new ≡ call_block x.old.state code a b c x.old.words message.now block.old) }
{
    firmware::cungkalisa_step(x, code, a, b, c, message, block)
}

// The parts of an answer out of its one number.
#[unsafe(no_mangle)]
pub extern "C" fn cungkalisa_number(answer: u64) -> u8
    ensures { result ≡ number_in answer }
{
    firmware::cungkalisa_number(answer)
}

#[unsafe(no_mangle)]
pub extern "C" fn cungkalisa_run(answer: u64) -> u8
    ensures { result ≡ run_in answer }
{
    firmware::cungkalisa_run(answer)
}

#[unsafe(no_mangle)]
pub extern "C" fn cungkalisa_value(answer: u64) -> u32
    ensures { result ≡ value_in answer }
{
    firmware::cungkalisa_value(answer)
}
