// An answer in one number.
ghost use Rattle.std.specs.Prelude.{◌≡◌};
ghost use Rattle.calls.specs.Packed.{packed_parts, number_in, run_in, value_in, Carries};

use record::Answer;

// How far apart the parts stand: the number in bits 0 to 7, the task to run in 8 to 15, the value in 32 to 63.
pub const BYTE: u64 = 256;

pub const WORD: u64 = 4294967296;

fn join(number: u8, value: u32, run: u8) -> u64
    ensures { (result ≡ packed_parts number value run) × (number_in result ≡ number) × (run_in result ≡ run) × (value_in result ≡ value) }
{
    number as u64 + run as u64 * BYTE + value as u64 * WORD
}

// An answer in one number, from which each part comes out again. No `From`: neither the answer nor `u64` is a type of this crate.
#[tactic(auto, unfolding(record::specs::StepRecord::number_of, record::specs::StepRecord::value_of, record::specs::StepRecord::run_of))]
pub fn answer_code(x: Answer) -> u64
    ensures { Carries result x }
{
    match x {
        Answer::Accepted { number, value, run } | Answer::Refused { number, value, run } => {
            join(number, value, run)
        }
    }
}
