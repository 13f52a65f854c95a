// The one place where an answer is put together.
ghost use Rattle.std.specs.Prelude.{◌≡◌};
ghost use Rattle.record.specs.Refused.{refusal_number};
ghost use Rattle.record.specs.StepRecord.{answer_of};

use crate::{Answer, Refusal, refusal};

// "A step answered 0 or 1 is accepted; any other is refused"
pub fn answer(number: u8, value: u32, run: u8) -> Answer
    ensures { result ≡ answer_of number value run }
{
    if number <= 1 {
        return Answer::Accepted { number, value, run };
    }
    Answer::Refused { number, value, run }
}

// The answer of a step that is refused.
pub fn refused(why: Refusal, value: u32, run: u8) -> Answer
    ensures { result ≡ answer_of (refusal_number why) value run }
{
    answer(refusal::number(why), value, run)
}
