// The refusals that no step gives: the record stays. `sound` is what the test of the record said.
ghost use Rattle.std.specs.Prelude.{◌≡◌};
ghost use Rattle.std.proofs.Math.Option.{none};
ghost use Rattle.task_lists.specs.TaskList.{id_of};
ghost use Rattle.record.specs.StepRecord.{answer_for, standing_by};

use record::{Answer, NONE, Refusal, State, TASK_PLACES, answers};

// 15: the record isn't sound. No task is to run.
pub fn unsound() -> Answer
    ensures { result ≡ answer_for 15 0 none }
{
    answers::refused(Refusal::Unsound, 0, NONE)
}

// "The task to run is then the running one as it stands; where the state handed in isn't sound, it is none"
fn standing(s: State, sound: bool) -> u8
    ensures { result ≡ id_of (standing_by sound s) }
{
    if sound && s.running < TASK_PLACES {
        return s.running;
    }
    NONE
}

// 14: what was asked for is no step.
pub fn malformed(s: State, sound: bool) -> Answer
    ensures { result ≡ answer_for 14 0 (standing_by sound s) }
{
    answers::refused(Refusal::NoStep, 0, standing(s, sound))
}

// The log's 8: the line that would report the answer has no room, and the step isn't made.
pub fn without_room(s: State, sound: bool) -> Answer
    ensures { result ≡ answer_for 8 0 (standing_by sound s) }
{
    answers::refused(Refusal::NoRoom, 0, standing(s, sound))
}
