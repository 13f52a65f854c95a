// The kernel: the step that takes any record and any request, and the refusals that no step gives.
#![tactic(auto, unfolding(record::specs::StepRecord::answer_for, record::specs::Refused::refusal_number, task_lists::specs::TaskList::id_of, crate::specs::Planning::formed_by, crate::specs::Planning::planned))]

pub mod refused;

ghost use Rattle.std.specs.Prelude.{◌≡◌};
ghost use Rattle.record.specs.Whole.{whole};
ghost use Rattle.record.specs.StepRecord.{step_of, out_of};
ghost use Rattle.kernel.specs.Planning.{formed_by, unmoved, planned};

use moves::Move;
use record::{Answer, EIGHT, Out, Plan, Request, State};

// Has the message beside a request one to eight words? Only a send has one.
pub fn is_formed(x: Request, count: usize) -> bool
    ensures { result ≡ formed_by x count }
{
    match x {
        Request::Send { .. } => 0 < count && count <= EIGHT,
        _ => true,
    }
}

// A refusal: the record stays, and nothing is moved.
pub fn stay(s: State, a: Answer) -> Plan
    ensures { result ≡ unmoved s a }
{
    Plan {
        state: s,
        answer: a,
        moves: Move::Nothing,
    }
}

// A request on a record that was tested before, `sound` being what the test said: 14, 15, or its step, before any word is moved. The message beside it
// has `count` words, the lent block `space`.
fn plan(s: State, sound: bool, x: Request, count: usize, space: usize, words: &[u32]) -> Plan
    ensures { result ≡ planned sound s x count space words.now }
{
    if !is_formed(x, count) {
        let no_message = refused::malformed(s, sound);
        return stay(s, no_message);
    }
    if sound {
        return steps::perform(s, x, count, space, words);
    }
    stay(s, refused::unsound())
}

// The step: for any record with its words and block, any request and any message, what the rules answer; 15 with no task to run where the record isn't
// sound, and before that 14 for a send with no word or over eight.
pub fn step(s: State, x: Request, message: &[u32], words: &mut [u32], block: &mut [u32]) -> Out
    ensures answer { result ≡ out_of (step_of (whole s words.old block.old) x message.now) }
    ensures held { words.new ≡ (step_of (whole s words.old block.old) x message.now).whole.words }
    ensures memory { block.new ≡ (step_of (whole s words.old block.old) x message.now).whole.block }
{
    let sound = sound::is_sound(s, words, block.len());
    let p = plan(s, sound, x, message.len(), block.len(), words);
    moves::make(p.moves, words, message, block);
    Out {
        state: p.state,
        answer: p.answer,
    }
}
