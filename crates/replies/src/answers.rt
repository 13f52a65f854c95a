// What a step hands back: the record, its answer with the running task of that record, and what is to be moved.
ghost use Rattle.std.specs.Prelude.{◌≡◌};
ghost use Rattle.record.specs.Refused.{refusal_number};
ghost use Rattle.machine.specs.Machine.{answer_in, answer_moving};

use moves::Move;
use record::{Plan, Refusal, State, answers, refusal};

// The numbers of a step that is accepted: it is done, or the caller now waits.
const DONE: u8 = 0;

const WAITS: u8 = 1;

// A step that moves words of a message.
pub fn moving(s: State, number: u8, value: u32, m: Move) -> Plan
    ensures { result ≡ answer_moving s number value m }
{
    let a = answers::answer(number, value, s.running);
    Plan {
        state: s,
        answer: a,
        moves: m,
    }
}

// A step that moves none.
pub fn answer(s: State, number: u8, value: u32) -> Plan
    ensures { result ≡ answer_in s number value }
{
    moving(s, number, value, Move::Nothing)
}

// A step that is done, with its value.
pub fn done(s: State, value: u32) -> Plan
    ensures { result ≡ answer_in s 0 value }
{
    answer(s, DONE, value)
}

// A step by which the caller waits, with the links of its chain.
pub fn waits(s: State, links: u32) -> Plan
    ensures { result ≡ answer_in s 1 links }
{
    answer(s, WAITS, links)
}

// A step that is done and moves words of a message.
pub fn done_moving(s: State, m: Move) -> Plan
    ensures { result ≡ answer_moving s 0 0 m }
{
    moving(s, DONE, 0, m)
}

// The caller waits, and words of its message are moved.
pub fn waits_moving(s: State, links: u32, m: Move) -> Plan
    ensures { result ≡ answer_moving s 1 links m }
{
    moving(s, WAITS, links, m)
}

// A step that is refused: the record is the one handed in.
pub fn refused(s: State, why: Refusal) -> Plan
    ensures { result ≡ answer_in s (refusal_number why) 0 }
{
    answer(s, refusal::number(why), 0)
}

// A wait that would close a ring of so many links.
#[tactic(auto, unfolding(record::specs::Refused::refusal_number))]
pub fn ring(s: State, links: u32) -> Plan
    ensures { result ≡ answer_in s 12 links }
{
    answer(s, refusal::number(Refusal::Ring), links)
}
