// Yield, hold and free, level, outcome, word: the refusals in the order of the table, then what the step does.
#![tactic(auto, using(record::specs::RefusedLaws::refusal_some), unfolding(record::specs::Refused::refusal_code, record::specs::Refused::refusal_number, machine::specs::Machine::called_by, machine::specs::Machine::yield_step, machine::specs::Machine::hold_step, machine::specs::Machine::free_step, machine::specs::Machine::level_step, machine::specs::Machine::outcome_step, machine::specs::Machine::word_step))]

ghost use Rattle.std.specs.Prelude.{◌≡◌, cond, leb};
ghost use Rattle.task_lists.specs.TaskList.{key_of};
ghost use Rattle.machine.specs.Machine.{answer_in, yield_step, hold_step, free_step, level_step, outcome_step, word_step};

use record::{EIGHT, MAX_HOLD, NONE, Plan, Refusal, State, TASKS};
use replies::{answers, refusals};

#[inline(never)]
pub fn yield_now(mut s: State) -> Plan
    ensures { result ≡ yield_step s }
{
    if let Err(no) = refusals::of_caller(s.started, s.running) {
        return answers::refused(s, no);
    }
    if s.hold != 0 {
        return answers::refused(s, Refusal::Held);
    }
    let caller = s.running;
    effects::enter(&mut s, caller);
    s.running = NONE;
    effects::dispatch(&mut s);
    answers::done(s, 0)
}

#[inline(never)]
pub fn hold(mut s: State) -> Plan
    ensures { result ≡ hold_step s }
{
    if let Err(no) = refusals::of_caller(s.started, s.running) {
        return answers::refused(s, no);
    }
    if MAX_HOLD <= s.hold {
        return answers::refused(s, Refusal::HoldLimit);
    }
    s.hold += 1;
    answers::done(s, 0)
}

#[inline(never)]
pub fn free(mut s: State) -> Plan
    ensures { result ≡ free_step s }
{
    if let Err(no) = refusals::of_caller(s.started, s.running) {
        return answers::refused(s, no);
    }
    if s.hold == 0 {
        return answers::refused(s, Refusal::HoldLimit);
    }
    s.hold -= 1;
    effects::dispatch(&mut s);
    answers::done(s, 0)
}

// What a column holds for a task.
fn of_task(s: State, task: u32, column: [u8; TASKS]) -> Plan
    ensures { result ≡ cond (leb s.tasks.n task) (answer_in s 6 0) (answer_in s 0 (key_of column task)) }
{
    if u32::from(s.tasks.n) <= task {
        return answers::refused(s, Refusal::NoSuchObject);
    }
    let v = task_lists::key_of(column, task as u8);
    answers::done(s, u32::from(v))
}

#[inline(never)]
pub fn level(s: State, task: u32) -> Plan
    ensures { result ≡ level_step s task }
{
    of_task(s, task, s.tasks.level)
}

#[inline(never)]
pub fn outcome(s: State, task: u32) -> Plan
    ensures { result ≡ outcome_step s task }
{
    of_task(s, task, s.tasks.outcome)
}

// A word that a task holds; `words` has eight for each task.
#[inline(never)]
pub fn word(s: State, task: u32, n: u32, words: &[u32]) -> Plan
    ensures { result ≡ word_step s task n words.now }
{
    if u32::from(s.tasks.n) <= task {
        return answers::refused(s, Refusal::NoSuchObject);
    }
    if EIGHT as u32 <= n {
        return answers::refused(s, Refusal::OutOfRange);
    }
    let v = moves::word(words, EIGHT * (task as usize) + (n as usize));
    answers::done(s, v)
}
