// Sleep and tick: the refusals in the order of the table, then what the step does.
#![tactic(auto, using(record::specs::RefusedLaws::refusal_some), unfolding(machine::specs::Machine::blocked_on, record::specs::Refused::refusal_code, record::specs::Refused::refusal_number, machine::specs::Machine::called_by, machine::specs::Machine::sleep_step, machine::specs::Machine::tick_step, machine::specs::Machine::woke))]

ghost use Rattle.std.specs.Prelude.{◌≡◌};
ghost use Rattle.machine.specs.Machine.{tick_step, sleep_step};

use record::{GRANTED, MAX_TICKS, ON_TIME, Plan, Refusal, State, TIMED_OUT};
use replies::{answers, refusals};

#[inline(never)]
pub fn sleep(mut s: State, time: u32) -> Plan
    ensures { result ≡ sleep_step s time }
{
    if let Err(no) = refusals::of_caller(s.started, s.running) {
        return answers::refused(s, no);
    }
    if time == 0 || MAX_TICKS < time {
        return answers::refused(s, Refusal::OutOfRange);
    }
    if s.hold != 0 {
        return answers::refused(s, Refusal::Held);
    }
    effects::block(&mut s, ON_TIME, 0, time);
    effects::dispatch(&mut s);
    answers::waits(s, 0)
}

#[inline(never)]
pub fn tick(mut s: State) -> Plan
    ensures { result ≡ tick_step s }
{
    if s.started == 0 {
        return answers::refused(s, Refusal::WrongPhase);
    }
    let flags = waits::due_flags(s.tasks, s.clock);
    s.clock = waits::due_at(s.clock, 1);
    if !waits::any_flag(flags) {
        return answers::done(s, 0);
    }
    let waited = s.waiting;
    effects::wake(&mut s, flags, GRANTED, TIMED_OUT);
    effects::settle(&mut s);
    effects::enter_flagged(&mut s, waited, flags);
    effects::dispatch(&mut s);
    answers::done(s, 0)
}
