// The steps on semaphores: the refusals in the order of the table, then what the step does.
#![tactic(auto, using(record::specs::RefusedLaws::refusal_some), unfolding(record::specs::Refused::refusal_code, record::specs::Refused::refusal_number, machine::specs::Machine::called_by, machine::specs::Machine::may_wait, machine::specs::Machine::timed_refusal, machine::specs::Machine::pend_step, machine::specs::Machine::post_step, machine::specs::Machine::credit_step, machine::specs::Machine::flush_step))]

ghost use Rattle.std.specs.Prelude.{◌≡◌};
ghost use Rattle.machine.specs.Machine.{pend_step, post_step, flush_step};

use record::{FLUSHED, NONE, ON_SEMAPHORE, Plan, Refusal, State, reads};
use replies::{answers, refusals};

#[inline(never)]
pub fn pend(mut s: State, k: u32, time: u32) -> Plan
    ensures { result ≡ pend_step s k time }
{
    if let Err(no) = refusals::of_timed(s.started, s.running, s.semaphores.n, k, time) {
        return answers::refused(s, no);
    }
    let j = k as u8;
    let count = reads::count_at(s.semaphores, j);
    if count != 0 {
        s.semaphores = objects::set_count(s.semaphores, j, count - 1);
        return answers::done(s, 0);
    }
    if let Err(no) = refusals::of_wait(s.hold, time) {
        return answers::refused(s, no);
    }
    effects::block(&mut s, ON_SEMAPHORE, j, time);
    effects::dispatch(&mut s);
    answers::waits(s, 0)
}

// The best waiter gets the credit; where nobody waits, the count rises up to the maximum.
#[inline(never)]
pub fn post(mut s: State, k: u32) -> Plan
    ensures { result ≡ post_step s k }
{
    if s.started == 0 {
        return answers::refused(s, Refusal::WrongPhase);
    }
    if u32::from(s.semaphores.n) <= k {
        return answers::refused(s, Refusal::NoSuchObject);
    }
    let j = k as u8;
    let best = waits::best_for(s.tasks, s.waiting, ON_SEMAPHORE, j);
    if best == NONE {
        let count = reads::count_at(s.semaphores, j);
        if reads::maximum_at(s.semaphores, j) <= count {
            return answers::refused(s, Refusal::AtMaximum);
        }
        s.semaphores = objects::set_count(s.semaphores, j, count + 1);
        return answers::done(s, 0);
    }
    effects::grant(&mut s, best);
    effects::enter(&mut s, best);
    effects::dispatch(&mut s);
    answers::done(s, 0)
}

#[inline(never)]
pub fn flush(mut s: State, k: u32) -> Plan
    ensures { result ≡ flush_step s k }
{
    if s.started == 0 {
        return answers::refused(s, Refusal::WrongPhase);
    }
    if u32::from(s.semaphores.n) <= k {
        return answers::refused(s, Refusal::NoSuchObject);
    }
    let flags = waits::waiter_flags(s.tasks, ON_SEMAPHORE, k as u8);
    let waited = s.waiting;
    effects::wake(&mut s, flags, FLUSHED, FLUSHED);
    effects::enter_flagged(&mut s, waited, flags);
    effects::dispatch(&mut s);
    answers::done(s, 0)
}
