// The steps on mutexes: the refusals in the order of the table, then what the step does.
#![tactic(auto, using(record::specs::RefusedLaws::refusal_some), unfolding(record::specs::Refused::refusal_code, record::specs::Refused::refusal_number, machine::specs::Machine::called_by, machine::specs::Machine::may_wait, machine::specs::Machine::timed_refusal, machine::specs::Machine::lock_step, machine::specs::Machine::lock_waits, machine::specs::Machine::unlock_step, machine::specs::Machine::passed_to, machine::specs::Machine::woke))]

ghost use Rattle.std.specs.Prelude.{◌≡◌};
ghost use Rattle.machine.specs.Machine.{lock_step, unlock_step};

use record::{NONE, ON_MUTEX, Plan, Refusal, State, reads};
use replies::{answers, refusals};

// A free mutex is taken; else the caller waits, unless it may not.
#[inline(never)]
pub fn lock(mut s: State, m: u32, time: u32) -> Plan
    ensures { result ≡ lock_step s m time }
{
    if let Err(no) = refusals::of_timed(s.started, s.running, s.mutexes.n, m, time) {
        return answers::refused(s, no);
    }
    let j = m as u8;
    let owner = reads::owner_at(s.mutexes, j);
    if owner == s.running {
        return answers::refused(s, Refusal::OwnerAlready);
    }
    if owner == NONE {
        s.mutexes = objects::set_owner(s.mutexes, j, s.running);
        return answers::done(s, 0);
    }
    if let Err(no) = refusals::of_wait(s.hold, time) {
        return answers::refused(s, no);
    }
    let f = leads::chain(s.tasks, s.mutexes.owner, s.queues.owner, owner, s.running);
    if f.ring {
        return answers::ring(s, u32::from(f.links));
    }
    effects::block(&mut s, ON_MUTEX, j, time);
    effects::settle(&mut s);
    effects::dispatch(&mut s);
    answers::waits(s, u32::from(f.links))
}

// Ownership passes to the best waiter; where nobody waits, the mutex becomes free.
#[inline(never)]
pub fn unlock(mut s: State, m: u32) -> Plan
    ensures { result ≡ unlock_step s m }
{
    if let Err(no) = refusals::of_caller(s.started, s.running) {
        return answers::refused(s, no);
    }
    if u32::from(s.mutexes.n) <= m {
        return answers::refused(s, Refusal::NoSuchObject);
    }
    let j = m as u8;
    if reads::owner_at(s.mutexes, j) != s.running {
        return answers::refused(s, Refusal::NotOwner);
    }
    let best = waits::best_for(s.tasks, s.waiting, ON_MUTEX, j);
    s.mutexes = objects::set_owner(s.mutexes, j, best);
    if best == NONE {
        return answers::done(s, 0);
    }
    effects::grant(&mut s, best);
    effects::settle(&mut s);
    effects::enter(&mut s, best);
    effects::dispatch(&mut s);
    answers::done(s, 0)
}
