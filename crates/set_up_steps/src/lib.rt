// The steps of set-up, creation and start: the refusals in the order of the table, then what the step does.
#![tactic(auto, using(record::specs::RefusedLaws::refusal_some), unfolding(record::specs::Refused::refusal_code, record::specs::Refused::refusal_number, machine::specs::Machine::task_step, machine::specs::Machine::mutex_step, machine::specs::Machine::sem_step, machine::specs::Machine::queue_step, machine::specs::Machine::owned_queue_step, machine::specs::Machine::queue_made, machine::specs::Machine::start_step))]

mod room;

ghost use Rattle.std.specs.Prelude.{◌≡◌};
ghost use Rattle.machine.specs.Machine.{task_step, mutex_step, sem_step, queue_made, queue_step, owned_queue_step, start_step};

use record::{KINDS, LEVELS, MAX_MUTEXES, MAX_SEMAPHORES, MAX_TASKS, NONE, Plan, Refusal, State};
use replies::answers;

#[inline(never)]
pub fn task(mut s: State, priority: u32) -> Plan
    ensures { result ≡ task_step s priority }
{
    if s.started != 0 {
        return answers::refused(s, Refusal::WrongPhase);
    }
    if u32::from(LEVELS) <= priority {
        return answers::refused(s, Refusal::OutOfRange);
    }
    let id = s.tasks.n;
    if MAX_TASKS <= id {
        return answers::refused(s, Refusal::NoRoom);
    }
    s.tasks = objects::add_task(s.tasks, priority as u8);
    effects::enter(&mut s, id);
    answers::done(s, u32::from(id))
}

#[inline(never)]
pub fn mutex(mut s: State, kind: u32) -> Plan
    ensures { result ≡ mutex_step s kind }
{
    if s.started != 0 {
        return answers::refused(s, Refusal::WrongPhase);
    }
    if u32::from(KINDS) <= kind {
        return answers::refused(s, Refusal::OutOfRange);
    }
    let id = s.mutexes.n;
    if MAX_MUTEXES <= id {
        return answers::refused(s, Refusal::NoRoom);
    }
    s.mutexes = objects::add_mutex(s.mutexes, kind as u8);
    answers::done(s, u32::from(id))
}

#[inline(never)]
pub fn sem(mut s: State, count: u32, maximum: u32) -> Plan
    ensures { result ≡ sem_step s count maximum }
{
    if s.started != 0 {
        return answers::refused(s, Refusal::WrongPhase);
    }
    if maximum == 0 || maximum < count {
        return answers::refused(s, Refusal::OutOfRange);
    }
    let id = s.semaphores.n;
    if MAX_SEMAPHORES <= id {
        return answers::refused(s, Refusal::NoRoom);
    }
    s.semaphores = objects::add_semaphore(s.semaphores, count, maximum);
    answers::done(s, u32::from(id))
}

// A queue of this owner, or of none, where there is room for it.
fn made(mut s: State, width: u32, depth: u32, owner: u8, space: usize) -> Plan
    ensures { result ≡ queue_made s width depth owner space }
{
    if let Err(no) = room::refusal(s.queues, width, depth, space) {
        return answers::refused(s, no);
    }
    let id = s.queues.n;
    s.queues = objects::add_queue(s.queues, width as u8, depth as u8, owner);
    answers::done(s, u32::from(id))
}

// A queue that anybody may receive from; `space` is the length of the lent block, in words.
#[inline(never)]
pub fn queue(s: State, width: u32, depth: u32, space: usize) -> Plan
    ensures { result ≡ queue_step s width depth space }
{
    if s.started != 0 {
        return answers::refused(s, Refusal::WrongPhase);
    }
    made(s, width, depth, NONE, space)
}

// A queue that only its owner receives from.
#[inline(never)]
pub fn owned_queue(s: State, width: u32, depth: u32, owner: u32, space: usize) -> Plan
    ensures { result ≡ owned_queue_step s width depth owner space }
{
    if s.started != 0 {
        return answers::refused(s, Refusal::WrongPhase);
    }
    if u32::from(s.tasks.n) <= owner {
        return answers::refused(s, Refusal::NoSuchObject);
    }
    let receiver = owner as u8;
    made(s, width, depth, receiver, space)
}

#[inline(never)]
pub fn start(mut s: State) -> Plan
    ensures { result ≡ start_step s }
{
    if s.started != 0 {
        return answers::refused(s, Refusal::WrongPhase);
    }
    s.started = 1;
    effects::dispatch(&mut s);
    answers::done(s, 0)
}
