// What each step does to a record.
#![tactic(auto, unfolding(machine::specs::Machine::machine_step))]

ghost use Rattle.std.specs.Prelude.{◌≡◌};
ghost use Rattle.machine.specs.Machine.{machine_step};

use record::{Plan, Request, State};

// The step of a request, before any word is moved; on a sound record it is what the rules answer (`MachineLaws.sound_step`). A message beside it has
// `count` words, the lent block has `space` words, and tasks hold `words`. A match, as each step has numbers of its own: a table of functions is no plainer.
pub fn perform(s: State, x: Request, count: usize, space: usize, words: &[u32]) -> Plan
    ensures { result ≡ machine_step s x count space words.now }
{
    match x {
        Request::Task { priority } => set_up_steps::task(s, priority),
        Request::Mutex { kind } => set_up_steps::mutex(s, kind),
        Request::Sem { count, maximum } => set_up_steps::sem(s, count, maximum),
        Request::Start => set_up_steps::start(s),
        Request::Lock { mutex, time } => mutex_steps::lock(s, mutex, time),
        Request::Unlock { mutex } => mutex_steps::unlock(s, mutex),
        Request::Pend { semaphore, time } => semaphore_steps::pend(s, semaphore, time),
        Request::Post { semaphore } => semaphore_steps::post(s, semaphore),
        Request::Flush { semaphore } => semaphore_steps::flush(s, semaphore),
        Request::Sleep { time } => time_steps::sleep(s, time),
        Request::Yield => plain_steps::yield_now(s),
        Request::Hold => plain_steps::hold(s),
        Request::Free => plain_steps::free(s),
        Request::Tick => time_steps::tick(s),
        Request::Level { task } => plain_steps::level(s, task),
        Request::Outcome { task } => plain_steps::outcome(s, task),
        Request::Queue { width, depth } => set_up_steps::queue(s, width, depth, space),
        Request::OwnedQueue {
            width,
            depth,
            owner,
        } => set_up_steps::owned_queue(s, width, depth, owner, space),
        Request::Send { queue, time } => queue_steps::send(s, queue, time, count),
        Request::Receive { queue, time } => queue_steps::receive(s, queue, time),
        Request::Word { task, n } => plain_steps::word(s, task, n, words),
    }
}
