// What a step does to the record where it lies, phrase by phrase: the caller waits, waits end, tasks become ready, levels follow, and who runs.
#![tactic(auto)]

ghost use Rattle.std.specs.Prelude.{◌≡◌};
ghost use Rattle.rules.specs.Sizes.{granted};
ghost use Rattle.machine.specs.Machine.{blocked_on, single, woke, entered, all_entered, settled, dispatched};

use record::{GRANTED, NONE, State, TASKS};
use task_lists::TaskList;

// The caller waits for an object of this kind, for so long, and nobody runs.
#[tactic(auto, unfolding(machine::specs::Machine::blocked_on))]
pub fn block(s: &mut State, kind: u8, object: u8, time: u32)
    ensures { s.new ≡ blocked_on s.old s.old.running kind object time }
{
    let caller = s.running;
    s.tasks = waits::begin_wait(s.tasks, caller, kind, object, s.clock, time);
    s.waiting = task_lists::push(s.waiting, caller);
    s.running = NONE;
}

// The waits of the tasks whose flag is 1 end, sleeps with one outcome and other waits with another.
#[tactic(auto, unfolding(machine::specs::Machine::woke))]
pub fn wake(s: &mut State, flags: [u8; TASKS], slept: u8, other: u8)
    ensures { s.new ≡ woke s.old flags slept other }
{
    s.tasks = waits::end_where(s.tasks, flags, slept, other);
    s.waiting = task_lists::keep_flagged(s.waiting, flags, 0);
}

// The wait of task `i` alone ends: what it waited for is granted.
pub fn grant(s: &mut State, i: u8)
    ensures { s.new ≡ woke s.old (single i) granted granted }
{
    wake(s, waits::only(i), GRANTED, GRANTED);
}

// Task `i` becomes ready: it enters at the tail of its level.
#[tactic(auto, unfolding(machine::specs::Machine::entered))]
pub fn enter(s: &mut State, i: u8)
    ensures { s.new ≡ entered s.old i }
{
    s.ready = task_lists::insert_tail(s.ready, s.tasks.level, i);
}

// The tasks of an order whose flag is 1 become ready, in that order.
#[tactic(auto, unfolding(machine::specs::Machine::all_entered))]
pub fn enter_flagged(s: &mut State, order: TaskList, flags: [u8; TASKS])
    ensures { s.new ≡ all_entered s.old order flags }
{
    s.ready = task_lists::insert_flagged(s.ready, s.tasks.level, flags, order);
}

// "levels are as defined; ready tasks whose level changed go, by ascending id, to the tail of their new level"
#[tactic(auto, unfolding(machine::specs::Machine::settled))]
pub fn settle(s: &mut State)
    ensures { s.new ≡ settled s.old }
{
    let order = settle::settle(s.tasks, s.mutexes, s.queues.owner, s.ready);
    let levels = order.level;
    s.tasks.level = levels;
    s.ready = order.ready;
}

// "if nobody runs, the first ready task runs"; at hold 0 a more urgent one changes places with the running task.
#[tactic(auto, unfolding(machine::specs::Machine::dispatched))]
pub fn dispatch(s: &mut State)
    ensures { s.new ≡ dispatched s.old }
{
    let turn = settle::dispatch(s.started, s.ready, s.tasks.level, s.running, s.hold);
    s.ready = turn.ready;
    s.running = turn.running;
}
