// Waits in the table of tasks: they begin and end, flags name tasks by them, and one waiter is the best.
#![tactic(auto, using(lists::specs::OperatorLaws::fits_amp, lists::specs::LoopLaws::all_none), unfolding(machine::specs::Machine::timed_for, machine::specs::Machine::due_for, machine::specs::Machine::wait_begun, machine::specs::Machine::ended_where, machine::specs::Machine::single, machine::specs::Machine::due_now, machine::specs::Machine::waits_on, machine::specs::Machine::any_flag))]

mod columns;

ghost use Rattle.std.specs.Prelude.{◌≡◌};
ghost use Rattle.lists.specs.Table.{filled};
ghost use Rattle.rules.specs.Sizes.{task_places};
ghost use Rattle.task_lists.specs.TaskList.{best_of};
ghost use Rattle.record.specs.Record.{due_at};
ghost use Rattle.machine.specs.Machine.{timed_for, due_for, wait_begun, ended_where, single, due_now, due_flag, waits_on, waiter_flag, any_flag};

use record::{FOREVER, PENDING, TASKS, Tasks, reads};
use task_lists::TaskList;

// "Wrapping add steps the clock and makes due times"
pub fn due_at(clock: u32, ticks: u32) -> u32
    ensures { result ≡ due_at clock ticks }
{
    clock.wrapping_add(ticks)
}

// 1 for a wait that ends at a time.
fn timed_for(time: u32) -> u8
    ensures { result ≡ timed_for time }
{
    u8::from(time != FOREVER)
}

// The clock at which a wait ends that begins now; 0 where it ends at no time.
fn due_for(clock: u32, time: u32) -> u32
    ensures { result ≡ due_for clock time }
{
    if time == FOREVER {
        0
    } else {
        due_at(clock, time)
    }
}

// Task `i` begins to wait, for so long from this clock on.
pub fn begin_wait(mut t: Tasks, i: u8, kind: u8, object: u8, clock: u32, time: u32) -> Tasks
    ensures { result ≡ wait_begun t i kind object (timed_for time) (due_for clock time) }
{
    let j = i as usize;
    let timed = timed_for(time);
    let due = due_for(clock, time);
    if j < TASKS {
        t.wait[j] = kind;
        t.object[j] = object;
        t.timed[j] = timed;
        t.due[j] = due;
        t.outcome[j] = PENDING;
    }
    t
}

// The waits of the tasks whose flag is 1 end, sleeps with one outcome and other waits with another.
pub fn end_where(mut t: Tasks, flags: [u8; TASKS], slept: u8, other: u8) -> Tasks
    ensures { result ≡ ended_where t flags slept other }
{
    let outcomes = columns::outcomes(t.outcome, &t.wait, &flags, slept, other);
    let no_wait = columns::cleared(t.wait, &flags);
    let no_object = columns::cleared(t.object, &flags);
    let untimed = columns::cleared(t.timed, &flags);
    let no_due = columns::times_cleared(t.due, &flags);
    t.outcome = outcomes;
    t.wait = no_wait;
    t.object = no_object;
    t.timed = untimed;
    t.due = no_due;
    t
}

// The flag of task `i` alone.
pub fn only(i: u8) -> [u8; TASKS]
    ensures { result ≡ single i }
{
    let mut f = [0u8; TASKS];
    let j = i as usize;
    if j < TASKS {
        f[j] = 1;
    }
    f
}

// Is this a timed wait with one tick left?
fn due_flag(timed: u8, due: u32, clock: u32) -> u8
    ensures { result ≡ due_now timed due clock }
{
    u8::from((timed == 1) & (reads::ticks_left(due, clock) == 1))
}

// The tasks whose waits end at the next tick.
pub fn due_flags(t: Tasks, clock: u32) -> [u8; TASKS]
    ensures { result ≡ filled task_places (due_flag t clock) }
{
    let timed = t.timed;
    let due = t.due;
    let mut f = [0u8; TASKS];
    for i in 0..TASKS {
        f[i] = due_flag(timed[i], due[i], clock);
    }
    f
}

// Is this a wait for the object?
fn waiter_flag(wait: u8, at: u8, kind: u8, object: u8) -> u8
    ensures { result ≡ waits_on wait at kind object }
{
    u8::from((wait == kind) & (at == object))
}

// The tasks that wait for the object.
pub fn waiter_flags(t: Tasks, kind: u8, object: u8) -> [u8; TASKS]
    ensures { result ≡ filled task_places (waiter_flag t kind object) }
{
    let wait = t.wait;
    let at = t.object;
    let mut f = [0u8; TASKS];
    for i in 0..TASKS {
        f[i] = waiter_flag(wait[i], at[i], kind, object);
    }
    f
}

// Does any place hold a 1? The loop has no way out, so that all places are tested at once.
pub fn any_flag(f: [u8; TASKS]) -> bool
    ensures { result ≡ any_flag f }
{
    let mut none = true;
    for i in 0..TASKS {
        none &= f[i] != 1;
    }
    !none
}

// The best waiter for an object, or NONE where nobody waits for it.
pub fn best_for(t: Tasks, waiting: TaskList, kind: u8, object: u8) -> u8
    ensures { result ≡ best_of waiting t.wait t.object t.level kind object }
{
    task_lists::best_waiter(waiting, t.wait, t.object, t.level, kind, object)
}
