// After each accepted step: levels, the ready order, and who runs. Parts of the record come in and go out, never the whole of it.
#![tactic(auto, unfolding(machine::specs::Machine::resettled, machine::specs::Machine::moved_of, machine::specs::Machine::order_of, machine::specs::Machine::displaced))]

mod tables;

ghost use Rattle.std.specs.Prelude.{◌≡◌, ◌<◌};
ghost use Rattle.machine.specs.Machine.{resettled, order_of, rest_of, displaced, turn_of};
ghost use Rattle.record.specs.declared.Queues.{Queues};

use machine::{Order, Turn};
use record::{Mutexes, NONE, QUEUES, TASKS, Tasks};
use task_lists::TaskList;

// The ready order by the new levels: those whose level changed go, by id, to the tail of their level. Mostly no level changed, and the order stays.
fn resettle(q: TaskList, old: [u8; TASKS], new: [u8; TASKS], n: u8) -> TaskList
    ensures { result ≡ resettled q old new n }
{
    let changed = tables::differ(old, new);
    if !waits::any_flag(changed) {
        return q;
    }
    let there = task_list_checks::count_in([0u8; TASKS], q);
    let moved = tables::both(changed, there);
    let stay = task_lists::keep_flagged(q, changed, 0);
    let ids = task_lists::every_id(n);
    task_lists::insert_flagged(stay, new, moved, ids)
}

// Levels as defined, and the ready order that follows them; of the queues only the owners count. Who became ready enters afterwards.
pub fn settle(t: Tasks, m: Mutexes, queues: [u8; QUEUES], ready: TaskList) -> Order
    ensures { (x : Queues) → x.owner ≡ queues → result ≡ order_of t m x ready }
{
    let old = t.level;
    let new = leads::new_levels(t, m, queues);
    let order = resettle(ready, old, new, t.n);
    Order {
        level: new,
        ready: order,
    }
}

// The list without its first: only the used places move.
fn rest(q: TaskList) -> TaskList
    requires { 0 < q.n }
    ensures { result ≡ rest_of q }
{
    let from = q.ids;
    let left = task_lists::len(q) - 1;
    let mut ids = [NONE; TASKS];
    for i in 0..left {
        ids[i] = from[i + 1];
    }
    TaskList { ids, n: left as u8 }
}

// The ready order when its first task takes the place of task `old`, which goes to the head of its level.
fn displace(q: TaskList, levels: [u8; TASKS], old: u8) -> TaskList
    requires { 0 < q.n }
    ensures { result ≡ displaced q levels old }
{
    let others = rest(q);
    let level = task_lists::key_of(levels, old) as u16;
    task_lists::insert(others, levels, level, old)
}

// "if nobody runs, the first ready task runs"; it displaces a running one only if hold is 0 and it is strictly more urgent. The first ready
// level is worked out from a word of level marks, which is 0 where nobody is ready.
pub fn dispatch(started: u8, ready: TaskList, levels: [u8; TASKS], running: u8, hold: u8) -> Turn
    ensures { result ≡ turn_of started ready levels running hold }
{
    let stay = Turn { ready, running };
    if started == 0 {
        return stay;
    }
    let word = level_marks::marks(ready, levels);
    if word == 0 {
        return stay;
    }
    let first = ready.ids[0];
    if running == NONE {
        let others = rest(ready);
        return Turn {
            ready: others,
            running: first,
        };
    }
    if hold != 0 {
        return stay;
    }
    if level_marks::first_level(word) < task_lists::key_of(levels, running) {
        let others = displace(ready, levels, running);
        return Turn {
            ready: others,
            running: first,
        };
    }
    stay
}
