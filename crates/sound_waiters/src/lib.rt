// The waits at queues, for what isn't available: a waiting sender's queue is full, a waiting receiver's empty.
#![tactic(auto, using(lists::specs::OperatorLaws::operators, lists::specs::OperatorLaws::fits_amp, lists::specs::LoopLaws::all_none), unfolding(checks::specs::Checks::queue_wait_fits, checks::specs::Checks::queue_wait_fits))]

ghost use Rattle.std.specs.Prelude.{◌≡◌, not, ltb, eqb, get_or};
ghost use Rattle.lists.specs.Test.{◌and◌, ◌or◌, allb};
ghost use Rattle.rules.specs.Sizes.{task_places, on_send, on_receive};
ghost use Rattle.task_lists.specs.TaskList.{no_id};
ghost use Rattle.checks.specs.Checks.{past_at, queue_wait_fits, queue_waits_in};

use record::{NONE, ON_RECEIVE, ON_SEND, QUEUES, Queues, TASK_PLACES, TASKS};

// What a column holds for queue `q`; 0 for a number that no queue can have.
fn at(column: [u8; QUEUES], q: u8) -> u8
    ensures { result ≡ get_or column q 0 }
{
    column.get(q as usize).copied().unwrap_or(0)
}

// Task `i` waits to send to queue `q`: it is there and full, and the task's words past its width are 0.
fn sender_fits(x: Queues, words: &[u32], i: u8, q: u8) -> bool
    ensures { result ≡ ltb q x.n and eqb (get_or x.used q 0) (get_or x.depth q 0) and past_at words.now i (get_or x.width q 0) }
{
    if x.n <= q {
        return false;
    }
    if at(x.used, q) != at(x.depth, q) {
        return false;
    }
    sound_words::past(words, i, at(x.width, q))
}

// Task `i` waits to receive from queue `q`: it is there and empty, and has no owner or is the task's own.
fn receiver_fits(x: Queues, i: u8, q: u8) -> bool
    ensures { result ≡ ltb q x.n and eqb (get_or x.used q 0) 0 and (eqb (get_or x.owner q 0) no_id or eqb (get_or x.owner q 0) i) }
{
    let owner = at(x.owner, q);
    (q < x.n) & (at(x.used, q) == 0) & ((owner == NONE) | (owner == i))
}

// Whatever task `i` waits for, if it is a queue it isn't available to it.
fn wait_fits(x: Queues, words: &[u32], i: u8, kind: u8, q: u8) -> bool
    ensures { result ≡ queue_wait_fits x words.now i kind q }
{
    match kind {
        ON_SEND => sender_fits(x, words, i, q),
        ON_RECEIVE => receiver_fits(x, i, q),
        _ => true,
    }
}

// All waits at queues, task by task.
fn each_fits(wait: &[u8; TASKS], object: &[u8; TASKS], x: Queues, words: &[u32]) -> bool
    ensures { result ≡ queue_waits_in wait.now object.now x words.now }
{
    for i in 0..TASK_PLACES {
        let j = i as usize;
        if !wait_fits(x, words, i, wait[j], object[j]) {
            return false;
        }
    }
    true
}

// A wait of this kind is for no queue.
fn elsewhere(kind: u8) -> bool
    ensures { result ≡ not (eqb kind on_send or eqb kind on_receive) }
{
    !((kind == ON_SEND) | (kind == ON_RECEIVE))
}

// Does nobody wait at a queue?
fn none_waits(wait: &[u8; TASKS]) -> bool
    ensures { result ≡ allb task_places (λ i. not (eqb (get_or wait.now i 0) on_send or eqb (get_or wait.now i 0) on_receive)) }
{
    let mut none = true;
    for i in 0..TASKS {
        none &= elsewhere(wait[i]);
    }
    none
}

// Do all who wait at queues wait for what isn't available to them? Where nobody does, which is seen at once, tasks aren't looked at one by one.
pub fn fit(wait: &[u8; TASKS], object: &[u8; TASKS], x: Queues, words: &[u32]) -> bool
    ensures { result ≡ queue_waits_in wait.now object.now x words.now }
{
    none_waits(wait) || each_fits(wait, object, x, words)
}
