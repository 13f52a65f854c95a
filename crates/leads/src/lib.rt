// Who leads to whom by what each task waits for, and the levels that follow.
#![tactic(auto, using(lists::specs::OperatorLaws::operators, lists::specs::OperatorLaws::fits_amp, lists::specs::LoopLaws::all_none), unfolding(record::specs::Reads::new_levels))]

ghost use Rattle.std.specs.Prelude.{◌≡◌, cond, not, ltb, eqb, length, get_or};
ghost use Rattle.lists.specs.Test.{◌or◌, allb};
ghost use Rattle.lists.specs.Table.{filled};
ghost use Rattle.lists.specs.Count.{member};
ghost use Rattle.lists.specs.Order.{before};
ghost use Rattle.rules.specs.Sizes.{task_places, max_mutexes, max_queues, on_mutex, on_send};
ghost use Rattle.task_lists.specs.TaskList.{no_id};
ghost use Rattle.walks.specs.Walk.{chain_from};
ghost use Rattle.record.specs.Reads.{led_by, leads_at, leads_nowhere_at, heir_by, heir_at, new_levels};
ghost use Rattle.record.specs.declared.Queues.{Queues};

use record::{
    INHERITING, MAX_MUTEXES, MAX_QUEUES, MUTEXES, Mutexes, NONE, ON_MUTEX, ON_SEND, QUEUES, TASKS,
    Tasks,
};
use walks::Found;

// Whom a wait leads to, by its kind and object; `holder` and `receiver` are who stands at the object's place in the tables of mutexes and of
// queues. A new kind of wait is a test more.
fn led_to(kind: u8, object: u8, holder: u8, receiver: u8) -> u8
    ensures { result ≡ cond (eqb kind on_mutex) (cond (ltb object max_mutexes) holder no_id) (cond (eqb kind on_send) (cond (ltb object max_queues) receiver no_id) no_id) }
{
    match kind {
        ON_MUTEX if object < MAX_MUTEXES => holder,
        ON_SEND if object < MAX_QUEUES => receiver,
        _ => NONE,
    }
}

// Whom each task leads to, one after another. The tables are read whatever the kind of wait is, so that no branch hangs on it.
fn each_leads(
    wait: &[u8; TASKS],
    object: &[u8; TASKS],
    mutexes: [u8; MUTEXES],
    queues: [u8; QUEUES],
) -> [u8; TASKS]
    ensures { result ≡ filled task_places (λ i. led_by mutexes queues (get_or wait.now i 0) (get_or object.now i 0)) }
{
    let mut a = [NONE; TASKS];
    for i in 0..TASKS {
        let at = object[i];
        let holder = mutexes[(at % MAX_MUTEXES) as usize];
        let receiver = queues[(at % MAX_QUEUES) as usize];
        a[i] = led_to(wait[i], at, holder, receiver);
    }
    a
}

// A wait of this kind leads to nobody.
fn leads_nowhere(kind: u8) -> bool
    ensures { result ≡ not (eqb kind on_mutex or eqb kind on_send) }
{
    !((kind == ON_MUTEX) | (kind == ON_SEND))
}

// Does nobody wait for a mutex or to send? Then nobody leads to anybody.
pub fn none_waits(wait: &[u8; TASKS]) -> bool
    ensures { result ≡ allb task_places (leads_nowhere_at wait.now) }
{
    let mut none = true;
    for i in 0..TASKS {
        none &= leads_nowhere(wait[i]);
    }
    none
}

// Whom each task leads to; `mutexes` says whom a wait for each mutex leads to: its owner, or only an heir; `queues` whom a wait to send to each
// queue does. Where nobody leads to anybody, which is seen at once, tasks aren't looked at one by one.
pub fn leads_of(
    wait: &[u8; TASKS],
    object: &[u8; TASKS],
    mutexes: [u8; MUTEXES],
    queues: [u8; QUEUES],
) -> [u8; TASKS]
    ensures { result ≡ filled task_places (λ i. led_by mutexes queues (get_or wait.now i 0) (get_or object.now i 0)) }
{
    if none_waits(wait) {
        return [NONE; TASKS];
    }
    each_leads(wait, object, mutexes, queues)
}

// Who is lent the levels of those that wait for a mutex: its owner, where it is inheriting.
fn heir(kind: u8, owner: u8) -> u8
    ensures { result ≡ heir_by kind owner }
{
    if kind == INHERITING { owner } else { NONE }
}

// Each mutex's heir.
pub fn heirs_of(m: Mutexes) -> [u8; MUTEXES]
    ensures { result ≡ filled max_mutexes (heir_at m) }
{
    let mut a = [NONE; MUTEXES];
    for i in 0..MUTEXES {
        a[i] = heir(m.kind[i], m.owner[i]);
    }
    a
}

// Every task's level, as the rules define it; of the queues only the owners count.
pub fn new_levels(t: Tasks, m: Mutexes, queues: [u8; QUEUES]) -> [u8; TASKS]
    ensures { (x : Queues) → x.owner ≡ queues → result ≡ new_levels t m x }
{
    let lends = leads_of(&t.wait, &t.object, heirs_of(m), queues);
    walks::levels_of(t.priority, &lends, t.n)
}

// What the walk from an owner along the owners of what is waited for finds: its end, or the caller.
pub fn chain(t: Tasks, mutexes: [u8; MUTEXES], queues: [u8; QUEUES], owner: u8, caller: u8) -> Found
    ensures links { result.links ≡ length (before caller (chain_from (filled task_places (leads_at t mutexes queues)) owner t.n)) }
    ensures ring { result.ring ≡ member caller (chain_from (filled task_places (leads_at t mutexes queues)) owner t.n) }
{
    let next = leads_of(&t.wait, &t.object, mutexes, queues);
    walks::follow(&next, owner, caller, t.n)
}
