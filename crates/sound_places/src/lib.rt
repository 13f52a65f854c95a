// Does each task stand in one place, do the chains of waits end, and are levels as defined?
#![tactic(auto, using(lists::specs::OperatorLaws::operators, lists::specs::OperatorLaws::fits_amp, lists::specs::LoopLaws::all_none), unfolding(checks::specs::Checks::waits_once, checks::specs::Checks::stands_once))]

ghost use Rattle.std.specs.Prelude.{◌≡◌, get_or};
ghost use Rattle.lists.specs.Test.{◌and◌, allb};
ghost use Rattle.chains.specs.Chain.{endsb};
ghost use Rattle.rules.specs.Sizes.{task_places, max_mutexes, max_queues};
ghost use Rattle.walks.specs.Walk.{task_at, next_in};
ghost use Rattle.checks.specs.Checks.{waits_once, stands_once, place_fits, place_at, same_at};

use record::{MUTEXES, NO_WAIT, QUEUES, TASK_PLACES, TASKS};

// How often a task stands in the order of waits, by its kind of wait.
fn waits_once(kind: u8) -> u8
    ensures { result ≡ waits_once kind }
{
    u8::from(kind != NO_WAIT)
}

// How often task `i` of `n` stands in the order of waits and the ready order together.
fn stands_once(n: u8, running: u8, i: u8) -> u8
    ensures { result ≡ stands_once n running i }
{
    u8::from((running != i) & (i < n))
}

// Task `i` stands in one place: `waits` counts how often it waits, `all` how often it waits or is ready.
fn place_fits(kind: u8, waits: u8, all: u8, n: u8, running: u8, i: u8) -> bool
    ensures { result ≡ place_fits kind waits all n running i }
{
    (waits == waits_once(kind)) & (all == stands_once(n, running, i))
}

// "each task in exactly one of running, ready, waiting", by tables of these counts.
pub fn places(
    kind: &[u8; TASKS],
    waits: &[u8; TASKS],
    all: &[u8; TASKS],
    n: u8,
    running: u8,
) -> bool
    ensures { result ≡ allb task_places (place_at kind.now waits.now all.now n running) }
{
    let mut fits = true;
    for i in 0..TASK_PLACES {
        let j = i as usize;
        fits &= place_fits(kind[j], waits[j], all[j], n, running, i);
    }
    fits
}

// The chain of each of a table's owners ends.
fn each_ends(next: &[u8; TASKS], owner: &[u8; MUTEXES]) -> bool
    ensures { result ≡ allb max_mutexes (λ j. endsb task_places (next_in next.now) (task_at (get_or owner.now j 0))) }
{
    for j in 0..MUTEXES {
        if !walks::ends(next, owner[j], TASK_PLACES) {
            return false;
        }
    }
    true
}

// The same. Where nothing is owned, which is seen at once, there is no chain to walk along.
fn table_ends(next: &[u8; TASKS], owner: &[u8; MUTEXES]) -> bool
    ensures { result ≡ allb max_mutexes (λ j. endsb task_places (next_in next.now) (task_at (get_or owner.now j 0))) }
{
    sound_objects::all_free(owner) || each_ends(next, owner)
}

// "no ring of waits": the chain of every owner ends, of mutexes and of queues, whose tables are equally long. Who waits for nothing that is owned
// closes no ring.
pub fn owners_end(next: &[u8; TASKS], mutexes: &[u8; MUTEXES], queues: &[u8; QUEUES]) -> bool
    ensures { result ≡ allb max_mutexes (λ j. endsb task_places (next_in next.now) (task_at (get_or mutexes.now j 0))) and allb max_queues (λ j. endsb task_places (next_in next.now) (task_at (get_or queues.now j 0))) }
{
    table_ends(next, mutexes) && table_ends(next, queues)
}

// "stored levels as defined": do two tables hold the same?
pub fn same(level: &[u8; TASKS], lent: &[u8; TASKS]) -> bool
    ensures { result ≡ allb task_places (same_at level.now lent.now) }
{
    let mut fits = true;
    for i in 0..TASKS {
        fits &= level[i] == lent[i];
    }
    fits
}
