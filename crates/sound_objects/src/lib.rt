// Mutexes and semaphores, and the waits on them: one function for each phrase of "sound state", over all places at once.
#![tactic(auto, using(lists::specs::OperatorLaws::operators, lists::specs::OperatorLaws::fits_amp, lists::specs::LoopLaws::all_none), unfolding(checks::specs::Checks::mutex_fits, checks::specs::Checks::sem_fits, checks::specs::Checks::blocked_fits))]

ghost use Rattle.std.specs.Prelude.{◌≡◌};
ghost use Rattle.lists.specs.Test.{allb};
ghost use Rattle.lists.specs.Table.{filled};
ghost use Rattle.rules.specs.Sizes.{task_places, max_mutexes, max_semaphores};
ghost use Rattle.checks.specs.Checks.{mutex_fits, mutex_fits_at, sem_fits, sem_fits_at, empty_at, at_object, blocked_fits, blocked_fits_at, free_at};

use record::{
    KINDS, MAX_MUTEXES, MAX_SEMAPHORES, MUTEXES, Mutexes, NONE, ON_MUTEX, ON_SEMAPHORE, SEMAPHORES,
    Semaphores, TASKS,
};

// A mutex's kind is in range, and its owner one of `tasks`; an unused one is as in the fresh record.
fn mutex_fits(used: bool, tasks: u8, kind: u8, owner: u8) -> bool
    ensures { result ≡ mutex_fits used tasks kind owner }
{
    let made = (kind < KINDS) & ((owner == NONE) | (owner < tasks));
    let unmade = (kind == 0) & (owner == NONE);
    (used & made) | (!used & unmade)
}

// Kinds are in range and "owners exist".
pub fn mutexes(m: Mutexes, tasks: u8) -> bool
    ensures { result ≡ allb max_mutexes (mutex_fits_at m.kind m.owner m.n tasks) }
{
    let mut fits = true;
    for i in 0..MAX_MUTEXES {
        fits &= mutex_fits(i < m.n, tasks, m.kind[i as usize], m.owner[i as usize]);
    }
    fits
}

// A count is at most its maximum, and that at least 1; an unused semaphore is as in the fresh record.
fn semaphore_fits(used: bool, count: u32, maximum: u32) -> bool
    ensures { result ≡ sem_fits used count maximum }
{
    let made = (count <= maximum) & (0 < maximum);
    let unmade = (count == 0) & (maximum == 0);
    (used & made) | (!used & unmade)
}

// "counts at most their maximum, maximum at least 1"
pub fn semaphores(count: &[u32; SEMAPHORES], maximum: &[u32; SEMAPHORES], n: u8) -> bool
    ensures { result ≡ allb max_semaphores (sem_fits_at count.now maximum.now n) }
{
    let mut fits = true;
    for i in 0..MAX_SEMAPHORES {
        fits &= semaphore_fits(i < n, count[i as usize], maximum[i as usize]);
    }
    fits
}

// 1 for each semaphore that has no credit.
pub fn empties(c: Semaphores) -> [u8; SEMAPHORES]
    ensures { result ≡ filled max_semaphores (empty_at c.count) }
{
    let mut f = [0u8; SEMAPHORES];
    for i in 0..SEMAPHORES {
        f[i] = u8::from(c.count[i] == 0);
    }
    f
}

// What stands in a table at the place of each task's object, whatever the kind of wait is: no branch hangs on it.
pub fn at_objects(object: &[u8; TASKS], table: [u8; SEMAPHORES]) -> [u8; TASKS]
    ensures { result ≡ filled task_places (at_object object.now table) }
{
    let mut a = [0u8; TASKS];
    for i in 0..TASKS {
        let at = object[i];
        a[i] = table[(at % MAX_SEMAPHORES) as usize];
    }
    a
}

// Whether a wait is for something that isn't available: a mutex that leads to an owner, a semaphore that is there and empty.
fn is_blocked(kind: u8, object: u8, semaphores: u8, next: u8, empty: u8) -> bool
    ensures { result ≡ blocked_fits kind object semaphores next empty }
{
    let by_count = (object < semaphores) & (empty == 1);
    let for_mutex = kind == ON_MUTEX;
    let for_another = (kind != ON_SEMAPHORE) | by_count;
    (for_mutex & (next != NONE)) | (!for_mutex & for_another)
}

// "each waiter waits for an existing object that isn't available to it (mutex owned, semaphore at 0) or for time"
pub fn blocked(
    wait: &[u8; TASKS],
    object: &[u8; TASKS],
    next: &[u8; TASKS],
    empty: &[u8; TASKS],
    semaphores: u8,
) -> bool
    ensures { result ≡ allb task_places (blocked_fits_at wait.now object.now next.now empty.now semaphores) }
{
    let mut fits = true;
    for i in 0..TASKS {
        fits &= is_blocked(wait[i], object[i], semaphores, next[i], empty[i]);
    }
    fits
}

// Is no mutex owned?
pub fn all_free(owner: &[u8; MUTEXES]) -> bool
    ensures { result ≡ allb max_mutexes (free_at owner.now) }
{
    let mut fits = true;
    for i in 0..MUTEXES {
        fits &= owner[i] == NONE;
    }
    fits
}
