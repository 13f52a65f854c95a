// Tasks, mutexes, semaphores and queues made, and what is theirs changed.
#![tactic(auto)]

ghost use Rattle.std.specs.Prelude.{◌≡◌, set};
ghost use Rattle.machine.specs.Machine.{owner_set, count_set, used_set, oldest_set, task_added, mutex_added, sem_added, queue_added};

use record::{MUTEXES, Mutexes, QUEUES, Queues, SEMAPHORES, Semaphores, TASKS, Tasks};

// Another value at a place of a column; a number that is no place changes nothing.
fn put<T: Copy>(column: &mut [T], i: u8, value: T)
    ensures { column.new ≡ set column.old i value }
{
    let at = i as usize;
    if at < column.len() {
        column[at] = value;
    }
}

// A mutex gets another owner.
#[tactic(auto, unfolding(machine::specs::Machine::owner_set))]
pub fn set_owner(mut m: Mutexes, j: u8, owner: u8) -> Mutexes
    ensures { result ≡ owner_set m j owner }
{
    put(&mut m.owner, j, owner);
    m
}

// A semaphore gets another count.
#[tactic(auto, unfolding(machine::specs::Machine::count_set))]
pub fn set_count(mut c: Semaphores, j: u8, value: u32) -> Semaphores
    ensures { result ≡ count_set c j value }
{
    put(&mut c.count, j, value);
    c
}

// A queue has another number of messages.
#[tactic(auto, unfolding(machine::specs::Machine::used_set))]
pub fn set_used(mut x: Queues, q: u8, value: u8) -> Queues
    ensures { result ≡ used_set x q value }
{
    put(&mut x.used, q, value);
    x
}

// A queue's oldest message is another.
#[tactic(auto, unfolding(machine::specs::Machine::oldest_set))]
pub fn set_oldest(mut x: Queues, q: u8, value: u8) -> Queues
    ensures { result ≡ oldest_set x q value }
{
    put(&mut x.oldest, q, value);
    x
}

// One task more; a full table stays.
#[tactic(auto, unfolding(machine::specs::Machine::task_added))]
pub fn add_task(mut t: Tasks, priority: u8) -> Tasks
    ensures { result ≡ task_added t priority }
{
    let i = t.n as usize;
    if TASKS <= i {
        return t;
    }
    t.priority[i] = priority;
    t.level[i] = priority;
    t.n += 1;
    t
}

// One mutex more; a full table stays.
#[tactic(auto, unfolding(machine::specs::Machine::mutex_added))]
pub fn add_mutex(mut m: Mutexes, kind: u8) -> Mutexes
    ensures { result ≡ mutex_added m kind }
{
    let i = m.n as usize;
    if MUTEXES <= i {
        return m;
    }
    m.kind[i] = kind;
    m.n += 1;
    m
}

// One semaphore more; a full table stays.
#[tactic(auto, unfolding(machine::specs::Machine::sem_added))]
pub fn add_semaphore(mut c: Semaphores, count: u32, maximum: u32) -> Semaphores
    ensures { result ≡ sem_added c count maximum }
{
    let i = c.n as usize;
    if SEMAPHORES <= i {
        return c;
    }
    c.count[i] = count;
    c.maximum[i] = maximum;
    c.n += 1;
    c
}

// One queue more; a full table stays.
#[tactic(auto, unfolding(machine::specs::Machine::queue_added))]
pub fn add_queue(mut x: Queues, width: u8, depth: u8, owner: u8) -> Queues
    ensures { result ≡ queue_added x width depth owner }
{
    let i = x.n as usize;
    if QUEUES <= i {
        return x;
    }
    x.width[i] = width;
    x.depth[i] = depth;
    x.owner[i] = owner;
    x.n += 1;
    x
}
