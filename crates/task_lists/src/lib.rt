// Lists of task ids: a table of sixteen places whose first `n` are used, the others holding NONE.
#![tactic(auto)]

ghost use Rattle.std.specs.Prelude.{◌≡◌, ◌≤◌, ◌<◌, ℕ, Bool, length, take};
ghost use Rattle.lists.specs.Order.{keep};
ghost use Rattle.task_lists.specs.TaskList.{places, items, first_ids, key_of, pushed, place_of, opened, inserted, kept, task_list_of, tailed, inserted_flagged, every_id, best_of, waits_for};

// How many places a list has.
pub const PLACES: usize = 16;

// Stands in an unused place, and for no task.
pub const NONE: u8 = 255;

// How many levels there are.
pub const LEVELS: u8 = 32;

// A table with its count, and no Vec: fixed memory, laid out as C has it.
#[repr(C)]
#[derive(Clone, Copy, PartialEq, Eq)]
pub struct TaskList {
    pub ids: [u8; PLACES],
    pub n: u8,
}

// A task's number in a table; 0 for an id that has no place there.
pub fn key_of(keys: [u8; PLACES], id: u8) -> u8
    ensures { result ≡ key_of keys id }
{
    key_in(&keys, id)
}

// The same in a table that is lent, so that a loop moves no table.
fn key_in(keys: &[u8; PLACES], id: u8) -> u8
    ensures { result ≡ key_of keys.now id }
{
    keys.get(id as usize).copied().unwrap_or(0)
}

// How many stand in the list: a count beyond the table counts as the whole table.
pub fn len(q: TaskList) -> usize
    ensures { result ≡ length (items q) }
{
    (q.n as usize).min(PLACES)
}

// The list with `id` behind all others; a full one stays.
pub fn push(q: TaskList, id: u8) -> TaskList
    ensures { result ≡ pushed q id }
{
    let n = q.n as usize;
    if n < PLACES {
        let mut ids = q.ids;
        ids[n] = id;
        return TaskList { ids, n: q.n + 1 };
    }
    q
}

// The place of the first whose key is at least `t`, or behind all, in a table whose first `n` places are used.
fn place_in(ids: &[u8; PLACES], n: usize, keys: &[u8; PLACES], t: u16) -> usize
    requires { n ≤ places }
    ensures { result ≡ place_of keys.now t (take n ids.now) }
{
    for i in 0..n {
        let key = key_in(keys, ids[i]) as u16;
        if t <= key {
            return i;
        }
    }
    n
}

// `id` at place `p` of a table whose first `n` places are used, and what stood from there on one place on.
fn open_at(ids: &mut [u8; PLACES], p: usize, n: usize, id: u8)
    requires { (p ≤ n) × (n < places) }
    ensures { ids.new ≡ opened ids.old n p id }
{
    ids.copy_within(p..n, p + 1);
    ids[p] = id;
}

// `id` before the first whose key is at least `t`, in a table whose first `used` places are used, and how many are used then; a full one stays.
fn insert_in(ids: &mut [u8; PLACES], used: u8, keys: &[u8; PLACES], t: u16, id: u8) -> u8
    ensures { first_ids ids.new result ≡ inserted (first_ids ids.old used) keys.now t id }
{
    let n = used as usize;
    if PLACES <= n {
        return used;
    }
    let p = place_in(ids, n, keys, t);
    open_at(ids, p, n, id);
    used + 1
}

// The list with `id` before the first whose key is at least `t`; a full one stays.
pub fn insert(q: TaskList, keys: [u8; PLACES], t: u16, id: u8) -> TaskList
    ensures { result ≡ inserted q keys t id }
{
    let mut ids = q.ids;
    let n = insert_in(&mut ids, q.n, &keys, t, id);
    TaskList { ids, n }
}

// The list with `id` at the tail of its key; a full one stays.
pub fn insert_tail(q: TaskList, keys: [u8; PLACES], id: u8) -> TaskList
    ensures { result ≡ tailed q keys id }
{
    let t = key_in(&keys, id) as u16 + 1;
    insert(q, keys, t, id)
}

// The list of those that pass a test, in their order. The kept ids go into a table of their own, so that no list is moved in the loop.
fn keep_where<F: Fn(u8) -> bool>(q: TaskList, test: F) -> TaskList
    requires { F.IsAlwaysCallable test }
    ensures { (p : ℕ → Bool) → ((x : ℕ) (b : Bool) → F.post test x b → b ≡ p x) → result ≡ task_list_of (keep p (items q)) }
{
    let n = len(q);
    let mut ids = [NONE; PLACES];
    let mut k: usize = 0;
    for i in 0..n {
        let id = q.ids[i];
        if test(id) {
            ids[k] = id;
            k += 1;
        }
    }
    TaskList { ids, n: k as u8 }
}

// The list of those whose flag is `v`, in their order.
pub fn keep_flagged(q: TaskList, flags: [u8; PLACES], v: u8) -> TaskList
    ensures { result ≡ kept q flags v }
{
    keep_where(q, |id| key_in(&flags, id) == v)
}

// The list with each task of `order` whose flag is 1, in that order, at the tail of its key: one pass over the order. They go into one table in place, so that no list is moved in the loop.
pub fn insert_flagged(
    q: TaskList,
    keys: [u8; PLACES],
    flags: [u8; PLACES],
    order: TaskList,
) -> TaskList
    ensures { result ≡ inserted_flagged q keys flags (items order) }
{
    let n = len(order);
    let mut ids = q.ids;
    let mut k = q.n;
    for i in 0..n {
        let id = order.ids[i];
        if key_in(&flags, id) == 1 {
            let t = key_in(&keys, id) as u16 + 1;
            k = insert_in(&mut ids, k, &keys, t, id);
        }
    }
    TaskList { ids, n: k }
}

// Every id below `n`, ascending: an order to go through, not one to keep, since what stands behind the first `n` is not NONE.
pub fn every_id(n: u8) -> TaskList
    ensures { result ≡ every_id n }
{
    let mut ids = [0u8; PLACES];
    for i in 0..PLACES as u8 {
        ids[i as usize] = i;
    }
    TaskList { ids, n }
}

// The best waiter for an object: the first found going through the levels and, in a level, oldest wait first; NONE where nobody waits.
pub fn best_waiter(
    q: TaskList,
    kinds: [u8; PLACES],
    objects: [u8; PLACES],
    keys: [u8; PLACES],
    kind: u8,
    object: u8,
) -> u8
    ensures { result ≡ best_of q kinds objects keys kind object }
{
    let w = waiters_of(q, kinds, objects, kind, object);
    let n = len(w);
    if n == 0 {
        return NONE;
    }
    let mut l: u8 = 0;
    'levels: loop {
        if LEVELS <= l {
            break 'levels NONE;
        }
        'waits: for i in 0..n {
            let id = w.ids[i];
            if key_in(&keys, id) == l {
                break 'levels id;
            }
        }
        l += 1;
    }
}

// The list of those that wait for the object, in their order, so that the levels are gone through over these only.
fn waiters_of(
    q: TaskList,
    kinds: [u8; PLACES],
    objects: [u8; PLACES],
    kind: u8,
    object: u8,
) -> TaskList
    ensures { result ≡ task_list_of (keep (waits_for kinds objects kind object) (items q)) }
{
    keep_where(q, |id| waits_for(id, &kinds, &objects, kind, object))
}

// Does the task wait for the object?
fn waits_for(id: u8, kinds: &[u8; PLACES], objects: &[u8; PLACES], kind: u8, object: u8) -> bool
    ensures { result ≡ waits_for kinds.now objects.now kind object id }
{
    key_in(kinds, id) == kind && key_in(objects, id) == object
}
