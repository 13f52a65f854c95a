// What the test of a record asks of a list, and how often each task stands there.
#![tactic(auto, using(lists::specs::OperatorLaws::operators, lists::specs::OperatorLaws::fits_amp, lists::specs::LoopLaws::all_none), unfolding(task_lists::specs::TaskList::id_fits))]

ghost use Rattle.std.specs.Prelude.{◌≡◌};
ghost use Rattle.lists.specs.Order.{ascb, tiesb};
ghost use Rattle.lists.specs.Test.{allb};
ghost use Rattle.rules.specs.Sizes.{task_places};
ghost use Rattle.task_lists.specs.TaskList.{items, key_of, counted, used_at, used_places, id_fits_by};

use task_lists::{NONE, PLACES, TaskList};

// The counts, each task's raised by how often it stands in the list.
pub fn count_in(c: [u8; PLACES], q: TaskList) -> [u8; PLACES]
    ensures { result ≡ counted c (items q) }
{
    let n = task_lists::len(q);
    let mut r = c;
    for i in 0..n {
        let j = q.ids[i] as usize;
        if j < PLACES {
            r[j] = r[j].wrapping_add(1);
        }
    }
    r
}

// Do the keys ascend?
pub fn ascending(q: TaskList, keys: [u8; PLACES]) -> bool
    ensures { result ≡ ascb (key_of keys) (items q) }
{
    let n = task_lists::len(q);
    for i in 1..n {
        let a = task_lists::key_of(keys, q.ids[i - 1]);
        let b = task_lists::key_of(keys, q.ids[i]);
        if b < a {
            return false;
        }
    }
    true
}

// Do neighbours of equal keys stand by id?
pub fn ties_by_id(q: TaskList, keys: [u8; PLACES]) -> bool
    ensures { result ≡ tiesb (key_of keys) (items q) }
{
    let n = task_lists::len(q);
    for i in 1..n {
        let x = q.ids[i - 1];
        let y = q.ids[i];
        if task_lists::key_of(keys, x) == task_lists::key_of(keys, y) {
            if y <= x {
                return false;
            }
        }
    }
    true
}

// The flags of the first `n` places.
pub fn used_places(n: u8) -> [u8; PLACES]
    ensures { result ≡ used_places n }
{
    let mut f = [0u8; PLACES];
    for i in 0..PLACES as u8 {
        f[i as usize] = u8::from(i < n);
    }
    f
}

// Does each used place of a list hold the id of one of `tasks`, and each unused one NONE?
pub fn ids_fit(ids: &[u8; PLACES], used: &[u8; PLACES], tasks: u8) -> bool
    ensures { result ≡ allb task_places (id_fits_by ids.now used.now tasks) }
{
    let mut fits = true;
    for i in 0..PLACES {
        let id = ids[i];
        fits &= if used[i] == 1 { id < tasks } else { id == NONE };
    }
    fits
}
