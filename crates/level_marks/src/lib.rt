// The word of level marks of a ready order, and the first ready level worked out from it.
#![tactic(auto)]

ghost use Rattle.std.specs.Prelude.{◌≡◌};
ghost use Rattle.task_lists.specs.TaskList.{items};
ghost use Rattle.level_marks.specs.Marks.{level_at, mark_of, marks_in, first_marked};

use task_lists::{LEVELS, PLACES, TaskList};

// A task's level; an id that has no place in the table is no task, and has none of the levels. The table is lent, so that a loop moves none.
fn level_at(levels: &[u8; PLACES], id: u8) -> u8
    ensures { result ≡ level_at levels.now id }
{
    levels.get(id as usize).copied().unwrap_or(LEVELS)
}

// The mark of a level: its bit alone. A level that there isn't has none.
fn mark(level: u8) -> u32
    ensures { result ≡ mark_of level }
{
    if LEVELS <= level {
        return 0;
    }
    1u32 << level
}

// The word of level marks: bit l is set exactly when a task of level l is ready.
pub fn marks(ready: TaskList, levels: [u8; PLACES]) -> u32
    ensures { result ≡ marks_in levels (items ready) }
{
    let n = task_lists::len(ready);
    let mut word: u32 = 0;
    for i in 0..n {
        word |= mark(level_at(&levels, ready.ids[i]));
    }
    word
}

// The first marked level: the number of zeros below the lowest mark. LEVELS where the word is 0.
pub fn first_level(word: u32) -> u8
    ensures { result ≡ first_marked word }
{
    word.trailing_zeros() as u8
}
