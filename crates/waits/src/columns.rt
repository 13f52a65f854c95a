// Columns of the table of tasks, changed where a flag is 1: each a loop that only chooses numbers, so that all places are done at once.
ghost use Rattle.std.specs.Prelude.{◌≡◌, if◌then◌else◌, nat_eq};
ghost use Rattle.task_lists.specs.TaskList.{key_of};
ghost use Rattle.machine.specs.Machine.{put_flagged, outcome_on};

use record::{ON_TIME, TASKS};

// The column with 0 where the flag is 1.
pub fn cleared(column: [u8; TASKS], flags: &[u8; TASKS]) -> [u8; TASKS]
    ensures { result ≡ put_flagged flags.now (λ i. 0) column }
{
    let mut r = [0u8; TASKS];
    for i in 0..TASKS {
        r[i] = if flags[i] == 1 { 0 } else { column[i] };
    }
    r
}

// The same for due times; not one function over both element types, since the clause's `put_flagged` is of tables of numbers.
pub fn times_cleared(column: [u32; TASKS], flags: &[u8; TASKS]) -> [u32; TASKS]
    ensures { result ≡ put_flagged flags.now (λ i. 0) column }
{
    let mut r = [0u32; TASKS];
    for i in 0..TASKS {
        r[i] = if flags[i] == 1 { 0 } else { column[i] };
    }
    r
}

// The outcome of a task whose wait, if flagged, ends.
fn outcome_after(flag: u8, kind: u8, slept: u8, other: u8, outcome: u8) -> u8
    ensures { result ≡ (if nat_eq flag 1 then outcome_on kind slept other else outcome) }
{
    if flag != 1 {
        return outcome;
    }
    if kind == ON_TIME {
        return slept;
    }
    other
}

// The outcomes after the flagged waits ended, sleeps with one and other waits with another.
pub fn outcomes(
    column: [u8; TASKS],
    kind: &[u8; TASKS],
    flags: &[u8; TASKS],
    slept: u8,
    other: u8,
) -> [u8; TASKS]
    ensures { result ≡ put_flagged flags.now (λ i. outcome_on (key_of kind.now i) slept other) column }
{
    let mut r = [0u8; TASKS];
    for i in 0..TASKS {
        r[i] = outcome_after(flags[i], kind[i], slept, other, column[i]);
    }
    r
}
