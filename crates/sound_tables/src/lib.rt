// The columns of the table of tasks: one function for each phrase of "sound state", over all places at once. Unused places pass what a task must.
// Tests are joined and chosen by `&`, `|` and `!`, which work out both sides: a loop over a table then has no branch, and becomes a few operations on all
// its places. An `if` between two tests of a function is compiled to a branch for each place.
#![tactic(auto, using(lists::specs::OperatorLaws::operators, lists::specs::OperatorLaws::fits_amp, lists::specs::LoopLaws::all_none), unfolding(record::specs::SoundRecord::is_object_wait, checks::specs::Checks::wait_fits, checks::specs::Checks::time_fits, checks::specs::Checks::outcome_fits))]

ghost use Rattle.std.specs.Prelude.{◌≡◌};
ghost use Rattle.lists.specs.Test.{allb};
ghost use Rattle.rules.specs.Sizes.{task_places};
ghost use Rattle.record.specs.SoundRecord.{is_object_wait};
ghost use Rattle.checks.specs.Checks.{unused_by, priority_fits_by, wait_fits, wait_fits_at, no_object_at, time_fits, time_fits_at, outcome_fits, outcome_fits_at};

use record::{
    FLUSHED, GRANTED, LEVELS, MAX_TICKS, NO_WAIT, ON_RECEIVE, ON_TIME, PENDING, TASKS, TIMED_OUT,
    reads,
};

// "unused table places as in the fresh state": a place whose flag in `used` isn't 1 holds 0.
pub fn unused(column: &[u8; TASKS], used: &[u8; TASKS]) -> bool
    ensures { result ≡ allb task_places (unused_by column.now used.now) }
{
    let mut fits = true;
    for i in 0..TASKS {
        fits &= (used[i] == 1) | (column[i] == 0);
    }
    fits
}

// Priorities are in range, and unused places hold 0. Both at once: the range by itself is compiled to a test of one place after another.
pub fn priorities(priority: &[u8; TASKS], used: &[u8; TASKS]) -> bool
    ensures { result ≡ allb task_places (priority_fits_by priority.now used.now) }
{
    let mut fits = true;
    for i in 0..TASKS {
        fits &= if used[i] == 1 {
            priority[i] < LEVELS
        } else {
            priority[i] == 0
        };
    }
    fits
}

// A wait of this kind is for an object.
fn for_object(kind: u8) -> bool
    ensures { result ≡ is_object_wait kind }
{
    (kind != NO_WAIT) & (kind != ON_TIME)
}

// An object only for a wait on one, a time only for a wait.
fn wait_fits(kind: u8, object: u8, timed: u8) -> bool
    ensures { result ≡ wait_fits kind object timed }
{
    let objects = (object == 0) | for_object(kind);
    let times = (timed <= 1) & ((timed == 0) | (kind != NO_WAIT));
    (kind <= ON_RECEIVE) & (objects & times)
}

// Waits are of a kind that there is, and hold what belongs to that kind.
pub fn waits(wait: &[u8; TASKS], object: &[u8; TASKS], timed: &[u8; TASKS]) -> bool
    ensures { result ≡ allb task_places (wait_fits_at wait.now object.now timed.now) }
{
    let mut fits = true;
    for i in 0..TASKS {
        fits &= wait_fits(wait[i], object[i], timed[i]);
    }
    fits
}

// Does nobody wait for an object?
pub fn none_for_objects(wait: &[u8; TASKS]) -> bool
    ensures { result ≡ allb task_places (no_object_at wait.now) }
{
    let mut none = true;
    for i in 0..TASKS {
        none &= !for_object(wait[i]);
    }
    none
}

// A timed wait has 1 to 2147483647 ticks left; another has no due time and is no sleep.
fn time_fits(kind: u8, timed: u8, due: u32, clock: u32) -> bool
    ensures { result ≡ time_fits kind timed due clock }
{
    let left = reads::ticks_left(due, clock);
    let in_time = (0 < left) & (left <= MAX_TICKS);
    let untimed = (due == 0) & (kind != ON_TIME);
    let has_time = timed == 1;
    (has_time & in_time) | (!has_time & untimed)
}

// "each timed wait has 1 to 2147483647 ticks left and each sleep is timed"
pub fn times(wait: &[u8; TASKS], timed: &[u8; TASKS], due: &[u32; TASKS], clock: u32) -> bool
    ensures { result ≡ allb task_places (time_fits_at wait.now timed.now due.now clock) }
{
    let mut fits = true;
    for i in 0..TASKS {
        fits &= time_fits(wait[i], timed[i], due[i], clock);
    }
    fits
}

// A task's outcome is 1 exactly where it waits.
fn outcome_fits(kind: u8, outcome: u8) -> bool
    ensures { result ≡ outcome_fits kind outcome }
{
    let ended = (outcome == GRANTED) | (outcome == TIMED_OUT) | (outcome == FLUSHED);
    let apart = kind == NO_WAIT;
    (apart & ended) | (!apart & (outcome == PENDING))
}

// "outcomes 0, 1, 20 or 21, and 1 exactly for waiting tasks"
pub fn outcomes(wait: &[u8; TASKS], outcome: &[u8; TASKS]) -> bool
    ensures { result ≡ allb task_places (outcome_fits_at wait.now outcome.now) }
{
    let mut fits = true;
    for i in 0..TASKS {
        fits &= outcome_fits(wait[i], outcome[i]);
    }
    fits
}
