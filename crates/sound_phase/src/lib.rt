// Does the phase, set-up or started, have what it owes?
#![tactic(auto, using(lists::specs::OperatorLaws::operators), unfolding(checks::specs::Checks::started_in, checks::specs::Checks::at_rest))]

ghost use Rattle.std.specs.Prelude.{◌≡◌};
ghost use Rattle.checks.specs.Checks.{started_in, at_rest, set_up_in};

use record::{MUTEXES, NONE, QUEUES, TASKS};
use task_lists::TaskList;

// After start: a task runs if any is ready; hold only with a running task; at hold 0 none ready is more urgent.
pub fn started_in(levels: [u8; TASKS], ready: TaskList, running: u8, hold: u8) -> bool
    ensures { result ≡ started_in levels ready running hold }
{
    if running == NONE {
        return (ready.n == 0) & (hold == 0);
    }
    hold != 0
        || ready.n == 0
        || task_lists::key_of(levels, running) <= task_lists::key_of(levels, ready.ids[0])
}

// In set-up: clock 0, hold 0, nobody running or waiting.
pub fn at_rest(clock: u32, hold: u8, running: u8, waiting: u8) -> bool
    ensures { result ≡ at_rest clock hold running waiting }
{
    (clock == 0) & (hold == 0) & (running == NONE) & (waiting == 0)
}

// In set-up: no mutex owned, outcomes 0, as those of unused places are, queues empty, words 0, and equal levels by id.
pub fn set_up_in(
    owners: [u8; MUTEXES],
    outcomes: [u8; TASKS],
    ready: TaskList,
    levels: [u8; TASKS],
    used: [u8; QUEUES],
    words: &[u32],
) -> bool
    ensures { result ≡ set_up_in owners outcomes ready levels used words.now }
{
    if !sound_objects::all_free(&owners) {
        return false;
    }
    let none = task_list_checks::used_places(0);
    if !sound_tables::unused(&outcomes, &none) {
        return false;
    }
    if !sound_queues::all_empty(&used) {
        return false;
    }
    if !sound_words::words_zero(words) {
        return false;
    }
    task_list_checks::ties_by_id(ready, levels)
}
