// The test of a record, phrase by phrase.
#![tactic(auto, using(lists::specs::OperatorLaws::operators), unfolding(checks::specs::Checks::sizes_in))]

ghost use Rattle.std.specs.Prelude.{◌≡◌, List, ℕ, length};
ghost use Rattle.checks.specs.Checks.{sizes_in, others_unused, tasks_in, objects_in, queues_in, lists_in, tables_in, places_in, waits_in, levels_in};
ghost use Rattle.record.specs.Whole.{whole};
ghost use Rattle.record.specs.SoundRecord.{sound_of};
ghost use Rattle.record.specs.GoodRecord.{Typed};

use record::{
    MAX_MUTEXES, MAX_QUEUES, MAX_SEMAPHORES, Mutexes, NONE, Queues, Semaphores, State, TASK_PLACES,
    TASKS, Tasks,
};
use task_lists::TaskList;

// No more of each than there are places, and the running task is one of them.
fn sizes_in(s: State) -> bool
    ensures { result ≡ sizes_in s }
{
    let tables = (s.tasks.n <= TASK_PLACES)
        & (s.mutexes.n <= MAX_MUTEXES)
        & (s.semaphores.n <= MAX_SEMAPHORES)
        & (s.queues.n <= MAX_QUEUES);
    let lists = (s.ready.n <= TASK_PLACES) & (s.waiting.n <= TASK_PLACES);
    let runs = (s.running == NONE) | (s.running < s.tasks.n);
    tables & lists & (s.started <= 1) & runs
}

// "unused table places as in the fresh state", but for the priorities, which are tested with their range; due times belong to timed waits, and
// those to tasks.
fn unused_in(t: Tasks, used: &[u8; TASKS]) -> bool
    ensures { result ≡ others_unused t used.now }
{
    let level = t.level;
    if !sound_tables::unused(&level, used) {
        return false;
    }
    let outcome = t.outcome;
    if !sound_tables::unused(&outcome, used) {
        return false;
    }
    let wait = t.wait;
    if !sound_tables::unused(&wait, used) {
        return false;
    }
    let object = t.object;
    if !sound_tables::unused(&object, used) {
        return false;
    }
    let timed = t.timed;
    sound_tables::unused(&timed, used)
}

// Priorities, waits, their times and outcomes, and the unused places of all columns.
fn tasks_in(t: Tasks, clock: u32) -> bool
    ensures { result ≡ tasks_in t clock }
{
    let used = task_list_checks::used_places(t.n);
    let priority = t.priority;
    if !sound_tables::priorities(&priority, &used) {
        return false;
    }
    if !unused_in(t, &used) {
        return false;
    }
    let wait = t.wait;
    let object = t.object;
    let timed = t.timed;
    if !sound_tables::waits(&wait, &object, &timed) {
        return false;
    }
    let due = t.due;
    if !sound_tables::times(&wait, &timed, &due, clock) {
        return false;
    }
    let outcome = t.outcome;
    sound_tables::outcomes(&wait, &outcome)
}

// Kinds, owners, counts.
fn objects_in(m: Mutexes, c: Semaphores, tasks: u8) -> bool
    ensures { result ≡ objects_in m c tasks }
{
    if !sound_objects::mutexes(m, tasks) {
        return false;
    }
    let count = c.count;
    let maximum = c.maximum;
    sound_objects::semaphores(&count, &maximum, c.n)
}

// Widths, depths, owners and counts, and "15 for a queue not so placed in the block".
fn queues_in(x: Queues, tasks: u8, space: usize) -> bool
    ensures { result ≡ queues_in x tasks space }
{
    if !sound_queues::queues(x, tasks) {
        return false;
    }
    sound_queues::placed(x, space)
}

// Both lists hold ids of tasks.
fn lists_in(ready: TaskList, waiting: TaskList, tasks: u8) -> bool
    ensures { result ≡ lists_in ready waiting tasks }
{
    let ready_ids = ready.ids;
    let ready_used = task_list_checks::used_places(ready.n);
    if !task_list_checks::ids_fit(&ready_ids, &ready_used, tasks) {
        return false;
    }
    let waiting_ids = waiting.ids;
    let waiting_used = task_list_checks::used_places(waiting.n);
    task_list_checks::ids_fit(&waiting_ids, &waiting_used, tasks)
}

// Each task in one place.
fn places_in(wait: &[u8; TASKS], ready: TaskList, waiting: TaskList, n: u8, running: u8) -> bool
    ensures { result ≡ places_in wait.now ready waiting n running }
{
    let waits = task_list_checks::count_in([0u8; TASKS], waiting);
    let all = task_list_checks::count_in(waits, ready);
    sound_places::places(wait, &waits, &all, n, running)
}

// Waits are for what isn't available, and there is "no ring of waits". Where nobody waits for an object, which is seen at once, tables aren't looked at.
fn waits_in(
    wait: &[u8; TASKS],
    object: &[u8; TASKS],
    m: Mutexes,
    c: Semaphores,
    x: Queues,
    words: &[u32],
) -> bool
    ensures { result ≡ waits_in wait.now object.now m c x words.now }
{
    if sound_tables::none_for_objects(wait) {
        return true;
    }
    let owner = m.owner;
    let queues = x.owner;
    let next = leads::leads_of(wait, object, owner, queues);
    let empty = sound_objects::at_objects(object, sound_objects::empties(c));
    if !sound_objects::blocked(wait, object, &next, &empty, c.n) {
        return false;
    }
    if !sound_waiters::fit(wait, object, x, words) {
        return false;
    }
    sound_places::owners_end(&next, &owner, &queues)
}

// "stored levels as defined": own priorities, where nobody waits for a mutex or to send, since nothing is lent then.
fn levels_in(
    own: [u8; TASKS],
    level: &[u8; TASKS],
    wait: &[u8; TASKS],
    object: &[u8; TASKS],
    m: Mutexes,
    x: Queues,
) -> bool
    ensures { result ≡ levels_in own level.now wait.now object.now m x }
{
    if leads::none_waits(wait) {
        return sound_places::same(level, &own);
    }
    let heirs = leads::heirs_of(m);
    let queues = x.owner;
    let to = leads::leads_of(wait, object, heirs, queues);
    let lent = walks::lent_levels(own, &to, level);
    sound_places::same(level, &lent)
}

// The tables and lists, each by itself. The sizes come first: what is said of the others counts on them.
fn tables_in(s: State, words: &[u32], space: usize) -> bool
    ensures { result ≡ tables_in s words.now space }
{
    if !sizes_in(s) {
        return false;
    }
    if !tasks_in(s.tasks, s.clock) {
        return false;
    }
    if !objects_in(s.mutexes, s.semaphores, s.tasks.n) {
        return false;
    }
    if !queues_in(s.queues, s.tasks.n, space) {
        return false;
    }
    if !sound_words::words_tidy(words, s.tasks.n) {
        return false;
    }
    lists_in(s.ready, s.waiting, s.tasks.n)
}

// Is the record sound, with the words that tasks hold and a lent block of `space` words? The tables first, then what joins them. The clause `types`
// says nothing of the answer: it tells the caller's proof what every record of this type has. The parts are copied out first: a part that is lent
// out of the record would keep a copy of the whole of it.
pub fn is_sound(s: State, words: &[u32], space: usize) -> bool
    ensures answer { (block : List ℕ) → length block ≡ space → result ≡ sound_of (whole s words.now block) }
    ensures types { Typed s }
{
    if !tables_in(s, words, space) {
        return false;
    }
    let t = s.tasks;
    let ready = s.ready;
    let waiting = s.waiting;
    let mutexes = s.mutexes;
    let semaphores = s.semaphores;
    let queues = s.queues;
    let wait = t.wait;
    let object = t.object;
    if !places_in(&wait, ready, waiting, t.n, s.running) {
        return false;
    }
    if !waits_in(&wait, &object, mutexes, semaphores, queues, words) {
        return false;
    }
    let own = t.priority;
    let level = t.level;
    if !levels_in(own, &level, &wait, &object, mutexes, queues) {
        return false;
    }
    if !task_list_checks::ascending(ready, level) {
        return false;
    }
    if s.started != 0 {
        return sound_phase::started_in(level, ready, s.running, s.hold);
    }
    if !sound_phase::at_rest(s.clock, s.hold, s.running, waiting.n) {
        return false;
    }
    let owners = mutexes.owner;
    let outcomes = t.outcome;
    let used = queues.used;
    sound_phase::set_up_in(owners, outcomes, ready, level, used, words)
}
