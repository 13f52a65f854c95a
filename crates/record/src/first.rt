// The record of a fresh state.
ghost use Rattle.std.specs.Prelude.{◌≡◌};
ghost use Rattle.record.specs.DemandRecord.{fresh_record, fresh_held};

use crate::{
    Held, MUTEXES, Mutexes, NONE, QUEUES, Queues, SEMAPHORES, Semaphores, State, TASKS, Tasks,
    WORDS,
};
use task_lists::TaskList;

fn no_queues() -> Queues
    ensures { result ≡ fresh_record.queues }
{
    Queues {
        width: [0u8; QUEUES],
        depth: [0u8; QUEUES],
        owner: [NONE; QUEUES],
        oldest: [0u8; QUEUES],
        used: [0u8; QUEUES],
        n: 0,
    }
}

// "A fresh state is in set-up, with nothing made, clock and hold 0."
pub fn fresh() -> State
    ensures { result ≡ fresh_record }
{
    let none = TaskList {
        ids: [NONE; TASKS],
        n: 0,
    };
    let tasks = Tasks {
        due: [0u32; TASKS],
        priority: [0u8; TASKS],
        level: [0u8; TASKS],
        outcome: [0u8; TASKS],
        wait: [0u8; TASKS],
        object: [0u8; TASKS],
        timed: [0u8; TASKS],
        n: 0,
    };
    let mutexes = Mutexes {
        kind: [0u8; MUTEXES],
        owner: [NONE; MUTEXES],
        n: 0,
    };
    let semaphores = Semaphores {
        count: [0u32; SEMAPHORES],
        maximum: [0u32; SEMAPHORES],
        n: 0,
    };
    let queues = no_queues();
    State {
        tasks,
        semaphores,
        clock: 0,
        mutexes,
        queues,
        ready: none,
        waiting: none,
        started: 0,
        hold: 0,
        running: NONE,
    }
}

// The same with the words that tasks hold, all 0.
pub fn fresh_held() -> Held
    ensures { result ≡ fresh_held }
{
    let first = fresh();
    Held {
        state: first,
        words: [0u32; WORDS],
    }
}
