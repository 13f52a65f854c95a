// The state record, requests and answers.
#![tactic(auto)]

pub mod answers;
mod first;
pub mod reads;
pub mod refusal;

pub use first::{fresh, fresh_held};
pub use refusal::Refusal;

// How many places each table has. A list has a place for each task.
pub const TASKS: usize = task_lists::PLACES;

pub const MUTEXES: usize = 8;

pub const SEMAPHORES: usize = 8;

pub const QUEUES: usize = rings::QUEUES;

// How many words a task holds, and how many all of them hold.
pub const EIGHT: usize = 8;

pub const WORDS: usize = EIGHT * TASKS;

// How many tasks a state may have: no more than there are places for them.
pub const MAX_TASKS: u8 = 16;

// How many places each table has, as the record counts them.
pub const TASK_PLACES: u8 = TASKS as u8;

pub const MAX_MUTEXES: u8 = MUTEXES as u8;

pub const MAX_SEMAPHORES: u8 = SEMAPHORES as u8;

pub const MAX_QUEUES: u8 = QUEUES as u8;

// How many messages a queue may have room for.
pub const MAX_DEPTH: u32 = 64;

// How many priorities and levels there are.
pub const LEVELS: u8 = task_lists::LEVELS;

// How many kinds of mutexes there are, and the kind that lends its waiters' levels to the owner.
pub const KINDS: u8 = 2;

pub const INHERITING: u8 = 1;

// The greatest hold depth.
pub const MAX_HOLD: u8 = 255;

// Stands for no task.
pub const NONE: u8 = task_lists::NONE;

// What a task waits for: nothing, a mutex, a semaphore, time, room in a queue, a message in it. Bytes and no enum, here and below: they stand in columns
// that C reads, and a record with any bytes may be handed in.
pub const NO_WAIT: u8 = 0;

pub const ON_MUTEX: u8 = 1;

pub const ON_SEMAPHORE: u8 = 2;

pub const ON_TIME: u8 = 3;

pub const ON_SEND: u8 = 4;

pub const ON_RECEIVE: u8 = 5;

// The outcomes of a wait: granted (or slept), still waiting, timed out, flushed.
pub const GRANTED: u8 = 0;

pub const PENDING: u8 = 1;

pub const TIMED_OUT: u8 = 20;

pub const FLUSHED: u8 = 21;

// A waiting time: at most so many ticks, or forever.
pub const MAX_TICKS: u32 = 2147483647;

pub const FOREVER: u32 = 4294967295;

// The tasks, one place in each table for each: columns with a count and no table of tasks, as C has them, with no heap, and a loop over a column is a few
// operations. `due` is the clock at which a timed wait ends.
#[repr(C)]
#[derive(Clone, Copy, PartialEq, Eq)]
pub struct Tasks {
    pub due: [u32; TASKS],
    pub priority: [u8; TASKS],
    pub level: [u8; TASKS],
    pub outcome: [u8; TASKS],
    pub wait: [u8; TASKS],
    pub object: [u8; TASKS],
    pub timed: [u8; TASKS],
    pub n: u8,
}

#[repr(C)]
#[derive(Clone, Copy, PartialEq, Eq)]
pub struct Mutexes {
    pub kind: [u8; MUTEXES],
    pub owner: [u8; MUTEXES],
    pub n: u8,
}

#[repr(C)]
#[derive(Clone, Copy, PartialEq, Eq)]
pub struct Semaphores {
    pub count: [u32; SEMAPHORES],
    pub maximum: [u32; SEMAPHORES],
    pub n: u8,
}

// The message queues. Their words lie in a lent block, in order of id, a queue's messages in a ring: `oldest` is the ring place of the oldest one,
// and `used` says how many there are.
#[repr(C)]
#[derive(Clone, Copy, PartialEq, Eq)]
pub struct Queues {
    pub width: [u8; QUEUES],
    pub depth: [u8; QUEUES],
    pub owner: [u8; QUEUES],
    pub oldest: [u8; QUEUES],
    pub used: [u8; QUEUES],
    pub n: u8,
}

#[repr(C)]
#[derive(Clone, Copy, PartialEq, Eq)]
pub struct State {
    pub tasks: Tasks,
    pub semaphores: Semaphores,
    pub clock: u32,
    pub mutexes: Mutexes,
    pub queues: Queues,
    pub ready: task_lists::TaskList,
    pub waiting: task_lists::TaskList,
    pub started: u8,
    pub hold: u8,
    pub running: u8,
}

// The record with the words that tasks hold, eight for each. The words stand beside the record: no step moves them by value.
#[repr(C)]
#[derive(Clone, Copy, PartialEq, Eq)]
pub struct Held {
    pub state: State,
    pub words: [u32; WORDS],
}

// A step and its numbers. A message stands beside its request.
#[derive(Clone, Copy)]
pub enum Request {
    Task { priority: u32 },
    Mutex { kind: u32 },
    Sem { count: u32, maximum: u32 },
    Start,
    Lock { mutex: u32, time: u32 },
    Unlock { mutex: u32 },
    Pend { semaphore: u32, time: u32 },
    Post { semaphore: u32 },
    Flush { semaphore: u32 },
    Sleep { time: u32 },
    Yield,
    Hold,
    Free,
    Tick,
    Level { task: u32 },
    Outcome { task: u32 },
    Queue { width: u32, depth: u32 },
    OwnedQueue { width: u32, depth: u32, owner: u32 },
    Send { queue: u32, time: u32 },
    Receive { queue: u32, time: u32 },
    Word { task: u32, n: u32 },
}

// An answer's number and value, and the task to run, or NONE. Numbers alone in both cases: `script_lines::run::log_answer` splits it by `let else`, which
// is a form that stays.
#[derive(Clone, Copy)]
pub enum Answer {
    Accepted { number: u8, value: u32, run: u8 },
    Refused { number: u8, value: u32, run: u8 },
}

// The record after a step, and its answer.
#[derive(Drop)]
pub struct Out {
    pub state: State,
    pub answer: Answer,
}

// The same before any word is moved: what is to be moved once the step stands.
#[derive(Clone, Copy)]
pub struct Plan {
    pub state: State,
    pub answer: Answer,
    pub moves: moves::Move,
}
