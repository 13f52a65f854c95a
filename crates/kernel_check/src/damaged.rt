// Records that are not sound: each phrase of "Sound state" broken alone. Each is answered 15, unchanged, with no task to run.
use crate::kept::Kept;
use crate::{edges, show};
use record::{
    MUTEXES, Mutexes, QUEUES, Queues, Request, SEMAPHORES, Semaphores, State, TASKS, Tasks,
};
use std::io;
use task_lists::TaskList;

// A step on the record: the label, the answer, and whether all stayed: the record, the words that tasks hold, and the block.
pub fn shown(rt: &impl Print, label: &str, k: Kept, x: Request) -> io::Result<()> {
    let mut next = k;
    let answer = next.step(x, &[]);
    show::stayed(rt, label, answer, next == k)
}

// A tick on a record without queues.
fn tried(rt: &impl Print, label: &str, state: State) -> io::Result<()> {
    shown(rt, label, Kept::with_block(state, 0), Request::Tick)
}

// Task 2 waits for mutex 0, which task 0 owns, for ten ticks; task 0 runs at the waiter's level, task 1 is ready.
fn base() -> State {
    let mut k = edges::made([5, 3, 1], 1);
    k.quietly(&[
        Request::Start,
        Request::Sleep { time: 3 },
        Request::Sleep { time: 4 },
        Request::Lock { mutex: 0, time: 0 },
        Request::Tick,
        Request::Tick,
        Request::Tick,
        Request::Lock { mutex: 0, time: 10 },
        Request::Tick,
    ]);
    k.state
}

// In set-up, with three tasks.
fn set_up() -> State {
    edges::made([5, 3, 3], 1).state
}

// The started record, with something about it broken.
fn broken<F: FnOnce(&mut State)>(rt: &impl Print, label: &str, breaks: F) -> io::Result<()>
    requires { F.IsAlwaysCallable breaks }
{
    let mut state = base();
    breaks(&mut state);
    tried(rt, label, state)
}

// The same of the record in set-up.
fn broken_set_up<F: FnOnce(&mut State)>(rt: &impl Print, label: &str, breaks: F) -> io::Result<()>
    requires { F.IsAlwaysCallable breaks }
{
    let mut state = set_up();
    breaks(&mut state);
    tried(rt, label, state)
}

fn sound_ones(rt: &impl Print) -> io::Result<()> {
    println!(rt; "records")?;
    tried(rt, "fresh", record::fresh())?;
    tried(rt, "set-up", set_up())?;
    tried(rt, "started", base())
}

fn tasks(rt: &impl Print) -> io::Result<()> {
    broken(rt, "tasks over 16", |s| s.tasks.n = 17)?;
    broken(rt, "tasks 255", |s| s.tasks.n = 255)?;
    broken(rt, "priority 32", |s| s.tasks.priority[1] = 32)?;
    broken(rt, "stored level of the owner", |s| s.tasks.level[0] = 5)?;
    broken(rt, "outcome 2", |s| s.tasks.outcome[1] = 2)
}

// Outcomes, and unused places of the tables of tasks.
fn outcomes(rt: &impl Print) -> io::Result<()> {
    broken(rt, "outcome 1 of a ready task", |s| s.tasks.outcome[1] = 1)?;
    broken(rt, "outcome 0 of a waiting task", |s| {
        s.tasks.outcome[2] = 0;
    })?;
    broken(rt, "priority in an unused place", |s| {
        s.tasks.priority[3] = 1;
    })?;
    broken(rt, "level in an unused place", |s| s.tasks.level[15] = 1)?;
    broken(rt, "outcome in an unused place", |s| {
        s.tasks.outcome[3] = 20;
    })
}

fn waits(rt: &impl Print) -> io::Result<()> {
    broken(rt, "kind of wait 6", |s| s.tasks.wait[2] = 6)?;
    broken(rt, "waits for a free mutex", |s| s.tasks.object[2] = 1)?;
    broken(rt, "waits for no mutex that there is", |s| {
        s.tasks.object[2] = 7;
    })?;
    broken(rt, "waits for a semaphore with credit", |s| {
        s.tasks.wait[2] = 2;
    })
}

// Due times, and what only a wait may have.
fn times(rt: &impl Print) -> io::Result<()> {
    broken(rt, "no tick left", |s| s.tasks.due[2] = s.clock)?;
    broken(rt, "2147483648 ticks left", |s| {
        s.tasks.due[2] = s.clock.wrapping_add(2147483648);
    })?;
    broken(rt, "a sleep without time", |s| {
        s.tasks.wait[2] = 3;
        s.tasks.object[2] = 0;
        s.tasks.timed[2] = 0;
        s.tasks.due[2] = 0;
    })?;
    broken(rt, "timed 2", |s| s.tasks.timed[2] = 2)?;
    broken(rt, "an object without a wait", |s| s.tasks.object[1] = 1)?;
    broken(rt, "a due time without a wait", |s| s.tasks.due[1] = 9)?;
    broken(rt, "timed without a wait", |s| s.tasks.timed[1] = 1)
}

fn mutexes(rt: &impl Print) -> io::Result<()> {
    broken(rt, "mutexes over 8", |s| s.mutexes.n = 9)?;
    broken(rt, "kind 2", |s| s.mutexes.kind[0] = 2)?;
    broken(rt, "an owner that there is not", |s| s.mutexes.owner[1] = 3)?;
    broken(rt, "a ring of one", |s| s.mutexes.owner[0] = 2)?;
    broken(rt, "an owner in an unused place", |s| {
        s.mutexes.owner[5] = 0;
    })?;
    broken(rt, "a kind in an unused place", |s| s.mutexes.kind[5] = 1)
}

fn semaphores(rt: &impl Print) -> io::Result<()> {
    broken(rt, "semaphores over 8", |s| s.semaphores.n = 9)?;
    broken(rt, "count over maximum", |s| s.semaphores.count[0] = 4)?;
    broken(rt, "maximum 0", |s| {
        s.semaphores.count[0] = 0;
        s.semaphores.maximum[0] = 0;
    })?;
    broken(rt, "a maximum in an unused place", |s| {
        s.semaphores.maximum[3] = 1;
    })
}

fn orders(rt: &impl Print) -> io::Result<()> {
    broken(rt, "ready over 16", |s| s.ready.n = 17)?;
    broken(rt, "a ready task missing", |s| s.ready.n = 0)?;
    broken(rt, "the running task ready too", |s| {
        s.ready.ids[0] = 0;
        s.ready.ids[1] = 1;
        s.ready.n = 2;
    })?;
    broken(rt, "a ready task that there is not", |s| s.ready.ids[0] = 3)?;
    broken(rt, "an id in an unused place of the ready order", |s| {
        s.ready.ids[9] = 0;
    })?;
    broken(rt, "a waiting task missing", |s| s.waiting.n = 0)?;
    broken(rt, "an id in an unused place of the waiting order", |s| {
        s.waiting.ids[15] = 2;
    })
}

fn set_up_orders(rt: &impl Print) -> io::Result<()> {
    broken_set_up(rt, "ready order not ascending", |s| {
        s.ready.ids[0] = 0;
        s.ready.ids[2] = 1;
        s.ready.ids[1] = 2;
    })?;
    broken_set_up(rt, "equal levels not by id in set-up", |s| {
        s.ready.ids[0] = 2;
        s.ready.ids[1] = 1;
    })
}

fn phases(rt: &impl Print) -> io::Result<()> {
    broken(rt, "phase 2", |s| s.started = 2)?;
    broken(rt, "set-up with a running task", |s| s.started = 0)?;
    broken(rt, "running 16", |s| s.running = 16)?;
    broken(rt, "nobody runs though a task is ready", |s| {
        s.running = 255;
    })?;
    broken(rt, "a ready task runs too", |s| s.running = 1)
}

fn set_up_phases(rt: &impl Print) -> io::Result<()> {
    broken_set_up(rt, "clock in set-up", |s| s.clock = 1)?;
    broken_set_up(rt, "hold in set-up", |s| s.hold = 1)?;
    broken_set_up(rt, "started with nobody running", |s| s.started = 1)?;
    let held = State {
        started: 1,
        hold: 1,
        ..record::fresh()
    };
    tried(rt, "hold with nobody running", held)
}

fn wild_queues() -> Queues {
    Queues {
        width: [255; QUEUES],
        depth: [255; QUEUES],
        owner: [255; QUEUES],
        oldest: [255; QUEUES],
        used: [255; QUEUES],
        n: 255,
    }
}

fn wild_tasks() -> Tasks {
    Tasks {
        due: [u32::MAX; TASKS],
        priority: [255; TASKS],
        level: [255; TASKS],
        outcome: [255; TASKS],
        wait: [255; TASKS],
        object: [255; TASKS],
        timed: [255; TASKS],
        n: 255,
    }
}

fn wild(rt: &impl Print) -> io::Result<()> {
    let mutexes = Mutexes {
        kind: [255; MUTEXES],
        owner: [255; MUTEXES],
        n: 255,
    };
    let semaphores = Semaphores {
        count: [u32::MAX; SEMAPHORES],
        maximum: [u32::MAX; SEMAPHORES],
        n: 255,
    };
    let order = TaskList {
        ids: [255; TASKS],
        n: 255,
    };
    let s = State {
        tasks: wild_tasks(),
        semaphores,
        clock: u32::MAX,
        mutexes,
        queues: wild_queues(),
        ready: order,
        waiting: order,
        started: 255,
        hold: 255,
        running: 255,
    };
    tried(rt, "255 everywhere", s)
}

pub fn all(rt: &impl Print) -> io::Result<()> {
    sound_ones(rt)?;
    tasks(rt)?;
    outcomes(rt)?;
    waits(rt)?;
    times(rt)?;
    mutexes(rt)?;
    semaphores(rt)?;
    orders(rt)?;
    set_up_orders(rt)?;
    phases(rt)?;
    set_up_phases(rt)?;
    wild(rt)
}
