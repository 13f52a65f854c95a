// The edges that document 01 wants run. No record here has a queue, so it needs no block, and no task holds a word.
use crate::kept::Kept;
use crate::run::Row;
use record::{FOREVER, MAX_TICKS, Request};
use std::io;

// Three tasks, two mutexes and a semaphore with credit.
pub fn made(priorities: [u32; 3], kind: u32) -> Kept {
    let mut k = Kept::fresh(0);
    for priority in priorities {
        k.step(Request::Task { priority }, &[]);
    }
    k.quietly(&[
        Request::Mutex { kind },
        Request::Mutex { kind },
        Request::Sem {
            count: 1,
            maximum: 3,
        },
    ]);
    k
}

// The same, started.
fn started(priorities: [u32; 3]) -> Kept {
    let mut k = made(priorities, 1);
    k.step(Request::Start, &[]);
    k
}

// The whole session of document 01.
fn session(rt: &impl Print) -> io::Result<()> {
    println!(rt; "session")?;
    let steps = [
        Request::Task { priority: 5 },
        Request::Task { priority: 3 },
        Request::Task { priority: 1 },
        Request::Mutex { kind: 1 },
        Request::Start,
        Request::Sleep { time: 3 },
        Request::Sleep { time: 2 },
        Request::Lock { mutex: 0, time: 0 },
        Request::Tick,
        Request::Tick,
        Request::Tick,
        Request::Lock { mutex: 0, time: 10 },
        Request::Level { task: 0 },
        Request::Unlock { mutex: 0 },
    ];
    Row::new(rt, Kept::fresh(0)).ask_each(&steps)
}

// "time 2147483647 and 2147483648"
fn times(rt: &impl Print) -> io::Result<()> {
    println!(rt; "times")?;
    let too_long = MAX_TICKS + 1;
    let lock = |time| Request::Lock { mutex: 0, time };
    let k = started([5, 3, 1]);
    let mut row = Row::new(rt, k);
    row.ask(Request::Sleep { time: too_long })?;
    row.ask(lock(too_long))?;
    Row::new(rt, k).ask(lock(FOREVER))?;
    row.ask_each(&[
        Request::Sleep { time: MAX_TICKS },
        Request::Tick,
        Request::Outcome { task: 2 },
    ])
}

// "hold 255 times, then once more"
fn holds(rt: &impl Print) -> io::Result<()> {
    println!(rt; "hold")?;
    let mut k = started([5, 3, 1]);
    for _ in 0..255 {
        k.step(Request::Hold, &[]);
    }
    let mut row = Row::new(rt, k);
    row.hold()?;
    row.ask_each(&[Request::Hold, Request::Free])?;
    row.hold()
}

// "a waiter timing out lowers every owner up its chain"
fn time_out_lowers(rt: &impl Print) -> io::Result<()> {
    println!(rt; "time-out")?;
    // tasks of priority 9, 5, 2 all run in turn: 0 owns mutex 0; 1 owns mutex 1 and waits for 0; 2 waits for 1 with 2 ticks
    let mut k = started([9, 5, 2]);
    k.quietly(&[Request::Sleep { time: 2 }, Request::Sleep { time: 1 }]);
    let lock = |mutex, time| Request::Lock { mutex, time };
    Row::new(rt, k).ask_each(&[
        lock(0, 0),
        Request::Tick,
        lock(1, 0),
        lock(0, FOREVER),
        Request::Tick,
        lock(1, 2),
        Request::Level { task: 0 },
        Request::Level { task: 1 },
        Request::Tick,
        Request::Tick,
        Request::Outcome { task: 2 },
        Request::Level { task: 0 },
        Request::Level { task: 1 },
    ])
}

pub fn all(rt: &impl Print) -> io::Result<()> {
    session(rt)?;
    times(rt)?;
    holds(rt)?;
    time_out_lowers(rt)
}
