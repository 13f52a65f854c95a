// Document 02, K1: each phrase that queues add to "Sound state" broken alone. Each record is answered 15, with no task to run, and nothing is changed;
// where a phrase has two sides, the sound one stands beside it.
use crate::kept::{Kept, ROOM};
use crate::{damaged, show};
use record::{FOREVER, NONE, ON_MUTEX, QUEUES, Request, WORDS};
use std::io;

// How many words the queues of the records below take.
const EXACT: usize = 4;

// The step that is tried. On the sound record it changes all: the record, words held and the block.
fn tried(rt: &impl Print, label: &str, k: Kept) -> io::Result<()> {
    damaged::shown(rt, label, k, Request::Receive { queue: 0, time: 0 })
}

// Three tasks; queue 0 has room for two messages and is task 0's, queues 1 and 2 for one, and they have no owner; a mutex.
fn set_up(space: usize) -> Kept {
    let mut k = Kept::fresh(space);
    k.quietly(&[
        Request::Task { priority: 5 },
        Request::Task { priority: 3 },
        Request::Task { priority: 1 },
        Request::OwnedQueue {
            width: 1,
            depth: 2,
            owner: 0,
        },
        Request::Queue { width: 1, depth: 1 },
        Request::Queue { width: 1, depth: 1 },
        Request::Mutex { kind: 0 },
    ]);
    k
}

// Task 1 waits to receive from queue 1. Queue 0 is full, task 2 waits to send to it, and task 0 runs at the sender's level.
fn base(space: usize) -> Kept {
    let mut k = set_up(space);
    k.quietly(&[
        Request::Start,
        Request::Sleep { time: 1 },
        Request::Receive {
            queue: 1,
            time: FOREVER,
        },
        Request::Tick,
    ]);
    for (time, word) in [(0, 11), (0, 12), (FOREVER, 13)] {
        k.step(Request::Send { queue: 0, time }, &[word]);
    }
    k
}

// The started record, with something about it broken.
fn broken<F: FnOnce(&mut Kept)>(rt: &impl Print, label: &str, breaks: F) -> io::Result<()>
    requires { F.IsAlwaysCallable breaks }
{
    let mut k = base(ROOM);
    breaks(&mut k);
    tried(rt, label, k)
}

// The same of the record in set-up.
fn broken_set_up<F: FnOnce(&mut Kept)>(rt: &impl Print, label: &str, breaks: F) -> io::Result<()>
    requires { F.IsAlwaysCallable breaks }
{
    let mut k = set_up(EXACT);
    breaks(&mut k);
    tried(rt, label, k)
}

// "15 for a queue not so placed in the block"
fn blocks(rt: &impl Print) -> io::Result<()> {
    println!(rt; "records with queues")?;
    tried(rt, "a longer block", base(ROOM))?;
    let mut k = base(EXACT);
    tried(rt, "a block of just their words", k)?;
    k.space = EXACT - 1;
    tried(rt, "a block one word too short", k)?;
    k.space = 0;
    tried(rt, "no block", k)
}

// Eight queues of one word, and nine.
fn counts(rt: &impl Print) -> io::Result<()> {
    for (label, n) in [
        ("eight queues", 8),
        ("queues over 8", 9),
        ("queues 255", 255),
    ] {
        broken(rt, label, |k| {
            k.state.queues.width = [1; QUEUES];
            k.state.queues.depth = [2, 1, 1, 1, 1, 1, 1, 1];
            k.state.queues.n = n;
        })?;
    }
    Ok(())
}

fn sizes(rt: &impl Print) -> io::Result<()> {
    broken(rt, "width 3", |k| k.state.queues.width[2] = 3)?;
    broken(rt, "width 0", |k| k.state.queues.width[2] = 0)?;
    broken(rt, "depth 0", |k| k.state.queues.depth[2] = 0)?;
    broken(rt, "depth 64", |k| k.state.queues.depth[2] = 64)?;
    broken(rt, "depth 65", |k| k.state.queues.depth[2] = 65)
}

fn rings(rt: &impl Print) -> io::Result<()> {
    broken(rt, "as many messages as depth", |k| {
        k.state.queues.used[2] = 1;
    })?;
    broken(rt, "more messages than depth", |k| {
        k.state.queues.used[2] = 2;
    })?;
    broken(rt, "oldest message at the end of the ring", |k| {
        k.state.queues.oldest[0] = 1;
    })?;
    broken(rt, "oldest message outside the ring", |k| {
        k.state.queues.oldest[0] = 2;
    })?;
    broken(rt, "an owner that there is", |k| {
        k.state.queues.owner[2] = 2;
    })?;
    broken(rt, "an owner that there is not", |k| {
        k.state.queues.owner[2] = 3;
    })?;
    broken(rt, "an owner that there cannot be", |k| {
        k.state.queues.owner[2] = 16;
    })
}

// "unused table places as in the fresh state"
fn unused(rt: &impl Print) -> io::Result<()> {
    broken(rt, "a width in an unused place", |k| {
        k.state.queues.width[3] = 1;
    })?;
    broken(rt, "a depth in an unused place", |k| {
        k.state.queues.depth[3] = 1;
    })?;
    broken(rt, "an owner in an unused place", |k| {
        k.state.queues.owner[7] = 0;
    })?;
    broken(rt, "an oldest message in an unused place", |k| {
        k.state.queues.oldest[7] = 1;
    })?;
    broken(rt, "a message in an unused place", |k| {
        k.state.queues.used[3] = 1;
    })
}

// A waiting sender's queue is full, a waiting receiver's empty; "only the owner waits to receive from an owned queue".
fn waits(rt: &impl Print) -> io::Result<()> {
    broken(rt, "a sender waits at a queue with room", |k| {
        k.state.queues.used[0] = 1;
    })?;
    broken(rt, "a receiver waits at a queue with a message", |k| {
        k.state.queues.used[1] = 1;
    })?;
    broken(rt, "a receiver that is the owner", |k| {
        k.state.queues.owner[1] = 1;
    })?;
    broken(rt, "a receiver that is not the owner", |k| {
        k.state.queues.owner[1] = 0;
    })
}

// "an existing object": the sender holds no words, since no queue is no words wide, and it lends to nobody.
fn missing(rt: &impl Print) -> io::Result<()> {
    broken(rt, "a receiver at no queue that there is", |k| {
        k.state.tasks.object[1] = 3;
    })?;
    broken(rt, "a sender at no queue that there is", |k| {
        k.state.tasks.object[2] = 3;
        k.state.tasks.level[0] = 5;
        k.words[16] = 0;
    })
}

// "a waiting sender's words past w are 0", and those of tasks that are not there; a task that does not wait to send may hold any.
fn words(rt: &impl Print) -> io::Result<()> {
    broken(rt, "a word of the running task", |k| k.words[7] = 9)?;
    broken(rt, "a word of a waiting receiver", |k| k.words[8] = 9)?;
    broken(rt, "another word that a sender waits with", |k| {
        k.words[16] = 9;
    })?;
    broken(rt, "a sender's word past the width", |k| k.words[17] = 9)?;
    broken(rt, "a sender's last word", |k| k.words[23] = 9)?;
    broken(rt, "a word of an unused task", |k| k.words[24] = 9)?;
    broken(rt, "the last word of the last unused task", |k| {
        k.words[127] = 9;
    })
}

// "stored levels as defined": task 2 waits to send to queue 0, and lends its level to the owner where there is one.
fn levels(rt: &impl Print) -> io::Result<()> {
    broken(rt, "a level not lent to the owner", |k| {
        k.state.tasks.level[0] = 5;
    })?;
    broken(rt, "no owner, and nothing lent", |k| {
        k.state.tasks.level[0] = 5;
        k.state.queues.owner[0] = NONE;
    })?;
    broken(rt, "a level lent though there is no owner", |k| {
        k.state.queues.owner[0] = NONE;
    })
}

// "no ring of waits": task 2 waits to send to its own queue; then to that of task 1, which waits for task 2's mutex. Levels are as lent in the ring.
fn waits_in_a_ring(rt: &impl Print) -> io::Result<()> {
    broken(rt, "a ring of one through a queue", |k| {
        k.state.tasks.level[0] = 5;
        k.state.queues.owner[0] = 2;
    })?;
    for (label, owner) in [
        ("a chain through a queue and a mutex", 0),
        ("a ring through a queue and a mutex", 2),
    ] {
        broken(rt, label, |k| {
            k.state.tasks.level[0] = 5;
            k.state.queues.owner[0] = 1;
            k.state.tasks.wait[1] = ON_MUTEX;
            k.state.tasks.object[1] = 0;
            k.state.tasks.level[1] = 1;
            k.state.mutexes.owner[0] = owner;
        })?;
    }
    Ok(())
}

// "in set-up queues are empty, held words 0, and only mutexes must be unowned"
fn set_ups(rt: &impl Print) -> io::Result<()> {
    tried(rt, "an owned queue in set-up", set_up(EXACT))?;
    broken_set_up(rt, "a word held in set-up", |k| k.words[0] = 9)?;
    broken_set_up(rt, "a message in set-up", |k| k.state.queues.used[2] = 1)?;
    broken_set_up(rt, "an owned mutex in set-up", |k| {
        k.state.mutexes.owner[0] = 0;
    })
}

// "14, 15, 4": a send without words is no step, whatever the record is.
fn order(rt: &impl Print) -> io::Result<()> {
    let mut k = base(EXACT);
    k.space = 0;
    let empty = Request::Send { queue: 0, time: 0 };
    damaged::shown(rt, "a send without words, to a block too short", k, empty)?;
    let word = Request::Word { task: 2, n: 0 };
    damaged::shown(rt, "a word, with a block too short", k, word)
}

// A table of words that is shorter than all tasks need: the fresh record is not sound with it.
fn few_words(rt: &impl Print) -> io::Result<()> {
    let mut few = [0; WORDS - 1];
    let first = record::fresh();
    let out = kernel::step(first, Request::Start, &[], &mut few, &mut []);
    let same = out.state == first && few == [0; WORDS - 1];
    show::stayed(rt, "a table one word too short", out.answer, same)
}

pub fn all(rt: &impl Print) -> io::Result<()> {
    blocks(rt)?;
    counts(rt)?;
    sizes(rt)?;
    rings(rt)?;
    unused(rt)?;
    waits(rt)?;
    missing(rt)?;
    words(rt)?;
    levels(rt)?;
    waits_in_a_ring(rt)?;
    set_ups(rt)?;
    order(rt)?;
    few_words(rt)
}
