// A step by its code, on a record by value, with its words and the block in lent memory.
#![tactic(auto)]

ghost use Rattle.std.specs.Prelude.{◌≡◌, List, ℕ, length};
ghost use Rattle.record.specs.Whole.{whole};
ghost use Rattle.machine.specs.Planned.{carried};
ghost use Rattle.kernel.specs.Planning.{Known};
ghost use Rattle.calls.specs.Call.{request_of, call_of};

use kernel::refused;
use record::{Plan, Request, State};

pub mod answers;

// The request of a code; a step takes as many of the numbers as it has, and ignores the rest. None for a code that is no step's.
#[tactic(auto, using(crate::specs::CallLaws::beyond), unfolding(crate::specs::Call::request_of))]
pub fn request_of(code: u32, a: u32, b: u32, c: u32) -> Option<Request>
    ensures { result ≡ request_of code a b c }
{
    Some(match code {
        0 => Request::Task { priority: a },
        1 => Request::Mutex { kind: a },
        2 => Request::Sem {
            count: a,
            maximum: b,
        },
        3 => Request::Start,
        4 => Request::Lock { mutex: a, time: b },
        5 => Request::Unlock { mutex: a },
        6 => Request::Pend {
            semaphore: a,
            time: b,
        },
        7 => Request::Post { semaphore: a },
        8 => Request::Flush { semaphore: a },
        9 => Request::Sleep { time: a },
        10 => Request::Yield,
        11 => Request::Hold,
        12 => Request::Free,
        13 => Request::Tick,
        14 => Request::Level { task: a },
        15 => Request::Outcome { task: a },
        16 => Request::Queue { width: a, depth: b },
        17 => Request::OwnedQueue {
            width: a,
            depth: b,
            owner: c,
        },
        18 => Request::Send { queue: a, time: b },
        19 => Request::Receive { queue: a, time: b },
        20 => Request::Word { task: a, n: b },
        _ => return None,
    })
}

// What is asked for, on a record that is tested first: 14 for a code that names no step or a send without one to eight words, 15, or its step, before any
// word is moved. The message beside it has `count` words, the lent block `space`.
pub fn call(s: State, x: Option<Request>, count: usize, space: usize, words: &[u32]) -> Plan
    ensures { (m block : List ℕ) → length m ≡ count → length block ≡ space → carried (whole s words.now block) m result ≡ call_of (whole s words.now block) x m }
{
    let sound = sound::is_sound(s, words, space);
    tested_call(s, sound, x, count, space, words)
}

// The same on a record that was tested before: `sound` is what the test said. It is `kernel::plan` for what is asked by code, but not by calling that: tried, it
// is one more copy of the record, 1.03 times the instructions of an idle step, even where it is inlined.
pub fn tested_call(
    s: State,
    sound: bool,
    x: Option<Request>,
    count: usize,
    space: usize,
    words: &[u32],
) -> Plan
    ensures { (m block : List ℕ) → length m ≡ count → length block ≡ space → Known sound (whole s words.now block) → carried (whole s words.now block) m result ≡ call_of (whole s words.now block) x m }
{
    let Some(request) = x else {
        let no_step = refused::malformed(s, sound);
        return kernel::stay(s, no_step);
    };
    if !kernel::is_formed(request, count) {
        let no_message = refused::malformed(s, sound);
        return kernel::stay(s, no_message);
    }
    if !sound {
        return kernel::stay(s, refused::unsound());
    }
    steps::perform(s, request, count, space, words)
}
