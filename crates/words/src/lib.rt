// A step's name with its numbers to the step's request and the message beside it.
#![tactic(auto)]

ghost use Rattle.std.specs.Prelude.{◌≡◌, [], ◌∷◌};
ghost use Rattle.words.specs.Reading.{reading, words_in, message_in, message_with};

use record::{EIGHT, Request};

// The numbers of a send ahead of its words, and the most that it takes with them, as no other word does.
const AHEAD: usize = 2;

pub const MOST_NUMBERS: usize = AHEAD + EIGHT;

// The words of a message, and how many there are; the rest 0: fixed memory with its length beside it, as there is no heap. It stands beside its request, as
// an enum holds no array.
#[derive(Clone, Copy)]
pub struct Message {
    pub words: [u32; EIGHT],
    pub n: usize,
}

// A name without numbers.
#[tactic(auto, using(crate::specs::FormLaws::alone_words), unfolding(text::specs::Ascii::ascii))]
fn alone(name: &[u8]) -> Option<Request>
    ensures { result ≡ reading name.now [] }
{
    match name {
        b"start" => Some(Request::Start),
        b"yield" => Some(Request::Yield),
        b"hold" => Some(Request::Hold),
        b"free" => Some(Request::Free),
        b"tick" => Some(Request::Tick),
        _ => None,
    }
}

// A name with one number.
#[tactic(auto, using(crate::specs::FormLaws::one_words), unfolding(text::specs::Ascii::ascii))]
fn with_one(name: &[u8], a: u32) -> Option<Request>
    ensures { result ≡ reading name.now (a ∷ []) }
{
    match name {
        b"task" => Some(Request::Task { priority: a }),
        b"mutex" => Some(Request::Mutex { kind: a }),
        b"unlock" => Some(Request::Unlock { mutex: a }),
        b"post" => Some(Request::Post { semaphore: a }),
        b"flush" => Some(Request::Flush { semaphore: a }),
        b"sleep" => Some(Request::Sleep { time: a }),
        b"level" => Some(Request::Level { task: a }),
        b"outcome" => Some(Request::Outcome { task: a }),
        _ => None,
    }
}

// A name with two numbers.
#[tactic(auto, using(crate::specs::FormLaws::two_words), unfolding(text::specs::Ascii::ascii))]
fn with_two(name: &[u8], a: u32, b: u32) -> Option<Request>
    ensures { result ≡ reading name.now (a ∷ b ∷ []) }
{
    match name {
        b"sem" => Some(Request::Sem {
            count: a,
            maximum: b,
        }),
        b"lock" => Some(Request::Lock { mutex: a, time: b }),
        b"pend" => Some(Request::Pend {
            semaphore: a,
            time: b,
        }),
        b"queue" => Some(Request::Queue { width: a, depth: b }),
        b"receive" => Some(Request::Receive { queue: a, time: b }),
        b"word" => Some(Request::Word { task: a, n: b }),
        _ => None,
    }
}

// A name with its numbers.
#[tactic(auto, using(crate::specs::FormLaws::more_words), unfolding(text::specs::Ascii::ascii))]
pub fn read_word(name: &[u8], numbers: &[u32]) -> Option<Request>
    ensures { result ≡ reading name.now numbers.now }
{
    match (name, numbers) {
        (_, []) => alone(name),
        (_, [a]) => with_one(name, *a),
        (_, [a, b]) => with_two(name, *a, *b),
        (b"queue", [width, depth, owner]) => Some(Request::OwnedQueue {
            width: *width,
            depth: *depth,
            owner: *owner,
        }),
        (b"send", [queue, time, _, ..]) if numbers.len() <= MOST_NUMBERS => Some(Request::Send {
            queue: *queue,
            time: *time,
        }),
        _ => None,
    }
}

// No message.
#[tactic(auto, unfolding(lists::specs::Table::pad))]
pub fn no_message() -> Message
    ensures { result ≡ message_with [] }
{
    Message {
        words: [0; EIGHT],
        n: 0,
    }
}

// The message of a send: the words behind its first two numbers, at most eight.
fn words_in(numbers: &[u32]) -> Message
    ensures { result ≡ message_with (words_in numbers.now) }
{
    let [_, _, message @ ..] = numbers else {
        return no_message();
    };
    let n = message.len().min(EIGHT);
    let mut words = [0; EIGHT];
    words[..n].copy_from_slice(&message[..n]);
    Message { words, n }
}

// The message beside what was read of a name with these numbers.
#[tactic(auto, using(crate::specs::MessageLaws::sent_words))]
pub fn message_of(reading: Option<Request>, numbers: &[u32]) -> Message
    ensures { result ≡ message_with (message_in reading numbers.now) }
{
    match reading {
        Some(Request::Send { .. }) => words_in(numbers),
        _ => no_message(),
    }
}
