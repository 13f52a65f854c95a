// What stands at a queue's place, and where its messages lie in the lent block: for a number that is no place, what an unused one holds.
#![tactic(auto)]

ghost use Rattle.std.specs.Prelude.{◌≡◌, ◌*◌, ◌≤◌};
ghost use Rattle.rings.specs.Starts.{queue_places, area_most, start_in};
ghost use Rattle.record.specs.Reads.{queue_owner_at};
ghost use Rattle.machine.specs.Machine.{width_at, depth_at, oldest_at, used_at, place_at, next_oldest};

use record::{NONE, Queues};

// How many words a message of the queue has.
pub fn width_at(x: Queues, q: u8) -> u8
    ensures { result ≡ width_at x q }
{
    x.width.get(q as usize).copied().unwrap_or(0)
}

// How many messages the queue has room for.
pub fn depth_at(x: Queues, q: u8) -> u8
    ensures { result ≡ depth_at x q }
{
    x.depth.get(q as usize).copied().unwrap_or(0)
}

// The queue's owner, or NONE.
pub fn owner_at(x: Queues, q: u8) -> u8
    ensures { result ≡ queue_owner_at x q }
{
    x.owner.get(q as usize).copied().unwrap_or(NONE)
}

// The ring place of the oldest message.
pub fn oldest_at(x: Queues, q: u8) -> u8
    ensures { result ≡ oldest_at x q }
{
    x.oldest.get(q as usize).copied().unwrap_or(0)
}

// How many messages the queue has.
pub fn used_at(x: Queues, q: u8) -> u8
    ensures { result ≡ used_at x q }
{
    x.used.get(q as usize).copied().unwrap_or(0)
}

// The first word of queue q, which is as many words as the queues before it take. The clause `small` tells the caller's proof that a sum with it
// fits a word.
pub fn start_of(x: Queues, q: u8) -> u32
    ensures first { result ≡ start_in x.width x.depth q }
    ensures small { result ≤ area_most * queue_places }
{
    rings::start(&x.width, &x.depth, q)
}

// The first word of the message k behind the oldest one.
pub fn place_of(x: Queues, q: u8, k: u8) -> u32
    ensures { result ≡ place_at x q k }
{
    let first = start_of(x, q);
    let slot = rings::slot(oldest_at(x, q), depth_at(x, q), k);
    first + width_at(x, q) as u32 * slot
}

// The ring place behind the oldest message's: behind the last one comes the first.
pub fn next_oldest(x: Queues, q: u8) -> u8
    ensures { result ≡ next_oldest x q }
{
    let next = oldest_at(x, q) as u32 + 1;
    if next < depth_at(x, q) as u32 {
        return next as u8;
    }
    0
}
