// Why a queue may not be made: its sizes, and the room for it in the table and in the lent block.
ghost use Rattle.std.specs.Prelude.{◌≡◌, true, cond, ◌≤◌, ◌<◌, leb};
ghost use Rattle.lists.specs.Test.{◌and◌};
ghost use Rattle.rules.specs.Sizes.{max_queues, max_depth, held_words};
ghost use Rattle.rules.specs.Sound.{is_width, is_depth};
ghost use Rattle.record.specs.Refused.{refusal_code};
ghost use Rattle.machine.specs.Machine.{too_large};

use record::{MAX_DEPTH, MAX_QUEUES, Queues, Refusal};

// A message has 1, 2, 4 or 8 words.
#[tactic(auto, unfolding(rules::specs::Sound::is_width))]
fn is_width(width: u32) -> bool
    ensures answer { result ≡ is_width width }
    ensures small { result ≡ true → width ≤ held_words }
{
    matches!(width, 1 | 2 | 4 | 8)
}

// A queue has room for 1 to 64 messages.
#[tactic(auto, unfolding(rules::specs::Sound::is_depth))]
fn is_depth(depth: u32) -> bool
    ensures answer { result ≡ is_depth depth }
    ensures small { result ≡ true → depth ≤ max_depth }
{
    0 < depth && depth <= MAX_DEPTH
}

// 7 for sizes out of range, 8 for one queue too many or a block that is too short. The clause `small` tells the caller's proof that the numbers of a
// queue that is made fit a byte.
#[tactic(auto, unfolding(record::specs::Refused::refusal_code, record::specs::Refused::refusal_number))]
pub fn refusal(x: Queues, width: u32, depth: u32, space: usize) -> Result<(), Refusal>
    ensures number { refusal_code result ≡ cond (is_width width and is_depth depth) (cond (leb max_queues x.n) 8 (cond (too_large x width depth space) 8 0)) 7 }
    ensures small { refusal_code result ≡ 0 → (width ≤ held_words) × (depth ≤ max_depth) × (x.n < max_queues) }
{
    if !is_width(width) || !is_depth(depth) {
        return Err(Refusal::OutOfRange);
    }
    if MAX_QUEUES <= x.n {
        return Err(Refusal::NoRoom);
    }
    let end = queue_places::start_of(x, x.n) + width * depth;
    if space < end as usize {
        return Err(Refusal::NoRoom);
    }
    Ok(())
}
