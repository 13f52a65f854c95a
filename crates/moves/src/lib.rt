// What a step moves once it stands: a message to the words that a task holds, or to and from its place in the lent block.
#![tactic(auto, unfolding(crate::specs::Fits::can_queue))]

mod fits;

ghost use Rattle.std.specs.Prelude.{◌≡◌, ◌+◌, ◌≤◌, length, get_or};
ghost use Rattle.rings.specs.Words.{laid, padded};
ghost use Rattle.moves.specs.Moves.{hold_words, queue_block, take_words, swap_words, swap_block, words_after, block_after};

use crate::fits::EIGHT;

// What a step moves.
#[derive(Clone, Copy)]
pub enum Move {
    Nothing,
    // The message becomes the words held by a task.
    Hold {
        task: u8,
    },
    // The message goes to a place of the block.
    Queue {
        place: u32,
    },
    // The message at a place of the block becomes the words held by a task.
    Take {
        place: u32,
        width: u8,
        task: u8,
    },
    // The same, and the words that a waiting sender holds go to that place.
    Swap {
        place: u32,
        width: u8,
        task: u8,
        sender: u8,
    },
}

// A word of s, or 0 where s has none there.
pub fn word(s: &[u32], i: usize) -> u32
    ensures { result ≡ get_or s.now i 0 }
{
    s.get(i).copied().unwrap_or(0)
}

// The n words from `at` on set to those of ws and then zeros.
fn lay(dst: &mut [u32], at: usize, n: usize, ws: &[u32])
    requires n_in_bounds { at + n ≤ length dst.old }
    requires ws_len_bound { length ws.now ≤ n }
    ensures { dst.new ≡ laid dst.old at (padded n ws.now) }
{
    let end = at + ws.len();
    dst[at..end].copy_from_slice(ws);
    dst[end..at + n].fill(0);
}

// The words held by the task become the message and then zeros.
fn hold(words: &mut [u32], task: u8, message: &[u32])
    ensures { words.new ≡ hold_words words.old task message.now }
{
    if !fits::can_hold(words.len(), task, message.len()) {
        return;
    }
    let own = EIGHT * (task as usize);
    lay(words, own, EIGHT, message);
}

// The message laid at its place.
fn queue(block: &mut [u32], place: u32, message: &[u32])
    ensures { block.new ≡ queue_block block.old place message.now }
{
    let n = message.len();
    if !fits::can_queue(block.len(), place, n) {
        return;
    }
    let at = place as usize;
    lay(block, at, n, message);
}

// The words held by the task become the message at the place, and then zeros.
fn take(words: &mut [u32], block: &[u32], place: u32, width: u8, task: u8)
    ensures { words.new ≡ take_words words.old block.now place width task }
{
    if !fits::can_take(words.len(), block.len(), place, width, task) {
        return;
    }
    let at = place as usize;
    let end = at + (width as usize);
    let own = EIGHT * (task as usize);
    lay(words, own, EIGHT, &block[at..end]);
}

// The same, and then the words of the sender laid at that place.
fn swap(words: &mut [u32], block: &mut [u32], place: u32, width: u8, task: u8, sender: u8)
    ensures held { words.new ≡ swap_words words.old block.old place width task sender }
    ensures memory { block.new ≡ swap_block words.old block.old place width task sender }
{
    if !fits::can_swap(words.len(), block.len(), place, width, task, sender) {
        return;
    }
    let at = place as usize;
    let n = width as usize;
    let end = at + n;
    let own = EIGHT * (task as usize);
    lay(words, own, EIGHT, &block[at..end]);
    let from = EIGHT * (sender as usize);
    let to = from + n;
    lay(block, at, n, &words[from..to]);
}

// One move made; one that does not fit changes nothing.
pub fn make(m: Move, words: &mut [u32], message: &[u32], block: &mut [u32])
    ensures held { words.new ≡ words_after m words.old message.now block.old }
    ensures memory { block.new ≡ block_after m words.old message.now block.old }
{
    match m {
        Move::Nothing => {}
        Move::Hold { task } => hold(words, task, message),
        Move::Queue { place } => queue(block, place, message),
        Move::Take { place, width, task } => take(words, block, place, width, task),
        Move::Swap {
            place,
            width,
            task,
            sender,
        } => swap(words, block, place, width, task, sender),
    }
}
