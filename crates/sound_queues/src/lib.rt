// The table of queues: one function for each phrase of "sound state" about it, over all places at once.
#![tactic(auto, using(lists::specs::OperatorLaws::operators, lists::specs::OperatorLaws::fits_amp, lists::specs::LoopLaws::all_none), unfolding(checks::specs::Checks::queue_fits, rules::specs::Sound::is_width, rules::specs::Sound::is_depth))]

ghost use Rattle.std.specs.Prelude.{◌≡◌, leb};
ghost use Rattle.lists.specs.Test.{◌and◌, allb};
ghost use Rattle.rules.specs.Sizes.{max_queues};
ghost use Rattle.rules.specs.Sound.{is_width, is_depth};
ghost use Rattle.rings.specs.Starts.{start_in};
ghost use Rattle.checks.specs.Checks.{unused_at, queue_fits, queue_fits_at, free_at};

use record::{MAX_QUEUES, NONE, QUEUES, Queues};

// The most messages that a queue has room for, as the record counts them.
const DEEPEST: u8 = record::MAX_DEPTH as u8;

// "1, 2, 4 or 8-word messages"
fn width_fits(width: u8) -> bool
    ensures { result ≡ is_width width }
{
    (width == 1) | (width == 2) | (width == 4) | (width == 8)
}

// "depth 1 to 64"
fn depth_fits(depth: u8) -> bool
    ensures { result ≡ is_depth depth }
{
    (0 < depth) & (depth <= DEEPEST)
}

// A queue's width and depth are in range, its owner one of `tasks`, its oldest message in its ring, and its messages have room; an unused one is
// as in the fresh record.
fn queue_fits(used: bool, tasks: u8, width: u8, depth: u8, owner: u8, oldest: u8, count: u8) -> bool
    ensures { result ≡ queue_fits used tasks width depth owner oldest count }
{
    let exists = (owner == NONE) | (owner < tasks);
    let ring = (oldest < depth) & (count <= depth);
    let made = width_fits(width) & depth_fits(depth) & exists & ring;
    let none = (oldest == 0) & (count == 0);
    let unmade = (width == 0) & (depth == 0) & (owner == NONE) & none;
    (used & made) | (!used & unmade)
}

// Does a column hold 0 at every place? Of the counts: has no queue a message?
pub fn all_empty(used: &[u8; QUEUES]) -> bool
    ensures { result ≡ allb max_queues (unused_at used.now 0) }
{
    let mut fits = true;
    for q in 0..QUEUES {
        fits &= used[q] == 0;
    }
    fits
}

// Every place is as in the fresh record.
fn none_made(x: Queues) -> bool
    ensures { result ≡ allb max_queues (unused_at x.width 0) and allb max_queues (unused_at x.depth 0) and allb max_queues (free_at x.owner) and allb max_queues (unused_at x.oldest 0) and allb max_queues (unused_at x.used 0) }
{
    let width = x.width;
    let depth = x.depth;
    let owner = x.owner;
    let oldest = x.oldest;
    let used = x.used;
    let sizes = all_empty(&width) & all_empty(&depth);
    let ring = all_empty(&oldest) & all_empty(&used);
    sizes & sound_objects::all_free(&owner) & ring
}

// Every place is as it should be, whether a queue is made there or not.
fn each_fits(x: Queues, tasks: u8) -> bool
    ensures { result ≡ allb max_queues (queue_fits_at x tasks) }
{
    let mut fits = true;
    for q in 0..MAX_QUEUES {
        let i = q as usize;
        fits &= queue_fits(
            q < x.n,
            tasks,
            x.width[i],
            x.depth[i],
            x.owner[i],
            x.oldest[i],
            x.used[i],
        );
    }
    fits
}

// Widths, depths, owners and counts are in range, and unused places as in the fresh record. Where no queue is made only the latter is asked: ranges
// are compiled to tests of one place after another.
pub fn queues(x: Queues, tasks: u8) -> bool
    ensures { result ≡ allb max_queues (queue_fits_at x tasks) }
{
    if x.n == 0 {
        return none_made(x);
    }
    each_fits(x, tasks)
}

// The lent block of `space` words has a place for all queues, one behind another.
pub fn placed(x: Queues, space: usize) -> bool
    ensures { result ≡ leb (start_in x.width x.depth x.n) space }
{
    let width = x.width;
    let depth = x.depth;
    (rings::start(&width, &depth, x.n) as usize) <= space
}
