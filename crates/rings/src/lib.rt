// Message queues as rings in a lent block of words (see specs/), and where each queue begins.
#![tactic(auto, unfolding(crate::specs::Ring::slot_of, crate::specs::Starts::at_most_all, crate::specs::Starts::start_of))]

ghost use Rattle.std.specs.Prelude.{◌≡◌, ◌*◌, ◌≤◌};
ghost use Rattle.rings.specs.Ring.{slot_of};
ghost use Rattle.rings.specs.Starts.{area_most, at_most_all, start_in};

// The places for queues.
pub const QUEUES: usize = 8;

// The ring place k behind the oldest, round the end.
pub fn slot(oldest: u8, depth: u8, k: u8) -> u32
    ensures { result ≡ slot_of oldest depth k }
{
    let on = u32::from(oldest) + u32::from(k);
    let end = u32::from(depth);
    if on < end { on } else { on - end }
}

// The words of a queue's place.
fn area(width: u8, depth: u8) -> u32
    ensures { (result ≡ width * depth) × (result ≤ area_most) }
{
    u32::from(width) * u32::from(depth)
}

// The queues before queue j, and all where no queue has that id.
fn ahead(j: u8) -> usize
    ensures { result ≡ at_most_all j }
{
    usize::from(j).min(QUEUES)
}

// The first word of queue j where the queues fill the block in the order of their ids.
pub fn start(width: &[u8; QUEUES], depth: &[u8; QUEUES], j: u8) -> u32
    ensures { result ≡ start_in width.now depth.now j }
{
    let n = ahead(j);
    let mut sum = 0u32;
    for i in 0..n {
        sum += area(width[i], depth[i]);
    }
    sum
}
