// What stands at a place of the record: for a number that is no place, what an unused one holds.
ghost use Rattle.std.specs.Prelude.{◌≡◌};
ghost use Rattle.record.specs.Record.{ticks_left};
ghost use Rattle.record.specs.Reads.{owner_at, count_at, maximum_at};

use crate::{Mutexes, NONE, Semaphores};

// "wrapping subtract gives ticks left for each timed wait"
pub fn ticks_left(due: u32, clock: u32) -> u32
    ensures { result ≡ ticks_left due clock }
{
    due.wrapping_sub(clock)
}

// A mutex's owner; NONE for a number that no mutex has.
pub fn owner_at(m: Mutexes, j: u8) -> u8
    ensures { result ≡ owner_at m j }
{
    m.owner.get(j as usize).copied().unwrap_or(NONE)
}

pub fn count_at(c: Semaphores, j: u8) -> u32
    ensures { result ≡ count_at c j }
{
    c.count.get(j as usize).copied().unwrap_or(0)
}

pub fn maximum_at(c: Semaphores, j: u8) -> u32
    ensures { result ≡ maximum_at c j }
{
    c.maximum.get(j as usize).copied().unwrap_or(0)
}
