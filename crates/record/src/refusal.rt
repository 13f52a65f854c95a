// Why a step is refused: a name for each refusal of the table of numbers.
ghost use Rattle.std.specs.Prelude.{◌≡◌};
ghost use Rattle.record.specs.Refused.{refusal_number};

// Each refusal, and its number.
#[derive(Clone, Copy, PartialEq, Eq, Debug, Drop)]
pub enum Refusal {
    // post: no waiter and count at maximum
    AtMaximum = 2,
    // would wait, and time is 0
    WouldWait = 3,
    // creation or start after start, or another step before it
    WrongPhase = 4,
    // a step that needs a caller with none running
    NoCaller = 5,
    // no such task, mutex, semaphore or queue
    NoSuchObject = 6,
    // a number outside its range
    OutOfRange = 7,
    // the table or the lent memory is full
    NoRoom = 8,
    // the caller is the owner
    OwnerAlready = 9,
    // the caller isn't the owner
    NotOwner = 10,
    // would wait, or yield, while scheduling is held
    Held = 11,
    // the wait would close a ring
    Ring = 12,
    // hold at its greatest depth, free at 0
    HoldLimit = 13,
    // what was asked for is no step
    NoStep = 14,
    // the state handed in isn't sound
    Unsound = 15,
}

// "Each refusal has its number"
pub fn number(why: Refusal) -> u8
    ensures { result ≡ refusal_number why }
{
    why as u8
}
