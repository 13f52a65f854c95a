// Whether a move fits into the table of words and into the block, by their lengths.
ghost use Rattle.std.specs.Prelude.{◌≡◌};
ghost use Rattle.moves.specs.Fits.{can_hold, can_queue, can_take, can_swap};

// The words of a task in the table, and the widest message.
pub const EIGHT: usize = 8;

// The task has its words in the table, and n words fit into them.
pub fn can_hold(table: usize, task: u8, n: usize) -> bool
    ensures { result ≡ can_hold table task n }
{
    (task as usize) < table / EIGHT && n <= EIGHT
}

// The n words from the place on lie in the block.
pub fn can_queue(block: usize, place: u32, n: usize) -> bool
    ensures { result ≡ can_queue block place n }
{
    let at = place as usize;
    at <= block && n <= block - at
}

// The message at the place lies in the block, and the task can hold it.
pub fn can_take(table: usize, block: usize, place: u32, width: u8, task: u8) -> bool
    ensures { result ≡ can_take table block place width task }
{
    let n = width as usize;
    can_queue(block, place, n) && can_hold(table, task, n)
}

// And the sender holds one as wide.
pub fn can_swap(table: usize, block: usize, place: u32, width: u8, task: u8, sender: u8) -> bool
    ensures { result ≡ can_swap table block place width task sender }
{
    can_take(table, block, place, width, task) && can_hold(table, sender, width as usize)
}
