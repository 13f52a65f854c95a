// A record with all that a step is lent beside it: the words that tasks hold, and a block of which a step sees the first `space` words.
use record::{Answer, Request, State, WORDS};

// Room for a queue of the greatest depth, and a little beside it.
pub const ROOM: usize = 72;

// What a block holds before the first message, so that it shows which words were written.
pub const BLANK: u32 = 7;

#[derive(Clone, Copy, PartialEq, Eq)]
pub struct Kept {
    pub state: State,
    pub words: [u32; WORDS],
    pub block: [u32; ROOM],
    pub space: usize,
}

impl Kept {
    // A record whose tasks hold no words, with a block.
    pub fn with_block(state: State, space: usize) -> Kept {
        Kept {
            state,
            words: [0; WORDS],
            block: [BLANK; ROOM],
            space,
        }
    }

    pub fn fresh(space: usize) -> Kept {
        Kept::with_block(record::fresh(), space)
    }

    // A step with its message, lent the first words of the block only.
    pub fn step(&mut self, x: Request, message: &[u32]) -> Answer {
        let n = self.space.min(ROOM);
        let block = &mut self.block[..];
        let out = kernel::step(self.state, x, message, &mut self.words, &mut block[..n]);
        self.state = out.state;
        out.answer
    }

    // Steps without a message, whose answers are not shown.
    pub fn quietly(&mut self, steps: &[Request]) {
        for x in steps {
            self.step(*x, &[]);
        }
    }
}
