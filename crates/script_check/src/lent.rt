// A session with the memory that each of its calls is lent.
use arrive::LONGEST;
use record::WORDS;
use script::session;
use script::session::{Moved, Session};

#[derive(Drop)]
pub struct Lent<const BLOCK: usize> {
    pub session: Session,
    pub words: [u32; WORDS],
    pub block: [u32; BLOCK],
    pub carry: [u8; LONGEST],
}

impl<const BLOCK: usize> Lent<BLOCK> {
    // A script before its first byte.
    pub fn begin() -> Lent<BLOCK> {
        Lent {
            session: session::begin(),
            words: [0; WORDS],
            block: [0; BLOCK],
            carry: [0; LONGEST],
        }
    }

    // A piece of the script.
    pub fn arrive(&mut self, bytes: &[u8], log: &mut [u8]) -> Moved {
        let moved = session::arrive(
            self.session,
            &mut self.words,
            &mut self.block,
            &mut self.carry,
            bytes,
            log,
        );
        self.session = moved.session;
        moved
    }

    // The end of the script.
    pub fn end(&mut self, log: &mut [u8]) -> Moved {
        let moved = session::end(
            self.session,
            &mut self.words,
            &mut self.block,
            &self.carry,
            log,
        );
        self.session = moved.session;
        moved
    }
}
