// Steps of a row, one after another: each goes on from what the one before it left, and shows its answer on a line of its own.
use crate::kept::Kept;
use crate::show::Shown;
use record::Request;
use std::io;

#[derive(Drop)]
pub struct Row<'a, R> {
    rt: &'a R,
    kept: Kept,
}

impl<'a, R: Print> Row<'a, R> {
    pub fn new(rt: &'a R, kept: Kept) -> Row<'a, R> {
        Row { rt, kept }
    }

    fn tell(&mut self, x: Request, message: &[u32]) -> io::Result<()> {
        let answer = self.kept.step(x, message);
        println!(self.rt; "{}", Shown(answer))
    }

    // A step without a message.
    pub fn ask(&mut self, x: Request) -> io::Result<()> {
        self.tell(x, &[])
    }

    // Such steps one after another.
    pub fn ask_each(&mut self, steps: &[Request]) -> io::Result<()> {
        for x in steps {
            self.ask(*x)?;
        }
        Ok(())
    }

    pub fn send(&mut self, queue: u32, time: u32, message: &[u32]) -> io::Result<()> {
        self.tell(Request::Send { queue, time }, message)
    }

    pub fn receive(&mut self, queue: u32, time: u32) -> io::Result<()> {
        self.ask(Request::Receive { queue, time })
    }

    pub fn task(&mut self, priority: u32) -> io::Result<()> {
        self.ask(Request::Task { priority })
    }

    pub fn queue(&mut self, width: u32, depth: u32) -> io::Result<()> {
        self.ask(Request::Queue { width, depth })
    }

    pub fn owned_queue(&mut self, width: u32, depth: u32, owner: u32) -> io::Result<()> {
        self.ask(Request::OwnedQueue {
            width,
            depth,
            owner,
        })
    }

    pub fn level(&mut self, task: u32) -> io::Result<()> {
        self.ask(Request::Level { task })
    }

    pub fn outcome(&mut self, task: u32) -> io::Result<()> {
        self.ask(Request::Outcome { task })
    }

    pub fn word(&mut self, task: u32, n: u32) -> io::Result<()> {
        self.ask(Request::Word { task, n })
    }

    // The words of the block that steps are lent.
    pub fn block(&self) -> io::Result<()> {
        print!(self.rt; "block")?;
        for word in self.kept.block.iter().take(self.kept.space) {
            print!(self.rt; " {word}")?;
        }
        println!(self.rt)
    }

    // The depth of holds.
    pub fn hold(&self) -> io::Result<()> {
        println!(self.rt; "{}", self.kept.state.hold)
    }
}
