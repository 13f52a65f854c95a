// Answers as they are shown.
use record::{Answer, NONE};
use std::{fmt, io};

// An answer as in a log line: number, value and task to run.
#[derive(Clone, Copy)]
pub struct Shown(pub Answer);

impl fmt::Display for Shown {
    fn fmt<W: fmt::Write>(&self, f: &mut fmt::Formatter<W>) -> fmt::Result {
        match self.0 {
            Answer::Accepted { number, value, run } | Answer::Refused { number, value, run } => {
                write!(f, "{number} {value} ")?;
                if run == NONE {
                    return f.write_str("-");
                }
                write!(f, "{run}")
            }
        }
    }
}

// The answer of a step, and whether all is as it was before it.
pub fn stayed(rt: &impl Print, label: &str, answer: Answer, same: bool) -> io::Result<()> {
    let change = if same { "unchanged" } else { "changed" };
    println!(rt; "{label}: {} {change}", Shown(answer))
}
