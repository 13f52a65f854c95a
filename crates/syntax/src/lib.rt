// A line of a script to a step's request and the message beside it: a name and its numbers, parted by tabs.
#![tactic(auto)]

ghost use Rattle.std.specs.Prelude.{◌≡◌};
ghost use Rattle.std.proofs.Math.Option.{none};
ghost use Rattle.words.specs.Form.{words, made_by, step_on};
ghost use Rattle.syntax.specs.Line.{line_read};

use arrive::LONGEST;
use record::Request;
use text::fields::TAB;
use text::{cut, fields};
use words::{MOST_NUMBERS, Message};

// What was read of a line.
#[derive(Clone, Copy)]
pub struct Line {
    pub reading: Option<Request>,
    pub message: Message,
}

// A line that is no step has no message.
#[tactic(auto, unfolding(words::specs::Reading::reading_for, words::specs::Reading::message_on))]
fn no_step() -> Line
    ensures { result ≡ line_read none }
{
    Line {
        reading: None,
        message: words::no_message(),
    }
}

// A line's name with all its numbers.
#[tactic(auto, using(words::specs::MessageLaws::message_made), unfolding(words::specs::Reading::reading))]
fn read_row(name: &[u8], numbers: &[u32]) -> Line
    ensures { result ≡ line_read (made_by words name.now numbers.now) }
{
    let reading = words::read_word(name, numbers);
    let message = words::message_of(reading, numbers);
    Line { reading, message }
}

// The step that a line is. Each field is cut off where the one before it ends, so that the line is gone through once.
// The loop goes by fields and not by an index.
pub fn read_line(line: &[u8]) -> Line
    ensures { result ≡ line_read (step_on line.now) }
{
    if LONGEST < line.len() {
        return no_step();
    }
    let name = fields::nth(line, 0);
    let mut values = [0; MOST_NUMBERS];
    let mut n = 0;
    let mut at = name.len();
    while at < line.len() {
        if n == MOST_NUMBERS {
            return no_step();
        }
        let start = at + 1;
        let field = cut::piece(line, start, TAB);
        let Some(value) = decimal::parse(field) else {
            return no_step();
        };
        values[n] = value;
        n += 1;
        at = start + field.len();
    }
    let numbers = &values[..n];
    read_row(name, numbers)
}
