// Bytes that arrive in any pieces, cut into lines. A line that lies wholly in one arrival is a part of it, with no
// copy; the bytes of a line that is split over arrivals are kept in a lent carry, whose length is the longest line.
#![tactic(auto)]

ghost use Rattle.std.specs.Prelude.{◌≡◌};
ghost use Rattle.arrive.specs.Feed.{line_found, line_carry, fed, carry_after, last_found, found_line};

use text::{cut, place};

// The longest line of a script, without its LF.
pub const LONGEST: usize = 160;

// What was found in the bytes that arrived. `Nothing` is a case here, and no `Option` around: `line` and the
// definitions `found_line` and `arrivals_of` go through the four in one match, and a second layer is no plainer.
#[derive(Clone, Copy)]
pub enum Found {
    // A whole line: this part of the bytes.
    Part { start: usize, end: usize },
    // A whole line that was split: so many of the carry's first bytes.
    Carried(usize),
    // The end of a line that is longer than the carry.
    Long,
    // No line's end.
    Nothing,
}

// What was found, the place behind it, and how many bytes of the next line the carry then holds: more than its
// length stands for a line that is too long for it. A count beside a lent carry: fixed memory, no heap.
#[derive(Drop)]
pub struct Fed {
    pub found: Found,
    pub next: usize,
    pub held: usize,
}

// The line that ends with the part from start to end of the bytes that arrived.
#[tactic(auto, unfolding(crate::specs::Feed::line_found, crate::specs::Feed::line_carry, text::specs::Place::put_answer))]
fn close(carry: &mut [u8], held: usize, part: &[u8], start: usize, end: usize) -> Found
    ensures answer { result ≡ line_found carry.old held part.now start end }
    ensures memory { carry.new ≡ line_carry carry.old held part.now }
{
    if held == 0 {
        if carry.len() < part.len() {
            return Found::Long;
        }
        return Found::Part { start, end };
    }
    match place::put_bytes(carry, held, part) {
        Some(n) => Found::Carried(n),
        None => Found::Long,
    }
}

// The next line's end in the bytes that arrived, from `at` on.
#[tactic(auto, unfolding(crate::specs::Feed::fed, crate::specs::Feed::kept_len, crate::specs::Feed::carry_after, text::specs::Place::put_answer))]
pub fn feed(carry: &mut [u8], held: usize, bytes: &[u8], at: usize) -> Fed
    ensures answer { result ≡ fed carry.old held bytes.now at }
    ensures memory { carry.new ≡ carry_after carry.old held bytes.now at }
{
    let part = reader::line_at(bytes, at);
    let end = at + part.len();
    if end < bytes.len() {
        let found = close(carry, held, part, at, end);
        return Fed {
            found,
            next: end + 1,
            held: 0,
        };
    }
    let kept = place::put_bytes(carry, held, part);
    Fed {
        found: Found::Nothing,
        next: end,
        held: kept.unwrap_or(carry.len() + 1),
    }
}

// What is left when nothing more arrives: a last line without LF.
#[tactic(auto, unfolding(crate::specs::Feed::last_found))]
pub fn finish(carry: &[u8], held: usize) -> Found
    ensures { result ≡ last_found carry.now held }
{
    if held == 0 {
        Found::Nothing
    } else if carry.len() < held {
        Found::Long
    } else {
        Found::Carried(held)
    }
}

// The line that was found, where it lies: in the bytes that arrived or in the carry. Without one it is empty.
pub fn line<'a>(carry: &'a [u8], bytes: &'a [u8], found: Found) -> &'a [u8]
    ensures { result.now ≡ found_line carry.now bytes.now found }
{
    match found {
        Found::Part { start, end } => cut::part(bytes, start, end),
        Found::Carried(n) => cut::part(carry, 0, n),
        Found::Long | Found::Nothing => &[],
    }
}
