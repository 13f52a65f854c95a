// A reader keeps a lent text together with its place in it, and hands out the text's lines as parts of it.
#![tactic(auto)]

pub mod whole;

ghost use Rattle.std.specs.Prelude.{◌≡◌, [], get_or};
ghost use Rattle.text.specs.Lines.{lines, line_from, next_line};
ghost use Rattle.reader.specs.Place.{ended_at};

use text::lines;

#[derive(Drop)]
pub struct Reader<'a> {
    pub text: &'a [u8],
    pub at: usize,
}

// A reader at the place where the text's first line begins.
pub fn over<'a>(text: &'a [u8]) -> Reader<'a>
    ensures { (result.text ≡ text.entry) × (result.at ≡ 0) }
{
    Reader { text, at: 0 }
}

// Whether `at` is the text's end or past it.
fn past(text: &[u8], at: usize) -> bool
    ensures { result ≡ ended_at text.now at }
{
    text.len() <= at
}

// Whether no line begins at the reader's place.
pub fn ended<'a>(r: Reader<'a>) -> bool
    ensures { result ≡ ended_at r.entry.text.now r.entry.at }
{
    past(r.text, r.at)
}

// The line that begins at the reader's place, without its LF, as a part of the lent text. Where the reader has ended it's empty.
pub fn line<'a>(r: Reader<'a>) -> &'a [u8]
    ensures { result.now ≡ line_from r.entry.text.now r.entry.at }
{
    lines::line(r.text, r.at)
}

// The reader behind that line, over the same text. One that has ended stays where it is.
pub fn advance<'a>(r: Reader<'a>) -> Reader<'a>
    ensures { (result.text ≡ r.entry.text) × (result.at ≡ next_line r.entry.text.now r.entry.at) }
{
    Reader {
        text: r.text,
        at: lines::next(r.text, r.at),
    }
}

// The lines from the reader's place on.
impl<'a> Iterator for Reader<'a> {
    ghost use Rattle.std.specs.Iterator.{YieldsFirstBy, item_count};
    ghost use Rattle.reader.specs.Place.{lines_from};

    type Item = &'a [u8];

    ghost next_gives = { YieldsFirstBy (λ l. l.now) (λ r. lines_from r.text.now r.at) };

    ghost remaining = { item_count (λ r. lines_from r.text.now r.at) };

    #[tactic(auto, using(text::specs::LinesLaws::lines_next, text::specs::LinesLaws::lines_none))]
    fn next(&mut self) -> Option<&'a [u8]> {
        if past(self.text, self.at) {
            return None;
        }
        let line = lines::line(self.text, self.at);
        self.at = lines::next(self.text, self.at);
        Some(line)
    }
}

// From here on a caller hands in a slice and a number: a reader is made and asked.

// Whether no line begins at `at`.
pub fn ended_at(text: &[u8], at: usize) -> bool
    ensures { result ≡ ended_at text.now at }
{
    ended(Reader { text, at })
}

// The line that begins at `at`, as a part of the text.
pub fn line_at(text: &[u8], at: usize) -> &[u8]
    ensures { result.now ≡ line_from text.now at }
{
    line(Reader { text, at })
}

// Where the line behind it begins.
pub fn next_at(text: &[u8], at: usize) -> usize
    ensures { result ≡ next_line text.now at }
{
    advance(Reader { text, at }).at
}

// The text's first line, empty where it has none.
#[tactic(auto, using(crate::specs::PlaceLaws::nth_first))]
pub fn first_line(text: &[u8]) -> &[u8]
    ensures { result.now ≡ get_or (lines text.now) 0 [] }
{
    line(over(text))
}
