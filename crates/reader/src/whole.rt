// The lines of a whole text, found by a reader that goes from line to line.
ghost use Rattle.std.specs.Prelude.{◌≡◌, [], length, get_or};
ghost use Rattle.text.specs.Lines.{lines};

use crate::over;

// How many lines the text has.
#[tactic(auto, using(text::specs::LinesLaws::lines_most))]
pub fn count_lines(text: &[u8]) -> usize
    ensures { result ≡ length (lines text.now) }
{
    over(text).count()
}

// The n-th line, from 0 on, as a part of the text. From `count_lines` on there is none, and the part is empty.
pub fn nth_line(text: &[u8], n: usize) -> &[u8]
    ensures { result.now ≡ get_or (lines text.now) n [] }
{
    over(text).nth(n).unwrap_or(&[])
}
