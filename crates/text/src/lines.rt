// The lines of a text in one piece. Lines end with LF; a last line without LF counts, and nothing follows a final LF.
ghost use Rattle.std.specs.Prelude.{◌≡◌};
ghost use Rattle.text.specs.Lines.{line_from, line_end, next_line};

use crate::cut;

pub const LF: u8 = b'\n';

// Where the line that begins at `at` ends: at its LF, or at the text's end.
pub fn end(text: &[u8], at: usize) -> usize
    ensures { result ≡ line_end text.now at }
{
    cut::find(text, at, LF)
}

// Where the next line begins: behind the LF, or at the text's end, where no line begins.
#[tactic(auto, unfolding(crate::specs::Lines::next_line))]
pub fn next(text: &[u8], at: usize) -> usize
    ensures { result ≡ next_line text.now at }
{
    let e = end(text, at);
    if e < text.len() {
        return e + 1;
    }
    e
}

// The line that begins at `at`, without its LF, as a part of the text.
pub fn line(text: &[u8], at: usize) -> &[u8]
    ensures { result.now ≡ line_from text.now at }
{
    cut::piece(text, at, LF)
}
