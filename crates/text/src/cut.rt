// A text cut into pieces at each byte of one kind, with no copy.
ghost use Rattle.std.specs.Prelude.{◌≡◌, ◌==◌, position, ◌-◌, take, drop};
ghost use Rattle.text.specs.Cut.{up_to, find_from};

// Where the first b stands.
fn first(s: &[u8], b: u8) -> Option<usize>
    ensures { result ≡ position (λ x. x == b) s.now }
{
    s.iter().position(|c| *c == b)
}

// Where the first b from `at` on stands, or else where the text ends. Past the text's end that is `at` itself.
#[tactic(auto, using(crate::specs::CutLaws::up_to_first, crate::specs::CutLaws::up_to_most))]
pub fn find(text: &[u8], at: usize, b: u8) -> usize
    ensures { result ≡ find_from b text.now at }
{
    let rest = text.get(at..).unwrap_or(&[]);
    at + first(rest, b).unwrap_or(rest.len())
}

// The part of the text from start to end, as far as there is one.
pub fn part(text: &[u8], start: usize, end: usize) -> &[u8]
    ensures { result.now ≡ take (end - start) (drop start text.now) }
{
    text.get(start..end.min(text.len())).unwrap_or(&[])
}

// The part of the text from `at` up to the next b or the end. Past the text's end it is empty.
pub fn piece(text: &[u8], at: usize, b: u8) -> &[u8]
    ensures { result.now ≡ up_to b (drop at text.now) }
{
    let end = find(text, at, b);
    part(text, at, end)
}
