// Decimal numbers: 32 bits, no sign, no needless leading zero.
#![tactic(auto)]

ghost use Rattle.std.specs.Prelude.{◌≡◌, length};
ghost use Rattle.text.specs.Place.{put_answer, put_bytes};
ghost use Rattle.decimal.specs.Decimal.{decimal};
ghost use Rattle.decimal.specs.Parse.{with_digit, parsed};

const ZERO: u8 = b'0';

// n with one more digit after it.
#[tactic(auto, unfolding(crate::specs::Parse::with_digit))]
fn with_digit(n: u32, c: u8) -> Option<u32>
    ensures { result ≡ with_digit n c }
{
    if !c.is_ascii_digit() {
        return None;
    }
    n.checked_mul(10)?.checked_add(u32::from(c - ZERO))
}

// The number that s is in decimal.
#[tactic(auto, using(crate::specs::ParseLaws::digits_step, crate::specs::ParseLaws::digits_end), unfolding(crate::specs::Parse::parsed))]
pub fn parse(s: &[u8]) -> Option<u32>
    ensures { result ≡ parsed s.now }
{
    let (first, rest) = s.split_first()?;
    if *first == ZERO {
        return rest.is_empty().then_some(0);
    }
    let mut n = 0;
    for c in s {
        n = with_digit(n, *c)?;
    }
    Some(n)
}

// How many digits v has; 0 has one.
#[tactic(auto, using(crate::specs::DecimalLaws::digits_count))]
pub fn digits(v: u32) -> usize
    ensures { result ≡ length (decimal v) }
{
    v.max(1).ilog10() as usize + 1
}

// v in decimal, from `at` on: the last digit first, since it comes off first.
#[tactic(auto, unfolding(text::specs::Place::put_answer, text::specs::Place::put_bytes))]
pub fn write(out: &mut [u8], at: usize, v: u32) -> Option<usize>
    ensures answer { result ≡ put_answer out.old at (decimal v) }
    ensures memory { out.new ≡ put_bytes out.old at (decimal v) }
{
    let n = digits(v);
    let end = at.checked_add(n)?;
    if out.len() < end {
        return None;
    }
    let mut rest = v;
    for i in (0..n).rev() {
        out[at + i] = ZERO + (rest % 10) as u8;
        rest /= 10;
    }
    Some(end)
}
