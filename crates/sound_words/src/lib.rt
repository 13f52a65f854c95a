// The words that tasks hold, eight for each, lent beside the record: a lent slice may have any length.
#![tactic(auto, using(lists::specs::OperatorLaws::operators, lists::specs::OperatorLaws::fits_amp, lists::specs::LoopLaws::all_none), unfolding(record::specs::SoundRecord::words_tidyb))]

ghost use Rattle.std.specs.Prelude.{◌≡◌, ◌*◌};
ghost use Rattle.lists.specs.Test.{allb};
ghost use Rattle.rules.specs.Sizes.{task_places, held_words};
ghost use Rattle.record.specs.SoundRecord.{words_tidyb};
ghost use Rattle.checks.specs.Checks.{unused_at, past_at};

use record::{EIGHT, WORDS};

// Task `i` holds 0 past the first `width` of its words.
pub fn past(words: &[u32], i: u8, width: u8) -> bool
    ensures { result ≡ past_at words.now i width }
{
    let first = EIGHT * (i as usize);
    let wide = width as usize;
    let mut fits = true;
    for n in 0..EIGHT {
        let zero = moves::word(words, first + n) == 0;
        fits &= (n < wide) | zero;
    }
    fits
}

// Tasks hold 0 from the word `first` on.
fn zero_from(words: &[u32], first: usize) -> bool
    ensures { result ≡ allb (held_words * task_places) (unused_at words.now first) }
{
    let end = words.len().min(WORDS);
    let mut fits = true;
    for k in first..end {
        fits &= words[k] == 0;
    }
    fits
}

// There are eight words for each place, and those of places behind the first `n` are 0.
pub fn words_tidy(words: &[u32], n: u8) -> bool
    ensures { result ≡ words_tidyb words.now n }
{
    words.len() == WORDS && zero_from(words, EIGHT * (n as usize))
}

// Does every task hold 0?
pub fn words_zero(words: &[u32]) -> bool
    ensures { result ≡ allb (held_words * task_places) (unused_at words.now 0) }
{
    zero_from(words, 0)
}
