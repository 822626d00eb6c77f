// Numbers and dates as they are typed: decimal digits alone, and a date as 2026-11-04. What is written otherwise is not read at all.
// A number that no `usize` holds is given as one that no slip can hold either, so that none wraps round to a good one.
ghost use Rattle.std.specs.Prelude.{◌≤◌};

// A number has so many digits at most; a room for its word has one byte more.
const MOST_DIGITS: usize = 64;

// Every number from this one on is given as this one, which is too large for every field of a slip.
const HUGE: usize = 1000000000000000000;

// The number that 1 to 64 decimal digits stand for.
pub(crate) fn number(word: &[u8]) -> Option<usize> {
    if word.is_empty() || MOST_DIGITS < word.len() {
        return None;
    }
    word.iter().try_fold(0usize, |n, c| {
        let digit = char::from(*c).to_digit(10)?;
        Some(with_digit(n, digit as usize))
    })
}

// A number with one more digit at its end.
fn with_digit(n: usize, digit: usize) -> usize
    ensures { result ≤ 1000000000000000000 }
{
    n.saturating_mul(10).saturating_add(digit).min(HUGE)
}

// The date that four digits, a hyphen, two digits, a hyphen and two digits say.
pub(crate) fn date(word: &[u8]) -> Option<slip::Date> {
    if word.len() != 10 || word[4] != b'-' || word[7] != b'-' {
        return None;
    }
    Some(slip::Date {
        year: number(&word[..4])?,
        month: number(&word[5..7])?,
        day: number(&word[8..])?,
    })
}
