//! Reads numbers.

ghost use Rattle.std.specs.Prelude.{◌≡◌, ◌<◌, ◌≤◌, ◌^◌, IfSome};
ghost use Rattle.std.specs.List.{list_all};
ghost use Rattle.std.specs.Char.{is_ascii_digit};
ghost use Rattle.words.specs.Words.{natural, integer};

/// The most digits that may be asked for: so many spell a number that fits an `i64`.
pub const MAX_DIGITS: usize = 18;

/// Whether each byte is a digit.
fn all_digits(word: &[u8]) -> bool
    ensures { result ≡ list_all is_ascii_digit word.now }
{
    word.iter().all(|b| b.is_ascii_digit())
}

/// The number that 1 to `most` digits spell, leading zeros among them.
pub fn natural(word: &[u8], most: usize) -> Option<u64>
    requires { most ≤ MAX_DIGITS }
    ensures value { result ≡ natural most word.now }
    ensures below { IfSome result (λ n. n < 10 ^ MAX_DIGITS) }
{
    if word.is_empty() || word.len() > most || !all_digits(word) {
        return None;
    }
    let Ok(digits) = str::from_utf8(word) else {
        return None;
    };
    digits.parse().ok()
}

/// The number that a minus or nothing, and then 1 to `most` digits, spell, leading zeros among them.
#[tactic(auto, unfolding(crate::specs::Words::integer))]
pub fn integer(word: &[u8], most: usize) -> Option<i64>
    requires { most ≤ MAX_DIGITS }
    ensures { result ≡ integer most word.now }
{
    match word {
        [b'-', digits @ ..] => natural(digits, most).map(|n| -(n as i64)),
        digits => natural(digits, most).map(|n| n as i64),
    }
}
