//! Splits texts at bytes.

ghost use Rattle.std.specs.Prelude.{◌≡◌, ◌+◌, ◌<◌, ◌∷◌, [], length, MatchOption, IfSome, not, position, ◌==◌};
ghost use Rattle.words.specs.Words.{is_in, pieces, words};

/// Where the first such byte is.
fn first_at(text: &[u8], byte: u8) -> Option<usize>
    ensures { result ≡ position (λ b. b == byte) text.now }
{
    text.iter().position(|b| *b == byte)
}

/// The bytes before the first such byte, and those after it: none where it does not come.
pub fn split_once(text: &[u8], separator: u8) -> Option<(&[u8], &[u8])>
    ensures pieces { MatchOption result (pieces separator text.now ≡ text.now ∷ [])
        (λ r. pieces separator text.now ≡ r.0.now ∷ pieces separator r.1.now) }
    ensures shorter { IfSome result (λ r. length r.0.now + 1 + length r.1.now ≡ length text.now) }
{
    let end = first_at(text, separator)?;
    let (front, rest) = text.split_at(end);
    let (_, rest) = rest.split_at(1);
    Some((front, rest))
}

/// Where the first byte is that is none of the separators.
fn first_of_word(text: &[u8], separators: &[u8]) -> Option<usize>
    ensures { result ≡ position (λ b. not (is_in separators.now b)) text.now }
{
    text.iter().position(|b| !separators.contains(b))
}

/// Where the first separator is.
fn first_separator(text: &[u8], separators: &[u8]) -> Option<usize>
    ensures { result ≡ position (is_in separators.now) text.now }
{
    text.iter().position(|b| separators.contains(b))
}

/// The first word of a text, and what follows it: none where there are separators alone.
pub fn split_word<'a>(text: &'a [u8], separators: &[u8]) -> Option<(&'a [u8], &'a [u8])>
    ensures words { MatchOption result (words separators.now text.now ≡ [])
        (λ r. words separators.now text.now ≡ r.0.now ∷ words separators.now r.1.now) }
    ensures shorter { IfSome result (λ r. length r.1.now < length text.now) }
{
    let start = first_of_word(text, separators)?;
    let (_, text) = text.split_at(start);
    let end = first_separator(text, separators).unwrap_or(text.len());
    Some(text.split_at(end))
}
