//! A cursor over the words of a text.

ghost use Rattle.std.specs.Prelude.{◌≡◌, ◌≤◌, ◌+◌, ◌∷◌, [], length, MatchOption, ℕ, List, IfOk, true};
ghost use Rattle.words.specs.declared.TheConstants.{MAX_TEXT_BYTES};
ghost use Rattle.sch_reader.specs.Text.{text_words, token};
ghost use Rattle.sch_reader.specs.Layout.{fits};
ghost use Rattle.sch_reader.specs.Reading.{Cursor, Reads, number_at, fitted};

use crate::fault::SchFault;
use crate::place::Place;
use std::marker::Model;
use words::{integer, split_word};

/// What stands between words.
const BLANKS: [u8; 6] = [b' ', b'\t', b'\r', b'\n', b'[', b']'];

/// The most digits of a token.
const TOKEN_DIGITS: usize = 9;

/// What is left of a text, and how many words came before it.
#[derive(Drop)]
pub(crate) struct Reader<'a> {
    rest: &'a [u8],
    index: usize,
}

impl<'a> Model for Reader<'a> {
    ghost Value = { Cursor };

    ghost view = { λ r. record { index = r.index; rest = text_words r.rest.now } };

    ghost invariant = { λ r. r.index + length r.rest.now ≤ MAX_TEXT_BYTES };
}

impl<'a> Reader<'a> {
    /// A reader before the first word.
    pub(crate) fn new(text: &'a [u8]) -> Self
        requires { length text.now ≤ MAX_TEXT_BYTES }
        ensures index { result.index ≡ 0 }
        ensures rest { result.rest ≡ text_words text.now }
    {
        Reader {
            rest: text,
            index: 0,
        }
    }

    /// How many bytes are left, and so at least how many words.
    pub(crate) fn bytes_left(&self) -> usize
        ensures { self.now.index + result ≤ MAX_TEXT_BYTES }
    {
        self.rest.len()
    }

    /// How many words came before.
    pub(crate) fn index(&self) -> usize
        ensures { result ≡ self.now.index }
    {
        self.index
    }

    /// The next word.
    pub(crate) fn word(&mut self) -> Option<&'a [u8]>
        ensures { MatchOption result (self.old.rest ≡ [])
            (λ w. (self.old.rest ≡ w.now ∷ self.new.rest) × (self.new.index ≡ self.old.index + 1)) }
    {
        let (word, rest) = split_word(self.rest, &BLANKS)?;
        self.rest = rest;
        self.index += 1;
        Some(word)
    }

    /// The number at a place.
    #[tactic(auto, unfolding(crate::specs::Reading::number_at))]
    pub(crate) fn number(&mut self, place: Place) -> Result<i64, SchFault>
        ensures reads { Reads (λ z. z) result self.new (number_at place self.old) }
        ensures fits { IfOk result (λ z. fits place z ≡ true) }
    {
        let index = self.index();
        let Some(word) = self.word() else {
            return Err(SchFault::Short { index });
        };
        fitted(place, index, token(word))
    }
}

/// The number that a token spells.
#[tactic(auto, unfolding(crate::specs::Text::token))]
fn token(word: &[u8]) -> Option<i64>
    ensures { result ≡ token word.now }
{
    integer(word, TOKEN_DIGITS)
}

/// The number at a place, where the word there is a token of it.
fn fitted(place: Place, index: usize, value: Option<i64>) -> Result<i64, SchFault>
    ensures value { result ≡ fitted place index value }
    ensures fits { IfOk result (λ z. fits place z ≡ true) }
{
    match value {
        None => Err(SchFault::Token { index }),
        Some(value) if place.fits(value) => Ok(value),
        Some(value) => Err(place.misfit(index, value)),
    }
}
