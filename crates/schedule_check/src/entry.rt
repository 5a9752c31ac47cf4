//! Reads a line of starts.

ghost use Rattle.std.specs.Prelude.{◌≡◌, ◌||◌, codes, nat_eq};
ghost use Rattle.std.specs.List.{starts_with};
ghost use Rattle.words.specs.Words.{words};
ghost use Rattle.schedule_check.specs.Starts.{spaces, entry_of, given, is_answer};

use words::{integer, natural, split_word};

/// What stands between the words of a line.
const SPACES: [u8; 2] = [b' ', b'\t'];

/// The most digits of an activity.
const ACTIVITY_DIGITS: usize = 4;

/// The most digits of a start.
const START_DIGITS: usize = 10;

/// What a line says.
#[derive(Clone, Copy, PartialEq, Eq, Debug)]
pub(crate) enum Entry {
    /// The line has spaces and tabs alone, or is skipped.
    Nothing,
    /// The activity starts at this time.
    Gives { activity: usize, start: i64 },
    /// The line is not of the form.
    Wrong,
}

fn given(activity: Option<u64>, start: Option<i64>) -> Entry
    ensures { result ≡ given activity start }
{
    match (activity, start) {
        (Some(activity), Some(start)) => Entry::Gives {
            activity: activity as usize,
            start,
        },
        _ => Entry::Wrong,
    }
}

/// What the line says.
#[tactic(auto, unfolding(crate::specs::Starts::entry_of))]
pub(crate) fn entry_of(line: &[u8]) -> Entry
    ensures { result ≡ entry_of (words spaces line.now) }
{
    let Some((activity, rest)) = split_word(line, &SPACES) else {
        return Entry::Nothing;
    };
    let Some((start, rest)) = split_word(rest, &SPACES) else {
        return Entry::Wrong;
    };
    match split_word(rest, &SPACES) {
        None => given(
            natural(activity, ACTIVITY_DIGITS),
            integer(start, START_DIGITS),
        ),
        Some(_) => Entry::Wrong,
    }
}

/// Whether the text is an answer of the program.
pub(crate) fn is_answer(text: &[u8]) -> bool
    ensures { result ≡ is_answer text.now }
{
    text.starts_with(b"optimal ")
        || text.starts_with(b"feasible ")
        || text.starts_with(b"earliest ")
}
