//! The parts of every reader of a text: where it cuts bytes, and the numbers that digits spell.
//!
//! [`split_once`] cuts a text at one byte, and keeps empty pieces. [`split_word`] cuts it into words, and skips any run
//! of separators. What a word spells is [`natural`] or, with a sign, [`integer`].
#![tactic(auto)]

mod numeral;
mod split;

pub use numeral::{MAX_DIGITS, integer, natural};
pub use split::{split_once, split_word};

/// How many bytes a text may have that a reader takes.
pub const MAX_TEXT_BYTES: usize = 16_777_216;
