//! The text of a record: a claim about a project, and the lines that show it.
//!
//! A record of whatever kind is a [`Recorded`]. It has one text, which [`Recorded::write`] makes and [`Recorded::read`]
//! takes. The kind that is here is that of a search, whose lines are those of a tree. Whether a record's claim is true of
//! a project is no matter of this crate.
#![tactic(auto)]

mod event_fault;
mod fault;
mod fields;
mod kind;
mod line;
mod listed;
mod read;
mod record;
mod row;
mod search;
mod starts;
mod text_rows;
mod write;

pub use event_fault::{EventFault, Wrong};
pub use fault::{RecordFault, RecordFaultKind};
pub use fields::{MAX_NUMBER_DIGITS, number, numbers, numbers_after, split_field};
pub use kind::RecordLine;
pub use line::{Claim, Line};
pub use listed::{Listed, Members, Starts};
pub use record::{Recorded, text_law, text_of};
pub use search::Record;
pub use starts::read_starts;
pub use text_rows::{after_title, next_row};
pub use write::{put_numbers, put_optimal};

/// How many bytes the text of a record may have that is read.
pub const MAX_RECORD_BYTES: usize = 268_435_456;
