//! Reads and writes projects as texts, in a layout made after PSPLIB's single-mode ProGen/max files.
//!
//! Space, tab, CR, LF, `[` and `]` are blanks. A word is a longest run of other bytes; words count from 0. Each word
//! has to be a token: a minus or nothing, and then 1 to 9 digits. With n activities between the start and the end, and
//! K resources, the words are, in this order:
//!
//! 1. the header: n, K, 0, 0;
//! 2. for each activity a network row: the activity, 1, how many given arcs lead from it, their ends,
//!    their lags;
//! 3. for each activity a request row: the activity, 1, its duration, its K demands;
//! 4. K capacities.
//!
//! Rows are numbered through: network rows from 0 to n + 1, request rows from n + 2 to 2n + 3.
//!
//! One of the texts that spell a project is canonical, and [`write_sch`] gives it. It has a line for each row, one tab
//! between words, and lags in brackets.
#![tactic(auto)]

mod canonical;
mod fault;
mod place;
mod reader;
mod text;

pub use canonical::{read_written, write_sch};
pub use fault::SchFault;
pub use text::read_sch;
