//! The bytes of a log of lemmas: what was accepted, in that order, and last what is proved.
//!
//! A log begins with a line, which [`put_title`] writes, and goes on with events, which [`put_event`] writes one after
//! another. [`read_title`] and [`read_event`] read them back. An event is a number and as many bytes; numbers have 7
//! bits a byte, lowest first, and at most 9 bytes.
#![tactic(auto)]

mod arc;
mod body;
mod event;
mod fault;
mod intervals;
mod law;
mod line;
mod lists;
mod members;
mod number;
mod overload;
mod read;
mod signed;
mod title;
mod writable;
mod write;

pub use event::{Event, Lines};
pub use fault::DecodeFault;
pub use law::spelling_law;
pub use read::{Read, is_cut_off, read_event};
pub use title::{put_title, read_title};
pub use writable::{MAX_ARCS, MAX_BYTES, is_writable};
pub use write::put_event;
