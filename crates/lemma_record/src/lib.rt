//! Logs of lemmas, judged: which are right for a project, and what they prove.
//!
//! [`take`] is what an event makes of a ledger. A [`Checker`] is fed a log piece by piece: it takes event after event,
//! and tells the first fault or what the log proves. It checks all of the log or a [`LogPart`]. A [`LemmaBook`] is a ledger that
//! logs what it takes, and accepts what was proved at a [`Desk`]. Its log leaves it piece by piece.
#![tactic(auto)]

mod accepting;
mod book;
mod checker;
mod copies;
mod desk;
mod growing_text;
mod history;
mod judging;
mod law;
mod logging;
mod next;
mod part;
mod taking;

pub use book::{LemmaBook, Shown};
pub use checker::Checker;
pub use desk::{Desk, Lemma};
pub use growing_text::{Blank, Growing, Taken};
pub use history::{Naming, Opened};
pub use law::{claim_law, fault_law, parts_law};
pub use part::LogPart;
pub use taking::take;
