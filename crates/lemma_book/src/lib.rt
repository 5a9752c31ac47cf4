//! The book of lemmas: what is proved of a project, and the only way to more.
#![tactic(auto)]

mod comparing;
mod deadline;
mod draft;
mod leading;
mod ledger;
mod premises;
mod too_much;

pub use draft::Draft;
pub use ledger::{Ledger, MAX_SLOTS};
pub use premises::Premises;
