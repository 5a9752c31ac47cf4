//! Judges lists of starts: which rules and capacities they violate, and the text that they come in. It also judges sets
//! of activities.
#![tactic(auto)]

mod acceptance;
mod claimed;
mod entry;
mod fault;
mod line;
mod members;
mod starts_text;
mod table;
mod violation;

pub use acceptance::{AcceptFault, accept};
pub use claimed::check_claimed;
pub use fault::StartsFault;
pub use members::{are_members, is_forbidden};
pub use starts_text::read_starts;
pub use violation::{Violation, violations};
