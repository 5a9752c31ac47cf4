//! The command `verify` of both programs: what a record of either kind proves of a project.
//!
//! [`run_verify`] reads a project and then a record: one of a tree whole, and one of lemmas piece by piece.
#![tactic(auto)]

mod log_proof;
mod scope;
mod tree_proof;
mod verifying;

pub use lemma_record::LogPart;
pub use scope::Scope;
pub use verifying::{RecordKind, run_verify};
