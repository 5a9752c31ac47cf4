//! What a user relies on: a page of definitions that stands alone, and the theorems that each program keeps it. There is
//! no code here.
#![tactic(auto)]

mod laws;

pub use laws::{psmax_law, psprove_law, verify_law};
