//! A project as searches read it: its numbers in 32 bits, the longest walks between activities, the orders that lags
//! settle, and sets of activities that run one at a time.
//!
//! Nothing here needs to be trusted: whoever takes what a search says has it checked.
#![tactic(auto)]

mod assignment;
mod classes;
mod cliques;
mod groups;
mod machine;
mod member;
mod model;
mod numbers;
mod orders;
mod rows;
mod table;
mod two_groups;
mod walks;

pub use assignment::{Assignment, Costs};
pub use classes::{Classes, DelayLemma, Shown, order_edge, reverse};
pub use machine::{GroupOrder, Machine};
pub use member::{Late, Member};
pub use model::Model;
pub use numbers::{Edge, Instance};
pub use orders::{Rivals, Settled, settle, start_sequence};
pub use rows::Rows;
pub use table::{Result, Table, clip, narrow};
pub use walks::Walks;
