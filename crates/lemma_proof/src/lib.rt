//! The proof of a lemma: lines of which each shows one arc more, until the arcs close a walk of positive weight.
#![tactic(auto)]

mod arcs;
mod bench;
mod block;
mod block_dense;
mod both;
mod clique;
mod dense;
mod effort;
mod heads;
mod law;
mod left;
mod line;
mod load;
mod overload;
mod raise;
mod refute;
mod rise;
mod root;
mod shows;
mod slots;
mod table;
mod tour;
mod weights;

pub use arcs::{joins_activities, reverse_of};
pub use bench::Bench;
pub use block::{Block, MAX_SEEN};
pub use block_dense::{matrix_with, take};
pub use clique::is_clique;
pub use law::refuted_law;
pub use line::{Interval, Intervals, Line, MAX_LENGTH, WindowOverload};
pub use load::is_load;
pub use refute::are_arcs;
pub use shows::{IMPOSSIBLE, Lags};
pub use slots::LemmaSlots;
pub use tour::{all_are_small, is_small, is_tour};
pub use weights::{MAX_ARC_WEIGHT, Weights};
