//! Propagators: what follows from bounds by arcs and orders, by the time table, by cliques, by tours, and by energy.
//!
//! Each reads the trail and makes literals hold, with a reason by which they are explained when an analysis asks.
#![tactic(auto)]

mod clique_changes;
mod cliques;
mod edge_finding;
mod edges;
mod energy;
mod group_orders;
mod implied;
mod lemmas;
mod literal;
mod needs;
mod pay;
mod profile;
mod reason;
mod time_table;
mod tours;
mod trail;
mod windows;

pub use cliques::{Cliques, Seats};
pub use edges::{Arc, Edges, Order};
pub use energy::{Energy, part};
pub use lemmas::Lemmas;
pub use literal::{Literal, NEVER};
pub use profile::{Interval, NO_PART, Profile};
pub use reason::{Conflict, Reason, Stop};
pub use time_table::TimeTable;
pub use tours::Tours;
pub use trail::{BoundChange, Trail};
