//! How much of each resource is in use, and which resources are overloaded.
//!
//! The use of a resource at a unit of time is the joint demand of the activities that run then
//! (Bartusch, Möhring and Radermacher 1988). It rises only where an activity starts, so it
//! looks at the start times alone.
#![tactic(auto)]

mod counting;
mod orders;
mod overload;
mod overload_sweep;
mod sweep;
mod times;
mod usage;

pub use orders::{first_order, repair};
pub use overload::Overload;
pub use overload_sweep::{OverloadSweep, first_overload, overloads};
pub use usage::use_at;
