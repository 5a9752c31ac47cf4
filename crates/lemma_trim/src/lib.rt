//! A log of lemmas without those that its claim doesn't rest on.
//!
//! A [`Trimmer`] is fed a log piece by piece, and checks it as it comes. Of a right log it gives a [`Trimmed`] one of the same
//! claim: the lemmas that went into the root, those that lines of these use or whose delays their tours need, and so on
//! backward; each in the least slot that is free, until it is used last. The last schedule comes first, since fewer schedules are in question below its makespan, so
//! what was shown before is shown all the more. Nothing is proved of that: whoever wants to know checks the trimmed log.
#![tactic(auto)]

mod lines;
mod slots;
mod store;
mod trimmed;
mod trimmer;

pub use trimmed::Trimmed;
pub use trimmer::Trimmer;
