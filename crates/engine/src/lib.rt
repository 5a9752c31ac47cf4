//! A search for schedules by lazy clause generation (Ohrimenko, Stuckey and Codish 2009; Schutt, Feydy, Stuckey and
//! Wallace 2013), on literals that bound starts and order rivals.
//!
//! A strategy is a list of first decisions. All lemmas are true of the project under the ceiling, whatever was decided
//! first. Nothing here needs to be trusted: whoever takes a schedule or a proof has it checked.
#![tactic(auto)]

mod analysis;
mod choices;
mod explain;
mod explain_cliques;
mod explain_energy;
mod explain_tours;
mod heap;
mod imports;
mod log;
mod marks;
mod member_sets;
mod paths;
mod search;
mod split;
mod state;

pub use log::{Inference, LineReason, Log, LoggedEvent, OWN, Slots};
pub use paths::Path;
pub use search::{Pace, Subsearch, SubsearchState};
pub use split::Piece;
pub use state::{Engine, Options, SearchCounts};
