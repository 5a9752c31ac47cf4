//! What a log says, event after event.

use lemma_proof::{Lags, Line};
use network::Verdict;
use record_text::{Listed, Starts};

/// The lines of a lemma's proof, in order.
pub type Lines = Listed<Line>;

/// What happens to the lemmas that are in slots, to the shortest schedule that is known, or to the log.
#[derive(Drop, Debug)]
pub enum Event {
    /// A lemma, in a slot that is empty; one of fewer than two arcs goes into the root, and has no slot: 0 is written.
    Lemma {
        slot: usize,
        arcs: Lags,
        lines: Lines,
    },
    /// The lemma of a slot goes.
    Drop {
        slot: usize,
    },
    /// A shorter schedule: its starts by activity.
    Schedule {
        starts: Starts,
    },
    /// What is proved, and the end of the log: the makespan of the shortest schedule that the log has, a bound of every
    /// feasible schedule, or that there is none.
    Claim(Verdict),
}
