//! The lines of a lemma's proof.

use network::{Lag, Pair};
use record_text::{Listed, Members};

/// The greatest length of an interval, in periods: no horizon is longer.
pub const MAX_LENGTH: u64 = 1_002_000_000;

/// Of each schedule the periods from `at` after the activity starts on, `length` of them.
#[derive(Clone, Copy, PartialEq, Eq, Debug)]
pub struct Interval {
    pub activity: usize,
    pub at: i64,
    pub length: u64,
}

/// Intervals of activities that rise.
pub type Intervals = Listed<Interval>;

/// More than there is room for in the window from the period `from` to the period `to`.
#[derive(Drop, Debug)]
pub enum WindowOverload {
    /// What must run in the window asks for more of the resource than there is.
    Load {
        resource: usize,
        from: i64,
        to: i64,
    },
    /// The members run one at a time, all within the window, and take longer than it is.
    Clique {
        from: i64,
        to: i64,
        members: Members,
    },
    /// The intervals lie one after another, all within the window, and are longer together than it is.
    Tour {
        from: i64,
        to: i64,
        intervals: Intervals,
    },
}

/// A line, which shows one arc more of each schedule that meets the arcs so far.
#[derive(Drop, Debug)]
pub enum Line {
    /// Two that can't run at the same time, of which the second can't come first: it starts once the first has ended.
    Force(Pair),
    /// The lemma of this slot, of which all arcs are implied but one at most: that one's reverse.
    Use(usize),
    /// There is an overload, so no schedule is left; or, with an arc, there is one under the arc's reverse: the arc.
    Push {
        arc: Option<Lag>,
        over: WindowOverload,
    },
}
