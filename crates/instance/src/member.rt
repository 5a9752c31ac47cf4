//! Members of what runs one at a time.

use crate::numbers::{Edge, Instance};

/// What runs of an activity, or about it: from `at` periods after its start on, for `length` periods.
#[derive(Clone, Copy, PartialEq, Eq, Hash, Debug, Default)]
pub struct Member {
    pub activity: u32,
    pub at: i32,
    pub length: i32,
}

impl Member {
    /// An activity itself.
    pub fn of(instance: &Instance, activity: u32) -> Member {
        Member {
            activity,
            at: 0,
            length: instance.durations[activity],
        }
    }
}

/// Two members, of which the second does not end before the first begins.
#[derive(Clone, Copy, PartialEq, Eq, Hash, Debug)]
pub struct Late {
    pub first: Member,
    pub second: Member,
}

impl Late {
    /// The edge that says so.
    pub fn edge(self) -> Edge {
        let Late { first, second } = self;
        let end = second.at.wrapping_add(second.length);
        let weight = first.at.wrapping_sub(end).wrapping_add(1);
        Edge::new(first.activity, second.activity, weight)
    }
}
