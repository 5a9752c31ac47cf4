//! Sets of members that run one at a time, as lines of a record name them.

use instance::{Late, Member, Result, Rows, Table};
use lemma_proof::{Interval, Intervals, WindowOverload};
use record_text::Members;
use std::alloc::Global;

/// What members run one at a time.
#[derive(Clone, Copy, PartialEq, Eq, Debug)]
pub(crate) enum Apart {
    /// Activities, of which each two are rivals or in an order.
    Activities,
    /// Intervals of groups, of which each two have delays.
    Intervals,
}

/// Sets of members, by numbers from 0 on.
#[derive(Drop)]
pub(crate) struct MemberSets {
    alloc: Global,
    kinds: Table<Apart>,
    members: Rows<Member>,
    /// The lemmas that each needs before.
    uses: Rows<u32>,
    /// The two members of which each shows an order.
    shown: Table<Option<Late>>,
}

impl MemberSets {
    /// No sets.
    pub(crate) fn new(alloc: Global) -> MemberSets {
        MemberSets {
            alloc,
            kinds: Table::new(alloc, Apart::Activities),
            members: Rows::new(alloc, Member::default()),
            uses: Rows::new(alloc, 0),
            shown: Table::new(alloc, None),
        }
    }

    /// One more set. Gives its number.
    pub(crate) fn push(
        &mut self,
        kind: Apart,
        members: &[Member],
        uses: &[u32],
        shown: Option<Late>,
    ) -> Result<u32> {
        self.kinds.push(kind)?;
        self.members.push_row(members)?;
        self.uses.push_row(uses)?;
        self.shown.push(shown)?;
        Ok(self.kinds.count().wrapping_sub(1))
    }

    /// The lemmas that a set needs before.
    pub(crate) fn uses(&self, set: u32) -> &[u32] {
        self.uses.row(set)
    }

    /// How many members a set has.
    pub(crate) fn len(&self, set: u32) -> usize {
        self.members.row(set).len()
    }

    /// The two members of which a set shows that the second does not end before the first begins.
    pub(crate) fn shown(&self, set: u32) -> Option<Late> {
        self.shown[set]
    }

    /// That a set has too little time from one time to another.
    pub(crate) fn overload(&self, set: u32, from: i32, to: i32) -> Result<WindowOverload> {
        let (from, to) = (i64::from(from), i64::from(to));
        Ok(match self.kinds[set] {
            Apart::Activities => WindowOverload::Clique {
                from,
                to,
                members: self.activities(set)?,
            },
            Apart::Intervals => WindowOverload::Tour {
                from,
                to,
                intervals: self.intervals(set)?,
            },
        })
    }

    /// The activities of a set.
    fn activities(&self, set: u32) -> Result<Members> {
        let mut activities = Vec::new(self.alloc);
        for member in self.members.row(set) {
            activities.push(member.activity as usize)?;
        }
        Ok(Members::new(activities))
    }

    /// The intervals of a set.
    fn intervals(&self, set: u32) -> Result<Intervals> {
        let mut intervals = Vec::new(self.alloc);
        for member in self.members.row(set) {
            intervals.push(Interval {
                activity: member.activity as usize,
                at: i64::from(member.at),
                length: member.length.max(0) as u64,
            })?;
        }
        Ok(Intervals::new(intervals))
    }
}
