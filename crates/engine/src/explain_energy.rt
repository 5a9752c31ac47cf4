//! Explanations of energy: the parts that activities must run from one time to another, of which no more are kept than
//! are needed (as Schutt, Feydy, Stuckey and Wallace 2011 do for other rules). What came last goes first: a bound
//! falls to what it was before, where the rest is enough, and at the end as far as the rest allows.

use crate::LineReason;
use crate::state::Engine;
use instance::Result;
use propagation::{Literal, part};

/// From one time to another a resource is not enough.
#[derive(Clone, Copy)]
pub(crate) struct Overload {
    pub(crate) resource: u32,
    pub(crate) from: i32,
    pub(crate) to: i32,
}

/// How long an activity must run there, by these bounds of its start.
#[derive(Clone, Copy, Default)]
pub(crate) struct Part {
    activity: u32,
    least: i32,
    greatest: i32,
    length: i32,
}

impl Engine<'_> {
    /// Finds the literals by which activities need more than there is, as of an event; or by which they would if the
    /// literal that is shown did not hold. A conflict shows none, `NEVER`.
    pub(crate) fn explain_energy(
        &mut self,
        shown: Literal,
        overload: Overload,
        now: u32,
    ) -> Result<LineReason> {
        let spare = self.list_parts(shown, overload, now)?;
        let spare = self.weaken_parts(overload, spare)?;
        self.find_parts(overload, spare)?;
        let Overload { resource, from, to } = overload;
        Ok(LineReason::Load { resource, from, to })
    }

    /// How long an activity must run, as of an event, if a literal of its own does not hold.
    fn part_of(&self, activity: u32, shown: Literal, overload: Overload, now: u32) -> Part {
        let slot = activity.wrapping_mul(2);
        let mut least = self.trail.value_at(slot, now);
        let mut greatest = self.trail.value_at(slot | 1, now).wrapping_neg();
        if shown.variable() == activity {
            if shown.is_lower() {
                greatest = greatest.min(shown.value.wrapping_sub(1));
            } else {
                least = least.max(1i32.wrapping_sub(shown.value));
            }
        }
        let Overload { from, to, .. } = overload;
        let duration = self.instance.durations[activity];
        Part {
            activity,
            least,
            greatest,
            length: part(least, greatest, duration, from, to),
        }
    }

    /// How much of the resource so many periods of an activity take.
    fn amount(&self, overload: Overload, activity: u32, length: i32) -> i64 {
        let demand = self.instance.demand(activity, overload.resource);
        i64::from(length).wrapping_mul(i64::from(demand))
    }

    /// Lists the parts of activities, and what came last of each. Of its own activity a literal that is shown needs the
    /// other bound alone. Gives how much may go so that the rest is still too much.
    fn list_parts(&mut self, shown: Literal, overload: Overload, now: u32) -> Result<i64> {
        let Overload { resource, from, to } = overload;
        let capacity = i64::from(self.instance.capacities[resource]);
        let room = capacity.wrapping_mul(i64::from(to.wrapping_sub(from)));
        let mut spare = room.wrapping_neg().wrapping_sub(1);
        self.marks.parts.items.clear();
        self.marks.latest.clear();
        for at in self.energy.users.numbers(resource) {
            let user = self.energy.users.values[at];
            let found = self.part_of(user, shown, overload, now);
            if found.length <= 0 {
                continue;
            }
            spare = spare.wrapping_add(self.amount(overload, user, found.length));
            if shown.variable() == user {
                let [least, greatest] = self.inside(user, found.length, from, to);
                let other = if shown.is_lower() { least } else { greatest };
                self.marks.found.push(other)?;
            } else {
                let place = self.marks.parts.count();
                self.note_latest(overload, found, place, u32::MAX)?;
                self.marks.parts.push(found)?;
            }
        }
        Ok(spare)
    }

    /// The last event before one that a part needs, but for what always holds or the nogood has already, and its slot.
    /// Event 0 if there is none.
    fn latest(&self, overload: Overload, part: Part, before: u32) -> (u32, u32) {
        let mut latest = (0, 0);
        let Overload { from, to, .. } = overload;
        if part.length > 0 {
            for literal in self.inside(part.activity, part.length, from, to) {
                let event = self.trail.event_of(literal);
                let is_known = event < self.trail.root_end()
                    || self.marks.need[event] >= literal.value;
                if !is_known && event < before && event > latest.0 {
                    latest = (event, literal.slot);
                }
            }
        }
        latest
    }

    /// Notes that event, with the place of the part.
    fn note_latest(
        &mut self,
        overload: Overload,
        part: Part,
        place: u32,
        before: u32,
    ) -> Result<()> {
        let (event, slot) = self.latest(overload, part, before);
        if event > 0 {
            self.marks.latest.push((event, slot, place))?;
        }
        Ok(())
    }

    /// Goes back over the events that parts need. Where the rest is enough, the bound is what it was before. Gives how
    /// much may still go.
    fn weaken_parts(&mut self, overload: Overload, spare: i64) -> Result<i64> {
        let mut spare = spare;
        for _ in 0..u64::MAX {
            let Some((event, slot, place)) = self.marks.latest.pop() else {
                break;
            };
            let whole = self.marks.parts[place];
            let less = self.part_before(overload, whole, event, slot);
            let lost = whole.length.wrapping_sub(less.length);
            let cost = self.amount(overload, whole.activity, lost);
            if cost <= spare {
                spare = spare.wrapping_sub(cost);
                self.marks.parts[place] = less;
                self.note_latest(overload, less, place, u32::MAX)?;
            } else {
                self.note_latest(overload, whole, place, event)?;
            }
        }
        Ok(spare)
    }

    /// A part without the last event of a slot.
    fn part_before(&self, overload: Overload, whole: Part, event: u32, slot: u32) -> Part {
        let Overload { from, to, .. } = overload;
        let (mut less, old) = (whole, self.trail.event(event).old);
        if slot % 2 == 0 {
            less.least = old;
        } else {
            less.greatest = old.wrapping_neg();
        }
        let duration = self.instance.durations[whole.activity];
        less.length = part(less.least, less.greatest, duration, from, to);
        less
    }

    /// How many periods of a part may go, of so much that may.
    fn most_lost(&self, overload: Overload, part: Part, spare: i64) -> i32 {
        let demand = self.instance.demand(part.activity, overload.resource);
        let periods = spare / i64::from(demand.max(1));
        periods.clamp(0, i64::from(part.length.max(0))) as i32
    }

    /// Finds the literals of the parts that are left, of which so much may still go.
    fn find_parts(&mut self, overload: Overload, spare: i64) -> Result<()> {
        let mut spare = spare;
        for place in 0..self.marks.parts.count() {
            let whole = self.marks.parts[place];
            let mut length = whole.length;
            if self.latest(overload, whole, u32::MAX).0 > 0 {
                let lost = self.most_lost(overload, whole, spare);
                spare = spare.wrapping_sub(self.amount(overload, whole.activity, lost));
                length = length.wrapping_sub(lost);
            }
            if length > 0 {
                let Overload { from, to, .. } = overload;
                let literals = self.inside(whole.activity, length, from, to);
                self.marks.find(literals)?;
            }
        }
        Ok(())
    }
}
