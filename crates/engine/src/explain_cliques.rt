//! Explanations by members of a clique that have to run from one time to another.

use crate::LineReason;
use crate::member_sets::Apart;
use crate::state::Engine;
use instance::{Late, Member, Result};
use propagation::Literal;

/// A member of a clique that others push.
#[derive(Clone, Copy)]
struct Pushed {
    clique: u32,
    place: u32,
    /// Whether those before it push its least start, or those after it its greatest one.
    is_lower: bool,
}

/// The literals by which a member runs from one time to another.
fn within(member: Member, from: i32, to: i32) -> [Literal; 2] {
    let Member {
        activity,
        at,
        length,
    } = member;
    let latest = to.wrapping_sub(at).wrapping_sub(length);
    [
        Literal::at_least(activity, from.wrapping_sub(at)),
        Literal::at_most(activity, latest),
    ]
}

impl Engine<'_> {
    /// The literals by which the member at a place pushes another one: their order, unless it is by lags, and a bound at a
    /// time.
    fn pushes(&self, other: u32, pushed: Pushed, time: i32) -> (Option<Literal>, Literal) {
        let Pushed {
            clique,
            place,
            is_lower,
        } = pushed;
        let (first, second) = if is_lower {
            (other, place)
        } else {
            (place, other)
        };
        let order = self.cliques.precedence(&self.edges, clique, first, second);
        let [least, greatest] = within(self.cliques.member(clique, other), time, time);
        (order, if is_lower { least } else { greatest })
    }

    /// How many members a clique has.
    fn member_count(&self, clique: u32) -> u32 {
        let numbers = self.cliques.members.numbers(clique);
        numbers.end.wrapping_sub(numbers.start)
    }

    /// Lists the places of members that pushed one as of an event. Gives how long they take.
    fn list_pushing(&mut self, pushed: Pushed, time: i32, now: u32) -> Result<i32> {
        let mut sum = 0i32;
        self.marks.causes.items.clear();
        for place in 0..self.member_count(pushed.clique) {
            let (order, bound) = self.pushes(place, pushed, time);
            let order = order.unwrap_or(bound);
            let pushes = self.trail.holds(order) && self.trail.holds(bound);
            if pushes && place != pushed.place {
                let length = self.cliques.member(pushed.clique, place).length;
                let added = self.note_cause(place, length, [order, bound], now)?;
                sum = sum.wrapping_add(added);
            }
        }
        Ok(sum)
    }

    /// Members of a clique that run before or after that of the literal's activity, and push it.
    pub(crate) fn explain_push(
        &mut self,
        literal: Literal,
        clique: u32,
        at: i32,
        now: u32,
    ) -> Result<LineReason> {
        let pushed = Pushed {
            clique,
            place: self.cliques.place_of(clique, literal.variable()),
            is_lower: literal.is_lower(),
        };
        let sum = self.list_pushing(pushed, at, now)?;
        let own = self.cliques.member(clique, pushed.place);
        let bound = literal.value.wrapping_sub(1);
        let (from, to) = match pushed.is_lower {
            true => (at, bound.wrapping_add(own.at)),
            false => (own.at.wrapping_add(own.length).wrapping_sub(bound), at),
        };
        let room = to.wrapping_sub(from).max(0);
        let length = room.wrapping_add(self.marks.keep_enough(sum, room)?);
        let (from, to) = match pushed.is_lower {
            true => (to.wrapping_sub(length).max(0), to),
            false => (from, from.wrapping_add(length)),
        };
        self.find_pushing(pushed, if pushed.is_lower { from } else { to })?;
        self.push_reason(pushed, from, to)
    }

    /// Finds the literals by which the members that are needed push one.
    fn find_pushing(&mut self, pushed: Pushed, time: i32) -> Result<()> {
        self.marks.activities.items.sort_unstable();
        for at in 0..self.marks.activities.count() {
            let (order, bound) = self.pushes(self.marks.activities[at], pushed, time);
            if let Some(order) = order {
                self.marks.found.push(order)?;
            }
            self.marks.found.push(bound)?;
        }
        Ok(())
    }

    /// The members at the places that are needed.
    fn needed_members(&self, clique: u32) -> Result<Vec<Member>> {
        let places = self.marks.activities.items.iter();
        let members = places.map(|place| self.cliques.member(clique, *place));
        members.collect(self.instance.alloc)
    }

    /// The reason of a record's line, by the members that are needed, and the orders by which they push one.
    fn push_reason(&mut self, pushed: Pushed, from: i32, to: i32) -> Result<LineReason> {
        if !self.log.is_kept {
            return Ok(LineReason::Arcs);
        }
        let (members, mut orders) = (
            self.needed_members(pushed.clique)?,
            Vec::new(self.instance.alloc),
        );
        let own = self.cliques.member(pushed.clique, pushed.place);
        for member in &members {
            orders.push(match pushed.is_lower {
                true => Late {
                    first: own,
                    second: *member,
                },
                false => Late {
                    first: *member,
                    second: own,
                },
            })?;
        }
        self.clique_reason(pushed.clique, &members, &orders, None, (from, to))
    }

    /// What the members of a clique are.
    fn kind_of(&self, clique: u32) -> Apart {
        match self.cliques.has_intervals(clique) {
            true => Apart::Intervals,
            false => Apart::Activities,
        }
    }

    /// The reason of a record's line, by members of a clique. One alone pushes by its arc.
    fn clique_reason(
        &mut self,
        clique: u32,
        members: &[Member],
        orders: &[Late],
        shown: Option<Late>,
        (from, to): (i32, i32),
    ) -> Result<LineReason> {
        if members.len() < 2 && !self.log.needs_any(orders) {
            return Ok(LineReason::Arcs);
        }
        let kind = self.kind_of(clique);
        let set = self.log.set(kind, members, orders, shown)?;
        Ok(LineReason::Clique { set, from, to })
    }

    /// Lists the places of members of a clique, but for some, that ran from one time to another as of an event. Gives how
    /// long they take.
    fn list_inside(
        &mut self,
        clique: u32,
        window: (i32, i32),
        but: &[u32],
        now: u32,
    ) -> Result<i32> {
        let mut sum = 0i32;
        self.marks.causes.items.clear();
        for place in 0..self.member_count(clique) {
            let member = self.cliques.member(clique, place);
            let [least, greatest] = within(member, window.0, window.1);
            let is_inside = self.trail.holds(least) && self.trail.holds(greatest);
            if is_inside && !but.contains(&place) {
                let added = self.note_cause(place, member.length, [least, greatest], now)?;
                sum = sum.wrapping_add(added);
            }
        }
        Ok(sum)
    }

    /// Finds the literals by which those that are needed run from one time to another.
    fn find_inside(&mut self, clique: u32, from: i32, to: i32) -> Result<()> {
        self.marks.activities.items.sort_unstable();
        for at in 0..self.marks.activities.count() {
            let member = self.cliques.member(clique, self.marks.activities[at]);
            self.marks.find(within(member, from, to))?;
        }
        Ok(())
    }

    /// Members of a clique that have to run from one time to another, and need more time.
    pub(crate) fn explain_clique(&mut self, clique: u32, from: i32, to: i32) -> Result<LineReason> {
        let sum = self.list_inside(clique, (from, to), &[], u32::MAX)?;
        let spare = self.marks.keep_enough(sum, to.wrapping_sub(from))?;
        let from = from.wrapping_sub(spare).max(0);
        self.find_inside(clique, from, to)?;
        let members = self.needed_members(clique)?;
        self.clique_reason(clique, &members, &[], None, (from, to))
    }

    /// Lists the places of members of a clique that ran from one time to another as of an event, beside two of which the
    /// order of a literal says that the first runs before the second: the two for which it follows. Gives their places, how
    /// long the others take and how much room there is for these.
    fn list_beside(
        &mut self,
        order: Literal,
        clique: u32,
        window: (i32, i32),
        now: u32,
    ) -> Result<([u32; 2], i32, i32)> {
        let mut found = ([0, 0], 0, 0);
        for number in 0..self.cliques.ordered_by(order.slot).len() {
            let Some(seats) = self.cliques.ordered_by(order.slot).get(number).copied() else {
                break;
            };
            if seats.clique != clique {
                continue;
            }
            let places = [seats.one, seats.other];
            let sum = self.list_inside(clique, window, &places, now)?;
            let room = self.room_beside(clique, window, places);
            found = (places, sum, room);
            if sum > room && self.was_late(clique, window, places, now) {
                break;
            }
        }
        Ok(found)
    }

    /// How much room two members leave from one time to another.
    fn room_beside(&self, clique: u32, (from, to): (i32, i32), places: [u32; 2]) -> i32 {
        let [first, second] = places.map(|place: u32| self.cliques.member(clique, place).length);
        to.wrapping_sub(from)
            .wrapping_sub(first)
            .wrapping_sub(second)
    }

    /// The literals by which two members run from one time to another if the second runs first.
    fn late_within(&self, clique: u32, (from, to): (i32, i32), places: [u32; 2]) -> [Literal; 2] {
        let [first, second] = places.map(|place: u32| self.cliques.member(clique, place));
        [within(second, from, to)[0], within(first, from, to)[1]]
    }

    /// Whether two members ran from one time to another as of an event, if the second ran first.
    fn was_late(&self, clique: u32, window: (i32, i32), places: [u32; 2], now: u32) -> bool {
        let literals = self.late_within(clique, window, places);
        literals.iter().all(|literal: &Literal| {
            self.trail.holds(*literal) && self.trail.event_of(*literal) < now
        })
    }

    /// Members of a clique that would have to run from one time to another, and need more time, if the order of two were
    /// the other one: the second does not start before, and the first ends by then.
    pub(crate) fn explain_edge(
        &mut self,
        order: Literal,
        clique: u32,
        (from, to): (i32, i32),
        now: u32,
    ) -> Result<LineReason> {
        let (places, sum, room) = self.list_beside(order, clique, (from, to), now)?;
        let spare = self.marks.keep_enough(sum, room)?;
        let from = from.wrapping_sub(spare).max(0);
        self.find_inside(clique, from, to)?;
        let late = self.late_within(clique, (from, to), places);
        self.marks.find(late)?;
        for place in places {
            self.marks.activities.push(place)?;
        }
        self.marks.activities.items.sort_unstable();
        let [first, second] = places.map(|place: u32| self.cliques.member(clique, place));
        let members = self.needed_members(clique)?;
        let shown = Some(Late { first, second });
        self.clique_reason(clique, &members, &[], shown, (from, to))
    }

    /// Of three places of a clique the first runs before the one between, and this one before the second.
    pub(crate) fn explain_through(
        &mut self,
        order: Literal,
        clique: u32,
        places: [u32; 3],
    ) -> Result<LineReason> {
        let [first, via, second] = places;
        for (one, other) in [(first, via), (via, second)] {
            if let Some(literal) = self.cliques.precedence(&self.edges, clique, one, other) {
                self.marks.found.push(literal)?;
            }
        }
        let [first, via, second] = places.map(|place: u32| self.cliques.member(clique, place));
        let orders = [
            Late {
                first: via,
                second: first,
            },
            Late {
                first: second,
                second: via,
            },
        ];
        if !self.log.is_delayed(order) && !self.log.needs_any(&orders) {
            return Ok(LineReason::Arcs);
        }
        let (kind, shown) = (self.kind_of(clique), Some(Late { first, second }));
        let set = self.log.set(kind, &[], &orders, shown)?;
        Ok(LineReason::Clique {
            set,
            from: 0,
            to: 0,
        })
    }
}
