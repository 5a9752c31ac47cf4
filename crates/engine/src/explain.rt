//! Explanations: the literals that made a literal hold, or a conflict. They are found when an analysis asks, for the
//! value that it needs, and put behind those in `marks.found`.

use crate::LineReason;
use crate::explain_energy::Overload;
use crate::state::Engine;
use instance::Result;
use propagation::{Conflict, Literal, NEVER, Reason};

impl Engine<'_> {
    /// The literals that make an activity run for `part` periods from one time to another at least.
    pub(crate) fn inside(&self, activity: u32, part: i32, from: i32, to: i32) -> [Literal; 2] {
        let rest = part.wrapping_sub(self.instance.durations[activity]);
        [
            Literal::at_least(activity, from.wrapping_add(rest)),
            Literal::at_most(activity, to.wrapping_sub(part)),
        ]
    }

    /// An activity is among the causes, with an amount, if its literals held before `now`. Gives the amount.
    pub(crate) fn note_cause(
        &mut self,
        activity: u32,
        amount: i32,
        literals: [Literal; 2],
        now: u32,
    ) -> Result<i32> {
        let [first, second] = literals;
        let last = self.trail.event_of(first).max(self.trail.event_of(second));
        if last >= now {
            return Ok(0);
        }
        let is_root = last < self.trail.root_end();
        let event = if is_root { 0 } else { last };
        self.marks.causes.push((event, amount, activity))?;
        Ok(amount)
    }

    /// Finds the literals that made a conflict. Gives the reason of the record's line.
    pub(crate) fn explain_conflict(&mut self, conflict: Conflict) -> Result<LineReason> {
        let now = self.trail.count();
        match conflict {
            Conflict::Forced { literal, reason } => {
                // As little as contradicts the bound that is there.
                let least = 1i32.wrapping_sub(self.trail.values()[literal.slot ^ 1]);
                let literal = Literal::new(literal.slot, literal.value.min(least));
                self.marks.found.push(!literal)?;
                self.explain(literal, reason, now)
            }
            Conflict::Overload { resource, time } => self.explain_full(NEVER, resource, time, now),
            Conflict::Energy { resource, from, to } => {
                self.explain_energy(NEVER, Overload { resource, from, to }, now)
            }
            Conflict::Clique { clique, from, to } => self.explain_clique(clique, from, to),
            Conflict::Tour => self.explain_tour(),
            Conflict::Lemma { place } => {
                self.lemmas.touch(place);
                self.explain_lemma(place, 0)
            }
        }
    }

    /// The literals of a lemma from one on are false.
    fn explain_lemma(&mut self, place: u32, first: usize) -> Result<LineReason> {
        self.marks.find_false(self.lemmas.literals(place), first)?;
        let lemma = self.lemmas.number(place);
        Ok(LineReason::Use { lemma })
    }

    /// Finds the literals from which one followed for a reason, as of an event.
    pub(crate) fn explain(
        &mut self,
        literal: Literal,
        why: Reason,
        now: u32,
    ) -> Result<LineReason> {
        match why {
            Reason::Decision | Reason::Given => Ok(LineReason::Arcs),
            Reason::Lemma { place } => self.explain_lemma(place, 1),
            Reason::Arc { arc } => {
                let arc = self.edges.arcs.values[arc];
                let value = literal.value.wrapping_sub(arc.weight);
                self.marks.found.push(Literal::new(arc.from, value))?;
                Ok(LineReason::Arcs)
            }
            Reason::Order { order } => self.explain_order(literal, order),
            Reason::Lost { order } => self.explain_lost(order, now),
            Reason::Implied { slot } => {
                self.marks.found.push(Literal::order(slot))?;
                Ok(LineReason::Force)
            }
            Reason::Through {
                clique,
                first,
                via,
                second,
            } => self.explain_through(literal, clique, [first, via, second]),
            Reason::Edge { clique, from, to } => {
                self.explain_edge(literal, clique, (from, to), now)
            }
            Reason::Pushed { clique, time } => self.explain_push(literal, clique, time, now),
            Reason::Full { resource, time } => self.explain_full(literal, resource, time, now),
            Reason::Energy { resource, from, to } => {
                self.explain_energy(literal, Overload { resource, from, to }, now)
            }
        }
    }

    /// The reason of a record's line, by an order's edge: the first one of a side holds where that does, a further one by a
    /// lemma.
    fn order_reason(&self, order: u32, first: LineReason) -> LineReason {
        match self.log.further(self.edges.edge_of[order]) {
            Some(lemma) => LineReason::Use { lemma },
            None => first,
        }
    }

    /// The order, and the bound from which it leads.
    fn explain_order(&mut self, literal: Literal, number: u32) -> Result<LineReason> {
        let order = self.edges.orders.values[number];
        let value = literal.value.wrapping_sub(order.arc.weight);
        self.marks
            .find([order.literal, Literal::new(order.arc.from, value)])?;
        Ok(self.order_reason(number, LineReason::Arcs))
    }

    /// The bound from which an order leads and the one that it would pass: of the first only as much as contradicts.
    fn explain_lost(&mut self, order: u32, now: u32) -> Result<LineReason> {
        let arc = self.edges.orders.values[order].arc;
        let slot = arc.to ^ 1;
        let passed = self.trail.value_at(slot, now);
        let value = 1i32.wrapping_sub(arc.weight).wrapping_sub(passed);
        self.marks.find([Literal::new(slot, passed), Literal::new(arc.from, value)])?;
        Ok(self.order_reason(order, LineReason::Force))
    }

    /// Lists users of a resource that ran at a time for sure, as of an event, but the activity of a literal. Gives what they
    /// need.
    fn list_running(&mut self, own: Literal, resource: u32, time: i32, now: u32) -> Result<i32> {
        let mut sum = 0i32;
        self.marks.causes.items.clear();
        let running = &mut self.marks.activities.items;
        self.table.list_running(resource, time, running)?;
        for at in 0..self.marks.activities.count() {
            let activity = self.marks.activities[at];
            let demand = self.instance.demand(activity, resource);
            if own.variable() != activity {
                let literals = self.inside(activity, 1, time, time.wrapping_add(1));
                let less = self.note_cause(activity, demand.wrapping_neg(), literals, now)?;
                sum = sum.wrapping_sub(less);
            }
        }
        Ok(sum)
    }

    /// Users of a resource that ran at a time for sure, as of an event, leave no room for the activity of a literal, which
    /// would run then; or they need too much themselves.
    fn explain_full(
        &mut self,
        own: Literal,
        resource: u32,
        time: i32,
        now: u32,
    ) -> Result<LineReason> {
        let (from, to) = (time, time.wrapping_add(1));
        if own != NEVER {
            let [least, greatest] = self.inside(own.variable(), 1, from, to);
            self.marks
                .found
                .push(if own.is_lower() { least } else { greatest })?;
        }
        let sum = self.list_running(own, resource, time, now)?;
        let demand = self.instance.demand(own.variable(), resource);
        let room = self.instance.capacities[resource].wrapping_sub(demand);
        self.marks.keep_enough(sum, room)?;
        for at in 0..self.marks.activities.count() {
            let activity = self.marks.activities[at];
            let literals = self.inside(activity, 1, from, to);
            self.marks.find(literals)?;
        }
        Ok(LineReason::Load { resource, from, to })
    }
}
