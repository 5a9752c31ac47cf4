//! Paths: first decisions that arcs say, and the lemma of those that are at fault.

use crate::Inference;
use crate::imports::edge_of;
use crate::state::Engine;
use instance::{Edge, Result, narrow};
use network::Lag;
use propagation::{Conflict, Literal, NEVER, Reason};

/// What the arcs of a path are to a search.
#[derive(Drop)]
pub enum Path {
    /// These are its decisions, of which no two contradict each other.
    Decisions(Vec<Literal>),
    /// Two arcs contradict each other, or one of them what always holds, or there is no schedule at all.
    Refuted,
    /// The arc at this place is neither a bound of a start nor an order of rivals.
    Other(usize),
}

/// What an arc is to a search.
#[derive(Clone, Copy)]
enum Side {
    Holds,
    Fails,
    Decision(Literal),
    Other,
}

/// Whether a literal can't hold together with one of a list, whatever else does.
fn contradicts(literal: Literal, others: &[Literal]) -> bool {
    for other in others {
        if other.slot == literal.slot ^ 1 && other.value.wrapping_add(literal.value) > 0 {
            return true;
        }
    }
    false
}

impl Engine<'_> {
    /// What an arc is to this search. One between activities is to say no less than that the second does not end before
    /// the first one starts.
    fn side(&self, arc: Lag) -> Side {
        let (edge, count) = (edge_of(arc), self.instance.count());
        let Edge { from, to, weight } = edge;
        let is_wide = i32::try_from(arc.weight).is_err();
        if is_wide || from >= count || to >= count || from == to {
            return Side::Other;
        }
        let is_between = from != 0 && to != 0;
        let is_weak = weight <= self.instance.durations[to].wrapping_neg();
        match self.literal_of(edge) {
            Some(literal) if literal != NEVER => match self.is_all_of(literal, edge) {
                true => Side::Decision(literal),
                false => Side::Other,
            },
            _ if is_between && is_weak => Side::Other,
            None => Side::Holds,
            _ if self.edges.precedence(to, from).is_none() => Side::Fails,
            _ => Side::Other,
        }
    }

    /// The first decisions of a path.
    pub fn path(&self, arcs: &[Lag]) -> Result<Path> {
        if self.is_refuted {
            return Ok(Path::Refuted);
        }
        let mut decisions = Vec::new(self.instance.alloc);
        for (place, arc) in arcs.iter().enumerate() {
            match self.side(*arc) {
                Side::Holds => {}
                Side::Other => return Ok(Path::Other(place)),
                Side::Decision(literal) if !contradicts(literal, &decisions) => {
                    decisions.push(literal)?;
                }
                Side::Decision(_) | Side::Fails => return Ok(Path::Refuted),
            }
        }
        Ok(Path::Decisions(decisions))
    }

    /// The decisions of the first level are at fault: tells the lemma of those that a conflict needs.
    pub(crate) fn blame_first(&mut self, conflict: Conflict) -> Result<()> {
        self.marks.begin(self.trail.count())?;
        let reason = self.explain_conflict(conflict)?;
        self.note_found(1)?;
        for event in (0..self.trail.count()).rev() {
            if !self.marks.is_needed(event) {
                continue;
            }
            let (literal, reason) = (self.needed(event), self.trail.event(event).reason);
            if reason == Reason::Decision {
                self.marks.nogood.push(literal)?;
                continue;
            }
            let reason = self.explain(literal, reason, event)?;
            self.marks.replace(event, Inference { literal, reason })?;
            self.note_found(1)?;
        }
        self.marks.end(reason)?;
        self.marks.keep_greatest(NEVER);
        let (nogood, replaced) = (&self.marks.nogood, &self.marks.replaced);
        self.log.lemma(nogood, narrow(nogood.len()), replaced)?;
        Ok(())
    }
}
