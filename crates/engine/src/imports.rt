//! What other searches have proved.

use crate::state::Engine;
use instance::{Edge, Result, clip, narrow, reverse};
use network::Lag;
use propagation::{Conflict, Literal, NEVER, Reason, Stop};
use std::mem;

/// What another search has proved.
#[derive(Drop)]
pub(crate) enum Import {
    /// A literal always holds.
    Root(Literal),
    /// Not all literals of a nogood hold.
    Lemma {
        number: u32,
        lbd: u32,
        nogood: Vec<Literal>,
    },
}

/// A search looks at imports after so many conflicts, though it does not start again.
const PATIENCE: u64 = 500;

/// The edge of an arc of a record.
pub(crate) fn edge_of(arc: Lag) -> Edge {
    Edge::new(narrow(arc.from), narrow(arc.to), clip(arc.weight))
}

impl Engine<'_> {
    /// The literal of an edge: a bound of a start, or the order of two activities. None if it always holds.
    pub(crate) fn literal_of(&self, edge: Edge) -> Option<Literal> {
        let Edge { from, to, weight } = edge;
        match (from, to) {
            (0, _) => Some(Literal::at_least(to, weight)),
            (_, 0) => Some(!Literal::at_least(from, 1i32.wrapping_sub(weight))),
            _ => self.edges.precedence(from, to),
        }
    }

    /// Whether an edge says no less than the literal that it has.
    pub(crate) fn is_all_of(&self, literal: Literal, edge: Edge) -> bool {
        edge.from == 0 || edge.to == 0 || literal == NEVER || self.log.is_shown_by(literal, edge)
    }

    /// The literals of the arcs of a lemma, but those that always hold. None where one is an order of a class that its
    /// reverse does not show: another search may have other delays.
    fn literals_of(&self, arcs: &[Lag]) -> Result<Option<Vec<Literal>>> {
        let mut literals = Vec::new(self.instance.alloc);
        for arc in arcs {
            let edge = edge_of(*arc);
            if let Some(literal) = self.literal_of(edge) {
                if !self.is_all_of(!literal, reverse(edge)) {
                    return Ok(None);
                }
                literals.push(literal)?;
            }
        }
        Ok(Some(literals))
    }

    /// Takes a lemma of another search, which has this number and is of so many levels: not all of these arcs hold. It is
    /// looked at when the search is at the root next.
    pub fn import(&mut self, number: u32, lbd: u32, arcs: &[Lag]) -> Result<()> {
        self.log.import(number)?;
        let Some(nogood) = self.literals_of(arcs)? else {
            return self.log.forget(number);
        };
        self.imports.push(Import::Lemma {
            number,
            lbd,
            nogood,
        })?;
        Ok(())
    }

    /// Takes a lemma of another search as [`Engine::import`] does. Its literals get weight, as if a conflict had needed them,
    /// and the next reduction of the store comes no earlier.
    pub fn import_heavy(&mut self, number: u32, lbd: u32, arcs: &[Lag]) -> Result<()> {
        self.reduction = self.reduction.saturating_add(1);
        for arc in arcs {
            if let Some(literal) = self.literal_of(edge_of(*arc)) {
                self.choices.bump(literal)?;
            }
        }
        self.import(number, lbd, arcs)
    }

    /// Takes an arc that always holds, as another search has proved. It is looked at when the search is at the root next.
    pub fn hold(&mut self, arc: Lag) -> Result<()> {
        let edge = edge_of(arc);
        match self.literal_of(edge) {
            None | Some(NEVER) => {}
            Some(literal) if !self.is_all_of(literal, edge) => {}
            Some(literal) => self.imports.push(Import::Root(literal))?,
        }
        Ok(())
    }

    /// Whether imports have waited for long.
    pub(crate) fn has_late_imports(&self) -> bool {
        let late = self.looked.saturating_add(PATIENCE);
        !self.imports.is_empty() && self.counts.conflicts >= late
    }

    /// The negations of the literals of a nogood that don't hold yet, at the root. None where one fails, or two can't hold
    /// together: then it says nothing.
    fn open_of(&self, nogood: &[Literal]) -> Result<Option<Vec<Literal>>> {
        let mut open = Vec::new(self.instance.alloc);
        for literal in nogood {
            if self.trail.fails(*literal) {
                return Ok(None);
            }
            if !self.trail.holds(*literal) {
                open.push(!*literal)?;
            }
        }
        let is_idle = open.len() == 2 && open.first().map(|first| !*first) == open.last().copied();
        Ok((!is_idle).then_some(open))
    }

    /// Learns what is left of a lemma of another search. Gives its place.
    fn learn_open(&mut self, mut open: Vec<Literal>, lbd: u32, number: u32) -> Result<u32> {
        for _ in open.len()..2 {
            open.push(NEVER)?;
        }
        self.lemmas.learn(&open, lbd, number)
    }

    /// Looks at a lemma of another search, at the root. Of what is left of it one literal follows, and none is a conflict.
    fn admit(&mut self, number: u32, lbd: u32, nogood: &[Literal]) -> Result<(), Stop> {
        let Some(open) = self.open_of(nogood)? else {
            self.log.forget(number)?;
            return Ok(());
        };
        let (count, first) = (open.len(), open.first().copied().unwrap_or(NEVER));
        let place = self.learn_open(open, lbd, number)?;
        match count {
            0 => Err(Stop::Conflict(Conflict::Lemma { place })),
            1 => self.trail.force(first, Reason::Lemma { place }),
            _ => Ok(()),
        }
    }

    /// Looks at an import, at the root.
    fn admit_one(&mut self, import: &Import) -> Result<(), Stop> {
        match import {
            Import::Root(literal) => self.trail.force(*literal, Reason::Given),
            Import::Lemma {
                number,
                lbd,
                nogood,
            } => self.admit(*number, *lbd, nogood),
        }
    }

    /// Looks at all imports, at the root. The next reduction comes earlier, as if each second one were a conflict.
    pub(crate) fn admit_all(&mut self) -> Result<(), Stop> {
        let imports = mem::replace(&mut self.imports, Vec::new(self.instance.alloc));
        self.reduction = self.reduction.saturating_sub(imports.len() as u64 / 2);
        self.looked = self.counts.conflicts;
        for import in &imports {
            self.admit_one(import)?;
        }
        Ok(())
    }
}
