//! Whether lines refute the arcs of a lemma.

ghost use Rattle.std.specs.Prelude.{◌≡◌, ◌↔◌, List, length, IsTrue, IfOk, OnOk, MatchOption};
ghost use Rattle.std.specs.List.{All};
ghost use Rattle.network.specs.declared.parts.Lag.{Lag};
ghost use Rattle.network.specs.Problem.{activity_count};
ghost use Rattle.network.specs.Walk.{IsMatrixOf};
ghost use Rattle.lemma_proof.specs.Stepping.{noted};
ghost use Rattle.lemma_proof.specs.Lines.{AreLemmas, IsArc, IsRefuted, picked};

use crate::bench::Bench;
use crate::line::Line;
use crate::overload::is_arc;
use crate::slots::LemmaSlots;
use network::{Lag, Project};
use std::alloc::{AllocError, Global};

/// Whether each of these is an arc between activities, with a weight within the limits.
pub fn are_arcs(project: &Project, arcs: &[Lag]) -> bool
    ensures { IsTrue result ↔ All (IsArc project.now) arcs.now }
{
    for arc in arcs {
        if !is_arc(project, *arc) {
            return false;
        }
    }
    true
}

/// Adds a place, if it is to be.
fn note(places: &mut Vec<usize>, place: usize, is_new: bool) -> Result<(), AllocError>
    ensures { OnOk result (places.new.items ≡ noted places.old.items place is_new) }
{
    if is_new {
        places.push(place)?;
    }
    Ok(())
}

impl Bench {
    /// The places of the lines that show something new, if the lines refute these arcs beside the root's.
    pub fn refute(
        &mut self,
        alloc: Global,
        project: &Project,
        lemmas: &LemmaSlots,
        arcs: &[Lag],
        lines: &[Line],
    ) -> Result<Option<Vec<usize>>, AllocError>
        requires size { length self.old.rows ≡ activity_count project.now }
        requires lemmas { AreLemmas project.now lemmas.now }
        ensures rows { self.new.rows ≡ self.old.rows }
        ensures refuted { IfOk result (λ found. (own : List Lag) → IsMatrixOf (length self.old.rows) own self.old.rows →
            MatchOption found (¬ IsRefuted project.now lemmas.now own arcs.now lines.now)
            (λ used. IsRefuted project.now lemmas.now own arcs.now lines.now
            × IsRefuted project.now lemmas.now own arcs.now (picked lines.now used.items))) }
    {
        if !are_arcs(project, arcs) {
            return Ok(None);
        }
        self.suppose(arcs)?;
        let mut used = Vec::new(alloc);
        for (place, line) in lines.iter().enumerate() {
            if self.is_infeasible() {
                return Ok(Some(used));
            }
            let Some(is_new) = self.step(project, lemmas, line)? else {
                return Ok(None);
            };
            note(&mut used, place, is_new)?;
        }
        if self.is_infeasible() {
            return Ok(Some(used));
        }
        Ok(None)
    }
}
