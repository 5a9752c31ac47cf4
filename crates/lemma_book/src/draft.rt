//! What is said to be proved of a project, and what changes it.

ghost use Rattle.std.specs.Prelude.{◌≡◌, ◌↔◌, pos, Some, List, None, IsTrue, IfOk, OnOk, OnErr, MatchOption};
ghost use Rattle.std.specs.List.{All};
ghost use Rattle.network.specs.Problem.{IsBetween, IsWithin, Problem};
ghost use Rattle.lemma_book.specs.declared.deadline.TheConstants.{MAX_CEILING};
ghost use Rattle.network.specs.declared.limits.TheConstants.{MAX_WALK_WEIGHT};
ghost use Rattle.network.specs.Schedule.{IsFeasible, IsLowerBound, makespan};
ghost use Rattle.lemma_proof.specs.Lines.{IsArc, IsRefuted, picked};
ghost use Rattle.lemma_book.specs.Ledger.{Claims, IsBoundOf, IsSmall, IsSound, Leads, LetsGo, MayKeep, MayLead, MayTake, ceiling_of, first_ledger, own_of, root_of, with_lemma};
ghost use Rattle.lemma_book.specs.Premises.{premises_in};

use crate::deadline::{MAX_CEILING, deadline};
use crate::leading::{are_starts, is_feasible};
use crate::premises::Premises;
use lemma_proof::{IMPOSSIBLE, Lags, Line, are_arcs, reverse_of};
use network::{Lag, Project, Verdict, horizon_of};
use record_text::Starts;
use std::alloc::{AllocError, Global};
use std::marker::Model;

/// The best schedule, arcs of the root, and lemmas. Nothing is said of whether they are true of the project: those of a
/// [`Ledger`](crate::Ledger) are.
#[derive(Drop)]
pub struct Draft<'a> {
    alloc: Global,
    /// The root's arcs and the lemmas.
    premises: Premises<'a>,
    /// The starts of the best schedule.
    best: Option<Starts>,
}

/// The last of these starts, that of the end; 0 if there are none.
fn last_of(starts: &[i64]) -> i64
    ensures { result ≡ makespan starts.now }
{
    starts.last().copied().unwrap_or(0)
}

/// The arc that a lemma of fewer than two arcs makes one of the root's.
fn root_arc(arcs: &[Lag]) -> Option<Lag>
    requires { (p : Problem) × All (IsArc p) arcs.now }
    ensures { result ≡ root_of arcs.now }
{
    match arcs {
        [] => Some(IMPOSSIBLE),
        [arc] => Some(reverse_of(*arc)),
        _ => None,
    }
}

impl<'a> Model for Draft<'a> {
    ghost use Rattle.lemma_book.specs.Ledger.{IsDraft, LedgerOf};
    ghost use Rattle.lemma_book.specs.Premises.{ledger_of};

    ghost Value = { LedgerOf };

    ghost view = { λ s. ledger_of s.premises s.best };

    ghost invariant = { λ s. IsDraft (ledger_of s.premises s.best) };
}

impl<'a> Draft<'a> {
    /// That of a ledger of which nothing is proved.
    pub fn new(alloc: Global, project: &'a Project) -> Result<Draft<'a>, AllocError>
        ensures { IfOk result (λ x. x ≡ first_ledger project.now) }
    {
        prove!(horizon_of(project) < MAX_CEILING);
        Ok(Draft {
            alloc,
            premises: Premises::new(alloc, project)?,
            best: None,
        })
    }

    /// Whether a lemma may be kept, whatever its lines say: it has the slot that it needs, and its arcs are within the
    /// limits.
    pub fn may_keep(&self, slot: usize, arcs: &[Lag]) -> bool
        ensures { IsTrue result ↔ MayKeep self.now slot arcs.now }
    {
        self.premises.has_room(slot, arcs) && are_arcs(self.premises.project(), arcs)
    }

    /// The places of the lines that show something new, if a lemma may be taken: it has the slot that it needs, and the
    /// lines refute its arcs beside the root and the lemmas.
    pub fn may_take(
        &mut self,
        slot: usize,
        arcs: &[Lag],
        lines: &[Line],
    ) -> Result<Option<Vec<usize>>, AllocError>
        ensures same { self.new ≡ self.old }
        ensures may { IfOk result (λ found. MatchOption found (¬ MayTake self.old slot arcs.now lines.now)
            (λ used. MayTake self.old slot arcs.now lines.now
            × MayTake self.old slot arcs.now (picked lines.now used.items))) }
    {
        if !self.premises.has_room(slot, arcs) {
            return Ok(None);
        }
        self.premises.refute(arcs, lines)
    }

    /// Keeps a lemma. One of no arc ends the search, one of one arc makes its reverse an arc of the root, and one of more
    /// fills the slot.
    pub fn keep(&mut self, slot: usize, arcs: Lags) -> Result<(), AllocError>
        requires { MayKeep self.old slot arcs }
        ensures kept { OnOk result (self.new ≡ with_lemma self.old slot arcs) }
        ensures unchanged { OnErr result (self.new ≡ self.old) }
    {
        prove!(self.premises.project().activity_count() >= 2);
        let Some(arc) = root_arc(arcs.as_slice()) else {
            self.premises.shelve(slot, arcs)?;
            return Ok(());
        };
        self.premises.add_root(arc)?;
        Ok(())
    }

    /// Lets a lemma go. Whether there is one in the slot.
    pub fn let_go(&mut self, slot: usize) -> bool
        ensures { LetsGo self.old slot result self.new }
    {
        self.premises.let_go(slot)
    }

    /// What schedules in question are shorter than: the makespan of the best one, or the horizon and one.
    pub fn ceiling(&self) -> i64
        ensures value { result ≡ ceiling_of self.now }
        ensures within { IsBetween (pos 0) MAX_CEILING result }
    {
        match &self.best {
            Some(starts) => last_of(starts.as_slice()),
            None => horizon_of(self.premises.project()) + 1,
        }
    }

    /// The project of which this is said.
    pub fn project(&self) -> &Project
        ensures { result.now ≡ self.now.project }
    {
        self.premises.project()
    }

    /// What the lines of a lemma are checked against.
    pub fn premises(&self) -> &Premises<'a>
        ensures { result.now ≡ premises_in self.now }
    {
        &self.premises
    }

    /// The starts of the best schedule by activity, in periods.
    pub fn best(&self) -> Option<&[i64]>
        ensures { MatchOption result (self.now.best ≡ None) (λ starts. self.now.best ≡ Some starts.now) }
    {
        match &self.best {
            Some(starts) => Some(starts.as_slice()),
            None => None,
        }
    }

    /// Whether starts are a feasible schedule that is in question.
    fn may_lead(&self, starts: &[i64]) -> Result<bool, AllocError>
        ensures { IfOk result (λ may. IsTrue may ↔ MayLead self.now starts.now) }
    {
        let project = self.premises.project();
        if !are_starts(project, starts) {
            return Ok(false);
        }
        if last_of(starts) >= self.ceiling() {
            return Ok(false);
        }
        is_feasible(self.alloc, project, starts)
    }

    /// Takes a schedule, if it is feasible and in question: from now on those are that are shorter. Starts are by
    /// activity.
    pub fn schedule(&mut self, starts: Starts) -> Result<bool, AllocError>
        ensures led { IfOk result (λ taken. Leads self.old starts taken self.new) }
        ensures unchanged { OnErr result (self.new ≡ self.old) }
    {
        if !self.may_lead(starts.as_slice())? {
            return Ok(false);
        }
        prove!(self.premises.project().activity_count() >= 2);
        let arc = deadline(self.premises.project(), last_of(starts.as_slice()));
        self.premises.add_root(arc)?;
        self.best = Some(starts);
        Ok(true)
    }

    /// The least end by the root's arcs, or the ceiling where that is less or no schedule is in question. No feasible
    /// schedule is shorter if all is true.
    pub fn bound(&self) -> i64
        ensures value { IsBoundOf self.now result }
        ensures law { IsSound self.now → IsLowerBound self.now.project result }
        ensures small { IsWithin MAX_WALK_WEIGHT result }
    {
        match self.premises.least_end() {
            Some(least) => least.min(self.ceiling()),
            None => self.ceiling(),
        }
    }

    /// What is claimed now.
    pub fn claim(&self) -> Verdict
        ensures claims { Claims self.now result }
        ensures small { IsSmall result }
    {
        if self.premises.least_end().is_some() {
            return Verdict::Bound {
                bound: self.bound(),
            };
        }
        if self.best.is_some() {
            return Verdict::Optimal {
                makespan: self.ceiling(),
            };
        }
        Verdict::NoSchedule
    }
}
