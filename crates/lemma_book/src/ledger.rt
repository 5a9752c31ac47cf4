//! What is proved of a project, and what changes it.

ghost use Rattle.std.specs.Prelude.{◌≡◌, ◌↔◌, pos, Some, List, None, IfOk, IfSome, OnOk, OnErr, MatchOption};
ghost use Rattle.network.specs.Problem.{IsBetween, IsWithin};
ghost use Rattle.lemma_book.specs.declared.deadline.TheConstants.{MAX_CEILING};
ghost use Rattle.network.specs.declared.limits.TheConstants.{MAX_WALK_WEIGHT};
ghost use Rattle.network.specs.Schedule.{IsFeasible, IsLowerBound, IsTrueVerdict};
ghost use Rattle.lemma_proof.specs.declared.line.Line.{Line};
ghost use Rattle.lemma_proof.specs.Lines.{IsIn, picked};
ghost use Rattle.lemma_book.specs.Ledger.{Claims, IsBoundOf, IsFilled, IsSmall, Leads, LetsGo, MayTake, Takes, ceiling_of, first_ledger, with_lemma};
ghost use Rattle.lemma_book.specs.Premises.{premises_in};

use crate::draft::Draft;
use crate::premises::Premises;
use lemma_proof::{Lags, Line};
use network::{Lag, Project, Verdict};
use record_text::Starts;
use std::alloc::{AllocError, Global};
use std::marker::Model;

/// How many slots there are at most.
pub const MAX_SLOTS: usize = 1_048_576;

/// What is proved of a project: the best schedule, arcs of the root, and lemmas.
///
/// At every moment the best schedule, if there is one, is feasible, and every feasible schedule in question, shorter
/// than it or no longer than the horizon, meets all arcs of the root and of each lemma not all.
#[derive(Drop)]
pub struct Ledger<'a> {
    draft: Draft<'a>,
}

impl<'a> Model for Ledger<'a> {
    ghost use Rattle.lemma_book.specs.Ledger.{IsSound, LedgerOf};

    ghost Value = { LedgerOf };

    ghost view = { λ s. s.draft };

    ghost invariant = { λ s. IsSound s.draft };
}

impl<'a> Ledger<'a> {
    /// Nothing is proved but that a schedule in question ends by the horizon, and that there is none where an activity
    /// alone asks for too much.
    pub fn new(alloc: Global, project: &'a Project) -> Result<Ledger<'a>, AllocError>
        ensures { IfOk result (λ x. x ≡ first_ledger project.now) }
    {
        Ok(Ledger {
            draft: Draft::new(alloc, project)?,
        })
    }

    /// The places of the lines that show something new, if a lemma may be taken: it has the slot that it needs, and the
    /// lines refute its arcs beside what the ledger has.
    pub fn may_take(
        &mut self,
        slot: usize,
        arcs: &[Lag],
        lines: &[Line],
    ) -> Result<Option<Vec<usize>>, AllocError>
        ensures same { self.new ≡ self.old }
        ensures may { IfOk result (λ found. MatchOption found (¬ MayTake self.old slot arcs.now lines.now)
            (λ used. MayTake self.old slot arcs.now lines.now
            × MayTake self.old slot arcs.now (picked lines.now used.items))) }
    {
        self.draft.may_take(slot, arcs, lines)
    }

    /// Keeps a lemma that may be taken by some lines.
    pub fn keep(&mut self, slot: usize, arcs: Lags) -> Result<(), AllocError>
        requires { (lines : List Line) × MayTake self.old slot arcs lines }
        ensures kept { OnOk result (self.new ≡ with_lemma self.old slot arcs) }
        ensures unchanged { OnErr result (self.new ≡ self.old) }
    {
        self.draft.keep(slot, arcs)?;
        Ok(())
    }

    /// Takes a lemma, if lines refute its arcs beside what the ledger has: the places of the lines that show something
    /// new. One of no arc ends the search, one of one arc makes its reverse an arc of the root, and one of more fills
    /// the slot, which is empty.
    pub fn lemma(
        &mut self,
        slot: usize,
        arcs: Lags,
        lines: &[Line],
    ) -> Result<Option<Vec<usize>>, AllocError>
        ensures taken { IfOk result (λ found. Takes self.old slot arcs lines.now found self.new) }
        ensures unchanged { OnErr result (self.new ≡ self.old) }
    {
        let Some(used) = self.may_take(slot, arcs.as_slice(), lines)? else {
            return Ok(None);
        };
        self.keep(slot, arcs)?;
        Ok(Some(used))
    }

    /// Lets a lemma go. Whether there is one in the slot.
    pub fn let_go(&mut self, slot: usize) -> bool
        ensures { LetsGo self.old slot result self.new }
    {
        self.draft.let_go(slot)
    }

    /// What schedules in question are shorter than: the makespan of the best one, or the horizon and one.
    pub fn ceiling(&self) -> i64
        ensures value { result ≡ ceiling_of self.now }
        ensures within { IsBetween (pos 0) MAX_CEILING result }
    {
        self.draft.ceiling()
    }

    /// The project of which this is proved.
    pub fn project(&self) -> &Project
        ensures { result.now ≡ self.now.project }
    {
        self.draft.project()
    }

    /// What the lines of a lemma are checked against.
    pub fn premises(&self) -> &Premises<'a>
        ensures { result.now ≡ premises_in self.now }
    {
        self.draft.premises()
    }

    /// The root's arcs beside the project's rules, in the order in which they came.
    pub fn roots(&self) -> &[Lag]
        ensures { result.now ≡ self.now.roots }
    {
        self.draft.premises().roots()
    }

    /// The arcs of the lemma in a slot, if there is one.
    pub fn lemma_in(&self, slot: usize) -> Option<&[Lag]>
        ensures { MatchOption result (¬ IsFilled self.now.lemmas slot) (λ arcs. IsIn self.now.lemmas slot arcs.now) }
    {
        self.draft.premises().lemma_in(slot)
    }

    /// The starts of the best schedule by activity, in periods.
    pub fn best(&self) -> Option<&[i64]>
        ensures best { MatchOption result (self.now.best ≡ None) (λ starts. self.now.best ≡ Some starts.now) }
        ensures feasible { IfSome result (λ starts. IsFeasible self.now.project starts.now) }
    {
        self.draft.best()
    }

    /// Takes a schedule, if it is feasible and in question: from now on those are that are shorter. Starts are by
    /// activity.
    pub fn schedule(&mut self, starts: Starts) -> Result<bool, AllocError>
        ensures led { IfOk result (λ taken. Leads self.old starts taken self.new) }
        ensures unchanged { OnErr result (self.new ≡ self.old) }
    {
        let led = self.draft.schedule(starts)?;
        Ok(led)
    }

    /// What no feasible schedule is shorter than: the least end by the root's arcs, or the ceiling where that is less or
    /// no schedule is in question.
    pub fn bound(&self) -> i64
        ensures value { IsBoundOf self.now result }
        ensures law { IsLowerBound self.now.project result }
        ensures small { IsWithin MAX_WALK_WEIGHT result }
    {
        self.draft.bound()
    }

    /// What is proved now. It is true of the project.
    pub fn claim(&self) -> Verdict
        ensures claims { Claims self.now result }
        ensures law { IsTrueVerdict self.now.project result }
        ensures small { IsSmall result }
    {
        prove!(self.draft.project().activity_count() >= 2);
        self.draft.claim()
    }
}
