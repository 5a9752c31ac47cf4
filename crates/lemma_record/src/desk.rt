//! Where a job proves lemmas, outside a book's lock.

ghost use Rattle.std.specs.Prelude.{◌≡◌, ◌↔◌, ◌⊎◌, [], ℕ, length, drop, take, IsTrue, IfOk, OnErr};
ghost use Rattle.lemma_book.specs.Ledger.{IsFilled};
ghost use Rattle.lemma_book.specs.Premises.{with_roots};
ghost use Rattle.lemma_record.specs.Desk.{Copies, FollowsLedger, IsDesk, LetsGoOf, MayCopy, Proves, emptied, first_desk, lemma_of};

use crate::copies::picked;
use lemma_book::{Ledger, MAX_SLOTS, Premises};
use lemma_log::Lines;
use lemma_proof::{Lags, Line, are_arcs};
use network::{Lag, Project};
use std::alloc::{AllocError, Global};
use std::marker::Model;
use std::mem;

/// A lemma of two arcs or more, and lines that refute its arcs.
#[derive(Drop)]
pub struct Lemma {
    pub(crate) slot: usize,
    pub(crate) arcs: Lags,
    pub(crate) lines: Lines,
}

/// A root and lemmas that a job checks lines against, and the lemmas that it has proved so, which wait for a book.
///
/// The lines of each lemma that waits refute its arcs beside what the desk has. Nothing is said of whether what it has is
/// true: [`LemmaBook::accept`](crate::LemmaBook::accept) compares it with the book's.
#[derive(Drop)]
pub struct Desk<'a> {
    alloc: Global,
    premises: Premises<'a>,
    /// The lemmas that wait, the oldest first.
    proved: Vec<Lemma>,
}

impl<'a> Model for Desk<'a> {
    ghost use Rattle.lemma_record.specs.Desk.{DeskOf, IsDesk};

    ghost Value = { DeskOf };

    ghost view = { λ s. record { premises = s.premises; proved = s.proved.items } };

    ghost invariant = { λ s. IsDesk s.premises s.proved.items };
}

impl<'a> Desk<'a> {
    /// Of the root and the lemmas of a ledger of which nothing is proved. No lemma waits.
    pub fn new(alloc: Global, project: &'a Project) -> Result<Desk<'a>, AllocError>
        ensures { IfOk result (λ x. x ≡ first_desk project.now) }
    {
        Ok(Desk {
            alloc,
            premises: Premises::new(alloc, project)?,
            proved: Vec::new(alloc),
        })
    }

    /// What lines are checked against.
    pub fn premises(&self) -> &Premises<'a>
        ensures { result.now ≡ self.now.premises }
    {
        &self.premises
    }

    /// Proves a lemma, if it has two arcs or more, its slot is empty and the lines refute its arcs beside what the desk
    /// has. It fills its slot, and waits with those lines that show something new.
    pub fn prove(&mut self, slot: usize, arcs: Lags, lines: &[Line]) -> Result<bool, AllocError>
        ensures proved { IfOk result (λ taken. Proves self.old (lemma_of slot arcs lines.now) taken self.new) }
        ensures unchanged { OnErr result (self.new ≡ self.old) }
    {
        if arcs.as_slice().len() < 2 || !self.premises.has_room(slot, arcs.as_slice()) {
            return Ok(false);
        }
        let Some(places) = self.premises.refute(arcs.as_slice(), lines)? else {
            return Ok(false);
        };
        let lines = picked(self.alloc, lines, &places)?;
        let copy = Lags::new(arcs.as_slice().to_vec(self.alloc)?);
        self.proved.reserve(1)?;
        self.premises.shelve(slot, copy)?;
        self.proved.push_reserved(Lemma { slot, arcs, lines });
        Ok(true)
    }

    /// Takes the arcs that the root of a ledger has beyond the count of this one. Whether the ledger is of the same project:
    /// otherwise nothing changes. Once memory runs out, the first of them are taken.
    pub fn follow(&mut self, ledger: &Ledger<'_>) -> Result<bool, AllocError>
        ensures followed { IfOk result (λ same. FollowsLedger self.old ledger.now same self.new) }
        ensures some { OnErr result ((count : ℕ) × (self.new ≡ record self.old {
          premises = with_roots self.old.premises (take count (drop (length self.old.premises.roots) ledger.now.roots));
        })) }
    {
        let same = self.premises.follow(ledger.premises())?;
        Ok(same)
    }

    /// Whether no lemma that waits uses what is in a slot, as far as it is seen.
    fn is_unused(&self, slot: usize) -> bool
        ensures { IsTrue result ↔ ((self.now.proved ≡ []) ⊎ (¬ IsFilled self.now.premises.lemmas slot)) }
    {
        self.proved.is_empty() || self.premises.lemma_in(slot).is_none()
    }

    /// Whether a lemma of others may be put into a slot.
    fn may_copy(&self, slot: usize, arcs: &[Lag]) -> bool
        ensures { IsTrue result ↔ MayCopy self.now slot arcs.now }
    {
        slot < MAX_SLOTS && self.is_unused(slot) && are_arcs(self.premises.project(), arcs)
    }

    /// Puts a lemma of others into a slot. One that is filled gets it only where no lemma waits.
    pub fn copy(&mut self, slot: usize, arcs: Lags) -> Result<bool, AllocError>
        ensures copied { IfOk result (λ taken. Copies self.old slot arcs taken self.new) }
        ensures unchanged { OnErr result (self.new ≡ self.old) }
    {
        if !self.may_copy(slot, arcs.as_slice()) {
            return Ok(false);
        }
        self.premises.shelve(slot, arcs)?;
        Ok(true)
    }

    /// Lets the lemma of a slot go, if there is one and no lemma waits: those that wait may use it.
    pub fn let_go(&mut self, slot: usize) -> bool
        ensures { LetsGoOf self.old slot result self.new }
    {
        self.proved.is_empty() && self.premises.let_go(slot)
    }

    /// The lemmas that wait, the oldest first. They leave the desk.
    pub(crate) fn take_proved(&mut self) -> Vec<Lemma>
        ensures taken { result.items ≡ self.old.proved }
        ensures shown { IsDesk self.old.premises result.items }
        ensures emptied { self.new ≡ emptied self.old }
    {
        mem::replace(&mut self.proved, Vec::new(self.alloc))
    }
}
