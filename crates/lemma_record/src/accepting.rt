//! A book accepts what was proved at a desk.

ghost use Rattle.std.specs.Prelude.{◌≡◌, ◌↔◌, IsTrue, IsSome, IfOk, OnOk, OnErr, List};
ghost use Rattle.lemma_book.specs.Ledger.{HasRoom, MayTake, with_lemma};
ghost use Rattle.lemma_book.specs.Premises.{AreAhead, premises_in};
ghost use Rattle.lemma_log.specs.Text.{IsWritableBody};
ghost use Rattle.lemma_proof.specs.Lines.{HaveUsed};
ghost use Rattle.lemma_proof.specs.declared.line.Line.{Line};
ghost use Rattle.lemma_record.specs.declared.desk.Lemma.{Lemma};
ghost use Rattle.lemma_record.specs.LemmaBook.{IsCutShort};
ghost use Rattle.lemma_record.specs.Right.{IsStep, Takes};
ghost use Rattle.lemma_record.specs.Desk.{Accepts, AcceptsEach, AcceptsSome, IsShown, emptied, event_of};

use crate::Naming;
use crate::book::LemmaBook;
use crate::desk::{Desk, Lemma};
use crate::logging::log_event;
use lemma_book::{Ledger, Premises};
use lemma_log::{Event, is_writable};
use lemma_proof::Lags;
use std::alloc::AllocError;

/// Whether a ledger has each lemma that the lines of one use, and an empty slot for it.
fn has_all(ledger: &Ledger<'_>, premises: &Premises<'_>, lemma: &Lemma) -> bool
    ensures { IsTrue result ↔ (HaveUsed ledger.now.lemmas premises.now.lemmas lemma.now.lines
        × HasRoom ledger.now.lemmas lemma.now.slot lemma.now.arcs) }
{
    let own = ledger.premises();
    own.have_used(premises, lemma.lines.as_slice())
        && own.has_room(lemma.slot, lemma.arcs.as_slice())
}

/// A lemma as an event.
fn event_of(lemma: Lemma) -> Event
    ensures { result ≡ event_of lemma }
{
    let Lemma { slot, arcs, lines } = lemma;
    Event::Lemma { slot, arcs, lines }
}

impl<'a, J: Naming> LemmaBook<'a, J> {
    /// Keeps a lemma that may be taken, and logs its event.
    fn keep_logged(&mut self, slot: usize, arcs: Lags, event: &Event) -> Result<(), AllocError>
        requires may { (lines : List Line) × MayTake self.old.ledger slot arcs lines }
        requires event { IsStep event.now × IsWritableBody event.now
            × Takes self.old.ledger event.now (with_lemma self.old.ledger slot arcs) }
        ensures kept { OnOk result ((self.new.ledger ≡ with_lemma self.old.ledger slot arcs) × IsSome self.new.log) }
        ensures cut_short { OnErr result (IsCutShort self.old event.now self.new) }
    {
        let Some(log) = &mut self.log else {
            return Err(AllocError);
        };
        self.ledger.keep(slot, arcs)?;
        if log_event(self.alloc, log, event).is_err() {
            self.log = None;
            return Err(AllocError);
        }
        Ok(())
    }

    /// Takes and logs a lemma that lines show beside some premises, if the ledger is ahead of these and has what the lines
    /// rest on.
    fn accept_beside(
        &mut self,
        premises: &Premises<'_>,
        is_ahead: bool,
        lemma: Lemma,
    ) -> Result<bool, AllocError>
        requires ahead { IsTrue is_ahead ↔ AreAhead (premises_in self.old.ledger) premises.now }
        requires shown { IsShown premises.now lemma }
        ensures accepted { IfOk result (λ taken. Accepts self.old premises.now lemma taken self.new) }
        ensures cut_short { OnErr result (IsCutShort self.old (event_of lemma) self.new) }
    {
        if !is_ahead {
            return Ok(false);
        }
        if !has_all(&self.ledger, premises, &lemma) {
            return Ok(false);
        }
        let slot = lemma.slot;
        let arcs = Lags::new(lemma.arcs.as_slice().to_vec(self.alloc)?);
        let event = event_of(lemma);
        if !is_writable(&event) {
            return Ok(false);
        }
        self.keep_logged(slot, arcs, &event)?;
        Ok(true)
    }

    /// Takes all lemmas off a desk, the oldest first, and logs each of them, if the desk is of the same project, its root
    /// is how the book's begins, each lemma that the lines use there is here, too, its slot is empty and its numbers are
    /// within the limits of a log. Its lines are not checked again. Says of each whether it was taken. Once memory runs out
    /// for the log, nothing is taken any more.
    pub fn accept(&mut self, desk: &mut Desk<'_>) -> Result<Vec<bool>, AllocError>
        ensures accepted { IfOk result
            (λ taken. AcceptsEach desk.old.premises self.old desk.old.proved taken.items self.new) }
        ensures some { OnErr result (AcceptsSome desk.old.premises self.old desk.old.proved self.new) }
        ensures emptied { desk.new ≡ emptied desk.old }
    {
        let is_ahead = self.ledger.premises().are_ahead(desk.premises());
        let lemmas = desk.take_proved();
        let mut accepted = Vec::with_capacity(self.alloc, lemmas.len())?;
        for lemma in lemmas {
            let taken = self.accept_beside(desk.premises(), is_ahead, lemma)?;
            accepted.push_reserved(taken);
        }
        Ok(accepted)
    }
}
