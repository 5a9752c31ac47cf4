//! A ledger, and the log of all that it took.

ghost use Rattle.std.specs.Prelude.{◌≡◌, ◌↔◌, ◌++◌, [], None, Some, IfOk, IfSome, IfNone, OnErr, MatchOption, IsSomeAnd, IsTrue};
ghost use Rattle.lemma_record.specs.LemmaBook.{IsBest, IsCutShort, IsLogOf, IsShownOf, Offers, first_book};
ghost use Rattle.lemma_record.specs.Right.{IsStep};

use crate::logging::log_event;
use crate::taking::take;
use crate::{Blank, Growing, Naming, Taken};
use lemma_book::Ledger;
use lemma_log::{Event, is_writable, put_event, put_title};
use network::{Project, Verdict};
use std::alloc::{AllocError, Global};
use std::marker::Model;

/// What is proved of a project, and the log that proves it.
///
/// Jobs share a book under a lock. Whenever the lock is free, the ledger is what the events of the log made of the first
/// one. So all that the book claims is true of its project, whoever offered what. The log leaves the book piece by piece:
/// what was taken of it is no longer kept.
#[derive(Drop)]
pub struct LemmaBook<'a, J: Naming> {
    pub(crate) alloc: Global,
    pub(crate) ledger: Ledger<'a>,
    /// None once memory ran out for it.
    pub(crate) log: Option<Growing<J>>,
}

impl<'a, J: Naming> Model for LemmaBook<'a, J> {
    ghost use Rattle.std.specs.Prelude.{option_map};
    ghost use Rattle.lemma_record.specs.Texts.{whole};
    ghost use Rattle.lemma_record.specs.LemmaBook.{BookOf, IsBook};

    ghost Value = { BookOf };

    ghost view = { λ s. record { ledger = s.ledger; log = option_map whole s.log } };

    ghost invariant = { λ s. IsBook s.ledger (option_map whole s.log) };
}

/// Whether an event is no claim.
fn is_step(event: &Event) -> bool
    ensures { IsTrue result ↔ IsStep event.now }
{
    !matches!(event, Event::Claim(_))
}

/// What a book shows in the end.
#[derive(Drop, Debug)]
pub struct Shown {
    /// What is proved.
    pub proved: Verdict,
    /// The starts of the best schedule by activity, in periods.
    pub best: Option<Vec<i64>>,
    /// The bytes that end the log: the claim of what is proved.
    pub end: Vec<u8>,
}

/// A copy of starts, if there are any.
fn starts_of(alloc: Global, best: Option<&[i64]>) -> Result<Option<Vec<i64>>, AllocError>
    ensures { IfOk result (λ copy. MatchOption best.entry (copy ≡ None) (λ starts. IsSomeAnd copy (λ of. of.items ≡ starts.now))) }
{
    match best {
        Some(starts) => Ok(Some(Vec::from_slice(alloc, starts)?)),
        None => Ok(None),
    }
}

impl<'a, J: Naming> LemmaBook<'a, J> {
    /// A book that took nothing, with a text for its log.
    pub fn new(
        alloc: Global,
        project: &'a Project,
        log: Blank<J>,
    ) -> Result<LemmaBook<'a, J>, AllocError>
        ensures { IfOk result (λ x. x ≡ first_book project.now) }
    {
        let mut title = Vec::new(alloc);
        put_title(&mut title)?;
        let mut log = log.text();
        log.push(&title)?;
        let ledger = Ledger::new(alloc, project)?;
        Ok(LemmaBook {
            alloc,
            ledger,
            log: Some(log),
        })
    }

    /// What is proved.
    pub fn ledger(&self) -> &Ledger<'a>
        ensures { result.now ≡ self.now.ledger }
    {
        &self.ledger
    }

    /// What the log has beyond that which was taken, for whoever took this. None for others, and once memory ran out for
    /// the log. All that was taken is then the log so far.
    pub fn take_log(&mut self, mine: &mut Taken<J>) -> Option<Vec<u8>>
        ensures same { self.new ≡ self.old }
        ensures taken { IfSome result (λ piece. (mine.new ≡ mine.old ++ piece.items) × (self.new.log ≡ Some mine.new)) }
        ensures log { IfSome result (λ _. IsLogOf self.new.ledger mine.new) }
        ensures none { IfNone result (mine.new ≡ mine.old) }
    {
        match &mut self.log {
            Some(log) => log.take(mine),
            None => None,
        }
    }

    /// Takes an event and logs it, if it is no claim, its numbers are within the limits of a log and the ledger takes it.
    /// Once memory runs out for the log, nothing is taken any more; what is proved stays proved.
    pub fn offer(&mut self, event: Event) -> Result<bool, AllocError>
        ensures taken { IfOk result (λ taken. Offers self.old event taken self.new) }
        ensures cut_short { OnErr result (IsCutShort self.old event self.new) }
    {
        if !is_step(&event) || !is_writable(&event) {
            return Ok(false);
        }
        let Some(log) = &mut self.log else {
            return Err(AllocError);
        };
        let Some(logged) = take(self.alloc, &mut self.ledger, event)? else {
            return Ok(false);
        };
        if log_event(self.alloc, log, &logged).is_err() {
            self.log = None;
            return Err(AllocError);
        }
        Ok(true)
    }

    /// What is proved in the end: the claim that the book makes, which is true of its project, and ends the log of all
    /// that it took, which proves it. The best schedule is feasible.
    pub fn close(self) -> Result<Shown, AllocError>
        ensures proof { IfOk result (λ shown. IsSomeAnd self.entry.log (λ log.
            IsShownOf self.entry.ledger.project log shown)) }
        ensures best { IfOk result (λ shown. IsBest self.entry.ledger shown.best) }
    {
        self.shown()
    }

    /// What is proved so far.
    fn shown(&self) -> Result<Shown, AllocError>
        ensures proof { IfOk result (λ shown. IsSomeAnd self.now.log (λ log.
            IsShownOf self.now.ledger.project log shown)) }
        ensures best { IfOk result (λ shown. IsBest self.now.ledger shown.best) }
    {
        let Some(_log) = &self.log else {
            return Err(AllocError);
        };
        let proved = self.ledger.claim();
        let mut end = Vec::new(self.alloc);
        put_event(&mut end, &Event::Claim(proved))?;
        let best = starts_of(self.alloc, self.ledger.best())?;
        Ok(Shown { proved, best, end })
    }
}
