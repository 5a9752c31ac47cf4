//! A log that comes piece by piece.

ghost use Rattle.std.specs.Prelude.{◌≡◌, ◌≢◌, ◌++◌, [], ℕ, List, drop, None, Ok, Err, IfOk, IfErr, OnOk, MatchOption};
ghost use Rattle.network.specs.Problem.{Problem};
ghost use Rattle.lemma_log.specs.declared.fault.DecodeFault.TheVariants.{Form, Short};
ghost use Rattle.lemma_log.specs.Reading.{title_in};
ghost use Rattle.record_text.specs.declared.event_fault.Wrong.TheVariants as wrongs;
ghost use Rattle.lemma_record.specs.Faults.{IsFirstFault};
ghost use Rattle.lemma_record.specs.Reached.{HasChecked, IsAt, IsAtTitle};
ghost use Rattle.lemma_record.specs.Parts.{IsRightTextIn, whole};
ghost use Rattle.lemma_record.specs.Right.{IsRightText};
ghost use Rattle.lemma_record.specs.SoFar.{IsProvedSoFar};

use crate::next::{NO_MEMORY, nothing_after, take_whole};
use crate::part::LogPart;
use lemma_book::Draft;
use lemma_log::{DecodeFault, is_cut_off, read_title};
use network::{Project, Verdict};
use record_text::{EventFault, Wrong};
use std::alloc::{AllocError, Global};
use std::marker::Model;

/// The bytes after the title that bytes begin with. None if they end within it.
fn after_title(alloc: Global, bytes: &[u8]) -> Result<Option<Vec<u8>>, EventFault>
    ensures rest { IfOk result (λ found. MatchOption found (title_in bytes.now ≡ Err Short)
        (λ rest. (n : ℕ) × (title_in bytes.now ≡ Ok n) × (rest.items ≡ drop n bytes.now))) }
    ensures fault { IfErr result (λ fault. fault.wrong ≢ wrongs.Memory
        → (fault ≡ record { event = 0; wrong = wrongs.Form }) × (title_in bytes.now ≡ Err Form)) }
{
    match read_title(bytes) {
        Ok(count) => {
            let (_, rest) = bytes.split_at(count);
            Ok(Some(rest.to_vec(alloc)?))
        }
        Err(DecodeFault::Short) => Ok(None),
        Err(DecodeFault::Memory) => Err(NO_MEMORY),
        Err(_) => Err(EventFault {
            event: 0,
            wrong: Wrong::Form,
        }),
    }
}

/// A log that comes piece by piece, of which a part is checked as far as it has come. It keeps what is proved, and less
/// than the bytes of one event.
#[derive(Drop)]
pub struct Checker<'a> {
    alloc: Global,
    part: LogPart,
    /// What the events so far say, those of the part rightly.
    draft: Draft<'a>,
    /// The bytes that are not used yet.
    left: Vec<u8>,
    /// The number of the event that is due; that of the title is 0.
    due: u64,
    /// What was claimed.
    proved: Option<Verdict>,
}

impl<'a> Model for Checker<'a> {
    ghost use Rattle.lemma_record.specs.Reached.{CheckerOf, checker_of};

    ghost Value = { CheckerOf };

    ghost view = { λ s. checker_of s.part s.draft s.left.items s.due s.proved };
}

impl<'a> Checker<'a> {
    /// Nothing has come yet of a log of which this part is to be checked.
    pub fn new(
        alloc: Global,
        project: &'a Project,
        part: LogPart,
    ) -> Result<Checker<'a>, AllocError>
        ensures { IfOk result (λ x. HasChecked project.now [] x × (x.part ≡ part)) }
    {
        let draft = Draft::new(alloc, project)?;
        Ok(Checker {
            alloc,
            part,
            draft,
            left: Vec::new(alloc),
            due: 0,
            proved: None,
        })
    }

    /// Reads and takes the events that have come whole.
    fn read_events(&mut self) -> Result<(), EventFault>
        ensures read { OnOk result ((p : Problem) (text : List ℕ)
            → IsAt self.old.part p text self.old.ledger self.old.left self.old.due → HasChecked p text self.new) }
        ensures fault { IfErr result (λ fault. fault.wrong ≢ wrongs.Memory → (p : Problem) (text more : List ℕ)
            → IsAt self.old.part p text self.old.ledger self.old.left self.old.due → IsFirstFault self.old.part p (text ++ more) fault) }
        ensures part { self.new.part ≡ self.old.part }
    {
        let stop = take_whole(
            self.alloc,
            &mut self.draft,
            &self.part,
            &self.left,
            self.due,
        )?;
        self.due = stop.due;
        self.proved = stop.proved;
        self.left = stop.left.to_vec(self.alloc)?;
        Ok(())
    }

    /// Reads the title, if all of it has come, and then events.
    fn read_title(&mut self) -> Result<(), EventFault>
        ensures read { OnOk result ((p : Problem) (text : List ℕ) → IsAtTitle p text self.old → HasChecked p text self.new) }
        ensures fault { IfErr result (λ fault. fault.wrong ≢ wrongs.Memory → (p : Problem) (text more : List ℕ)
            → IsAtTitle p text self.old → IsFirstFault self.old.part p (text ++ more) fault) }
        ensures part { self.new.part ≡ self.old.part }
    {
        let Some(rest) = after_title(self.alloc, &self.left)? else {
            return Ok(());
        };
        self.left = rest;
        self.due = 1;
        self.read_events()
    }

    /// Takes the next piece of the log. A fault is the first of the log, whatever else comes; the log is done with then.
    pub fn feed(&mut self, piece: &[u8]) -> Result<(), EventFault>
        ensures read { OnOk result ((p : Problem) (text : List ℕ) → HasChecked p text self.old
            → HasChecked p (text ++ piece.now) self.new) }
        ensures fault { IfErr result (λ fault. fault.wrong ≢ wrongs.Memory → (p : Problem) (text more : List ℕ)
            → HasChecked p text self.old → IsFirstFault self.old.part p ((text ++ piece.now) ++ more) fault) }
        ensures part { self.new.part ≡ self.old.part }
    {
        if self.proved.is_some() {
            return nothing_after(piece, self.due);
        }
        self.left.extend_from_slice(piece)?;
        if self.due == 0 {
            self.read_title()
        } else if is_cut_off(&self.left) {
            Ok(())
        } else {
            self.read_events()
        }
    }

    /// What the log proves, which ends here.
    pub fn finish(&self) -> Result<Verdict, EventFault>
        ensures right { IfOk result (λ proved. (p : Problem) (text : List ℕ) → HasChecked p text self.now
            → IsRightTextIn self.now.part p text proved) }
        ensures whole { IfOk result (λ proved. self.now.part ≡ whole → (p : Problem) (text : List ℕ)
            → HasChecked p text self.now → IsRightText p text proved) }
        ensures fault { IfErr result (λ fault. (p : Problem) (text : List ℕ) → HasChecked p text self.now
            → IsFirstFault self.now.part p text fault) }
        ensures short { IfErr result (λ fault. fault.wrong ≡ wrongs.Short) }
    {
        match self.proved {
            Some(proved) => Ok(proved),
            None => Err(EventFault {
                event: self.due,
                wrong: Wrong::Short,
            }),
        }
    }

    /// What is proved so far, if all of the log is checked: what it claims, and where no claim has come what is claimed
    /// there.
    pub fn proved(&self) -> Verdict
        ensures { self.now.part ≡ whole → (p : Problem) (text : List ℕ) → HasChecked p text self.now
            → IsProvedSoFar p text result }
    {
        match self.proved {
            Some(proved) => proved,
            None => self.draft.claim(),
        }
    }
}
