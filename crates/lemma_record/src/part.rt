//! Parts of a log.

ghost use Rattle.std.specs.Prelude.{◌≡◌, IfSome, IfNone};
ghost use Rattle.lemma_record.specs.Parts.{IsPart, has, part_of, whole};

use std::marker::Model;

/// A part of a log. Logs are checked in parts side by side: of a part's lemmas the lines are looked at, of others they are
/// not. What all parts claim is true.
#[derive(Clone, Copy, Debug)]
pub struct LogPart {
    /// From 1.
    number: u64,
    /// How many parts there are.
    count: u64,
}

impl Model for LogPart {
    ghost use Rattle.lemma_record.specs.Parts.{IsPart, PartOf, part_of};

    ghost Value = { PartOf };

    ghost view = { λ s. part_of s.number s.count };

    ghost invariant = { λ s. IsPart (part_of s.number s.count) };

    ghost inverse = { λ d. record { number = d.number; count = d.count } };
}

impl LogPart {
    /// All of a log.
    pub fn whole() -> LogPart
        ensures { result ≡ whole }
    {
        LogPart {
            number: 1,
            count: 1,
        }
    }

    /// This part of so many, the first of which is 1. None if there is no such part.
    pub fn new(number: u64, count: u64) -> Option<LogPart>
        ensures some { IfSome result (λ part. IsPart (part_of number count) × (part ≡ part_of number count)) }
        ensures none { IfNone result (¬ IsPart (part_of number count)) }
    {
        if number == 0 || number > count {
            return None;
        }
        Some(LogPart { number, count })
    }

    /// Which part it is, from 1.
    pub fn number(&self) -> u64
        ensures { result ≡ self.now.number }
    {
        self.number
    }

    /// How many parts there are.
    pub fn count(&self) -> u64
        ensures { result ≡ self.now.count }
    {
        self.count
    }

    /// Whether the event of this number is of the part.
    pub(crate) fn has(&self, event: u64) -> bool
        ensures { result ≡ has self.now event }
    {
        event % self.count + 1 == self.number
    }
}
