//! What of a log is checked, and the line that says what it shows.

ghost use Rattle.std.specs.Prelude.{◌≡◌, IfOk, string_bytes};
ghost use Rattle.verify_run.specs.Verified.{line_of, part_in};

use answers::proved_text;
use lemma_record::LogPart;
use network::Verdict;
use std::alloc::{AllocError, Global};
use std::fmt::Write;

/// What of a log is checked.
#[derive(Clone, Copy, Debug)]
pub enum Scope {
    /// All of it.
    Whole,
    /// All of it as far as it goes: it may be cut off.
    SoFar,
    /// A part of it.
    Part(LogPart),
}

impl Scope {
    /// The part that is checked.
    pub(crate) fn part(&self) -> LogPart
        ensures { result ≡ part_in self.now }
    {
        match self {
            Scope::Whole => LogPart::whole(),
            Scope::SoFar => LogPart::whole(),
            Scope::Part(part) => *part,
        }
    }

    /// The line of what is shown.
    pub(crate) fn line(&self, alloc: Global, shown: Verdict) -> Result<String, AllocError>
        ensures { IfOk result (λ line. string_bytes line ≡ line_of self.now shown) }
    {
        let text = proved_text(alloc, shown)?;
        let Scope::Part(part) = self else {
            return Ok(text);
        };
        let mut line = String::new(alloc);
        let (number, count) = (part.number(), part.count());
        write!(line, "part {number}/{count} of ")?;
        line.push_str(text.as_str())?;
        Ok(line)
    }
}
