//! The records of searches.

ghost use Rattle.std.specs.Prelude.{◌≡◌, ◌++◌, Some, IfOk, OnOk, IfErr, string_bytes};
ghost use Rattle.record_text.specs.Text.{search_kind};
ghost use Rattle.record_text.specs.TextFaults.{IsFormFault};
ghost use Rattle.record_text.specs.Reading.{makespan_in, starts_in, search_rules};

use crate::fault::RecordFault;
use crate::fields::numbers_after;
use crate::kind::RecordLine;
use crate::line::{Claim, Line};
use crate::listed::Starts;
use crate::record::Recorded;
use crate::row::line_of;
use crate::starts::read_starts;
use crate::text_rows::next_row;
use crate::write::{put_numbers, put_optimal};
use network::Verdict;
use std::alloc::{AllocError, Global};

/// A record of a search: a claim and the lines of a tree. Each number is below 10,000,000,000, and starts are at least 0.
pub type Record = Recorded<Claim, Line>;

/// The makespan that a row claims.
fn makespan(alloc: Global, row: &[u8]) -> Result<i64, RecordFault>
    ensures found { IfOk result (λ makespan. makespan_in row.now ≡ Some makespan) }
    ensures fault { IfErr result (IsFormFault (makespan_in row.now) 2) }
{
    let Some(numbers) = numbers_after(alloc, b"optimal".as_slice(), row)? else {
        return Err(RecordFault::form(2));
    };
    match numbers.as_slice() {
        [makespan] => Ok(*makespan as i64),
        _ => Err(RecordFault::form(2)),
    }
}

/// The starts that a row has.
fn starts(alloc: Global, row: &[u8]) -> Result<Starts, RecordFault>
    ensures found { IfOk result (λ starts. starts_in row.now ≡ Some starts) }
    ensures fault { IfErr result (IsFormFault (starts_in row.now) 3) }
{
    match read_starts(alloc, row)? {
        Some(starts) => Ok(starts),
        None => Err(RecordFault::form(3)),
    }
}

impl RecordLine<Claim> for Line {
    ghost kind = { search_kind };

    ghost rules = { search_rules };

    fn title() -> &'static str {
        "record 1"
    }

    fn read_claim(alloc: Global, text: &[u8]) -> Result<(Claim, &[u8]), RecordFault> {
        let (row, rest) = next_row(text, 2)?;
        if row == b"no schedule".as_slice() {
            return Ok((Claim::NoSchedule, rest));
        }
        let makespan = makespan(alloc, row)?;
        let (row, rest) = next_row(rest, 3)?;
        let starts = starts(alloc, row)?;
        Ok((Claim::Optimal { makespan, starts }, rest))
    }

    fn says(claim: &Claim) -> Verdict {
        match claim {
            Claim::Optimal { makespan, .. } => Verdict::Optimal {
                makespan: *makespan,
            },
            Claim::NoSchedule => Verdict::NoSchedule,
        }
    }

    fn first_line(claim: &Claim) -> usize {
        match claim {
            Claim::Optimal { .. } => 4,
            Claim::NoSchedule => 3,
        }
    }

    fn of_row(alloc: Global, row: &[u8], _due: usize) -> Result<Option<Line>, AllocError> {
        line_of(alloc, row)
    }

    fn still_due(&self, due: usize) -> usize {
        match self {
            Line::Force(_) => due,
            Line::Solved | Line::Cut | Line::Dead => due - 1,
            Line::Split { members, .. } => {
                let count = members.as_slice().len();
                due - 1 + count * count.saturating_sub(1)
            }
        }
    }

    fn put_claim(out: &mut String, claim: &Claim) -> Result<(), AllocError> {
        match claim {
            Claim::Optimal { makespan, starts } => put_optimal(out, *makespan, starts),
            Claim::NoSchedule => out.push_str("no schedule\n"),
        }
    }

    fn put(&self, out: &mut String) -> Result<(), AllocError> {
        match self {
            Line::Force(pair) => write!(out, "force {} {}", pair.before, pair.after),
            Line::Solved => out.push_str("solved"),
            Line::Cut => out.push_str("cut"),
            Line::Dead => out.push_str("dead"),
            Line::Split { resource, members } => {
                write!(out, "split {resource}")?;
                put_numbers(out, members.as_slice())
            }
        }
    }

    fn known() {}
}
