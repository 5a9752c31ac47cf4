//! The checker of records of a search.

ghost use Rattle.std.specs.Prelude.{◌≡◌};
ghost use Rattle.record_text.specs.FirstWrong.{FaultIsWrong, OtherFaultIsNone, IsVerdict};
ghost use Rattle.record_text.specs.Text.{search_kind};
ghost use Rattle.search_record.specs.Right.{RightIsTrue, limit_of, search_judge};

use crate::lines::check_lines;
use network::{Project, Verdict};
use record_text::{Claim, Line, Record, RecordFault, RecordLine};
use schedule_check::check_claimed;
use std::alloc::Global;

/// Laws over the definitions. What a right record claims is true. A record with a first fault is not right, and has no
/// other first fault.
pub fn right_law()
    ensures holds { RightIsTrue }
    ensures wrong { FaultIsWrong search_judge }
    ensures one { OtherFaultIsNone search_judge }
{}

/// The makespan that no schedule may be below, if one is claimed.
fn limit_of(claim: &Claim) -> Option<i64>
    ensures { result ≡ limit_of claim.now }
{
    match claim {
        Claim::Optimal { makespan, .. } => Some(*makespan),
        Claim::NoSchedule => None,
    }
}

/// What a right record proves of a project. Otherwise its first fault: of the starts, then of the first line of the
/// tree that is not right. [`Why::Memory`] says nothing of the record.
///
/// It checks each line with the matrix of the project and its node's pairs. There is one matrix (by Floyd 1962 and
/// Warshall 1962). It takes an arc for each pair, and goes back where the tree does. A node that is still to come takes
/// two numbers of memory and a pair.
pub fn verify(alloc: Global, project: &Project, shown: &Record) -> Result<Verdict, RecordFault>
    ensures { IsVerdict search_kind search_judge project.now shown.now result }
{
    let claim = shown.claim();
    if let Claim::Optimal { makespan, starts } = claim {
        check_claimed(alloc, project, starts.as_slice(), *makespan)?;
    }
    check_lines(
        alloc,
        project,
        limit_of(claim),
        Line::first_line(claim),
        shown.lines(),
    )?;
    Ok(Line::says(claim))
}
