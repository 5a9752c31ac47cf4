//! Makes the record of a search from its trail.

ghost use Rattle.std.specs.Prelude.{◌≡◌, IfOk, OnOk, IfSome, option_map};
ghost use Rattle.branching.specs.Fair.{ceiling_of};
ghost use Rattle.search_log.specs.RightTrail.{IsWholeTree};
ghost use Rattle.search_record.specs.Right.{claim_of, IsKeptSchedule, IsRight};

use crate::walk::trail_lines;
use network::Schedule;
use record_text::{Claim, Record, Starts};
use search_log::SearchLog;
use std::alloc::{AllocError, Global};

/// What a search claims whose best schedule this is.
fn claim_of(alloc: Global, best: Option<&Schedule>) -> Result<Claim, AllocError>
    ensures claim { IfOk result (λ claim. claim ≡ claim_of (option_map (λ schedule. schedule.now) best.entry)) }
    ensures schedule { OnOk result (IfSome (option_map (λ schedule. schedule.now) best.entry) IsKeptSchedule) }
{
    let Some(schedule) = best else {
        return Ok(Claim::NoSchedule);
    };
    let makespan = schedule.makespan();
    let starts = Vec::from_slice(alloc, schedule.starts())?;
    Ok(Claim::Optimal {
        makespan,
        starts: Starts::new(starts),
    })
}

/// The record of a search that is over: the trail is a whole tree for the makespan of the search's best schedule. It
/// claims that the best is a shortest schedule, or that there is none where none was found.
pub fn of_trail(
    alloc: Global,
    trail: &SearchLog,
    best: Option<&Schedule>,
) -> Result<Record, AllocError>
    requires whole { IsWholeTree trail.now.project
        (ceiling_of (option_map (λ schedule. schedule.now) best)) trail.now.entries }
    requires of_project { IfSome (option_map (λ schedule. schedule.now) best) (λ s. s.project ≡ trail.now.project) }
    ensures right { IfOk result (IsRight trail.now.project) }
    ensures claim { IfOk result (λ shown. shown.claim ≡ claim_of (option_map (λ schedule. schedule.now) best.entry)) }
{
    prove!(trail.project().activity_count() >= 2);
    let claim = claim_of(alloc, best)?;
    let lines = trail_lines(alloc, trail.entries())?;
    Ok(Record::new(claim, lines))
}
