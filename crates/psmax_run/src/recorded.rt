//! The record of a search by workers.

ghost use Rattle.std.specs.Prelude.{◌≡◌, IfOk, IfSome, option_map};
ghost use Rattle.search_log.specs.RightTrail.{IsWholeTree};
ghost use Rattle.branching.specs.Fair.{ceiling_of};
ghost use Rattle.network.specs.Schedule.{IsScheduleFor};
ghost use Rattle.search_record.specs.Right.{claim_of};
ghost use Rattle.network.specs.Verdicts.{best_of};
ghost use Rattle.worker.specs.Solving.{IsTrailOf};
ghost use Rattle.psmax_run.specs.Searches.{IsOutcomeRecord, IsTextOf};

use network::{Outcome, Schedule};
use search_log::SearchLog;
use search_record::of_trail;
use std::alloc::{AllocError, Global};

/// The text of the record of a trail that is a whole tree under the makespan of this schedule.
fn text_of(alloc: Global, trail: &SearchLog, best: Option<&Schedule>) -> Result<Vec<u8>, AllocError>
    requires whole { IsWholeTree trail.now.project (ceiling_of (option_map (λ s. s.now) best)) trail.now.entries }
    requires of_project { IfSome (option_map (λ s. s.now) best) (λ s. s.project ≡ trail.now.project) }
    ensures { IfOk result
        (λ text. IsTextOf trail.now.project (claim_of (option_map (λ s. s.now) best.entry)) text.items) }
{
    let shown = of_trail(alloc, trail, best)?;
    shown.write(alloc)
}

/// The text of the record of a search; none of one that was stopped.
pub(crate) fn outcome_record(
    alloc: Global,
    outcome: &Outcome,
    trail: &SearchLog,
) -> Result<Option<Vec<u8>>, AllocError>
    requires trail { IsTrailOf trail.now.project outcome.now trail.now }
    requires best { IfSome (best_of outcome.now) (IsScheduleFor trail.now.project) }
    ensures { IfOk result (λ text. IsOutcomeRecord trail.now.project outcome.now (option_map (λ r. r.items) text)) }
{
    match outcome {
        Outcome::Optimal(best) => Ok(Some(text_of(alloc, trail, Some(best))?)),
        Outcome::NoSchedule => Ok(Some(text_of(alloc, trail, None)?)),
        Outcome::Stopped { .. } => Ok(None),
    }
}
