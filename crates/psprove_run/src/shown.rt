//! The outcome that a book of lemmas shows: what the searches say counts for nothing.

ghost use Rattle.std.specs.Prelude.{◌≡◌, ◌≤ℤ◌, Some, IsTrue, IfOk, IfErr, IfSome, IsSomeAnd, option_map};
ghost use Rattle.std.specs.Arc.{arc_value};
ghost use Rattle.network.specs.Problem.{AreStarts};
ghost use Rattle.network.specs.Schedule.{IsFeasible, IsTrueVerdict, IsScheduleFor};
ghost use Rattle.network.specs.Schedule.{makespan as makespan_of};
ghost use Rattle.devices.specs.Faults.{exit_of, IsNoDeviceFault};
ghost use Rattle.network.specs.Verdicts.{IsNoLongerThan, IsTrueOf, verdict_of};
ghost use Rattle.network.specs.Verdicts.{best_of as best_in};
ghost use Rattle.network.specs.declared.outcome.Outcome.TheVariants as outcomes;

use devices::Fault;
use lemma_record::Shown;
use network::{MAX_START, Outcome, Project, Schedule, Verdict};
use std::alloc::Global;
use std::sync::Arc;

/// Whether there is a start within the limits for each activity.
fn are_starts(project: &Project, starts: &[i64]) -> bool
    ensures { IsTrue result → AreStarts project.now starts.now }
{
    starts.len() == project.activity_count()
        && starts
            .iter()
            .all(|start| -MAX_START <= *start && *start <= MAX_START)
}

/// The best schedule, if there is one.
fn best_of(
    alloc: Global,
    project: &Arc<Project>,
    best: Option<&[i64]>,
) -> Result<Option<Schedule>, Fault>
    requires { IfSome best (λ starts. IsFeasible (arc_value project.now) starts.now) }
    ensures found { IfOk result (λ best. IfSome best (IsScheduleFor (arc_value project.now))) }
    ensures same { IfOk result (λ found. option_map (λ s. s.starts) found ≡ option_map (λ s. s.now) best.entry) }
    ensures status { IfErr result (λ fault. exit_of fault ≡ 1) }
    ensures fault { IfErr result IsNoDeviceFault }
{
    let Some(starts) = best else {
        return Ok(None);
    };
    if !are_starts(project, starts) {
        return Err(Fault::Refused);
    }
    let starts = Vec::from_slice(alloc, starts)?;
    Ok(Some(Schedule::of(Arc::try_clone(project)?, starts)))
}

/// The shortest schedule, where it takes as long as is proved.
fn shortest_of(best: Option<Schedule>, makespan: i64) -> Result<Schedule, Fault>
    ensures shortest { IfOk result (λ s. (best ≡ Some s) × (makespan ≡ makespan_of s.starts)) }
    ensures status { IfErr result (λ fault. exit_of fault ≡ 1) }
    ensures fault { IfErr result IsNoDeviceFault }
{
    match best {
        Some(best) if best.makespan() == makespan => Ok(best),
        _ => Err(Fault::Refused),
    }
}

/// Whether a schedule is there that is no longer than a start, if there is one.
fn is_no_longer(best: Option<&Schedule>, start: Option<&Schedule>) -> bool
    ensures { IsTrue result → IfSome start.entry (λ s. IsSomeAnd best.entry (λ b. makespan_of b.now.starts ≤ℤ makespan_of s.now.starts)) }
{
    match (best, start) {
        (_, None) => true,
        (Some(best), Some(start)) => best.makespan() <= start.makespan(),
        (None, Some(_)) => false,
    }
}

/// The outcome of a search that was stopped. It may have begun with a start, and then tells no longer schedule.
fn stopped(best: Option<Schedule>, bound: i64, start: Option<&Schedule>) -> Result<Outcome, Fault>
    ensures stopped { IfOk result (λ outcome. outcome ≡ outcomes.Stopped best bound) }
    ensures no_longer { IfOk result (λ outcome. IfSome start.entry (λ s. IsNoLongerThan (makespan_of s.now.starts) outcome)) }
    ensures status { IfErr result (λ fault. exit_of fault ≡ 1) }
    ensures fault { IfErr result IsNoDeviceFault }
{
    if !is_no_longer(best.as_ref(), start) {
        return Err(Fault::Refused);
    }
    Ok(Outcome::Stopped { best, bound })
}

/// The outcome that is proved, with the best schedule, which is no longer than a start.
pub(crate) fn outcome_of(
    alloc: Global,
    project: &Arc<Project>,
    start: Option<&Schedule>,
    shown: &Shown,
) -> Result<Outcome, Fault>
    requires verdict { IsTrueVerdict (arc_value project.now) shown.now.proved }
    requires feasible { IfSome shown.now.best (λ starts. IsFeasible (arc_value project.now) starts.items) }
    requires start { IfSome start (λ s. IsScheduleFor (arc_value project.now) s.now) }
    ensures claims { IfOk result (λ outcome. shown.now.proved ≡ verdict_of outcome) }
    ensures true_of { IfOk result (IsTrueOf (arc_value project.now)) }
    ensures best { IfOk result (λ outcome.
        option_map (λ s. s.starts) (best_in outcome) ≡ option_map (λ v. v.items) shown.now.best) }
    ensures no_longer { IfOk result (λ outcome. IfSome start.entry (λ s. IsNoLongerThan (makespan_of s.now.starts) outcome)) }
    ensures status { IfErr result (λ fault. exit_of fault ≡ 1) }
    ensures fault { IfErr result IsNoDeviceFault }
{
    let best = best_of(alloc, project, shown.best.as_deref())?;
    match shown.proved {
        Verdict::Optimal { makespan } => Ok(Outcome::Optimal(shortest_of(best, makespan)?)),
        Verdict::NoSchedule => Ok(Outcome::NoSchedule),
        Verdict::Bound { bound } => stopped(best, bound, start),
    }
}
