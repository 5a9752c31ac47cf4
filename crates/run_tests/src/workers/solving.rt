//! Searches by threads, and what is told of them.

use crate::gates::{HoldingGate, Holds, Seen};
use crate::workers::asked::{WorkerRow, asked_by, project_of, schedule_of};
use book::Counts;
use network::{Outcome, Schedule};
use std::alloc::{AllocError, Global};
use std::sync::{Arc, Wait};
use std::test::Fail;
use std::thread::Threads;
use worker::{SolveFault, Solved, search};

/// How many nodes were opened, checked in, cut and taken, and are open and in hand.
pub(super) fn numbers(counts: &Counts) -> [u64; 6] {
    [
        counts.opened,
        counts.checked,
        counts.cut,
        counts.taken,
        counts.waiting,
        counts.hand,
    ]
}

/// What was found, and how many entries the trail has.
type Searched = Result<(Solved, usize), SolveFault>;

/// Searches as a row asks, with a gate.
fn searched<R: Threads + Wait + Sync>(
    rt: &R,
    alloc: Global,
    asked: &WorkerRow<'_>,
    gate: &HoldingGate,
) -> Result<Searched, Fail> {
    let project = Arc::new(alloc, project_of(alloc, asked.project)?)?;
    let start = schedule_of(alloc, asked.starts)?;
    let (workers, takes, recorded) = (asked.workers, asked.takes, asked.recorded);
    match search(rt, alloc, project, workers, takes, start, recorded, gate) {
        Ok((solved, trail)) => {
            let entries = trail.as_ref().map_or(0, |trail| trail.entries().len());
            Ok(Ok((solved, entries)))
        }
        Err(fault) => Ok(Err(fault)),
    }
}

/// A verdict, and the starts of the best schedule.
fn outcome_text(alloc: Global, outcome: &Outcome) -> Result<String, AllocError> {
    match outcome {
        Outcome::Optimal(best) => {
            let (makespan, starts) = (best.makespan(), best.starts());
            format!(in alloc; "optimal {makespan}; starts {starts:?}")
        }
        Outcome::NoSchedule => String::from_str(alloc, "no schedule"),
        Outcome::Stopped { best: None, bound } => format!(in alloc; "unknown bound {bound}"),
        Outcome::Stopped {
            best: Some(best),
            bound,
        } => {
            let (makespan, starts) = (best.makespan(), best.starts());
            format!(in alloc; "feasible {makespan} bound {bound}; starts {starts:?}")
        }
    }
}

/// How many reports of each worker were accepted, the least of these, and whether they are those that the gate saw.
fn shares_text(alloc: Global, accepted: &[u64], seen: Seen) -> Result<String, AllocError> {
    let mut all = 0u64;
    for of_one in accepted {
        all = all.saturating_add(*of_one);
    }
    let is_seen = accepted.first() == Some(&seen.of_first) && all == seen.accepted;
    let least = accepted.iter().min().copied().unwrap_or(0);
    let as_seen = if is_seen { "as seen" } else { "not as seen" };
    format!(in alloc; "accepted {accepted:?}; least {least}; {as_seen}")
}

/// The schedule's starts; none without one.
pub(super) fn starts_of(best: Option<&Schedule>) -> &[i64] {
    match best {
        Some(best) => best.starts(),
        None => &[],
    }
}

/// What is told of a search and its trail.
fn solved_text(
    alloc: Global,
    solved: &Solved,
    trail: usize,
    seen: Seen,
) -> Result<String, AllocError> {
    let (calls, ended, gave_up, ceiling) = (seen.calls, seen.ended, seen.gave_up, seen.ceiling);
    let (counts, workers) = (numbers(&solved.counts), solved.per_worker.len());
    let outcome = outcome_text(alloc, &solved.outcome)?;
    let shares = shares_text(alloc, &solved.per_worker, seen)?;
    format!(in alloc;
        "; {outcome}; counts {counts:?}; workers {workers}; {shares}; trail {trail}; calls {calls}; \
        ended {ended}; gave up {gave_up}; third ceiling {ceiling};"
    )
}

/// What is told of a search that ended with a fault. Want of memory ends the test unless the gate has none, and so does
/// want of a thread.
fn fault_text(alloc: Global, fault: SolveFault, holds: Holds, seen: Seen) -> Result<String, Fail> {
    let (calls, ended, gave_up) = (seen.calls, seen.ended, seen.gave_up);
    match fault {
        SolveFault::Memory if !holds.lacks_memory(calls) => Err(SolveFault::Memory.into()),
        // The other worker came to its end before the gate made its fault.
        SolveFault::Refused(_) if matches!(holds, Holds::Fails(_)) && calls < 4 => {
            Err(SolveFault::Memory.into())
        }
        SolveFault::Thread => Err(SolveFault::Thread.into()),
        fault => Ok(format!(in alloc;
            "; {fault:?}; calls {calls}; ended {ended}; gave up {gave_up};"
        )?),
    }
}

/// What is told of the search that a row asks for.
pub(super) fn told<R: Threads + Wait + Sync>(
    rt: &R,
    alloc: Global,
    row: &str,
) -> Result<String, Fail> {
    let asked = asked_by(row);
    let gate = HoldingGate::new(asked.holds);
    match searched(rt, alloc, &asked, &gate)? {
        Ok((solved, trail)) => Ok(solved_text(alloc, &solved, trail, gate.seen())?),
        Err(fault) => fault_text(alloc, fault, asked.holds, gate.seen()),
    }
}
