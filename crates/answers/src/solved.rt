//! What `solve` says of the outcome of a search.

ghost use Rattle.std.specs.Prelude.{◌≡◌, ◌++◌, IfOk, string_bytes, codes};
ghost use Rattle.network.specs.Schedule.{makespan};
ghost use Rattle.answers.specs.Answers.{stopped_text, bound_text, optimal_text, no_schedule_text, feasible_text, unknown_text};
ghost use Rattle.answers.specs.Outcomes.{SaysOutcome};
ghost use Rattle.answers.specs.Figured.{SaysFigures};

use crate::answer::Answer;
use crate::json_text::{Figures, figured_line, json_line};
use crate::texts::{put_starts, starts_text};
use network::{Outcome, Schedule};
use std::alloc::{AllocError, Global};

#[tactic(auto, unfolding(json::specs::Print::escape_byte))]
fn optimal_text(alloc: Global, best: &Schedule, json: bool) -> Result<String, AllocError>
    ensures { IfOk result (λ t. string_bytes t ≡ optimal_text json best.now.starts) }
{
    let makespan = best.makespan();
    if json {
        let number = Some(makespan);
        return json_line(alloc, number, number, Some(best.starts()), "optimal");
    }
    starts_text(alloc, "optimal", makespan, best.starts())
}

#[tactic(auto, unfolding(json::specs::Print::escape_byte))]
fn no_schedule_text(alloc: Global, json: bool) -> Result<String, AllocError>
    ensures { IfOk result (λ t. string_bytes t ≡ no_schedule_text json) }
{
    if json {
        return json_line(alloc, None, None, None, "no schedule");
    }
    String::from_str(alloc, "no schedule\n")
}

/// Where the search was stopped: a makespan with a bound, and the starts.
fn bounded_text(alloc: Global, best: &Schedule, bound: i64) -> Result<String, AllocError>
    ensures { IfOk result (λ t. string_bytes t ≡ stopped_text (makespan best.now.starts) bound best.now.starts) }
{
    let mut out = String::new(alloc);
    let makespan = best.makespan();
    writeln!(out, "feasible {makespan} bound {bound}")?;
    put_starts(&mut out, best.starts())?;
    Ok(out)
}

#[tactic(auto, unfolding(json::specs::Print::escape_byte))]
fn feasible_text(
    alloc: Global,
    best: &Schedule,
    bound: i64,
    json: bool,
) -> Result<String, AllocError>
    ensures { IfOk result (λ t. string_bytes t ≡ feasible_text json bound best.now.starts) }
{
    if json {
        let number = Some(best.makespan());
        return json_line(alloc, Some(bound), number, Some(best.starts()), "feasible");
    }
    bounded_text(alloc, best, bound)
}

fn bound_text(alloc: Global, bound: i64) -> Result<String, AllocError>
    ensures { IfOk result (λ t. string_bytes t ≡ codes "unknown" ++ bound_text bound) }
{
    let mut out = String::new(alloc);
    writeln!(out, "unknown bound {bound}")?;
    Ok(out)
}

#[tactic(auto, unfolding(json::specs::Print::escape_byte))]
fn unknown_text(alloc: Global, bound: i64, json: bool) -> Result<String, AllocError>
    ensures { IfOk result (λ t. string_bytes t ≡ unknown_text json bound) }
{
    if json {
        return json_line(alloc, Some(bound), None, None, "unknown");
    }
    bound_text(alloc, bound)
}

/// The answer that an outcome makes. The exit status is 3 where the search was stopped, and else 0.
pub fn solved_answer(alloc: Global, outcome: &Outcome, json: bool) -> Result<Answer, AllocError>
    ensures { IfOk result (λ a. SaysOutcome outcome.now json a.exit a.text.items) }
{
    let (text, exit) = match outcome {
        Outcome::Optimal(best) => (optimal_text(alloc, best, json)?, 0),
        Outcome::NoSchedule => (no_schedule_text(alloc, json)?, 0),
        Outcome::Stopped {
            best: Some(best),
            bound,
        } => (feasible_text(alloc, best, *bound, json)?, 3),
        Outcome::Stopped { best: None, bound } => (unknown_text(alloc, *bound, json)?, 3),
    };
    Ok(Answer::of(text, exit))
}

/// The answer that an outcome makes, as one line of JSON with the figures of the search.
pub fn figured_answer(
    alloc: Global,
    outcome: &Outcome,
    figures: &Figures,
) -> Result<Answer, AllocError>
    ensures { IfOk result (λ a. SaysFigures figures.now outcome.now a.exit a.text.items) }
{
    let (best, bound, status, exit) = match outcome {
        Outcome::Optimal(best) => (Some(best), Some(best.makespan()), "optimal", 0),
        Outcome::NoSchedule => (None, None, "no schedule", 0),
        Outcome::Stopped {
            best: Some(best),
            bound,
        } => (Some(best), Some(*bound), "feasible", 3),
        Outcome::Stopped { best: None, bound } => (None, Some(*bound), "unknown", 3),
    };
    let makespan = best.map(Schedule::makespan);
    let starts = best.map(Schedule::starts);
    let text = figured_line(alloc, figures, bound, makespan, starts, status)?;
    Ok(Answer::of(text, exit))
}
