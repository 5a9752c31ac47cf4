//! The texts of answers.

ghost use Rattle.std.specs.Prelude.{◌≡◌, ◌++◌, ◌∷◌, [], ◌<◌, length, OnOk, IfOk, string_bytes, codes};
ghost use Rattle.std.specs.Fmt.{decimal};
ghost use Rattle.answers.specs.Answers.{starts_text, cycle_line, feasible_line, proved_line, start_lines, violation_line, violations_text};

use network::Verdict;
use schedule_check::Violation;
use std::alloc::{AllocError, Global};

fn put_start(out: &mut String, activity: usize, start: i64) -> Result<(), AllocError>
    ensures { OnOk result (string_bytes out.new ≡ string_bytes out.old ++ start_lines activity (start ∷ [])) }
{
    writeln!(out, "{activity} {start}")
}

/// A line for each activity: its number and its start.
pub(crate) fn put_starts(out: &mut String, starts: &[i64]) -> Result<(), AllocError>
    ensures { OnOk result (string_bytes out.new ≡ string_bytes out.old ++ start_lines 0 starts.now) }
{
    for (activity, start) in starts.iter().enumerate() {
        put_start(out, activity, *start)?;
    }
    Ok(())
}

/// A word with a makespan, and the starts.
pub fn starts_text(
    alloc: Global,
    word: &str,
    makespan: i64,
    starts: &[i64],
) -> Result<String, AllocError>
    ensures { IfOk result (λ t. string_bytes t ≡ starts_text word.now makespan starts.now) }
{
    let mut out = String::new(alloc);
    writeln!(out, "{word} {makespan}")?;
    put_starts(&mut out, starts)?;
    Ok(out)
}

/// The least activity that tops a positive cycle.
pub fn cycle_text(alloc: Global, top: usize) -> Result<String, AllocError>
    ensures { IfOk result (λ t. string_bytes t ≡ cycle_line top) }
{
    let mut out = String::new(alloc);
    writeln!(out, "positive cycle {top}")?;
    Ok(out)
}

/// That starts with this last one are a feasible schedule.
pub fn feasible_text(alloc: Global, makespan: i64) -> Result<String, AllocError>
    ensures { IfOk result (λ t. string_bytes t ≡ feasible_line makespan) }
{
    let mut out = String::new(alloc);
    writeln!(out, "feasible {makespan}")?;
    Ok(out)
}

fn put_violation(out: &mut String, violation: &Violation) -> Result<(), AllocError>
    ensures { OnOk result (string_bytes out.new ≡ string_bytes out.old ++ violation_line violation.now) }
{
    match *violation {
        Violation::StartNotZero { found } => writeln!(out, "start {found}"),
        Violation::Lag { from, to, weight } => writeln!(out, "lag {from} {to} {weight}"),
        Violation::Overload {
            time,
            resource,
            used,
        } => writeln!(out, "overload {time} {resource} {used}"),
    }
}

/// A line for each violation.
pub fn violations_text(alloc: Global, found: &[Violation]) -> Result<String, AllocError>
    ensures { IfOk result (λ t. string_bytes t ≡ violations_text found.now) }
{
    let mut out = String::new(alloc);
    for violation in found {
        put_violation(&mut out, violation)?;
    }
    Ok(out)
}

/// What a record proves of a project.
pub fn proved_text(alloc: Global, proved: Verdict) -> Result<String, AllocError>
    ensures { IfOk result (λ t. string_bytes t ≡ proved_line proved) }
{
    let mut out = String::new(alloc);
    match proved {
        Verdict::Optimal { makespan } => writeln!(out, "proved optimal {makespan}")?,
        Verdict::Bound { bound } => writeln!(out, "proved bound {bound}")?,
        Verdict::NoSchedule => writeln!(out, "proved no schedule")?,
    }
    Ok(out)
}
