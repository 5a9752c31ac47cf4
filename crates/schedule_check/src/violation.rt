//! What starts violate.

ghost use Rattle.std.specs.Prelude.{◌≡◌, ◌<◌, ◌↔◌, ◌++◌, [], length, IfOk, OnOk};
ghost use Rattle.std.specs.List.{All};
ghost use Rattle.network.specs.Problem.{AreStarts, IsLag, IsTime};
ghost use Rattle.network.specs.Schedule.{IsFeasible};
ghost use Rattle.network.specs.Walk.{AreInside, AreLight};
ghost use Rattle.profile.specs.Overloads.{all_overloads};
ghost use Rattle.schedule_check.specs.Violations.{breaks, start_violations, lag_violations, overload_violations, violations};

use network::{Lag, Project};
use profile::overloads;
use std::alloc::{AllocError, Global};

/// What keeps a list of starts from being a feasible schedule.
#[derive(Clone, Copy, PartialEq, Eq, Debug)]
pub enum Violation {
    /// The start is at another time than 0.
    StartNotZero {
        found: i64,
    },
    /// Activity `to` starts less than `weight` periods after activity `from` starts.
    Lag {
        from: usize,
        to: usize,
        weight: i64,
    },
    /// At this unit of time, at which some activity starts, `used` units of the resource are in use, more than there
    /// are.
    Overload {
        time: i64,
        resource: usize,
        used: u64,
    },
}

/// Adds that the start is at another time than 0, where it is.
fn push_start(violations: &mut Vec<Violation>, starts: &[i64]) -> Result<(), AllocError>
    ensures { OnOk result (violations.new.items ≡ violations.old.items ++ start_violations starts.now) }
{
    if let Some(found) = starts.first() {
        if *found != 0 {
            violations.push(Violation::StartNotZero { found: *found })?;
        }
    }
    Ok(())
}

/// Whether the starts break the rule.
fn breaks(starts: &[i64], rule: &Lag) -> bool
    requires rule { IsLag (length starts.now) rule.now }
    requires within { All IsTime starts.now }
    ensures { result ≡ breaks starts.now rule.now }
{
    starts[rule.to] < starts[rule.from] + rule.weight
}

/// Adds each rule that the starts break, in order.
fn push_lags(
    violations: &mut Vec<Violation>,
    rules: &[Lag],
    starts: &[i64],
) -> Result<(), AllocError>
    requires inside { AreInside (length starts.now) rules.now }
    requires light { AreLight rules.now }
    requires within { All IsTime starts.now }
    ensures { OnOk result (violations.new.items ≡ violations.old.items ++ lag_violations starts.now rules.now) }
{
    for rule in rules {
        if breaks(starts, rule) {
            violations.push(Violation::Lag {
                from: rule.from,
                to: rule.to,
                weight: rule.weight,
            })?;
        }
    }
    Ok(())
}

/// Adds each overload at a start time, by time and then by resource.
fn push_overloads(
    alloc: Global,
    violations: &mut Vec<Violation>,
    project: &Project,
    starts: &[i64],
) -> Result<(), AllocError>
    requires { AreStarts project.now starts.now }
    ensures { OnOk result (violations.new.items
        ≡ violations.old.items ++ overload_violations (all_overloads project.now starts.now)) }
{
    let overloads = overloads(alloc, project, starts)?;
    for overload in &overloads {
        violations.push(Violation::Overload {
            time: overload.time,
            resource: overload.resource,
            used: overload.used,
        })?;
    }
    Ok(())
}

/// All that keeps the starts from being a feasible schedule of the project. First comes the start, if it is not at 0.
/// Then comes each broken rule, in the order of the rules, one that stands twice listed twice. Last comes each overload
/// at a start time, by time and then by resource.
///
/// With n activities, e given arcs and K resources it takes of the order of `n log n + n K + e`
/// steps.
pub fn violations(
    alloc: Global,
    project: &Project,
    starts: &[i64],
) -> Result<Vec<Violation>, AllocError>
    requires { AreStarts project.now starts.now }
    ensures list { IfOk result (λ v. v.items ≡ violations project.now starts.now) }
    ensures none { IfOk result (λ v. (v.items ≡ []) ↔ IsFeasible project.now starts.now) }
{
    let rules = project.arcs(alloc, &[])?;
    let mut violations = Vec::new(alloc);
    push_start(&mut violations, starts)?;
    push_lags(&mut violations, &rules, starts)?;
    push_overloads(alloc, &mut violations, project, starts)?;
    Ok(violations)
}
