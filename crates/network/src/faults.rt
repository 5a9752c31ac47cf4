//! Finds the first fault of parts that are to be a project.

ghost use Rattle.std.specs.Prelude.{◌≡◌, ◌<◌, length, vec_len, nat_eq};
ghost use Rattle.std.specs.Result.{result_err};
ghost use Rattle.std.specs.List.{list_all};
ghost use Rattle.network.specs.Problem.{problem_of};
ghost use Rattle.network.specs.Faults.{is_amount, is_zero, shape_fault, count_fault, dummy_fault, amount_fault, lag_fault, arc_fault, first_fault};

use crate::limits::{MAX_ACTIVITIES, MAX_AMOUNT, MAX_LAG_WEIGHT, MAX_LAGS, MAX_RESOURCES};
use crate::parts::{Lag, Parts, ProjectFault, Quantity};

/// Whether the parts are those of a project, by one test after another.
pub(crate) fn check(parts: &Parts) -> Result<(), ProjectFault>
    ensures { result_err result ≡ first_fault (problem_of parts.now) }
{
    check_shape(parts)?;
    check_counts(parts)?;
    check_dummy(parts, 0)?;
    check_dummy(parts, parts.durations.len() - 1)?;
    check_amounts(parts)?;
    check_lags(parts.lags.as_slice(), parts.durations.len())
}

#[tactic(auto, using(crate::proofs::FaultLaws::rows_all))]
fn check_shape(parts: &Parts) -> Result<(), ProjectFault>
    ensures { result_err result ≡ shape_fault (problem_of parts.now) }
{
    let activities = parts.durations.len();
    if activities < 2 {
        return Err(ProjectFault::Shape);
    }
    if parts.demands.len() != activities {
        return Err(ProjectFault::Shape);
    }
    if !are_long(parts.demands.as_slice(), parts.capacities.len()) {
        return Err(ProjectFault::Shape);
    }
    Ok(())
}

fn are_long(rows: &[Vec<i64>], columns: usize) -> bool
    ensures { result ≡ list_all (λ row. nat_eq (length row.items) columns) rows.now }
{
    rows.iter().all(|row| row.len() == columns)
}

fn check_counts(parts: &Parts) -> Result<(), ProjectFault>
    ensures { result_err result ≡ count_fault (problem_of parts.now) }
{
    if parts.durations.len() > MAX_ACTIVITIES {
        return Err(ProjectFault::Limit {
            which: Quantity::Activities,
        });
    }
    if parts.capacities.len() > MAX_RESOURCES {
        return Err(ProjectFault::Limit {
            which: Quantity::Resources,
        });
    }
    if parts.lags.len() > MAX_LAGS {
        return Err(ProjectFault::Limit {
            which: Quantity::Lags,
        });
    }
    Ok(())
}

fn check_dummy(parts: &Parts, row: usize) -> Result<(), ProjectFault>
    requires duration { row < vec_len parts.now.durations }
    requires demands { row < vec_len parts.now.demands }
    ensures { result_err result ≡ dummy_fault (problem_of parts.now) row }
{
    if parts.durations[row] == 0 && are_zero(parts.demands[row].as_slice()) {
        Ok(())
    } else {
        Err(ProjectFault::Dummy { row })
    }
}

fn are_zero(values: &[i64]) -> bool
    ensures { result ≡ list_all is_zero values.now }
{
    values.iter().all(|value| *value == 0)
}

fn are_amounts(values: &[i64]) -> bool
    ensures { result ≡ list_all is_amount values.now }
{
    values.iter().all(|value| is_amount(*value))
}

fn rows_are_amounts(rows: &[Vec<i64>]) -> bool
    ensures { result ≡ list_all (λ row. list_all is_amount row.items) rows.now }
{
    rows.iter().all(|row| are_amounts(row.as_slice()))
}

fn is_amount(value: i64) -> bool
    ensures { result ≡ is_amount value }
{
    0 <= value && value <= MAX_AMOUNT
}

#[tactic(auto, using(crate::proofs::FaultLaws::rows_all))]
fn check_amounts(parts: &Parts) -> Result<(), ProjectFault>
    ensures { result_err result ≡ amount_fault (problem_of parts.now) }
{
    if !are_amounts(parts.durations.as_slice()) {
        return Err(ProjectFault::Limit {
            which: Quantity::Duration,
        });
    }
    if !rows_are_amounts(parts.demands.as_slice()) {
        return Err(ProjectFault::Limit {
            which: Quantity::Demand,
        });
    }
    if !are_amounts(parts.capacities.as_slice()) {
        return Err(ProjectFault::Limit {
            which: Quantity::Capacity,
        });
    }
    Ok(())
}

fn check_lags(lags: &[Lag], activities: usize) -> Result<(), ProjectFault>
    ensures { result_err result ≡ lag_fault activities 0 0 lags.now }
{
    let mut last = 0;
    for (place, lag) in lags.iter().enumerate() {
        check_lag(lag, place, last, activities)?;
        last = lag.from;
    }
    Ok(())
}

fn check_lag(lag: &Lag, place: usize, last: usize, activities: usize) -> Result<(), ProjectFault>
    ensures { result_err result ≡ arc_fault activities place last lag.now }
{
    if lag.from >= activities {
        return Err(ProjectFault::Activity {
            row: place,
            id: lag.from,
        });
    }
    if lag.to >= activities {
        return Err(ProjectFault::Activity {
            row: place,
            id: lag.to,
        });
    }
    if lag.weight < -MAX_LAG_WEIGHT || MAX_LAG_WEIGHT < lag.weight {
        return Err(ProjectFault::Limit {
            which: Quantity::Lag,
        });
    }
    if lag.from < last {
        return Err(ProjectFault::Shape);
    }
    Ok(())
}
