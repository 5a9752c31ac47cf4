//! Projects that tests share.

ghost use Rattle.std.specs.Prelude.{◌≡◌, IsTrue};
ghost use Rattle.network.specs.Problem.{AreStarts};

use network::{Lag, MAX_START, Pair, Parts, Project};
use std::alloc::{AllocError, Global};
use std::test::Fail;

/// An arc.
pub fn lag(from: usize, to: usize, weight: i64) -> Lag
    ensures { result ≡ record { from = from; to = to; weight = weight } }
{
    Lag { from, to, weight }
}

/// A pair.
pub fn pair(before: usize, after: usize) -> Pair
    ensures { result ≡ record { before = before; after = after } }
{
    Pair { before, after }
}

/// Whether there is a start within the limits for each activity.
pub fn are_starts(project: &Project, starts: &[i64]) -> bool
    ensures { IsTrue result → AreStarts project.now starts.now }
{
    starts.len() == project.activity_count()
        && starts
            .iter()
            .all(|start| -MAX_START <= *start && *start <= MAX_START)
}

/// The lists of a project, without a row of demands.
fn lists(
    alloc: Global,
    durations: &[i64],
    capacities: &[i64],
    lags: &[Lag],
) -> Result<Parts, AllocError> {
    let durations = Vec::from_slice(alloc, durations)?;
    let capacities = Vec::from_slice(alloc, capacities)?;
    Ok(Parts {
        durations,
        demands: Vec::new(alloc),
        capacities,
        lags: Vec::from_slice(alloc, lags)?,
    })
}

/// Rows of demands.
fn rows_of(alloc: Global, demands: &[&[i64]]) -> Result<Vec<Vec<i64>>, AllocError> {
    let mut rows = Vec::new(alloc);
    for row in demands {
        rows.push(Vec::from_slice(alloc, row)?)?;
    }
    Ok(rows)
}

/// Rows of one demand each.
fn rows_of_one(alloc: Global, demands: &[i64]) -> Result<Vec<Vec<i64>>, AllocError> {
    let mut rows = Vec::new(alloc);
    for demand in demands {
        rows.push(vec![in alloc; *demand]?)?;
    }
    Ok(rows)
}

/// The project of these lists, with a row of demands for each activity.
pub fn project(
    alloc: Global,
    durations: &[i64],
    demands: &[&[i64]],
    capacities: &[i64],
    lags: &[Lag],
) -> Result<Project, Fail> {
    let mut parts = lists(alloc, durations, capacities, lags)?;
    parts.demands = rows_of(alloc, demands)?;
    Ok(Project::new(parts)?)
}

/// A project with one resource.
pub fn with_one_resource(
    alloc: Global,
    durations: &[i64],
    demands: &[i64],
    capacity: i64,
    lags: &[Lag],
) -> Result<Project, Fail> {
    let mut parts = lists(alloc, durations, &[capacity], lags)?;
    parts.demands = rows_of_one(alloc, demands)?;
    Ok(Project::new(parts)?)
}

/// Two activities of 3 and 4 periods that ask for the one unit of a resource.
pub fn one_machine(alloc: Global, lags: &[Lag]) -> Result<Project, Fail> {
    with_one_resource(alloc, &[0, 3, 4, 0], &[0, 1, 1, 0], 1, lags)
}

/// The same, where each of them has to start before the other ends.
pub fn both_orders_dead(alloc: Global) -> Result<Project, Fail> {
    one_machine(alloc, &[lag(1, 2, 0), lag(2, 1, -2)])
}

/// Three activities of 2 periods that ask for one of two units of a resource.
pub fn three_on_two(alloc: Global) -> Result<Project, Fail> {
    with_one_resource(alloc, &[0, 2, 2, 2, 0], &[0, 1, 1, 1, 0], 2, &[])
}

/// Three activities on three units of a resource, the third from 1 to 3 periods after the first.
pub fn backward_lag(alloc: Global) -> Result<Project, Fail> {
    let lags = [lag(1, 3, 1), lag(3, 1, -3)];
    with_one_resource(alloc, &[0, 2, 3, 2, 0], &[0, 2, 2, 1, 0], 3, &lags)
}

/// An activity of 5 periods, two of 4 after it that ask for the one unit of a resource, and one of 3 after
/// these.
pub fn two_between(alloc: Global) -> Result<Project, Fail> {
    let lags = [lag(1, 2, 5), lag(1, 3, 5), lag(2, 4, 4), lag(3, 4, 4)];
    with_one_resource(alloc, &[0, 5, 4, 4, 3, 0], &[0, 0, 1, 1, 0, 0], 1, &lags)
}
