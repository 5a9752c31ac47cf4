//! Heads and tails of small projects.

use crate::projects::two_between;
use longest_path::{Matrix, heads, least_starts, longest, tails};
use network::Project;
use std::alloc::Global;
use std::process::Abort;
use std::test::Fail;

/// That two lists are equal.
fn assert_list(rt: &impl Abort, found: &[i64], wanted: &[i64]) {
    assert_eq!(rt; found, wanted);
}

/// That the heads, the least starts and the tails of a matrix are those of four activities.
fn assert_ends(
    rt: &impl Abort,
    alloc: Global,
    project: &Project,
    matrix: &Matrix,
) -> Result<(), Fail> {
    assert!(rt; matrix.activity_count() == project.activity_count());
    let earliest = [0, 0, 5, 5, 9, 12];
    assert_list(rt, &least_starts(alloc, matrix)?, &earliest);
    assert_list(rt, &heads(alloc, matrix)?, &earliest);
    assert_list(rt, &tails(alloc, project, matrix)?, &[12, 7, 3, 3, 0, 0]);
    Ok(())
}

#[test]
fn heads_and_tails_of_four_activities(rt: HostRuntime) -> Result<(), Fail> {
    let project = two_between(rt.alloc())?;
    let matrix = longest(rt.alloc(), &project, &[])?;
    assert_ends(&rt, rt.alloc(), &project, &matrix)
}
