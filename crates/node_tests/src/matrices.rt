//! Matrices with arcs that are inserted and taken back.

use crate::projects::one_machine;
use longest_path::{MarkedMatrix, Matrix, PathFault, longest};
use network::MAX_LAG_WEIGHT;
use std::alloc::{AllocError, Global};
use std::process::Abort;
use std::test::Fail;

/// The entries of a matrix by rows, a dash where there is no walk.
fn told(alloc: Global, matrix: &Matrix) -> Result<String, AllocError> {
    let mut text = String::new(alloc);
    for a in 0..matrix.activity_count() {
        text.push_str("/")?;
        for b in 0..matrix.activity_count() {
            match matrix.get(a, b) {
                Some(weight) => write!(text, " {weight}")?,
                None => text.push_str(" -")?,
            }
        }
    }
    Ok(text)
}

/// What is done to a matrix.
#[derive(Clone, Copy)]
enum Step {
    Insert(usize, usize, i64),
    Mark,
    Back,
}

/// Inserts an arc, and says what comes of it.
fn insert(
    rt: &impl Abort,
    marked: &mut MarkedMatrix,
    i: usize,
    j: usize,
    w: i64,
) -> Result<(), PathFault> {
    assert!(rt; -MAX_LAG_WEIGHT <= w && w <= MAX_LAG_WEIGHT);
    let size = marked.matrix().activity_count();
    assert!(rt; i < size && j < size);
    marked.insert(i, j, w)
}

/// Does a step: the fault of an arc that makes a positive cycle, if it does.
fn play(rt: &impl Abort, marked: &mut MarkedMatrix, step: Step) -> Result<Option<PathFault>, Fail> {
    match step {
        Step::Insert(i, j, w) => match insert(rt, marked, i, j, w) {
            Ok(()) => Ok(None),
            Err(PathFault::Memory) => Err(Fail::from(AllocError)),
            Err(fault) => Ok(Some(fault)),
        },
        Step::Mark => {
            marked.mark()?;
            Ok(None)
        }
        Step::Back => {
            assert!(rt; marked.mark_count() > 0);
            marked.go_back();
            Ok(None)
        }
    }
}

/// A matrix as text, behind a fault if there was one.
fn told_after(
    alloc: Global,
    fault: Option<PathFault>,
    matrix: &Matrix,
) -> Result<String, AllocError> {
    let entries = told(alloc, matrix)?;
    match fault {
        Some(fault) => format!(in alloc; "{fault:?} {entries}"),
        None => Ok(entries),
    }
}

/// Does a step, and looks at what the matrix is then.
fn assert_step(
    rt: &impl Abort,
    alloc: Global,
    marked: &mut MarkedMatrix,
    step: Step,
    wanted: &str,
) -> Result<(), Fail> {
    let fault = play(rt, marked, step)?;
    let found = told_after(alloc, fault, marked.matrix())?;
    assert_eq!(rt; found.as_str(), wanted);
    Ok(())
}

/// Does steps to the matrix of two activities, and looks at it after each.
fn plays(rt: &impl Abort, alloc: Global, marked: &mut MarkedMatrix) -> Result<(), Fail> {
    for (step, wanted) in [
        (Step::Mark, "/ 0 0 0 4/ - 0 - 3/ - - 0 4/ - - - 0"),
        (
            Step::Insert(1, 2, 3),
            "/ 0 0 3 7/ - 0 3 7/ - - 0 4/ - - - 0",
        ),
        (
            Step::Insert(1, 2, 2),
            "/ 0 0 3 7/ - 0 3 7/ - - 0 4/ - - - 0",
        ),
        (Step::Mark, "/ 0 0 3 7/ - 0 3 7/ - - 0 4/ - - - 0"),
        (
            Step::Insert(2, 1, -4),
            "/ 0 0 3 7/ - 0 3 7/ - -4 0 4/ - - - 0",
        ),
        (
            Step::Insert(2, 1, -2),
            "PositiveCycle { at: 2 } / 0 0 3 7/ - 0 3 7/ - -4 0 4/ - - - 0",
        ),
        (Step::Back, "/ 0 0 3 7/ - 0 3 7/ - - 0 4/ - - - 0"),
        (Step::Back, "/ 0 0 0 4/ - 0 - 3/ - - 0 4/ - - - 0"),
    ] {
        assert_step(rt, alloc, marked, step, wanted)?;
    }
    Ok(())
}

#[test]
fn arcs_are_inserted_and_taken_back(rt: HostRuntime) -> Result<(), Fail> {
    let matrix = longest(rt.alloc(), &one_machine(rt.alloc(), &[])?, &[])?;
    let mut marked = MarkedMatrix::new(rt.alloc(), matrix);
    plays(&rt, rt.alloc(), &mut marked)
}
