//! Searches by workers, played from lines of data.

use std::alloc::Global;
use std::process::Abort;
use std::sync::Wait;
use std::test::Fail;
use std::thread::Threads;

mod asked;
mod desks;
mod solving;

/// Plays each row, and looks for each thing that stands behind its arrow among those that are told.
fn plays<R: Threads + Wait + Sync + Abort>(
    rt: &R,
    alloc: Global,
    rows: &[&str],
) -> Result<(), Fail> {
    for row in rows {
        let (asked, wanted) = row.split_once(" -> ").unwrap_or((row, ""));
        let told = if asked == "two desks" {
            desks::two_told(rt, alloc)?
        } else if asked.starts_with("desk") {
            desks::told(rt, alloc, asked)?
        } else {
            solving::told(rt, alloc, asked)?
        };
        for thing in wanted.split(';') {
            let thing = format!(in alloc; "; {};", thing.trim())?;
            assert!(rt; told.contains(thing.as_str()), "{row}: {told}");
        }
    }
    Ok(())
}

#[test]
fn searches_have_outcomes_and_counts(rt: HostRuntime) -> Result<(), Fail> {
    let rows = [
        "one machine -> optimal 7; starts [0, 4, 0, 7]; counts [3, 2, 1, 2, 0, 0]; accepted [2]",
        "three on two -> optimal 4; starts [0, 0, 2, 0, 4]; counts [7, 2, 5, 2, 0, 0]",
        "backward lag -> optimal 5; starts [0, 0, 2, 1, 5]; counts [3, 2, 1, 2, 0, 0]",
        "both orders dead -> no schedule",
        "positive cycle -> no schedule; counts [0, 0, 0, 0, 0, 0]",
        "three on two; workers 64 -> optimal 4; workers 64",
        "one machine; takes 1 -> unknown bound 7; counts [3, 1, 0, 1, 2, 0]",
        "one machine; takes 1; recorded -> counts [3, 1, 0, 1, 2, 0]; trail 3",
        // A start that is shortest needs no take.
        "one machine; start 0 0 3 7 -> optimal 7; starts [0, 0, 3, 7]; counts [1, 0, 1, 0, 0, 0]",
        "three on two; start 0 0 3 7 -> OtherProject",
        "one machine; workers 65 -> Limit",
    ];
    plays(&rt, rt.alloc(), &rows)
}

/// Every worker comes to its end, however it ends. The fault of the first is told.
#[test]
fn workers_end_with_their_faults(rt: HostRuntime) -> Result<(), Fail> {
    let rows = [
        "three on two; workers 2; gate without memory -> Memory; calls 1; ended 2",
        "three on two; workers 2; gate refuses first \
            -> Refused(AheadOfBook { best: None }); calls 4; ended 2; gave up 0",
        "three on two; workers 2; gate refuses second -> Memory; calls 4; ended 2; gave up 0",
    ];
    plays(&rt, rt.alloc(), &rows)
}

#[test]
fn nodes_are_expanded_by_several_threads_without_the_lock(rt: HostRuntime) -> Result<(), Fail> {
    let rows = [
        "three on two; workers 2; gate holds second \
            -> optimal 4; gave up 0; calls 3; counts [7, 3, 4, 3, 0, 0]; workers 2; as seen; least 1",
        "three on two; workers 2; gate holds second; recorded \
            -> optimal 4; gave up 0; calls 3; counts [7, 3, 4, 3, 0, 0]; trail 7; ended 2",
        // What one worker finds is the ceiling of the other.
        "three on two; workers 2; gate holds fifth \
            -> gave up 0; third ceiling 4; counts [7, 3, 4, 3, 0, 0]",
    ];
    plays(&rt, rt.alloc(), &rows)
}

#[test]
fn desks_share_a_book(rt: HostRuntime) -> Result<(), Fail> {
    let rows = [
        // A ceiling that is too low costs work and no truth.
        "desk; tells 6 -> over; accepted 2; ahead 2; same at the desk; counts [3, 2, 1, 2, 0, 0]; \
            best [0, 4, 0, 7]; calls 4; then Done",
        // A worker whose node is given back ends.
        "desk; gives 0 \
            -> Refused(NotInHand); given back 1; counts [1, 0, 0, 1, 1, 0]; then Halted",
        // What a refused report found is no best.
        "desk; gives 2 \
            -> Refused(NotInHand); given back 1; counts [3, 1, 0, 2, 2, 0]; best []; then Halted",
        // Children that an offered schedule beats are not opened.
        "desk; start 0 0 3 7 \
            -> over; offered 1; counts [1, 1, 0, 1, 0, 0]; best [0, 0, 3, 7]; then Done",
        // A report ahead of the book is made again, and once only.
        "desk; start 0 5 0 8; ceiling 6 \
            -> over; accepted 2; ahead 1; counts [3, 2, 1, 2, 0, 0]; best [0, 4, 0, 7]; calls 3",
        "desk; start 0 5 0 8; ceiling 6; reports 9 \
            -> Refused(AheadOfBook { best: Some(8) }); accepted 0; ahead 2; same at the desk; \
            calls 2; counts [1, 0, 0, 1, 0, 1]; then HandsFull",
        // A worker without memory gives its node back.
        "desk; gate without memory -> Memory; calls 1; counts [1, 0, 0, 1, 1, 0]; then Halted",
    ];
    plays(&rt, rt.alloc(), &rows)
}

/// A node that is given back wakes up a worker that waits.
#[test]
fn two_desks_share_a_book(rt: HostRuntime) -> Result<(), Fail> {
    plays(&rt, rt.alloc(), &["two desks -> one lost true"])
}

/// However memory runs out, two workers find a shortest schedule, or say that it did, or that a thread couldn't start.
#[test]
fn allocations_of_two_workers(rt: HostRuntime) -> Result<(), Fail> {
    plays(&rt, rt.alloc(), &["three on two; workers 2 -> optimal 4"])
}

/// However memory runs out at a desk, the book is sound: it is at its end, or it is halted.
#[test]
fn allocations_of_a_desk(rt: HostRuntime) -> Result<(), Fail> {
    plays(
        &rt,
        rt.alloc(),
        &["desk -> over; counts [3, 2, 1, 2, 0, 0]; then Done"],
    )
}
