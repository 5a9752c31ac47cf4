//! Runs of psmax, played from lines of data.

use crate::gates::{HoldingGate, Holds};
use devices::{Fault, OutputWriter, write_all};
use std::alloc::{AllocError, Global};
use std::process::Abort;
use std::sync::Wait;
use std::test::Fail;
use std::thread::Threads;

mod buffers;
mod row;

use buffers::taking;
use row::Row;

/// Two activities of 3 and 4 periods that need the same machine.
const TWO_JOBS: &str =
    "2 1 0 0\n0 1 0\n1 1 0\n2 1 0\n3 1 0\n0 1 0 0\n1 1 3 1\n2 1 4 1\n3 1 0 0\n1\n";

/// The same, where each has to start before the other ends.
const CLOSE_LAGS: &str = "2 1 0 0 0 1 0 1 1 1 2 [0] 2 1 1 1 [-2] 3 1 0 \
    0 1 0 0 1 1 3 1 2 1 4 1 3 1 0 0 1";

/// Three activities of 2 periods that share two machines.
const THREE_ON_TWO: &str = "3 1 0 0 0 1 0 1 1 0 2 1 0 3 1 0 4 1 0 \
    0 1 0 0 1 1 2 1 2 1 2 1 3 1 2 1 4 1 0 0 2";

/// Three activities with a lag and a greatest lag, that share three units.
const BACKWARD_LAG: &str = "3 1 0 0 0 1 0 1 1 1 3 [1] 2 1 0 3 1 1 1 [-3] 4 1 0 \
    0 1 0 0 1 1 2 2 2 1 3 2 3 1 2 1 4 1 0 0 3";

/// The canonical text of the two jobs.
const CANONICAL: &str = "2\t1\t0\t0\n0\t1\t0\n1\t1\t0\n2\t1\t0\n3\t1\t0\n\
    0\t1\t0\t0\n1\t1\t3\t1\n2\t1\t4\t1\n3\t1\t0\t0\n1\n";

/// A shortest schedule of the two jobs, and starts that are none.
const STARTS: &str = "0 0\n1 0\n2 3\n3 7\n";

const OVERLOADED: &str = "0 0\n1 0\n2 2\n3 6\n";

/// Records of the two jobs, and of those with close lags.
const RECORD: &str = "record 1\noptimal 7\nstarts 0 4 0 7\nsplit 0 1 2\ncut\nsolved\n";

const DEAD_RECORD: &str = "record 1\nno schedule\nsplit 0 1 2\ndead\ndead\n";

/// The text of a name; any other is a text itself.
fn text_of(name: &str) -> &str {
    match name {
        "two jobs" => TWO_JOBS,
        "close lags" => CLOSE_LAGS,
        "three on two" => THREE_ON_TWO,
        "backward lag" => BACKWARD_LAG,
        "canonical" => CANONICAL,
        "starts" => STARTS,
        "overloaded" => OVERLOADED,
        "record" => RECORD,
        "dead record" => DEAD_RECORD,
        text => text,
    }
}

/// Plays the call of each row through devices that don't fail. Behind the arrow stands the beginning of what the call
/// has to tell. With a gate that holds workers, what the gate saw follows.
fn plays<R: Threads + Wait + Sync + Abort>(
    rt: &R,
    alloc: Global,
    rows: &[&str],
    holds: Holds,
) -> Result<(), Fail> {
    for text in rows {
        let (row, gate) = (Row::of(text), HoldingGate::new(holds));
        let mut told = row.told(rt, alloc, &gate)?;
        if holds != Holds::Nobody {
            let seen = gate.seen();
            let (moments, calls, gave_up) = (seen.moments, seen.calls, seen.gave_up);
            told = format!(in alloc;
                "{moments} moments, {calls} calls, gave up {gave_up}: {told}"
            )?;
        }
        assert!(rt; told.starts_with(row.wanted), "{text}: {told}");
    }
    Ok(())
}

#[test]
fn answers_are_those_of_the_texts(rt: HostRuntime) -> Result<(), Fail> {
    let rows = [
        "solve --nodes 10 --json; two jobs \
            -> 0|{\"bound\":7,\"makespan\":7,\"starts\":[0,4,0,7],\"status\":\"optimal\"}\n||",
        "solve --nodes 10 --json; close lags \
            -> 0|{\"bound\":null,\"makespan\":null,\"starts\":null,\"status\":\"no schedule\"}\n||",
        "tidy; canonical -> 0|2\t1\t0\t0\n0\t1\t0\n1\t1\t0\n2\t1\t0\n3\t1\t0\n\
            0\t1\t0\t0\n1\t1\t3\t1\n2\t1\t4\t1\n3\t1\t0\t0\n1\n||",
        "verify --project p; dead record; close lags -> 0|proved no schedule\n||",
        "check --project p; ; 2 1 0 -> 2 ends before word 3|||",
        "tidy; 2 1 0 -> 2 ends before word 3|||",
        "verify --project p; record 2\n; two jobs -> 2 line 1: form|||",
        "verify --project p; record 1\n; two jobs -> 2 line 2: short|||",
        "verify --project p; record; close lags -> 4 line 3: start|||",
        "verify --project p; dead record; two jobs -> 4 line 4: leaf|||",
        "verify --project p; record 2\n; 2 1 0 -> 2 ends before word 3|||",
    ];
    plays(&rt, rt.alloc(), &rows, Holds::Nobody)
}

#[test]
fn workers_answer_and_record(rt: HostRuntime) -> Result<(), Fail> {
    let rows = [
        "solve --workers 1 --nodes 2; two jobs -> 0|optimal 7\n0 0\n1 4\n2 0\n3 7\n||",
        "solve --workers 1 --nodes 2; backward lag -> 0|optimal 5\n0 0\n1 0\n2 2\n3 1\n4 5\n||",
        "solve --workers 1 --nodes 2; three on two -> 0|optimal 4\n0 0\n1 0\n2 2\n3 0\n4 4\n||",
        "solve --workers 1 --nodes 1; two jobs -> 3|unknown bound 7\n||",
        "solve --workers 64 --nodes 100; three on two -> 0|optimal 4\n",
        // The project is judged before the starts.
        "solve --nodes 100 --start s; two jobs; 0 0\n0 0\n -> 2 line 2: repeated|||",
        "solve --nodes 100 --start s; 2 1; 0 0\n0 0\n -> 2 ends before word 2|||",
        "solve --nodes 10 --json --record r; two jobs \
            -> 0|{\"bound\":7,\"makespan\":7,\"starts\":[0,4,0,7],\"status\":\"optimal\"}\n\
            |record 1\noptimal 7\nstarts 0 4 0 7\nsplit 0 1 2\ncut\nsolved\n|",
        "solve --nodes 10 --record r; close lags \
            -> 0|no schedule\n|record 1\nno schedule\nsplit 0 1 2\ndead\ndead\n|",
        "solve --nodes 1 --record r; two jobs -> 3|unknown bound 7\n||",
        "solve --nodes 10 --start s --record r; two jobs; overloaded -> 4|overload 2 0 2\n||",
    ];
    plays(&rt, rt.alloc(), &rows, Holds::Nobody)
}

#[test]
fn gates_see_what_workers_do(rt: HostRuntime) -> Result<(), Fail> {
    let rows = [
        // A start that is shortest needs no node, and one that is refused no worker.
        "solve --nodes 100 --start s; two jobs; starts \
            -> 1 moments, 0 calls, gave up 0: 0|optimal 7\n0 0\n1 0\n2 3\n3 7\n||",
        "solve --nodes 100 --start s; two jobs; overloaded \
            -> 0 moments, 0 calls, gave up 0: 4|overload 2 0 2\n||",
        "solve --nodes 100 --start s --json; two jobs; overloaded \
            -> 0 moments, 0 calls, gave up 0: 4|overload 2 0 2\n||",
        // Two threads take, expand and check in three nodes without the lock, and end.
        "solve --nodes 100 --workers 2; three on two \
            -> 8 moments, 3 calls, gave up 0: 0|optimal 4\n",
    ];
    plays(&rt, rt.alloc(), &rows, Holds::Second)
}

/// So many workers search as are asked for, whatever else is asked for. Each is held at its end until all have come to
/// it.
#[test]
fn workers_are_as_many_as_asked_for(rt: HostRuntime) -> Result<(), Fail> {
    let rows = [
        "solve --workers 8; close lags -> 10 moments, 1 calls, gave up 0: 0|no schedule\n||",
        "solve --workers 8 --json; close lags -> 10 moments, 1 calls, gave up 0: \
            0|{\"bound\":null,\"makespan\":null,\"starts\":null,\"status\":\"no schedule\"}\n||",
        "solve --workers 8 --record r; close lags -> 10 moments, 1 calls, gave up 0: \
            0|no schedule\n|record 1\nno schedule\nsplit 0 1 2\ndead\ndead\n|",
        "solve --workers 8 --json --record r; close lags -> 10 moments, 1 calls, gave up 0: \
            0|{\"bound\":null,\"makespan\":null,\"starts\":null,\"status\":\"no schedule\"}\n\
            |record 1\nno schedule\nsplit 0 1 2\ndead\ndead\n|",
        "solve --workers 8 --start s; two jobs; starts -> 8 moments, 0 calls, gave up 0: \
            0|optimal 7\n0 0\n1 0\n2 3\n3 7\n||",
        "solve --workers 8 --start s --record r; two jobs; starts -> 8 moments, 0 calls, gave up 0: \
            0|optimal 7\n0 0\n1 0\n2 3\n3 7\n|record 1\noptimal 7\nstarts 0 0 3 7\ncut\n|",
        "solve --workers 8 --start s --json; two jobs; starts -> 8 moments, 0 calls, gave up 0: \
            0|{\"bound\":7,\"makespan\":7,\"starts\":[0,0,3,7],\"status\":\"optimal\"}\n||",
    ];
    plays(&rt, rt.alloc(), &rows, Holds::Ended(8))
}

#[test]
fn faults_are_those_of_the_workers(rt: HostRuntime) -> Result<(), Fail> {
    let without = [
        "solve --workers 1; two jobs \
        -> 2 moments, 1 calls, gave up 0: 1 out of memory|||",
    ];
    plays(&rt, rt.alloc(), &without, Holds::WithoutMemory)?;
    let refused = [
        "solve --workers 1; two jobs \
        -> 2 moments, 2 calls, gave up 0: 1 search refused|||",
    ];
    plays(&rt, rt.alloc(), &refused, Holds::Low)
}

/// Two threads that expand at the same time give a record that proves their answer.
#[test]
fn records_of_two_threads_are_right(rt: HostRuntime) -> Result<(), Fail> {
    let row = Row::of("solve --nodes 100 --workers 2 --record r; three on two -> 0|optimal 4\n");
    let gate = HoldingGate::new(Holds::Second);
    let told = row.told(&rt, rt.alloc(), &gate)?;
    assert!(&rt; told.starts_with(row.wanted), "{row:?} -> : {told}");
    assert_eq!(&rt; gate.seen().gave_up, 0);
    let verify = Row::verifying(&told, "three on two");
    let proved = verify.told(&rt, rt.alloc(), &HoldingGate::new(Holds::Nobody))?;
    assert!(&rt;
        proved.as_str() == "0|proved optimal 4\n||",
        "{verify:?} -> : {proved}"
    );
    Ok(())
}

#[test]
fn outputs_are_handed_all_that_is_left(rt: HostRuntime) -> Result<(), Fail> {
    for chunk in 1..=CANONICAL.len() {
        let mut out = OutputWriter::new(taking(rt.alloc(), chunk));
        if write_all(&mut out, CANONICAL.as_bytes()).is_err() {
            return Err(AllocError.into());
        }
        let out = out.into_inner();
        assert_eq!(&rt; out.taken.as_slice(), CANONICAL.as_bytes());
        assert_eq!(&rt; out.writes, CANONICAL.len().div_ceil(chunk));
    }
    Ok(())
}

/// The texts of faults that no run of the program shows at will; `tests/cases.jsonl` has the others.
#[test]
fn faults_have_their_texts(rt: HostRuntime) -> Result<(), Fail> {
    for (fault, text) in [
        (Fault::Memory, "out of memory"),
        (Fault::Thread, "cannot start a thread"),
        (Fault::OtherProject, "another project"),
        (Fault::Refused, "search refused"),
    ] {
        assert_eq!(&rt; format!(in rt.alloc(); "{fault}")?.as_str(), text);
    }
    Ok(())
}
