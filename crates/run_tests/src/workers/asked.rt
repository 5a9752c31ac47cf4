//! What a line of data asks of workers.

use crate::gates::Holds;
use network::{Project, Schedule};
use node_tests::{are_starts, backward_lag, both_orders_dead, lag, one_machine, three_on_two};
use schedule_check::accept;
use std::alloc::Global;
use std::sync::Arc;
use std::test::Fail;

/// What the words of a row ask for, with a semicolon between.
#[derive(Clone, Copy)]
pub(super) struct WorkerRow<'a> {
    pub(super) project: &'a str,
    pub(super) workers: usize,
    pub(super) takes: u64,
    /// Starts of one machine.
    pub(super) starts: &'a str,
    pub(super) recorded: bool,
    pub(super) holds: Holds,
    /// A makespan that is offered to the shared ceiling.
    pub(super) tells: u64,
    /// A node that is given back behind its worker's back.
    pub(super) gives_back: Option<u64>,
    /// The ceiling of the first reports, and how many these are.
    pub(super) ceiling: Option<i64>,
    pub(super) lowered: u64,
}

/// What a row asks for: one worker, 100 takes and a gate that holds nobody unless it says more.
pub(super) fn asked_by(row: &str) -> WorkerRow<'_> {
    let (project, rest) = row.split_once("; ").unwrap_or((row, ""));
    let mut asked = WorkerRow {
        project,
        workers: 1,
        takes: 100,
        starts: "",
        recorded: false,
        holds: Holds::Nobody,
        tells: u64::MAX,
        gives_back: None,
        ceiling: None,
        lowered: 1,
    };
    for part in rest.split(';') {
        let part = part.trim();
        let (word, value) = part.split_once(' ').unwrap_or((part, ""));
        let number = value.parse::<u64>().unwrap_or(0);
        match word {
            "workers" => asked.workers = number as usize,
            "takes" => asked.takes = number,
            "start" => asked.starts = value,
            "recorded" => asked.recorded = true,
            "gate" => asked.holds = Holds::of(value),
            "tells" => asked.tells = number,
            "gives" => asked.gives_back = Some(number),
            "ceiling" => asked.ceiling = i64::try_from(number).ok(),
            "reports" => asked.lowered = number,
            _ => {}
        }
    }
    asked
}

/// The project of a name.
pub(super) fn project_of(alloc: Global, name: &str) -> Result<Project, Fail> {
    match name {
        "three on two" => three_on_two(alloc),
        "backward lag" => backward_lag(alloc),
        "both orders dead" => both_orders_dead(alloc),
        "positive cycle" => one_machine(alloc, &[lag(1, 2, 5), lag(2, 1, -4)]),
        _ => one_machine(alloc, &[]),
    }
}

/// The starts of a text, with blanks between.
fn read_starts(alloc: Global, text: &str) -> Result<Vec<i64>, Fail> {
    let mut starts = Vec::new(alloc);
    for start in text.split(' ') {
        starts.push(start.parse::<i64>()?)?;
    }
    Ok(starts)
}

/// The schedule of one machine of these starts, with blanks between; none without starts.
pub(super) fn schedule_of(alloc: Global, text: &str) -> Result<Option<Schedule>, Fail> {
    if text.is_empty() {
        return Ok(None);
    }
    let project = Arc::new(alloc, one_machine(alloc, &[])?)?;
    let starts = read_starts(alloc, text)?;
    if !are_starts(&project, &starts) {
        return Err("these are no starts".into());
    }
    Ok(Some(accept(alloc, project, starts)?))
}
