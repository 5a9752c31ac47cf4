//! `solve` by workers: what it says of a project, and of the starts of a file.

ghost use Rattle.std.specs.Prelude.{◌≡◌, ◌≢◌, IfOk, IfErr, IfSome};
ghost use Rattle.std.specs.Arc.{arc_value};
ghost use Rattle.network.specs.Schedule.{IsFeasible};
ghost use Rattle.worker.specs.Solving.{IsNotLimit};
ghost use Rattle.devices.specs.declared.fault.Fault.TheVariants as faults;
ghost use Rattle.answers.specs.Answers.{IsStartedText};
ghost use Rattle.devices.specs.Faults.{exit_of, IsNoDeviceFault, IsSearchFault};
ghost use Rattle.psmax_run.specs.Outcomes.{IsRightRecord};
ghost use Rattle.answers.specs.Outcomes.{SaysOutcome};
ghost use Rattle.psmax_run.specs.Jobs.{IsJob};
ghost use Rattle.devices.specs.Texts.{GivesStarts, IsFirstStartsFault};
ghost use Rattle.psmax_run.specs.Runs.{RecordsWhereAsked};
ghost use Rattle.psmax_run.specs.declared.job.Job.TheVariants as jobs;
ghost use Rattle.psmax_run.specs.Searches.{IsAskedFor, IsSearchFaultOf, IsSearchReply};

use crate::job::{ONE_WORKER, SearchOptions};
use crate::recorded::outcome_record;
use answers::{Answer, solved_answer};
use devices::{Fault, Judged, Reply, judged_starts};
use network::{Project, Schedule};
use std::alloc::{AllocError, Global};
use std::sync::{Arc, Wait};
use std::thread::Threads;
use worker::{Gate, SolveFault, Solved, search};

/// The fault of a search that may have so many workers and takes.
fn search_fault(fault: SolveFault) -> Fault
    requires { IsNotLimit fault }
    ensures becomes { IsSearchFaultOf fault result }
    ensures status { exit_of result ≡ 1 }
    ensures fault { IsNoDeviceFault result }
{
    match fault {
        SolveFault::Limit => unreachable!(),
        SolveFault::Memory => Fault::Memory,
        SolveFault::Thread => Fault::Thread,
        SolveFault::OtherProject => Fault::OtherProject,
        SolveFault::Refused(_) => Fault::Refused,
    }
}

/// The answer about what so many workers have found as are asked for, with so many nodes.
fn asked_answer(
    alloc: Global,
    options: SearchOptions,
    solved: &Solved,
) -> Result<Answer, AllocError>
    requires { IsAskedFor options solved.now }
    ensures { IfOk result (λ a. SaysOutcome solved.now.outcome options.json a.exit a.text.items) }
{
    solved_answer(alloc, &solved.outcome, options.json)
}

/// What workers have found of a project, perhaps from a schedule of it. With it comes the record of the search, if that
/// is asked for and no limit stopped the search.
pub(crate) fn searched<G: Gate, R: Threads + Wait + Sync>(
    rt: &R,
    alloc: Global,
    options: SearchOptions,
    project: Arc<Project>,
    start: Option<Schedule>,
    gate: &G,
) -> Result<Reply, Fault>
    requires { IsJob (jobs.Solve options) }
    ensures found { IfOk result (IsSearchReply options (arc_value project) start) }
    ensures status { IfErr result (λ fault. exit_of fault ≡ 1) }
    ensures fault { IfErr result IsNoDeviceFault }
{
    let workers = options.workers.unwrap_or(ONE_WORKER);
    let (nodes, recorded) = (options.nodes, options.recorded);
    let (solved, trail) = match search(rt, alloc, project, workers, nodes, start, recorded, gate) {
        Ok(found) => found,
        Err(fault) => return Err(search_fault(fault)),
    };
    let answer = asked_answer(alloc, options, &solved)?;
    let Some(trail) = trail else {
        return Ok(Reply::new(answer, None));
    };
    let recorded = outcome_record(alloc, &solved.outcome, &trail)?;
    Ok(Reply::new(answer, recorded))
}

/// If the starts in a text are not a feasible schedule of the project, what they violate, without a search. Otherwise
/// what workers have found from them, and its record.
pub(crate) fn searched_from<G: Gate, R: Threads + Wait + Sync>(
    rt: &R,
    alloc: Global,
    options: SearchOptions,
    project: Project,
    text: &[u8],
    gate: &G,
) -> Result<Reply, Fault>
    requires { IsJob (jobs.Solve options) }
    ensures said { IfOk result (λ reply. GivesStarts project text.now
        (λ starts. IsStartedText project starts options.json reply.exit reply.text)) }
    ensures records { IfOk result (RecordsWhereAsked (jobs.Solve options)) }
    ensures recorded { IfOk result (λ reply. IfSome reply.recorded (IsRightRecord project options.json reply.text)) }
    ensures refused { IfErr result (λ fault. exit_of fault ≢ 1 → IsFirstStartsFault project text.now fault) }
    ensures fault { IfErr result IsNoDeviceFault }
    ensures searched { IfErr result (λ fault. IsSearchFault fault → GivesStarts project text.now (IsFeasible project)) }
{
    let project = Arc::new(alloc, project)?;
    match judged_starts(alloc, &project, text)? {
        Judged::Feasible(start) => searched(rt, alloc, options, project, Some(start), gate),
        Judged::Refused(answer) => Ok(Reply::new(answer, None)),
    }
}
