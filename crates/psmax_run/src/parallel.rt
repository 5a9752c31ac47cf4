//! A run over devices in which workers search.

ghost use Rattle.std.specs.Prelude.{◌≡◌, ◌≢◌, ◌<◌, true, Some, Err, IfOk, IfErr};
ghost use Rattle.devices.specs.declared.fault.Fault.TheVariants as faults;
ghost use Rattle.psmax_run.specs.declared.job.Job.TheVariants as jobs;
ghost use Rattle.devices.specs.Runs.{span, HasRead};
ghost use Rattle.psmax_run.specs.Runs.{IsNoReply, IsReply, RecordsWhereAsked, Runs};
ghost use Rattle.psmax_run.specs.Jobs.{IsJob, has_workers};
ghost use Rattle.devices.specs.Texts.{search_inputs, IfTextsKnown};

use crate::job::SearchOptions;
use crate::workers::{searched, searched_from};
use devices::{Ended, Fault, Input, Output, Reply, read_project, read_text, write_reply};
use std::alloc::Global;
use std::sync::{Arc, Wait};
use std::thread::Threads;
use worker::Gate;

/// The reply of a search by workers to what its inputs hold. The project is read and judged before the
/// starts, and these before anything is searched.
fn searched_reply<I: Input, S: Input, G: Gate, R: Threads + Wait + Sync>(
    rt: &R,
    alloc: Global,
    options: SearchOptions,
    input: &mut I,
    second: &mut S,
    gate: &G,
) -> Result<Reply, Fault>
    requires job { IsJob (jobs.Solve options) }
    requires workers { has_workers (jobs.Solve options) ≡ true }
    requires input { I.failed input.old < u64.MAX }
    requires second { S.failed second.old < u64.MAX }
    ensures said { IfOk result (λ reply. IfTextsKnown options.start (I.left input.old) (S.left second.old)
        (IsReply (jobs.Solve options) reply)) }
    ensures records { IfOk result (RecordsWhereAsked (jobs.Solve options)) }
    ensures refused { IfErr result (IsNoReply (jobs.Solve options) (I.left input.old) (S.left second.old)) }
    ensures unwritten { IfErr result (λ fault. fault ≢ faults.WriteFailed) }
    ensures read { HasRead (search_inputs options.start) (result ≡ Err faults.ReadFailed)
        (span I.left I.failed input.old input.new) (span S.left S.failed second.old second.new) }
{
    let project = read_project(alloc, input)?;
    if !options.start {
        let project = Arc::new(alloc, project)?;
        return searched(rt, alloc, options, project, None, gate);
    }
    let starts = read_text(alloc, second)?;
    searched_from(rt, alloc, options, project, &starts, gate)
}

/// Runs a search by workers. It reads what that needs, and writes its answer and then its record, if that is asked for,
/// and nothing else. The workers pass the gate. An input or output that the search doesn't use is handed an empty one.
/// After a failure a device isn't called again.
pub fn run_parallel<I: Input, S: Input, O: Output, D: Output, G: Gate, R: Threads + Wait + Sync>(
    rt: &R,
    alloc: Global,
    options: SearchOptions,
    input: &mut I,
    second: &mut S,
    out: &mut O,
    record_out: &mut D,
    gate: &G,
) -> Ended
    requires job { IsJob (jobs.Solve options) }
    requires workers { has_workers (jobs.Solve options) ≡ true }
    requires input { I.failed input.old < u64.MAX }
    requires second { S.failed second.old < u64.MAX }
    requires out { O.failed out.old < u64.MAX }
    requires record_out { D.failed record_out.old < u64.MAX }
    ensures ends { Runs (jobs.Solve options) (I.left input.old) (S.left second.old)
        (span O.held O.failed out.old out.new) (span D.held D.failed record_out.old record_out.new) result }
    ensures read { HasRead (search_inputs options.start) (result.fault ≡ Some faults.ReadFailed)
        (span I.left I.failed input.old input.new) (span S.left S.failed second.old second.new) }
{
    match searched_reply(rt, alloc, options, input, second, gate) {
        Ok(reply) => write_reply(out, record_out, &reply),
        Err(fault) => Ended::with(fault),
    }
}
