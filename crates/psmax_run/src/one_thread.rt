//! A run over devices, in one thread.

ghost use Rattle.std.specs.Prelude.{◌≡◌, ◌≢◌, ◌<◌, false, Some, Err, IfOk, IfErr};
ghost use Rattle.devices.specs.declared.fault.Fault.TheVariants as faults;
ghost use Rattle.devices.specs.Faults.{exit_of, IsInputFault};
ghost use Rattle.devices.specs.Runs.{absent, span, HasRead};
ghost use Rattle.psmax_run.specs.Runs.{Runs};
ghost use Rattle.psmax_run.specs.Jobs.{IsJob, has_workers, inputs_of, reads_second, IsAnswer, IsRefusal};
ghost use Rattle.devices.specs.Texts.{IfTextsKnown};

use crate::job::Job;
use crate::jobs::{check, earliest, solve, tidy};
use answers::Answer;
use devices::{Ended, Fault, Input, Output, read_both, read_project, write_answer};
use std::alloc::Global;

/// The answer of a job without workers to what its inputs hold. A project is read and judged before
/// starts are read.
fn job_answer<I: Input, S: Input>(
    alloc: Global,
    job: Job,
    input: &mut I,
    second: &mut S,
) -> Result<Answer, Fault>
    requires job { IsJob job }
    requires alone { has_workers job ≡ false }
    requires input { I.failed input.old < u64.MAX }
    requires second { S.failed second.old < u64.MAX }
    ensures said { IfOk result (λ a. IfTextsKnown (reads_second job) (I.left input.old) (S.left second.old)
        (λ text more. IsAnswer job text more a.exit a.text.items)) }
    ensures refused { IfErr result (λ fault. exit_of fault ≢ 1 → IfTextsKnown (reads_second job) (I.left input.old) (S.left second.old)
        (λ text more. IsRefusal job text more fault)) }
    ensures fault { IfErr result IsInputFault }
    ensures read { HasRead (inputs_of job) (result ≡ Err faults.ReadFailed)
        (span I.left I.failed input.old input.new) (span S.left S.failed second.old second.new) }
{
    match job {
        Job::Earliest => {
            let project = read_project(alloc, input)?;
            Ok(earliest(alloc, &project)?)
        }
        Job::Solve(options) => {
            let project = read_project(alloc, input)?;
            Ok(solve(alloc, project, options.nodes, options.json)?)
        }
        Job::Check => {
            let (project, starts) = read_both(alloc, input, second)?;
            check(alloc, project, &starts)
        }
        Job::Tidy => {
            let project = read_project(alloc, input)?;
            tidy(alloc, &project)
        }
    }
}

/// Runs a job without workers: reads what the job needs, and writes its answer and nothing else. An input that
/// the job doesn't use is handed an empty one. After a failure a device isn't called again.
pub fn run<I: Input, S: Input, O: Output>(
    alloc: Global,
    job: Job,
    input: &mut I,
    second: &mut S,
    out: &mut O,
) -> Ended
    requires job { IsJob job }
    requires alone { has_workers job ≡ false }
    requires input { I.failed input.old < u64.MAX }
    requires second { S.failed second.old < u64.MAX }
    requires out { O.failed out.old < u64.MAX }
    ensures ends { Runs job (I.left input.old) (S.left second.old) (span O.held O.failed out.old out.new) absent result }
    ensures read { HasRead (inputs_of job) (result.fault ≡ Some faults.ReadFailed)
        (span I.left I.failed input.old input.new) (span S.left S.failed second.old second.new) }
{
    match job_answer(alloc, job, input, second) {
        Ok(answer) => write_answer(out, &answer),
        Err(fault) => Ended::with(fault),
    }
}
