//! `psmax`: solves projects with resources and time lags, and proves every answer.
#![tactic(auto)]

ghost use Rattle.psmax.specs.Calls.{IsCall, IsPsmaxCall};
ghost use Rattle.psmax_run.specs.Jobs.{IsJob, has_workers};
ghost use Rattle.psmax_run.specs.declared.job.Job.TheVariants as jobs;
ghost use Rattle.std.specs.Prelude.{◌≡◌, false, true, IfOk};

mod call;
mod commands;
mod help;
mod record;

use call::{Call, PsmaxCall};
use command_line::{ArgumentsFault, FOLDER, read_arguments, refuse, refuse_files, report, verify};
use commands::call_of;
use devices::{InputReader, Opener, OutputWriter};
use psmax_run::{SearchOptions, run, run_parallel};
use record::{end_record, record_of};
use std::alloc::Global;
use std::process::ExitCode;
use std::rt::Runtime;
use std::sync::Wait;
use std::thread::Threads;
use std::{fs, io};
use verify_run::RecordKind;
use worker::OpenGate;

/// The program's name in what it prints.
const PROGRAM: &str = "psmax";

/// Opens the files that a call without workers names, and runs its job. The devices are standard input and output, and
/// the second input.
fn perform<R: Runtime>(rt: &R, alloc: Global, call: &Call) -> ExitCode
    requires call { IsCall call.now }
    requires alone { has_workers call.now.job ≡ false }
{
    let names = call.file_names();
    let mut files = match Opener::new(alloc, rt).open(&names) {
        Ok(files) => files,
        Err(fault) => return refuse_files(rt, PROGRAM, &names, fault),
    };
    let mut input = InputReader::new(rt.reader());
    let mut out = OutputWriter::new(io::writer(rt));
    let ended = run(alloc, call.job, &mut input, &mut files.second, &mut out);
    report(rt, PROGRAM, &ended)
}

/// Opens the files that a call with workers names, and runs its search. The devices are also the output of the record.
fn search<R: Runtime + Threads + Wait + Sync>(
    rt: &R,
    alloc: Global,
    call: &Call,
    options: SearchOptions,
) -> ExitCode
    requires job { IsJob (jobs.Solve options) }
    requires workers { has_workers (jobs.Solve options) ≡ true }
{
    let named = call.file_names();
    let record = match record_of(rt, alloc, &named) {
        Ok(record) => record,
        Err(fault) => return refuse_files(rt, PROGRAM, &named, fault),
    };
    let names = match &record {
        Some(record) => record.join(named),
        None => named,
    };
    let mut files = match Opener::new(alloc, rt).open(&names) {
        Ok(files) => files,
        Err(fault) => return refuse_files(rt, PROGRAM, &names, fault),
    };
    if let Some(record) = &record {
        record.keep_mode(rt);
    }
    let ended = run_parallel(
        rt,
        alloc,
        options,
        &mut InputReader::new(rt.reader()),
        &mut files.second,
        &mut OutputWriter::new(io::writer(rt)),
        &mut files.record_file,
        &OpenGate,
    );
    let status = report(rt, PROGRAM, &ended);
    match record {
        Some(record) => {
            let file = files.record_file.map(|file| file.into_inner());
            end_record(rt, &record, file, &ended)
        }
        None => status,
    }
}

/// The call that the words of the command line make.
fn line_call(rt: &HostRuntime) -> Result<PsmaxCall, ArgumentsFault>
    ensures { IfOk result IsPsmaxCall }
{
    call_of(rt.alloc(), &read_arguments(rt)?)
}

fn main(rt: HostRuntime) -> ExitCode {
    let _input = fs::open(&rt, FOLDER);
    let _output = fs::open(&rt, FOLDER);
    let _faults = fs::open(&rt, FOLDER);
    let call = match line_call(&rt) {
        Ok(call) => call,
        Err(fault) => return refuse(&rt, PROGRAM, &fault),
    };
    let call = match call {
        PsmaxCall::Run(call) => call,
        PsmaxCall::Verify(call) => {
            return verify(&rt, PROGRAM, rt.alloc(), RecordKind::Tree, &call);
        }
    };
    match call.job.by_workers() {
        Some(options) => search(&rt, rt.alloc(), &call, options),
        None => perform(&rt, rt.alloc(), &call),
    }
}
