//! The commands of psmax and their options, by `clap`.

ghost use Rattle.std.specs.Prelude.{◌≡◌, true, false, IfOk, IfSome};
ghost use Rattle.clap.specs.Words.{found_of};
ghost use Rattle.psmax.specs.Calls.{IsCall, IsCallOf, IsCheckOf, IsPsmaxCall, IsSolveOf, IsWorkOf};
ghost use Rattle.psmax_run.specs.declared.job.Job.TheVariants as jobs;
ghost use Rattle.psmax_run.specs.Jobs.{IsJob, reads_second, writes_record};

use crate::call::{Call, JobNames, PsmaxCall};
use crate::help;
use book::{MAX_WORKERS, are_allowed};
use clap::{ArgMatches, Command};
use command_line::{
    ArgumentsFault, count_of, file, file_name, flag, has_flag, heading, matches_of, number,
    number_of, program_command, project_subcommand, subcommand, verify_call, verify_command,
};
use plain_search::MAX_EXPANDED;
use psmax_run::{Job, ONE_WORKER, SearchOptions};
use std::alloc::{AllocError, Global};

/// How many nodes are taken by default.
const DEFAULT_EXPANDED: &str = "1000000";

fn solve_command<'a>(alloc: Global, heading: &'a str) -> Result<Command<'a>, AllocError> {
    let nodes = "Stop after L nodes";
    let threads = "Search with N threads, 1 to 64";
    let start = "Start from the feasible schedule in FILE";
    let json = "Print the answer as one line of JSON";
    let record = "Write a record that proves the answer into FILE";
    let about = "Print a shortest schedule of a project";
    subcommand(alloc, heading, "solve", about, help::SOLVE).args(vec![in alloc;
        number(alloc, "nodes", "L", nodes, 1, MAX_EXPANDED as i64).default_value(DEFAULT_EXPANDED),
        number(alloc, "workers", "N", threads, 1, MAX_WORKERS as i64),
        file(alloc, "start", start),
        flag(alloc, "json", json),
        file(alloc, "record", record),
    ]?)
}

fn commands<'a>(alloc: Global, heading: &'a str) -> Result<Vec<Command<'a>>, AllocError> {
    let earliest = "Print the earliest starts by a project's time lags alone";
    let check = "Check starts against a project in a file";
    let tidy = "Print the canonical text of a project";
    let mut commands = Vec::with_capacity(alloc, 5)?;
    commands.push_reserved(subcommand(alloc, heading, "earliest", earliest, help::EARLIEST));
    commands.push_reserved(solve_command(alloc, heading)?);
    commands.push_reserved(project_subcommand(alloc, heading, "check", check, help::CHECK)?);
    commands.push_reserved(subcommand(alloc, heading, "tidy", tidy, help::TIDY));
    commands.push_reserved(verify_command(alloc, heading)?);
    Ok(commands)
}

fn program<'a>(alloc: Global, heading: &'a str) -> Result<Command<'a>, AllocError> {
    let about = "Solve projects with resources and time lags, with every answer proved";
    let commands = commands(alloc, heading)?;
    program_command(alloc, "psmax", heading, about, help::PROGRAM)?.subcommands(commands)
}

fn earliest_call() -> Call
    ensures call { IsCall result }
    ensures job { result.job ≡ jobs.Earliest }
{
    Call {
        job: Job::Earliest,
        names: JobNames {
            second: None,
            record_file: None,
        },
    }
}

/// The call of a search. None if its numbers are out of their ranges, which `clap` doesn't let pass.
fn solve_call(alloc: Global, matches: &ArgMatches<'_>) -> Result<Option<Call>, AllocError>
    ensures call { IfOk result (λ call. IfSome call IsCall) }
    ensures of { IfOk result (λ call. IfSome call (IsSolveOf (found_of matches.now))) }
{
    let workers = count_of(matches, "workers");
    let nodes = number_of(matches, "nodes").unwrap_or(0);
    if !are_allowed(workers.unwrap_or(ONE_WORKER), nodes) {
        return Ok(None);
    }
    let second = file_name(alloc, matches, "start")?;
    let record_file = file_name(alloc, matches, "record")?;
    Ok(Some(Call {
        job: Job::Solve(SearchOptions {
            workers,
            nodes,
            start: second.is_some(),
            json: has_flag(matches, "json"),
            recorded: record_file.is_some(),
        }),
        names: JobNames {
            second,
            record_file,
        },
    }))
}

/// The call that checks starts. None if the project's file isn't named, which `clap` doesn't let pass.
fn check_call(alloc: Global, matches: &ArgMatches<'_>) -> Result<Option<Call>, AllocError>
    ensures call { IfOk result (λ call. IfSome call IsCall) }
    ensures of { IfOk result (λ call. IfSome call (IsCheckOf (found_of matches.now))) }
{
    let Some(name) = file_name(alloc, matches, "project")? else {
        return Ok(None);
    };
    Ok(Some(Call {
        job: Job::Check,
        names: JobNames {
            second: Some(name),
            record_file: None,
        },
    }))
}

fn tidy_call() -> Call
    ensures call { IsCall result }
    ensures job { result.job ≡ jobs.Tidy }
{
    Call {
        job: Job::Tidy,
        names: JobNames {
            second: None,
            record_file: None,
        },
    }
}

/// The call of a job that the matches make. None if words make no call, which `clap` doesn't let pass.
fn found_call(alloc: Global, matches: &ArgMatches<'_>) -> Result<Option<Call>, AllocError>
    ensures call { IfOk result (λ call. IfSome call IsCall) }
    ensures of { IfOk result (λ call. IfSome call (IsCallOf matches.now)) }
{
    match matches.subcommand() {
        Some(("earliest", _)) => Ok(Some(earliest_call())),
        Some(("solve", found)) => solve_call(alloc, found),
        Some(("check", found)) => check_call(alloc, found),
        Some(("tidy", _)) => Ok(Some(tidy_call())),
        _ => Ok(None),
    }
}

/// What the matches ask for.
fn found(alloc: Global, matches: &ArgMatches<'_>) -> Result<Option<PsmaxCall>, ArgumentsFault>
    ensures call { IfOk result (λ call. IfSome call IsPsmaxCall) }
    ensures of { IfOk result (λ call. IfSome call (IsWorkOf matches.now)) }
{
    if let Some(("verify", found)) = matches.subcommand() {
        return match verify_call(alloc, found)? {
            Some(call) => Ok(Some(PsmaxCall::Verify(call))),
            None => Ok(None),
        };
    }
    Ok(found_call(alloc, matches)?.map(PsmaxCall::Run))
}

/// The call that words make; the first word is the program's name.
pub(crate) fn call_of(alloc: Global, words: &[String]) -> Result<PsmaxCall, ArgumentsFault>
    ensures { IfOk result IsPsmaxCall }
{
    let heading = heading(alloc, "psmax")?;
    let matches = matches_of(alloc, program(alloc, &heading)?, words)?;
    found(alloc, &matches)?.ok_or(ArgumentsFault::Bad {
        text: String::new(alloc),
    })
}
