//! `psprove`: solves projects with resources and time lags by an untrusted search beside a proved book of lemmas, and
//! checks what others claim of them.
#![tactic(auto)]

mod commands;
mod cube;
mod failure;
mod files;
mod following;
mod help;
mod json_lines;
mod program;
mod reports;
mod solve;
mod trim;

use command_line::{FOLDER, refuse, report, verify};
use commands::{Subcommand, work_of};
use cube::solve_cube;
use devices::{Ended, Fault};
use failure::Failure;
use following::{ear, listen};
use solve::solve;
use std::io::IsTerminal;
use std::process::ExitCode;
use std::rt::Runtime;
use std::sync::Arc;
use std::{fs, thread};
use trim::trim;
use verify_run::RecordKind;

/// The program's name in what it prints.
pub(crate) const PROGRAM: &str = "psprove";

/// Says what a search waits for, where standard input is a terminal.
fn tell_wait(rt: &HostRuntime, work: &Subcommand) {
    let reads = matches!(work, Subcommand::Solve(call) if call.project.is_none());
    if reads && rt.reader().is_terminal() {
        let _ = eprintln!(rt; "{PROGRAM}: waits for a project on standard input");
    }
}

/// The exit status of a call. Prints why it has no answer.
fn status_of<R: Runtime>(rt: &R, done: Result<ExitCode, Failure<'_>>) -> ExitCode {
    match done {
        Ok(status) => status,
        Err(failure) => failure.print(rt),
    }
}

/// Whether work follows what standard input tells while it goes on.
fn follows(work: &Subcommand) -> bool {
    match work {
        Subcommand::Verify(_) | Subcommand::Trim(_) => false,
        Subcommand::Solve(call) => call.follow,
        Subcommand::Cube(call) => call.follow,
    }
}

fn main(rt: HostRuntime) -> ExitCode {
    let (alloc, work) = (rt.alloc(), work_of(&rt));
    let work = match work {
        Ok(work) => work,
        Err(fault) => return refuse(&rt, PROGRAM, &fault),
    };
    tell_wait(&rt, &work);
    let Ok(mine) = ear(alloc) else {
        return report(&rt, PROGRAM, &Ended::with(Fault::Memory));
    };
    if follows(&work) {
        let Ok(theirs) = Arc::try_clone(&mine) else {
            return report(&rt, PROGRAM, &Ended::with(Fault::Memory));
        };
        if thread::spawn(&rt, move || listen(&rt, alloc, &theirs)).is_err() {
            return report(&rt, PROGRAM, &Ended::with(Fault::Thread));
        }
    }
    let _input = fs::open(&rt, FOLDER);
    let _output = fs::open(&rt, FOLDER);
    let _faults = fs::open(&rt, FOLDER);
    match &work {
        Subcommand::Verify(call) => verify(&rt, PROGRAM, alloc, RecordKind::Lemmas, call),
        Subcommand::Solve(call) => status_of(&rt, solve(&rt, alloc, call, &mine)),
        Subcommand::Cube(call) => status_of(&rt, solve_cube(&rt, alloc, call, &mine)),
        Subcommand::Trim(project) => status_of(&rt, trim(&rt, alloc, project)),
    }
}
