//! The command `verify`, which both programs have.

ghost use Rattle.std.specs.Prelude.{◌≡◌, IfOk, IfSome};
ghost use Rattle.clap.specs.Words.{found_of};
ghost use Rattle.command_line.specs.Found.{IsScopeOf, IsVerifyOf, NamesPart};

use crate::arguments::{ArgumentsFault, file_name, has_flag};
use crate::help;
use crate::options::{flag, project_subcommand};
use crate::program::{refuse_files, report};
use clap::{Arg, ArgAction, ArgMatches, Command};
use devices::{FileNames, InputReader, Opener, OutputWriter};
use std::alloc::{AllocError, Global};
use std::io;
use std::process::ExitCode;
use std::rt::Runtime;
use verify_run::{LogPart, RecordKind, Scope, run_verify};

/// A check of the record on standard input: the file of its project, and what of the record is checked.
#[derive(Debug, Drop)]
pub struct VerifyCall {
    pub project: String,
    pub scope: Scope,
}

/// The command `verify` under a program's heading.
pub fn verify_command<'a>(alloc: Global, heading: &'a str) -> Result<Command<'a>, AllocError> {
    let about = "Check a record against a project in a file";
    let partial = "Take a record of lemmas that is cut off, and print what its events prove";
    let part = "Check part K of N of a record of lemmas, 1 to N";
    let part = Arg::new(alloc, "part")
        .long("part")
        .value_name("K/N")
        .help(part)
        .action(ArgAction::Set);
    project_subcommand(alloc, heading, "verify", about, help::VERIFY)?
        .arg(flag(alloc, "partial", partial).conflicts_with("part")?)?
        .arg(part)
}

/// The part that a word names, as `2/8`.
fn part_of(word: &str) -> Option<LogPart>
    ensures { IfSome result (NamesPart word.now) }
{
    let (number, count) = word.split_once('/')?;
    LogPart::new(number.parse().ok()?, count.parse().ok()?)
}

/// That a word names no part, as `clap` would say it.
fn no_part(alloc: Global, word: &str) -> Result<ArgumentsFault, AllocError> {
    let text = format!(in alloc;
        "error: invalid value '{word}' for '--part <K/N>': K is not in 1..=N\n\nFor more information, try '--help'.\n"
    )?;
    Ok(ArgumentsFault::Bad { text })
}

/// What of a record is to be checked.
fn scope_of(alloc: Global, matches: &ArgMatches<'_>) -> Result<Scope, ArgumentsFault>
    ensures { IfOk result (IsScopeOf (found_of matches.now)) }
{
    let Some(word) = file_name(alloc, matches, "part")? else {
        return Ok(match has_flag(matches, "partial") {
            true => Scope::SoFar,
            false => Scope::Whole,
        });
    };
    match part_of(word.as_str()) {
        Some(part) => Ok(Scope::Part(part)),
        None => Err(no_part(alloc, word.as_str())?),
    }
}

/// The check that the matches of `verify` ask for. None if the file isn't named, which `clap` doesn't let pass.
pub fn verify_call(
    alloc: Global,
    matches: &ArgMatches<'_>,
) -> Result<Option<VerifyCall>, ArgumentsFault>
    ensures { IfOk result (λ call. IfSome call (IsVerifyOf (found_of matches.now))) }
{
    let Some(project) = file_name(alloc, matches, "project")? else {
        return Ok(None);
    };
    let scope = scope_of(alloc, matches)?;
    Ok(Some(VerifyCall { project, scope }))
}

/// Opens the project's file, and checks the record on standard input against it. A record whose title is that of neither
/// kind is taken for one of the program's own.
pub fn verify<R: Runtime>(
    rt: &R,
    program: &str,
    alloc: Global,
    own: RecordKind,
    call: &VerifyCall,
) -> ExitCode {
    let names = FileNames {
        second: Some(call.project.as_str()),
        second_option: "--project",
        ..FileNames::none()
    };
    let mut files = match Opener::new(alloc, rt).open(&names) {
        Ok(files) => files,
        Err(fault) => return refuse_files(rt, program, &names, fault),
    };
    let mut input = InputReader::new(rt.reader());
    let mut out = OutputWriter::new(io::writer(rt));
    let ended = run_verify(
        alloc,
        &call.scope,
        own,
        &mut input,
        &mut files.second,
        &mut out,
    );
    report(rt, program, &ended)
}
