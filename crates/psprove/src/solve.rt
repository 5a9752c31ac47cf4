//! A session that solves a project, or joins logs of cubes, and its files.

use crate::PROGRAM;
use crate::failure::Failure;
use crate::files::part_file;
use crate::following::Heard;
use crate::program::Program;
use crate::reports::ReportForm;
use command_line::{PartFile, refuse_files, refuse_part, report};
use devices::{Ended, FileFault, FileNames, InputReader, Opener, OutputWriter};
use either::Either;
use psprove_run::SolveOptions;
use std::alloc::Global;
use std::process::ExitCode;
use std::rt::Runtime;
use std::sync::{Mutex, Wait};
use std::thread::Threads;
use std::{fs, io};

/// A session, and the names of its files.
#[derive(Debug, Drop)]
pub(crate) struct SolveCall {
    pub(crate) options: SolveOptions,
    /// The form of reports.
    pub(crate) form: ReportForm,
    /// The starts that it begins with.
    pub(crate) start: Option<String>,
    /// The record that it goes on from.
    pub(crate) resume: Option<String>,
    /// The cubes whose records are joined.
    pub(crate) tree: Option<String>,
    /// Its own record.
    pub(crate) record: Option<String>,
    /// A file that ends it.
    pub(crate) until: Option<String>,
    /// Whether standard input is followed.
    pub(crate) follow: bool,
    /// The project, if it is not on standard input.
    pub(crate) project: Option<String>,
}

/// The names of the files of a call; those of the cubes that it joins are these.
fn names_of<'a>(
    call: &'a SolveCall,
    record: Option<&'a PartFile>,
    cubes: &'a [String],
) -> FileNames<'a> {
    let names = FileNames {
        second: call.start.as_deref(),
        second_option: "--start",
        project: call.project.as_deref(),
        resume: call.resume.as_deref(),
        tree: call.tree.as_deref(),
        cubes,
        until: call.until.as_deref(),
        ..FileNames::none()
    };
    match record {
        Some(record) => record.join(names),
        None => names,
    }
}

/// Opens the file of the project, if it has a name.
fn open_project<'w, R: Runtime>(
    rt: &R,
    call: &'w SolveCall,
) -> Result<Option<R::File>, Failure<'w>> {
    let Some(name) = &call.project else {
        return Ok(None);
    };
    match fs::open(rt, name.as_str()) {
        Ok(file) => Ok(Some(file)),
        Err(error) => Err(Failure::of_file(&error, name)),
    }
}

/// The exit status of a session that has ended. Prints why it has no answer.
fn status_of<R: Runtime>(
    rt: &R,
    call: &SolveCall,
    wrong_event: Option<u64>,
    ended: &Ended,
) -> ExitCode {
    match (&call.resume, wrong_event) {
        (Some(name), Some(number)) => Failure::Event(name, number).print(rt),
        _ => report(rt, PROGRAM, ended),
    }
}

/// The exit status of starts that are no schedule: there is no record then.
const REFUSED: u8 = 4;

/// A record that was written whole takes its name. Otherwise its part stays, with what was proved, if there is something in
/// it. The exit status.
fn end_record<R: Runtime>(
    rt: &R,
    record: &PartFile,
    file: Option<R::File>,
    ended: &Ended,
) -> ExitCode {
    if ended.fault.is_some() || ended.exit == REFUSED {
        record.remove_empty(rt);
        return ExitCode::from(ended.exit);
    }
    record.finish(rt, PROGRAM, file, ended.exit)
}

/// Prints why the files of a call are not open. A search goes on from a part of a record.
fn refuse<R: Runtime>(rt: &R, names: &FileNames<'_>, fault: FileFault) -> ExitCode {
    match (fault, names.record_file) {
        (FileFault::Part, Some(part)) => refuse_part(rt, part, true),
        _ => refuse_files(rt, PROGRAM, names, fault),
    }
}

/// Solves a project, or joins logs of cubes. The record has its name then, if it is whole.
pub(crate) fn solve<'w, R: Runtime + Threads + Wait + Sync>(
    rt: &'w R,
    alloc: Global,
    call: &'w SolveCall,
    heard: &'w Mutex<Heard>,
) -> Result<ExitCode, Failure<'w>> {
    let record = match &call.record {
        Some(name) => Some(part_file(rt, alloc, name)?),
        None => None,
    };
    let mut program = Program::new(rt, alloc, call, heard)?;
    let names = names_of(call, record.as_ref(), &program.files);
    let project = open_project(rt, call)?;
    let files = match Opener::new(alloc, rt).open(&names) {
        Ok(files) => files,
        Err(fault) => return Ok(refuse(rt, &names, fault)),
    };
    if let Some(record) = &record {
        record.keep_mode(rt);
    }
    let mut input = InputReader::new(match project {
        None => Either::Left(rt.reader()),
        Some(file) => Either::Right(file),
    });
    let (mut second, record_file) = (files.second, files.record_file);
    let mut out = OutputWriter::new(io::writer(rt));
    let (ended, record_file) = psprove_run::solve(
        rt,
        alloc,
        call.options,
        &mut program,
        &mut input,
        &mut second,
        &mut out,
        record_file,
    );
    let status = status_of(rt, call, program.wrong_event, &ended);
    Ok(match record {
        Some(record) => {
            let file = record_file.map(|file| file.into_inner());
            end_record(rt, &record, file, &ended)
        }
        None => status,
    })
}
