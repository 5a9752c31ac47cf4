//! The search of a cube: its files and its answer.

use crate::PROGRAM;
use crate::failure::Failure;
use crate::files::{bytes_of, part_file};
use crate::following::Heard;
use crate::json_lines::cube_line;
use crate::program::Program;
use crate::reports::{ReportForm, Reporter};
use command_line::{PartFile, refuse_files, refuse_part};
use cube_text::{CubeLemma, lemmas_of, path_of};
use devices::{Fault, FileNames, InputReader, Judged, Opener, judged_starts, read_project};
use network::{Lag, Project, Schedule};
use session::{Cube, CubeResult, Limits, search_cube};
use std::alloc::Global;
use std::fs::{self, Files};
use std::process::ExitCode;
use std::rt::Runtime;
use std::sync::{Arc, Mutex, Wait};

/// A search of a cube, and the names of its files.
#[derive(Debug, Drop)]
pub(crate) struct CubeCall {
    pub(crate) limits: Limits,
    /// Into how many parts the cube is split where it stays open.
    pub(crate) pieces: u64,
    pub(crate) project: String,
    pub(crate) path: String,
    pub(crate) start: Option<String>,
    pub(crate) guide: Option<String>,
    pub(crate) import: Option<String>,
    pub(crate) export: Option<String>,
    pub(crate) record: String,
    /// A file that ends the search.
    pub(crate) until: Option<String>,
    /// Whether standard input is followed.
    pub(crate) follow: bool,
}

/// The project of a file.
fn project_of<'w, R: Files>(
    rt: &R,
    alloc: Global,
    name: &'w String,
) -> Result<Arc<Project>, Failure<'w>> {
    let file = fs::open(rt, name.as_str()).map_err(|error| Failure::of_file(&error, name))?;
    let project = read_project(alloc, &mut InputReader::new(file))?;
    Ok(Arc::new(alloc, project)?)
}

/// The schedule of a file, if it has a name.
fn schedule_of<'w, R: Files>(
    rt: &R,
    alloc: Global,
    project: &Arc<Project>,
    name: Option<&'w String>,
) -> Result<Option<Schedule>, Failure<'w>> {
    let Some(name) = name else {
        return Ok(None);
    };
    let text = bytes_of(rt, alloc, name)?;
    match judged_starts(alloc, project, &text)? {
        Judged::Feasible(schedule) => Ok(Some(schedule)),
        Judged::Refused(answer) => Err(Failure::Violated(answer)),
    }
}

/// The arcs of the path of a cube.
fn arcs_of<'w, R: Files>(
    rt: &R,
    alloc: Global,
    call: &'w CubeCall,
) -> Result<Vec<Lag>, Failure<'w>> {
    let text = bytes_of(rt, alloc, &call.path)?;
    path_of(alloc, &text).map_err(|fault| Failure::of_text(fault, call.path.as_str()))
}

/// The lemmas of a file, if it has a name.
fn lemmas_in<'w, R: Files>(
    rt: &R,
    alloc: Global,
    name: Option<&'w String>,
) -> Result<Vec<CubeLemma>, Failure<'w>> {
    let Some(name) = name else {
        return Ok(Vec::new(alloc));
    };
    let text = bytes_of(rt, alloc, name)?;
    lemmas_of(alloc, &text).map_err(|fault| Failure::of_text(fault, name.as_str()))
}

/// Writes the lemmas for others, and prints the answer. The exit status.
fn answer<'w, R: Runtime>(
    rt: &R,
    alloc: Global,
    call: &'w CubeCall,
    found: &CubeResult,
) -> Result<u8, Failure<'w>> {
    if let Some(name) = &call.export {
        let written = part_file(rt, alloc, name)?.write(rt, found.lemmas.as_bytes());
        written.map_err(|error| Failure::of_file(&error, name))?;
    }
    let line = cube_line(alloc, found)?;
    if print!(rt; "{line}").is_err() {
        return Err(Failure::Fault(Fault::WriteFailed));
    }
    Ok(if found.is_refuted { 0 } else { 3 })
}

/// The names of the files of a call.
fn names_of<'a>(call: &'a CubeCall, record: &'a PartFile) -> FileNames<'a> {
    record.join(FileNames {
        second: call.start.as_deref(),
        second_option: "--start",
        project: Some(call.project.as_str()),
        path: Some(call.path.as_str()),
        guide: call.guide.as_deref(),
        import: call.import.as_deref(),
        until: call.until.as_deref(),
        export: call.export.as_deref(),
        ..FileNames::none()
    })
}

/// Makes the file of the log.
fn make_log<'w, R: Files + Eprint>(
    rt: &R,
    alloc: Global,
    call: &'w CubeCall,
    record: &PartFile,
) -> Result<R::File, Failure<'w>> {
    let names = names_of(call, record);
    match Opener::new(alloc, rt).open_record(&names) {
        Ok(Some(file)) => {
            record.keep_mode(rt);
            Ok(file.into_inner())
        }
        Ok(None) => Err(Failure::File(&call.record)),
        Err(fault) => Err(Failure::Printed(refuse_files(rt, PROGRAM, &names, fault))),
    }
}

/// Searches, with the log in its file.
fn search_into<'w, R: Runtime + Wait>(
    rt: &'w R,
    alloc: Global,
    call: &'w CubeCall,
    cube: Cube<'_>,
    file: &mut R::File,
    heard: &'w Mutex<Heard>,
) -> Result<CubeResult, Failure<'w>> {
    let mut program = Program {
        rt,
        alloc,
        until: call.until.as_ref(),
        heard: call.follow.then_some(heard),
        resumed: None,
        wrong_event: None,
        cubes: Vec::new(alloc),
        folder: "",
        files: Vec::new(alloc),
        reporter: Reporter::new(ReportForm::Nothing),
    };
    let found = search_cube(rt, alloc, cube, call.limits, &mut program, file);
    found.map_err(|fault| Failure::of_cube(fault, &call.path))
}

/// Searches a cube, and answers. The exit status, and the file of the log.
fn search<'w, R: Runtime + Wait>(
    rt: &'w R,
    alloc: Global,
    call: &'w CubeCall,
    record: &PartFile,
    heard: &'w Mutex<Heard>,
) -> Result<(u8, R::File), Failure<'w>> {
    let project = project_of(rt, alloc, &call.project)?;
    let start = schedule_of(rt, alloc, &project, call.start.as_ref())?;
    let guide = schedule_of(rt, alloc, &project, call.guide.as_ref())?;
    let path = arcs_of(rt, alloc, call)?;
    let lemmas = lemmas_in(rt, alloc, call.import.as_ref())?;
    let cube = Cube {
        project: &project,
        path: &path,
        start: start.as_ref().map(|schedule| schedule.starts()),
        guide: guide.as_ref().map(|schedule| schedule.starts()),
        lemmas: &lemmas,
        pieces: call.pieces,
    };
    let mut file = make_log(rt, alloc, call, record)?;
    match search_into(rt, alloc, call, cube, &mut file, heard) {
        Ok(found) => Ok((answer(rt, alloc, call, &found)?, file)),
        Err(failure) => {
            record.remove_empty(rt);
            Err(failure)
        }
    }
}

/// Finds no part of the export, which is made last.
fn find_no_part<'w, R: Runtime>(
    rt: &R,
    alloc: Global,
    call: &'w CubeCall,
) -> Result<(), Failure<'w>> {
    let Some(name) = &call.export else {
        return Ok(());
    };
    let export = part_file(rt, alloc, name)?;
    match export.find(rt) {
        Some(part) => Err(Failure::Printed(refuse_part(rt, part, false))),
        None => Ok(()),
    }
}

/// Solves a cube. Its log takes its name once it is whole.
pub(crate) fn solve_cube<'w, R: Runtime + Wait>(
    rt: &'w R,
    alloc: Global,
    call: &'w CubeCall,
    heard: &'w Mutex<Heard>,
) -> Result<ExitCode, Failure<'w>> {
    let record = part_file(rt, alloc, &call.record)?;
    let names = names_of(call, &record);
    if let Err(fault) = Opener::new(alloc, rt).check(&names) {
        return Ok(refuse_files(rt, PROGRAM, &names, fault));
    }
    find_no_part(rt, alloc, call)?;
    let (exit, file) = search(rt, alloc, call, &record, heard)?;
    Ok(record.finish(rt, PROGRAM, Some(file), exit))
}
