//! What both programs do around a call: they read its words, and print why it has no answer.

use crate::arguments::ArgumentsFault;
use devices::{CallFile, Ended, Fault, FileFault, FileNames};
use std::env::{self, Env};
use std::io::ErrorKind;
use std::process::ExitCode;
use std::rt::Runtime;

/// What stands in for a standard device that is closed: a folder gives no bytes, and takes none. While it is open, no
/// file opens in the place of one, and no answer goes into a record.
pub const FOLDER: &str = "/";

/// Prints how a run of the program ended, where it has no answer.
pub fn report<R: Eprint>(rt: &R, program: &str, ended: &Ended) -> ExitCode {
    if let Some(fault) = ended.fault {
        let _ = eprintln!(rt; "{program}: {fault}");
    }
    ExitCode::from(ended.exit)
}

/// Prints what words that are no call get: help to standard output, the rest to standard error.
pub fn refuse<R: Runtime>(rt: &R, program: &str, fault: &ArgumentsFault) -> ExitCode {
    match fault {
        ArgumentsFault::Help { text } => match print!(rt; "{text}") {
            Ok(()) => ExitCode::from(0),
            Err(_) => report(rt, program, &Ended::with(Fault::WriteFailed)),
        },
        ArgumentsFault::Bad { text } => {
            let _ = eprint!(rt; "{text}");
            ExitCode::from(2)
        }
        ArgumentsFault::NoText => {
            let _ = eprintln!(rt; "{fault}");
            ExitCode::from(2)
        }
        ArgumentsFault::Memory => report(rt, program, &Ended::with(Fault::Memory)),
    }
}

/// What a file of a call is called in faults.
fn word(names: &FileNames<'_>, file: CallFile) -> &'static str {
    match file {
        CallFile::Input => "standard input",
        CallFile::Second => names.second_option,
        CallFile::Project => "--project",
        CallFile::Resume => "--resume",
        CallFile::Tree => "--tree",
        CallFile::Cube => "a file in --tree",
        CallFile::Path => "--under",
        CallFile::Guide => "--guide",
        CallFile::Import => "--import",
        CallFile::Until => "--until",
        CallFile::Answer => "standard output",
        CallFile::RecordFile if names.record_name.is_some() => "the part of --record",
        CallFile::RecordFile | CallFile::Record => "--record",
        CallFile::Export => "--export",
    }
}

/// Prints that a file can't be opened.
pub fn refuse_file<R: Eprint>(rt: &R, program: &str, name: &str) -> ExitCode {
    let _ = eprintln!(rt; "{program}: cannot open {name}");
    ExitCode::from(1)
}

/// Prints that a part of a file is there, and what to do: a search may go on from it, or not.
pub fn refuse_part<R: Eprint>(rt: &R, part: &str, resumes: bool) -> ExitCode {
    let _ = eprintln!(rt; "error: {part} is there: a search left it, or writes it now");
    let _ = match resumes {
        true => eprintln!(rt;
            "hint: go on from it by --resume {part} and another --record, or delete it"
        ),
        false => eprintln!(rt; "hint: delete it"),
    };
    ExitCode::from(2)
}

/// Prints why the files of a call are not open. No search goes on from a part that is there.
pub fn refuse_files<R: Eprint>(
    rt: &R,
    program: &str,
    names: &FileNames<'_>,
    fault: FileFault,
) -> ExitCode {
    match fault {
        FileFault::Same(one, other) => {
            let (one, other) = (word(names, one), word(names, other));
            let _ = eprintln!(rt; "error: {one} and {other} name the same file");
            ExitCode::from(2)
        }
        FileFault::Part => refuse_part(rt, names.record_file.unwrap_or(""), false),
        FileFault::Second => refuse_file(rt, program, names.second.unwrap_or("")),
        FileFault::Record => {
            let name = names.record_name.or(names.record_file);
            refuse_file(rt, program, name.unwrap_or(""))
        }
        FileFault::Memory => report(rt, program, &Ended::with(Fault::Memory)),
    }
}

/// The words of the command line.
pub fn read_arguments<R: Env + AllocGlobal>(rt: &R) -> Result<Vec<String>, ArgumentsFault> {
    match env::args(rt) {
        Ok(words) => Ok(words.collect(rt.alloc())?),
        Err(error) if error.kind() == ErrorKind::OutOfMemory => Err(ArgumentsFault::Memory),
        Err(_) => Err(ArgumentsFault::NoText),
    }
}
