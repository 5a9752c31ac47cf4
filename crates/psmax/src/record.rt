//! The file of a record: it is written beside its name, which it takes once it is whole.

use crate::PROGRAM;
use command_line::PartFile;
use devices::{Ended, FileFault, FileNames};
use std::alloc::Global;
use std::fs::Files;
use std::io::ErrorKind;
use std::process::ExitCode;

/// The file of the record that these names have, if they have one.
pub(crate) fn record_of<R: Files>(
    rt: &R,
    alloc: Global,
    names: &FileNames<'_>,
) -> Result<Option<PartFile>, FileFault> {
    let Some(name) = names.record_file else {
        return Ok(None);
    };
    match PartFile::of(rt, alloc, name) {
        Ok(record) => Ok(Some(record)),
        Err(error) if error.kind() == ErrorKind::OutOfMemory => Err(FileFault::Memory),
        Err(_) => Err(FileFault::Record),
    }
}

/// A record that was written whole takes its name. Otherwise nothing is left of it. The exit status.
pub(crate) fn end_record<R: Files + Eprint>(
    rt: &R,
    record: &PartFile,
    file: Option<R::File>,
    ended: &Ended,
) -> ExitCode {
    if ended.exit == 0 {
        return record.finish(rt, PROGRAM, file, ended.exit);
    }
    record.remove(rt);
    ExitCode::from(ended.exit)
}
