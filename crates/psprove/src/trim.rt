//! The command `trim`: a record of lemmas without those that its claim doesn't rest on.

use crate::PROGRAM;
use crate::failure::Failure;
use command_line::refuse_files;
use devices::{Fault, FileNames, Opener, read_project};
use lemma_trim::{Trimmed, Trimmer};
use std::alloc::Global;
use std::io::{self, Read, Write};
use std::process::ExitCode;
use std::rt::Runtime;

/// How many bytes are read at once, at most.
const PIECE: usize = 16_384;

/// Hands over the record on standard input, to its end.
fn feed<R: Runtime>(rt: &R, trimmer: &mut Trimmer<'_>) -> Result<(), Fault> {
    let (mut input, mut buffer) = (rt.reader(), [0u8; PIECE]);
    for _ in 0..u64::MAX {
        let Ok(count) = input.read(&mut buffer) else {
            return Err(Fault::ReadFailed);
        };
        let piece = buffer.get(..count).unwrap_or(&[]);
        if piece.is_empty() {
            break;
        }
        trimmer.feed(piece)?;
    }
    Ok(())
}

/// Writes a trimmed record.
fn put<R: Runtime>(rt: &R, trimmed: &mut Trimmed) -> Result<(), Fault> {
    let mut out = io::writer(rt);
    for _ in 0..u64::MAX {
        let Some(piece) = trimmed.next_piece()? else {
            break;
        };
        if out.write_all(&piece).is_err() {
            return Err(Fault::WriteFailed);
        }
    }
    Ok(())
}

/// Trims the record on standard input, of the project in a file, if it is right.
pub(crate) fn trim<'w, R: Runtime>(
    rt: &R,
    alloc: Global,
    project: &'w String,
) -> Result<ExitCode, Failure<'w>> {
    let names = FileNames {
        second: Some(project.as_str()),
        second_option: "--project",
        ..FileNames::none()
    };
    let mut files = match Opener::new(alloc, rt).open(&names) {
        Ok(files) => files,
        Err(fault) => return Ok(refuse_files(rt, PROGRAM, &names, fault)),
    };
    let project = read_project(alloc, &mut files.second)?;
    let mut trimmer = Trimmer::new(alloc, &project)?;
    feed(rt, &mut trimmer)?;
    let mut trimmed = trimmer.finish().map_err(Fault::from)?;
    put(rt, &mut trimmed)?;
    Ok(ExitCode::from(0))
}
