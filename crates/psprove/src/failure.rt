//! Why a call has no answer.

use crate::PROGRAM;
use answers::Answer;
use command_line::{refuse_file, report};
use cube_text::TextFault;
use devices::{Ended, Fault};
use session::CubeFault;
use std::alloc::{AllocError, AllocFailed};
use std::io::{self, ErrorKind, Write};
use std::process::ExitCode;
use std::rt::Runtime;

/// Why a call has no answer.
#[derive(Drop)]
pub(crate) enum Failure<'w> {
    Fault(Fault),
    /// This file can't be opened, read or written.
    File(&'w String),
    /// This line of a text has another form; the text is named so.
    Line(&'w str, u64),
    /// The event of this number, in the file of a log, is wrong.
    Event(&'w String, u64),
    /// The arc of the path in a file at this place is no decision.
    Arc(&'w String, usize),
    /// Starts are not a feasible schedule.
    Violated(Answer),
    /// It is printed already.
    Printed(ExitCode),
}

impl From<AllocError> for Failure<'_> {
    fn from(_error: AllocError) -> Self {
        Failure::Fault(Fault::Memory)
    }
}

impl<T: Drop> From<AllocFailed<T>> for Failure<'_> {
    fn from(_failed: AllocFailed<T>) -> Self {
        Failure::Fault(Fault::Memory)
    }
}

impl From<Fault> for Failure<'_> {
    fn from(fault: Fault) -> Self {
        Failure::Fault(fault)
    }
}

impl<'w> Failure<'w> {
    /// The failure of a file, or of memory.
    pub(crate) fn of_file(error: &io::Error, name: &'w String) -> Failure<'w> {
        match error.kind() {
            ErrorKind::OutOfMemory => Failure::Fault(Fault::Memory),
            _ => Failure::File(name),
        }
    }

    /// The failure of a text that is named so.
    pub(crate) fn of_text(fault: TextFault, name: &'w str) -> Failure<'w> {
        match fault {
            TextFault::Memory => Failure::Fault(Fault::Memory),
            TextFault::Line(line) => Failure::Line(name, line),
        }
    }

    /// The failure of the search of a cube whose path is in this file.
    pub(crate) fn of_cube(fault: CubeFault, path: &'w String) -> Failure<'w> {
        match fault {
            CubeFault::Memory => Failure::Fault(Fault::Memory),
            CubeFault::Record => Failure::Fault(Fault::WriteFailed),
            CubeFault::Arc(place) => Failure::Arc(path, place),
        }
    }

    /// Prints why there is no answer. The exit status.
    pub(crate) fn print<R: Runtime>(&self, rt: &R) -> ExitCode {
        match self {
            Failure::Fault(fault) => return report(rt, PROGRAM, &Ended::with(*fault)),
            Failure::File(name) => return refuse_file(rt, PROGRAM, name.as_str()),
            Failure::Printed(status) => return *status,
            Failure::Line(name, line) => {
                let _ = eprintln!(rt; "{PROGRAM}: {name}: line {line} has another form");
            }
            Failure::Event(name, number) => {
                let _ = eprintln!(rt; "{PROGRAM}: {name}: event {number} is wrong");
                return ExitCode::from(1);
            }
            Failure::Arc(name, place) => {
                let number = place.saturating_add(1);
                let what = "no bound of a start and no order of rivals";
                let _ = eprintln!(rt; "{PROGRAM}: {name}: arc {number} is {what}");
            }
            Failure::Violated(answer) => {
                let _ = io::writer(rt).write_all(&answer.text);
                return ExitCode::from(answer.exit);
            }
        }
        ExitCode::from(2)
    }
}
