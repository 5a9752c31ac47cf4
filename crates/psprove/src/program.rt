//! What the program does for its searches: it hands them what is known, ends them, and reports.

use crate::PROGRAM;
use crate::failure::Failure;
use crate::files::{bytes_of, read_file};
use crate::following::Heard;
use crate::reports::{ReportForm, Reporter};
use crate::solve::SolveCall;
use cube_text::{CubeLemma, SearchedCube, TextFault, cubes_of, lemmas_of};
use devices::{Output, split_path};
use lemma_record::Naming;
use network::Project;
use schedule_check::{StartsFault, read_starts, violations};
use session::{Before, Host, Known, LogFault, Session, SessionFault, Signal};
use std::alloc::{AllocError, Global};
use std::fs::{self, Files};
use std::io::ErrorKind;
use std::sync::{Mutex, Wait};

/// The program, and what it knows for a session.
#[derive(Drop)]
pub(crate) struct Program<'w, R> {
    pub(crate) rt: &'w R,
    pub(crate) alloc: Global,
    /// A file that ends the search once it is there.
    pub(crate) until: Option<&'w String>,
    /// What standard input tells.
    pub(crate) heard: Option<&'w Mutex<Heard>>,
    /// The bytes of the log that the session goes on from.
    pub(crate) resumed: Option<Vec<u8>>,
    /// The number of the event of that log which is wrong.
    pub(crate) wrong_event: Option<u64>,
    /// The cubes whose logs are joined, and what stands before the names of their files.
    pub(crate) cubes: Vec<SearchedCube>,
    pub(crate) folder: &'w str,
    /// The paths of these files.
    pub(crate) files: Vec<String>,
    pub(crate) reporter: Reporter,
}

/// The path of a file in a folder.
fn path_in(alloc: Global, folder: &str, name: &str) -> Result<String, AllocError> {
    let mut path = String::from_str(alloc, folder)?;
    path.push_str(name)?;
    Ok(path)
}

/// The paths of the logs of cubes, and of the lemmas that they were given.
fn paths_of(
    alloc: Global,
    folder: &str,
    cubes: &[SearchedCube],
) -> Result<Vec<String>, AllocError> {
    let mut paths = Vec::new(alloc);
    for cube in cubes {
        paths.push(path_in(alloc, folder, cube.log.as_str())?)?;
        if let Some(name) = &cube.lemmas {
            paths.push(path_in(alloc, folder, name.as_str())?)?;
        }
    }
    Ok(paths)
}

/// The starts in a text, if they are a feasible schedule of the project.
fn feasible_starts(
    alloc: Global,
    project: &Project,
    text: &[u8],
) -> Result<Option<Vec<i64>>, StartsFault> {
    let starts = read_starts(alloc, text, project.activity_count())?;
    let broken = violations(alloc, project, &starts)?;
    Ok(broken.is_empty().then_some(starts))
}

impl<'w, R: Files + Wait + Eprint> Program<'w, R> {
    /// The program of a call that solves or joins.
    pub(crate) fn new(
        rt: &'w R,
        alloc: Global,
        call: &'w SolveCall,
        heard: &'w Mutex<Heard>,
    ) -> Result<Self, Failure<'w>> {
        let resumed = match &call.resume {
            Some(name) => Some(bytes_of(rt, alloc, name)?),
            None => None,
        };
        let (mut cubes, mut folder) = (Vec::new(alloc), "");
        if let Some(name) = &call.tree {
            folder = split_path(name.as_str()).0;
            let found = cubes_of(alloc, &bytes_of(rt, alloc, name)?);
            cubes = found.map_err(|fault| Failure::of_text(fault, "the list of cubes"))?;
        }
        let files = paths_of(alloc, folder, &cubes)?;
        Ok(Program {
            rt,
            alloc,
            until: call.until.as_ref(),
            heard: call.follow.then_some(heard),
            resumed,
            wrong_event: None,
            cubes,
            folder,
            files,
            reporter: Reporter::new(call.form),
        })
    }

    /// The bytes of the file of a log or of lemmas. None if it can't be read.
    fn bytes(&self, name: &str) -> Result<Option<Vec<u8>>, AllocError> {
        let path = path_in(self.alloc, self.folder, name)?;
        match read_file(self.rt, self.alloc, path.as_str()) {
            Ok(bytes) => Ok(Some(bytes)),
            Err(error) if error.kind() == ErrorKind::OutOfMemory => Err(AllocError),
            Err(_) => Ok(None),
        }
    }

    /// The lemmas that the search of a cube was given. None if their file can't be read.
    fn given(&self, cube: &SearchedCube) -> Result<Option<Vec<CubeLemma>>, AllocError> {
        let Some(name) = &cube.lemmas else {
            return Ok(Some(Vec::new(self.alloc)));
        };
        let Some(text) = self.bytes(name.as_str())? else {
            return Ok(None);
        };
        match lemmas_of(self.alloc, &text) {
            Ok(lemmas) => Ok(Some(lemmas)),
            Err(TextFault::Memory) => Err(AllocError),
            Err(TextFault::Line(_)) => Ok(None),
        }
    }

    /// Prints what is wrong with a cube.
    fn print_fault(&self, cube: &SearchedCube, fault: &str) {
        let name = match cube.name.as_str() {
            "" => "-",
            name => name,
        };
        let _ = eprintln!(self.rt; "{PROGRAM}: cube {name}: {fault}");
    }

    /// Whether a cube is searched again later, or a part of it is.
    fn comes_again(&self, place: usize, cube: &SearchedCube) -> bool {
        self.cubes
            .iter()
            .skip(place.saturating_add(1))
            .any(|other| other.name.starts_with(cube.name.as_str()))
    }

    /// Joins the log of the cube at a place, and prints what is wrong with it.
    fn join<D: Output, J: Naming + Before>(
        &self,
        place: usize,
        cube: &SearchedCube,
        session: &mut Session<'_, '_, D, J>,
    ) -> Result<(), AllocError> {
        let Some(given) = self.given(cube)? else {
            self.print_fault(cube, "its file of lemmas can't be read");
            return Ok(());
        };
        let Some(log) = self.bytes(cube.log.as_str())? else {
            self.print_fault(cube, "its log can't be read");
            return Ok(());
        };
        match session.join(cube, &given, &log) {
            Ok(true) => {}
            Ok(false) if self.comes_again(place, cube) => {}
            Ok(false) => self.print_fault(cube, "its log does not refute it"),
            Err(LogFault::Memory) => return Err(AllocError),
            Err(LogFault::Event(number)) => {
                let text = format!(in self.alloc; "event {number} is wrong")?;
                self.print_fault(cube, text.as_str());
            }
        }
        Ok(())
    }

    /// Joins the logs of all cubes.
    fn join_all<D: Output, J: Naming + Before>(
        &self,
        session: &mut Session<'_, '_, D, J>,
    ) -> Result<(), AllocError> {
        for cube in &self.cubes {
            if let Some(given) = self.given(cube)? {
                session.expect(&given)?;
            }
        }
        for (place, cube) in self.cubes.iter().enumerate() {
            self.join(place, cube, session)?;
        }
        session.close_nodes()
    }

    /// A schedule that standard input has told, if it is feasible.
    fn told_schedule(&self, project: &Project, text: &str) -> Signal {
        match feasible_starts(self.alloc, project, text.as_bytes()) {
            Ok(Some(starts)) => return Signal::Take(starts),
            Err(StartsFault::Memory) => {}
            _ => {
                let _ = eprintln!(self.rt;
                    "{PROGRAM}: a line on standard input is no feasible schedule"
                );
            }
        }
        Signal::GoOn
    }

    /// What standard input has told of the project.
    fn told(&self, heard: &Mutex<Heard>, project: &Project) -> Signal {
        let mut heard = heard.lock(self.rt);
        if heard.is_over {
            return Signal::End;
        }
        match heard.starts.take() {
            Some(text) => self.told_schedule(project, text.as_str()),
            None => Signal::GoOn,
        }
    }
}

impl<R: Files + Wait + Eprint> Host for Program<'_, R> {
    fn begin<D: Output, J: Naming + Before>(
        &mut self,
        session: &mut Session<'_, '_, D, J>,
    ) -> Result<(), SessionFault> {
        if let Some(log) = self.resumed.take() {
            match session.resume(&log) {
                Ok(()) => {}
                Err(LogFault::Memory) => return Err(SessionFault::Memory),
                Err(LogFault::Event(number)) => {
                    self.wrong_event = Some(number);
                    return Err(SessionFault::Refused);
                }
            }
        }
        Ok(self.join_all(session)?)
    }

    fn signal(&mut self, project: &Project) -> Signal {
        if let Some(name) = self.until {
            if fs::metadata(self.rt, name.as_str()).is_ok() {
                return Signal::End;
            }
        }
        match self.heard {
            Some(heard) => self.told(heard, project),
            None => Signal::GoOn,
        }
    }

    fn hear(&mut self, known: &Known<'_>) {
        let _ = self.reporter.report(self.rt, self.alloc, known);
    }
}
