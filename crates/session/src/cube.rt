//! The search of a cube, in a session of its own: its log is judged where it is joined.

use crate::cube_log::CubeLog;
use crate::host::{Host, Signal};
use crate::limits::Limits;
use crate::link::{Link, boxed, search};
use crate::starts::narrowed;
use crate::watch::Stopwatch;
use cube_text::CubeLemma;
use instance::{Instance, Result, Walks};
use network::{Lag, Project};
use std::alloc::{AllocError, Global};
use std::io::Write;
use std::sync::Wait;
use std::time::Clock;
use strategies::{Piece, SearchCounts, Solver, SolverFault, State};

/// A cube, and what is known of the project.
#[derive(Clone, Copy)]
pub struct Cube<'c> {
    pub project: &'c Project,
    /// Its arcs, which are bounds of starts and orders of rivals.
    pub path: &'c [Lag],
    /// The starts of a feasible schedule, in periods: only shorter ones are looked for.
    pub start: Option<&'c [i64]>,
    /// Starts that are tried first.
    pub guide: Option<&'c [i64]>,
    /// What searches of other cubes have proved. The number of each is its place.
    pub lemmas: &'c [CubeLemma],
    /// Into how many parts it is split where it stays open; 0 and 1 leave it whole.
    pub pieces: u64,
}

/// What became of a cube.
#[derive(Drop)]
pub struct CubeResult {
    /// Whether no schedule in question meets its path.
    pub is_refuted: bool,
    /// The starts of the shortest schedule that the search has found, in periods.
    pub best: Option<Vec<i32>>,
    /// Parts of what is open.
    pub pieces: Vec<Piece>,
    pub counts: SearchCounts,
    /// How many bytes its log has.
    pub record_bytes: u64,
    /// Whole seconds by the clock.
    pub seconds: u64,
    /// Lines of lemmas for other searches.
    pub lemmas: String,
}

/// Why a cube was not searched to its end.
#[derive(Clone, Copy, PartialEq, Eq, Debug)]
pub enum CubeFault {
    Memory,
    /// The log could not be written.
    Record,
    /// The arc of the path at this place is neither a bound of a start nor an order of rivals.
    Arc(usize),
}

impl From<AllocError> for CubeFault {
    fn from(_error: AllocError) -> CubeFault {
        CubeFault::Memory
    }
}

impl From<SolverFault> for CubeFault {
    fn from(fault: SolverFault) -> CubeFault {
        match fault {
            SolverFault::Memory => CubeFault::Memory,
            SolverFault::Arc(place) => CubeFault::Arc(place),
        }
    }
}

/// The log of a cube, into which its search leaves what it finds; and its program.
#[derive(Drop)]
struct CubeLink<'p, 'h, 'w, H: Host, W: Write> {
    project: &'p Project,
    log: CubeLog,
    /// The makespan that schedules are to be shorter than.
    ceiling: i32,
    host: &'h mut H,
    record: &'w mut W,
    has_failed: bool,
}

impl<'p, 'h, 'w, H: Host, W: Write> CubeLink<'p, 'h, 'w, H, W> {
    /// A link whose log begins with the schedule that is known.
    fn new(
        alloc: Global,
        cube: Cube<'p>,
        host: &'h mut H,
        record: &'w mut W,
    ) -> Result<CubeLink<'p, 'h, 'w, H, W>> {
        let mut link = CubeLink {
            project: cube.project,
            log: CubeLog::new(alloc)?,
            ceiling: i32::MAX,
            host,
            record,
            has_failed: false,
        };
        if let Some(starts) = cube.start {
            link.log_schedule(&narrowed(alloc, starts)?)?;
        }
        Ok(link)
    }

    /// Logs a schedule, if it is shorter than those before. Whether it is.
    fn log_schedule(&mut self, starts: &[i32]) -> Result<bool> {
        let end = starts.last().copied().unwrap_or(i32::MAX);
        if end >= self.ceiling {
            return Ok(false);
        }
        self.ceiling = end;
        self.log.put_schedule(starts)?;
        Ok(true)
    }

    /// What became of the cube, which is split into so many parts at most where it is open.
    fn result(&mut self, seconds: u64, pieces: u64, solver: &mut Solver<'_>) -> Result<CubeResult> {
        let (is_refuted, counts) = (solver.state() == State::Ended, solver.counts());
        let best = match solver.best() {
            Some(starts) => Some(starts.to_vec(solver.alloc())?),
            None => None,
        };
        let pieces = match pieces > 1 && !is_refuted {
            true => solver.split(pieces.min(1_024) as usize)?,
            false => Vec::new(solver.alloc()),
        };
        Ok(CubeResult {
            is_refuted,
            best,
            pieces,
            counts,
            record_bytes: self.log.bytes(),
            seconds,
            lemmas: self.log.lemmas()?,
        })
    }
}

impl<H: Host, W: Write> Link for CubeLink<'_, '_, '_, H, W> {
    fn listen<R: Clock + Wait>(&mut self, _rt: &R, solver: &mut Solver<'_>) -> Result<bool> {
        match self.host.signal(self.project) {
            Signal::GoOn => Ok(true),
            Signal::End => Ok(false),
            Signal::Take(starts) => {
                let starts = narrowed(solver.alloc(), &starts)?;
                if self.log_schedule(&starts)? {
                    solver.take(&starts)?;
                }
                Ok(true)
            }
        }
    }

    fn exchange<R: Clock + Wait>(&mut self, rt: &R, solver: &mut Solver<'_>) -> Result<bool> {
        self.leave(rt, solver)?;
        Ok(!self.has_failed)
    }

    /// Writes what the search has found since: a shorter schedule, and then what it proved.
    fn leave<R: Clock + Wait>(&mut self, _rt: &R, solver: &mut Solver<'_>) -> Result<()> {
        if let Some(starts) = solver.best() {
            self.log_schedule(starts)?;
        }
        for logged in &solver.events()? {
            self.log.put_logged(logged)?;
        }
        if self.log.write(self.record).is_err() {
            self.has_failed = true;
        }
        Ok(())
    }
}

/// A search of a cube that knows what others have proved.
fn solver_of<'i>(
    alloc: Global,
    instance: &'i Instance,
    walks: &'i Walks,
    cube: Cube<'_>,
    limits: Limits,
    ceiling: Option<i32>,
) -> Result<Box<Solver<'i>>, CubeFault> {
    let guide = match cube.guide.or(cube.start) {
        Some(starts) => narrowed(alloc, starts)?,
        None => Vec::new(alloc),
    };
    let lemmas = cube
        .lemmas
        .iter()
        .map(|lemma| (lemma.lbd, lemma.arcs.as_slice()));
    let lemmas: Vec<(u32, &[Lag])> = lemmas.collect(alloc)?;
    let options = limits.solver(0, cube.lemmas.len());
    let solver = Solver::under(instance, walks, options, ceiling, cube.path)?;
    let mut solver = boxed(solver)?;
    solver.prepare(&guide, &lemmas)?;
    Ok(solver)
}

/// Searches a cube within limits, and writes the log of that.
pub fn search_cube<R: Clock + Wait, H: Host, W: Write>(
    rt: &R,
    alloc: Global,
    cube: Cube<'_>,
    limits: Limits,
    host: &mut H,
    record: &mut W,
) -> Result<CubeResult, CubeFault> {
    let watch = Stopwatch::start(rt);
    let mut link = CubeLink::new(alloc, cube, host, record)?;
    let ceiling = cube.start.is_some().then_some(link.ceiling);
    let instance = Instance::new(alloc, cube.project)?;
    let walks = Walks::new(&instance)?;
    let mut solver = solver_of(alloc, &instance, &walks, cube, limits, ceiling)?;
    search(rt, limits, watch, &mut solver, &mut link)?;
    if link.has_failed {
        return Err(CubeFault::Record);
    }
    let seconds = watch.seconds(rt).unwrap_or(0);
    Ok(link.result(seconds, cube.pieces, &mut solver)?)
}
