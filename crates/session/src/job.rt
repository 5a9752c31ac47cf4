//! A job: a search, and the desk where its lemmas are proved. Nothing is promised of the search: what it says is for the
//! desk and the book to judge.

use crate::board::{Board, Received, SharedFact, Waiting};
use crate::host::{Host, Signal};
use crate::limits::Limits;
use crate::link::{Link, boxed, search};
use crate::recorder::{Before, Recorder};
use crate::starts::narrowed;
use crate::watch::Stopwatch;
use devices::Output;
use instance::{Instance, Result, Walks, narrow};
use lemma_log::Event;
use lemma_proof::Lags;
use lemma_record::{Desk, Naming};
use network::Project;
use std::alloc::Global;
use std::mem;
use std::sync::{Mutex, Wait};
use std::time::Clock;
use strategies::{Solver, State};

/// What the jobs of a session have in common.
#[derive(Drop)]
pub(crate) struct JobContext<'r, 'p, J: Naming> {
    pub(crate) alloc: Global,
    pub(crate) limits: Limits,
    /// How many slots of the book were used before.
    pub(crate) slots: usize,
    pub(crate) watch: Stopwatch,
    pub(crate) project: &'p Project,
    pub(crate) instance: &'r Instance,
    pub(crate) walks: &'r Walks,
    pub(crate) board: &'r Mutex<Board<'p, J>>,
}

/// Whether an event is a lemma that is proved at a desk: one of two arcs or more.
fn is_for_desk(event: &Event) -> bool {
    matches!(event, Event::Lemma { arcs, .. } if arcs.as_slice().len() > 1)
}

/// No other job uses the lemmas in these slots of a search.
fn release(slots: &[usize], solver: &mut Solver<'_>) -> Result<()> {
    for slot in slots {
        solver.release(narrow(*slot))?;
    }
    Ok(())
}

/// A job at the board of its session.
#[derive(Drop)]
pub(crate) struct SearchJob<'c, 'r, 'p, J: Naming> {
    context: &'c JobContext<'r, 'p, J>,
    number: usize,
    /// In a box, as the drop of a desk is long to prove.
    desk: Box<Desk<'p>>,
    /// The lemmas that wait on the desk.
    waiting: Vec<Waiting>,
    /// What waits for the book besides, and comes after them: arcs of the root, the end, and drops.
    steps: Vec<Event>,
}

impl<'c, 'r, 'p, J: Naming> SearchJob<'c, 'r, 'p, J> {
    /// A job whose search knows what is on the board.
    fn start<R: Wait>(
        rt: &R,
        context: &'c JobContext<'r, 'p, J>,
        number: usize,
        solver: &mut Solver<'_>,
    ) -> Result<SearchJob<'c, 'r, 'p, J>> {
        let alloc = context.alloc;
        let mut job = SearchJob {
            context,
            number,
            desk: Box::new(alloc, Desk::new(alloc, context.project)?)?,
            waiting: Vec::new(alloc),
            steps: Vec::new(alloc),
        };
        job.trade(rt, solver)?;
        Ok(job)
    }

    /// Gives a board all that waits, with the best schedule of a search.
    fn give(&mut self, board: &mut Board<'_, J>, solver: &Solver<'_>) -> Result<()> {
        board.take_best(solver)?;
        board.accept_all(self.number, &mut self.desk, &self.waiting, solver.shares())?;
        self.waiting.clear();
        for event in mem::replace(&mut self.steps, Vec::new(self.context.alloc)) {
            if let Event::Drop { slot } = &event {
                self.desk.let_go(*slot);
            }
            board.offer(self.number, event)?;
        }
        self.desk.follow(board.book.ledger())?;
        if solver.state() == State::Ended {
            board.is_over = true;
        }
        Ok(())
    }

    /// Gives the board all that waits, once its lock is free. What it has for the search.
    fn meet_board<R: Wait>(&mut self, rt: &R, solver: &Solver<'_>) -> Result<Received> {
        let mut board = self.context.board.lock(rt);
        self.give(&mut board, solver)?;
        board.news_for(self.number, solver)
    }

    /// Gives a search what the board has for it. Whether it goes on.
    fn learn(&mut self, received: Received, solver: &mut Solver<'_>) -> Result<bool> {
        let Received {
            goes_on,
            best,
            free,
            facts,
        } = received;
        if let Some(best) = best {
            solver.take(&narrowed(self.context.alloc, &best)?)?;
        }
        release(&free, solver)?;
        for fact in facts {
            self.import(fact, solver)?;
        }
        Ok(goes_on)
    }

    /// Gives a search and the desk what another job has proved.
    fn import(&mut self, fact: SharedFact, solver: &mut Solver<'_>) -> Result<()> {
        match fact {
            SharedFact::Lemma { slot, lbd, arcs } => {
                solver.import(narrow(slot), lbd, &arcs)?;
                self.desk.copy(slot, Lags::new(arcs))?;
                Ok(())
            }
            SharedFact::Root(arc) => solver.hold(arc),
        }
    }

    /// Meets the board, and gives the search what it has. Whether the search goes on.
    fn trade<R: Wait>(&mut self, rt: &R, solver: &mut Solver<'_>) -> Result<bool> {
        let received = self.meet_board(rt, solver)?;
        self.learn(received, solver)
    }

    /// Proves a lemma at the desk, where it waits for the book.
    fn prove(&mut self, event: Event, lbd: u32) -> Result<()> {
        let Event::Lemma { slot, arcs, lines } = event else {
            return Ok(());
        };
        let count = arcs.as_slice().len();
        if self.desk.prove(slot, arcs, lines.as_slice())? {
            let arcs = count;
            self.waiting.push(Waiting { slot, arcs, lbd })?;
        }
        Ok(())
    }

    /// Proves a lemma at the desk, once the book has the steps before it; or another event waits for the book.
    fn hand_in<R: Wait>(
        &mut self,
        rt: &R,
        solver: &mut Solver<'_>,
        event: Event,
        lbd: u32,
    ) -> Result<()> {
        if !is_for_desk(&event) {
            self.steps.push(event)?;
            return Ok(());
        }
        if !self.steps.is_empty() {
            self.trade(rt, solver)?;
        }
        self.prove(event, lbd)
    }

    /// Proves all that the search has found. The book knows its best schedule before.
    fn prove_all<R: Wait>(&mut self, rt: &R, solver: &mut Solver<'_>) -> Result<()> {
        self.trade(rt, solver)?;
        for _ in 0..u64::MAX {
            let events = solver.events()?;
            if events.is_empty() {
                break;
            }
            for logged in events {
                self.hand_in(rt, solver, logged.event, logged.lbd)?;
            }
        }
        Ok(())
    }
}

impl<J: Naming> Link for SearchJob<'_, '_, '_, J> {
    fn listen<R: Clock + Wait>(&mut self, _rt: &R, _solver: &mut Solver<'_>) -> Result<bool> {
        Ok(true)
    }

    fn exchange<R: Clock + Wait>(&mut self, rt: &R, solver: &mut Solver<'_>) -> Result<bool> {
        self.prove_all(rt, solver)?;
        self.trade(rt, solver)
    }

    fn leave<R: Clock + Wait>(&mut self, rt: &R, solver: &mut Solver<'_>) -> Result<()> {
        self.prove_all(rt, solver)?;
        self.meet_board(rt, solver)?;
        self.context.board.lock(rt).leave(solver);
        Ok(())
    }
}

/// The first job, beside which the record is written and the program asked.
#[derive(Drop)]
struct FirstJob<'c, 'r, 'p, 'h, H: Host, D: Output, J: Naming + Before> {
    job: SearchJob<'c, 'r, 'p, J>,
    host: &'h mut H,
    recorder: &'c mut Recorder<D, J>,
}

impl<H: Host, D: Output, J: Naming + Before> Link for FirstJob<'_, '_, '_, '_, H, D, J> {
    fn listen<R: Clock + Wait>(&mut self, rt: &R, _solver: &mut Solver<'_>) -> Result<bool> {
        let context = self.job.context;
        self.recorder.record_more(rt, context.board);
        let signal = self.host.signal(context.project);
        let mut board = context.board.lock(rt);
        if self.recorder.has_failed() || matches!(signal, Signal::End) {
            board.is_over = true;
        }
        if let Signal::Take(starts) = signal {
            board.take_schedule(starts)?;
        }
        Ok(!board.is_over)
    }

    fn exchange<R: Clock + Wait>(&mut self, rt: &R, solver: &mut Solver<'_>) -> Result<bool> {
        let goes_on = self.job.exchange(rt, solver)?;
        let context = self.job.context;
        context.board.lock(rt).tell(rt, context.watch, self.host);
        Ok(goes_on)
    }

    fn leave<R: Clock + Wait>(&mut self, rt: &R, solver: &mut Solver<'_>) -> Result<()> {
        self.job.leave(rt, solver)
    }
}

/// The search of a job.
fn solver_of<'r, J: Naming>(
    context: &JobContext<'r, '_, J>,
    number: u64,
) -> Result<Box<Solver<'r>>> {
    let limits = context.limits.solver(number, context.slots);
    boxed(Solver::new(context.instance, context.walks, limits)?)
}

/// Searches in the first job.
pub(crate) fn search_first<'c, R: Clock + Wait, H: Host, D: Output, J: Naming + Before>(
    rt: &R,
    context: &'c JobContext<'_, '_, J>,
    host: &mut H,
    recorder: &'c mut Recorder<D, J>,
) -> Result<()> {
    let mut solver = solver_of(context, 0)?;
    let mut first = FirstJob {
        job: SearchJob::start(rt, context, 0, &mut solver)?,
        host,
        recorder,
    };
    search(rt, context.limits, context.watch, &mut solver, &mut first)
}

/// Searches in a job beside the first.
pub(crate) fn search_beside<R: Clock + Wait, J: Naming>(
    rt: &R,
    context: &JobContext<'_, '_, J>,
    number: u64,
) -> Result<()> {
    let mut solver = solver_of(context, number)?;
    let mut job = SearchJob::start(rt, context, number as usize, &mut solver)?;
    search(rt, context.limits, context.watch, &mut solver, &mut job)
}
