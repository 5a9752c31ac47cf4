//! The search: first decisions, then propagate, learn, go back, restart, choose.

use crate::LineReason;
use crate::analysis::Learnt;
use crate::state::Engine;
use instance::Result;
use propagation::{Conflict, Literal, Reason, Stop};
use std::alloc::AllocError;

/// So many conflicts come before a restart at least.
const LEAST: u64 = 100;

/// The memory of the two means, in conflicts.
const FAST: f64 = 32.0;

const SLOW: u64 = 10_000;

/// How much of the latest mean still must be above the long one.
const MARGIN: f64 = 0.7;

/// When to start again: where lemmas of late have more levels than they used to have (Audemard and Simon 2012).
#[derive(Clone, Copy, Default)]
pub struct Pace {
    fast: f64,
    slow: f64,
    /// Conflicts since the last start, and all.
    here: u64,
    all: u64,
}

impl Pace {
    /// A conflict gave a lemma of so many levels.
    fn note(&mut self, lbd: u32) {
        let lbd = f64::from(lbd.min(1_000_000) as i32);
        self.here = self.here.wrapping_add(1);
        self.all = self.all.wrapping_add(1);
        self.fast = self.fast + (lbd - self.fast) / FAST;
        let count = self.all.clamp(1, SLOW) as i32;
        self.slow = self.slow + (lbd - self.slow) / f64::from(count);
    }

    /// Whether it is time to start again.
    fn is_due(&self) -> bool {
        self.here >= LEAST && self.fast * MARGIN > self.slow
    }
}

/// What a search for schedules under first decisions found.
#[derive(Clone, Copy, PartialEq, Eq, Debug)]
pub enum SubsearchState {
    /// Nothing yet: it goes on.
    Open,
    /// Nothing: it met as many conflicts as it may.
    Stopped,
    /// No schedule has the first decisions.
    Refuted,
    /// The least starts are a schedule.
    Schedule,
}

/// A search under first decisions, which may be interrupted.
#[derive(Drop)]
pub struct Subsearch {
    /// They stand on one level, as one decision.
    first: Vec<Literal>,
    /// What was found is to be learnt from; none where all has followed.
    conflict: Option<Conflict>,
    /// The count of all conflicts at which it stops.
    last: u64,
    pub pace: Pace,
}

/// A conflict, or none; memory that ran out ends the search.
pub(crate) fn conflict_of(flow: Result<(), Stop>) -> Result<Option<Conflict>> {
    match flow {
        Ok(()) => Ok(None),
        Err(Stop::Conflict(conflict)) => Ok(Some(conflict)),
        Err(Stop::Memory) => Err(AllocError),
    }
}

/// Each further reduction of the store comes so many conflicts later after the one before.
const LATER: u64 = 200;

impl Engine<'_> {
    /// A search begins, at the root. It may meet so many conflicts. What one decision contradicts is a lemma; of more
    /// decisions on one level it may be none.
    pub fn start(&mut self, mut first: Vec<Literal>, most: u64, pace: Pace) -> Result<Subsearch> {
        self.go_back(0)?;
        let trail = &self.trail;
        first.retain(|literal: &Literal| !trail.holds(*literal));
        self.floor = u32::from(first.len() > 1);
        self.has_path = false;
        Ok(Subsearch {
            first,
            conflict: conflict_of(self.settle_root())?,
            last: self.counts.conflicts.saturating_add(most),
            pace: Pace { here: 0, ..pace },
        })
    }

    /// A search under a path begins, at the root. Where there is no schedule, the last lemma says so of decisions of the
    /// path alone.
    pub fn start_under(&mut self, path: Vec<Literal>, pace: Pace) -> Result<Subsearch> {
        let run = self.start(path, u64::MAX, pace)?;
        self.has_path = true;
        Ok(run)
    }

    /// Searches until a schedule, until there is none, or for so many steps: conflicts and decisions.
    pub fn search(&mut self, run: &mut Subsearch, steps: u64) -> Result<SubsearchState> {
        for _ in 0..steps {
            if self.is_refuted {
                return Ok(SubsearchState::Refuted);
            }
            let step = match run.conflict.take() {
                Some(conflict) => self.follow_conflict(run, conflict),
                None => self.go_on(run),
            };
            match step {
                Ok(SubsearchState::Open) => {}
                Ok(found) => return Ok(found),
                Err(Stop::Conflict(conflict)) => run.conflict = Some(conflict),
                Err(Stop::Memory) => return Err(AllocError),
            }
        }
        Ok(SubsearchState::Open)
    }

    /// What follows at the root, with what others have proved.
    fn settle_root(&mut self) -> Result<(), Stop> {
        self.admit_all()?;
        self.propagate()
    }

    /// Learns from a conflict, goes back, and sees what follows. The first decisions are at fault where nothing is learnt.
    fn follow_conflict(
        &mut self,
        run: &mut Subsearch,
        conflict: Conflict,
    ) -> Result<SubsearchState, Stop> {
        self.counts.conflicts = self.counts.conflicts.wrapping_add(1);
        self.log_root()?;
        let Some(learnt) = self.analyse(conflict)? else {
            if self.has_path && !self.is_refuted {
                self.blame_first(conflict)?;
            }
            return Ok(SubsearchState::Refuted);
        };
        run.pace.note(learnt.lbd);
        self.follow_lemma(learnt)?;
        Ok(SubsearchState::Open)
    }

    /// Goes back to where the lemma that was learnt sets a literal, and sees what follows.
    fn follow_lemma(&mut self, learnt: Learnt) -> Result<(), Stop> {
        let Learnt { level, lbd, number } = learnt;
        self.go_back(level)?;
        let mut reason = Reason::Given;
        if self.marks.nogood.len() > 1 {
            let place = self.lemmas.learn(&self.marks.nogood, lbd, number)?;
            reason = Reason::Lemma { place };
        }
        if let Some(literal) = self.marks.nogood.first().copied() {
            self.trail.force(literal, reason)?;
        }
        self.propagate()
    }

    /// One step without a conflict: a restart where it is time for one, with a look at imports, or else a decision.
    fn go_on(&mut self, run: &mut Subsearch) -> Result<SubsearchState, Stop> {
        if self.counts.conflicts >= run.last {
            return Ok(SubsearchState::Stopped);
        }
        if self.trail.level() == 0 && self.some_fail(&run.first) {
            self.log_root()?;
            return Ok(SubsearchState::Refuted);
        }
        self.start_again(&mut run.pace)?;
        if self.trail.level() == 0 && !self.imports.is_empty() {
            self.settle_root()?;
            return Ok(SubsearchState::Open);
        }
        self.find_overloads(&run.first)?;
        if !self.decide_next(&run.first)? {
            return Ok(SubsearchState::Schedule);
        }
        self.propagate()?;
        Ok(SubsearchState::Open)
    }

    /// Goes back to the first decisions if it is time to, or to the root if there are imports, or many lemmas are new, of
    /// which some go then.
    fn start_again(&mut self, pace: &mut Pace) -> Result<()> {
        let is_due = self.counts.conflicts >= self.reduction;
        if !is_due && !pace.is_due() && !self.has_late_imports() {
            return Ok(());
        }
        pace.here = 0;
        if is_due {
            return self.reduce();
        }
        let has_imports = !self.imports.is_empty();
        self.go_back(if has_imports { 0 } else { self.floor })
    }

    /// Forgets what did little.
    pub fn reduce(&mut self) -> Result<()> {
        self.go_back(0)?;
        self.log_root()?;
        for number in &self.lemmas.reduce(&self.trail)? {
            self.log.forget(*number)?;
        }
        self.choices.reduce()?;
        self.reduction_step = self.reduction_step.wrapping_add(LATER);
        self.reduction = self.counts.conflicts.wrapping_add(self.reduction_step);
        Ok(())
    }

    /// Looks at long cliques, where a supposed end, a path or nothing is all that is decided.
    fn find_overloads(&mut self, first: &[Literal]) -> Result<(), Stop> {
        let is_short = first.len() < 2 || self.has_path;
        let is_near = is_short && self.trail.level() as usize <= first.len().min(1);
        let place = (
            self.trail.count(),
            self.trail.root_end(),
            first.first().copied(),
        );
        if is_near && self.seen != Some(place) {
            self.cliques.find_overloads(&self.trail)?;
            self.seen = Some(place);
        }
        Ok(())
    }

    /// Whether all of these literals hold.
    fn all_hold(&self, literals: &[Literal]) -> bool {
        for literal in literals {
            if !self.trail.holds(*literal) {
                return false;
            }
        }
        true
    }

    /// Whether one of these literals fails.
    fn some_fail(&self, literals: &[Literal]) -> bool {
        for literal in literals {
            if self.trail.fails(*literal) {
                return true;
            }
        }
        false
    }

    /// Decides on the first decisions, or the next choice. False where all is settled.
    fn decide_next(&mut self, first: &[Literal]) -> Result<bool> {
        if self.trail.level() == 0 && !self.all_hold(first) {
            self.choices.begin_level()?;
            self.decide(first)?;
            return Ok(true);
        }
        let next = self.choices.next(&self.trail, &self.edges)?;
        if let Some(literal) = next {
            self.decide(&[literal])?;
        }
        Ok(next.is_some())
    }

    /// The end that the least starts need.
    fn end_of_least(&self) -> i32 {
        let (mut latest, end) = (0, self.instance.end());
        for edge in self.instance.entering.row(end) {
            if edge.from != end {
                latest = latest.max(self.trail.least(edge.from).wrapping_add(edge.weight));
            }
        }
        latest
    }

    /// The least starts, and the end that they need.
    pub fn schedule(&self) -> Result<Vec<i32>> {
        let mut starts = Vec::new(self.instance.alloc);
        for activity in 0..self.instance.end() {
            starts.push(self.trail.least(activity))?;
        }
        starts.push(self.end_of_least())?;
        Ok(starts)
    }

    /// Schedules have to end by a time from now on. Goes back to the root.
    pub fn end_by(&mut self, time: i32) -> Result<()> {
        self.go_back(0)?;
        let end = Literal::at_most(self.instance.end(), time);
        if self.is_refuted {
            return Ok(());
        }
        match conflict_of(self.trail.force(end, Reason::Given))? {
            Some(_) => self.refute(LineReason::Arcs),
            None => Ok(()),
        }
    }

    /// No schedule ends before this, as far as the root knows. Goes back to the root.
    pub fn least_end(&mut self) -> Result<i32> {
        self.go_back(0)?;
        self.log_root()?;
        Ok(self.trail.least(self.instance.end()))
    }

    /// The values of a schedule are tried first. Where nothing else says so, activities are started in its order.
    pub fn prefer(&mut self, starts: &[i32]) {
        self.choices
            .prefer(self.instance, starts, &self.log.classes);
    }
}
