//! Analysis of a conflict: back over the trail to the first unique implication point (Marques-Silva and Sakallah 1999),
//! with literals as weak as they may be. Literals of lower levels that follow from the others go.

use crate::state::Engine;
use crate::{Inference, LineReason};
use instance::Result;
use propagation::{Conflict, Literal, Reason};

/// What an analysis found, beside the lemma.
#[derive(Clone, Copy)]
pub(crate) struct Learnt {
    /// The level to go back to.
    pub(crate) level: u32,
    /// How many levels the literals are of, with the last (the LBD of Audemard and Simon 2009).
    pub(crate) lbd: u32,
    /// The lemma's number in the log.
    pub(crate) number: u32,
}

/// The most literals of a lemma: a log of lemmas refuses longer ones.
const LONGEST: usize = 1_024;

/// How many explanations deep a literal is looked at.
const DEPTH: usize = 60;

/// A value of an event that is looked at: whether all that it follows from is in the nogood.
#[derive(Clone, Copy)]
pub(crate) struct Frame {
    pub(crate) event: u32,
    pub(crate) link: Inference,
    /// Its literals are the last ones found, from here on; those from `next` on are still to be looked at.
    from: u32,
    next: u32,
}

impl Engine<'_> {
    /// The literal that is needed of an event.
    pub(crate) fn needed(&self, event: u32) -> Literal {
        Literal::new(self.trail.event(event).slot, self.marks.need[event])
    }

    /// Learns from a conflict. The lemma is `marks.nogood`, its literals negated: the one to be set first, one of the level
    /// to go back to second. One that is too long is left out: the search goes back to the root. None where the root or
    /// several first decisions alone are at fault, for which there may be no unique point.
    pub(crate) fn analyse(&mut self, conflict: Conflict) -> Result<Option<Learnt>> {
        self.marks.begin(self.trail.count())?;
        let end = self.explain_conflict(conflict)?;
        let top = self.top_level();
        if top > self.floor {
            return Ok(Some(self.learn(top, end)?));
        }
        if top == 0 {
            self.log.end(end)?;
            self.is_refuted = true;
        }
        Ok(None)
    }

    /// Learns from what was found of a conflict: the last level of it, and its reason.
    fn learn(&mut self, top: u32, end: LineReason) -> Result<Learnt> {
        let point = self.resolve(top)?;
        let first = self.minimise(point, top)?;
        self.marks.end(end)?;
        self.make_lemma(first)
    }

    /// Makes the lemma of the nogood and this literal, and tells it to the log.
    fn make_lemma(&mut self, first: Literal) -> Result<Learnt> {
        let (mut level, lbd) = self.put_in_order(first)?;
        let mut number = 0;
        if self.marks.nogood.len() > LONGEST {
            self.marks.nogood.clear();
            level = 0;
        } else {
            number = self
                .log
                .lemma(&self.marks.nogood, lbd, &self.marks.replaced)?;
        }
        for literal in self.marks.nogood.iter_mut() {
            *literal = !*literal;
        }
        self.choices.age();
        self.lemmas.age();
        Ok(Learnt { level, lbd, number })
    }

    /// The last level of the literals that were found.
    fn top_level(&self) -> u32 {
        let mut top = 0;
        for literal in &self.marks.found.items {
            top = top.max(self.trail.level_of(*literal));
        }
        top
    }

    /// The literals that were found are needed. Gives how many events of the last level are so for the first time.
    pub(crate) fn note_found(&mut self, top: u32) -> Result<u32> {
        let mut count = 0u32;
        for at in 0..self.marks.found.count() {
            let literal = self.marks.found[at];
            let event = self.trail.event_of(literal);
            let level = self.trail.event(event).level;
            if level > 0 && self.marks.need(event, literal.value)? {
                if level == top {
                    count = count.wrapping_add(1);
                } else {
                    self.marks.lower.push(event)?;
                }
            }
        }
        self.marks.found.items.clear();
        Ok(count)
    }

    /// Replaces needed events of the last level by what they follow from, from the last one on, until one is left.
    fn resolve(&mut self, top: u32) -> Result<u32> {
        let mut count = self.note_found(top)?;
        for event in (0..self.trail.count()).rev() {
            if !self.marks.is_needed(event) {
                continue;
            }
            let literal = self.needed(event);
            self.choices.bump(literal)?;
            if count <= 1 {
                return Ok(event);
            }
            let reason = self.trail.event(event).reason;
            self.reward(reason);
            let reason = self.explain(literal, reason, event)?;
            self.marks.replace(event, Inference { literal, reason })?;
            count = count.wrapping_sub(1).wrapping_add(self.note_found(top)?);
        }
        Ok(0)
    }

    /// An analysis uses what followed for a reason.
    fn reward(&mut self, reason: Reason) {
        match reason {
            Reason::Lemma { place } => self.lemmas.touch(place),
            Reason::Edge { clique, .. } => self.cliques.pay(clique),
            Reason::Energy { resource, .. } => self.energy.pay(resource),
            _ => {}
        }
    }

    /// The nogood: of lower levels what does not follow from the rest. Gives the literal of the unique point.
    fn minimise(&mut self, point: u32, top: u32) -> Result<Literal> {
        let first = self.needed(point);
        self.marks.forget_replaced(&self.trail, top);
        for at in 0..self.marks.lower.count() {
            let event = self.marks.lower[at];
            let literal = self.needed(event);
            self.choices.bump(literal)?;
            if !self.is_redundant(event, literal.value)? {
                self.marks.nogood.push(literal)?;
            }
        }
        Ok(first)
    }

    /// A frame for a value of an event, which is no decision: what it follows from is found.
    fn frame(&mut self, event: u32, value: i32) -> Result<Frame> {
        let found = self.trail.event(event);
        let literal = Literal::new(found.slot, value);
        let from = self.marks.found.count();
        let reason = self.explain(literal, found.reason, event)?;
        Ok(Frame {
            event,
            link: Inference { literal, reason },
            from,
            next: from,
        })
    }

    /// Whether what a needed value of an event follows from is in the nogood already.
    fn is_redundant(&mut self, event: u32, value: i32) -> Result<bool> {
        if self.trail.event(event).reason == Reason::Decision {
            return Ok(false);
        }
        let first = self.frame(event, value)?;
        self.marks.frames.clear();
        self.marks.frames.push(first)?;
        let is_redundant = self.all_follow()?;
        self.marks.found.items.clear();
        Ok(is_redundant)
    }

    /// All that the last frame's value follows from is in the nogood.
    fn end_frame(&mut self, frame: Frame) -> Result<()> {
        self.marks.found.truncate(frame.from);
        self.marks.note_gone(frame.event, frame.link.literal.value)?;
        self.marks.replace(frame.event, frame.link)?;
        self.marks.frames.pop();
        Ok(())
    }

    /// Whether all that frames have still to look at follows from the nogood.
    fn all_follow(&mut self) -> Result<bool> {
        for _ in 0..u64::MAX {
            let Some(frame) = self.marks.frames.last_mut() else {
                break;
            };
            let at = frame.next;
            if at >= self.marks.found.count() {
                let frame = *frame;
                self.end_frame(frame)?;
                continue;
            }
            frame.next = at.wrapping_add(1);
            let literal = self.marks.found[at];
            let cause = self.trail.event_of(literal);
            if self.trail.event(cause).level == 0 || self.marks.has(cause, literal.value) {
                continue;
            }
            if self.is_needed_itself(cause, literal) {
                self.marks.note_hard()?;
                return Ok(false);
            }
            let next = self.frame(cause, literal.value)?;
            self.marks.frames.push(next)?;
        }
        Ok(true)
    }

    /// Whether nothing else can stand for a literal of an event: it is a decision, deep, or known to be needed.
    fn is_needed_itself(&self, event: u32, literal: Literal) -> bool {
        self.trail.event(event).reason == Reason::Decision
            || self.marks.frames.len() >= DEPTH
            || self.marks.is_hard(event, literal.value)
    }

    /// Whether lags of the root imply one bound by another one.
    fn implies(&self, by: Literal, literal: Literal) -> bool {
        let (own, other) = (literal.variable(), by.variable());
        let (from, to) = if literal.is_lower() {
            (other, own)
        } else {
            (own, other)
        };
        own.max(other) < self.instance.count()
            && own != other
            && by.is_lower() == literal.is_lower()
            && self
                .walks
                .reaches(from, to, literal.value.wrapping_sub(by.value))
    }

    /// Whether other literals of the nogood, or the first one, imply one by lags.
    fn is_implied(&self, first: Literal, literal: Literal) -> bool {
        if literal.variable() >= self.instance.count() {
            return false;
        }
        for by in &self.marks.nogood {
            if self.implies(*by, literal) {
                return true;
            }
        }
        self.implies(first, literal)
    }

    /// Leaves out of the nogood what its other literals, or the first one, imply by lags.
    fn leave_implied(&mut self, first: Literal) {
        for at in (0..self.marks.nogood.len()).rev() {
            let Some(literal) = self.marks.nogood.get(at).copied() else {
                break;
            };
            if self.is_implied(first, literal) {
                self.marks.nogood.swap_remove(at);
            }
        }
    }

    /// Puts the first literal before the nogood, and one of the last level of the others second. Gives this level, and how
    /// many levels there are; each of several first decisions counts, and all of a path as one.
    fn put_in_order(&mut self, first: Literal) -> Result<(u32, u32)> {
        self.leave_implied(first);
        self.marks.keep_greatest(first);
        let levels = self.levels()?;
        let (mut level, mut second) = (0, 0);
        for (place, here) in levels.iter().enumerate() {
            if *here > level {
                (level, second) = (*here, place);
            }
        }
        let lbd = self.count_levels(levels);
        if second < self.marks.nogood.len() {
            self.marks.nogood.swap(0, second);
        }
        self.marks.nogood.insert(0, first)?;
        Ok((level, lbd))
    }

    /// The levels of the literals of the nogood.
    fn levels(&self) -> Result<Vec<u32>> {
        let count = self.marks.nogood.len();
        let mut levels = Vec::with_capacity(self.instance.alloc, count)?;
        for literal in &self.marks.nogood {
            levels.push(self.trail.level_of(*literal))?;
        }
        Ok(levels)
    }

    /// How many levels these are, with the last.
    fn count_levels(&self, mut levels: Vec<u32>) -> u32 {
        levels.sort_unstable();
        let (mut firsts, mut others, mut last) = (0u32, 1u32, self.floor);
        for level in &levels {
            if *level <= self.floor {
                firsts = firsts.wrapping_add(1);
            } else if *level != last {
                others = others.wrapping_add(1);
                last = *level;
            }
        }
        if self.has_path {
            firsts = firsts.min(1);
        }
        firsts.wrapping_add(others)
    }

    /// Tells the log what the root has got since.
    pub(crate) fn log_root(&mut self) -> Result<()> {
        for event in self.logged..self.trail.root_end() {
            let found = self.trail.event(event);
            let literal = Literal::new(found.slot, found.new);
            if self.log.is_kept {
                let reason = self.explain(literal, found.reason, event)?;
                self.marks.found.items.clear();
                self.log.root(Inference { literal, reason })?;
            }
        }
        self.logged = self.trail.root_end().max(self.logged);
        Ok(())
    }

    /// No schedule is left, for a reason of the root.
    pub(crate) fn refute(&mut self, reason: LineReason) -> Result<()> {
        self.log_root()?;
        self.log.end(reason)?;
        self.is_refuted = true;
        Ok(())
    }
}
