//! The log of a proof.

use crate::member_sets::{Apart, MemberSets};
use instance::{Classes, Edge, Instance, Late, Member, Result, Rivals, Shown, Table, reverse};
use lemma_log::{Event, Lines};
use lemma_proof::{Lags, Line, WindowOverload};
use network::{Lag, Pair};
use propagation::{Literal, NEVER};
use std::collections::{BTreeSet, HashMap};
use std::mem;

/// Why a literal follows from others, or why literals contradict each other. Times are in periods.
#[derive(Clone, Copy, PartialEq, Eq, Debug)]
pub enum LineReason {
    /// By lags and orders alone.
    Arcs,
    /// The other side of a class of orders does not fit.
    Force,
    /// By the lemma of a number.
    Use { lemma: u32 },
    /// What must run from one time to another needs too much of a resource.
    Load { resource: u32, from: i32, to: i32 },
    /// The members of a clique or a machine, a set that the log keeps, need more time than there is from one time to another;
    /// or they would, in the other order of two of them, which the set names. Of fewer than two members their orders alone
    /// say it.
    Clique { set: u32, from: i32, to: i32 },
}

/// A literal, and why it follows.
#[derive(Clone, Copy, PartialEq, Eq, Debug)]
pub struct Inference {
    pub literal: Literal,
    pub reason: LineReason,
}

/// No lemma has this number.
const NO_LEMMA: u32 = u32::MAX;

/// The LBD of a lemma that says nothing to other searches.
pub const OWN: u32 = u32::MAX;

/// The slots of a record that the lemmas of a search go to: every `jobs`-th one, from `job` on.
#[derive(Clone, Copy, PartialEq, Eq, Debug)]
pub struct Slots {
    pub job: u32,
    pub jobs: u32,
    /// How many slots of the record are taken at first.
    pub taken: u32,
}

/// An event, and of how many levels the literals of its lemma are (the LBD of Audemard and Simon 2009).
#[derive(Drop)]
pub struct LoggedEvent {
    pub event: Event,
    pub lbd: u32,
}

/// The events of a proof that were not handed on yet, and the numbers of lemmas. Each is the slot that the lemma has in a
/// record, so that searches know each other's.
#[derive(Drop)]
pub struct Log<'a> {
    instance: &'a Instance,
    /// The classes of orders. Class k is the variable after the activities and k others.
    pub(crate) classes: Classes,
    /// By class that is more than an order: the lemma that one of its sides holds.
    either: Table<u32>,
    /// By edge of a class, but the first ones: the lemma that it holds where its side does.
    further: Table<u32>,
    /// By two members: the lemma that a side of their class holds where they stand so, if no walk says it.
    late: HashMap<Late, u32>,
    /// By two anchors: the lemma that the second one starts so long after the first where a side of their class holds.
    delays: HashMap<(u32, u32), u32>,
    /// Whether events are kept.
    pub is_kept: bool,
    told: Vec<LoggedEvent>,
    sets: MemberSets,
    slots: Slots,
    /// The numbers of lemmas in use, and of those that this search does without, and another one may not.
    used: BTreeSet<u32>,
    forgotten: BTreeSet<u32>,
    /// Of the search's own: how many were ever used, and those that are free again.
    count: u32,
    free: Vec<u32>,
}

/// An arc of a record.
fn lag(edge: Edge) -> Lag {
    Lag {
        from: edge.from as usize,
        to: edge.to as usize,
        weight: i64::from(edge.weight),
    }
}

/// The line that says that the second of two rivals can't come first.
fn force(edge: Edge) -> Line {
    let (before, after) = (edge.from as usize, edge.to as usize);
    Line::Force(Pair { before, after })
}

impl<'a> Log<'a> {
    /// An empty log of a search over classes of orders, whose lemmas go to these slots. One that isn't kept forgets all.
    pub fn new(
        instance: &'a Instance,
        classes: Classes,
        is_kept: bool,
        slots: Slots,
    ) -> Result<Log<'a>> {
        let alloc = instance.alloc;
        // How many of its own slots are taken at first.
        let taken = slots.taken.saturating_add(slots.jobs.saturating_sub(1));
        let count = taken.checked_div(slots.jobs).unwrap_or(0);
        Ok(Log {
            instance,
            classes,
            either: Table::new(alloc, NO_LEMMA),
            further: Table::new(alloc, NO_LEMMA),
            late: HashMap::new(alloc),
            delays: HashMap::new(alloc),
            is_kept,
            told: Vec::new(alloc),
            sets: MemberSets::new(alloc),
            slots,
            used: BTreeSet::new(alloc),
            forgotten: BTreeSet::new(alloc),
            count,
            free: Vec::new(alloc),
        })
    }

    /// The class of a literal, and its side: 0 if it is the class's own literal, 1 if it is the negation. None of a bound.
    fn side_of(&self, literal: Literal) -> Option<(u32, u32)> {
        let class = literal.variable().checked_sub(self.instance.count())?;
        (class < self.classes.count()).then_some((class, literal.slot % 2))
    }

    /// The edge of a literal: the first one of a side of a class.
    fn edge(&self, literal: Literal) -> Edge {
        let activity = literal.variable();
        match self.side_of(literal) {
            Some((class, side)) => self.classes.first_edge(class, side),
            None if literal.is_lower() => Edge::new(0, activity, literal.value),
            None => Edge::new(activity, 0, literal.value),
        }
    }

    /// The edge of a literal in a lemma. That of a side of a class holds just where the first one of the other side does not.
    fn supposed(&self, literal: Literal) -> Edge {
        match self.side_of(literal) {
            Some((class, side)) => reverse(self.classes.first_edge(class, 1u32.wrapping_sub(side))),
            None => self.edge(literal),
        }
    }

    /// Whether an edge between two activities shows a literal of their class: by walks and lemmas.
    pub(crate) fn is_shown_by(&self, literal: Literal, edge: Edge) -> bool {
        let reaches = |known: Edge| {
            (known.from, known.to) == (edge.from, edge.to) && edge.weight >= known.weight
        };
        let Some((class, _)) = self.side_of(literal) else {
            return false;
        };
        let shows_order = edge.weight > self.instance.durations[edge.to].wrapping_neg();
        !self.classes.is_loose(class) && shows_order
            || reaches(self.supposed(literal))
            || reaches(self.edge(literal))
    }

    /// The lemma by which an order's edge of this number holds where its side does; none if it is the first one.
    pub(crate) fn further(&self, edge: u32) -> Option<u32> {
        let lemma = self.further[edge];
        (lemma != NO_LEMMA).then_some(lemma)
    }

    /// The arc of a decision that is one side of a split: the arcs of two sides are each other's reverse.
    pub fn side(&self, literal: Literal, is_second: bool) -> Lag {
        lag(match is_second {
            true => self.edge(literal),
            false => self.supposed(literal),
        })
    }

    /// Adds the lines that show a literal, or that none is left. What arcs alone show needs none.
    fn put(&self, lines: &mut Vec<Line>, link: Inference) -> Result<()> {
        let Inference { literal, reason } = link;
        match reason {
            LineReason::Arcs | LineReason::Force => {}
            LineReason::Use { lemma } => lines.push(Line::Use(lemma as usize))?,
            LineReason::Load { resource, from, to } => {
                let over = WindowOverload::Load {
                    resource: resource as usize,
                    from: i64::from(from),
                    to: i64::from(to),
                };
                let arc = self.arc_shown(literal);
                lines.push(Line::Push { arc, over })?;
            }
            LineReason::Clique { set, from, to } => {
                self.put_clique(lines, literal, set, (from, to))?;
            }
        }
        self.put_order(lines, link)
    }

    /// The arc of a literal, if there is one.
    fn arc_shown(&self, literal: Literal) -> Option<Lag> {
        (literal != NEVER).then_some(lag(self.edge(literal)))
    }

    /// Adds the lines of the members of a set, which have to run from one time to another.
    fn put_clique(
        &self,
        lines: &mut Vec<Line>,
        literal: Literal,
        set: u32,
        (from, to): (i32, i32),
    ) -> Result<()> {
        for lemma in self.sets.uses(set) {
            lines.push(Line::Use(*lemma as usize))?;
        }
        if self.sets.len(set) < 2 {
            return Ok(());
        }
        let over = self.sets.overload(set, from, to)?;
        let arc = match self.sets.shown(set) {
            // What contradicts the literal is there already, unless that takes a lemma.
            Some(late) if literal == NEVER && self.lemma_of(late).is_none() => None,
            Some(late) => Some(lag(late.edge())),
            None => self.arc_shown(literal),
        };
        lines.push(Line::Push { arc, over })?;
        Ok(())
    }

    /// The lemma by which a side of a class holds where what a reason shows of two members does, if no walk says it.
    fn lemma_of_shown(&self, reason: LineReason) -> Option<u32> {
        match reason {
            LineReason::Clique { set, .. } => self
                .sets
                .shown(set)
                .and_then(|late: Late| self.lemma_of(late)),
            _ => None,
        }
    }

    /// Adds the line by which all of a literal's side holds, where it is one of a class: what a reason shows of an order is
    /// that the other one does not fit.
    fn put_order(&self, lines: &mut Vec<Line>, link: Inference) -> Result<()> {
        let Inference { literal, reason } = link;
        let either = self.side_of(literal).map(|(class, _)| self.either[class]);
        match (self.lemma_of_shown(reason), either) {
            (Some(lemma), _) => lines.push(Line::Use(lemma as usize))?,
            (None, None) => {}
            (None, Some(NO_LEMMA)) => {
                if matches!(reason, LineReason::Force | LineReason::Clique { .. }) {
                    lines.push(force(self.edge(literal)))?;
                }
            }
            (None, Some(lemma)) => lines.push(Line::Use(lemma as usize))?,
        }
        Ok(())
    }

    /// The lemma by which a side of a class holds where two members stand so, if no walk says it.
    fn lemma_of(&self, late: Late) -> Option<u32> {
        self.late.get(&late).copied()
    }

    /// Whether some of these orders, each as it is not, follow by lemmas alone.
    pub(crate) fn needs_any(&self, orders: &[Late]) -> bool {
        !self.late.is_empty()
            && orders
                .iter()
                .any(|late: &Late| self.lemma_of(*late).is_some())
    }

    /// Whether a literal is one of a class that is more than an order.
    pub(crate) fn is_delayed(&self, literal: Literal) -> bool {
        self.side_of(literal)
            .is_some_and(|(class, _)| self.either[class] != NO_LEMMA)
    }

    /// Tells a lemma with its lines.
    fn tell(&mut self, number: u32, lbd: u32, arcs: Vec<Lag>, lines: Vec<Line>) -> Result<()> {
        let event = Event::Lemma {
            slot: number as usize,
            arcs: Lags::new(arcs),
            lines: Lines::new(lines),
        };
        self.told.push(LoggedEvent { event, lbd })?;
        Ok(())
    }

    /// A lemma of one edge, which always holds, or of none, with its lines.
    fn tell_root(&mut self, edge: Option<Edge>, lines: Vec<Line>) -> Result<()> {
        let mut arcs = Vec::new(self.instance.alloc);
        if let Some(edge) = edge {
            arcs.push(lag(reverse(edge)))?;
        }
        self.tell(0, 0, arcs, lines)
    }

    /// The order of an edge always holds, as the other order does not fit.
    pub fn order(&mut self, edge: Edge) -> Result<()> {
        if !self.is_kept {
            return Ok(());
        }
        let mut lines = Vec::new(self.instance.alloc);
        lines.push(force(edge))?;
        self.tell_root(Some(edge), lines)
    }

    /// A literal always holds. What holds by lags and orders alone needs no event.
    pub fn root(&mut self, link: Inference) -> Result<()> {
        let mut lines = Vec::new(self.instance.alloc);
        self.put(&mut lines, link)?;
        if self.is_kept && !lines.is_empty() {
            let edge = self.edge(link.literal);
            self.tell_root(Some(edge), lines)?;
        }
        Ok(())
    }

    /// No schedule is left.
    pub fn end(&mut self, reason: LineReason) -> Result<()> {
        let (mut lines, literal) = (Vec::new(self.instance.alloc), NEVER);
        self.put(&mut lines, Inference { literal, reason })?;
        if self.is_kept {
            self.tell_root(None, lines)?;
        }
        Ok(())
    }

    /// Tells what a record needs of the classes that are more than an order.
    pub(crate) fn tell_classes(&mut self) -> Result<()> {
        if !self.is_kept || self.classes.lemmas.is_empty() {
            return Ok(());
        }
        let (classes, edges) = (self.classes.count(), self.classes.edges.values.count());
        self.either.fill(classes as usize, NO_LEMMA)?;
        self.further.fill(edges as usize, NO_LEMMA)?;
        for place in 0..self.classes.proofs.count() {
            self.tell_delay(place)?;
        }
        Ok(())
    }

    /// Tells a lemma of a class, with the orders that show it.
    fn tell_delay(&mut self, place: u32) -> Result<()> {
        let Some(lemma) = self.classes.lemmas.get(place as usize).copied() else {
            return Ok(());
        };
        let alloc = self.instance.alloc;
        let (mut arcs, mut lines) = (Vec::new(alloc), Vec::new(alloc));
        for edge in lemma.edges {
            arcs.push(lag(edge))?;
        }
        for Rivals { first, second } in self.classes.proofs.row(place) {
            lines.push(force(Edge::new(*first, *second, 0)))?;
        }
        let number = self.number()?;
        match lemma.shown {
            Shown::Either { class } => self.either[class] = number,
            Shown::Further { edge } => self.further[edge] = number,
            Shown::Late(late) => {
                self.late.insert(late, number)?;
            }
            Shown::Delay { from, to } => {
                self.delays.insert((from, to), number)?;
            }
            Shown::Apart => {}
        }
        self.tell(number, OWN, arcs, lines)
    }

    /// A number that no lemma has.
    fn number(&mut self) -> Result<u32> {
        let Slots { job, jobs, .. } = self.slots;
        let next = self.count.wrapping_mul(jobs).wrapping_add(job);
        let number = self.free.pop().unwrap_or(next);
        self.count = self.count.wrapping_add(u32::from(number == next));
        self.used.insert(number)?;
        Ok(number)
    }

    /// Not all literals of a nogood hold, since these links follow from them, in the order of their events, up to the one
    /// that contradicts them, which has no literal. Gives the lemma's number; one of one literal, which always fails, has
    /// none of its own.
    pub fn lemma(
        &mut self,
        nogood: &[Literal],
        lbd: u32,
        links: &[(u32, Inference)],
    ) -> Result<u32> {
        if !self.is_kept {
            return Ok(0);
        }
        let number = match nogood.len() {
            0 | 1 => 0,
            _ => self.number()?,
        };
        let arcs = self.supposed_all(nogood)?;
        let lines = self.lines_of(nogood, links)?;
        self.tell(number, lbd, arcs, lines)?;
        Ok(number)
    }

    /// The arcs of the literals of a lemma.
    fn supposed_all(&self, nogood: &[Literal]) -> Result<Vec<Lag>> {
        let mut arcs = Vec::with_capacity(self.instance.alloc, nogood.len())?;
        for literal in nogood {
            arcs.push(lag(self.supposed(*literal)))?;
        }
        Ok(arcs)
    }

    /// The lines of a lemma: those of its literals, and then those of what follows from them.
    fn lines_of(&self, nogood: &[Literal], links: &[(u32, Inference)]) -> Result<Vec<Line>> {
        let most = nogood.len().saturating_add(links.len());
        let mut lines = Vec::with_capacity(self.instance.alloc, most)?;
        for literal in nogood {
            let (literal, reason) = (*literal, LineReason::Force);
            self.put(&mut lines, Inference { literal, reason })?;
        }
        for (_, link) in links {
            self.put(&mut lines, *link)?;
        }
        Ok(lines)
    }

    /// The lemma of a number, which is another search's, is used from now on.
    pub fn import(&mut self, number: u32) -> Result<()> {
        self.forgotten.remove(&number);
        self.used.insert(number)?;
        Ok(())
    }

    /// The lemma of a number is forgotten.
    pub fn forget(&mut self, number: u32) -> Result<()> {
        if self.used.remove(&number) {
            self.forgotten.insert(number)?;
            let (slot, lbd) = (number as usize, 0);
            let event = Event::Drop { slot };
            self.told.push(LoggedEvent { event, lbd })?;
        }
        Ok(())
    }

    /// All lemmas are forgotten.
    pub fn forget_all(&mut self) -> Result<()> {
        let used: Vec<u32> = self.used.iter().copied().collect(self.instance.alloc)?;
        for number in &used {
            self.forget(*number)?;
        }
        Ok(())
    }

    /// No search uses the lemma of a number any more: one of the search's own is free again.
    pub fn release(&mut self, number: u32) -> Result<()> {
        if self.forgotten.remove(&number) {
            self.free.push(number)?;
        }
        Ok(())
    }

    /// Keeps a set of members of a clique or a machine, which rise, until the events are handed on, with the orders of members
    /// that it needs, each as it is not, and the one that it shows. Gives its number.
    pub(crate) fn set(
        &mut self,
        kind: Apart,
        members: &[Member],
        orders: &[Late],
        shown: Option<Late>,
    ) -> Result<u32> {
        let lemmas = orders.iter().filter_map(|late: &Late| self.lemma_of(*late));
        let uses: Vec<u32> = lemmas.collect(self.instance.alloc)?;
        self.keep(kind, members, &uses, shown)
    }

    /// Keeps a set of intervals of groups, which rise, until the events are handed on, with the delays of anchors that it
    /// needs. Gives its number.
    pub(crate) fn tour(&mut self, members: &[Member], delays: &[(u32, u32)]) -> Result<u32> {
        let lemmas = delays
            .iter()
            .filter_map(|anchors| self.delays.get(anchors).copied());
        let uses: Vec<u32> = lemmas.collect(self.instance.alloc)?;
        self.keep(Apart::Intervals, members, &uses, None)
    }

    /// Keeps a set, if events are kept. Gives its number.
    fn keep(
        &mut self,
        kind: Apart,
        members: &[Member],
        uses: &[u32],
        shown: Option<Late>,
    ) -> Result<u32> {
        match self.is_kept {
            true => self.sets.push(kind, members, uses, shown),
            false => Ok(0),
        }
    }

    /// Hands on the events.
    pub fn take(&mut self) -> Vec<LoggedEvent> {
        let alloc = self.instance.alloc;
        self.sets = MemberSets::new(alloc);
        mem::replace(&mut self.told, Vec::new(alloc))
    }
}
