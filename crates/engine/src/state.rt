//! The state of a search: the trail, the propagators that read it, lemmas, choices, and the log of the proof.

use crate::choices::Choices;
use crate::imports::Import;
use crate::marks::Marks;
use crate::search::conflict_of;
use crate::{LineReason, Log, Slots};
use instance::{
    Classes, Edge, Instance, Model, Result, Settled, Table, Walks, settle, start_sequence,
};
use propagation::{Cliques, Edges, Energy, Lemmas, Literal, Stop, TimeTable, Tours, Trail};

/// What a search is made with.
#[derive(Clone, Copy)]
pub struct Options {
    /// The greatest makespan of a schedule, in periods.
    pub most: i32,
    /// Whether the log of its proof is kept.
    pub has_log: bool,
    /// Whether it looks at cliques and energy too. These help to refute: a search for any schedule goes without.
    pub is_thorough: bool,
    /// Shakes the first weights.
    pub seed: u64,
    /// Where its lemmas go.
    pub slots: Slots,
    /// What was done before.
    pub done: SearchCounts,
}

/// How much was done.
#[derive(Clone, Copy, PartialEq, Eq, Debug, Default)]
pub struct SearchCounts {
    pub conflicts: u64,
    pub decisions: u64,
    /// Events that were followed.
    pub events: u64,
}

/// So many steps of a look at energy, or at tours, take about as long as an event.
const STEPS: u64 = 200;

/// The first reduction of the store comes after so many conflicts.
const FIRST_REDUCTION: u64 = 2_000;

/// A search of a project for schedules below a ceiling.
#[derive(Drop)]
pub struct Engine<'a> {
    pub(crate) instance: &'a Instance,
    /// The longest walks over lags and settled orders.
    pub(crate) walks: Walks,
    pub(crate) trail: Trail,
    pub(crate) edges: Edges,
    pub(crate) table: TimeTable<'a>,
    pub(crate) cliques: Cliques<'a>,
    /// Where groups run one after the other, and that says more than cliques do.
    pub(crate) tours: Option<Tours>,
    pub(crate) energy: Energy<'a>,
    pub(crate) lemmas: Lemmas,
    /// What others have proved and it has not looked at yet, and the count of conflicts when it did so last.
    pub(crate) imports: Vec<Import>,
    pub(crate) looked: u64,
    pub(crate) choices: Choices,
    pub(crate) marks: Marks,
    /// The log of the proof.
    pub log: Log<'a>,
    /// Events of the root before this one are in the log.
    pub(crate) logged: u32,
    /// Events before this one were followed by arcs, orders and lemmas.
    queue: u32,
    /// How many changes the time table had when each level began.
    table_marks: Table<u32>,
    /// Where long cliques were looked at last: how many events there were, how many of the root, and what was supposed.
    pub(crate) seen: Option<(u32, u32, Option<Literal>)>,
    /// Whether no schedule is left.
    pub is_refuted: bool,
    /// 1 where several first decisions stand on the first level, else 0.
    pub(crate) floor: u32,
    /// Whether the first decisions are a path: where they are at fault, a lemma says so.
    pub(crate) has_path: bool,
    /// The count of conflicts at which lemmas are forgotten next, and how far it is from one such count to the next.
    pub(crate) reduction: u64,
    pub(crate) reduction_step: u64,
    /// How much was done.
    pub counts: SearchCounts,
}

/// The first values of all slots, for schedules of a makespan at most `most`.
fn first_values(
    instance: &Instance,
    settled: &Settled,
    classes: &Classes,
    most: i32,
) -> Result<Table<i32>> {
    let mut values = Table::new(instance.alloc, 0);
    let walks = &settled.walks;
    for activity in 0..instance.count() {
        let tail = walks.longest(activity, instance.end()).unwrap_or(0);
        let back = walks.longest(activity, 0).unwrap_or(i32::MIN);
        values.push(walks.longest(0, activity).unwrap_or(0))?;
        values.push(tail.wrapping_sub(most).max(back))?;
    }
    for _ in 0..classes.count() {
        values.items.extend_from_slice(&[0, -1])?;
    }
    Ok(values)
}

/// Whether some of a list may run at once: lags and open orders don't part them.
fn may_overlap(instance: &Instance, settled: &Settled, users: &[u32]) -> bool {
    for a in users {
        for b in users {
            if *a < *b && !settled.is_parted(instance, *a, *b) {
                return true;
            }
        }
    }
    false
}

/// Whether a resource is not enough for all of its users at once.
fn is_scarce(instance: &Instance, resource: u32, users: &[u32]) -> bool {
    let mut sum = 0i64;
    for user in users {
        sum = sum.wrapping_add(i64::from(instance.demand(*user, resource)));
    }
    sum > i64::from(instance.capacities[resource])
}

/// The resources of which some users may run at once, but not all.
fn shared_resources(instance: &Instance, settled: &Settled) -> Result<Vec<u32>> {
    let mut shared = Vec::new(instance.alloc);
    for resource in 0..instance.resource_count() {
        let users = instance.users(resource)?;
        if is_scarce(instance, resource, &users) && may_overlap(instance, settled, &users) {
            shared.push(resource)?;
        }
    }
    Ok(shared)
}

/// What a search decides on. One for any schedule goes without groups and cliques.
fn model_of(instance: &Instance, settled: &Settled, is_thorough: bool) -> Result<Model> {
    match is_thorough {
        true => Model::new(instance, settled),
        false => Model::plain(instance, settled),
    }
}

/// The choices of a search that has tried nothing yet.
fn choices_of(
    instance: &Instance,
    settled: &Settled,
    trail: &Trail,
    only_orders: bool,
    seed: u64,
) -> Result<Choices> {
    let sequence = start_sequence(instance, &settled.walks)?;
    Choices::new(instance.alloc, trail, sequence, only_orders, seed)
}

/// What tells which values follow from others.
#[derive(Drop)]
struct Propagators<'a> {
    trail: Trail,
    edges: Edges,
    table: TimeTable<'a>,
    cliques: Cliques<'a>,
    tours: Option<Tours>,
    energy: Energy<'a>,
}

/// The propagators of a search that has followed nothing yet, for resources that some users may share, but not all.
fn propagators_of<'a>(
    instance: &'a Instance,
    settled: &Settled,
    model: &Model,
    resources: &[u32],
    options: Options,
) -> Result<Propagators<'a>> {
    let edges = Edges::new(instance, settled, &model.classes)?;
    let machine = model.machine.as_ref();
    let cliques = Cliques::new(instance, &edges, &model.cliques, machine)?;
    let tours = match machine {
        Some(machine) => Some(Tours::new(instance, &edges, machine)?),
        None => None,
    };
    let table = TimeTable::new(instance, resources)?;
    let looked_at = if options.is_thorough { resources } else { &[] };
    let energy = Energy::new(instance, looked_at)?;
    let values = first_values(instance, settled, &model.classes, options.most)?;
    Ok(Propagators {
        trail: Trail::new(instance.alloc, values)?,
        edges,
        table,
        cliques,
        tours,
        energy,
    })
}

/// What a search learns from conflicts.
#[derive(Drop)]
struct Learning<'a> {
    lemmas: Lemmas,
    choices: Choices,
    log: Log<'a>,
}

/// What a search knows that has met no conflict yet.
fn learning_of<'a>(
    instance: &'a Instance,
    settled: &Settled,
    classes: Classes,
    trail: &Trail,
    only_orders: bool,
    options: Options,
) -> Result<Learning<'a>> {
    let lemmas = Lemmas::new(instance.alloc, trail.values().count())?;
    let choices = choices_of(instance, settled, trail, only_orders, options.seed)?;
    Ok(Learning {
        lemmas,
        choices,
        log: Log::new(instance, classes, options.has_log, options.slots)?,
    })
}

impl<'a> Engine<'a> {
    /// A search for schedules, over the longest walks. It looks at all that follows at the root.
    pub fn open(instance: &'a Instance, walks: Walks, options: Options) -> Result<Engine<'a>> {
        let settled = settle(instance, walks, options.most)?;
        let resources = shared_resources(instance, &settled)?;
        let model = model_of(instance, &settled, options.is_thorough)?;
        let propagators = propagators_of(instance, &settled, &model, &resources, options)?;
        let (trail, only_orders) = (&propagators.trail, resources.is_empty());
        let classes = model.classes;
        let learning = learning_of(instance, &settled, classes, trail, only_orders, options)?;
        let Settled {
            walks,
            forced,
            is_infeasible,
            ..
        } = settled;
        let mut engine = Engine::of(instance, walks, propagators, learning, options.done);
        engine.look_at_root(&forced, is_infeasible)?;
        Ok(engine)
    }

    /// Tells the log what is settled, and looks at all that follows.
    fn look_at_root(&mut self, forced: &[Edge], is_infeasible: bool) -> Result<()> {
        for order in forced {
            self.log.order(*order)?;
        }
        if is_infeasible || !self.has_room() {
            return self.refute(LineReason::Arcs);
        }
        self.log.tell_classes()?;
        if let Some(conflict) = conflict_of(self.begin())? {
            self.log_root()?;
            self.analyse(conflict)?;
        }
        Ok(())
    }

    /// A search of these parts that has looked at nothing yet.
    fn of(
        instance: &'a Instance,
        walks: Walks,
        propagators: Propagators<'a>,
        learning: Learning<'a>,
        done: SearchCounts,
    ) -> Engine<'a> {
        let Propagators {
            trail,
            edges,
            table,
            cliques,
            tours,
            energy,
        } = propagators;
        let Learning {
            lemmas,
            choices,
            log,
        } = learning;
        Engine {
            instance,
            walks,
            trail,
            edges,
            table,
            cliques,
            tours,
            energy,
            lemmas,
            imports: Vec::new(instance.alloc),
            looked: done.conflicts,
            choices,
            marks: Marks::new(instance.alloc),
            log,
            logged: 1,
            queue: 1,
            table_marks: Table::new(instance.alloc, 0),
            seen: None,
            is_refuted: false,
            floor: 0,
            has_path: false,
            reduction: done.conflicts.wrapping_add(FIRST_REDUCTION),
            reduction_step: FIRST_REDUCTION,
            counts: done,
        }
    }

    /// Whether each start has a value that it may have.
    fn has_room(&self) -> bool {
        for activity in 0..self.instance.count() {
            if self.trail.least(activity) > self.trail.greatest(activity) {
                return false;
            }
        }
        true
    }

    /// Looks at all, at the start.
    fn begin(&mut self) -> Result<(), Stop> {
        for slot in 0..self.instance.count().wrapping_mul(2) {
            self.edges.follow(&mut self.trail, slot)?;
        }
        self.table.begin(&self.trail)?;
        self.propagate()
    }

    /// What follows from all events by arcs, orders and lemmas.
    fn follow(&mut self) -> Result<(), Stop> {
        for _ in 0..u64::MAX {
            let number = self.queue;
            if number >= self.trail.count() {
                break;
            }
            let event = self.trail.event(number);
            self.queue = number.wrapping_add(1);
            self.counts.events = self.counts.events.wrapping_add(1);
            if self.trail.is_last(event.slot, number) {
                self.edges.follow(&mut self.trail, event.slot)?;
            }
            self.lemmas
                .follow(&mut self.trail, event.slot, event.old, event.new)?;
        }
        Ok(())
    }

    /// All that follows.
    pub(crate) fn propagate(&mut self) -> Result<(), Stop> {
        for _ in 0..u64::MAX {
            self.follow()?;
            if self.table.step(&mut self.trail)? {
                continue;
            }
            self.cliques.run(&mut self.trail, &self.edges)?;
            if self.queue >= self.trail.count() {
                self.cliques.find_edges(&mut self.trail, &self.edges)?;
            }
            if self.queue >= self.trail.count() {
                self.look_at_tours()?;
            }
            // Energy helps to refute. A neighbourhood is to find, soon.
            if self.queue >= self.trail.count() && !self.is_neighbourhood() {
                self.energy.run(&mut self.trail)?;
            }
            if self.queue >= self.trail.count() {
                break;
            }
        }
        Ok(())
    }

    /// Whether groups that run one after the other can end in time.
    fn look_at_tours(&mut self) -> Result<(), Stop> {
        match &mut self.tours {
            Some(tours) => tours.look(&self.trail),
            None => Ok(()),
        }
    }

    /// Whether several decisions that are no path stand on the first level, as those of a neighbourhood do.
    fn is_neighbourhood(&self) -> bool {
        self.floor > 0 && !self.has_path
    }

    /// What was done so far, in events: the cost of a strategy.
    pub fn effort(&self) -> u64 {
        let tours = self.tours.as_ref().map_or(0, |tours| tours.steps);
        let steps = self.energy.steps.wrapping_add(tours);
        self.counts.events.wrapping_add(steps / STEPS)
    }

    /// A level begins: a choice, or the first decisions, of which no two contradict each other.
    pub(crate) fn decide(&mut self, literals: &[Literal]) -> Result<()> {
        self.counts.decisions = self.counts.decisions.wrapping_add(1);
        self.table_marks.push(self.table.mark())?;
        self.trail.decide(literals)
    }

    /// Goes back to a level. At a decision all propagators are at rest, so that each takes up again at the level's first
    /// event.
    pub(crate) fn go_back(&mut self, level: u32) -> Result<()> {
        if level >= self.trail.level() {
            return Ok(());
        }
        let begin = self.trail.end_levels(level);
        for _ in begin..self.trail.count() {
            if let Some(event) = self.trail.pop() {
                self.choices.save(&event);
                self.cliques.forget(&self.trail, &event);
            }
        }
        self.table.go_back(self.table_marks[level], begin)?;
        self.table_marks.truncate(level);
        self.cliques.go_back(begin);
        self.energy.go_back(begin);
        if let Some(tours) = &mut self.tours {
            tours.go_back(begin);
        }
        self.choices.go_back(&self.trail, level)?;
        self.queue = begin;
        Ok(())
    }

    /// How many bytes lemmas take.
    pub fn bytes(&self) -> u64 {
        self.lemmas.bytes()
    }
}
