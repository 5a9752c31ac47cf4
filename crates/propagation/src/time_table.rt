//! The time table (Le Pape 1994): what activities that must run at a time leave free.

use crate::needs::Needs;
use crate::profile::{ALWAYS, Interval, NO_PART, Profile};
use crate::{BoundChange, Conflict, Literal, Reason, Stop, Trail};
use instance::{Instance, Result, Table, narrow};
use std::mem;
use std::ops::Range;

/// The slots of activities that are to be looked at, the last one first, each at the times that changed.
#[derive(Drop)]
struct Notes {
    times: Table<Interval>,
    todo: Vec<u32>,
}

impl Notes {
    /// A slot is to be looked at, at these times.
    #[inline(always)]
    fn note(&mut self, slot: u32, times: Interval) -> Result<()> {
        let known = &mut self.times[slot];
        if known.is_empty() {
            *known = times;
            self.todo.push(slot)?;
        } else {
            known.from = known.from.min(times.from);
            known.to = known.to.max(times.to);
        }
        Ok(())
    }

    /// The next slot, with the times.
    #[inline(always)]
    fn take(&mut self) -> Option<(u32, Interval)> {
        let slot = self.todo.pop()?;
        Some((slot, mem::replace(&mut self.times[slot], NO_PART)))
    }

    /// None is to be looked at.
    fn clear(&mut self) {
        for slot in &self.todo {
            self.times[*slot] = NO_PART;
        }
        self.todo.clear();
    }
}

/// The time table of a search.
#[derive(Drop)]
pub struct TimeTable<'a> {
    instance: &'a Instance,
    /// By activity; 0 for those that need nothing.
    durations: Table<i32>,
    /// By resource: the greatest demand, and what a part has left, if that is not enough for all.
    greatest_demands: Table<i32>,
    rooms: Table<i32>,
    needs: Needs,
    /// Those that run for sure, whatever they need.
    pub profile: Profile,
    /// From its greatest start to its least end, by activity: what the profile has of it.
    parts: Table<Interval>,
    /// Activities, and what the profile had of them before each change.
    changes: Table<(u32, Interval)>,
    notes: Notes,
    /// Events before this one are in the profile.
    queue: u32,
}

/// The capacities of some resources. There is room for all in the others.
fn capacities_of(instance: &Instance, resources: &[u32]) -> Result<Table<i32>> {
    let kinds = instance.capacities.items.len();
    let mut capacities = Table::filled(instance.alloc, kinds, i32::MAX, 0)?;
    for resource in resources {
        capacities[*resource] = instance.capacities[*resource];
    }
    Ok(capacities)
}

impl<'a> TimeTable<'a> {
    /// The time table of some resources. There is room for all in the others.
    pub fn new(instance: &'a Instance, resources: &[u32]) -> Result<TimeTable<'a>> {
        let alloc = instance.alloc;
        let capacities = capacities_of(instance, resources)?;
        let mut table = TimeTable {
            instance,
            durations: Table::new(alloc, 0),
            greatest_demands: Table::new(alloc, 0),
            rooms: Table::new(alloc, 0),
            needs: Needs::new(instance)?,
            profile: Profile::new(alloc, instance.count(), &capacities.items)?,
            parts: Table::new(alloc, NO_PART),
            changes: Table::new(alloc, (0, NO_PART)),
            notes: Notes {
                times: Table::new(alloc, NO_PART),
                todo: Vec::new(alloc),
            },
            queue: 0,
        };
        table.make_places(resources)?;
        Ok(table)
    }

    /// Makes a place for each activity and each resource, and takes the users of those that it is for.
    fn make_places(&mut self, resources: &[u32]) -> Result<()> {
        let count = self.instance.count() as usize;
        let kinds = self.instance.capacities.items.len();
        self.durations.fill(count, 0)?;
        self.greatest_demands.fill(kinds, 0)?;
        self.rooms.fill(kinds, 0)?;
        self.parts.fill(count, NO_PART)?;
        self.notes.times.fill(count.wrapping_mul(2), NO_PART)?;
        for resource in resources {
            self.take_users(*resource)?;
        }
        for resource in 0..narrow(kinds) {
            self.take_needs(resource)?;
        }
        Ok(())
    }

    /// Takes what users need of a resource, if it is one that the table is for.
    fn take_needs(&mut self, resource: u32) -> Result<()> {
        let mut users = self.instance.users(resource)?;
        if self.greatest_demands[resource] == 0 {
            users.clear();
        }
        self.needs.take(self.instance, &users, resource)
    }

    /// Lists the users of a resource that run at a time for sure.
    pub fn list_running(&self, resource: u32, time: i32, list: &mut Vec<u32>) -> Result<()> {
        self.profile
            .list_running(time, self.needs.users(resource), list)
    }

    /// Takes the users of a resource.
    fn take_users(&mut self, resource: u32) -> Result<()> {
        for activity in self.instance.users(resource)?.iter() {
            self.durations[*activity] = self.instance.durations[*activity];
            let demand = self.instance.demand(*activity, resource);
            self.greatest_demands[resource] = demand.max(self.greatest_demands[resource]);
        }
        Ok(())
    }

    /// How many changes there were.
    pub fn mark(&self) -> u32 {
        self.changes.count()
    }

    /// Takes the last change back.
    fn undo(&mut self) -> Result<()> {
        let Some((activity, old)) = self.changes.items.pop() else {
            return Ok(());
        };
        let (now, demands) = (self.parts[activity], self.instance.demands(activity));
        self.parts[activity] = old;
        self.needs.fix(activity, false);
        for part in now.more_than(old).iter().filter(|part| !part.is_empty()) {
            self.profile.clear(activity, demands, *part)?;
        }
        Ok(())
    }

    /// Goes back to a mark, at which all events before `queue` were in the profile and nothing was left to look at.
    pub fn go_back(&mut self, mark: u32, queue: u32) -> Result<()> {
        for _ in mark..self.changes.count() {
            self.undo()?;
        }
        self.notes.clear();
        self.queue = queue;
        Ok(())
    }

    /// An activity that is short of a resource in a part is to be looked at, if it would run there.
    #[inline(always)]
    fn note_pushed(&mut self, trail: &Trail, activity: u32, part: Interval) -> Result<()> {
        let slot = activity.wrapping_mul(2);
        let (least, greatest) = (trail.least(activity), trail.greatest(activity));
        if least == greatest {
            return Ok(());
        }
        let before = part.from.wrapping_sub(self.durations[activity]);
        for (start, slot) in [(least, slot), (greatest, slot.wrapping_add(1))] {
            if start < part.to && start > before {
                self.notes.note(slot, part)?;
            }
        }
        Ok(())
    }

    /// Notes those of a word that may be pushed by a part.
    fn note_word(&mut self, trail: &Trail, word: u32, part: Interval) -> Result<()> {
        let mut bits = self.needs.take_short(word);
        for _ in 0..bits.count_ones() {
            let activity = word.wrapping_mul(64).wrapping_add(bits.trailing_zeros());
            bits = bits & bits.wrapping_sub(1);
            self.note_pushed(trail, activity, part)?;
        }
        Ok(())
    }

    /// Notes those that may be pushed by a part: they need more of a resource than it has left.
    fn note_short(&mut self, trail: &Trail, part: Interval) -> Result<()> {
        for word in 0..self.needs.words() {
            self.note_word(trail, word, part)?;
        }
        Ok(())
    }

    /// Finds the least room in some segments, and who needs more of a resource that an activity takes of. The first resource
    /// of which there is too little.
    fn find_short(&mut self, demands: &[i32], segments: Range<u32>) -> Option<u32> {
        self.profile
            .least_rooms(segments, self.rooms.items.as_mut_slice());
        for resource in 0..self.rooms.count() {
            let (room, demand) = (self.rooms[resource], demands.get(resource as usize));
            if demand.is_some_and(|demand| *demand > 0) && room < self.greatest_demands[resource] {
                if room < 0 {
                    self.needs.clear_short();
                    return Some(resource);
                }
                self.needs.add_short(resource, room);
            }
        }
        None
    }

    /// An activity must run in a part more. Gives a conflict if that is too much.
    fn fill(&mut self, trail: &Trail, activity: u32, part: Interval) -> Result<Option<Conflict>> {
        let demands = self.instance.demands(activity);
        let segments = self.profile.put(activity, demands, part, 1)?;
        let (from, to) = (segments.start, segments.end);
        let Some(resource) = self.find_short(demands, segments) else {
            self.note_short(trail, part)?;
            return Ok(None);
        };
        let time = self.profile.fullest(resource, from..to);
        Ok(Some(Conflict::Overload { resource, time }))
    }

    /// Brings the profile up to date with what must run of an activity.
    fn grow(&mut self, trail: &Trail, activity: u32) -> Result<(), Stop> {
        let duration = self.durations[activity];
        let new = Interval {
            from: trail.greatest(activity),
            to: trail.least(activity).wrapping_add(duration),
        };
        let old = self.parts[activity];
        if new.is_empty() || old == new {
            return Ok(());
        }
        self.changes.push((activity, old))?;
        self.parts[activity] = new;
        if new.to.wrapping_sub(new.from) == duration {
            self.needs.fix(activity, true);
        }
        let mut overload = None;
        for part in new.more_than(old).iter().filter(|part| !part.is_empty()) {
            overload = overload.or(self.fill(trail, activity, *part)?);
        }
        overload.map_or(Ok(()), |conflict| Err(Stop::Conflict(conflict)))
    }

    /// Takes notice of all activities, at the start.
    pub fn begin(&mut self, trail: &Trail) -> Result<(), Stop> {
        for slot in 0..self.parts.count().wrapping_mul(2) {
            let duration = self.durations[slot / 2];
            if duration > 0 {
                self.grow(trail, slot / 2)?;
                self.notes.note(slot, ALWAYS)?;
            }
        }
        Ok(())
    }

    /// Takes notice of an event: the activity may run now at times at which it was not looked at.
    #[inline(always)]
    fn notice(&mut self, trail: &Trail, event: &BoundChange) -> Result<(), Stop> {
        let duration = self.durations[event.slot / 2];
        if duration > 0 {
            self.grow(trail, event.slot / 2)?;
            let times = if event.slot % 2 == 0 {
                let from = event.old.wrapping_add(duration);
                let to = event.new.wrapping_add(duration);
                Interval { from, to }
            } else {
                let (from, to) = (event.new.wrapping_neg(), event.old.wrapping_neg());
                Interval { from, to }
            };
            self.notes.note(event.slot, times)?;
        }
        Ok(())
    }

    /// Takes notice of all events. Then looks at one slot that a change may push. Whether there was one.
    pub fn step(&mut self, trail: &mut Trail) -> Result<bool, Stop> {
        for number in self.queue..trail.count() {
            self.queue = number.wrapping_add(1);
            let event = trail.event(number);
            self.notice(trail, &event)?;
        }
        let Some((slot, times)) = self.notes.take() else {
            return Ok(false);
        };
        self.push(trail, slot / 2, slot % 2 == 0, times)?;
        Ok(true)
    }

    /// Moves a least start to where the profile leaves room, past the last time without; or a greatest one, to where the
    /// activity ends by the first such time. Only these times are looked at, and then those that a move makes new.
    fn push(
        &self,
        trail: &mut Trail,
        activity: u32,
        is_least: bool,
        times: Interval,
    ) -> Result<(), Stop> {
        let (demands, own) = (self.instance.demands(activity), self.parts[activity]);
        let (duration, mut times) = (self.durations[activity], times);
        for _ in 0..u64::MAX {
            let from = if is_least {
                trail.least(activity)
            } else {
                trail.greatest(activity)
            };
            let to = from.wrapping_add(duration);
            let part = Interval {
                from: from.max(times.from),
                to: to.min(times.to),
            };
            if part.is_empty() {
                break;
            }
            let Some((time, resource)) = self.profile.full(demands, part, own, is_least) else {
                break;
            };
            let literal = if is_least {
                times = Interval { from: to, ..ALWAYS };
                Literal::at_least(activity, time.wrapping_add(1))
            } else {
                times = Interval { to: from, ..ALWAYS };
                Literal::at_most(activity, time.wrapping_sub(duration))
            };
            trail.force(literal, Reason::Full { resource, time })?;
        }
        Ok(())
    }
}
