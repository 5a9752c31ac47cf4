//! What is left of each resource over time.

use instance::{Result, Table, narrow};
use std::alloc::Global;
use std::ops::Range;

/// From a time on, up to another one.
#[derive(Clone, Copy, PartialEq, Eq)]
pub struct Interval {
    pub from: i32,
    pub to: i32,
}

/// No time.
pub const NO_PART: Interval = Interval { from: 0, to: 0 };

/// All times.
pub(crate) const ALWAYS: Interval = Interval {
    from: i32::MIN,
    to: i32::MAX,
};

impl Interval {
    /// Whether there is no time in it.
    pub(crate) fn is_empty(self) -> bool {
        self.from >= self.to
    }

    /// What a part has more than before: in front, and behind.
    pub(crate) fn more_than(self, old: Interval) -> [Interval; 2] {
        let Interval { from, to } = self;
        if old.is_empty() {
            return [self, NO_PART];
        }
        [
            Interval { from, to: old.from },
            Interval { from: old.to, to },
        ]
    }
}

/// From a time on, up to the next segment, the room is that of a row.
#[derive(Clone, Copy)]
struct Segment {
    from: i32,
    row: u32,
}

/// Past the last segment.
const PAST: Segment = Segment {
    from: i32::MAX,
    row: 0,
};

/// The room of each resource over time, and who runs. A segment begins where a part begins or ends, so the length of a
/// period does not matter. Segments are named by their places, which rise with time.
#[derive(Drop)]
pub struct Profile {
    resources: u32,
    words: u32,
    segments: Table<Segment>,
    /// By row and resource.
    room: Table<i32>,
    /// By row: bits of activities that run, in words.
    running: Table<u64>,
    /// Rows that are free.
    spare: Vec<u32>,
}

impl Profile {
    /// All is free, for so many activities.
    pub fn new(alloc: Global, activities: u32, capacities: &[i32]) -> Result<Profile> {
        let words = activities.div_ceil(64).max(1);
        let (row, from) = (0, i32::MIN);
        let room = Table::of(Vec::from_slice(alloc, capacities)?, 0);
        Ok(Profile {
            resources: room.count(),
            words,
            segments: Table::filled(alloc, 1, Segment { from, row }, PAST)?,
            room,
            running: Table::filled(alloc, words as usize, 0, 0)?,
            spare: Vec::new(alloc),
        })
    }

    /// The segment that has a time.
    pub(crate) fn find(&self, time: i32) -> u32 {
        let segments = self.segments.items.as_slice();
        narrow(segments.partition_point(|segment: &Segment| segment.from <= time)).saturating_sub(1)
    }

    /// When a segment begins.
    pub(crate) fn begin(&self, segment: u32) -> i32 {
        self.segments[segment].from
    }

    /// Where the bits of a row stand.
    #[inline(always)]
    fn bits_at(&self, row: u32) -> u32 {
        row.wrapping_mul(self.words)
    }

    /// The room of each resource in a segment.
    #[inline(always)]
    fn room_in(&self, segment: Segment) -> &[i32] {
        let from = segment.row.wrapping_mul(self.resources);
        self.room.part(from, from.wrapping_add(self.resources))
    }

    /// The segment that begins at a time, given the one that has the time, which is cut there if need be.
    fn cut_in(&mut self, found: u32, time: i32) -> Result<u32> {
        let Segment { from, row: old } = self.segments[found];
        if from == time {
            return Ok(found);
        }
        let (resources, words) = (self.resources, self.words);
        let new = self.running.count() / words.max(1);
        let row = self.spare.pop().unwrap_or(new);
        let (room, to) = (old.wrapping_mul(resources), row.wrapping_mul(resources));
        self.room.copy(room, to, resources)?;
        let (bits, to) = (self.bits_at(old), self.bits_at(row));
        self.running.copy(bits, to, words)?;
        let next = found.wrapping_add(1);
        self.segments.insert(next, Segment { row, from: time })?;
        Ok(next)
    }

    /// The segment that begins at a time. One that has the time is cut there if need be.
    fn cut(&mut self, time: i32) -> Result<u32> {
        self.cut_in(self.find(time), time)
    }

    /// The same of a time that is not before a segment.
    fn cut_after(&mut self, segment: u32, time: i32) -> Result<u32> {
        let next = segment.wrapping_add(1);
        let later = self.segments.part(next, self.segments.count());
        let is_after = |segment: &Segment| segment.from > time;
        let more = later.iter().position(is_after).unwrap_or(later.len());
        self.cut_in(segment.wrapping_add(narrow(more)), time)
    }

    /// Joins a segment and the one before it if the same activities run there.
    fn join(&mut self, segment: u32) -> Result<()> {
        if segment == 0 {
            return Ok(());
        }
        let row = self.segments[segment].row;
        let before = self.bits_at(self.segments[segment.wrapping_sub(1)].row);
        let here = self.bits_at(row);
        let before = self.running.part(before, before.wrapping_add(self.words));
        let here = self.running.part(here, here.wrapping_add(self.words));
        if before.iter().zip(here).all(|(before, here)| before == here) {
            self.spare.push(row)?;
            self.segments.remove(segment);
        }
        Ok(())
    }

    /// An activity with these demands runs in a part from now on, or with a sign of -1 no more. Gives the segments.
    pub fn put(
        &mut self,
        activity: u32,
        demands: &[i32],
        part: Interval,
        sign: i32,
    ) -> Result<Range<u32>> {
        let from = self.cut(part.from)?;
        let to = self.cut_after(from, part.to)?;
        let mask = 1u64.wrapping_shl(activity % 64);
        for segment in self.segments.part(from, to) {
            let word = segment
                .row
                .wrapping_mul(self.words)
                .wrapping_add(activity / 64);
            self.running[word] ^= mask;
            let at = segment.row.wrapping_mul(self.resources);
            let rooms = self.room.part_mut(at, at.wrapping_add(self.resources));
            for (room, demand) in rooms.iter_mut().zip(demands) {
                *room = room.wrapping_sub(demand.wrapping_mul(sign));
            }
        }
        Ok(from..to)
    }

    /// An activity that ran in a part doesn't.
    pub(crate) fn clear(&mut self, activity: u32, demands: &[i32], part: Interval) -> Result<()> {
        let segments = self.put(activity, demands, part, -1)?;
        self.join(segments.end)?;
        self.join(segments.start)
    }

    /// Finds the least room of each resource in some segments.
    pub(crate) fn least_rooms(&self, segments: Range<u32>, least: &mut [i32]) {
        least.fill(i32::MAX);
        for segment in self.segments.part(segments.start, segments.end) {
            for (least, room) in least.iter_mut().zip(self.room_in(*segment)) {
                *least = (*least).min(*room);
            }
        }
    }

    /// The first of the times at which some segments have least room of a resource.
    pub(crate) fn fullest(&self, resource: u32, segments: Range<u32>) -> i32 {
        let room = |segment: &u32| {
            let at = self.segments[*segment].row.wrapping_mul(self.resources);
            self.room[at.wrapping_add(resource)]
        };
        segments
            .min_by_key(room)
            .map_or(0, |segment| self.begin(segment))
    }

    /// The first resource of which a segment has less room than is demanded; none in the activity's own part.
    #[inline(always)]
    fn lacks(&self, segment: Segment, demands: &[i32], own: Interval) -> Option<u32> {
        if own.from <= segment.from && segment.from < own.to {
            return None;
        }
        let mut amounts = self.room_in(segment).iter().zip(demands);
        amounts.position(|(room, demand)| room < demand).map(narrow)
    }

    /// The last time of a part at which there is no room for an activity beside its own part; and the resource.
    fn last_full(&self, demands: &[i32], part: Interval, own: Interval) -> Option<(i32, u32)> {
        let mut end = part.to;
        let near = self.find(end.wrapping_sub(1));
        for segment in self.segments.part(0, near.wrapping_add(1)).iter().rev() {
            if end <= part.from {
                break;
            }
            if let Some(resource) = self.lacks(*segment, demands, own) {
                return Some((end.wrapping_sub(1), resource));
            }
            end = segment.from;
        }
        None
    }

    /// The first such time.
    fn first_full(&self, demands: &[i32], part: Interval, own: Interval) -> Option<(i32, u32)> {
        let near = self.find(part.from);
        for segment in self.segments.part(near, self.segments.count()) {
            let begin = segment.from.max(part.from);
            if begin >= part.to {
                break;
            }
            if let Some(resource) = self.lacks(*segment, demands, own) {
                return Some((begin, resource));
            }
        }
        None
    }

    /// The last time of a part at which there is no room for an activity beside its own part, or the first one; and the
    /// resource.
    #[inline(always)]
    pub fn full(
        &self,
        demands: &[i32],
        part: Interval,
        own: Interval,
        is_last: bool,
    ) -> Option<(i32, u32)> {
        if is_last {
            self.last_full(demands, part, own)
        } else {
            self.first_full(demands, part, own)
        }
    }

    /// Lists those of some activities, which are bits, that run at a time.
    pub(crate) fn list_running(&self, time: i32, all: &[u64], list: &mut Vec<u32>) -> Result<()> {
        list.clear();
        let first = self.bits_at(self.segments[self.find(time)].row);
        let running = self.running.part(first, first.wrapping_add(self.words));
        for (word, (running, all)) in (0..self.words).zip(running.iter().zip(all)) {
            let mut bits = *running & *all;
            for _ in 0..bits.count_ones() {
                list.push(word.wrapping_mul(64).wrapping_add(bits.trailing_zeros()))?;
                bits = bits & bits.wrapping_sub(1);
            }
        }
        Ok(())
    }
}
