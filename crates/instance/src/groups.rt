//! Groups: activities that lags tie to each other both ways, as the operations of a job that may not wait. Two groups conflict
//! over several resources at once; then which one is first is one decision, with delays that no single order has.

use crate::classes::Classes;
use crate::numbers::Instance;
use crate::orders::{Rivals, Settled};
use crate::two_groups::TwoGroups;
use crate::walks::Walks;
use crate::{Result, Rows, Table, narrow};

/// Two groups of more activities than this are not looked at.
const MOST: usize = 100;

/// About how many entries of matrices may be looked at: a tenth of a second.
const BUDGET: u64 = 50_000_000;

/// The groups of a project.
#[derive(Drop)]
pub(crate) struct Groups {
    pub(crate) members: Rows<u32>,
    /// By activity.
    group_of: Table<u32>,
}

/// An open pair of activities of two groups.
#[derive(Clone, Copy, PartialEq, Eq, PartialOrd, Ord)]
pub(crate) struct Joint {
    one: u32,
    other: u32,
    pair: Rivals,
}

/// The mean of the durations of those that take time.
fn mean_duration(instance: &Instance) -> i32 {
    let (mut work, mut count) = (0i64, 0i64);
    for duration in &instance.durations.items {
        work = work.wrapping_add(i64::from(*duration));
        count = count.wrapping_add(i64::from(*duration > 0));
    }
    (work / count.max(1)).clamp(0, 1_000_000) as i32
}

/// Whether lags tie two activities to each other, with so much play at most.
fn are_tied(walks: &Walks, a: u32, b: u32, play: i32) -> bool {
    match (walks.beside_start(a, b), walks.beside_start(b, a)) {
        (Some(there), Some(back)) => there.wrapping_add(back).wrapping_add(play) >= 0,
        _ => false,
    }
}

/// Two activities are in one group from now on, which has the lesser of their names.
fn join(names: &mut Table<u32>, a: u32, b: u32) {
    let (old, new) = (names[a].max(names[b]), names[a].min(names[b]));
    if old != new {
        for name in names.items.iter_mut().filter(|name| **name == old) {
            *name = new;
        }
    }
}

/// By activity the name of its group, the least of its activities.
fn names_of(instance: &Instance, walks: &Walks) -> Result<Table<u32>> {
    let all: Vec<u32> = (0..instance.count()).collect(instance.alloc)?;
    let (mut names, play) = (Table::of(all, 0), mean_duration(instance));
    for a in 1..instance.end() {
        for b in 1..a {
            if are_tied(walks, a, b, play) {
                join(&mut names, a, b);
            }
        }
    }
    Ok(names)
}

impl Groups {
    /// The groups of a project: ties leave play up to a mean duration.
    pub(crate) fn new(instance: &Instance, walks: &Walks) -> Result<Groups> {
        let (alloc, names) = (instance.alloc, names_of(instance, walks)?);
        let mut group_of = Table::filled(alloc, instance.count() as usize, 0, 0)?;
        let (mut placed, mut count) = (Vec::new(alloc), 0u32);
        for activity in 1..instance.end() {
            let name = names[activity];
            if name == activity {
                group_of[activity] = count;
                count = count.wrapping_add(1);
            } else {
                group_of[activity] = group_of[name];
            }
            placed.push((group_of[activity], activity))?;
        }
        Ok(Groups {
            members: Rows::by_row(alloc, placed, 0)?,
            group_of,
        })
    }

    /// The group of an activity.
    pub(crate) fn group(&self, activity: u32) -> u32 {
        self.group_of[activity]
    }

    /// How many activities two groups have.
    fn size(&self, groups: [u32; 2]) -> usize {
        let [one, other] = groups.map(|group: u32| self.members.row(group).len());
        one.wrapping_add(other)
    }

    /// The open pairs of activities of two groups, by these, the first activity in the first group.
    pub(crate) fn joint(&self, instance: &Instance, pairs: &[Rivals]) -> Result<Vec<Joint>> {
        let mut joint = Vec::new(instance.alloc);
        for pair in pairs {
            let Rivals { first, second } = *pair;
            let (one, other) = (self.group(first), self.group(second));
            if one != other && self.size([one, other]) <= MOST {
                joint.push(match one < other {
                    true => Joint {
                        one,
                        other,
                        pair: *pair,
                    },
                    false => Joint {
                        one: other,
                        other: one,
                        pair: Rivals {
                            first: second,
                            second: first,
                        },
                    },
                })?;
            }
        }
        joint.sort_unstable();
        Ok(joint)
    }

    /// Two groups, with the open pairs between them.
    pub(crate) fn two<'a>(
        &self,
        instance: &'a Instance,
        settled: &Settled,
        joint: &[Joint],
        groups: [u32; 2],
    ) -> Result<TwoGroups<'a>> {
        let [one, other] = [groups[0].min(groups[1]), groups[0].max(groups[1])];
        let begin = joint.partition_point(|entry| (entry.one, entry.other) < (one, other));
        let pairs: Vec<Rivals> = joint
            .get(begin..)
            .unwrap_or_default()
            .iter()
            .take_while(|entry| (entry.one, entry.other) == (one, other))
            .map(|entry| entry.pair)
            .collect(instance.alloc)?;
        let members = [self.members.row(one), self.members.row(other)];
        TwoGroups::new(instance, &settled.walks, members, &pairs)
    }

    /// The classes of open orders that are more than an order. Those of two single activities are not.
    fn merged(&self, instance: &Instance, settled: &Settled, joint: &[Joint]) -> Result<Classes> {
        let (mut classes, mut steps, mut last) = (Classes::new(instance), BUDGET, None);
        for entry in joint {
            let groups = [entry.one, entry.other];
            if last != Some(groups) && self.size(groups) > 2 {
                let two = self.two(instance, settled, joint, groups)?;
                steps = two.add_classes(&mut classes, steps)?;
            }
            last = Some(groups);
        }
        Ok(classes)
    }

    /// The classes of a project's open orders.
    pub(crate) fn classes(
        &self,
        instance: &Instance,
        settled: &Settled,
        joint: &[Joint],
    ) -> Result<Classes> {
        let mut classes = self.merged(instance, settled, joint)?;
        let places = instance.place(instance.count(), 0) as usize;
        let mut seen = Table::filled(instance.alloc, places, false, false)?;
        for Rivals { first, second } in &classes.pairs.values.items {
            seen[instance.place(*first.min(second), *first.max(second))] = true;
        }
        for pair in &settled.open {
            if !seen[instance.place(pair.first, pair.second)] {
                classes.push_pair(instance, *pair)?;
            }
        }
        Ok(classes)
    }
}
