//! Sets of activities that run one at a time.

use crate::numbers::Instance;
use crate::walks::Walks;
use crate::{Result, Rows, Table};
use std::cmp::Reverse;

/// About how many steps greedy cliques may take.
const BUDGET: u64 = 1_000_000_000;

/// How each two activities stand to each other.
#[derive(Drop)]
struct Relations<'a> {
    instance: &'a Instance,
    walks: &'a Walks,
    /// All bits of each two that don't overlap, as rivals or by lags; else none.
    apart: Table<i32>,
}

impl<'a> Relations<'a> {
    fn new(instance: &'a Instance, walks: &'a Walks) -> Result<Relations<'a>> {
        let mut apart = Table::new(instance.alloc, 0);
        for a in 0..instance.count() {
            for b in 0..instance.count() {
                let both_run = a != b && instance.durations[a] > 0 && instance.durations[b] > 0;
                let are_parted = walks.part(instance, a, b) || instance.are_rivals(a, b);
                apart.push(if both_run && are_parted { -1 } else { 0 })?;
            }
        }
        Ok(Relations {
            instance,
            walks,
            apart,
        })
    }

    /// A row of bits of those that don't overlap an activity.
    fn row(&self, activity: u32) -> &[i32] {
        let from = self.instance.place(activity, 0);
        self.apart
            .part(from, from.wrapping_add(self.instance.count()))
    }

    fn are_apart(&self, a: u32, b: u32) -> bool {
        self.apart[self.instance.place(a, b)] != 0
    }

    /// How long an activity takes with all that don't overlap it.
    fn work_beside(&self, activity: u32) -> i32 {
        (0..self.instance.count())
            .filter(|other| self.are_apart(activity, *other))
            .map(|other| self.instance.durations[other])
            .fold(self.instance.durations[activity], i32::wrapping_add)
    }

    /// An activity is not counted any more in the work beside others.
    fn leave_out(&self, activity: u32, leaves: &mut Table<i32>) {
        let duration = self.instance.durations[activity];
        for (work, bits) in leaves.items.iter_mut().zip(self.row(activity)) {
            *work = work.wrapping_sub(duration & *bits);
        }
    }

    /// The clique from an activity on: next comes always the one that leaves most work, the last of these.
    fn greedy(&self, first: u32, leaves: &[i32]) -> Result<Vec<u32>> {
        let alloc = self.instance.alloc;
        let mut left = Table::of(Vec::from_slice(alloc, leaves)?, 0);
        let mut fits: Vec<u32> = (0..self.instance.count()).collect(alloc)?;
        let mut members = Vec::new(alloc);
        let mut next = Some(first);
        for _ in 0..self.instance.count() {
            let Some(activity) = next else { break };
            members.push(activity)?;
            for other in &fits {
                if !self.are_apart(activity, *other) {
                    self.leave_out(*other, &mut left);
                }
            }
            fits.retain(|other| self.are_apart(activity, *other));
            next = fits.iter().copied().max_by_key(|other| left[*other]);
        }
        members.sort_unstable();
        Ok(members)
    }

    /// The greedy cliques with their work, those of most work first. They begin from the longest activities, as many as
    /// there is time for.
    fn all(&self) -> Result<Vec<(Reverse<i64>, Vec<u32>)>> {
        let (instance, alloc) = (self.instance, self.instance.alloc);
        let work = (0..instance.count()).map(|activity| self.work_beside(activity));
        let leaves: Vec<i32> = work.collect(alloc)?;
        let mut seeds: Vec<u32> = (1..instance.end()).collect(alloc)?;
        let key = |seed: &u32| (Reverse(instance.durations[*seed]), *seed);
        seeds.sort_unstable_by_key(key);
        let count = u64::from(instance.count().max(1));
        let most = BUDGET / count.wrapping_mul(count).max(1);
        let mut cliques = Vec::new(alloc);
        for first in seeds.iter().take(most as usize) {
            let members = self.greedy(*first, &leaves)?;
            let durations = members.iter().map(|member| instance.durations[*member]);
            let work = durations.map(i64::from).fold(0, i64::wrapping_add);
            cliques.push((Reverse(work), members))?;
        }
        cliques.sort_unstable();
        Ok(cliques)
    }

    /// The places of the open pairs of a clique.
    fn open_pairs(&self, members: &[u32]) -> Result<Vec<u32>> {
        let mut pairs = Vec::new(self.instance.alloc);
        for a in members {
            for b in members.iter().filter(|b| *a < **b) {
                if !self.walks.part(self.instance, *a, *b) {
                    pairs.push(self.instance.place(*a, *b))?;
                }
            }
        }
        Ok(pairs)
    }
}

/// Cliques: each two members are rivals, over whatever resources, or in an order by lags. From each activity on greedily
/// the one that leaves most work. By falling work those stay of whose open pairs a twelfth is in none before.
pub fn greedy_cliques(instance: &Instance, walks: &Walks) -> Result<Rows<u32>> {
    let (alloc, relations) = (instance.alloc, Relations::new(instance, walks)?);
    let places = instance.place(instance.count(), 0) as usize;
    let mut seen = Table::filled(alloc, places, false, true)?;
    let mut cliques = Rows::new(alloc, 0);
    for (_, members) in relations.all()?.iter() {
        let pairs = relations.open_pairs(members)?;
        let new = pairs.iter().filter(|place| !seen[**place]).count();
        if members.len() > 2 && new > 0 && new.wrapping_mul(12) >= pairs.len() {
            cliques.push_row(members)?;
            for place in &pairs {
                seen[*place] = true;
            }
        }
    }
    Ok(cliques)
}
