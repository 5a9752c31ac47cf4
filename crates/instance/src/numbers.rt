//! The numbers of a project.

use crate::{Result, Rows, Table, narrow};
use network::{MAX_HORIZON, Project, horizon_of};
use std::alloc::Global;

/// `to` starts at least so many periods after `from` starts.
#[derive(Clone, Copy, PartialEq, Eq, PartialOrd, Ord, Debug)]
pub struct Edge {
    pub from: u32,
    pub to: u32,
    pub weight: i32,
}

impl Edge {
    /// `to` starts at least `weight` periods after `from` starts.
    pub fn new(from: u32, to: u32, weight: i32) -> Edge {
        Edge { from, to, weight }
    }
}

/// What a search needs to know of a project.
#[derive(Drop)]
pub struct Instance {
    pub alloc: Global,
    /// By activity, in periods.
    pub durations: Table<i32>,
    /// Demands by activity and then by resource.
    demands: Table<i32>,
    /// How much there is of each resource.
    pub capacities: Table<i32>,
    /// The lags from each activity, the implied ones too, and those to each.
    pub leaving: Rows<Edge>,
    pub entering: Rows<Edge>,
    /// Where there is a schedule, there is one that is no longer, in periods.
    pub horizon: i32,
}

/// A number of a project, which is at most 1,000,000.
fn amount(x: u64) -> i32 {
    x.min(1_000_000) as i32
}

/// A duration or a weight of a project.
fn periods(x: i64) -> i32 {
    x.clamp(-1_000_000, 1_000_000) as i32
}

impl Instance {
    /// The numbers of a project.
    pub fn new(alloc: Global, project: &Project) -> Result<Instance> {
        let (mut leaving, mut entering) = (Vec::new(alloc), Vec::new(alloc));
        for lag in project.arcs(alloc, &[])?.iter() {
            let edge = Edge::new(narrow(lag.from), narrow(lag.to), periods(lag.weight));
            leaving.push((edge.from, edge))?;
            entering.push((edge.to, edge))?;
        }
        let none = Edge::new(0, 0, 0);
        let mut instance = Instance {
            alloc,
            durations: Table::new(alloc, 0),
            demands: Table::new(alloc, 0),
            capacities: Table::new(alloc, 0),
            leaving: Rows::by_row(alloc, leaving, none)?,
            entering: Rows::by_row(alloc, entering, none)?,
            horizon: horizon_of(project).clamp(0, MAX_HORIZON) as i32,
        };
        instance.take_amounts(project)?;
        Ok(instance)
    }

    /// Takes durations, demands and capacities.
    fn take_amounts(&mut self, project: &Project) -> Result<()> {
        for activity in 0..project.activity_count() {
            let duration = periods(project.duration(activity)).max(0);
            self.durations.push(duration)?;
            for resource in 0..project.resource_count() {
                let demand = amount(project.demand(resource, activity));
                self.demands.push(demand)?;
            }
        }
        for resource in 0..project.resource_count() {
            self.capacities.push(amount(project.capacity(resource)))?;
        }
        Ok(())
    }

    /// How many activities there are, with the start and the end.
    pub fn count(&self) -> u32 {
        self.durations.count()
    }

    /// The last activity, the end.
    pub fn end(&self) -> u32 {
        self.count().wrapping_sub(1)
    }

    /// The place of two activities in a table that has one for each two.
    pub fn place(&self, a: u32, b: u32) -> u32 {
        a.wrapping_mul(self.count()).wrapping_add(b)
    }

    /// How many resources there are.
    pub fn resource_count(&self) -> u32 {
        self.capacities.count()
    }

    /// What an activity needs of a resource.
    pub fn demand(&self, activity: u32, resource: u32) -> i32 {
        let row = activity.wrapping_mul(self.resource_count());
        self.demands[row.wrapping_add(resource)]
    }

    /// What an activity needs of each resource.
    pub fn demands(&self, activity: u32) -> &[i32] {
        let row = activity.wrapping_mul(self.resource_count());
        let end = row.wrapping_add(self.resource_count());
        self.demands.part(row, end)
    }

    /// The activities that run and need some of a resource.
    pub fn users(&self, resource: u32) -> Result<Vec<u32>> {
        let users = (0..self.count()).filter(|activity: &u32| {
            self.durations[*activity] > 0 && self.demand(*activity, resource) > 0
        });
        users.collect(self.alloc)
    }

    /// Whether some resource isn't enough for two activities that run at once.
    pub fn are_rivals(&self, a: u32, b: u32) -> bool {
        let demands = self.demands(a).iter().zip(self.demands(b));
        a != b
            && self.durations[a] > 0
            && self.durations[b] > 0
            && demands.zip(&self.capacities.items).any(|(
                (first, second),
                capacity,
            )| first.wrapping_add(*second) > *capacity)
    }

    /// How long all activities need a resource, if it were always used up.
    fn load(&self, resource: u32) -> i64 {
        let works = (0..self.count()).map(|activity| {
            let demand = i64::from(self.demand(activity, resource));
            i64::from(self.durations[activity]).wrapping_mul(demand)
        });
        works.fold(0, i64::wrapping_add) / i64::from(self.capacities[resource].max(1))
    }

    /// A makespan that a shortest schedule seldom exceeds: twice the longest walk and the greatest load.
    pub fn likely_end(&self, walk: i32) -> i32 {
        let loads = (0..self.resource_count()).map(|resource| self.load(resource));
        let load = loads.max().unwrap_or(0);
        let end = load.wrapping_add(i64::from(walk)).wrapping_mul(2);
        (end.clamp(0, MAX_HORIZON) as i32).min(self.horizon)
    }

    /// Whether some activity alone needs more of a resource than there is.
    pub fn asks_too_much(&self) -> bool {
        let is_too_much = |activity: u32| {
            let mut amounts = self.demands(activity).iter().zip(&self.capacities.items);
            self.durations[activity] > 0 && amounts.any(|(demand, capacity)| demand > capacity)
        };
        (0..self.count()).any(is_too_much)
    }
}
