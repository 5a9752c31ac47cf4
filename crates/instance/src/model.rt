//! What a search decides on, and what runs one at a time.

use crate::classes::Classes;
use crate::cliques::greedy_cliques;
use crate::groups::Groups;
use crate::machine::{Machine, best_machine};
use crate::numbers::Instance;
use crate::orders::Settled;
use crate::walks::Walks;
use crate::{Result, Rows};

/// The open orders of a project, and its cliques.
#[derive(Drop)]
pub struct Model {
    pub classes: Classes,
    pub cliques: Rows<u32>,
    /// Groups that run one after the other, if these say more than the cliques.
    pub machine: Option<Machine>,
}

/// The work of a clique, with what must run before and after it.
fn load(instance: &Instance, walks: &Walks, clique: &[u32]) -> i64 {
    let (mut head, mut tail, mut work) = (i32::MAX, i32::MAX, 0i64);
    for member in clique {
        let duration = instance.durations[*member];
        work = work.wrapping_add(i64::from(duration));
        head = head.min(walks.longest(0, *member).unwrap_or(0));
        let rest = walks.longest(*member, instance.end()).unwrap_or(0);
        tail = tail.min(rest.wrapping_sub(duration));
    }
    work.wrapping_add(i64::from(head))
        .wrapping_add(i64::from(tail))
}

impl Model {
    /// Single orders alone, for a search for any schedule.
    pub fn plain(instance: &Instance, settled: &Settled) -> Result<Model> {
        Ok(Model {
            classes: Classes::of_pairs(instance, &settled.open)?,
            cliques: Rows::new(instance.alloc, 0),
            machine: None,
        })
    }

    /// All that runs one at a time, and the orders of groups.
    pub fn new(instance: &Instance, settled: &Settled) -> Result<Model> {
        let cliques = greedy_cliques(instance, &settled.walks)?;
        let rows = (0..cliques.count()).map(|clique| cliques.row(clique));
        let loads = rows.map(|clique| load(instance, &settled.walks, clique));
        let most = loads.max().unwrap_or(0);
        let groups = Groups::new(instance, &settled.walks)?;
        let joint = groups.joint(instance, &settled.open)?;
        let mut classes = groups.classes(instance, settled, &joint)?;
        let machine = best_machine(instance, settled, &groups, &joint, &mut classes, most)?;
        Ok(Model {
            classes,
            cliques,
            machine,
        })
    }
}
