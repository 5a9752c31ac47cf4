//! The lists in which the greatest envelope of a resource's tasks is found: the capacity times a head and a tail, and
//! the work between both. With a head alone this is the energy envelope of Vilím (Edge finding filtering algorithm for
//! discrete cumulative resources, 2009).

ghost use Rattle.std.specs.Prelude.{◌≡◌, ◌<◌, ◌≤◌, IfOk, length};
ghost use Rattle.std.specs.List.{All};
ghost use Rattle.bounds.specs.Energy.{AreEnds};
ghost use Rattle.bounds.specs.Loads.{AreBuffers, AreRanked, AreRankedLoads};

use crate::load::{Load, list_loads, rank_keys, sort_tasks};
use crate::task::Task;
use profile::first_order;
use std::alloc::{AllocError, Global};

/// Two orders of the tasks, and a place for each task in each list.
#[derive(Drop, Debug)]
pub(crate) struct EnvelopeBuffers {
    /// The places of the tasks, by rising heads of the last call.
    by_head: Vec<usize>,
    /// The same, by rising tails.
    by_tail: Vec<usize>,
    keys: Vec<i64>,
    ranks: Vec<usize>,
    pub(crate) rising: Vec<u64>,
    pub(crate) loads: Vec<Load>,
    /// One mark more than there are tasks.
    pub(crate) line: Vec<u64>,
    pub(crate) widths: Vec<u64>,
}

impl EnvelopeBuffers {
    /// Buffers for these tasks.
    pub(crate) fn new(alloc: Global, tasks: &[Task]) -> Result<EnvelopeBuffers, AllocError>
        ensures { IfOk result (AreBuffers (length tasks.now)) }
    {
        let load = Load {
            head: 0,
            rank: 0,
            work: 0,
        };
        Ok(EnvelopeBuffers {
            by_head: first_order(alloc, tasks.len())?,
            by_tail: first_order(alloc, tasks.len())?,
            keys: vec![in alloc; 0; tasks.len()]?,
            ranks: vec![in alloc; 0; tasks.len()]?,
            rising: vec![in alloc; 0; tasks.len()]?,
            loads: vec![in alloc; load; tasks.len()]?,
            line: vec![in alloc; 0; tasks.len() + 1]?,
            widths: vec![in alloc; 0; tasks.len()]?,
        })
    }

    /// Replaces the rising numbers by the tails of the tasks, each once, and the ranks by those of the tasks' tails.
    /// The result is how many tails there are.
    pub(crate) fn rank_tails(&mut self, tasks: &[Task], tails: &[i64]) -> usize
        requires activities { All (λ t. t.activity < length tails.now) tasks.now }
        requires tails { AreEnds (length tails.now) tails.now }
        requires buffers { AreBuffers (length tasks.now) self.old }
        ensures buffers { AreBuffers (length tasks.now) self.new }
        ensures ranked { AreRanked tails.now tasks.now self.new.rising.items self.new.ranks.items result }
        ensures few { result ≤ length tasks.now }
    {
        sort_tasks(
            tasks,
            tails,
            self.by_tail.as_mut_slice(),
            self.keys.as_mut_slice(),
        );
        rank_keys(
            self.by_tail.as_slice(),
            self.keys.as_slice(),
            self.ranks.as_mut_slice(),
            self.rising.as_mut_slice(),
        )
    }

    /// Puts the loads of the tasks in place of others, by falling head. The ranks stay, and the rising numbers.
    pub(crate) fn list_loads(&mut self, tasks: &[Task], heads: &[i64])
        requires activities { All (λ t. t.activity < length heads.now) tasks.now }
        requires heads { AreEnds (length heads.now) heads.now }
        requires buffers { AreBuffers (length tasks.now) self.old }
        ensures buffers { AreBuffers (length tasks.now) self.new }
        ensures rising { self.new.rising ≡ self.old.rising }
        ensures loads { AreRankedLoads heads.now self.old.ranks.items tasks.now self.new.loads.items }
    {
        sort_tasks(
            tasks,
            heads,
            self.by_head.as_mut_slice(),
            self.keys.as_mut_slice(),
        );
        list_loads(
            tasks,
            self.by_head.as_slice(),
            self.keys.as_slice(),
            self.ranks.as_slice(),
            self.loads.as_mut_slice(),
        );
    }
}
