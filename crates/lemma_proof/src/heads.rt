//! The weights of walks from 0 over a matrix and arcs beside it.

ghost use Rattle.std.specs.Prelude.{◌≡◌, ◌<◌, ◌^◌, length, [], ◌∷◌, ◌++◌, IfOk, OnOk, OnErr, Some, slice_index_or};
ghost use Rattle.std.specs.List.{Contains};
ghost use Rattle.network.specs.declared.limits.TheConstants.{MAX_WALK_WEIGHT};
ghost use Rattle.network.specs.Problem.{IsWithin};
ghost use Rattle.network.specs.Schedule.{start};
ghost use Rattle.network.specs.Walk.{entry};
ghost use Rattle.longest_path.specs.Insert.{ClosesNone, rows_over};
ghost use Rattle.lemma_proof.specs.Heads.{AreHeads, IsRowAt, IsLight, IsTable, table_rows};
ghost use Rattle.lemma_proof.specs.Rising.{AreThereAndBack, HaveRisen, IsRisenBy};

use crate::rise::rise;
use crate::root::go_over;
use network::Lag;
use std::alloc::{AllocError, Global};
use std::marker::Model;

/// A matrix, arcs beside it, and the weights of walks from 0 over both; and weights for a trial.
#[derive(Drop)]
pub(crate) struct Heads {
    /// The rows of the matrix, in which every entry is there.
    table: Vec<Vec<i32>>,
    /// The arcs that don't touch 0.
    arcs: Vec<Lag>,
    heads: Vec<i32>,
    tried: Vec<i32>,
}

impl Model for Heads {
    ghost use Rattle.lemma_proof.specs.Heads.{HeadsOf, AreHeads, table_rows};

    ghost Value = { HeadsOf };

    ghost view = { λ s. record {
      rows = table_rows s.table.items;
      arcs = s.arcs.items;
      heads = s.heads.items;
      tried = s.tried.items;
    } };

    ghost invariant = { λ s. AreHeads (record {
      rows = table_rows s.table.items;
      arcs = s.arcs.items;
      heads = s.heads.items;
      tried = s.tried.items;
    }) };
}

impl Heads {
    /// How many activities there are.
    pub(crate) fn activity_count(&self) -> usize
        ensures value { result ≡ length self.now.rows }
        ensures law { AreHeads self.now }
    {
        self.table.len()
    }

    /// The weight of an entry of the matrix.
    pub(crate) fn weight(&self, a: usize, b: usize) -> i64
        requires from_activity { a < length self.now.rows }
        requires to_activity { b < length self.now.rows }
        ensures value { entry self.now.rows a b ≡ Some result }
        ensures small { IsWithin MAX_WALK_WEIGHT result }
    {
        self.table[a][b] as i64
    }

    /// The weight to an activity.
    pub(crate) fn head(&self, i: usize) -> i64
        requires { i < length self.now.rows }
        ensures value { result ≡ start self.now.heads i }
        ensures law { AreHeads self.now }
    {
        self.heads[i] as i64
    }

    /// The weight to an activity in the trial.
    pub(crate) fn tried(&self, i: usize) -> i64
        requires { i < length self.now.rows }
        ensures value { result ≡ start self.now.tried i }
        ensures law { AreHeads self.now }
    {
        self.tried[i] as i64
    }

    /// The weights to all activities.
    pub(crate) fn all(&self) -> &[i32]
        ensures value { result.now ≡ self.now.heads }
        ensures law { AreHeads self.now }
    {
        self.heads.as_slice()
    }

    /// The same in the trial.
    pub(crate) fn all_tried(&self) -> &[i32]
        ensures value { result.now ≡ self.now.tried }
        ensures law { AreHeads self.now }
    {
        self.tried.as_slice()
    }

    /// How many arcs there are.
    pub(crate) fn arc_count(&self) -> usize
        ensures value { result ≡ length self.now.arcs }
        ensures law { AreHeads self.now }
    {
        self.arcs.len()
    }

    /// An arc.
    pub(crate) fn arc(&self, index: usize) -> Lag
        requires { index < length self.now.arcs }
        ensures { slice_index_or self.now.arcs index result ≡ result }
    {
        self.arcs[index]
    }

    /// Adds an arc to the list.
    pub(crate) fn push(&mut self, arc: Lag) -> Result<(), AllocError>
        requires { IsLight (length self.old.rows) arc }
        ensures added { OnOk result (self.new ≡ record self.old { arcs = self.old.arcs ++ arc ∷ [] }) }
        ensures unchanged { OnErr result (self.new ≡ self.old) }
    {
        self.arcs.push(arc)?;
        Ok(())
    }

    /// Begins anew, with the matrix alone.
    pub(crate) fn begin(&mut self)
        ensures begun { self.new ≡ record self.old { arcs = []; heads = self.new.heads } }
        ensures first { IsRowAt self.old.rows 0 self.new.heads }
    {
        self.arcs.clear();
        self.heads
            .as_mut_slice()
            .copy_from_slice(self.table[0].as_slice());
    }

    /// Takes a row of the matrix for the trial.
    fn take_row(&mut self, a: usize)
        requires { a < length self.old.rows }
        ensures same { self.new ≡ record self.old { tried = self.new.tried } }
        ensures row { IsRowAt self.old.rows a self.new.tried }
    {
        self.tried
            .as_mut_slice()
            .copy_from_slice(self.table[a].as_slice());
    }

    /// Takes an arc into the matrix, of whose end the trial has the row.
    fn go_over(&mut self, arc: Lag)
        requires light { IsLight (length self.old.rows) arc }
        requires none { ClosesNone arc self.old.rows }
        requires row { IsRowAt self.old.rows arc.to self.old.tried }
        ensures { self.new ≡ record self.old { rows = rows_over arc self.old.rows } }
    {
        go_over(self.table.as_mut_slice(), self.tried.as_slice(), arc);
    }

    /// Takes an arc into the matrix, and begins anew with that alone.
    pub(crate) fn take_root(&mut self, arc: Lag)
        requires light { IsLight (length self.old.rows) arc }
        requires none { ClosesNone arc self.old.rows }
        ensures rooted { self.new ≡ record {
          rows = rows_over arc self.old.rows;
          arcs = [];
          heads = self.new.heads;
          tried = self.new.heads;
        } }
        ensures first { IsRowAt self.new.rows 0 self.new.heads }
    {
        self.take_row(arc.to);
        self.go_over(arc);
        self.begin();
        self.begin_trial();
    }

    /// Raises the weights by an arc, beside weights back to 0. Whether they meet all arcs then, if they met the others
    /// before; none where a way over one and back to 0 weighs more than 0.
    pub(crate) fn rise(&mut self, back: &[i32], arc: Lag) -> Option<bool>
        requires both { AreThereAndBack self.old.rows self.old.heads back.now }
        requires light { IsLight (length self.old.rows) arc }
        ensures heads { self.new ≡ record self.old { heads = self.new.heads } }
        ensures risen { HaveRisen self.old.rows (arc ∷ self.old.arcs) back.now self.old.heads self.new.heads }
        ensures told { IsRisenBy arc self.old.arcs back.now self.old.heads self.new.heads result }
    {
        rise(
            self.heads.as_mut_slice(),
            back,
            self.table.as_slice(),
            self.arcs.as_slice(),
            arc,
        )
    }

    /// Takes the weights for the trial.
    pub(crate) fn begin_trial(&mut self)
        ensures { self.new ≡ record self.old { tried = self.old.heads } }
    {
        self.tried
            .as_mut_slice()
            .copy_from_slice(self.heads.as_slice());
    }

    /// Raises the weights of the trial by an arc, beside weights back to 0.
    pub(crate) fn try_arc(&mut self, back: &[i32], arc: Lag)
        requires both { AreThereAndBack self.old.rows self.old.tried back.now }
        requires light { IsLight (length self.old.rows) arc }
        ensures tried { self.new ≡ record self.old { tried = self.new.tried } }
        ensures risen { HaveRisen self.old.rows (arc ∷ self.old.arcs) back.now self.old.tried self.new.tried }
    {
        let _told = rise(
            self.tried.as_mut_slice(),
            back,
            self.table.as_slice(),
            self.arcs.as_slice(),
            arc,
        );
    }

    /// Those of the matrix of these rows, with no arc beside it.
    pub(crate) fn new(alloc: Global, table: Vec<Vec<i32>>) -> Result<Heads, AllocError>
        requires { IsTable (table_rows table.items) }
        ensures made { IfOk result (λ x. x ≡ record {
          rows = table_rows table.items;
          arcs = [];
          heads = x.heads;
          tried = x.heads;
        }) }
        ensures first { IfOk result (λ x. IsRowAt (table_rows table.items) 0 x.heads) }
    {
        let heads = Vec::from_slice(alloc, table[0].as_slice())?;
        let tried = Vec::from_slice(alloc, table[0].as_slice())?;
        Ok(Heads {
            table,
            arcs: Vec::new(alloc),
            heads,
            tried,
        })
    }
}
