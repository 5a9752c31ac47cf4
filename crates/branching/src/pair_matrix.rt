//! A matrix of pairs that are added one by one, and taken away from the last one on.

ghost use Rattle.std.specs.Prelude.{◌≡◌, ◌<◌, ◌≤◌, [], ◌∷◌, ◌++◌, length, take, IfErr, OnOk, OnErr};
ghost use Rattle.network.specs.Problem.{Problem, arcs_of, NameActivities};
ghost use Rattle.network.specs.Walk.{HasNoPositiveCycle};
ghost use Rattle.branching.specs.Path.{front, IsFrontOf, IsPath, IsPairFault};

use crate::pair_list::PairList;
use longest_path::{MarkedMatrix, Matrix, PathFault};
use network::{Pair, Project};
use std::alloc::{AllocError, Global};
use std::marker::Model;

/// Pairs that were added to a project, and the matrix of the project and the pairs. It goes back where pairs are taken
/// away.
#[derive(Drop, Debug)]
pub struct PairMatrix {
    pairs: Vec<Pair>,
    /// With a mark for each pair.
    pub(crate) matrix: MarkedMatrix,
}

impl Model for PairMatrix {
    ghost use Rattle.std.specs.Prelude.{◌≡◌, length};
    ghost use Rattle.branching.specs.Path.{PairRows};

    ghost Value = { PairRows };

    ghost view = { λ s. record { pairs = s.pairs.items; marked = s.matrix } };

    ghost invariant = { λ s. length s.pairs.items ≡ length s.matrix.marks };
}

impl PairMatrix {
    /// No pairs, and the matrix of the project alone.
    pub fn new(alloc: Global, matrix: Matrix) -> PairMatrix
        ensures { result ≡ record { pairs = []; marked = record { rows = matrix; marks = [] } } }
    {
        PairMatrix {
            pairs: Vec::new(alloc),
            matrix: MarkedMatrix::new(alloc, matrix),
        }
    }

    /// The pairs, in the order in which they were added.
    pub fn pairs(&self) -> &[Pair]
        ensures { result.now ≡ self.now.pairs }
    {
        self.pairs.as_slice()
    }

    /// The matrix of the project and the pairs.
    pub fn matrix(&self) -> &Matrix
        ensures { result.now ≡ self.now.marked.rows }
    {
        self.matrix.matrix()
    }

    /// Adds a pair. A fault leaves all as it was.
    pub fn add(&mut self, project: &Project, pair: Pair) -> Result<(), PathFault>
        requires path { IsPath project.now self.old }
        requires named { NameActivities project.now (pair ∷ []) }
        ensures path { IsPath project.now self.new }
        ensures pairs { OnOk result (self.new.pairs ≡ self.old.pairs ++ pair ∷ []) }
        ensures fault { IfErr result (IsPairFault project.now (self.old.pairs ++ pair ∷ [])) }
        ensures unchanged { OnErr result (self.new ≡ self.old) }
    {
        self.pairs.reserve(1)?;
        let arc = project.pair_arc(pair);
        if let Err(fault) = self.matrix.insert_under_mark(arc) {
            return Err(fault);
        }
        self.pairs.push_reserved(pair);
        Ok(())
    }

    /// Takes the last pair away.
    fn drop_last(&mut self)
        requires { 0 < length self.old.pairs }
        ensures pairs { self.new.pairs ≡ front self.old.pairs }
        ensures path { (p : Problem) → IsPath p self.old → IsPath p self.new }
    {
        self.pairs.truncate(self.pairs.len() - 1);
        self.matrix.go_back();
    }

    /// Keeps the first so many pairs.
    pub fn keep(&mut self, count: usize)
        requires { count ≤ length self.old.pairs }
        ensures pairs { self.new.pairs ≡ take count self.old.pairs }
        ensures path { (p : Problem) → IsPath p self.old → IsPath p self.new }
    {
        while count < self.pairs.len() {
            self.drop_last();
        }
    }

    /// Adds those of the pairs that are still missing.
    pub(crate) fn go_on(&mut self, project: &Project, pairs: &PairList) -> Result<(), AllocError>
        requires path { IsPath project.now self.old }
        requires begun { self.old.pairs ≡ take (length self.old.pairs) pairs.now }
        requires named { NameActivities project.now pairs.now }
        requires live { HasNoPositiveCycle (arcs_of project.now pairs.now) }
        ensures path { IsPath project.now self.new }
        ensures pairs { OnOk result (self.new.pairs ≡ pairs.now) }
        ensures front { IsFrontOf self.new.pairs pairs.now }
    {
        while let Some(pair) = pairs.get(self.pairs.len()) {
            match self.add(project, pair) {
                Ok(()) => {}
                Err(PathFault::Memory) => return Err(AllocError),
                Err(PathFault::PositiveCycle { .. }) => unreachable!(),
            }
        }
        Ok(())
    }
}
