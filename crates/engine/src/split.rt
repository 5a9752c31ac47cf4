//! Splits of what is open, by the literals that conflicts needed most (cube and conquer, Heule and others 2012).

use crate::search::conflict_of;
use crate::state::Engine;
use instance::Result;
use network::Lag;
use propagation::Literal;

/// How many literals are looked at for a split.
const LOOKS: usize = 40;

/// A part of what is open under a path.
#[derive(Drop)]
pub struct Piece {
    /// A word of `0` and `1`, which goes on from the name of the path.
    pub name: String,
    /// The arcs of its path beyond those of the path.
    pub arcs: Vec<Lag>,
}

/// A leaf of the splits so far.
#[derive(Drop)]
struct Leaf {
    /// Its decisions, each with whether it is the second side of a split.
    sides: Vec<(Literal, bool)>,
    /// How much is left to decide; 0 where there is nothing to split by.
    left: u32,
}

/// The best split of a leaf: the literal of each side, and what it leaves.
#[derive(Clone, Copy)]
struct Split {
    sides: [(Literal, u32); 2],
    score: f64,
}

/// The place of the leaf that leaves most.
fn widest(leaves: &[Leaf]) -> Option<usize> {
    let (mut widest, mut most) = (None, 1);
    for (place, leaf) in leaves.iter().enumerate() {
        if leaf.left >= most {
            (widest, most) = (Some(place), leaf.left);
        }
    }
    widest
}

/// By how much what is left falls, a little where it does not.
fn gain(before: u32, after: u32) -> f64 {
    f64::from(before.saturating_sub(after)) + 0.01
}

impl Engine<'_> {
    /// A level begins with decisions. Whether nothing contradicts what follows.
    fn suppose(&mut self, literals: &[Literal]) -> Result<bool> {
        self.choices.begin_level()?;
        self.decide(literals)?;
        Ok(conflict_of(self.propagate())?.is_none())
    }

    /// What is left to decide: open orders, and the digits of windows of starts.
    fn left(&self) -> u32 {
        let mut sum = 0u32;
        for variable in 0..self.trail.values().count() / 2 {
            let (least, most) = (self.trail.least(variable), self.trail.greatest(variable));
            let width = most.saturating_sub(least).max(0).cast_unsigned();
            sum = sum.wrapping_add(32u32.saturating_sub(width.leading_zeros()));
        }
        sum
    }

    /// What a decision leaves; 0 where it is contradicted.
    fn left_after(&mut self, literal: Literal) -> Result<u32> {
        let level = self.trail.level();
        let left = if self.suppose(&[literal])? {
            self.left()
        } else {
            0
        };
        self.go_back(level)?;
        Ok(left)
    }

    /// The split that gains most on both sides by the weight of its literal. None where all is settled.
    fn best_split(&mut self) -> Result<Option<Split>> {
        let before = self.left();
        let mut best: Option<Split> = None;
        self.suppose(&[])?;
        for (weight, literal) in self.choices.heaviest_of(&self.trail, &self.edges, LOOKS)? {
            let (first, second) = (self.left_after(literal)?, self.left_after(!literal)?);
            let score = weight * gain(before, first) * gain(before, second);
            if best.is_none_or(|best| score > best.score) {
                let sides = [(literal, first), (!literal, second)];
                best = Some(Split { sides, score });
            }
        }
        Ok(best)
    }

    /// The best split of a leaf under a path.
    fn split_of(&mut self, path: &[Literal], leaf: &Leaf) -> Result<Option<Split>> {
        self.go_back(0)?;
        let mut is_open = path.is_empty() || self.suppose(path)?;
        for (literal, _) in &leaf.sides {
            is_open = is_open && self.suppose(&[*literal])?;
        }
        match is_open {
            true => self.best_split(),
            false => Ok(None),
        }
    }

    /// One side of a split of a leaf.
    fn side_of(&self, leaf: &Leaf, split: &Split, is_second: bool) -> Result<Leaf> {
        let (literal, left) = split.sides[usize::from(is_second)];
        let mut sides = leaf.sides.to_vec(self.instance.alloc)?;
        sides.push((literal, is_second))?;
        Ok(Leaf { sides, left })
    }

    /// A leaf as a piece.
    fn piece_of(&self, leaf: &Leaf) -> Result<Piece> {
        let mut name = String::new(self.instance.alloc);
        let mut arcs = Vec::new(self.instance.alloc);
        for (literal, is_second) in &leaf.sides {
            name.push(if *is_second { '1' } else { '0' })?;
            arcs.push(self.log.side(*literal, *is_second))?;
        }
        Ok(Piece { name, arcs })
    }

    /// Puts the two sides of a leaf at the end of a list, or the leaf, as one with nothing to split by.
    fn split_leaf(
        &mut self,
        path: &[Literal],
        mut leaf: Leaf,
        leaves: &mut Vec<Leaf>,
    ) -> Result<()> {
        if let Some(split) = self.split_of(path, &leaf)? {
            leaves.push(self.side_of(&leaf, &split, false)?)?;
            leaves.push(self.side_of(&leaf, &split, true)?)?;
        } else {
            leaf.left = 0;
            leaves.push(leaf)?;
        }
        Ok(())
    }

    /// Splits leaves until there are so many, each time the one that leaves most. Goes back to the root.
    fn split_leaves(
        &mut self,
        path: &[Literal],
        leaves: &mut Vec<Leaf>,
        most: usize,
    ) -> Result<()> {
        for _ in 0..most.saturating_mul(2) {
            let Some(place) = widest(leaves) else {
                break;
            };
            if leaves.len() >= most || place >= leaves.len() {
                break;
            }
            let leaf = leaves.swap_remove(place);
            self.split_leaf(path, leaf, leaves)?;
        }
        self.go_back(0)
    }

    /// Splits what is open under a path into so many pieces at most, each time the one that leaves most. Goes back to the
    /// root.
    pub fn split(&mut self, path: &[Literal], most: usize) -> Result<Vec<Piece>> {
        let mut leaves = Vec::new(self.instance.alloc);
        let (sides, left) = (Vec::new(self.instance.alloc), u32::MAX);
        leaves.push(Leaf { sides, left })?;
        self.split_leaves(path, &mut leaves, most)?;
        let mut pieces = Vec::new(self.instance.alloc);
        for leaf in &leaves {
            pieces.push(self.piece_of(leaf)?)?;
        }
        Ok(pieces)
    }
}
