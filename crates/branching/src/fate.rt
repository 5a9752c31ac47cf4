//! What becomes of an ordered pair of a forbidden set.

use network::Pair;

/// What became of an ordered pair of a forbidden set. `K` is what is told of its child.
#[derive(Drop, Debug)]
pub enum Fate<K> {
    /// It gave a child.
    Child(K),
    /// With the pair and these forced pairs some closed walk has positive weight, so that no schedule
    /// keeps the pair.
    Infeasible { forced: Vec<Pair> },
    /// With the pair and these forced pairs the bound is at least the ceiling.
    Cut { forced: Vec<Pair> },
}
