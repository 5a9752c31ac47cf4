//! The arc that a lemma leaves.

ghost use Rattle.std.specs.Prelude.{◌≡◌, ◌<◌, length, IfSome};
ghost use Rattle.std.specs.List.{All, Contains};
ghost use Rattle.lemma_proof.specs.Lines.{IsLeft};
ghost use Rattle.lemma_proof.specs.Telling.{TellsArc};

use crate::Weights;
use network::Lag;

/// The arc that a lemma leaves of which all others are implied, if not more than one isn't.
pub(crate) fn arc_left(weights: &Weights, lemma: &[Lag]) -> Option<Lag>
    requires { All (λ e. (e.from < length weights.now.rows) × (e.to < length weights.now.rows)) lemma.now }
    ensures there { IfSome result (Contains lemma.now) }
    ensures left { TellsArc (length weights.now.rows) weights.now result (λ arcs e. IsLeft arcs lemma.now e) }
{
    let mut left = None;
    for arc in lemma {
        if weights.implies(*arc) {
            continue;
        }
        if left.is_some() {
            return None;
        }
        left = Some(*arc);
    }
    left.or(lemma.first().copied())
}
