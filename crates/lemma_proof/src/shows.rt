//! The arc that a line shows: by the matrix of all arcs of a block, or by walks that are easily seen.

ghost use Rattle.std.specs.Prelude.{◌≡◌, ◌↔◌, ◌++◌, ◌⊎◌, ◌∷◌, [], List, length, IsTrue, IfSome, MatchOption};
ghost use Rattle.std.specs.List.{All};
ghost use Rattle.network.specs.declared.parts.Lag.{Lag};
ghost use Rattle.network.specs.Problem.{activity_count, pair_arc};
ghost use Rattle.network.specs.Walk.{IsMatrixOf, HasNoPositiveCycle};
ghost use Rattle.lemma_proof.specs.Heads.{IsLight};
ghost use Rattle.lemma_proof.specs.Reasons.{Implies, reverse_of};
ghost use Rattle.lemma_proof.specs.Lines.{AreLemmas, IsArc, IsForced, IsIn, IsOverload, IsPushed, IsUse, Shows, impossible};
ghost use Rattle.lemma_proof.specs.Telling.{TellsArc};

use crate::left::arc_left;
use crate::line::{Line, WindowOverload};
use crate::overload::{is_arc, is_late, is_overload};
use crate::{Block, LemmaSlots, Weights, reverse_of};
use forbidden_sets::are_incompatible;
use longest_path::Matrix;
use network::{Lag, Pair, Project};
use record_text::Listed;

/// A lemma's arcs.
pub type Lags = Listed<Lag>;

/// An arc that no starts meet.
pub const IMPOSSIBLE: Lag = Lag {
    from: 0,
    to: 0,
    weight: 1,
};

/// The reverse of the arc that the lemma of a slot leaves, if it leaves but one.
fn used_arc(project: &Project, weights: &Weights, lemmas: &LemmaSlots, slot: usize) -> Option<Lag>
    requires size { length weights.now.rows ≡ activity_count project.now }
    requires lemmas { AreLemmas project.now lemmas.now }
    ensures light { IfSome result (IsLight (activity_count project.now)) }
    ensures told { TellsArc (activity_count project.now) weights.now result
        (λ arcs e. IsUse lemmas.now arcs slot e) }
{
    let lemma = lemmas.lemma_in(slot)?;
    let left = arc_left(weights, lemma)?;
    Some(reverse_of(left))
}

/// The arc of the pair, if it is forced.
fn forced_arc(project: &Project, weights: &Weights, pair: Pair) -> Option<Lag>
    requires { length weights.now.rows ≡ activity_count project.now }
    ensures light { IfSome result (IsLight (activity_count project.now)) }
    ensures told { TellsArc (activity_count project.now) weights.now result
        (λ arcs e. IsForced project.now arcs pair × (e ≡ pair_arc project.now pair)) }
{
    if !are_incompatible(project, pair) {
        return None;
    }
    if is_late(project, weights, pair) {
        Some(project.pair_arc(pair))
    } else {
        None
    }
}

/// The arc that no starts meet, if the arcs have the overload.
fn ended_arc(
    project: &Project,
    weights: &Weights,
    lemmas: &LemmaSlots,
    over: &WindowOverload,
) -> Option<Lag>
    requires { length weights.now.rows ≡ activity_count project.now }
    ensures light { IfSome result (IsLight (activity_count project.now)) }
    ensures told { TellsArc (activity_count project.now) weights.now result
        (λ arcs e. IsOverload project.now lemmas.now arcs over.now × (e ≡ impossible)) }
{
    prove!(project.activity_count() >= 2);
    if is_overload(project, weights, lemmas, over) {
        Some(IMPOSSIBLE)
    } else {
        None
    }
}

/// Whether the matrix of its block implies the arc, or the block has the overload with the arc's reverse, which is not
/// inserted.
fn is_pushed(
    project: &Project,
    matrix: &Matrix,
    lemmas: &LemmaSlots,
    arc: Lag,
    over: &WindowOverload,
) -> bool
    requires size { length matrix.now ≡ activity_count project.now }
    requires arc { IsArc project.now arc }
    ensures { (arcs : List Lag) → IsMatrixOf (activity_count project.now) arcs matrix.now →
        IsTrue result ↔ (Implies arcs arc ⊎ IsOverload project.now lemmas.now (arcs ++ reverse_of arc ∷ []) over.now) }
{
    if Weights::of(matrix).implies(arc) {
        return true;
    }
    is_overload(
        project,
        &Weights::with(matrix, reverse_of(arc)),
        lemmas,
        over,
    )
}

/// The arc that an overload shows, by the matrix.
fn pushed_arc(
    project: &Project,
    matrix: &Matrix,
    lemmas: &LemmaSlots,
    arc: Option<Lag>,
    over: &WindowOverload,
) -> Option<Lag>
    requires size { length matrix.now ≡ activity_count project.now }
    ensures light { IfSome result (IsLight (activity_count project.now)) }
    ensures shown { (arcs : List Lag) → IsMatrixOf (activity_count project.now) arcs matrix.now →
        MatchOption result ((e : Lag) → ¬ IsPushed project.now lemmas.now arcs arc over.now e)
        (IsPushed project.now lemmas.now arcs arc over.now) }
{
    let Some(arc) = arc else {
        return ended_arc(project, &Weights::of(matrix), lemmas, over);
    };
    if !is_arc(project, arc) {
        return None;
    }
    if is_pushed(project, matrix, lemmas, arc, over) {
        Some(arc)
    } else {
        None
    }
}

/// The arc that a line shows of the arcs of a matrix, if it shows one.
pub(crate) fn shown_arc(
    project: &Project,
    matrix: &Matrix,
    lemmas: &LemmaSlots,
    line: &Line,
) -> Option<Lag>
    requires size { length matrix.now ≡ activity_count project.now }
    requires lemmas { AreLemmas project.now lemmas.now }
    ensures light { IfSome result (IsLight (activity_count project.now)) }
    ensures shown { (arcs : List Lag) → IsMatrixOf (activity_count project.now) arcs matrix.now →
        MatchOption result ((e : Lag) → ¬ Shows project.now lemmas.now arcs line.now e)
        (Shows project.now lemmas.now arcs line.now) }
{
    match line {
        Line::Force(pair) => forced_arc(project, &Weights::of(matrix), *pair),
        Line::Use(slot) => used_arc(project, &Weights::of(matrix), lemmas, *slot),
        Line::Push { arc, over } => pushed_arc(project, matrix, lemmas, *arc, over),
    }
}

/// Whether walks that are easily seen show that the block implies the arc, or has the overload with the arc's reverse.
fn is_seen_pushed(
    project: &Project,
    block: &mut Block,
    lemmas: &LemmaSlots,
    arc: Lag,
    over: &WindowOverload,
) -> bool
    requires size { length block.old.rows ≡ activity_count project.now }
    requires arc { IsArc project.now arc }
    ensures rows { block.new.rows ≡ block.old.rows }
    ensures more { block.new.more ≡ block.old.more }
    ensures pushed { IsTrue result → (own : List Lag) → IsMatrixOf (activity_count project.now) own block.old.rows →
        HasNoPositiveCycle (own ++ block.old.more) →
        Implies (own ++ block.old.more) arc
        ⊎ IsOverload project.now lemmas.now ((own ++ block.old.more) ++ reverse_of arc ∷ []) over.now }
{
    prove!(block.activity_count() > 0);
    if Weights::seen(block, None).implies(arc) {
        return true;
    }
    let reverse = reverse_of(arc);
    block.try_arc(reverse);
    is_overload(project, &Weights::seen(block, Some(reverse)), lemmas, over)
}

/// The arc that an overload shows, by walks that are easily seen.
fn seen_pushed_arc(
    project: &Project,
    block: &mut Block,
    lemmas: &LemmaSlots,
    arc: Option<Lag>,
    over: &WindowOverload,
) -> Option<Lag>
    requires size { length block.old.rows ≡ activity_count project.now }
    ensures rows { block.new.rows ≡ block.old.rows }
    ensures more { block.new.more ≡ block.old.more }
    ensures light { IfSome result (IsLight (activity_count project.now)) }
    ensures pushed { (own : List Lag) → IsMatrixOf (activity_count project.now) own block.old.rows →
        HasNoPositiveCycle (own ++ block.old.more) →
        IfSome result (IsPushed project.now lemmas.now (own ++ block.old.more) arc over.now) }
{
    prove!(block.activity_count() > 0);
    let Some(arc) = arc else {
        return ended_arc(project, &Weights::seen(block, None), lemmas, over);
    };
    if !is_arc(project, arc) {
        return None;
    }
    if is_seen_pushed(project, block, lemmas, arc, over) {
        Some(arc)
    } else {
        None
    }
}

/// For how many weights a line asks at most, where each may take as many steps as there are arcs beside the matrix.
pub(crate) fn weights_asked(lemmas: &LemmaSlots, line: &Line) -> usize {
    match line {
        Line::Use(slot) => lemmas.lemma_in(*slot).map_or(0, |lemma| lemma.len()),
        Line::Push {
            over: WindowOverload::Clique { members, .. },
            ..
        } => {
            let count = members.as_slice().len();
            count.saturating_mul(count)
        }
        Line::Push {
            over: WindowOverload::Tour { intervals, .. },
            ..
        } => {
            let count = intervals.as_slice().len();
            count.saturating_mul(count)
        }
        _ => 1,
    }
}

/// The arc that a line shows of the arcs of a block, if walks that are easily seen show that it does. They are not looked
/// for if that is spent which they may take.
pub(crate) fn seen_arc(
    project: &Project,
    block: &mut Block,
    spent: bool,
    lemmas: &LemmaSlots,
    line: &Line,
) -> Option<Lag>
    requires size { length block.old.rows ≡ activity_count project.now }
    requires lemmas { AreLemmas project.now lemmas.now }
    ensures rows { block.new.rows ≡ block.old.rows }
    ensures more { block.new.more ≡ block.old.more }
    ensures light { IfSome result (IsLight (activity_count project.now)) }
    ensures shown { (own : List Lag) → IsMatrixOf (activity_count project.now) own block.old.rows →
        HasNoPositiveCycle (own ++ block.old.more) →
        IfSome result (Shows project.now lemmas.now (own ++ block.old.more) line.now) }
{
    prove!(block.activity_count() > 0);
    if spent {
        return None;
    }
    match line {
        Line::Force(pair) => forced_arc(project, &Weights::seen(block, None), *pair),
        Line::Use(slot) => used_arc(project, &Weights::seen(block, None), lemmas, *slot),
        Line::Push { arc, over } => seen_pushed_arc(project, block, lemmas, *arc, over),
    }
}
