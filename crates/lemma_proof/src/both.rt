//! The two halves of a block: walks from 0, and walks back to it.

ghost use Rattle.std.specs.Prelude.{◌≡◌, length, OnOk};
ghost use Rattle.longest_path.specs.Insert.{ClosesNone};
ghost use Rattle.lemma_proof.specs.Heads.{IsLight};
ghost use Rattle.lemma_proof.specs.Rising.{AreThereAndBack};
ghost use Rattle.lemma_proof.specs.Block.{converse_of};
ghost use Rattle.lemma_proof.specs.Halves.{AreConverse, AreRooted, AreToldBoth, AreTried, HaveBothRisen, IsListed, MayList};

use crate::heads::Heads;
use network::Lag;
use std::alloc::AllocError;

/// The arc in the other direction.
fn converse_of(arc: Lag) -> Lag
    ensures { result ≡ converse_of arc }
{
    Lag {
        from: arc.to,
        to: arc.from,
        weight: arc.weight,
    }
}

/// Lists an arc in both halves, unless it touches 0.
pub(crate) fn push_both(heads: &mut Heads, tails: &mut Heads, arc: Lag) -> Result<(), AllocError>
    requires converse { AreConverse heads.old.rows tails.old.rows }
    requires light { IsLight (length heads.old.rows) arc }
    ensures heads { MayList arc heads.old heads.new }
    ensures tails { MayList (converse_of arc) tails.old tails.new }
    ensures listed { OnOk result (IsListed arc heads.new.arcs) }
{
    if arc.from == 0 || arc.to == 0 {
        return Ok(());
    }
    heads.push(arc)?;
    tails.push(converse_of(arc))
}

/// Raises heads and tails by an arc. Whether they meet all arcs then, if they met the others before; none where a closed
/// walk has positive weight.
pub(crate) fn rise_both(heads: &mut Heads, tails: &mut Heads, arc: Lag) -> Option<bool>
    requires converse { AreConverse heads.old.rows tails.old.rows }
    requires both { AreThereAndBack heads.old.rows heads.old.heads tails.old.heads }
    requires light { IsLight (length heads.old.rows) arc }
    ensures risen { HaveBothRisen arc heads.old tails.old heads.new tails.new }
    ensures told { AreToldBoth arc heads.old tails.old heads.new tails.new result }
{
    let heads_settled = heads.rise(tails.all(), arc)?;
    let tails_settled = tails.rise(heads.all(), converse_of(arc))?;
    Some(heads_settled && tails_settled)
}

/// Takes for the trial heads and tails, raised by an arc more.
pub(crate) fn try_both(heads: &mut Heads, tails: &mut Heads, arc: Lag)
    requires converse { AreConverse heads.old.rows tails.old.rows }
    requires both { AreThereAndBack heads.old.rows heads.old.heads tails.old.heads }
    requires light { IsLight (length heads.old.rows) arc }
    ensures { AreTried arc heads.old tails.old heads.new tails.new }
{
    heads.begin_trial();
    tails.begin_trial();
    heads.try_arc(tails.all_tried(), arc);
    tails.try_arc(heads.all_tried(), converse_of(arc));
}

/// Takes an arc into the matrix of both halves, and begins anew with that alone.
pub(crate) fn root_both(heads: &mut Heads, tails: &mut Heads, arc: Lag)
    requires converse { AreConverse heads.old.rows tails.old.rows }
    requires light { IsLight (length heads.old.rows) arc }
    requires none { ClosesNone arc heads.old.rows }
    ensures { AreRooted arc heads.old heads.new tails.new }
{
    prove!(heads.activity_count() == tails.activity_count());
    heads.take_root(arc);
    tails.take_root(converse_of(arc));
}
