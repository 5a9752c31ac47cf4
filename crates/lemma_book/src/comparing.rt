//! Whether premises have what lines rest on beside others.

ghost use Rattle.std.specs.Prelude.{◌≡◌, ◌↔◌, ◌++◌, List, IsTrue};
ghost use Rattle.network.specs.declared.parts.Lag.{Lag};
ghost use Rattle.std.specs.List.{All, AllPairs};
ghost use Rattle.lemma_proof.specs.Slots.{IsSmall};
ghost use Rattle.lemma_proof.specs.Lines.{HasDelays, HasUsed, HaveUsed, IsIn, KeepsDelays};
ghost use Rattle.lemma_book.specs.Premises.{AreAhead};

use crate::premises::Premises;
use lemma_proof::{Interval, Line, WindowOverload, all_are_small};
use network::Lag;

/// Whether arcs begin with these.
fn begin_with(arcs: &[Lag], first: &[Lag]) -> bool
    ensures { IsTrue result ↔ ((rest : List Lag) × (arcs.now ≡ first.now ++ rest)) }
{
    arcs.starts_with(first)
}

/// Whether this lemma is in a slot.
fn has_lemma(premises: &Premises<'_>, slot: usize, lemma: &[Lag]) -> bool
    ensures { IsTrue result ↔ IsIn premises.now.lemmas slot lemma.now }
{
    match premises.lemma_in(slot) {
        Some(arcs) => arcs == lemma,
        None => false,
    }
}

/// Whether the lemma of a slot beside others is here, too.
fn has_lemma_of(premises: &Premises<'_>, other: &Premises<'_>, slot: usize) -> bool
    ensures { IsTrue result ↔ ((lemma : List Lag) → IsIn other.now.lemmas slot lemma → IsIn premises.now.lemmas slot lemma) }
{
    match other.lemma_in(slot) {
        Some(lemma) => has_lemma(premises, slot, lemma),
        None => true,
    }
}

/// Whether delays of two intervals that others say are said here, too.
fn keeps_delays(
    premises: &Premises<'_>,
    other: &Premises<'_>,
    one: Interval,
    second: Interval,
) -> bool
    requires one { IsSmall one }
    requires second { IsSmall second }
    ensures { IsTrue result ↔ KeepsDelays premises.now.lemmas other.now.lemmas one second }
{
    if !other.has_delays(one, second) {
        return true;
    }
    premises.has_delays(one, second)
}

/// Whether those of an interval and each of these are.
fn keeps_delays_of(
    premises: &Premises<'_>,
    other: &Premises<'_>,
    intervals: &[Interval],
    second: Interval,
) -> bool
    requires intervals { All IsSmall intervals.now }
    requires second { IsSmall second }
    ensures { IsTrue result ↔ All (λ m. KeepsDelays premises.now.lemmas other.now.lemmas m second) intervals.now }
{
    for interval in intervals {
        if !keeps_delays(premises, other, *interval, second) {
            return false;
        }
    }
    true
}

/// Whether those of each two are.
fn keeps_all_delays(premises: &Premises<'_>, other: &Premises<'_>, intervals: &[Interval]) -> bool
    requires { All IsSmall intervals.now }
    ensures { IsTrue result ↔ AllPairs (KeepsDelays premises.now.lemmas other.now.lemmas) intervals.now }
{
    for place in 0..intervals.len() {
        if !keeps_delays_of(premises, other, &intervals[..place], intervals[place]) {
            return false;
        }
    }
    true
}

/// Whether the delays that an overload uses beside others are said here, too.
fn has_delays(premises: &Premises<'_>, other: &Premises<'_>, over: &WindowOverload) -> bool
    ensures { IsTrue result ↔ HasDelays premises.now.lemmas other.now.lemmas over.now }
{
    let WindowOverload::Tour { intervals, .. } = over else {
        return true;
    };
    let intervals = intervals.as_slice();
    if !all_are_small(intervals) {
        return true;
    }
    keeps_all_delays(premises, other, intervals)
}

/// Whether what a line uses beside others is here, too.
fn has_used(premises: &Premises<'_>, other: &Premises<'_>, line: &Line) -> bool
    ensures { IsTrue result ↔ HasUsed premises.now.lemmas other.now.lemmas line.now }
{
    match line {
        Line::Force(_) => true,
        Line::Use(slot) => has_lemma_of(premises, other, *slot),
        Line::Push { over, .. } => has_delays(premises, other, over),
    }
}

impl<'a> Premises<'a> {
    /// Whether these are of the project of others, and their root begins with that of the others. If each lemma that
    /// lines use there is here, too, and each delay, the lines refute here what they refute beside the others.
    pub fn are_ahead(&self, other: &Premises<'_>) -> bool
        ensures { IsTrue result ↔ AreAhead self.now other.now }
    {
        self.project().is_same(other.project()) && begin_with(self.roots(), other.roots())
    }

    /// Whether what lines use beside others is here, too: lemmas, and delays.
    pub fn have_used(&self, other: &Premises<'_>, lines: &[Line]) -> bool
        ensures { IsTrue result ↔ HaveUsed self.now.lemmas other.now.lemmas lines.now }
    {
        for line in lines {
            if !has_used(self, other, line) {
                return false;
            }
        }
        true
    }
}
