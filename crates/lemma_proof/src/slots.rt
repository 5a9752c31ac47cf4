//! Lemmas by slots, and the delays that they say.

ghost use Rattle.std.specs.Prelude.{◌≡◌, ◌↔◌, ◌<◌, ◌+◌, ◌^◌, ◌≤ℤ◌, ◌-ℤ◌, [], pos, length, replicate, slice_set, Some, List, IsTrue, OnOk, OnErr, MatchOption};
ghost use Rattle.network.specs.declared.parts.Lag.{Lag};
ghost use Rattle.network.specs.Problem.{IsWithin};
ghost use Rattle.lemma_proof.specs.Slots.{AreDelays, HaveDelays, IsFilled, IsIn, IsListed, IsSmall, KeepsListed, KeepsOthers, LetsGo, SaysAt, SaysDelays, delay, ends_of, joined, with_slot};

use crate::line::Interval;
use crate::shows::Lags;
use network::Lag;
use std::alloc::{AllocError, Global};
use std::collections::BTreeSet;
use std::marker::Model;

/// Activities that two arcs join, one each way, the lesser first, and the slot of a lemma of these arcs.
type Place = ((usize, usize), usize);

/// Lemmas by the slots that they are in.
#[derive(Drop)]
pub struct LemmaSlots {
    lemmas: Vec<Option<Lags>>,
    /// Of each lemma of two arcs between two activities, one each way.
    places: BTreeSet<Place>,
}

impl Model for LemmaSlots {
    ghost use Rattle.lemma_proof.specs.Slots.{AreListed, Slots};

    ghost Value = { Slots };

    ghost view = { λ s. s.lemmas.items };

    ghost invariant = { λ s. AreListed s.lemmas.items s.places };
}

/// Two activities, the lesser first.
fn joined(i: usize, j: usize) -> (usize, usize)
    ensures { result ≡ joined i j }
{
    (i.min(j), i.max(j))
}

/// The activities of a lemma of two arcs between two, one each way.
fn ends_of(lemma: &[Lag]) -> Option<(usize, usize)>
    ensures { result ≡ ends_of lemma.now }
{
    let [one, other] = lemma else {
        return None;
    };
    if one.from == other.to && one.to == other.from {
        Some(joined(one.from, one.to))
    } else {
        None
    }
}

/// How long after the activity of the first interval that of the second starts at least, in periods, where the second
/// interval begins once the first has ended.
pub(crate) fn delay(one: Interval, other: Interval) -> i64
    requires one { IsSmall one }
    requires other { IsSmall other }
    ensures value { result ≡ delay one other }
    ensures small { IsWithin (pos (2 ^ 32)) result }
{
    one.at + one.length as i64 - other.at
}

/// Whether an arc goes from one activity to another.
fn goes_between(arc: Lag, from: usize, to: usize) -> bool
    ensures { IsTrue result ↔ ((arc.from ≡ from) × (arc.to ≡ to)) }
{
    arc.from == from && arc.to == to
}

/// Whether the reverse of an arc is such a delay.
fn is_delay(arc: Lag, delay: i64) -> bool
    requires { IsWithin (pos (2 ^ 32)) delay }
    ensures { IsTrue result ↔ (delay ≤ℤ (pos 1 -ℤ arc.weight)) }
{
    arc.weight <= 1 - delay
}

/// Whether the arcs go from the activity of the first interval to that of the other and back, and no schedule that
/// doesn't meet both has the intervals overlap.
fn are_delays(one: Interval, other: Interval, there: Lag, back: Lag) -> bool
    requires one { IsSmall one }
    requires other { IsSmall other }
    ensures { IsTrue result ↔ AreDelays one other there back }
{
    if !goes_between(there, one.activity, other.activity) {
        return false;
    }
    if !goes_between(back, other.activity, one.activity) {
        return false;
    }
    if !is_delay(back, delay(one, other)) {
        return false;
    }
    is_delay(there, delay(other, one))
}

/// Whether a lemma has such arcs, in either order, and no other.
fn says_delays(one: Interval, other: Interval, lemma: &[Lag]) -> bool
    requires one { IsSmall one }
    requires other { IsSmall other }
    ensures { IsTrue result ↔ SaysDelays one other lemma.now }
{
    let [first, second] = lemma else {
        return false;
    };
    are_delays(one, other, *first, *second) || are_delays(one, other, *second, *first)
}

/// Lists the slot of a lemma, if it has two arcs between two activities, one each way.
fn list(places: &mut BTreeSet<Place>, lemma: &[Lag], slot: usize) -> Result<(), AllocError>
    ensures listed { OnOk result (IsListed places.new lemma.now slot) }
    ensures kept { KeepsListed places.old places.new }
{
    let Some(ends) = ends_of(lemma) else {
        return Ok(());
    };
    places.insert((ends, slot))?;
    Ok(())
}

/// Lists it no longer.
fn unlist(places: &mut BTreeSet<Place>, lemma: &[Lag], slot: usize)
    ensures { KeepsOthers slot places.old places.new }
{
    let Some(ends) = ends_of(lemma) else {
        return;
    };
    places.remove(&(ends, slot));
}

/// Makes empty slots, so that there is this one.
fn make_slot(lemmas: &mut Vec<Option<Lags>>, slot: usize) -> Result<(), AllocError>
    requires { slot < 2 ^ 60 }
    ensures made { OnOk result (lemmas.new.items ≡ with_slot lemmas.old.items slot) }
    ensures unchanged { OnErr result (lemmas.new.items ≡ lemmas.old.items) }
{
    let count = lemmas.len();
    for _ in count..slot + 1 {
        if lemmas.push(None).is_err() {
            lemmas.truncate(count);
            return Err(AllocError);
        }
    }
    Ok(())
}

impl LemmaSlots {
    /// No slot is filled.
    pub fn new(alloc: Global) -> LemmaSlots
        ensures { result ≡ [] }
    {
        LemmaSlots {
            lemmas: Vec::new(alloc),
            places: BTreeSet::new(alloc),
        }
    }

    /// The arcs of the lemma in a slot, if there is one.
    pub fn lemma_in(&self, slot: usize) -> Option<&[Lag]>
        ensures { MatchOption result (¬ IsFilled self.now slot) (λ lemma. IsIn self.now slot lemma.now) }
    {
        match self.lemmas.get(slot) {
            Some(Some(lemma)) => Some(lemma.as_slice()),
            _ => None,
        }
    }

    /// Whether there is a lemma in the slot.
    pub fn is_filled(&self, slot: usize) -> bool
        ensures { IsTrue result ↔ IsFilled self.now slot }
    {
        self.lemma_in(slot).is_some()
    }

    /// Puts a lemma into a slot.
    pub fn put(&mut self, slot: usize, lemma: Lags) -> Result<(), AllocError>
        requires { slot < 2 ^ 60 }
        ensures filled { OnOk result (self.new ≡ slice_set (with_slot self.old slot) slot (Some lemma)) }
        ensures unchanged { OnErr result (self.new ≡ self.old) }
    {
        list(&mut self.places, lemma.as_slice(), slot)?;
        make_slot(&mut self.lemmas, slot)?;
        self.lemmas[slot] = Some(lemma);
        Ok(())
    }

    /// Lets the lemma of a slot go. Whether there is one.
    pub fn let_go(&mut self, slot: usize) -> bool
        ensures { LetsGo self.old slot result self.new }
    {
        let Some(Some(lemma)) = self.lemmas.get(slot) else {
            return false;
        };
        unlist(&mut self.places, lemma.as_slice(), slot);
        self.lemmas[slot] = None;
        true
    }

    /// Whether the lemma of a slot says delays by which two intervals have no time in common.
    fn says_at(&self, one: Interval, other: Interval, slot: usize) -> bool
        requires one { IsSmall one }
        requires other { IsSmall other }
        ensures { IsTrue result ↔ SaysAt self.now one other slot }
    {
        match self.lemma_in(slot) {
            Some(lemma) => says_delays(one, other, lemma),
            None => false,
        }
    }

    /// The first slot whose lemma does.
    pub fn slot_of_delays(&self, one: Interval, other: Interval) -> Option<usize>
        requires one { IsSmall one }
        requires other { IsSmall other }
        ensures { MatchOption result (¬ HaveDelays self.now one other) (SaysAt self.now one other) }
    {
        let ends = joined(one.activity, other.activity);
        let last = self.lemmas.len();
        for place in self.places.range((ends, 0)..=(ends, last)) {
            if self.says_at(one, other, place.1) {
                return Some(place.1);
            }
        }
        None
    }

    /// Whether there is one.
    pub fn has_delays(&self, one: Interval, other: Interval) -> bool
        requires one { IsSmall one }
        requires other { IsSmall other }
        ensures { IsTrue result ↔ HaveDelays self.now one other }
    {
        self.slot_of_delays(one, other).is_some()
    }
}
