//! When intervals that lie one after another are too long for a window.

ghost use Rattle.std.specs.Prelude.{◌≡◌, ◌↔◌, ◌<◌, ◌+ℤ◌, ◌-ℤ◌, ◌<ℤ◌, pos, List, length, IsTrue};
ghost use Rattle.std.specs.List.{All, AllPairs, sum_by};
ghost use Rattle.network.specs.declared.parts.Lag.{Lag};
ghost use Rattle.network.specs.Problem.{IsTime, activity_count};
ghost use Rattle.longest_path.specs.Insert.{arc_of};
ghost use Rattle.lemma_proof.specs.Slots.{IsSmall, delay};
ghost use Rattle.lemma_proof.specs.Tours.{BeginsAfterEnd, IsInterval, IsTour, LieApart, LiesWithin, Rise};
ghost use Rattle.lemma_proof.specs.Reasons.{TellsWhether};

use crate::line::{Interval, MAX_LENGTH};
use crate::slots::{LemmaSlots, delay};
use crate::weights::{MAX_ARC_WEIGHT, Weights};
use network::{Lag, Project};

/// Whether an interval is within the limits.
pub fn is_small(interval: Interval) -> bool
    ensures { IsTrue result ↔ IsSmall interval }
{
    -MAX_ARC_WEIGHT <= interval.at && interval.at <= MAX_ARC_WEIGHT && interval.length <= MAX_LENGTH
}

/// Whether all intervals are within the limits.
pub fn all_are_small(intervals: &[Interval]) -> bool
    ensures { IsTrue result ↔ All IsSmall intervals.now }
{
    for interval in intervals {
        if !is_small(*interval) {
            return false;
        }
    }
    true
}

/// Whether this is an interval of an activity, within the limits.
fn is_interval(project: &Project, interval: Interval) -> bool
    ensures { IsTrue result ↔ IsInterval project.now interval }
{
    interval.activity < project.activity_count() && is_small(interval)
}

/// Whether all are such.
fn are_intervals(project: &Project, intervals: &[Interval]) -> bool
    ensures { IsTrue result ↔ All (IsInterval project.now) intervals.now }
{
    for interval in intervals {
        if !is_interval(project, *interval) {
            return false;
        }
    }
    true
}

/// Whether the activity of each interval is below that of the next.
fn rise(intervals: &[Interval]) -> bool
    ensures { IsTrue result ↔ Rise intervals.now }
{
    for place in 1..intervals.len() {
        let before = intervals[place - 1].activity;
        let here = intervals[place].activity;
        if here <= before {
            return false;
        }
    }
    true
}

/// The arc by which the second interval begins once the first has ended.
fn arc_between(one: Interval, other: Interval) -> Lag
    requires one { IsSmall one }
    requires other { IsSmall other }
    ensures arc { result ≡ arc_of one.activity other.activity (delay one other) }
    ensures from { result.from ≡ one.activity }
    ensures to { result.to ≡ other.activity }
{
    Lag {
        from: one.activity,
        to: other.activity,
        weight: delay(one, other),
    }
}

/// Whether two intervals have no time in common.
fn lie_apart(
    project: &Project,
    weights: &Weights,
    lemmas: &LemmaSlots,
    one: Interval,
    other: Interval,
) -> bool
    requires size { length weights.now.rows ≡ activity_count project.now }
    requires one { IsInterval project.now one }
    requires other { IsInterval project.now other }
    ensures { TellsWhether (activity_count project.now) weights.now result
        (λ arcs. LieApart lemmas.now arcs one other) }
{
    if weights.implies(arc_between(one, other)) {
        return true;
    }
    if weights.implies(arc_between(other, one)) {
        return true;
    }
    lemmas.has_delays(one, other)
}

/// Whether an interval has no time in common with any of these.
fn all_lie_apart(
    project: &Project,
    weights: &Weights,
    lemmas: &LemmaSlots,
    others: &[Interval],
    interval: Interval,
) -> bool
    requires size { length weights.now.rows ≡ activity_count project.now }
    requires others { All (IsInterval project.now) others.now }
    requires interval { IsInterval project.now interval }
    ensures { TellsWhether (activity_count project.now) weights.now result
        (λ arcs. All (λ m. LieApart lemmas.now arcs m interval) others.now) }
{
    for other in others {
        if !lie_apart(project, weights, lemmas, *other, interval) {
            return false;
        }
    }
    true
}

/// Whether the intervals lie one after another.
fn lie_one_after_another(
    project: &Project,
    weights: &Weights,
    lemmas: &LemmaSlots,
    intervals: &[Interval],
) -> bool
    requires size { length weights.now.rows ≡ activity_count project.now }
    requires intervals { All (IsInterval project.now) intervals.now }
    ensures { TellsWhether (activity_count project.now) weights.now result
        (λ arcs. AllPairs (LieApart lemmas.now arcs) intervals.now) }
{
    for place in 0..intervals.len() {
        if !all_lie_apart(
            project,
            weights,
            lemmas,
            &intervals[..place],
            intervals[place],
        ) {
            return false;
        }
    }
    true
}

/// The arc by which an interval does not begin before the window.
fn late_arc(from: i64, interval: Interval) -> Lag
    requires from { IsTime from }
    requires interval { IsSmall interval }
    ensures arc { result ≡ arc_of 0 interval.activity (from -ℤ interval.at) }
    ensures from { result.from ≡ 0 }
    ensures to { result.to ≡ interval.activity }
{
    Lag {
        from: 0,
        to: interval.activity,
        weight: from - interval.at,
    }
}

/// The arc by which an interval does not end after the window.
fn early_arc(to: i64, interval: Interval) -> Lag
    requires to { IsTime to }
    requires interval { IsSmall interval }
    ensures arc { result ≡ arc_of interval.activity 0 ((interval.at +ℤ pos interval.length) -ℤ to) }
    ensures from { result.from ≡ interval.activity }
    ensures to { result.to ≡ 0 }
{
    Lag {
        from: interval.activity,
        to: 0,
        weight: interval.at + interval.length as i64 - to,
    }
}

/// Whether an interval lies within the window, whenever its activity starts.
fn lies_within(project: &Project, weights: &Weights, from: i64, to: i64, interval: Interval) -> bool
    requires size { length weights.now.rows ≡ activity_count project.now }
    requires from_time { IsTime from }
    requires to_time { IsTime to }
    requires interval { IsInterval project.now interval }
    ensures { TellsWhether (activity_count project.now) weights.now result
        (λ arcs. LiesWithin arcs from to interval) }
{
    if !weights.implies(late_arc(from, interval)) {
        return false;
    }
    weights.implies(early_arc(to, interval))
}

/// Whether all intervals lie within the window.
fn all_lie_within(
    project: &Project,
    weights: &Weights,
    from: i64,
    to: i64,
    intervals: &[Interval],
) -> bool
    requires size { length weights.now.rows ≡ activity_count project.now }
    requires from_time { IsTime from }
    requires to_time { IsTime to }
    requires intervals { All (IsInterval project.now) intervals.now }
    ensures { TellsWhether (activity_count project.now) weights.now result
        (λ arcs. All (LiesWithin arcs from to) intervals.now) }
{
    for interval in intervals {
        if !lies_within(project, weights, from, to, *interval) {
            return false;
        }
    }
    true
}

/// Whether the intervals are longer together than the window.
fn are_longer(from: i64, to: i64, intervals: &[Interval]) -> bool
    requires from_time { IsTime from }
    requires to_time { IsTime to }
    requires intervals { All IsSmall intervals.now }
    ensures { IsTrue result ↔ (to <ℤ (from +ℤ pos (sum_by (λ m. m.length) intervals.now))) }
{
    let mut left = to - from;
    for interval in intervals {
        if left < 0 {
            return true;
        }
        left -= interval.length as i64;
    }
    left < 0
}

/// Whether the intervals lie one after another, all within the window, and are longer than it.
pub fn is_tour(
    project: &Project,
    weights: &Weights,
    lemmas: &LemmaSlots,
    from: i64,
    to: i64,
    intervals: &[Interval],
) -> bool
    requires size { length weights.now.rows ≡ activity_count project.now }
    requires from_time { IsTime from }
    requires to_time { IsTime to }
    ensures { TellsWhether (activity_count project.now) weights.now result
        (λ arcs. IsTour project.now lemmas.now arcs from to intervals.now) }
{
    if intervals.is_empty() {
        return false;
    }
    if !rise(intervals) {
        return false;
    }
    if !are_intervals(project, intervals) {
        return false;
    }
    if !are_longer(from, to, intervals) {
        return false;
    }
    if !all_lie_within(project, weights, from, to, intervals) {
        return false;
    }
    lie_one_after_another(project, weights, lemmas, intervals)
}
