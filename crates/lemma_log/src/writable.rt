//! Which events are read back once they are written: those whose numbers are within the limits, and lemmas of few arcs
//! and lines.

ghost use Rattle.std.specs.Prelude.{◌≡◌, ◌↔◌, ◌≤◌, ◌<◌, ◌^◌, IsTrue};
ghost use Rattle.std.specs.List.{AllByRecursion, sum_by};
ghost use Rattle.lemma_log.specs.Text.{IsAmount, IsIndex, IsWritableArc, IsWritableBody, IsWritableClaim, IsWritableInterval, IsWritableLine, IsWritableOverload, line_numbers, spread};

use crate::event::Event;
use lemma_proof::{Interval, Line, WindowOverload};
use network::{Lag, Verdict};

/// What a slot, an activity, a resource or a count is below.
const INDEX_LIMIT: usize = 1_152_921_504_606_846_976;

/// The most arcs of a lemma.
pub const MAX_ARCS: usize = 1_024;

/// The most bytes of a lemma's event, without the number of them.
pub const MAX_BYTES: usize = 1_048_576;

/// The most numbers in the lines of a lemma that is written. A number has 19 bytes at most, so all of its event and as many
/// arcs as it may have are within the limit.
const MAX_NUMBERS: u128 = 50_000;

/// The greatest weight, start, makespan, bound or end of a window. The least is its negative.
const MAX_AMOUNT: i64 = 1_152_921_504_606_846_976;

/// Whether this is a slot, an activity, a resource or a count within the limits.
fn is_index(n: usize) -> bool
    ensures { IsTrue result ↔ IsIndex n }
{
    n < INDEX_LIMIT
}

/// Whether this is a weight, a start, a makespan, a bound or an end of a window within the limits.
fn is_amount(v: i64) -> bool
    ensures { IsTrue result ↔ IsAmount v }
{
    -MAX_AMOUNT <= v && v <= MAX_AMOUNT
}

/// Whether the numbers of an arc are within the limits.
fn is_writable_arc(arc: Lag) -> bool
    ensures { IsTrue result ↔ IsWritableArc arc }
{
    is_index(arc.from) && is_index(arc.to) && is_amount(arc.weight)
}

/// Whether those of each of these arcs are.
fn are_writable_arcs(arcs: &[Lag]) -> bool
    ensures { IsTrue result ↔ AllByRecursion IsWritableArc arcs.now }
{
    for arc in arcs {
        if !is_writable_arc(*arc) {
            return false;
        }
    }
    true
}

/// Whether these are activities within the limits.
fn are_indices(members: &[usize]) -> bool
    ensures { IsTrue result ↔ AllByRecursion IsIndex members.now }
{
    for member in members {
        if !is_index(*member) {
            return false;
        }
    }
    true
}

/// Whether the numbers of an interval are within the limits.
fn is_writable_interval(interval: Interval) -> bool
    ensures { IsTrue result ↔ IsWritableInterval interval }
{
    is_index(interval.activity) && is_amount(interval.at) && is_index(interval.length as usize)
}

/// Whether those of each of these intervals are.
fn are_writable_intervals(intervals: &[Interval]) -> bool
    ensures { IsTrue result ↔ AllByRecursion IsWritableInterval intervals.now }
{
    for interval in intervals {
        if !is_writable_interval(*interval) {
            return false;
        }
    }
    true
}

/// Whether the numbers of an overload are within the limits.
fn is_writable_overload(over: &WindowOverload) -> bool
    ensures { IsTrue result ↔ IsWritableOverload over.now }
{
    match over {
        WindowOverload::Load { resource, from, to } => {
            is_index(*resource) && is_amount(*from) && is_amount(*to)
        }
        WindowOverload::Clique { from, to, members } => {
            let members = members.as_slice();
            is_index(members.len()) && is_amount(*from) && is_amount(*to) && are_indices(members)
        }
        WindowOverload::Tour {
            from,
            to,
            intervals,
        } => {
            let intervals = intervals.as_slice();
            is_index(intervals.len())
                && is_amount(*from)
                && is_amount(*to)
                && are_writable_intervals(intervals)
        }
    }
}

/// Of how many members or intervals an overload is.
fn spread(over: &WindowOverload) -> u128
    ensures value { result ≡ spread over.now }
    ensures small { result < 2 ^ 64 }
{
    match over {
        WindowOverload::Load { .. } => 0,
        WindowOverload::Clique { members, .. } => members.as_slice().len() as u128,
        WindowOverload::Tour { intervals, .. } => intervals.as_slice().len() as u128,
    }
}

/// Whether those of a line that shows an arc, or that no schedule is left, are.
fn is_writable_push(arc: &Option<Lag>, over: &WindowOverload) -> bool
    ensures { IsTrue result ↔ IsWritableLine (Line.Push arc.now over.now) }
{
    match arc {
        None => is_writable_overload(over),
        Some(arc) => is_writable_overload(over) && is_writable_arc(*arc),
    }
}

/// Whether those of a line are.
fn is_writable_line(line: &Line) -> bool
    ensures { IsTrue result ↔ IsWritableLine line.now }
{
    match line {
        Line::Use(slot) => is_index(*slot),
        Line::Force(pair) => is_index(pair.before) && is_index(pair.after),
        Line::Push { arc, over } => is_writable_push(arc, over),
    }
}

/// Whether those of each of these lines are.
fn are_writable_lines(lines: &[Line]) -> bool
    ensures { IsTrue result ↔ AllByRecursion IsWritableLine lines.now }
{
    for line in lines {
        if !is_writable_line(line) {
            return false;
        }
    }
    true
}

/// How many numbers a line has at most.
fn line_numbers(line: &Line) -> u128
    ensures { result ≡ line_numbers line.now }
{
    match line {
        Line::Push { over, .. } => 3 * spread(over) + 7,
        _ => 2,
    }
}

/// Whether lines have no more numbers than those of a lemma may have.
fn are_few_numbers(lines: &[Line]) -> bool
    ensures { IsTrue result ↔ (sum_by line_numbers lines.now ≤ MAX_NUMBERS) }
{
    let mut left = MAX_NUMBERS;
    for line in lines {
        let numbers = line_numbers(line);
        if left < numbers {
            return false;
        }
        left -= numbers;
    }
    true
}

/// Whether these are starts within the limits.
fn are_amounts(starts: &[i64]) -> bool
    ensures { IsTrue result ↔ AllByRecursion IsAmount starts.now }
{
    for start in starts {
        if !is_amount(*start) {
            return false;
        }
    }
    true
}

/// Whether the numbers of a claim are within the limits.
fn is_writable_claim(claim: &Verdict) -> bool
    ensures { IsTrue result ↔ IsWritableClaim claim.now }
{
    match claim {
        Verdict::Optimal { makespan } => is_amount(*makespan),
        Verdict::Bound { bound } => is_amount(*bound),
        Verdict::NoSchedule => true,
    }
}

/// Whether all numbers of an event are within the limits, and a lemma has no more arcs and lines than it may have. What
/// [`put_event`](crate::put_event) writes of it is then read back: it writes no event of 2^63 bytes or more.
pub fn is_writable(event: &Event) -> bool
    ensures { IsTrue result ↔ IsWritableBody event.now }
{
    match event {
        Event::Lemma { slot, arcs, lines } => {
            let arcs = arcs.as_slice();
            is_index(*slot)
                && arcs.len() <= MAX_ARCS
                && are_writable_arcs(arcs)
                && are_writable_lines(lines.as_slice())
                && are_few_numbers(lines.as_slice())
        }
        Event::Drop { slot } => is_index(*slot),
        Event::Schedule { starts } => {
            let starts = starts.as_slice();
            is_index(starts.len()) && are_amounts(starts)
        }
        Event::Claim(claim) => is_writable_claim(claim),
    }
}
