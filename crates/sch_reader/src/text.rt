//! Reads a project from a text.

ghost use Rattle.std.specs.Prelude.{◌≡◌, ◌≢◌, ◌≤◌, ◌<◌, ◌+◌, ◌↔◌, nat_abs, pos, IfOk, IfErr, MatchResult, length, ℕ};
ghost use Rattle.network.specs.Problem.{Problem, IsProject, problem_of};
ghost use Rattle.network.specs.declared.limits.TheConstants.{MAX_ACTIVITIES, MAX_RESOURCES};
ghost use Rattle.sch_reader.specs.declared.fault.SchFault.{SchFault};
ghost use Rattle.sch_reader.specs.Text.{Spells, IsFirstFault, text_words};
ghost use Rattle.sch_reader.specs.Layout.{row_of, lags_to, network_row, network_rows, request_row, request_rows, requests_of, amount_place, header, project_text};
ghost use Rattle.sch_reader.specs.Reading.{Reads, Gives, reading, whole_reading};

use crate::fault::SchFault;
use crate::place::Place;
use crate::reader::Reader;
use network::{Lag, MAX_LAGS, Parts, Project};
use std::alloc::Global;
use words::MAX_TEXT_BYTES;

/// The header: how many activities there are between the start and the end, and how many resources.
#[tactic(auto, unfolding(crate::specs::Layout::header))]
fn header(reader: &mut Reader<'_>) -> Result<(usize, usize), SchFault>
    ensures reads { Reads (λ h. (h.0, h.1)) result reader.new (reading header reader.old) }
    ensures few { IfOk result (λ h. (h.0 + 2 ≤ MAX_ACTIVITIES) × (h.1 ≤ MAX_RESOURCES)) }
{
    let activities = reader.number(Place::Activities)?;
    let resources = reader.number(Place::Resources)?;
    reader.number(Place::OtherResources)?;
    reader.number(Place::OtherResources)?;
    Ok((
        activities.unsigned_abs() as usize,
        resources.unsigned_abs() as usize,
    ))
}

/// So many numbers, each at such a place. However many are asked for, room is made for no more than
/// the text has bytes left.
#[tactic(auto, unfolding(crate::specs::Layout::row_of))]
fn numbers(
    alloc: Global,
    reader: &mut Reader<'_>,
    count: usize,
    place: Place,
) -> Result<Vec<i64>, SchFault>
    ensures { Reads (λ v. v.items) result reader.new (reading (row_of count place) reader.old) }
{
    let mut numbers = Vec::with_capacity(alloc, count.min(reader.bytes_left()))?;
    for _ in 0..count {
        let number = reader.number(place)?;
        numbers.push(number)?;
    }
    Ok(numbers)
}

/// The lags of the arcs from an activity to these ends.
fn lags_to(
    alloc: Global,
    reader: &mut Reader<'_>,
    from: usize,
    ends: &[i64],
) -> Result<Vec<Lag>, SchFault>
    ensures { Reads (λ v. v.items) result reader.new (reading (lags_to from ends.now) reader.old) }
{
    let mut lags = Vec::with_capacity(alloc, ends.len())?;
    for end in ends {
        let weight = reader.number(Place::Lag)?;
        let to = end.unsigned_abs() as usize;
        lags.push(Lag { from, to, weight })?;
    }
    Ok(lags)
}

/// A network row: the given arcs from an activity, of which at most `left` may come.
#[tactic(auto, using(crate::proofs::Readings::reading_bind), unfolding(crate::specs::Layout::network_row))]
fn network_row(
    alloc: Global,
    reader: &mut Reader<'_>,
    last: usize,
    left: usize,
    row: usize,
) -> Result<Vec<Lag>, SchFault>
    ensures { Reads (λ v. v.items) result reader.new
        (reading (network_row last left row) reader.old) }
{
    reader.number(Place::Id { row, id: row })?;
    reader.number(Place::Mode { row })?;
    let count = reader.number(Place::Count { left })?;
    let count = count.unsigned_abs() as usize;
    let ends = numbers(alloc, reader, count, Place::Successor { row, last })?;
    lags_to(alloc, reader, row, &ends)
}

/// The network rows: all given arcs, in order.
fn network_rows(
    alloc: Global,
    reader: &mut Reader<'_>,
    activities: usize,
) -> Result<Vec<Lag>, SchFault>
    requires { activities + 2 ≤ MAX_ACTIVITIES }
    ensures { Reads (λ v. v.items) result reader.new
        (reading (network_rows (activities + 2) (activities + 1) MAX_LAGS 0) reader.old) }
{
    let mut lags = Vec::new(alloc);
    for row in 0..activities + 2 {
        let left = MAX_LAGS.saturating_sub(lags.len());
        let of_row = network_row(alloc, reader, activities + 1, left, row)?;
        lags.extend_from_slice(&of_row)?;
    }
    Ok(lags)
}

/// The place of a duration or a demand of an activity.
fn amount_place(last: usize, id: usize) -> Place
    requires last { last < MAX_ACTIVITIES }
    requires id { id ≤ last }
    ensures { result ≡ amount_place last id }
{
    if id == 0 || id == last {
        Place::Nothing { row: last + 1 + id }
    } else {
        Place::Amount
    }
}

/// A request row: the duration and the demands of an activity.
#[tactic(auto, using(crate::proofs::Readings::reading_bind), unfolding(crate::specs::Layout::request_row))]
fn request_row(
    alloc: Global,
    reader: &mut Reader<'_>,
    last: usize,
    resources: usize,
    id: usize,
) -> Result<(i64, Vec<i64>), SchFault>
    requires last { last < MAX_ACTIVITIES }
    requires id { id ≤ last }
    ensures { Reads (λ r. (r.0, r.1.items)) result reader.new
        (reading (request_row last resources id) reader.old) }
{
    let row = last + 1 + id;
    reader.number(Place::Id { row, id })?;
    reader.number(Place::Mode { row })?;
    let place = amount_place(last, id);
    let duration = reader.number(place)?;
    let demands = numbers(alloc, reader, resources, place)?;
    Ok((duration, demands))
}

/// The request rows: the durations and the demands of all activities. Room is made for all of them at
/// once: as many network rows, of three words or more, came before them.
fn request_rows(
    alloc: Global,
    reader: &mut Reader<'_>,
    activities: usize,
    resources: usize,
) -> Result<(Vec<i64>, Vec<Vec<i64>>), SchFault>
    requires { activities + 2 ≤ MAX_ACTIVITIES }
    ensures { Reads requests_of result reader.new
        (reading (request_rows (activities + 2) (activities + 1) resources 0) reader.old) }
{
    let mut durations = Vec::with_capacity(alloc, activities + 2)?;
    let mut demands = Vec::with_capacity(alloc, activities + 2)?;
    for id in 0..activities + 2 {
        let (duration, row) = request_row(alloc, reader, activities + 1, resources, id)?;
        durations.push(duration)?;
        demands.push(row)?;
    }
    Ok((durations, demands))
}

/// What the text of a project holds.
#[tactic(auto, using(crate::proofs::Readings::reading_bind), unfolding(crate::specs::Layout::project_text))]
fn project_text(alloc: Global, reader: &mut Reader<'_>) -> Result<Parts, SchFault>
    ensures { Reads problem_of result reader.new (reading project_text reader.old) }
{
    let (activities, resources) = header(reader)?;
    let lags = network_rows(alloc, reader, activities)?;
    let (durations, demands) = request_rows(alloc, reader, activities, resources)?;
    let capacities = numbers(alloc, reader, resources, Place::Amount)?;
    Ok(Parts {
        durations,
        demands,
        capacities,
        lags,
    })
}

/// The whole text, and nothing after it.
#[tactic(auto, unfolding(crate::specs::Reading::whole_reading))]
fn whole_text(alloc: Global, text: &[u8]) -> Result<Parts, SchFault>
    requires { length text.now ≤ MAX_TEXT_BYTES }
    ensures { Gives problem_of result (whole_reading (text_words text.now)) }
{
    let mut reader = Reader::new(text);
    let parts = project_text(alloc, &mut reader)?;
    let index = reader.index();
    if reader.word().is_some() {
        return Err(SchFault::Trailing { index });
    }
    Ok(parts)
}

/// The project that a text spells, or the first fault of a text that spells none.
///
/// A text of more than 16,777,216 bytes is [`SchFault::TooLong`]. Otherwise the fault is the first one in the order of
/// words. [`SchFault::Memory`] comes only if memory ran out. The
/// time is linear in the text, and what is kept besides the project is one row. It makes room for no more than the text
/// can hold: no allocation is larger than 12 bytes for each byte of the text.
pub fn read_sch(alloc: Global, text: &[u8]) -> Result<Project, SchFault>
    ensures found { IfOk result (λ p. IsProject p × Spells text.now p) }
    ensures only { (p : Problem) → IsProject p → Spells text.now p →
        MatchResult result (λ q. q ≡ p) (λ e. e ≡ SchFault.Memory) }
    ensures fault { IfErr result (λ e. e ≢ SchFault.Memory → IsFirstFault text.now e) }
    ensures too_long { (result ≡ Err SchFault.TooLong) ↔ (MAX_TEXT_BYTES < length text.now) }
    // A law of the layout: no text spells two projects.
    ensures unique { (p q : Problem) →
        IsProject p → IsProject q → Spells text.now p → Spells text.now q → p ≡ q }
{
    if text.len() > MAX_TEXT_BYTES {
        return Err(SchFault::TooLong);
    }
    let parts = whole_text(alloc, text)?;
    // The text spells these parts, so they are those of a project.
    let project = Project::new(parts).unwrap();
    Ok(project)
}
