//! A trail, as words: what became of each node, by their names.

use crate::replies::list_text;
use branching::Fate;
use search_log::{NodeEnding, NodeEntry, Origin, SearchLog};
use std::alloc::{AllocError, Global};

/// Where a node came from.
fn origin_text(alloc: Global, origin: Option<Origin>) -> Result<String, AllocError> {
    match origin {
        Some(Origin { parent, pair }) => {
            format!(in alloc; "{parent} {}-{}", pair.before, pair.after)
        }
        None => String::from_str(alloc, "root"),
    }
}

/// What became of a pair of a split set.
fn fate_text(alloc: Global, fate: &Fate<u64>) -> Result<String, AllocError> {
    let (word, forced) = match fate {
        Fate::Child(name) => return format!(in alloc; " opened {name}"),
        Fate::Infeasible { forced } => ("dead", forced),
        Fate::Cut { forced } => ("cut", forced),
    };
    let forced = list_text(alloc, forced)?;
    format!(in alloc; " {word}{forced}")
}

/// How a node ended: of a split node the resource, the members and the fates of their pairs.
fn ending_text(alloc: Global, ending: &NodeEnding) -> Result<String, AllocError> {
    let (resource, members, fates) = match ending {
        NodeEnding::Open => return String::from_str(alloc, "open"),
        NodeEnding::Cut => return String::from_str(alloc, "cut"),
        NodeEnding::Solved => return String::from_str(alloc, "solved"),
        NodeEnding::Split {
            resource,
            members,
            fates,
        } => (resource, members, fates),
    };
    let mut text = format!(in alloc; "split {resource} {members:?}")?;
    for fate in fates {
        text.push_str(&fate_text(alloc, fate)?)?;
    }
    Ok(text)
}

/// One node: where it came from, its forced pairs, and how it ended.
fn entry_text(alloc: Global, entry: &NodeEntry) -> Result<String, AllocError> {
    let origin = origin_text(alloc, entry.origin)?;
    let forced = list_text(alloc, &entry.forced)?;
    let ending = ending_text(alloc, &entry.ending)?;
    format!(in alloc; ", {origin}{forced} {ending}")
}

/// How many activities the project of a trail has, and its nodes.
pub fn trail_text(alloc: Global, trail: Option<&SearchLog>) -> Result<String, AllocError> {
    let Some(trail) = trail else {
        return String::from_str(alloc, "no trail");
    };
    let count = trail.project().activity_count();
    let mut text = format!(in alloc; "{count} activities")?;
    for entry in trail.entries() {
        text.push_str(&entry_text(alloc, entry)?)?;
    }
    Ok(text)
}
