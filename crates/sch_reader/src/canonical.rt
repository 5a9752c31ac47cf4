//! Writes a project as its canonical text.

ghost use Rattle.std.specs.Prelude.{◌≡◌, ◌++◌, ◌==◌, map, string_bytes, OnOk, IfOk, IfErr, MatchResult};
ghost use Rattle.std.specs.List.{flat_map, prefix_len};
ghost use Rattle.std.specs.Fmt.{decimal, signed_decimal};
ghost use Rattle.network.specs.Problem.{Problem, activities, IsProject};
ghost use Rattle.sch_reader.specs.declared.fault.SchFault.{SchFault};
ghost use Rattle.sch_reader.specs.Text.{Spells, line, tabbed, bracketed, header_row, arcs_row, network_row, amounts_row, request_row, capacity_rows, canonical_text};

use crate::fault::SchFault;
use crate::text::read_sch;
use network::{Lag, Project};
use std::alloc::{AllocError, Global};

/// The header's line.
fn put_header(out: &mut String, project: &Project) -> Result<(), AllocError>
    ensures { OnOk result (string_bytes out.new
        ≡ string_bytes out.old ++ line (header_row project.now)) }
{
    let activities = project.activity_count() - 2;
    let resources = project.resource_count();
    writeln!(out, "{activities}\t{resources}\t0\t0")
}

/// The ends of arcs, each with a tab before it.
fn put_ends(out: &mut String, lags: &[Lag]) -> Result<(), AllocError>
    ensures { OnOk result (string_bytes out.new
        ≡ string_bytes out.old ++ flat_map tabbed (map (λ a. decimal a.to) lags.now)) }
{
    for lag in lags {
        let to = lag.to;
        write!(out, "\t{to}")?;
    }
    Ok(())
}

/// The lags of arcs in brackets, each with a tab before it.
fn put_lags(out: &mut String, lags: &[Lag]) -> Result<(), AllocError>
    ensures { OnOk result (string_bytes out.new
        ≡ string_bytes out.old ++ flat_map tabbed (map (λ a. bracketed a.weight) lags.now)) }
{
    for lag in lags {
        let weight = lag.weight;
        write!(out, "\t[{weight}]")?;
    }
    Ok(())
}

/// Numbers, each with a tab before it.
fn put_numbers(out: &mut String, numbers: &[i64]) -> Result<(), AllocError>
    ensures { OnOk result (string_bytes out.new
        ≡ string_bytes out.old ++ flat_map tabbed (map signed_decimal numbers.now)) }
{
    for number in numbers {
        write!(out, "\t{number}")?;
    }
    Ok(())
}

/// The line of an activity and the arcs from it.
fn put_arcs_row(out: &mut String, activity: usize, lags: &[Lag]) -> Result<(), AllocError>
    ensures { OnOk result (string_bytes out.new
        ≡ string_bytes out.old ++ line (arcs_row activity lags.now)) }
{
    let count = lags.len();
    write!(out, "{activity}\t1\t{count}")?;
    put_ends(out, lags)?;
    put_lags(out, lags)?;
    out.push_str("\n")?;
    Ok(())
}

/// How many arcs at the front lead from an activity.
fn count_from(lags: &[Lag], activity: usize) -> usize
    ensures { result ≡ prefix_len (λ a. a.from == activity) lags.now }
{
    lags.iter().take_while(|lag| lag.from == activity).count()
}

/// The lines of all activities and the arcs from them, which lie by activity.
fn put_network_rows(out: &mut String, project: &Project) -> Result<(), AllocError>
    ensures { OnOk result (string_bytes out.new
        ≡ string_bytes out.old ++ flat_map line (map (network_row project.now) (activities project.now))) }
{
    let mut rest = project.lags();
    for activity in 0..project.activity_count() {
        let count = count_from(rest, activity);
        let (own, later) = rest.split_at(count);
        put_arcs_row(out, activity, own)?;
        rest = later;
    }
    Ok(())
}

/// The line of an activity, its duration and its demands.
fn put_amounts_row(
    out: &mut String,
    activity: usize,
    duration: i64,
    demands: &[i64],
) -> Result<(), AllocError>
    ensures { OnOk result (string_bytes out.new
        ≡ string_bytes out.old ++ line (amounts_row activity duration demands.now)) }
{
    write!(out, "{activity}\t1\t{duration}")?;
    put_numbers(out, demands)?;
    out.push_str("\n")?;
    Ok(())
}

/// The lines of all activities, their durations and their demands.
fn put_request_rows(out: &mut String, project: &Project) -> Result<(), AllocError>
    ensures { OnOk result (string_bytes out.new
        ≡ string_bytes out.old ++ flat_map line (map (request_row project.now) (activities project.now))) }
{
    for activity in 0..project.activity_count() {
        let duration = project.duration(activity);
        put_amounts_row(out, activity, duration, project.demands(activity))?;
    }
    Ok(())
}

/// The line of the capacities, where there are any.
fn put_capacities(out: &mut String, capacities: &[i64]) -> Result<(), AllocError>
    ensures { OnOk result (string_bytes out.new
        ≡ string_bytes out.old ++ flat_map line (capacity_rows capacities.now)) }
{
    let [first, others @ ..] = capacities else {
        return Ok(());
    };
    write!(out, "{first}")?;
    put_numbers(out, others)?;
    out.push_str("\n")?;
    Ok(())
}

/// The canonical text, as a `String`.
fn canonical_string(alloc: Global, project: &Project) -> Result<String, AllocError>
    ensures text { IfOk result (λ text. string_bytes text ≡ canonical_text project.now) }
    ensures limits { OnOk result (IsProject project.now) }
{
    let mut out = String::new(alloc);
    put_header(&mut out, project)?;
    put_network_rows(&mut out, project)?;
    put_request_rows(&mut out, project)?;
    put_capacities(&mut out, project.capacities())?;
    Ok(out)
}

/// The canonical text of a project. Each row is one line, ended by LF, with one tab between words. Numbers have no
/// leading zeros, and lags stand in brackets. Without resources there is no line of capacities.
///
/// [`SchFault::Memory`] is the only fault. The time is linear in the text, which has less than 3 MB.
pub fn write_sch(alloc: Global, project: &Project) -> Result<Vec<u8>, SchFault>
    ensures text { IfOk result (λ text. text.items ≡ canonical_text project.now) }
    ensures limits { OnOk result (IsProject project.now) }
    ensures memory { IfErr result (λ e. e ≡ SchFault.Memory) }
    // A law of the text: what is written of a project spells it.
    ensures spells { (p : Problem) → IsProject p → Spells (canonical_text p) p }
{
    let text = canonical_string(alloc, project)?;
    Ok(text.into_bytes())
}

/// What is written of a project is read as that project, wherever there is memory for it.
pub fn read_written(alloc: Global, project: &Project) -> Result<Project, SchFault>
    ensures { MatchResult result (λ q. q ≡ project.now) (λ e. e ≡ SchFault.Memory) }
{
    let text = write_sch(alloc, project)?;
    read_sch(alloc, &text)
}
