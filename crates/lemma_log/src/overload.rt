//! Overloads as bytes.

ghost use Rattle.std.specs.Prelude.{◌≡◌, ◌≢◌, ◌<◌, ◌++◌, ◌+ℤ◌, ◌-ℤ◌, length, Some, None, IfOk, OnOk, OnErr, IfErr};
ghost use Rattle.lemma_log.specs.declared.fault.DecodeFault.TheVariants.{Memory};
ghost use Rattle.lemma_log.specs.Text.{window_text, load_text, clique_kind, flag, overload_text};
ghost use Rattle.lemma_log.specs.Reading.{IsAddend, load_in, short_load_in, clique_in, flagged_tour_in, overload_of};

use crate::fault::DecodeFault;
use crate::intervals::{intervals, put_intervals};
use crate::members::{members, put_members};
use crate::number::{number, put_number};
use crate::signed::{put_signed, signed};
use lemma_proof::WindowOverload;
use std::alloc::{AllocError, Global};

/// Writes where a window is that is so long.
fn put_window(bytes: &mut Vec<u8>, from: i64, size: i128) -> Result<(), AllocError>
    ensures { OnOk result (bytes.new.items ≡ bytes.old.items ++ window_text from size) }
{
    put_signed(bytes, from as i128)?;
    put_signed(bytes, size)
}

/// Writes a load, one that shows an arc or not, in a window that is so long.
fn put_load(
    bytes: &mut Vec<u8>,
    shows: bool,
    resource: usize,
    from: i64,
    size: i128,
) -> Result<(), AllocError>
    ensures { OnOk result (bytes.new.items ≡ bytes.old.items ++ load_text shows resource from size) }
{
    if !shows {
        put_number(bytes, 8 * resource as u128 + 2)?;
        return put_window(bytes, from, size);
    }
    if size == 1 {
        put_number(bytes, 8 * resource as u128 + 3)?;
        return put_signed(bytes, from as i128);
    }
    put_number(bytes, 8 * resource as u128 + 4)?;
    put_window(bytes, from, size)
}

/// The kind of the line of a clique.
fn clique_kind(shows: bool) -> u128
    ensures kind { result ≡ clique_kind shows }
    ensures small { result < 8 }
{
    if shows { 6 } else { 5 }
}

/// What says whether a tour shows an arc.
fn flag(shows: bool) -> u128
    ensures { result ≡ flag shows }
{
    if shows { 1 } else { 0 }
}

/// Writes an overload, one that shows an arc or not.
pub(crate) fn put_overload(
    bytes: &mut Vec<u8>,
    shows: bool,
    over: &WindowOverload,
) -> Result<(), AllocError>
    ensures { OnOk result (bytes.new.items ≡ bytes.old.items ++ overload_text shows over.now) }
{
    match over {
        WindowOverload::Load { resource, from, to } => {
            let size = *to as i128 - *from as i128;
            put_load(bytes, shows, *resource, *from, size)
        }
        WindowOverload::Clique { from, to, members } => {
            let members = members.as_slice();
            let size = *to as i128 - *from as i128;
            put_number(bytes, 8 * members.len() as u128 + clique_kind(shows))?;
            put_window(bytes, *from, size)?;
            put_members(bytes, members)
        }
        WindowOverload::Tour {
            from,
            to,
            intervals,
        } => {
            let intervals = intervals.as_slice();
            let size = *to as i128 - *from as i128;
            put_number(bytes, 8 * intervals.len() as u128 + 7)?;
            put_window(bytes, *from, size)?;
            put_number(bytes, flag(shows))?;
            put_intervals(bytes, intervals)
        }
    }
}

/// The end of a window that is so long.
fn end_of(from: i64, size: i64) -> i64
    requires from { IsAddend from }
    requires size { IsAddend size }
    ensures { result ≡ from +ℤ size }
{
    from + size
}

/// The load whose window bytes begin with, and what follows it.
fn load(resource: usize, bytes: &[u8]) -> Result<(WindowOverload, &[u8]), DecodeFault>
    ensures found { IfOk result (λ r. load_in resource bytes.now ≡ Some (record { value = r.0; left = r.1.now })) }
    ensures shorter { IfOk result (λ r. length r.1.now < length bytes.now) }
    ensures fault { OnErr result (load_in resource bytes.now ≡ None) }
{
    let (from, rest) = signed(bytes)?;
    let (size, rest) = signed(rest)?;
    let over = WindowOverload::Load {
        resource,
        from,
        to: end_of(from, size),
    };
    Ok((over, rest))
}

/// The load in a period that bytes begin with, and what follows it.
fn short_load(resource: usize, bytes: &[u8]) -> Result<(WindowOverload, &[u8]), DecodeFault>
    ensures found { IfOk result (λ r. short_load_in resource bytes.now ≡ Some (record { value = r.0; left = r.1.now })) }
    ensures shorter { IfOk result (λ r. length r.1.now < length bytes.now) }
    ensures fault { OnErr result (short_load_in resource bytes.now ≡ None) }
{
    let (from, rest) = signed(bytes)?;
    let over = WindowOverload::Load {
        resource,
        from,
        to: end_of(from, 1),
    };
    Ok((over, rest))
}

/// The clique of so many members whose window and members bytes begin with, and what follows it.
fn clique(alloc: Global, count: usize, bytes: &[u8]) -> Result<(WindowOverload, &[u8]), DecodeFault>
    ensures found { IfOk result (λ r. clique_in count bytes.now ≡ Some (record { value = r.0; left = r.1.now })) }
    ensures shorter { IfOk result (λ r. length r.1.now < length bytes.now) }
    ensures fault { IfErr result (λ fault. fault ≢ Memory → clique_in count bytes.now ≡ None) }
{
    let (from, rest) = signed(bytes)?;
    let (size, rest) = signed(rest)?;
    let (members, rest) = members(alloc, count, rest)?;
    let over = WindowOverload::Clique {
        from,
        to: end_of(from, size),
        members,
    };
    Ok((over, rest))
}

/// The tour of so many intervals whose window, flag and intervals bytes begin with, after the flag, and what follows it.
pub(crate) fn flagged_tour(
    alloc: Global,
    count: usize,
    bytes: &[u8],
) -> Result<(usize, WindowOverload, &[u8]), DecodeFault>
    ensures found { IfOk result (λ r. flagged_tour_in count bytes.now ≡ Some (record { value = record { flag = r.0; tour = r.1 }; left = r.2.now })) }
    ensures shorter { IfOk result (λ r. length r.2.now < length bytes.now) }
    ensures fault { IfErr result (λ fault. fault ≢ Memory → flagged_tour_in count bytes.now ≡ None) }
{
    let (from, rest) = signed(bytes)?;
    let (size, rest) = signed(rest)?;
    let (flag, rest) = number(rest)?;
    let (intervals, rest) = intervals(alloc, count, rest)?;
    let tour = WindowOverload::Tour {
        from,
        to: end_of(from, size),
        intervals,
    };
    Ok((flag, tour, rest))
}

/// The overload of a kind of line, and of the number that has it, and what follows it.
pub(crate) fn overload_of(
    alloc: Global,
    kind: usize,
    at: usize,
    bytes: &[u8],
) -> Result<(WindowOverload, &[u8]), DecodeFault>
    ensures found { IfOk result (λ r. overload_of kind at bytes.now ≡ Some (record { value = r.0; left = r.1.now })) }
    ensures shorter { IfOk result (λ r. length r.1.now < length bytes.now) }
    ensures fault { IfErr result (λ fault. fault ≢ Memory → overload_of kind at bytes.now ≡ None) }
{
    match kind {
        2 => load(at, bytes),
        3 => short_load(at, bytes),
        4 => load(at, bytes),
        5 => clique(alloc, at, bytes),
        6 => clique(alloc, at, bytes),
        _ => Err(DecodeFault::Form),
    }
}
