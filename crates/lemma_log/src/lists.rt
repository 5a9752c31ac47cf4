//! The arcs of a lemma and the starts of a schedule as bytes.

ghost use Rattle.std.specs.Prelude.{◌≡◌, ◌≢◌, ◌≤◌, ◌++◌, length, Some, None, IfOk, OnOk, IfErr};
ghost use Rattle.std.specs.List.{flat_map};
ghost use Rattle.lemma_log.specs.declared.fault.DecodeFault.TheVariants.{Memory};
ghost use Rattle.lemma_log.specs.Numbers.{signed_text};
ghost use Rattle.lemma_log.specs.Text.{arc_text};
ghost use Rattle.lemma_log.specs.Reading.{many_in, arc_in, signed_in};

use crate::arc::{arc, put_arc};
use crate::fault::DecodeFault;
use crate::signed::{put_signed, signed};
use lemma_proof::Lags;
use network::Lag;
use record_text::Starts;
use std::alloc::{AllocError, Global};

/// Writes arcs, without how many they are.
pub(crate) fn put_arcs(bytes: &mut Vec<u8>, arcs: &[Lag]) -> Result<(), AllocError>
    ensures { OnOk result (bytes.new.items ≡ bytes.old.items ++ flat_map arc_text arcs.now) }
{
    for arc in arcs {
        put_arc(bytes, *arc)?;
    }
    Ok(())
}

/// Writes starts, without how many they are.
pub(crate) fn put_starts(bytes: &mut Vec<u8>, starts: &[i64]) -> Result<(), AllocError>
    ensures { OnOk result (bytes.new.items ≡ bytes.old.items ++ flat_map signed_text starts.now) }
{
    for start in starts {
        put_signed(bytes, *start as i128)?;
    }
    Ok(())
}

/// So many arcs that bytes begin with, and what follows them.
pub(crate) fn arcs(alloc: Global, count: usize, bytes: &[u8]) -> Result<(Lags, &[u8]), DecodeFault>
    ensures found { IfOk result (λ r. many_in arc_in count bytes.now ≡ Some (record { value = r.0; left = r.1.now })) }
    ensures fault { IfErr result (λ fault. fault ≢ Memory → many_in arc_in count bytes.now ≡ None) }
{
    let mut found = Vec::new(alloc);
    let mut left = bytes;
    let mut due = count;
    while due > 0 {
        let (arc, rest) = arc(left)?;
        found.push(arc)?;
        left = rest;
        due -= 1;
    }
    found.shrink_to_fit();
    Ok((Lags::new(found), left))
}

/// So many starts that bytes begin with, and what follows them.
pub(crate) fn starts(
    alloc: Global,
    count: usize,
    bytes: &[u8],
) -> Result<(Starts, &[u8]), DecodeFault>
    ensures found { IfOk result (λ r. many_in signed_in count bytes.now ≡ Some (record { value = r.0; left = r.1.now })) }
    ensures fault { IfErr result (λ fault. fault ≢ Memory → many_in signed_in count bytes.now ≡ None) }
{
    let mut found = Vec::new(alloc);
    let mut left = bytes;
    let mut due = count;
    while due > 0 {
        let (start, rest) = signed(left)?;
        found.push(start)?;
        left = rest;
        due -= 1;
    }
    Ok((Starts::new(found), left))
}
