//! The intervals of a tour as bytes.

ghost use Rattle.std.specs.Prelude.{◌≡◌, ◌≢◌, ◌≤◌, ◌<◌, ◌++◌, length, Some, None, IfOk, OnOk, OnErr, IfErr};
ghost use Rattle.std.specs.List.{flat_map};
ghost use Rattle.lemma_log.specs.declared.fault.DecodeFault.TheVariants.{Memory};
ghost use Rattle.lemma_log.specs.Text.{interval_text};
ghost use Rattle.lemma_log.specs.Reading.{interval_in, many_in};

use crate::fault::DecodeFault;
use crate::number::{number, put_number};
use crate::signed::{put_signed, signed};
use lemma_proof::{Interval, Intervals};
use std::alloc::{AllocError, Global};

/// Writes an interval.
fn put_interval(bytes: &mut Vec<u8>, interval: Interval) -> Result<(), AllocError>
    ensures { OnOk result (bytes.new.items ≡ bytes.old.items ++ interval_text interval) }
{
    put_number(bytes, interval.activity as u128)?;
    put_signed(bytes, interval.at as i128)?;
    put_number(bytes, interval.length as u128)
}

/// Writes intervals, without how many they are.
pub(crate) fn put_intervals(bytes: &mut Vec<u8>, intervals: &[Interval]) -> Result<(), AllocError>
    ensures { OnOk result (bytes.new.items ≡ bytes.old.items ++ flat_map interval_text intervals.now) }
{
    for interval in intervals {
        put_interval(bytes, *interval)?;
    }
    Ok(())
}

/// The interval that bytes begin with, and what follows it.
#[tactic(auto, unfolding(crate::specs::Reading::interval_in))]
fn interval(bytes: &[u8]) -> Result<(Interval, &[u8]), DecodeFault>
    ensures found { IfOk result (λ r. interval_in bytes.now ≡ Some (record { value = r.0; left = r.1.now })) }
    ensures shorter { IfOk result (λ r. length r.1.now < length bytes.now) }
    ensures fault { OnErr result (interval_in bytes.now ≡ None) }
{
    let (activity, rest) = number(bytes)?;
    let (at, rest) = signed(rest)?;
    let (length, rest) = number(rest)?;
    let interval = Interval {
        activity,
        at,
        length: length as u64,
    };
    Ok((interval, rest))
}

/// So many intervals that bytes begin with, and what follows them.
pub(crate) fn intervals(
    alloc: Global,
    count: usize,
    bytes: &[u8],
) -> Result<(Intervals, &[u8]), DecodeFault>
    ensures found { IfOk result (λ r. many_in interval_in count bytes.now ≡ Some (record { value = r.0; left = r.1.now })) }
    ensures shorter { IfOk result (λ r. length r.1.now ≤ length bytes.now) }
    ensures fault { IfErr result (λ fault. fault ≢ Memory → many_in interval_in count bytes.now ≡ None) }
{
    let mut found = Vec::new(alloc);
    let mut left = bytes;
    let mut due = count;
    while due > 0 {
        let (interval, rest) = interval(left)?;
        found.push(interval)?;
        left = rest;
        due -= 1;
    }
    Ok((Intervals::new(found), left))
}
