//! The members of a set as bytes.

ghost use Rattle.std.specs.Prelude.{◌≡◌, ◌≢◌, ◌≤◌, ◌++◌, length, Some, None, IfOk, OnOk, IfErr};
ghost use Rattle.std.specs.List.{flat_map};
ghost use Rattle.lemma_log.specs.declared.fault.DecodeFault.TheVariants.{Memory};
ghost use Rattle.lemma_log.specs.Numbers.{number_text};
ghost use Rattle.lemma_log.specs.Reading.{members_in};

use crate::fault::DecodeFault;
use crate::number::{number, put_number};
use record_text::Members;
use std::alloc::{AllocError, Global};

/// Writes members, without how many they are.
pub(crate) fn put_members(bytes: &mut Vec<u8>, members: &[usize]) -> Result<(), AllocError>
    ensures { OnOk result (bytes.new.items ≡ bytes.old.items ++ flat_map number_text members.now) }
{
    for member in members {
        put_number(bytes, *member as u128)?;
    }
    Ok(())
}

/// So many members that bytes begin with, and what follows them.
pub(crate) fn members(
    alloc: Global,
    count: usize,
    bytes: &[u8],
) -> Result<(Members, &[u8]), DecodeFault>
    ensures found { IfOk result (λ r. members_in count bytes.now ≡ Some (record { value = r.0; left = r.1.now })) }
    ensures shorter { IfOk result (λ r. length r.1.now ≤ length bytes.now) }
    ensures fault { IfErr result (λ fault. fault ≢ Memory → members_in count bytes.now ≡ None) }
{
    let mut found = Vec::new(alloc);
    let mut left = bytes;
    let mut due = count;
    while due > 0 {
        let (member, rest) = number(left)?;
        found.push(member)?;
        left = rest;
        due -= 1;
    }
    Ok((Members::new(found), left))
}
