//! What the contracts of the programs say, in the words of the promise.

ghost use Rattle.promise.specs.Kept.{PsmaxKeeps, PsproveKeeps, VerifyKeeps};

/// The theorem of `psmax solve`: its answer in plain lines is true.
pub fn psmax_law()
    ensures { PsmaxKeeps }
{}

/// The theorem of `psprove solve`: its answer in plain lines is true.
pub fn psprove_law()
    ensures { PsproveKeeps }
{}

/// The theorem of `verify`: the line that it prints is true, but of a record of which a part was checked.
pub fn verify_law()
    ensures { VerifyKeeps }
{}
