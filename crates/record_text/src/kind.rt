//! A kind of record: what its claims and lines are, and how they are read and written.

ghost use Rattle.std.specs.Prelude.{◌≡◌, ◌≢◌, ◌<◌, ◌≤◌, ◌+◌, ◌*◌, ◌∷◌, ◌++◌, length, IfOk, OnOk, IfErr, string_bytes};
ghost use Rattle.std.specs.List.{flat_map};
ghost use Rattle.record_text.specs.Kinds.{Kind, Rules, Facts, ended, first_line};
ghost use Rattle.record_text.specs.Rows.{line_pieces};
ghost use Rattle.record_text.specs.TextFaults.{HasFault};
ghost use Rattle.record_text.specs.declared.fault.RecordFaultKind.TheVariants.{Memory};

use crate::MAX_RECORD_BYTES;
use crate::fault::RecordFault;
use network::Verdict;
use std::alloc::{AllocError, Global};

/// A line of a kind of record, whose claims are these.
pub trait RecordLine<C>: Drop {
    /// The texts of the kind.
    ghost kind: { Kind C Self };

    /// How the rows of lines are read.
    ghost rules: { Rules kind.row_of };

    /// The first row of a text.
    fn title() -> &'static str
        ensures { result.now ≡ kind.title };

    /// The claim of a record, from its second row on, and what follows it.
    fn read_claim(alloc: Global, text: &[u8]) -> Result<(C, &[u8]), RecordFault>
        ensures claim { IfOk result
            (λ r. (line_pieces text.now ≡ kind.claim_rows r.0 ++ line_pieces r.1.now) × kind.IsClaim r.0) }
        ensures shorter { IfOk result (λ r. length r.1.now ≤ length text.now) }
        ensures fault { IfErr result (λ fault. fault.kind ≢ Memory → HasFault kind (kind.title ∷ line_pieces text.now) fault) };

    /// What a claim says, apart from the starts.
    fn says(claim: &C) -> Verdict
        ensures { result ≡ kind.says claim.now };

    /// The number of the first row of the lines.
    fn first_line(claim: &C) -> usize
        ensures is { result ≡ first_line kind claim.now }
        ensures few { result ≤ 4 };

    /// The line that a row is where so much is due.
    fn of_row(alloc: Global, row: &[u8], due: usize) -> Result<Option<Self>, AllocError>
        ensures { IfOk result (λ found. found ≡ rules.read due row.now) };

    /// How much must still come after the line, where so much had to before it.
    fn still_due(&self, due: usize) -> usize
        requires due { 0 < due }
        requires room { due ≤ MAX_RECORD_BYTES * MAX_RECORD_BYTES + 1 }
        requires row { length (kind.row_of self.now) ≤ MAX_RECORD_BYTES }
        ensures { result ≡ rules.next due self.now };

    /// Writes the rows of a claim.
    fn put_claim(out: &mut String, claim: &C) -> Result<(), AllocError>
        ensures { OnOk result (string_bytes out.new ≡ string_bytes out.old ++ flat_map ended (kind.claim_rows claim.now)) };

    /// Writes the line without an LF.
    fn put(&self, out: &mut String) -> Result<(), AllocError>
        ensures { OnOk result (string_bytes out.new ≡ string_bytes out.old ++ kind.row_of self.now) };

    /// What is proved of the kind.
    fn known()
        ensures { Facts kind rules };
}
