//! What a record of a tree proves.

ghost use Rattle.std.specs.Prelude.{◌≡◌, ◌≢◌, ◌<◌, ◌≤◌, ◌+◌, ◌-◌, ◌++◌, Err, length, IfOk, IfErr};
ghost use Rattle.record_text.specs.Text.{search_kind};
ghost use Rattle.record_text.specs.FirstWrong.{IsFirstFaultBy};
ghost use Rattle.search_record.specs.Right.{search_judge};
ghost use Rattle.devices.specs.declared.fault.Fault.{Fault};
ghost use Rattle.devices.specs.declared.fault.Fault.TheVariants as faults;
ghost use Rattle.verify_run.specs.Verified.{IsProvedText};
ghost use Rattle.devices.specs.Faults.{exit_of, IsInputFault, IsTextFault};
ghost use Rattle.devices.specs.Runs.{span, FailedWhere, GaveUpTo, IfKnown};
ghost use Rattle.verify_run.specs.Verified.{GivesTree, IsTreeFault, IsTreeProof, Tells};

use answers::{Answer, proved_text};
use devices::{Fault, Input, read_on};
use network::Project;
use record_text::MAX_RECORD_BYTES;
use search_record::{Record, verify};
use std::alloc::Global;

/// What a record proves of a project.
fn proof_of(alloc: Global, project: &Project, shown: &Record) -> Result<Answer, Fault>
    ensures said { IfOk result
        (λ a. (a.exit ≡ 0) × IsProvedText search_kind search_judge project.now shown.now a.text.items) }
    ensures refused { IfErr result (λ fault. exit_of fault ≢ 1 → Tells (IsFirstFaultBy search_judge project.now shown.now) fault) }
    ensures fault { IfErr result IsTextFault }
{
    let proved = verify(alloc, project, shown)?;
    let text = proved_text(alloc, proved)?;
    Ok(Answer::of(text, 0))
}

/// What the record in a text proves of a project. Otherwise the first fault of the text, or of the record.
fn verified(alloc: Global, project: &Project, text: &[u8]) -> Result<Answer, Fault>
    ensures said { IfOk result (λ a. (a.exit ≡ 0) × IsTreeProof project.now text.now a.text.items) }
    ensures refused { IfErr result (λ fault. exit_of fault ≢ 1 → IsTreeFault project.now text.now fault) }
    ensures fault { IfErr result IsTextFault }
{
    let shown = Record::read(alloc, text)?;
    proof_of(alloc, project, &shown)
}

/// Reads a record of a tree on to its end, and says what it proves of a project.
pub(crate) fn tree_proof<I: Input>(
    alloc: Global,
    project: &Project,
    head: Vec<u8>,
    input: &mut I,
) -> Result<Answer, Fault>
    requires head { length head.items ≤ MAX_RECORD_BYTES + 1 }
    requires input { I.failed input.old < u64.MAX }
    ensures said { IfOk result (λ a. (a.exit ≡ 0) × IfKnown (I.left input.old)
        (λ rest. IsTreeProof project.now (head.items ++ rest) a.text.items)) }
    ensures refused { IfErr result (λ fault. exit_of fault ≢ 1 → IfKnown (I.left input.old)
        (λ rest. IsTreeFault project.now (head.items ++ rest) fault)) }
    ensures fault { IfErr result IsInputFault }
    ensures failed { FailedWhere (result ≡ Err faults.ReadFailed) (span I.left I.failed input.old input.new) }
    ensures within { GaveUpTo (MAX_RECORD_BYTES + 1 - length head.items) (span I.left I.failed input.old input.new) }
{
    let text = read_on(MAX_RECORD_BYTES + 1, head, input)?;
    verified(alloc, project, &text)
}
