//! A run that verifies a record of either kind.

ghost use Rattle.std.specs.Prelude.{◌≡◌, ◌≢◌, ◌<◌, ◌+◌, ◌↔◌, Some, Err, IfOk, IfErr, IfSome, IfNone, IsTrue};
ghost use Rattle.network.specs.Problem.{IsProject};
ghost use Rattle.record_text.specs.declared.TheConstants.{MAX_RECORD_BYTES};
ghost use Rattle.devices.specs.declared.fault.Fault.TheVariants as faults;
ghost use Rattle.devices.specs.Faults.{exit_of, IsInputFault};
ghost use Rattle.devices.specs.Runs.{span, FailedWhere, GaveNoProject, GaveSome, GaveUpTo, IfKnown, IsUntouched, TookAll, TookFront};
ghost use Rattle.verify_run.specs.Verified.{HasReadRecord};
ghost use Rattle.verify_run.specs.Verified.{BeginsTree, IfBothKnown, IsNoProof, IsProof, IsRecordFault, IsRecordProof, IsTree, Proves};

use crate::log_proof::log_proof;
use crate::scope::Scope;
use crate::tree_proof::tree_proof;
use answers::Answer;
use devices::{Ended, Fault, Input, Output, read_on, read_project, write_answer};
use network::Project;
use std::alloc::Global;

/// The kinds of records: the tree of a search of psmax, or the lemmas of one of psprove.
#[derive(Clone, Copy, PartialEq, Eq, Debug)]
pub enum RecordKind {
    Tree,
    Lemmas,
}

/// How many bytes the title of a record has, with LF.
const TITLE: usize = 9;

/// Whether a record that begins so is one of a tree. Where the title is of neither kind, it is taken for one of the kind
/// at hand. One that may be cut off, or of which a part is checked, is one of lemmas.
fn begins_tree(scope: &Scope, own: RecordKind, head: &[u8]) -> bool
    ensures { IsTrue result ↔ BeginsTree scope.now own head.now }
{
    let Scope::Whole = scope else {
        return false;
    };
    match own {
        RecordKind::Tree => head != b"record 3\n".as_slice(),
        RecordKind::Lemmas => head == b"record 1\n".as_slice(),
    }
}

/// Reads a record, and says what it proves of a project.
fn record_proof<I: Input>(
    alloc: Global,
    scope: &Scope,
    own: RecordKind,
    project: &Project,
    input: &mut I,
) -> Result<Answer, Fault>
    requires input { I.failed input.old < u64.MAX }
    requires project { IsProject project.now }
    ensures said { IfOk result (λ a. (a.exit ≡ 0) × IfKnown (I.left input.old)
        (λ text. IsRecordProof scope.now own project.now text a.text.items)) }
    ensures refused { IfErr result (λ fault. exit_of fault ≢ 1 → IfKnown (I.left input.old)
        (λ text. IsRecordFault scope.now own project.now text fault)) }
    ensures fault { IfErr result IsInputFault }
    ensures failed { FailedWhere (result ≡ Err faults.ReadFailed) (span I.left I.failed input.old input.new) }
    ensures given { GaveSome (span I.left I.failed input.old input.new) }
    ensures within { IfKnown (I.left input.old) (λ text. IsTree scope.now own text
        → GaveUpTo (MAX_RECORD_BYTES + 1) (span I.left I.failed input.old input.new)) }
{
    let head = read_on(TITLE, Vec::new(alloc), input)?;
    if begins_tree(scope, own, &head) {
        tree_proof(alloc, project, head, input)
    } else {
        log_proof(alloc, scope, project, &head, input)
    }
}

/// What the inputs prove. The project is read and judged before the record is read.
fn proof<I: Input, S: Input>(
    alloc: Global,
    scope: &Scope,
    own: RecordKind,
    input: &mut I,
    second: &mut S,
) -> Result<Answer, Fault>
    requires input { I.failed input.old < u64.MAX }
    requires second { S.failed second.old < u64.MAX }
    ensures said { IfOk result (λ a. (a.exit ≡ 0) × IfBothKnown (I.left input.old) (S.left second.old)
        (λ text more. IsProof scope.now own text more a.text.items)) }
    ensures refused { IfErr result (IsNoProof scope.now own (I.left input.old) (S.left second.old)) }
    ensures fault { IfErr result IsInputFault }
    ensures read { HasReadRecord (result ≡ Err faults.ReadFailed)
        (span I.left I.failed input.old input.new) (span S.left S.failed second.old second.new) }
    ensures project_first { GaveNoProject (span S.left S.failed second.old second.new)
        → IsUntouched (span I.left I.failed input.old input.new) }
    ensures within { IfKnown (I.left input.old) (λ text. IsTree scope.now own text
        → GaveUpTo (MAX_RECORD_BYTES + 1) (span I.left I.failed input.old input.new)) }
{
    let project = read_project(alloc, second)?;
    record_proof(alloc, scope, own, &project, input)
}

/// Reads a project from the second input and then a record from the first. Writes what the record proves of the project
/// and nothing else: `proved optimal C`, `proved bound C` or `proved no schedule`, and LF. A record of lemmas that is cut
/// off is wrong, unless what it proves so far is asked for. Of part K of N the line begins with `part K/N of `: that is
/// proved if all parts are right. After a failure a device isn't called again.
pub fn run_verify<I: Input, S: Input, O: Output>(
    alloc: Global,
    scope: &Scope,
    own: RecordKind,
    input: &mut I,
    second: &mut S,
    out: &mut O,
) -> Ended
    requires input { I.failed input.old < u64.MAX }
    requires second { S.failed second.old < u64.MAX }
    requires out { O.failed out.old < u64.MAX }

    // No fault: what is proved was written whole.
    ensures proved { IfNone result.fault ((result.exit ≡ 0)
        × Proves scope.now own (I.left input.old) (S.left second.old) (TookAll (span O.held O.failed out.old out.new))) }

    // The output failed: it holds a beginning of what is proved.
    ensures cut_short { result.fault ≡ Some faults.WriteFailed
        → Proves scope.now own (I.left input.old) (S.left second.old) (TookFront (span O.held O.failed out.old out.new)) }

    // Any other fault: nothing is proved, and nothing was written.
    ensures refused { IfSome result.fault (IsNoProof scope.now own (I.left input.old) (S.left second.old)) }
    ensures silent { IfSome result.fault (λ fault. fault ≢ faults.WriteFailed → out.new ≡ out.old) }
    ensures status { IfSome result.fault (λ fault. result.exit ≡ exit_of fault) }

    // What was read, the project first, of a tree no more than it may have and a byte; and the failures of devices.
    ensures read { HasReadRecord (result.fault ≡ Some faults.ReadFailed)
        (span I.left I.failed input.old input.new) (span S.left S.failed second.old second.new) }
    ensures project_first { GaveNoProject (span S.left S.failed second.old second.new)
        → IsUntouched (span I.left I.failed input.old input.new) }
    ensures within { IfKnown (I.left input.old) (λ text. IsTree scope.now own text
        → GaveUpTo (MAX_RECORD_BYTES + 1) (span I.left I.failed input.old input.new)) }
    ensures failed { FailedWhere (result.fault ≡ Some faults.WriteFailed) (span O.held O.failed out.old out.new) }
{
    match proof(alloc, scope, own, input, second) {
        Ok(answer) => write_answer(out, &answer),
        Err(fault) => Ended::with(fault),
    }
}
