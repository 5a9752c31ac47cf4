//! What is read of inputs: a whole text, and the project that it spells.

ghost use Rattle.std.specs.Prelude.{◌≡◌, ◌≢◌, ◌<◌, ◌≤◌, ◌+◌, ◌-◌, Err, length, take, IfOk, IfErr, ◌⊎◌};
ghost use Rattle.network.specs.Problem.{IsProject};
ghost use Rattle.record_text.specs.declared.TheConstants.{MAX_RECORD_BYTES};
ghost use Rattle.sch_reader.specs.Text.{Spells};
ghost use Rattle.devices.specs.declared.fault.Fault.{Fault};
ghost use Rattle.devices.specs.declared.fault.Fault.TheVariants as faults;
ghost use Rattle.devices.specs.Faults.{exit_of, IsInputFault, IsTextFault};
ghost use Rattle.devices.specs.Runs.{span, FailedWhere, GaveUpTo, IfKnown, IsUntouched, GaveNoProject, HasReadTexts, ReadsOn};
ghost use Rattle.devices.specs.Texts.{HasFault};

use crate::device::Input;
use crate::fault::Fault;
use network::Project;
use sch_reader::read_sch;
use std::alloc::Global;
use words::MAX_TEXT_BYTES;

/// How many bytes are read at once, at most.
const CHUNK: usize = 16_384;

/// Reads on until a text has so many bytes, or the input ends.
///
/// std's `read_to_end` under a `take` does not say how far the reader itself was read. Nor does it say whether it
/// failed or memory ran out.
pub fn read_on<I: Input>(most: usize, mut text: Vec<u8>, input: &mut I) -> Result<Vec<u8>, Fault>
    requires most { most ≤ MAX_RECORD_BYTES + 1 }
    requires text { length text.items ≤ most }
    requires input { I.failed input.old < u64.MAX }
    ensures more { IfOk result (λ more. ReadsOn most text.items (I.left input.old) more.items (I.left input.new)) }
    ensures faults { IfErr result (λ fault. (fault ≡ faults.ReadFailed) ⊎ (fault ≡ faults.Memory)) }
    ensures failed { FailedWhere (result ≡ Err faults.ReadFailed) (span I.left I.failed input.old input.new) }
    ensures within { GaveUpTo (most - length text.items) (span I.left I.failed input.old input.new) }
{
    let mut buffer = [0u8; CHUNK];
    while text.len() < most {
        let room = (most - text.len()).min(CHUNK);
        let Ok(n) = input.pull(&mut buffer[..room]) else {
            return Err(Fault::ReadFailed);
        };
        if n == 0 {
            break;
        }
        text.extend_from_slice(&buffer[..n])?;
    }
    Ok(text)
}

/// Reads a whole text of at most 16,777,216 bytes. Of a longer one it reads one byte beyond that.
pub fn read_text<I: Input>(alloc: Global, input: &mut I) -> Result<Vec<u8>, Fault>
    requires { I.failed input.old < u64.MAX }
    ensures told { IfOk result (λ text. IfKnown (I.left input.old) (λ bytes. text.items ≡ take (MAX_TEXT_BYTES + 1) bytes)) }
    ensures faults { IfErr result (λ fault. (fault ≡ faults.ReadFailed) ⊎ (fault ≡ faults.Memory)) }
    ensures failed { FailedWhere (result ≡ Err faults.ReadFailed) (span I.left I.failed input.old input.new) }
    ensures within { GaveUpTo (MAX_TEXT_BYTES + 1) (span I.left I.failed input.old input.new) }
{
    read_on(MAX_TEXT_BYTES + 1, Vec::new(alloc), input)
}

/// The project that a text spells.
fn project_of(alloc: Global, text: &[u8]) -> Result<Project, Fault>
    ensures project { IfOk result (λ p. IsProject p × Spells text.now p) }
    ensures refused { IfErr result (λ fault. fault ≢ faults.Memory → HasFault text.now fault) }
    ensures fault { IfErr result IsTextFault }
{
    Ok(read_sch(alloc, text)?)
}

/// Reads a project.
pub fn read_project<I: Input>(alloc: Global, input: &mut I) -> Result<Project, Fault>
    requires { I.failed input.old < u64.MAX }
    ensures project { IfOk result (λ p. IsProject p × IfKnown (I.left input.old) (λ bytes. Spells bytes p)) }
    ensures refused { IfErr result
        (λ fault. exit_of fault ≢ 1 → IfKnown (I.left input.old) (λ bytes. HasFault bytes fault)) }
    ensures fault { IfErr result IsInputFault }
    ensures failed { FailedWhere (result ≡ Err faults.ReadFailed) (span I.left I.failed input.old input.new) }
    ensures within { GaveUpTo (MAX_TEXT_BYTES + 1) (span I.left I.failed input.old input.new) }
{
    let text = read_text(alloc, input)?;
    project_of(alloc, &text)
}

/// Reads a project from the second input, and then a text from the first.
pub fn read_both<I: Input, S: Input>(
    alloc: Global,
    input: &mut I,
    second: &mut S,
) -> Result<(Project, Vec<u8>), Fault>
    requires input { I.failed input.old < u64.MAX }
    requires second { S.failed second.old < u64.MAX }
    ensures project { IfOk result (λ r. IsProject r.0 × IfKnown (S.left second.old) (λ bytes. Spells bytes r.0)) }
    ensures told { IfOk result (λ r. IfKnown (I.left input.old) (λ bytes. r.1.items ≡ take (MAX_TEXT_BYTES + 1) bytes)) }
    ensures refused { IfErr result
        (λ fault. exit_of fault ≢ 1 → IfKnown (S.left second.old) (λ bytes. HasFault bytes fault)) }
    ensures fault { IfErr result IsInputFault }
    ensures read { HasReadTexts (result ≡ Err faults.ReadFailed)
        (span I.left I.failed input.old input.new) (span S.left S.failed second.old second.new) }
    ensures project_first { GaveNoProject (span S.left S.failed second.old second.new)
        → IsUntouched (span I.left I.failed input.old input.new) }
{
    let project = read_project(alloc, second)?;
    let text = read_text(alloc, input)?;
    Ok((project, text))
}
