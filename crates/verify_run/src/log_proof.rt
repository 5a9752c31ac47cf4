//! What a record of lemmas proves, which is read piece by piece.

ghost use Rattle.std.specs.Prelude.{◌≡◌, ◌≢◌, ◌<◌, ◌++◌, [], ℕ, List, Err, IfOk, IfErr};
ghost use Rattle.network.specs.Problem.{IsProject, Problem};
ghost use Rattle.devices.specs.declared.fault.Fault.TheVariants as faults;
ghost use Rattle.devices.specs.Faults.{exit_of, IsInputFault, IsTextFault};
ghost use Rattle.lemma_record.specs.Reached.{HasChecked};
ghost use Rattle.devices.specs.Runs.{span, FailedWhere, GaveSome, IfKnown};
ghost use Rattle.verify_run.specs.Verified.{IsLogProof, Shows, TellsEvent, part_in};

use crate::scope::Scope;
use answers::Answer;
use devices::{Fault, Input};
use lemma_record::{Checker, claim_law};
use network::{Project, Verdict};
use std::alloc::Global;

/// How many bytes are read at once, at most.
const PIECE: usize = 16_384;

/// What a record of lemmas shows that was read.
fn shown(scope: &Scope, checker: &Checker<'_>) -> Result<Verdict, Fault>
    requires { checker.now.part ≡ part_in scope.now }
    ensures shown { IfOk result (λ what. (p : Problem) (text : List ℕ) → HasChecked p text checker.now
        → Shows scope.now p text what) }
    ensures refused { IfErr result (λ fault. (p : Problem) (text : List ℕ) → HasChecked p text checker.now
        → TellsEvent scope.now p text fault) }
    ensures fault { IfErr result IsTextFault }
{
    if let Scope::SoFar = scope {
        return Ok(checker.proved());
    }
    Ok(checker.finish()?)
}

/// Reads a record of lemmas on to its end, checks what is to be checked as it comes, and says what it shows. One of
/// 2^64 - 1 pieces and more is given up.
fn read_log<I: Input>(
    scope: &Scope,
    checker: &mut Checker<'_>,
    head: &[u8],
    input: &mut I,
) -> Result<Verdict, Fault>
    requires input { I.failed input.old < u64.MAX }
    requires part { checker.old.part ≡ part_in scope.now }
    ensures shown { IfOk result (λ what. (p : Problem) → HasChecked p [] checker.old
        → IfKnown (I.left input.old) (λ rest. Shows scope.now p (head.now ++ rest) what)) }
    ensures refused { IfErr result (λ fault. exit_of fault ≢ 1 → (p : Problem) → HasChecked p [] checker.old
        → IfKnown (I.left input.old) (λ rest. TellsEvent scope.now p (head.now ++ rest) fault)) }
    ensures fault { IfErr result IsInputFault }
    ensures failed { FailedWhere (result ≡ Err faults.ReadFailed) (span I.left I.failed input.old input.new) }
    ensures given { GaveSome (span I.left I.failed input.old input.new) }
{
    checker.feed(head)?;
    let mut buffer = [0u8; PIECE];
    for _ in 0..u64::MAX {
        let Ok(n) = input.pull(&mut buffer) else {
            return Err(Fault::ReadFailed);
        };
        if n == 0 {
            return shown(scope, checker);
        }
        checker.feed(&buffer[..n])?;
    }
    Err(Fault::Memory)
}

/// What a record of lemmas shows of a project, of which this is the front.
fn verdict<I: Input>(
    alloc: Global,
    scope: &Scope,
    project: &Project,
    head: &[u8],
    input: &mut I,
) -> Result<Verdict, Fault>
    requires { I.failed input.old < u64.MAX }
    ensures shown { IfOk result (λ what. IfKnown (I.left input.old)
        (λ rest. Shows scope.now project.now (head.now ++ rest) what)) }
    ensures refused { IfErr result (λ fault. exit_of fault ≢ 1 → IfKnown (I.left input.old)
        (λ rest. TellsEvent scope.now project.now (head.now ++ rest) fault)) }
    ensures fault { IfErr result IsInputFault }
    ensures failed { FailedWhere (result ≡ Err faults.ReadFailed) (span I.left I.failed input.old input.new) }
    ensures given { GaveSome (span I.left I.failed input.old input.new) }
{
    let mut checker = Checker::new(alloc, project, scope.part())?;
    read_log(scope, &mut checker, head, input)
}

/// Reads a record of lemmas on to its end, and says what it proves of a project.
pub(crate) fn log_proof<I: Input>(
    alloc: Global,
    scope: &Scope,
    project: &Project,
    head: &[u8],
    input: &mut I,
) -> Result<Answer, Fault>
    requires input { I.failed input.old < u64.MAX }
    requires project { IsProject project.now }
    ensures said { IfOk result (λ a. (a.exit ≡ 0) × IfKnown (I.left input.old)
        (λ rest. IsLogProof scope.now project.now (head.now ++ rest) a.text.items)) }
    ensures refused { IfErr result (λ fault. exit_of fault ≢ 1 → IfKnown (I.left input.old)
        (λ rest. TellsEvent scope.now project.now (head.now ++ rest) fault)) }
    ensures fault { IfErr result IsInputFault }
    ensures failed { FailedWhere (result ≡ Err faults.ReadFailed) (span I.left I.failed input.old input.new) }
    ensures given { GaveSome (span I.left I.failed input.old input.new) }
{
    claim_law();
    let shown = verdict(alloc, scope, project, head, input)?;
    let text = scope.line(alloc, shown)?;
    Ok(Answer::of(text, 0))
}
