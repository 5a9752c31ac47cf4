//! Checks the starts in a record.

ghost use Rattle.std.specs.Prelude.{◌≢◌, OnOk, IfErr};
ghost use Rattle.std.specs.List.{AllByRecursion};
ghost use Rattle.record_text.specs.Text.{IsWritableTime};
ghost use Rattle.record_text.specs.FirstWrong.{HasMakespan, HasWrongStarts};
ghost use Rattle.record_text.specs.declared.fault.RecordFaultKind.TheVariants.{Memory};

use crate::violation::violations;
use network::Project;
use record_text::{RecordFault, RecordFaultKind};
use std::alloc::Global;

/// The starts are wrong.
const WRONG: RecordFault = RecordFault {
    line: 3,
    kind: RecordFaultKind::Start,
};

/// Checks that the starts in a record are a feasible schedule of the makespan that is claimed.
pub fn check_claimed(
    alloc: Global,
    project: &Project,
    starts: &[i64],
    makespan: i64,
) -> Result<(), RecordFault>
    requires { AllByRecursion IsWritableTime starts.now }
    ensures right { OnOk result (HasMakespan project.now starts.now makespan) }
    ensures fault { IfErr result
        (λ fault. fault.kind ≢ Memory → HasWrongStarts (HasMakespan project.now starts.now makespan) fault) }
{
    let count = project.activity_count();
    if starts.len() != count || starts[count - 1] != makespan {
        return Err(WRONG);
    }
    let found = violations(alloc, project, starts)?;
    if !found.is_empty() {
        return Err(WRONG);
    }
    Ok(())
}
