//! Starts that are handed in, judged.

ghost use Rattle.std.specs.Prelude.{◌≢◌, IfOk, IfErr};
ghost use Rattle.std.specs.Arc.{arc_value};
ghost use Rattle.devices.specs.Faults.{exit_of, IsTextFault};
ghost use Rattle.devices.specs.Texts.{GivesStarts, IsFirstStartsFault, IsJudged};

use crate::fault::Fault;
use answers::{Answer, violations_text};
use network::{Project, Schedule};
use schedule_check::{AcceptFault, accept, read_starts};
use std::alloc::Global;
use std::sync::Arc;

/// What starts that are handed in are.
#[derive(Drop)]
pub enum Judged {
    /// A feasible schedule of the project.
    Feasible(Schedule),
    /// No feasible schedule. The answer says all that they violate, with exit status 4.
    Refused(Answer),
}

/// What the starts in a text are.
pub fn judged_starts(alloc: Global, project: &Arc<Project>, text: &[u8]) -> Result<Judged, Fault>
    ensures judged { IfOk result
        (λ judged. GivesStarts (arc_value project.now) text.now (IsJudged (arc_value project.now) judged)) }
    ensures refused { IfErr result
        (λ fault. exit_of fault ≢ 1 → IsFirstStartsFault (arc_value project.now) text.now fault) }
    ensures fault { IfErr result IsTextFault }
{
    let starts = read_starts(alloc, text, project.activity_count())?;
    match accept(alloc, Arc::try_clone(project)?, starts) {
        Ok(schedule) => Ok(Judged::Feasible(schedule)),
        Err(AcceptFault::Violated(found)) => {
            let answer = Answer::of(violations_text(alloc, &found)?, 4);
            Ok(Judged::Refused(answer))
        }
        Err(AcceptFault::Memory) => Err(Fault::Memory),
    }
}
