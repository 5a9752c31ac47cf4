//! What each job says of the project and the text that it is given.

ghost use Rattle.std.specs.Prelude.{◌≡◌, ◌≢◌, ◌≤◌, IfOk, IfErr};
ghost use Rattle.plain_search.specs.declared.search.TheConstants.{MAX_EXPANDED};
ghost use Rattle.devices.specs.declared.fault.Fault.{Fault};
ghost use Rattle.devices.specs.declared.fault.Fault.TheVariants as faults;
ghost use Rattle.answers.specs.Answers.{IsEarliestText, IsCheckText};
ghost use Rattle.psmax_run.specs.Jobs.{IsTidyText};
ghost use Rattle.devices.specs.Faults.{exit_of, IsTextFault};
ghost use Rattle.psmax_run.specs.Outcomes.{IsAloneText};
ghost use Rattle.devices.specs.Texts.{GivesStarts, IsFirstStartsFault};

use answers::{Answer, cycle_text, feasible_text, solved_answer, starts_text};
use devices::{Fault, Judged, judged_starts};
use longest_path::{PathFault, least_starts, longest};
use network::Project;
use plain_search::search_alone;
use sch_reader::write_sch;
use std::alloc::{AllocError, Global};
use std::sync::Arc;

/// The least schedule of a project, or the least activity that tops a positive cycle.
pub(crate) fn earliest(alloc: Global, project: &Project) -> Result<Answer, AllocError>
    ensures { IfOk result (λ a. IsEarliestText project.now a.exit a.text.items) }
{
    let text = match longest(alloc, project, &[]) {
        Ok(matrix) => {
            let starts = least_starts(alloc, &matrix)?;
            let makespan = starts[project.activity_count() - 1];
            starts_text(alloc, "earliest", makespan, &starts)?
        }
        Err(PathFault::PositiveCycle { at }) => cycle_text(alloc, at)?,
        Err(PathFault::Memory) => return Err(AllocError),
    };
    Ok(Answer::of(text, 0))
}

/// A shortest schedule of a project, by a search in this thread alone. What is known, if so many nodes are taken
/// before.
pub(crate) fn solve(
    alloc: Global,
    project: Project,
    takes: u64,
    json: bool,
) -> Result<Answer, AllocError>
    requires some { 1 ≤ takes }
    requires limit { takes ≤ MAX_EXPANDED }
    ensures { IfOk result (λ a. IsAloneText project takes json a.exit a.text.items) }
{
    let project = Arc::new(alloc, project)?;
    let outcome = search_alone(alloc, &project, takes)?;
    solved_answer(alloc, &outcome, json)
}

/// Whether the starts in a text are a feasible schedule of a project, or every rule that they break.
pub(crate) fn check(alloc: Global, project: Project, text: &[u8]) -> Result<Answer, Fault>
    ensures said { IfOk result
        (λ a. GivesStarts project text.now (λ starts. IsCheckText project starts a.exit a.text.items)) }
    ensures refused { IfErr result (λ fault. exit_of fault ≢ 1 → IsFirstStartsFault project text.now fault) }
    ensures fault { IfErr result IsTextFault }
{
    let project = Arc::new(alloc, project)?;
    match judged_starts(alloc, &project, text)? {
        Judged::Feasible(schedule) => {
            let text = feasible_text(alloc, schedule.makespan())?;
            Ok(Answer::of(text, 0))
        }
        Judged::Refused(answer) => Ok(answer),
    }
}

/// The canonical text of a project.
pub(crate) fn tidy(alloc: Global, project: &Project) -> Result<Answer, Fault>
    ensures said { IfOk result (λ a. IsTidyText project.now a.exit a.text.items) }
    ensures memory { IfErr result (λ fault. fault ≡ faults.Memory) }
{
    let text = write_sch(alloc, project)?;
    Ok(Answer { text, exit: 0 })
}
