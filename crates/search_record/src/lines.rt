//! Checks the lines of a record in order.

ghost use Rattle.std.specs.Prelude.{◌≡◌, ◌≢◌, ◌≤◌, ◌↔◌, [], ℤ, Option, IsTrue, OnOk, IfErr};
ghost use Rattle.network.specs.Problem.{Problem};
ghost use Rattle.branching.specs.Right.{IsInfeasible};
ghost use Rattle.record_text.specs.Tree.{Tree, IsTreeOf};
ghost use Rattle.record_text.specs.declared.line.Line.TheVariants as kind;
ghost use Rattle.record_text.specs.declared.fault.RecordFaultKind.TheVariants.{Memory};
ghost use Rattle.search_record.specs.Right.{AreRightLines, why_wrong, IsFirstWrong, IsFirstWrongOfDead};

use crate::due::Due;
use network::Project;
use record_text::{Line, RecordFault, RecordFaultKind};
use std::alloc::Global;

/// What is wrong where a line is.
fn why_wrong(line: &Line) -> RecordFaultKind
    ensures { result ≡ why_wrong line.now }
{
    match line {
        Line::Force(_) => RecordFaultKind::Force,
        Line::Split { .. } => RecordFaultKind::Set,
        Line::Solved | Line::Cut | Line::Dead => RecordFaultKind::Leaf,
    }
}

fn is_infeasible(line: &Line) -> bool
    ensures { IsTrue result ↔ (line.now ≡ kind.Dead) }
{
    matches!(line, Line::Dead)
}

/// Checks the lines of a tree whose first node is dead: only `dead` is right there.
fn check_dead(first: usize, lines: &[Line]) -> Result<(), RecordFault>
    requires { (t : Tree) × IsTreeOf lines.now t }
    ensures right { OnOk result ((p : Problem) (limit : Option ℤ) → IsInfeasible p [] → AreRightLines p limit lines.now) }
    ensures fault { IfErr result (IsFirstWrongOfDead first lines.now) }
{
    let line = &lines[0];
    if is_infeasible(line) {
        return Ok(());
    }
    Err(RecordFault {
        line: first,
        kind: why_wrong(line),
    })
}

/// Checks the lines of a tree in their order, where they are numbered from this one. No limit stands for
/// a claim that there is no schedule.
pub(crate) fn check_lines(
    alloc: Global,
    project: &Project,
    limit: Option<i64>,
    first: usize,
    lines: &[Line],
) -> Result<(), RecordFault>
    requires tree { (t : Tree) × IsTreeOf lines.now t }
    requires few { first ≤ 4 }
    ensures right { OnOk result (AreRightLines project.now limit lines.now) }
    ensures fault { IfErr result (λ fault. fault.kind ≢ Memory → IsFirstWrong project.now limit first lines.now fault) }
{
    let Some(mut due) = Due::root(alloc, project)? else {
        return check_dead(first, lines);
    };
    for (index, line) in lines.iter().enumerate() {
        let right = due.next().is_right(alloc, limit, line)?;
        if !right {
            return Err(RecordFault {
                line: first + index,
                kind: why_wrong(line),
            });
        }
        due.go_on(alloc, line)?;
    }
    Ok(())
}
