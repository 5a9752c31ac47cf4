//! The loop of a worker: take a node, expand it, check in its report.

ghost use Rattle.std.specs.Prelude.{◌≡◌, ◌≤◌, IfOk, IfErr};
ghost use Rattle.std.specs.Arc.{arc_value};
ghost use Rattle.branching.specs.Path.{IsAt};
ghost use Rattle.shared_book.specs.Desks.{SeatedAt, StaysAt, CountsAccepted};
ghost use Rattle.worker.specs.Serving.{CountsEnd, MakesAtMost, TakesNone};
ghost use Rattle.worker.specs.Solving.{IsOfWork};

use crate::fault::SolveFault;
use crate::gate::{Gate, Moment};
use book::{CheckFault, Ticket};
use branching::{OpenNode, Searcher, lesser};
use shared_book::{Shared, WorkFault, WorkerState};
use std::alloc::{AllocError, Global};
use std::sync::ledger::Ledger;
use std::sync::{Arc, Wait};

/// The kept searcher, if it is one of the node's project, else a new one.
fn searcher_for(
    alloc: Global,
    kept: Option<Searcher>,
    node: &OpenNode,
) -> Result<Searcher, AllocError>
    ensures { IfOk result (λ searcher. searcher.project ≡ node.now.project) }
{
    if let Some(searcher) = kept {
        if searcher.is_for(node) {
            return Ok(searcher);
        }
    }
    Searcher::for_node(alloc, node)
}

/// A searcher that is at the node: the kept one, if it is one of the node's project.
fn searcher_at(
    alloc: Global,
    kept: Option<Searcher>,
    node: &OpenNode,
) -> Result<Searcher, AllocError>
    ensures { IfOk result (λ searcher. IsAt searcher node.now) }
{
    let mut searcher = searcher_for(alloc, kept, node)?;
    searcher.move_to(&node.pairs())?;
    Ok(searcher)
}

/// Expands a node without the lock, and checks the report in: the makespan that it found.
fn attempt<L: Ledger, S: Ledger, G: Gate, R: Wait>(
    rt: &R,
    alloc: Global,
    shared: &Shared<L, S>,
    desk: &mut WorkerState<L, S>,
    gate: &G,
    searcher: &mut Searcher,
    ticket: &Ticket,
) -> Result<Option<i64>, CheckFault>
    requires { IsAt searcher.old (arc_value ticket.now.node) }
    ensures stays { searcher.new ≡ searcher.old }
    ensures one_report { MakesAtMost 1 desk.old.key desk.new.key }
    ensures same { (desk.new.number ≡ desk.old.number) × (desk.new.seat ≡ desk.old.seat) }
    ensures counts { CountsAccepted desk.old result desk.new }
{
    let Ok(report) = gate.expand(rt, alloc, searcher, &ticket.node, ticket.ceiling) else {
        return Err(CheckFault::Memory);
    };
    let found = report.found().map(|schedule| schedule.makespan());
    match shared.check_in(rt, desk, ticket.name, report) {
        Ok(made) => {
            searcher.reuse(made);
            Ok(found)
        }
        Err(fault) => Err(fault),
    }
}

/// Expands a node under the lesser of the ticket's ceiling and the shared ceiling. If the book knows of no schedule so
/// short, it expands the node again, under the best that the book has.
fn settle_by<L: Ledger, S: Ledger, G: Gate, R: Wait>(
    rt: &R,
    alloc: Global,
    shared: &Shared<L, S>,
    desk: &mut WorkerState<L, S>,
    gate: &G,
    searcher: &mut Searcher,
    ticket: &mut Ticket,
) -> Result<Option<i64>, CheckFault>
    requires seated { SeatedAt shared.now desk.old }
    requires at { IsAt searcher.old (arc_value ticket.old.node) }
    ensures two_reports { MakesAtMost 2 desk.old.key desk.new.key }
    ensures stays { StaysAt shared.now desk.old desk.new }
    ensures counts { CountsAccepted desk.old result desk.new }
{
    let least = shared.look(desk);
    ticket.ceiling = lesser(ticket.ceiling, i64::try_from(least).ok());
    let settled = attempt(rt, alloc, shared, desk, gate, searcher, ticket);
    let Err(CheckFault::AheadOfBook { best }) = settled else {
        return settled;
    };
    ticket.ceiling = best;
    attempt(rt, alloc, shared, desk, gate, searcher, ticket)
}

/// Settles a node with the searcher that is kept, or a new one, which is kept then.
fn settle<L: Ledger, S: Ledger, G: Gate, R: Wait>(
    rt: &R,
    alloc: Global,
    shared: &Shared<L, S>,
    desk: &mut WorkerState<L, S>,
    gate: &G,
    kept: &mut Option<Searcher>,
    mut ticket: Ticket,
) -> Result<Option<i64>, CheckFault>
    requires { SeatedAt shared.now desk.old }
    ensures two_reports { MakesAtMost 2 desk.old.key desk.new.key }
    ensures stays { StaysAt shared.now desk.old desk.new }
    ensures counts { CountsAccepted desk.old result desk.new }
{
    let Ok(mut searcher) = searcher_at(alloc, kept.take(), &ticket.node) else {
        return Err(CheckFault::Memory);
    };
    let settled = settle_by(rt, alloc, shared, desk, gate, &mut searcher, &mut ticket);
    *kept = Some(searcher);
    settled
}

/// Settles one node, and offers what was found to the shared ceiling.
fn serve<L: Ledger, S: Ledger, G: Gate, R: Wait>(
    rt: &R,
    alloc: Global,
    shared: &Shared<L, S>,
    desk: &mut WorkerState<L, S>,
    gate: &G,
    kept: &mut Option<Searcher>,
    ticket: Ticket,
) -> Result<(), WorkFault>
    requires { SeatedAt shared.now desk.old }
    ensures takes_none { TakesNone desk.old.key desk.new.key }
    ensures stays { StaysAt shared.now desk.old desk.new }
    ensures counts { CountsAccepted desk.old result desk.new }
{
    let name = ticket.name;
    gate.pass(rt, desk.number(), Moment::Taken { name });
    let found = match settle(rt, alloc, shared, desk, gate, kept, ticket) {
        Ok(found) => found,
        Err(fault) => return Err(shared.stop(rt, desk, name, fault)),
    };
    if let Some(makespan) = found.and_then(|makespan| u64::try_from(makespan).ok()) {
        shared.tell(desk, makespan);
    }
    gate.pass(rt, desk.number(), Moment::CheckedIn { name });
    Ok(())
}

/// Serves one node after the other, until the book has none for this worker any more.
fn serve_all<L: Ledger, S: Ledger, G: Gate, R: Wait>(
    rt: &R,
    alloc: Global,
    shared: &Shared<L, S>,
    desk: &mut WorkerState<L, S>,
    gate: &G,
    kept: &mut Option<Searcher>,
) -> Result<(), WorkFault>
    requires { SeatedAt shared.now desk.old }
    ensures end { CountsEnd desk.old result desk.new }
    ensures stays { StaysAt shared.now desk.old desk.new }
    ensures counts { desk.old.accepted ≤ desk.new.accepted }
{
    for _ in rt.forever() {
        let Some(ticket) = shared.next_ticket(rt, desk) else {
            return Ok(());
        };
        serve(rt, alloc, shared, desk, gate, kept, ticket)?;
    }
    unreachable!()
}

/// The loop of one worker, which passes the gate once more at its end.
pub(crate) fn serve_to_end<L: Ledger, S: Ledger, G: Gate, R: Wait>(
    rt: &R,
    alloc: Global,
    shared: &Shared<L, S>,
    desk: &mut WorkerState<L, S>,
    gate: &G,
) -> Result<(), WorkFault>
    requires { SeatedAt shared.now desk.old }
    ensures end { CountsEnd desk.old result desk.new }
    ensures stays { StaysAt shared.now desk.old desk.new }
    ensures counts { desk.old.accepted ≤ desk.new.accepted }
{
    let mut kept = None;
    let ended = serve_all(rt, alloc, shared, desk, gate, &mut kept);
    gate.pass(rt, desk.number(), Moment::Ended);
    ended
}

/// The loop of one worker, at a desk of this shared book. It takes nodes, expands them and checks their reports in,
/// until the search is over or stopped. It ends with [`SolveFault::Memory`] or [`SolveFault::Refused`], and the book is
/// then halted. At the end it passes the gate with [`Moment::Ended`].
pub fn work<L: Ledger, S: Ledger, G: Gate, R: Wait>(
    rt: &R,
    alloc: Global,
    shared: &Shared<L, S>,
    desk: &mut WorkerState<L, S>,
    gate: &G,
) -> Result<(), SolveFault>
    requires { SeatedAt shared.now desk.old }
    ensures end { CountsEnd desk.old result desk.new }
    ensures stays { StaysAt shared.now desk.old desk.new }
    ensures counts { desk.old.accepted ≤ desk.new.accepted }
    ensures fault { IfErr result IsOfWork }
{
    match serve_to_end(rt, alloc, shared, desk, gate) {
        Ok(()) => Ok(()),
        Err(fault) => Err(fault.into()),
    }
}
