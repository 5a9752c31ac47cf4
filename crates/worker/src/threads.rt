//! Starts the threads of workers, and joins them.

ghost use Rattle.std.specs.Prelude.{◌≡◌, ◌≤◌, IfOk, IfErr, vec_len, vec_capacity, [], true};
ghost use Rattle.shared_book.specs.Desks.{IsRow};
ghost use Rattle.worker.specs.Solving.{EndsSearch, IsNotLimit, first_fault};

use crate::fault::SolveFault;
use crate::gate::Gate;
use crate::serving::serve_to_end;
use shared_book::{Key, Shared, WorkFault, WorkerState};
use std::alloc::Global;
use std::sync::Wait;
use std::sync::ledger::Ledger;
use std::thread;
use std::thread::{JoinHandle, Scope, Threads};

/// A worker's desk after its end, and how it ended.
type WorkerEnd<L, S> = (WorkerState<L, S>, Result<(), WorkFault>);

/// Joins the threads: their ends, in order.
fn join_all<L: Ledger, S: Ledger, R: Threads>(
    rt: &R,
    running: Vec<JoinHandle<WorkerEnd<L, S>>>,
    places: Vec<WorkerEnd<L, S>>,
) -> Vec<WorkerEnd<L, S>>
    requires empty { places.items ≡ [] }
    requires room { vec_len running ≤ vec_capacity places }
    ensures { vec_len result ≡ vec_len running }
{
    let mut ends = places;
    for handle in running {
        ends.push_reserved(handle.join(rt));
    }
    ends
}

/// The desks of these ends, and the fault of the first of them that has one.
fn parted<L: Ledger, S: Ledger>(
    ends: Vec<WorkerEnd<L, S>>,
    places: Vec<WorkerState<L, S>>,
) -> (Vec<WorkerState<L, S>>, Option<WorkFault>)
    requires empty { places.items ≡ [] }
    requires room { vec_len ends ≤ vec_capacity places }
    ensures desks { vec_len result.0 ≡ vec_len ends }
    ensures fault { result.1 ≡ first_fault ends.items }
{
    let mut desks = places;
    let mut fault = None;
    for (desk, ended) in ends {
        desks.push_reserved(desk);
        fault = fault.or(ended.err());
    }
    (desks, fault)
}

/// How a search ends whose workers had this first fault, or not all of which could be started.
fn end_of(started: bool, fault: Option<WorkFault>) -> Result<(), SolveFault>
    ensures { EndsSearch started fault result }
{
    if !started {
        return Err(SolveFault::Thread);
    }
    match fault {
        Some(fault) => Err(fault.into()),
        None => Ok(()),
    }
}

/// The desks of the threads, which are joined, in their order.
fn desks_after<L: Ledger, S: Ledger, R: Threads>(
    rt: &R,
    started: bool,
    running: Vec<JoinHandle<WorkerEnd<L, S>>>,
    ends: Vec<WorkerEnd<L, S>>,
    places: Vec<WorkerState<L, S>>,
) -> Result<Vec<WorkerState<L, S>>, SolveFault>
    requires ends { (ends.items ≡ []) × (vec_len running ≤ vec_capacity ends) }
    requires places { (places.items ≡ []) × (vec_len running ≤ vec_capacity places) }
    ensures all { IfOk result (λ back. (started ≡ true) × (vec_len back ≡ vec_len running)) }
    ensures fault { IfErr result IsNotLimit }
{
    let (back, fault) = parted(join_all(rt, running, ends), places);
    end_of(started, fault)?;
    Ok(back)
}

/// Starts a worker at each desk in a thread of its own, up to the first that can't be started: then the book is halted.
/// The threads, and whether all are there.
fn start_workers<
    's,
    E,
    L: Ledger + Send + Sync + 's,
    S: Ledger + Send + Sync + 's,
    G: Gate + 's,
    R: Threads + Wait + Sync + 's,
>(
    scope: &'s Scope<'s, E>,
    rt: &'s R,
    alloc: Global,
    shared: &'s Shared<L, S>,
    mut key: Key<S>,
    desks: Vec<WorkerState<L, S>>,
    gate: &'s G,
    places: Vec<JoinHandle<WorkerEnd<L, S>>>,
) -> (Vec<JoinHandle<WorkerEnd<L, S>>>, bool)
    requires row { IsRow shared.now desks.items }
    requires empty { places.items ≡ [] }
    requires room { vec_len desks ≤ vec_capacity places }
    ensures some { vec_len result.0 ≤ vec_len desks }
    ensures all { result.1 ≡ true → vec_len result.0 ≡ vec_len desks }
{
    let mut running = places;
    for desk in desks {
        let worker = move || -> WorkerEnd<L, S>
            requires { desk.seat.ceiling ≡ shared.now.best }
        {
            let mut desk = desk;
            let ended = serve_to_end(rt, alloc, shared, &mut desk, gate);
            (desk, ended)
        };
        let Ok(handle) = scope.spawn(worker) else {
            shared.halt(rt, &mut key);
            return (running, false);
        };
        running.push_reserved(handle);
    }
    (running, true)
}

/// Runs a worker at each desk in its own thread, and gives the desks back in their order. Where a thread can't be
/// started, the book is halted and the others are joined.
pub(crate) fn run_workers<
    L: Ledger + Send + Sync,
    S: Ledger + Send + Sync,
    G: Gate,
    R: Threads + Wait + Sync,
>(
    rt: &R,
    alloc: Global,
    shared: &Shared<L, S>,
    key: Key<S>,
    desks: Vec<WorkerState<L, S>>,
    gate: &G,
) -> Result<Vec<WorkerState<L, S>>, SolveFault>
    requires { IsRow shared.now desks.items }
    ensures count { IfOk result (λ back. vec_len back ≡ vec_len desks) }
    ensures fault { IfErr result IsNotLimit }
{
    let room = Vec::with_capacity(alloc, desks.len())?;
    let ends = Vec::with_capacity(alloc, desks.len())?;
    let places = Vec::with_capacity(alloc, desks.len())?;
    thread::scope(
        thread::scope_env(),
        rt,
        move |scope| -> Result<Vec<WorkerState<L, S>>, SolveFault>
            requires row { IsRow shared.now desks.items }
            requires room { room.items ≡ [] }
            requires ends { ends.items ≡ [] }
            requires places { places.items ≡ [] }
            requires room_for_all { vec_len desks ≤ vec_capacity room }
            requires ends_for_all { vec_len desks ≤ vec_capacity ends }
            requires places_for_all { vec_len desks ≤ vec_capacity places }
            ensures count { IfOk result (λ back. vec_len back ≡ vec_len desks) }
            ensures fault { IfErr result IsNotLimit }
        {
            let (running, started) = start_workers(
                scope, rt, alloc, shared, key, desks, gate, room,
            );
            desks_after(rt, started, running, ends, places)
        },
    )
}
