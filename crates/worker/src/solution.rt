//! A search by workers, from the first node to its outcome.

ghost use Rattle.std.specs.Prelude.{◌≡◌, ◌+◌, ◌<◌, OnOk, IfOk, IfErr, IfSome, is_some, length, map, sum_by, vec_len};
ghost use Rattle.std.specs.Arc.{arc_value};
ghost use Rattle.std.specs.Bool.{OnTrue};
ghost use Rattle.network.specs.Schedule.{makespan};
ghost use Rattle.book.specs.State.{AddUp, counts_of};
ghost use Rattle.network.specs.Verdicts.{IsTrueOf};
ghost use Rattle.shared_book.specs.Desks.{IsRow};
ghost use Rattle.worker.specs.Serving.{HasTold};
ghost use Rattle.worker.specs.Solving.{IsNotLimit, RefusesLimits, HasBestWithin, IsBestAfter, IsOutcomeAfter, IsOutcomeOf, IsSolution, IsTrailOf};

use crate::fault::SolveFault;
use crate::gate::Gate;
use crate::threads::run_workers;
use book::{Book, Counts, NodesLeft, are_allowed};
use network::{Outcome, Project, Schedule, Verdict};
use search_log::SearchLog;
use shared_book::{Blanks, Key, Shared, Tally, WorkerState};
use std::alloc::{AllocError, Global};
use std::marker::Brand;
use std::sync::ledger::Ledger;
use std::sync::{Arc, Wait};
use std::thread;
use std::thread::Threads;

/// The outcome of a search by workers, the counts of its book, and how many reports of each worker were accepted.
#[derive(Drop, Debug)]
pub struct Solved {
    pub outcome: Outcome,
    pub counts: Counts,
    pub per_worker: Vec<u64>,
}

fn accepted(alloc: Global, tallies: &[Tally]) -> Result<Vec<u64>, AllocError>
    ensures { IfOk result (λ numbers. numbers.items ≡ map (λ t. t.accepted) tallies.now) }
{
    tallies.iter().map(|tally| tally.accepted).collect(alloc)
}

/// Offers a makespan to the shared ceiling, through the first desk.
fn tell_first<L: Ledger, S: Ledger>(
    shared: &Shared<L, S>,
    desks: &mut Vec<WorkerState<L, S>>,
    makespan: i64,
)
    requires { IsRow shared.now desks.old.items }
    ensures row { IsRow shared.now desks.new.items }
    ensures count { vec_len desks.new ≡ vec_len desks.old }
    ensures told { HasTold makespan desks.new.items }
{
    if let (Some(desk), Ok(makespan)) = (desks.first_mut(), u64::try_from(makespan)) {
        shared.tell(desk, makespan);
    }
}

/// Offers a schedule to the book, and its makespan to the shared ceiling.
fn offer_start<L: Ledger, S: Ledger, R: Wait>(
    rt: &R,
    shared: &Shared<L, S>,
    key: &mut Key<S>,
    desks: &mut Vec<WorkerState<L, S>>,
    start: Schedule,
) -> Result<(), SolveFault>
    requires { IsRow shared.now desks.old.items }
    ensures row { IsRow shared.now desks.new.items }
    ensures count { vec_len desks.new ≡ vec_len desks.old }
    ensures told { OnOk result (HasTold (makespan start.starts) desks.new.items) }
    ensures fault { IfErr result IsNotLimit }
{
    let makespan = start.makespan();
    if shared.offer(rt, key, start).is_err() {
        return Err(SolveFault::OtherProject);
    }
    tell_first(shared, desks, makespan);
    Ok(())
}

/// An equal schedule, if there is one.
fn copy_of(alloc: Global, start: &Option<Schedule>) -> Result<Option<Schedule>, AllocError>
    ensures { IfOk result (λ copy. copy ≡ start.now) }
{
    match start {
        Some(start) => Ok(Some(start.try_copy(alloc)?)),
        None => Ok(None),
    }
}

/// Offers the start to the book once more, of which nobody can tell what workers did to it under its lock.
fn offer_again(book: &mut Book, start: Option<Schedule>) -> Result<(), SolveFault>
    ensures best { OnOk result (IfSome start (λ s. HasBestWithin (makespan s.starts) book.new)) }
    ensures offered { OnOk result (IsBestAfter book.old start book.new.best) }
    ensures only { book.new ≡ record book.old { best = book.new.best } }
    ensures fault { IfErr result IsNotLimit }
{
    let Some(start) = start else {
        return Ok(());
    };
    match book.offer(start) {
        Ok(_) => Ok(()),
        Err(_) => Err(SolveFault::OtherProject),
    }
}

/// Drops the nodes in a thread of its own, so that nobody waits for it. Drops them here if no thread can start.
fn drop_beside<R: Threads>(rt: &R, nodes: NodesLeft) {
    let _ = thread::spawn(rt, move || drop(nodes));
}

/// What a book says in the end, and its trail, if it kept one.
fn outcome_of<R: Threads>(rt: &R, book: Book) -> (Outcome, Option<SearchLog>)
    ensures true_of { IsTrueOf book.project result.0 }
    ensures told { IsOutcomeOf book result.0 }
    ensures trail { IfSome result.1 (IsTrailOf book.project result.0) }
{
    let verdict = book.verdict();
    let (best, trail, nodes) = book.into_parts();
    drop_beside(rt, nodes);
    if let Verdict::Bound { bound } = verdict {
        return (Outcome::Stopped { best, bound }, trail);
    }
    match best {
        Some(best) => (Outcome::Optimal(best), trail),
        None => (Outcome::NoSchedule, trail),
    }
}

/// Whether no node is left, or as many were taken as may be.
fn is_over(counts: &Counts, takes: u64) -> bool
    ensures { OnTrue result (0 < counts.now.waiting + counts.now.hand → counts.now.taken ≡ takes) }
{
    (counts.waiting == 0 && counts.hand == 0) || counts.taken == takes
}

/// What a book counts whose workers have all ended. Its project has to be the given one.
fn final_counts(
    project: &Project,
    takes: u64,
    start: Option<Schedule>,
    book: &mut Book,
) -> Result<Counts, SolveFault>
    ensures same { OnOk result (book.old.project ≡ project.now) }
    ensures best { OnOk result (IfSome start (λ s. HasBestWithin (makespan s.starts) book.new)) }
    ensures offered { OnOk result (IsBestAfter book.old start book.new.best) }
    ensures only { book.new ≡ record book.old { best = book.new.best } }
    ensures counts { IfOk result (λ c. (c ≡ counts_of book.new) × AddUp c) }
    ensures over { IfOk result (λ c. 0 < c.waiting + c.hand → c.taken ≡ takes) }
    ensures fault { IfErr result IsNotLimit }
{
    if !book.project().is_same(project) {
        return Err(SolveFault::OtherProject);
    }
    offer_again(book, start)?;
    let counts = book.counts();
    if !is_over(&counts, takes) {
        return Err(SolveFault::Thread);
    }
    Ok(counts)
}

/// The outcome of a book whose workers have all ended, and its trail.
fn conclude<R: Threads>(
    rt: &R,
    alloc: Global,
    project: &Project,
    takes: u64,
    start: Option<Schedule>,
    mut book: Book,
    tallies: &[Tally],
) -> Result<(Solved, Option<SearchLog>), SolveFault>
    requires { sum_by (λ t. t.accepted) tallies.now ≡ book.checked }
    ensures solution { IfOk result (λ r. IsSolution project.now (length tallies.now) takes start r.0) }
    ensures told { IfOk result (λ r. IsOutcomeAfter book start r.0.outcome) }
    ensures trail { IfOk result (λ r. IfSome r.1 (IsTrailOf project.now r.0.outcome)) }
    ensures fault { IfErr result IsNotLimit }
{
    let counts = final_counts(project, takes, start, &mut book)?;
    let per_worker = accepted(alloc, tallies)?;
    let (outcome, trail) = outcome_of(rt, book);
    let solved = Solved {
        outcome,
        counts,
        per_worker,
    };
    Ok((solved, trail))
}

/// Offers the start, if there is one, and runs the workers. Their desks.
fn run_from<L: Ledger + Send + Sync, S: Ledger + Send + Sync, G: Gate, R: Threads + Wait + Sync>(
    rt: &R,
    alloc: Global,
    shared: &Shared<L, S>,
    mut key: Key<S>,
    mut desks: Vec<WorkerState<L, S>>,
    start: Option<Schedule>,
    gate: &G,
) -> Result<Vec<WorkerState<L, S>>, SolveFault>
    requires { IsRow shared.now desks.items }
    ensures count { IfOk result (λ back. vec_len back ≡ vec_len desks) }
    ensures fault { IfErr result IsNotLimit }
{
    if let Some(start) = start {
        offer_start(rt, shared, &mut key, &mut desks, start)?;
    }
    run_workers(rt, alloc, shared, key, desks, gate)
}

/// Searches with a book that has checked nothing in, and that allows so many workers and takes.
fn search_with<L: Ledger + Send + Sync, S: Ledger + Send + Sync, G: Gate, R: Threads + Wait + Sync>(
    rt: &R,
    alloc: Global,
    blanks: Blanks,
    project: &Project,
    book: Book,
    workers: usize,
    takes: u64,
    start: Option<Schedule>,
    gate: &G,
) -> Result<(Solved, Option<SearchLog>), SolveFault>
    requires accepted { (blanks.accepted.name ≡ L.name) × (blanks.accepted.parts ≡ L.parts) }
    requires steps { (blanks.steps.name ≡ S.name) × (blanks.steps.parts ≡ S.parts) }
    requires one_each { blanks.accepted.parts ≡ workers }
    requires unused { book.checked ≡ 0 }
    ensures solution { IfOk result (λ r. IsSolution project.now workers takes start r.0) }
    ensures trail { IfOk result (λ r. IfSome r.1 (IsTrailOf project.now r.0.outcome)) }
    ensures fault { IfErr result IsNotLimit }
{
    let again = copy_of(alloc, &start)?;
    let (shared, desks, key) = Shared::<L, S>::open(alloc, blanks, book, workers)?;
    let desks = run_from(rt, alloc, &shared, key, desks, start, gate)?;
    let (book, tallies) = shared.close(alloc, desks)?;
    conclude(rt, alloc, project, takes, again, book, tallies.as_slice())
}

/// Searches a project with workers in their own threads: 1 to [`MAX_WORKERS`](book::MAX_WORKERS) of them. They take 1
/// to [`MAX_EXPANDED`](plain_search::MAX_EXPANDED) nodes in all. A schedule that is known is offered before they start, so
/// that no longer one is the outcome. A recorded search keeps a trail: what became of each node that was opened. If no
/// limit stopped it, the trail and the shortest schedule give a record of it.
///
/// Workers pass the gate while they don't hold the lock. If several ended with faults, it answers the fault of the
/// worker of least number. [`SolveFault::Thread`] comes if a thread could not start.
pub fn search<G: Gate, R: Threads + Wait + Sync>(
    rt: &R,
    alloc: Global,
    project: Arc<Project>,
    workers: usize,
    takes: u64,
    start: Option<Schedule>,
    recorded: bool,
    gate: &G,
) -> Result<(Solved, Option<SearchLog>), SolveFault>
    ensures solution { IfOk result (λ r. IsSolution (arc_value project) workers takes start r.0) }
    ensures trail { IfOk result (λ r. IfSome r.1 (IsTrailOf (arc_value project) r.0.outcome)) }
    ensures recorded { IfOk result (λ r. is_some r.1 ≡ recorded) }
    ensures limits { RefusesLimits workers takes result }
{
    if !are_allowed(workers, takes) {
        return Err(SolveFault::Limit);
    }
    let again = Arc::try_clone(&project)?;
    let book = if recorded {
        Book::open_recorded(alloc, again, workers, takes)?
    } else {
        Book::open(alloc, again, workers, takes)?
    };
    let blanks = Blanks::new(workers);
    let (solved, trail) = search_with::<Brand, Brand, G, R>(
        rt, alloc, blanks, &project, book, workers, takes, start, gate,
    )?;
    if trail.is_some() != recorded {
        return Err(SolveFault::Thread);
    }
    Ok((solved, trail))
}
