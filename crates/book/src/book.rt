//! The search book: the state of a search as a machine that workers ask for nodes.

ghost use Rattle.std.specs.Prelude.{◌≡◌, ◌↔◌, ◌<◌, IsTrue, true, false, length, IfOk, IfErr, IfSome, option_map};
ghost use Rattle.std.specs.Arc.{arc_value};
ghost use Rattle.network.specs.Schedule.{IsTrueVerdict};
ghost use Rattle.branching.specs.Fair.{AreListsOf};
ghost use Rattle.branching.specs.Right.{IsLeast};
ghost use Rattle.book.specs.Sound.{IsSound, IsWithinLimits, IsRecorded, EndsWhole, known_bounds, IsBoundFor, IsVerdictOf};
ghost use Rattle.book.specs.Steps.{AreAllowed, AreRoots, Opens, OpensRecorded, Offers, IsFull, Cuts, HandsOut, Takes, MayCheckIn, Judges, Accepts, ChecksIn, ChecksInForReuse, GivesBack};
ghost use Rattle.book.specs.State.{counts_of, AddUp};
ghost use Rattle.search_log.specs.SearchLog.{trail_for};

use crate::answers::{BookFault, CheckFault, CheckedIn, MAX_WORKERS, OtherProject, Take, Ticket};
use crate::counts::Counts;
use crate::hands::Hands;
use crate::nodes_left::NodesLeft;
use crate::open_nodes::OpenNodes;
use crate::recording::{clear_open, open_children, shorter_found};
use branching::{Branches, Report, is_below, is_in_time, lesser, makespan_of, open_root};
use longest_path::PathFault;
use network::{Project, Schedule, Verdict};
use plain_search::MAX_EXPANDED;
use search_log::SearchLog;
use std::alloc::{AllocError, Global};
use std::marker::Model;
use std::sync::Arc;

/// The book of a search. Its workers are numbered from 0. Its nodes have the names 0, 1, 2 and so on, in the order in
/// which it opened them.
#[derive(Drop, Debug)]
pub struct Book {
    project: Arc<Project>,
    best: Option<Schedule>,
    waiting: OpenNodes,
    hands: Hands,
    opened: u64,
    checked: u64,
    cut: u64,
    taken: u64,
    limit: u64,
    halted: bool,
    trail: Option<SearchLog>,
}

impl Model for Book {
    ghost use Rattle.book.specs.State.{BookState};

    ghost Value = { BookState };

    ghost use Rattle.book.specs.Views.{state_of, KeepsBook};

    ghost view = { state_of };

    ghost invariant = { KeepsBook };
}

/// Whether a book may have so many workers and takes: 1 to [`MAX_WORKERS`] and 1 to [`MAX_EXPANDED`].
pub fn are_allowed(workers: usize, takes: u64) -> bool
    ensures { IsTrue result ↔ AreAllowed workers takes }
{
    (1..=MAX_WORKERS).contains(&workers) && (1..=MAX_EXPANDED).contains(&takes)
}

/// The root of a project under name 0. No node if a closed walk of the project's rules has positive weight.
fn first_nodes(alloc: Global, project: &Arc<Project>) -> Result<OpenNodes, AllocError>
    ensures { IfOk result (AreRoots (arc_value project.now)) }
{
    let root = match open_root(alloc, Arc::try_clone(project)?) {
        Ok(root) => root,
        Err(PathFault::PositiveCycle { .. }) => return Ok(OpenNodes::new(alloc)),
        Err(PathFault::Memory) => return Err(AllocError),
    };
    let mut nodes = OpenNodes::new(alloc);
    nodes.insert(0, &root)?;
    Ok(nodes)
}

impl Book {
    /// A book for a project, with 1 to [`MAX_WORKERS`] workers, that allows 1 to [`MAX_EXPANDED`] takes. Its root is open.
    /// If the project's rules have a closed walk of positive weight, there is no schedule and no open node.
    pub fn open(
        alloc: Global,
        project: Arc<Project>,
        workers: usize,
        takes: u64,
    ) -> Result<Book, BookFault>
        ensures opens { Opens (arc_value project) workers takes result }
        ensures sound { IfOk result IsSound }
    {
        if !are_allowed(workers, takes) {
            return Err(BookFault::Limit);
        }
        let hands = Hands::new(alloc, workers)?;
        let waiting = first_nodes(alloc, &project)?;
        let opened = waiting.len() as u64;
        Ok(Book {
            project,
            best: None,
            waiting,
            hands,
            opened,
            checked: 0,
            cut: 0,
            taken: 0,
            limit: takes,
            halted: false,
            trail: None,
        })
    }

    /// The same book with a trail, which tells what becomes of each node.
    pub fn open_recorded(
        alloc: Global,
        project: Arc<Project>,
        workers: usize,
        takes: u64,
    ) -> Result<Book, BookFault>
        ensures opens { OpensRecorded (arc_value project) workers takes result }
        ensures sound { IfOk result IsSound }
    {
        let mut book = Book::open(alloc, project, workers, takes)?;
        let project = Arc::try_clone(book.project())?;
        let roots = book.waiting.len();
        let trail = SearchLog::new(alloc, project, roots)?;
        book.trail = Some(trail);
        Ok(book)
    }

    /// Offers a schedule. It becomes the best if it is strictly shorter; the result says whether it did. One of another
    /// project is handed back.
    pub fn offer(&mut self, schedule: Schedule) -> Result<bool, (Schedule, OtherProject)>
        ensures step { Offers self.old schedule result self.new }
        ensures sound { IsSound self.new }
    {
        if !schedule.project().is_same(&self.project) {
            return Err((schedule, OtherProject));
        }
        if !is_below(schedule.makespan(), makespan_of(&self.best)) {
            return Ok(false);
        }
        self.best = Some(schedule);
        Ok(true)
    }

    /// Ends the search: no node is handed out from now on.
    pub fn halt(&mut self)
        ensures step { self.new ≡ record self.old { halted = true } }
        ensures sound { IsSound self.new }
    {
        self.halted = true;
    }

    /// Cuts the open nodes if none of them can lead to a schedule shorter than the best.
    fn cut_settled(&mut self)
        ensures { Cuts self.old self.new }
    {
        let Some(bound) = self.waiting.least_bound() else {
            return;
        };
        if is_below(bound, makespan_of(&self.best)) {
            return;
        }
        self.cut += self.waiting.len() as u64;
        clear_open(&mut self.waiting, &mut self.trail);
    }

    /// Moves the first open node into the worker's hand.
    fn hand_out(&mut self, worker: usize) -> Ticket
        requires some { 0 < length self.old.waiting }
        requires free { IsFull self.old.hands worker false }
        requires within { self.old.taken < self.old.limit }
        ensures step { HandsOut self.old worker result self.new }
        ensures sound { IsSound self.new }
    {
        let Some((held, node)) = self.waiting.pop_first() else {
            unreachable!();
        };
        let name = held.name;
        self.hands.fill(worker, held);
        self.taken += 1;
        Ticket {
            name,
            node,
            ceiling: makespan_of(&self.best),
        }
    }

    /// The next node for a worker: the one of least bound, and among these the one of the greatest name. The answers
    /// that are no node come in the order of [`Take`]. It takes no memory.
    pub fn take(&mut self, worker: usize) -> Take
        ensures step { Takes self.old worker result self.new }
        ensures sound { IsSound self.new }
    {
        match self.hands.is_full(worker) {
            None => return Take::NoSuchWorker,
            Some(true) => return Take::HandsFull,
            Some(false) => {}
        }
        if self.halted {
            return Take::Halted;
        }
        self.cut_settled();
        if self.waiting.len() == 0 {
            if self.hands.count() == 0 {
                return Take::Done;
            }
            return Take::Idle;
        }
        if self.taken == self.limit {
            return Take::LimitReached;
        }
        Take::Ticket(self.hand_out(worker))
    }

    /// The worker whose node the report is on.
    fn judge(&self, name: u64, report: &Report) -> Result<usize, CheckFault>
        ensures judged { Judges self.now name report.now result }
        ensures sound { IsSound self.now }
    {
        if name >= self.opened {
            return Err(CheckFault::Unknown);
        }
        let Some((worker, node)) = self.hands.find(name) else {
            return Err(CheckFault::NotInHand);
        };
        if !node.pairs().is_same(&report.node().pairs()) {
            return Err(CheckFault::OtherNode);
        }
        if !report.node().is_of(&self.project) {
            return Err(CheckFault::OtherProject);
        }
        let best = makespan_of(&self.best);
        if !is_in_time(report.ceiling(), best) {
            return Err(CheckFault::AheadOfBook { best });
        }
        Ok(worker)
    }

    /// Takes the node out of the worker's hand and opens its children. Where memory runs out, the report comes back.
    fn accept(
        &mut self,
        worker: usize,
        name: u64,
        report: Report,
    ) -> Result<(CheckedIn, Branches), Report>
        requires { MayCheckIn self.old worker name report }
        ensures ok { IfOk result (λ done. Accepts self.old worker name report done.0 self.new) }
        ensures lists { IfOk result (λ done. AreListsOf report done.1) }
        ensures err { IfErr result (λ back. (back ≡ report) × (self.new ≡ self.old)) }
        ensures sound { IsSound self.new }
    {
        let best = makespan_of(&self.best);
        let shorter = shorter_found(&report, best);
        let limit = shorter.or(best);
        let first = self.opened;
        let Ok(opened) = open_children(
            &mut self.waiting,
            &mut self.trail,
            name,
            first,
            limit,
            &report,
        ) else {
            return Err(report);
        };
        let (found, made) = report.into_parts();
        self.hands.empty(worker);
        self.checked += 1;
        self.opened += opened;
        if shorter.is_none() {
            let improved = false;
            return Ok((CheckedIn { opened, improved }, made));
        }
        self.best = found;
        let improved = true;
        Ok((CheckedIn { opened, improved }, made))
    }

    /// Checks in the report on the node in hand under a name, whichever worker holds it. The schedule found becomes the
    /// best if it is strictly shorter. Then the children whose bounds are below the best are opened, in their order.
    ///
    /// A refused report is handed back, and the book is as it was. Faults are tested in the order of [`CheckFault`].
    pub fn check_in(&mut self, name: u64, report: Report) -> Result<CheckedIn, (Report, CheckFault)>
        ensures step { ChecksIn self.old name report result self.new }
        ensures sound { IsSound self.new }
    {
        match self.check_in_for_reuse(name, report) {
            Ok((done, _)) => Ok(done),
            Err(refused) => Err(refused),
        }
    }

    /// The same, and the report's lists come back. So a caller who holds a lock need not drop them under it, and the
    /// next expansion can use their memory again.
    pub fn check_in_for_reuse(
        &mut self,
        name: u64,
        report: Report,
    ) -> Result<(CheckedIn, Branches), (Report, CheckFault)>
        ensures step { ChecksInForReuse self.old name report result self.new }
        ensures sound { IsSound self.new }
    {
        let worker = match self.judge(name, &report) {
            Ok(worker) => worker,
            Err(fault) => return Err((report, fault)),
        };
        match self.accept(worker, name, report) {
            Ok(done) => Ok(done),
            Err(report) => Err((report, CheckFault::Memory)),
        }
    }

    /// Gives the node in hand under a name back to the open ones, with its name. It fails with
    /// [`CheckFault::Unknown`], [`CheckFault::NotInHand`] or [`CheckFault::Memory`], and the book is then as it was.
    pub fn give_back(&mut self, name: u64) -> Result<(), CheckFault>
        ensures step { GivesBack self.old name result self.new }
        ensures sound { IsSound self.new }
    {
        if name >= self.opened {
            return Err(CheckFault::Unknown);
        }
        let (worker, node) = self.hands.find(name).ok_or(CheckFault::NotInHand)?;
        if self.waiting.insert(name, node).is_err() {
            return Err(CheckFault::Memory);
        }
        self.hands.empty(worker);
        Ok(())
    }

    /// The project.
    pub fn project(&self) -> &Arc<Project>
        ensures project { arc_value result.now ≡ self.now.project }
        ensures sound { IsSound self.now }
    {
        &self.project
    }

    /// How many nodes there are and were.
    pub fn counts(&self) -> Counts
        ensures counts { result ≡ counts_of self.now }
        ensures add_up { AddUp result }
        ensures sound { IsSound self.now }
        ensures within { IsWithinLimits self.now }
    {
        Counts {
            opened: self.opened,
            checked: self.checked,
            cut: self.cut,
            taken: self.taken,
            waiting: self.waiting.len() as u64,
            hand: self.hands.count() as u64,
        }
    }

    /// The best schedule so far.
    pub fn best(&self) -> Option<&Schedule>
        ensures best { option_map (λ schedule. schedule.now) result ≡ self.now.best }
        ensures sound { IsSound self.now }
    {
        self.best.as_ref()
    }

    /// What became of each node, where the book was opened by [`Book::open_recorded`]. Once no node is open or in hand,
    /// it is a whole tree.
    pub fn trail(&self) -> Option<&SearchLog>
        ensures trail { option_map (λ trail. trail.now) result
            ≡ option_map (trail_for self.now.project) self.now.trail }
        ensures recorded { IfSome self.now.trail (IsRecorded self.now) }
        ensures whole { EndsWhole self.now }
    {
        self.trail.as_ref()
    }

    /// The trail of a book that is given up.
    pub fn into_trail(self) -> Option<SearchLog>
        ensures trail { result ≡ option_map (trail_for self.project) self.trail }
        ensures recorded { IfSome self.trail (IsRecorded self) }
        ensures whole { EndsWhole self }
    {
        let Book { trail, .. } = self;
        trail
    }

    /// The best schedule and the trail of a book that is given up, and the nodes that were left.
    pub fn into_parts(self) -> (Option<Schedule>, Option<SearchLog>, NodesLeft)
        ensures best { result.0 ≡ self.best }
        ensures trail { result.1 ≡ option_map (trail_for self.project) self.trail }
        ensures left { (result.2.waiting ≡ self.waiting) × (result.2.hands ≡ self.hands) }
        ensures sound { IsSound self }
        ensures recorded { IfSome self.trail (IsRecorded self) }
        ensures whole { EndsWhole self }
    {
        let Book {
            best,
            trail,
            waiting,
            hands,
            ..
        } = self;
        (best, trail, NodesLeft { waiting, hands })
    }

    /// The least of the best makespan and the bounds of the nodes open or in hand, in periods. No feasible schedule is
    /// shorter. None where there is none of these, and then there is no feasible schedule.
    pub fn lower_bound(&self) -> Option<i64>
        ensures least { IsLeast (known_bounds self.now) result }
        ensures bound { IsBoundFor self.now.project result }
    {
        lesser(
            makespan_of(&self.best),
            lesser(self.waiting.least_bound(), self.hands.least_bound()),
        )
    }

    /// What the book says of its project.
    pub fn verdict(&self) -> Verdict
        ensures verdict { IsVerdictOf self.now result }
        ensures holds { IsTrueVerdict self.now.project result }
    {
        let Some(bound) = self.lower_bound() else {
            return Verdict::NoSchedule;
        };
        if self.waiting.len() == 0 && self.hands.count() == 0 {
            return Verdict::Optimal { makespan: bound };
        }
        Verdict::Bound { bound }
    }
}
