//! Plays lists of events on search books. Tests compare the replies with those of a model.
//!
//! `book_events bench NODES [ROUNDS]` measures a book: one worker searches the project of standard input until so many
//! nodes are open. It prints the counts. ROUNDS is how many nodes to take after that; then it also prints the mean
//! nanoseconds of a take and of a check-in among those. All other words are played:
//!
//! Standard input is two projects, with a semicolon between. Each word is a step. The nodes are numbered: 0 and 1 are
//! the roots, and `expand` adds what it finds from them. The book is one of the first project.
//!
//! | Step | Does | Prints |
//! |---|---|---|
//! | `expand:NODE` | expands a node without a ceiling | its bound and pairs; the starts that it finds, if any; and the bound and pairs of each child |
//! | `starts:NODE` | rebuilds a node | its least starts |
//! | `open:WORKERS:EXPANDED`, `record:WORKERS:EXPANDED` | opens a new book, without and with a trail | `open` or `limit`, and the book's counts |
//! | `take:WORKER`, `check:NAME:NODE:CEILING`, `back:NAME`, `offer:STARTS`, `other:STARTS`, `halt` | one event | the reply, and the book's counts |
//! | `reuse:NAME:NODE:CEILING` | the same as `check` | the reply with the sizes of the lists that come back, and the book's counts |
//! | `search` | takes, expands and checks in until no node is handed out | what the worker 0 is told then, and the book's counts |
//! | `best`, `verdict`, `trail` | asks the book | the starts of its best schedule; its verdict; its trail |
//! | `close` | gives the book up for a new one | its trail |
//!
//! `check` checks in a report on a node, under a ceiling unless that is empty; `offer` offers a schedule of the first
//! project, `other` one of the second. The counts are: opened, checked in, cut, taken, open, in hand, best makespan,
//! lower bound.
#![tactic(auto)]

mod bench;
mod replies;
mod trails;

use anyhow::{Context, anyhow, bail};
use bench::bench;
use book::{Book, BookFault, Request, Take, run_events};
use branching::{OpenNode, Report, expand, open_root, rebuild};
use longest_path::{PathFault, least_starts};
use network::{Project, Schedule};
use replies::{accepted_text, pairs_text, reply_text, starts_text, take_text, told, verdict_text};
use sch_reader::read_sch;
use schedule_check::{accept, read_starts};
use std::alloc::{AllocError, Global};
use std::io::Read;
use std::sync::Arc;
use std::{env, mem};
use trails::trail_text;
use words::split_once;

/// Two projects, the nodes that were found of both, and the book of the first.
#[derive(Drop)]
struct EventPlayer {
    projects: [Arc<Project>; 2],
    nodes: Vec<Arc<OpenNode>>,
    book: Book,
}

/// The project that a text spells.
fn project(alloc: Global, text: &[u8]) -> anyhow::Result<Arc<Project>> {
    match read_sch(alloc, text) {
        Ok(project) => Ok(Arc::new(alloc, project)?),
        Err(_) => bail!("there is no project"),
    }
}

/// The root of a project; none where a closed walk of its rules has positive weight.
fn root_of(alloc: Global, project: &Arc<Project>) -> anyhow::Result<Option<Arc<OpenNode>>> {
    match open_root(alloc, Arc::try_clone(project)?) {
        Ok(root) => Ok(Some(root)),
        Err(PathFault::PositiveCycle { .. }) => Ok(None),
        Err(PathFault::Memory) => bail!("there is no memory for a root"),
    }
}

/// A new book of a project; none outside the limits.
fn opened(
    alloc: Global,
    project: &Arc<Project>,
    recorded: bool,
    rest: &str,
) -> anyhow::Result<Option<Book>> {
    let (workers, takes) = rest.split_once(':').context("how many takes?")?;
    let (workers, takes) = (workers.parse::<usize>()?, takes.parse::<u64>()?);
    let project = Arc::try_clone(project)?;
    let book = if recorded {
        Book::open_recorded(alloc, project, workers, takes)
    } else {
        Book::open(alloc, project, workers, takes)
    };
    match book {
        Ok(book) => Ok(Some(book)),
        Err(BookFault::Limit) => Ok(None),
        Err(BookFault::Memory) => bail!("there is no memory for a book"),
    }
}

/// A book for one worker that allows one take.
fn smallest(alloc: Global, project: &Arc<Project>) -> anyhow::Result<Book> {
    opened(alloc, project, false, "1:1")?.context("the smallest book is outside the limits")
}

/// The report on a node.
pub(crate) fn report_on(
    alloc: Global,
    node: &Arc<OpenNode>,
    ceiling: Option<i64>,
) -> Result<Report, AllocError> {
    expand(alloc, &rebuild(alloc, node)?, ceiling)
}

/// The report on the node of a number.
fn report_at(
    alloc: Global,
    nodes: &[Arc<OpenNode>],
    place: &str,
    ceiling: Option<i64>,
) -> anyhow::Result<Report> {
    let node = nodes.get(place.parse::<usize>()?).context("no such node")?;
    Ok(report_on(alloc, node, ceiling)?)
}

/// The schedule of these starts, with commas between.
fn schedule(alloc: Global, project: &Arc<Project>, text: &str) -> anyhow::Result<Schedule> {
    let mut lines = String::new(alloc);
    for (activity, start) in text.split(',').enumerate() {
        write!(lines, "{activity} {start}\n")?;
    }
    let Ok(starts) = read_starts(alloc, lines.as_bytes(), project.activity_count()) else {
        bail!("these are no starts");
    };
    match accept(alloc, Arc::try_clone(project)?, starts) {
        Ok(schedule) => Ok(schedule),
        Err(_) => bail!("this is no schedule"),
    }
}

/// The check-in that a step asks for: a name, a node and a ceiling.
fn check_in(alloc: Global, nodes: &[Arc<OpenNode>], rest: &str) -> anyhow::Result<(u64, Report)> {
    let (name, rest) = rest.split_once(':').context("which node?")?;
    let (node, ceiling) = rest.split_once(':').context("which ceiling?")?;
    let ceiling = if ceiling.is_empty() {
        None
    } else {
        Some(ceiling.parse::<i64>()?)
    };
    let report = report_at(alloc, nodes, node, ceiling)?;
    Ok((name.parse::<u64>()?, report))
}

/// The event that a step asks for.
fn event_of(alloc: Global, table: &EventPlayer, kind: &str, rest: &str) -> anyhow::Result<Request> {
    let [own, other] = &table.projects;
    match kind {
        "take" => Ok(Request::Take(rest.parse::<usize>()?)),
        "check" => {
            let (name, report) = check_in(alloc, &table.nodes, rest)?;
            Ok(Request::CheckIn(name, report))
        }
        "back" => Ok(Request::GiveBack(rest.parse::<u64>()?)),
        "offer" => Ok(Request::Offer(schedule(alloc, own, rest)?)),
        "other" => Ok(Request::Offer(schedule(alloc, other, rest)?)),
        "halt" => Ok(Request::Halt),
        _ => Err(anyhow!("an unknown step")),
    }
}

/// Prints the bound and the pairs of a node, after a word.
fn print_node(rt: &HostRuntime, word: &str, node: &OpenNode) -> anyhow::Result<()> {
    let (pairs, bound) = (pairs_text(rt.alloc(), node)?, node.bound());
    println!(rt; "{word} {bound}{pairs}")?;
    Ok(())
}

/// Prints the starts that an expansion found.
fn print_found(rt: &HostRuntime, found: &Schedule) -> anyhow::Result<()> {
    let starts = starts_text(rt.alloc(), found.starts())?;
    println!(rt; "found {starts}")?;
    Ok(())
}

/// Prints what came of an expansion, and keeps the children.
fn keep(rt: &HostRuntime, nodes: &mut Vec<Arc<OpenNode>>, report: &Report) -> anyhow::Result<()> {
    print_node(rt, "node", report.node())?;
    if let Some(found) = report.found() {
        print_found(rt, found)?;
    }
    for child in report.children() {
        print_node(rt, "kid", child)?;
        nodes.push(Arc::try_clone(child)?)?;
    }
    Ok(())
}

/// Expands a node, prints what comes of it, and keeps its children.
fn explore(rt: &HostRuntime, nodes: &mut Vec<Arc<OpenNode>>, place: &str) -> anyhow::Result<()> {
    let report = report_at(rt.alloc(), nodes, place, None)?;
    keep(rt, nodes, &report)
}

/// The least starts of a node.
fn least(alloc: Global, nodes: &[Arc<OpenNode>], place: &str) -> anyhow::Result<String> {
    let node = nodes.get(place.parse::<usize>()?).context("no such node")?;
    let node = rebuild(alloc, node)?;
    Ok(starts_text(alloc, &least_starts(alloc, node.matrix())?)?)
}

/// What a book replies to one event.
fn replied(alloc: Global, book: &mut Book, event: Request) -> anyhow::Result<String> {
    let mut events = Vec::new(alloc);
    events.push(event)?;
    let replies = run_events(alloc, book, events)?;
    let reply = replies.first().context("there is no reply")?;
    Ok(reply_text(alloc, reply)?)
}

/// What the table's book says to a report whose lists are to come back.
fn reused(alloc: Global, table: &mut EventPlayer, rest: &str) -> anyhow::Result<String> {
    let (name, report) = check_in(alloc, &table.nodes, rest)?;
    match table.book.check_in_for_reuse(name, report) {
        Ok((done, made)) => {
            let (children, fates) = (made.children.len(), made.fates.len());
            let done = accepted_text(alloc, &done)?;
            Ok(format!(in alloc; "{done}, {children} kids and {fates} fates come back")?)
        }
        Err(_) => bail!("the report is refused"),
    }
}

/// Lets worker 0 take nodes, and checks the reports on them in, until it gets another answer.
fn searched(alloc: Global, book: &mut Book) -> anyhow::Result<Take> {
    for _ in 0..100 {
        let ticket = match book.take(0) {
            Take::Ticket(ticket) => ticket,
            told => return Ok(told),
        };
        let report = report_on(alloc, &ticket.node, ticket.ceiling)?;
        if book.check_in(ticket.name, report).is_err() {
            bail!("a report is refused");
        }
    }
    bail!("the search goes on and on")
}

/// What worker 0 is told at the end of a search.
fn search(alloc: Global, book: &mut Book) -> anyhow::Result<String> {
    let told = searched(alloc, book)?;
    Ok(take_text(alloc, &told)?)
}

/// What the table's book replies to the event that a step asks for.
fn played(
    alloc: Global,
    table: &mut EventPlayer,
    kind: &str,
    rest: &str,
) -> anyhow::Result<String> {
    let event = event_of(alloc, table, kind, rest)?;
    replied(alloc, &mut table.book, event)
}

/// Opens the book that a step asks for, in the place of the table's: whether it is within the limits.
fn open(
    alloc: Global,
    table: &mut EventPlayer,
    kind: &str,
    rest: &str,
) -> anyhow::Result<&'static str> {
    let [own, _] = &table.projects;
    match opened(alloc, own, kind == "record", rest)? {
        Some(book) => {
            table.book = book;
            Ok("open")
        }
        None => Ok("limit"),
    }
}

/// Gives the table's book up for a new one: its trail.
fn closed(alloc: Global, table: &mut EventPlayer) -> anyhow::Result<String> {
    let [own, _] = &table.projects;
    let new = smallest(alloc, own)?;
    let old = mem::replace(&mut table.book, new);
    Ok(trail_text(alloc, old.into_trail().as_ref())?)
}

/// What the table's book says when it is asked.
fn asked(alloc: Global, book: &Book, kind: &str) -> anyhow::Result<String> {
    match (kind, book.best()) {
        ("best", None) => Ok(String::from_str(alloc, "-")?),
        ("best", Some(best)) => Ok(starts_text(alloc, best.starts())?),
        ("verdict", _) => Ok(verdict_text(alloc, book)?),
        _ => Ok(trail_text(alloc, book.trail())?),
    }
}

/// The reply to a step that changes the book or asks it.
fn answered(
    alloc: Global,
    table: &mut EventPlayer,
    kind: &str,
    rest: &str,
) -> anyhow::Result<String> {
    match kind {
        "starts" => least(alloc, &table.nodes, rest),
        "open" | "record" => Ok(String::from_str(alloc, open(alloc, table, kind, rest)?)?),
        "search" => search(alloc, &mut table.book),
        "best" | "verdict" | "trail" => asked(alloc, &table.book, kind),
        "close" => closed(alloc, table),
        "reuse" => reused(alloc, table, rest),
        _ => played(alloc, table, kind, rest),
    }
}

/// One step.
fn step(rt: &HostRuntime, table: &mut EventPlayer, word: &str) -> anyhow::Result<()> {
    let (kind, rest) = word.split_once(':').unwrap_or((word, ""));
    if kind == "expand" {
        return explore(rt, &mut table.nodes, rest);
    }
    let reply = answered(rt.alloc(), table, kind, rest)?;
    let told = told(rt.alloc(), &table.book)?;
    println!(rt; "{reply};{told}")?;
    Ok(())
}

/// Two projects, with a semicolon between.
fn both_projects(alloc: Global, text: &[u8]) -> anyhow::Result<[Arc<Project>; 2]> {
    let (own, other) = split_once(text, b';').context("there is one project")?;
    let own = project(alloc, own)?;
    Ok([own, project(alloc, other)?])
}

/// The roots of projects, of those that have one.
fn roots_of(alloc: Global, projects: &[Arc<Project>]) -> anyhow::Result<Vec<Arc<OpenNode>>> {
    let mut nodes = Vec::new(alloc);
    for project in projects {
        if let Some(root) = root_of(alloc, project)? {
            nodes.push(root)?;
        }
    }
    Ok(nodes)
}

/// The roots of two projects, and a book of the first.
fn table_of(alloc: Global, text: &[u8]) -> anyhow::Result<EventPlayer> {
    let projects = both_projects(alloc, text)?;
    let nodes = roots_of(alloc, &projects)?;
    let book = smallest(alloc, &projects[0])?;
    Ok(EventPlayer {
        projects,
        nodes,
        book,
    })
}

/// Plays the words on a table.
fn play(rt: &HostRuntime, table: &mut EventPlayer, words: &[String]) -> anyhow::Result<()> {
    for word in words {
        step(rt, table, word)?;
    }
    Ok(())
}

fn main(rt: HostRuntime) -> anyhow::Result<()> {
    let alloc = rt.alloc();
    let words = env::args(&rt)?.collect::<Vec<String>>(alloc)?;
    let mut text = Vec::new(alloc);
    rt.reader().read_to_end(&mut text)?;
    match words.as_slice() {
        [_, word, nodes, rounds @ ..] if word.as_str() == "bench" => {
            let rounds = rounds.first().map(|word| word.as_str());
            bench(&rt, project(alloc, &text)?, nodes, rounds)
        }
        [_, words @ ..] => play(&rt, &mut table_of(alloc, &text)?, words),
        [] => bail!("there is no name"),
    }
}
