//! Measures the search book: one worker searches a project until so many nodes are open.

use crate::report_on;
use anyhow::bail;
use book::{Book, Take, Ticket};
use branching::Report;
use network::Project;
use plain_search::MAX_EXPANDED;
use std::sync::Arc;
use std::time::{Duration, Instant};

/// How long the calls of a book took.
#[derive(Clone, Copy)]
struct Spent {
    takes: Duration,
    check_ins: Duration,
}

impl Spent {
    fn new() -> Spent {
        Spent {
            takes: Duration::ZERO,
            check_ins: Duration::ZERO,
        }
    }
}

/// Takes a node for the worker.
fn take(rt: &HostRuntime, book: &mut Book, spent: &mut Spent) -> anyhow::Result<Take> {
    let start = Instant::now(rt)?;
    let answer = book.take(0);
    spent.takes = spent.takes.saturating_add(start.elapsed(rt)?);
    Ok(answer)
}

/// Checks the worker's report in.
fn check_in(
    rt: &HostRuntime,
    book: &mut Book,
    spent: &mut Spent,
    name: u64,
    report: Report,
) -> anyhow::Result<()> {
    let start = Instant::now(rt)?;
    let is_accepted = book.check_in(name, report).is_ok();
    spent.check_ins = spent.check_ins.saturating_add(start.elapsed(rt)?);
    if !is_accepted {
        bail!("a report was refused");
    }
    Ok(())
}

/// Expands a node that was taken, and checks the report on it in.
fn work_on(
    rt: &HostRuntime,
    book: &mut Book,
    spent: &mut Spent,
    ticket: &Ticket,
) -> anyhow::Result<()> {
    let report = report_on(rt.alloc(), &ticket.node, ticket.ceiling)?;
    check_in(rt, book, spent, ticket.name, report)
}

/// The worker takes a node, expands it and checks its report in. False where no node is handed out.
fn search_once(rt: &HostRuntime, book: &mut Book, spent: &mut Spent) -> anyhow::Result<bool> {
    let Take::Ticket(ticket) = take(rt, book, spent)? else {
        return Ok(false);
    };
    work_on(rt, book, spent, &ticket)?;
    Ok(true)
}

/// Lets the worker search until so many nodes are open.
fn fill(rt: &HostRuntime, book: &mut Book, nodes: u64) -> anyhow::Result<()> {
    let mut spent = Spent::new();
    for _ in 0..MAX_EXPANDED {
        if book.counts().waiting >= nodes || !search_once(rt, book, &mut spent)? {
            break;
        }
    }
    Ok(())
}

/// Lets the worker search so many nodes, and prints how long the calls took.
fn measure(rt: &HostRuntime, book: &mut Book, rounds: u64) -> anyhow::Result<()> {
    let mut spent = Spent::new();
    let mut done: u128 = 0;
    for _ in 0..rounds {
        if !search_once(rt, book, &mut spent)? {
            break;
        }
        done = done.saturating_add(1);
    }
    if done > 0 {
        let take = spent.takes.as_nanos() / done;
        let check_in = spent.check_ins.as_nanos() / done;
        println!(rt; "of {done} nodes: take {take} ns, check-in {check_in} ns")?;
    }
    Ok(())
}

fn print_counts(rt: &HostRuntime, book: &Book) -> anyhow::Result<()> {
    let all = book.counts();
    println!(rt;
        "opened {}, checked in {}, cut {}, taken {}, open {}, in hand {}",
        all.opened, all.checked, all.cut, all.taken, all.waiting, all.hand
    )?;
    Ok(())
}

/// Fills a book, and then measures the calls of `rounds` nodes, if there are any. Prints the counts after each of these.
fn fill_and_measure(
    rt: &HostRuntime,
    book: &mut Book,
    nodes: &str,
    rounds: Option<&str>,
) -> anyhow::Result<()> {
    fill(rt, book, nodes.parse::<u64>()?)?;
    print_counts(rt, book)?;
    if let Some(rounds) = rounds {
        measure(rt, book, rounds.parse::<u64>()?)?;
        print_counts(rt, book)?;
    }
    Ok(())
}

/// Fills a book of the project. With `rounds` it then measures the calls of so many nodes. It prints the counts of the book,
/// and the mean nanoseconds of a take and of a check-in.
pub(crate) fn bench(
    rt: &HostRuntime,
    project: Arc<Project>,
    nodes: &str,
    rounds: Option<&str>,
) -> anyhow::Result<()> {
    match Book::open(rt.alloc(), project, 1, MAX_EXPANDED) {
        Ok(mut book) => fill_and_measure(rt, &mut book, nodes, rounds),
        Err(_) => bail!("the book can't be opened"),
    }
}
