//! What a book answers, as words.

use book::{Book, CheckFault, CheckedIn, Response, Take, Ticket};
use branching::OpenNode;
use network::{Pair, Verdict};
use std::alloc::{AllocError, Global};

/// A number, or a dash.
fn or_dash(alloc: Global, number: Option<i64>) -> Result<String, AllocError> {
    match number {
        Some(number) => format!(in alloc; "{number}"),
        None => String::from_str(alloc, "-"),
    }
}

/// Pairs, with a blank before each.
pub fn list_text(alloc: Global, pairs: &[Pair]) -> Result<String, AllocError> {
    let mut text = String::new(alloc);
    for pair in pairs {
        text.push_str(&format!(in alloc; " {}-{}", pair.before, pair.after)?)?;
    }
    Ok(text)
}

/// Starts, with a blank between.
pub fn starts_text(alloc: Global, starts: &[i64]) -> Result<String, AllocError> {
    let mut text = String::new(alloc);
    for start in starts {
        if !text.is_empty() {
            text.push_str(" ")?;
        }
        text.push_str(&format!(in alloc; "{start}")?)?;
    }
    Ok(text)
}

/// The pairs of a node, with a blank before each.
pub fn pairs_text(alloc: Global, node: &OpenNode) -> Result<String, AllocError> {
    list_text(alloc, &node.pairs().to_vec(alloc)?)
}

/// The name of a node that is handed out, the ceiling, its bound and its pairs.
fn ticket_text(alloc: Global, ticket: &Ticket) -> Result<String, AllocError> {
    let ceiling = or_dash(alloc, ticket.ceiling)?;
    let pairs = pairs_text(alloc, &ticket.node)?;
    let bound = ticket.node.bound();
    format!(in alloc; "ticket {} {ceiling} {bound}{pairs}", ticket.name)
}

/// The answer to a worker that asks for a node.
pub fn take_text(alloc: Global, answer: &Take) -> Result<String, AllocError> {
    let word = match answer {
        Take::Ticket(ticket) => return ticket_text(alloc, ticket),
        Take::NoSuchWorker => "nobody",
        Take::HandsFull => "full",
        Take::Halted => "halted",
        Take::Done => "done",
        Take::Idle => "idle",
        Take::LimitReached => "limit",
    };
    String::from_str(alloc, word)
}

fn fault_text(alloc: Global, fault: &CheckFault) -> Result<String, AllocError> {
    let word = match fault {
        CheckFault::Unknown => "unknown",
        CheckFault::NotInHand => "gone",
        CheckFault::OtherNode => "other node",
        CheckFault::OtherProject => "other project",
        CheckFault::AheadOfBook { best } => {
            let best = or_dash(alloc, *best)?;
            return format!(in alloc; "ahead {best}");
        }
        CheckFault::Memory => "memory",
    };
    String::from_str(alloc, word)
}

/// What an accepted report did.
pub fn accepted_text(alloc: Global, done: &CheckedIn) -> Result<String, AllocError> {
    let opened = done.opened;
    let improved = if done.improved {
        "improved"
    } else {
        "as before"
    };
    format!(in alloc; "opened {opened} {improved}")
}

/// What a book replies to an event.
pub fn reply_text(alloc: Global, reply: &Response) -> Result<String, AllocError> {
    let word = match reply {
        Response::Taken(answer) => return take_text(alloc, answer),
        Response::CheckedIn(Ok(done)) => return accepted_text(alloc, done),
        Response::CheckedIn(Err((_, fault))) => return fault_text(alloc, fault),
        Response::GivenBack(Err(fault)) => return fault_text(alloc, fault),
        Response::GivenBack(Ok(())) => "back",
        Response::Offered(Ok(true)) => "shorter",
        Response::Offered(Ok(false)) => "kept",
        Response::Offered(Err((back, _))) => {
            let starts = starts_text(alloc, back.starts())?;
            return format!(in alloc; "other project {starts}");
        }
        Response::Halted => "halt",
    };
    String::from_str(alloc, word)
}

/// The counts of a book, its best makespan and its lower bound.
pub fn told(alloc: Global, book: &Book) -> Result<String, AllocError> {
    let best = or_dash(alloc, book.best().map(|best| best.makespan()))?;
    let bound = or_dash(alloc, book.lower_bound())?;
    let all = book.counts();
    format!(in alloc;
        "{} {} {} {} {} {} {best} {bound}",
        all.opened, all.checked, all.cut, all.taken, all.waiting, all.hand
    )
}

/// What a book says of its project: of an open search the best makespan and the bound.
pub fn verdict_text(alloc: Global, book: &Book) -> Result<String, AllocError> {
    match book.verdict() {
        Verdict::Optimal { makespan } => format!(in alloc; "optimal {makespan}"),
        Verdict::NoSchedule => String::from_str(alloc, "no schedule"),
        Verdict::Bound { bound } => {
            let best = or_dash(alloc, book.best().map(|best| best.makespan()))?;
            format!(in alloc; "open {best} {bound}")
        }
    }
}
