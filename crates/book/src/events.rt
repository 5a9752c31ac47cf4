//! Lists of events, played on a book.

ghost use Rattle.std.specs.Prelude.{◌≡◌, IfOk, OnErr};
ghost use Rattle.book.specs.Sound.{IsSound};
ghost use Rattle.book.specs.Events.{Step, Run};

use crate::answers::{CheckFault, CheckedIn, OtherProject, Take};
use crate::book::Book;
use branching::Report;
use network::Schedule;
use std::alloc::{AllocError, Global};

/// What may be asked of a book.
#[derive(Drop, Debug)]
pub enum Request {
    /// A worker asks for a node.
    Take(usize),
    /// The report on the node of this name is checked in.
    CheckIn(u64, Report),
    /// The node of this name is given back.
    GiveBack(u64),
    /// A schedule is offered.
    Offer(Schedule),
    /// The search is to end.
    Halt,
}

/// What a book answers to an event: a variant for each kind.
#[derive(Drop, Debug)]
pub enum Response {
    Taken(Take),
    CheckedIn(Result<CheckedIn, (Report, CheckFault)>),
    GivenBack(Result<(), CheckFault>),
    Offered(Result<bool, (Schedule, OtherProject)>),
    Halted,
}

/// One event, and its reply.
fn apply(book: &mut Book, event: Request) -> Response
    ensures step { Step book.old event result book.new }
    ensures sound { IsSound book.new }
{
    match event {
        Request::Take(worker) => Response::Taken(book.take(worker)),
        Request::CheckIn(name, report) => Response::CheckedIn(book.check_in(name, report)),
        Request::GiveBack(name) => Response::GivenBack(book.give_back(name)),
        Request::Offer(schedule) => Response::Offered(book.offer(schedule)),
        Request::Halt => {
            book.halt();
            Response::Halted
        }
    }
}

/// Puts the events to a book, one after the other, whatever they are. Where there is no room for all replies, none was
/// put. An event that is itself refused for want of memory has that as its reply.
pub fn run_events(
    alloc: Global,
    book: &mut Book,
    events: Vec<Request>,
) -> Result<Vec<Response>, AllocError>
    ensures run { IfOk result (λ replies. Run book.old events.items replies.items book.new) }
    ensures unchanged { OnErr result (book.new ≡ book.old) }
    ensures sound { IsSound book.new }
{
    prove!(book.counts().cut <= book.counts().opened);
    let mut replies = Vec::with_capacity(alloc, events.len())?;
    for event in events {
        let reply = apply(book, event);
        replies.push_reserved(reply);
    }
    Ok(replies)
}
