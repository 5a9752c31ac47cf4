//! The lists of a report, which a searcher uses again.

ghost use Rattle.std.specs.Prelude.{◌≡◌};
ghost use Rattle.std.specs.Arc.{arc_value};

use crate::projects::one_machine;
use branching::{Branches, OpenNode, Searcher, root};
use std::alloc::{AllocError, Global};
use std::sync::Arc;
use std::test::Fail;

/// Empty lists with room for so many children and fates.
fn lists(alloc: Global, count: usize) -> Result<Branches, AllocError> {
    let children = Vec::with_capacity(alloc, count)?;
    let fates = Vec::with_capacity(alloc, count)?;
    Ok(Branches { children, fates })
}

/// For how many children and fates the lists of a report have room, where lists for so many were handed back before.
fn room_after(
    alloc: Global,
    searcher: &mut Searcher,
    node: &Arc<OpenNode>,
    count: usize,
) -> Result<[usize; 2], AllocError>
    requires { searcher.old.project ≡ (arc_value node.now).project }
{
    searcher.reuse(lists(alloc, count)?);
    let (_, made) = searcher.expand(alloc, node, None)?.into_parts();
    Ok([made.children.capacity(), made.fates.capacity()])
}

/// The same of a new searcher at a node. It is in a box, as its drop is long to prove.
fn room_at(alloc: Global, node: &Arc<OpenNode>, count: usize) -> Result<[usize; 2], AllocError> {
    let mut searcher = Box::new(alloc, Searcher::for_node(alloc, node)?)?;
    room_after(alloc, &mut searcher, node, count)
}

#[test]
fn lists_are_used_again(rt: HostRuntime) -> Result<(), Fail> {
    let project = Arc::new(rt.alloc(), one_machine(rt.alloc(), &[])?)?;
    let root = root(rt.alloc(), project)?;
    let room = room_at(rt.alloc(), root.open_node(), 100)?;
    assert_eq!(rt; room, [100, 100]);
    Ok(())
}
