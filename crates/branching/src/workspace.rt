//! The buffers of an expansion.

ghost use Rattle.std.specs.Prelude.{IfOk};
ghost use Rattle.branching.specs.Path.{HasRoomFor};

use crate::branches::Branches;
use network::{Pair, Project};
use profile::OverloadSweep;
use std::alloc::{AllocError, Global};

/// The memory that the expansions of a project's nodes share.
#[derive(Drop, Debug)]
pub(crate) struct ExpansionWorkspace {
    pub(crate) bounds: bounds::Workspace,
    pub(crate) overloads: OverloadSweep,
    /// Lists that each expansion fills anew.
    pub(crate) starts: Vec<i64>,
    pub(crate) pairs: Vec<Pair>,
    pub(crate) made: Branches,
}

impl ExpansionWorkspace {
    /// Room for the nodes of a project.
    pub(crate) fn new(alloc: Global, project: &Project) -> Result<ExpansionWorkspace, AllocError>
        ensures { IfOk result (HasRoomFor project.now) }
    {
        let bounds = bounds::Workspace::new(alloc, project)?;
        let overloads = OverloadSweep::new(alloc, project)?;
        Ok(ExpansionWorkspace {
            bounds,
            overloads,
            starts: Vec::new(alloc),
            pairs: Vec::new(alloc),
            made: Branches::new(alloc),
        })
    }
}
