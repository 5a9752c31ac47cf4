//! A minimal forbidden set of one resource.

ghost use Rattle.std.specs.Prelude.{◌≡◌, ◌<◌, ◌≤◌, ◌+◌, length};
ghost use Rattle.std.specs.List.{All, sum};
ghost use Rattle.std.specs.List.Sorted.{IsStrictlyIncreasing};

use smallvec::SmallVec;
use std::marker::Model;

/// Activities that together need more of a resource than there is, but not without any one of them. A minimal forbidden
/// set of Bartusch, Möhring and Radermacher (1988) is minimal for all resources; this one is minimal for one.
#[derive(Drop, Debug)]
pub struct ForbiddenSet {
    resource: usize,
    capacity: u64,
    members: SmallVec<usize, 8>,
    demands: SmallVec<u64, 8>,
}

impl Model for ForbiddenSet {
    ghost use Rattle.forbidden_sets.specs.MinimalSet.{MinimalSet, IsMinimalSet};

    ghost Value = { MinimalSet };

    ghost use Rattle.forbidden_sets.specs.MinimalSet.{minimal_set_of};

    ghost view = { minimal_set_of };

    ghost invariant = { λ set. IsMinimalSet (minimal_set_of set) };
}

impl ForbiddenSet {
    ghost use Rattle.forbidden_sets.specs.MinimalSet.{MinimalSet, set_of, IsMinimalSet};

    /// The set of these members and demands.
    pub(crate) fn new(
        resource: usize,
        capacity: u64,
        members: SmallVec<usize, 8>,
        demands: SmallVec<u64, 8>,
    ) -> ForbiddenSet
        requires { IsMinimalSet (set_of resource capacity members.items demands.items) }
        ensures { result ≡ set_of resource capacity members.items demands.items }
    {
        ForbiddenSet {
            resource,
            capacity,
            members,
            demands,
        }
    }

    /// The resource that the set is forbidden for.
    pub fn resource(&self) -> usize
        ensures { result ≡ self.now.resource }
    {
        self.resource
    }

    /// How much of the resource there is.
    pub fn capacity(&self) -> u64
        ensures { result ≡ self.now.capacity }
    {
        self.capacity
    }

    /// The members, rising.
    pub fn members(&self) -> &[usize]
        ensures members { result.now ≡ self.now.members }
        ensures minimal { IsMinimalSet self.now }
    {
        self.members.as_slice()
    }

    /// What each member needs.
    pub fn demands(&self) -> &[u64]
        ensures demands { result.now ≡ self.now.demands }
        ensures minimal { IsMinimalSet self.now }
    {
        self.demands.as_slice()
    }
}
