//! A project within the limits.

ghost use Rattle.std.specs.Prelude.{◌≡◌, map, ◌↔◌, ◌<◌, ◌≤ℤ◌, pos, length, slice_index_or, [], ◌∷◌, IsTrue, IfOk, IfErr, OnErr, Some};
ghost use Rattle.std.specs.Ordering.{int_eq};
ghost use Rattle.std.specs.Cmp.Lexicographic.{pointwise};
ghost use Rattle.network.specs.Problem.{problem_of, activity_count, resource_count, duration, demand, capacity, pair_arc, arcs_of, NameActivities, IsAmount, IsLag, IsProject};
ghost use Rattle.network.specs.Equality.{lag_eq, problem_eq};
ghost use Rattle.network.specs.declared.limits.TheConstants.{MAX_AMOUNT};

use crate::arcs::{push_end_arcs, push_pair_arcs, push_start_arcs};
use crate::faults::check;
use crate::parts::{Lag, Pair, Parts, ProjectFault};
use std::alloc::{AllocError, Global};
use std::marker::Model;

/// Whether the rows are the same.
#[tactic(auto, using(crate::proofs::Equal::pointwise_map))]
fn rows_equal(left: &[Vec<i64>], right: &[Vec<i64>]) -> bool
    ensures { result
        ≡ pointwise (pointwise int_eq) (map (λ row. row.items) left.now) (map (λ row. row.items) right.now) }
{
    left == right
}

/// Whether the arcs are the same.
fn lags_equal(left: &[Lag], right: &[Lag]) -> bool
    ensures { result ≡ pointwise lag_eq left.now right.now }
{
    left == right
}

/// Whether the four lists are the same.
pub(crate) fn parts_equal(left: &Parts, right: &Parts) -> bool
    ensures { result ≡ problem_eq (problem_of left.now) (problem_of right.now) }
{
    left.durations == right.durations
        && rows_equal(&left.demands, &right.demands)
        && left.capacities == right.capacities
        && lags_equal(&left.lags, &right.lags)
}

/// A project within the limits. It has at most 1,000 activities besides the start and the end, 32 resources and 100,000
/// given arcs. Durations, demands and capacities are 0 to 1,000,000, lags -1,000,000 to 1,000,000.
#[derive(Drop, Debug)]
pub struct Project {
    parts: Parts,
}

impl Model for Project {
    ghost use Rattle.network.specs.Problem.{Problem};

    ghost Value = { Problem };

    ghost use Rattle.network.specs.Problem.{problem_of, IsProject};

    ghost view = { λ s. problem_of s.parts };

    ghost invariant = { λ s. IsProject (problem_of s.parts) };
}

impl Project {
    ghost use Rattle.network.specs.Problem.{problem_of};
    ghost use Rattle.network.specs.Faults.{first_fault};

    /// The project of the parts, or their first fault. The tests are in this order: the shape of the lists, their
    /// lengths, the start, the end, the amounts, the given arcs in order.
    pub fn new(parts: Parts) -> Result<Self, ProjectFault>
        ensures project { IfOk result (λ p. p ≡ problem_of parts) }
        ensures limits { IfOk result (λ p. IsProject p) }
        ensures fault { IfErr result (λ fault. first_fault (problem_of parts) ≡ Some fault) }
        ensures refused { OnErr result (¬ IsProject (problem_of parts)) }
    {
        check(&parts)?;
        Ok(Project { parts })
    }

    /// The durations of all activities.
    pub fn durations(&self) -> &[i64]
        ensures value { result.now ≡ self.now.durations }
        ensures limits { IsProject self.now }
    {
        self.parts.durations.as_slice()
    }

    /// The capacities of all resources.
    pub fn capacities(&self) -> &[i64]
        ensures value { result.now ≡ self.now.capacities }
        ensures limits { IsProject self.now }
    {
        self.parts.capacities.as_slice()
    }

    /// The given arcs, in order.
    pub fn lags(&self) -> &[Lag]
        ensures value { result.now ≡ self.now.lags }
        ensures limits { IsProject self.now }
    {
        self.parts.lags.as_slice()
    }

    /// The demands of an activity, for each resource.
    pub fn demands(&self, activity: usize) -> &[i64]
        requires { activity < activity_count self.now }
        ensures value { result.now ≡ slice_index_or self.now.demands activity [] }
        ensures count { length result.now ≡ resource_count self.now }
        ensures limits { IsProject self.now }
    {
        self.parts.demands[activity].as_slice()
    }

    /// How many activities there are, the start and the end among them.
    pub fn activity_count(&self) -> usize
        ensures value { result ≡ activity_count self.now }
        ensures limits { IsProject self.now }
    {
        self.parts.durations.len()
    }

    /// How many resources there are.
    pub fn resource_count(&self) -> usize
        ensures value { result ≡ resource_count self.now }
        ensures limits { IsProject self.now }
    {
        self.parts.capacities.len()
    }

    /// How long an activity takes.
    pub fn duration(&self, activity: usize) -> i64
        requires { activity < activity_count self.now }
        ensures value { result ≡ duration self.now activity }
        ensures amount { IsAmount result }
        ensures limits { IsProject self.now }
    {
        self.parts.durations[activity]
    }

    /// How many units of a resource an activity uses while it runs.
    pub fn demand(&self, resource: usize, activity: usize) -> u64
        requires resource { resource < resource_count self.now }
        requires activity { activity < activity_count self.now }
        ensures value { result ≡ demand self.now resource activity }
        ensures amount { pos result ≤ℤ MAX_AMOUNT }
        ensures limits { IsProject self.now }
    {
        self.demands(activity)[resource].unsigned_abs()
    }

    /// How many units of a resource there are.
    pub fn capacity(&self, resource: usize) -> u64
        requires { resource < resource_count self.now }
        ensures value { result ≡ capacity self.now resource }
        ensures amount { pos result ≤ℤ MAX_AMOUNT }
        ensures limits { IsProject self.now }
    {
        self.parts.capacities[resource].unsigned_abs()
    }

    /// The arc that a pair stands for: the first activity ends before the second starts.
    pub fn pair_arc(&self, pair: Pair) -> Lag
        requires { NameActivities self.now (pair ∷ []) }
        ensures arc { result ≡ pair_arc self.now pair }
        ensures inside { IsLag (activity_count self.now) result }
        ensures limits { IsProject self.now }
    {
        Lag {
            from: pair.before,
            to: pair.after,
            weight: self.duration(pair.before),
        }
    }

    /// The rules: the given arcs, the arcs from the start and to the end, and then an arc for each pair.
    pub fn arcs(&self, alloc: Global, pairs: &[Pair]) -> Result<Vec<Lag>, AllocError>
        requires { NameActivities self.now pairs.now }
        ensures value { IfOk result (λ v. v.items ≡ arcs_of self.now pairs.now) }
        ensures limits { IsProject self.now }
    {
        let durations = self.durations();
        let end = durations.len() - 1;
        let mut arcs = Vec::from_slice(alloc, self.lags())?;
        push_start_arcs(&mut arcs, end)?;
        push_end_arcs(&mut arcs, durations, end)?;
        push_pair_arcs(&mut arcs, durations, pairs)?;
        Ok(arcs)
    }

    /// Whether the projects are the same, by value.
    pub fn is_same(&self, other: &Project) -> bool
        ensures { IsTrue result ↔ (self.now ≡ other.now) }
    {
        self == other
    }
}

/// Projects are equal where their four lists are.
impl PartialEq for Project {
    ghost use Rattle.std.specs.Cmp.{partial_equiv_from_equiv};
    ghost use Rattle.network.specs.Equality.{problem_eq, problem_eq_equiv};

    ghost eq = { problem_eq };

    ghost laws = { partial_equiv_from_equiv problem_eq_equiv };

    fn eq(&self, other: &Project) -> bool {
        parts_equal(&self.parts, &other.parts)
    }
}

impl Eq for Project {
    ghost use Rattle.network.specs.Equality.{problem_eq_equiv};

    ghost laws = { problem_eq_equiv };
}
