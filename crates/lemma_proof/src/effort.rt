//! What it takes to look through the arcs of a block, one by one.

ghost use Rattle.std.specs.Prelude.{◌≡◌, ◌≤◌};

use network::Lag;

/// So many arcs for each activity are looked through at most.
const MOST_EACH: usize = 4;

/// How many arcs are looked through, those that touch no 0, and what that took so far. Each weight that is asked for takes a
/// step for each arc.
#[derive(Clone, Copy, Debug)]
pub(crate) struct Effort {
    arcs: usize,
    steps: usize,
}

impl Effort {
    /// That of a block without arcs.
    pub(crate) fn none() -> Effort
        ensures { result ≡ record { arcs = 0; steps = 0 } }
    {
        Effort { arcs: 0, steps: 0 }
    }

    /// With an arc more.
    pub(crate) fn with_arc(self, arc: Lag) -> Effort
        ensures { self.arcs ≤ result.arcs }
    {
        if arc.from == 0 || arc.to == 0 {
            return self;
        }
        Effort {
            arcs: self.arcs.saturating_add(1),
            ..self
        }
    }

    /// With so many weights more that are asked for.
    pub(crate) fn with_weights(self, count: usize) -> Effort
        ensures { self.steps ≤ result.steps }
    {
        let steps = count.saturating_mul(self.arcs);
        Effort {
            steps: self.steps.saturating_add(steps),
            ..self
        }
    }

    /// Whether the matrix of all arcs of so many activities takes no more: as many steps for each arc as it has entries.
    pub(crate) fn is_spent(self, activities: usize) -> bool {
        let most_arcs = activities.saturating_mul(MOST_EACH);
        let entries = activities.saturating_mul(activities);
        most_arcs < self.arcs || entries.saturating_mul(self.arcs) < self.steps
    }
}
