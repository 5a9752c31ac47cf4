//! Whether an activity alone asks for more of a resource than there is.

ghost use Rattle.std.specs.Prelude.{◌≡◌, ◌<◌};
ghost use Rattle.network.specs.Problem.{activity_count, resource_count};
ghost use Rattle.lemma_book.specs.Ledger.{asks_too_much, exceeds, exceeds_some};

use network::Project;

/// Whether an activity takes time and asks for more of the resource than there is.
fn exceeds(project: &Project, activity: usize, resource: usize) -> bool
    requires activity { activity < activity_count project.now }
    requires resource { resource < resource_count project.now }
    ensures { result ≡ exceeds project.now activity resource }
{
    0 < project.duration(activity)
        && project.capacity(resource) < project.demand(resource, activity)
}

/// Whether it asks for more of some resource than there is.
fn exceeds_some(project: &Project, activity: usize) -> bool
    requires { activity < activity_count project.now }
    ensures { result ≡ exceeds_some project.now activity }
{
    (0..project.resource_count()).any(|resource| exceeds(project, activity, resource))
}

/// Whether some activity does.
pub(crate) fn asks_too_much(project: &Project) -> bool
    ensures { result ≡ asks_too_much project.now }
{
    (0..project.activity_count()).any(|activity| exceeds_some(project, activity))
}
