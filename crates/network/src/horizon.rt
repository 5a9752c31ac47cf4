//! The horizon, and the law that it suffices.

ghost use Rattle.std.specs.Prelude.{◌≡◌, ◌<◌, ◌≤ℤ◌, pos};
ghost use Rattle.network.specs.Problem.{IsAmount, activity_count};
ghost use Rattle.network.specs.Horizon.{HorizonSuffices, horizon, stretch};

use crate::{MAX_ACTIVITIES, MAX_AMOUNT, Project};

/// The greatest horizon of a project, in periods.
pub const MAX_HORIZON: i64 = MAX_ACTIVITIES as i64 * MAX_AMOUNT;

/// The stretch of an activity.
fn stretch_of(project: &Project, activity: usize) -> i64
    requires { activity < activity_count project.now }
    ensures value { result ≡ pos (stretch project.now activity) }
    ensures amount { IsAmount result }
{
    let mut longest = project.duration(activity);
    for lag in project.lags() {
        if lag.from == activity {
            longest = longest.max(lag.weight);
        }
    }
    longest
}

/// The horizon of a project, in periods.
pub fn horizon_of(project: &Project) -> i64
    ensures value { result ≡ pos (horizon project.now) }
    ensures small { result ≤ℤ MAX_HORIZON }
{
    let mut sum = 0;
    for activity in 0..project.activity_count() {
        sum += stretch_of(project, activity);
    }
    sum
}

/// A law over the definitions: a project that has a feasible schedule has one that ends by the horizon.
pub fn horizon_law()
    ensures { HorizonSuffices }
{}
