//! Ceilings: a makespan that is known, if one is. Only what is below it is looked for.

ghost use Rattle.std.specs.Prelude.{◌≡◌, ◌++◌, List, ℤ};
ghost use Rattle.std.specs.Bool.{OnTrue, OnFalse};
ghost use Rattle.branching.specs.Right.{is_below, IsUnder, Reaches, IsInTime, IsLeast};
ghost use Rattle.branching.specs.Fair.{ceiling_of};

use network::Schedule;

/// The ceiling that the best schedule gives: its makespan, in periods.
pub fn makespan_of(best: &Option<Schedule>) -> Option<i64>
    ensures { result ≡ ceiling_of best.now }
{
    match best {
        Some(best) => Some(best.makespan()),
        None => None,
    }
}

/// Whether a bound or a makespan is below the ceiling, if there is one.
pub fn is_below(number: i64, ceiling: Option<i64>) -> bool
    ensures value { result ≡ is_below ceiling number }
    ensures below { OnTrue result (IsUnder ceiling number) }
    ensures reached { OnFalse result (Reaches ceiling number) }
{
    match ceiling {
        None => true,
        Some(ceiling) => number < ceiling,
    }
}

/// The lesser of two numbers that may be missing.
pub fn lesser(a: Option<i64>, b: Option<i64>) -> Option<i64>
    ensures { (xs ys : List ℤ) → IsLeast xs a → IsLeast ys b → IsLeast (xs ++ ys) result }
{
    match (a, b) {
        (Some(left), Some(right)) => Some(left.min(right)),
        (None, b) => b,
        (a, None) => a,
    }
}

/// Whether what was left out under the ceiling is not shorter than the best.
pub fn is_in_time(ceiling: Option<i64>, best: Option<i64>) -> bool
    ensures yes { OnTrue result (IsInTime ceiling best) }
    ensures no { OnFalse result (¬ IsInTime ceiling best) }
{
    match (ceiling, best) {
        (None, _) => true,
        (Some(_), None) => false,
        (Some(ceiling), Some(best)) => best <= ceiling,
    }
}
