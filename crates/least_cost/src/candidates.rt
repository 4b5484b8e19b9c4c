//! The drives that a search by cost has found.
ghost use Rattle.std.specs.Prelude.{◌≡◌, IfOk};
ghost use Rattle.least_cost.specs.CostVisits.{IsLesser, cost_in};

use context_search::{Begin, Goal};

/// How a drive that was found comes to the goal.
#[derive(Clone, Copy, Drop)]
pub enum FoundEnd<'a> {
    /// Within one piece, from the step where it begins.
    Within(Begin<'a>, Goal<'a>),
    /// By an arc from the context of the visit at this place.
    Over(usize, Goal<'a>),
}

/// A drive that was found, and its cost.
#[derive(Clone, Copy, Drop)]
pub struct Candidate<'a> {
    pub cost: u128,
    pub end: FoundEnd<'a>,
}

/// The cost of what was found.
pub fn cost_in(best: &Option<Candidate<'_>>) -> Option<u128>
    ensures { result ≡ cost_in best.now }
{
    match best {
        Some(found) => Some(found.cost),
        None => None,
    }
}

/// The one that costs less.
pub fn lesser<'a>(best: Option<Candidate<'a>>, other: Candidate<'a>) -> Option<Candidate<'a>>
    ensures { IsLesser best.entry other.entry result }
{
    match best {
        Some(found) => {
            if found.cost <= other.cost {
                Some(found)
            } else {
                Some(other)
            }
        }
        None => Some(other),
    }
}
