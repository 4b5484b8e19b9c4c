//! Laws of the definitions, each the contract of a function that does nothing.
ghost use Rattle.std.specs.Prelude.{ℕ, List, Option};
ghost use Rattle.road_base.specs.Objects.{Objects};
ghost use Rattle.road_base.specs.declared.ids.NodeId.{NodeId};
ghost use Rattle.road_model.specs.Pieces.{Span};
ghost use Rattle.least_cost.specs.Certified.{Certified, IsLeastFor, HasCosts};

use context_search::laws::drives_over;
use road_base::NodeId;
use road_model::Profile;

/// Every legal drive between two nodes has a cost.
pub fn drives_cost<P: Profile>(profile: &P)
    ensures { (M : Objects) (a b : NodeId) → HasCosts M (P.rules profile.now) a b }
{}

/// Numbers at the contexts that are certified show what they are for: no legal drive from a to b costs less than the
/// cost, and where there is no cost, there is no such drive.
pub fn certified_is_least<P: Profile>(profile: &P, a: NodeId, b: NodeId, cost: Option<u128>)
    ensures { (M : Objects) (pi : List Span → Option ℕ) → Certified M (P.rules profile.now) a b cost pi
        → IsLeastFor M (P.rules profile.now) a b cost }
{
    drives_cost(profile);
    drives_over(profile);
}
