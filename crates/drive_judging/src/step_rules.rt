//! The rules that speak of a step alone, or of it and the step before.
ghost use Rattle.std.specs.Prelude.{◌≡◌, ◌∷◌, ◌++◌, [], List, IfSome, IfNone, IsTrue};
ghost use Rattle.road_base.specs.declared.ids.Step.{Step};
ghost use Rattle.road_model.specs.declared.answers.Access.{Access};
ghost use Rattle.road_model.specs.Driving.{Passes, drivable};
ghost use Rattle.road_model.specs.Networks.{made_on, map_of, on};
ghost use Rattle.road_model.specs.Broken.{IsAnswered, IsBehind};
ghost use Rattle.drive_judging.specs.Verdicts.{broken_rule};
ghost use Rattle.drive_judging.specs.Judging.{Breaks, Follows, closing};
ghost use Rattle.drive_judging.specs.DriveLines.{AreLinesOn, IsLineIn};
ghost use Rattle.drive_judging.specs.DeadEnds.{AreLeaving};

use crate::drive_lines::ends_in;
use crate::turning::turns_back;
use crate::verdict::Rule;
use crate::word_table::WordTable;
use road_base::Step;
use road_model::{Access, Network, Profile, World};
use way_lines::{NodeRules, is_located};

/// The first of these rules that the step breaks behind the steps before it. The table has the lines of their ways.
pub fn step_rule<M: World, P: Profile>(
    network: &Network<'_, M, P>,
    table: &WordTable,
    before: &[Step],
    step: Step,
) -> Option<Rule>
    requires lines { AreLinesOn (map_of network.now) table.now.lines (before.now ++ step ∷ []) }
    requires leaving { on network.now AreLeaving table.now.leaving }
    ensures some { IfSome result (λ rule. on network.now Breaks before.now step (broken_rule rule)) }
    ensures none { IfNone result (on network.now Follows before.now step) }
{
    if let Some(rule) = rule_alone(network, table, step) {
        return Some(rule);
    }
    match before.last() {
        Some(last) => rule_between(network, table, *last, step),
        None => None,
    }
}

/// The first of the rules on a step alone that this one breaks.
fn rule_alone<M: World, P: Profile>(
    network: &Network<'_, M, P>,
    table: &WordTable,
    step: Step,
) -> Option<Rule>
    requires { IsLineIn (map_of network.now) table.now.lines step.way }
    ensures some { IfSome result (λ rule. (before : List Step)
        → on network.now Breaks before step (broken_rule rule)) }
    ensures none { IfNone result (IsTrue (made_on network.now drivable step)) }
{
    let Some((tail, head)) = ends_in(&table.lines, step) else {
        return Some(Rule::NoStep);
    };
    if !is_located(network.world, tail) {
        return Some(Rule::NoNode(tail));
    }
    if !is_located(network.world, head) {
        return Some(Rule::NoNode(head));
    }
    closing_rule(network, step)
}

/// The rule that closes the step's way in its direction, if one does. None for a way that isn't visible.
fn closing_rule<M: World, P: Profile>(network: &Network<'_, M, P>, step: Step) -> Option<Rule>
    ensures { (a : Access) → on network.now IsAnswered step a → result ≡ closing a }
{
    let Some(way) = network.world.way(step.way) else {
        return None;
    };
    match network.profile.direction(&way.tags, step.dir) {
        Access::Free => None,
        Access::Closed(by) => Some(Rule::Closed(by)),
        Access::WrongWay => Some(Rule::WrongWay),
    }
}

/// The first rule that the step, which may be driven, breaks behind the one before it.
fn rule_between<M: World, P: Profile>(
    network: &Network<'_, M, P>,
    table: &WordTable,
    last: Step,
    step: Step,
) -> Option<Rule>
    requires drives { IsTrue (made_on network.now drivable step) }
    requires leaving { on network.now AreLeaving table.now.leaving }
    requires from { IsLineIn (map_of network.now) table.now.lines last.way }
    requires to { IsLineIn (map_of network.now) table.now.lines step.way }
    ensures some { IfSome result (λ rule. (before : List Step) → IsBehind before last
        → on network.now Breaks before step (broken_rule rule)) }
    ensures none { IfNone result (on network.now Passes last step) }
{
    let Some((from, at)) = ends_in(&table.lines, last) else {
        return Some(Rule::Apart);
    };
    let Some((node, to)) = ends_in(&table.lines, step) else {
        return Some(Rule::Apart);
    };
    if at != node {
        return Some(Rule::Apart);
    }
    if to == from {
        if turns_back(network, table, node, last, step) {
            None
        } else {
            Some(Rule::Reversal(node))
        }
    } else if NodeRules::of(network, node).is_shut {
        Some(Rule::Barrier(node))
    } else {
        None
    }
}
