//! Whether a route and numbers at the contexts show that no legal drive costs less.
ghost use Rattle.std.specs.Prelude.{◌≡◌, ◌≢◌, ◌↔◌, ◌<◌, [], length, map, slice_get, Some, IfOk, IsTrue, IsFalse};
ghost use Rattle.std.specs.Option.{option_copied};
ghost use Rattle.road_model.specs.BlockMap.{AreBlocksOf};
ghost use Rattle.road_model.specs.Network.{Legal};
ghost use Rattle.road_model.specs.Networks.{on};
ghost use Rattle.graph_blocks.specs.Lent.{map_of as block_map};
ghost use Rattle.context_search.specs.Marks.{at_of};
ghost use Rattle.context_search.specs.Reaching.{LeadsTo};
ghost use Rattle.context_search.specs.Sought.{AreSpots};
ghost use Rattle.least_cost.specs.Certified.{IsCertificate, IsCertified};

use crate::conditions::{Claim, hold};
use crate::costs::drive_cost;
use crate::potentials::Potentials;
use context_search::{Spot, spots_in_order};
use drive_judging::{Verdict, WordTable, judge};
use graph_blocks::LendsBlocks;
use layered_maps::View;
use road_base::{NoMemory, NodeId, Step, WayId};
use road_model::laws::{name_order, one_broken_rule};
use road_model::{Block, Network, Profile, World};
use std::alloc::Global;
use way_lines::{head, tail};

/// Whether the route is a legal drive whose first step begins at node a and whose last step ends at node b, and the
/// numbers show that none costs less; or, where no route is given, whether they show that there is none. The numbers
/// have to be as many as the contexts. The blocks are those of the world under the profile.
///
/// Takes what judging the route takes, and one pass over contexts and arcs: for each arc a few steps where the numbers
/// of ways are spread evenly, and at most the time of a search by names. Takes memory in proportion to the contexts.
pub fn check<M: World, P: Profile, B: LendsBlocks>(
    alloc: Global,
    world: &M,
    profile: &P,
    blocks: &B,
    a: NodeId,
    b: NodeId,
    route: Option<&[Step]>,
    potentials: &Potentials,
) -> Result<bool, NoMemory>
    requires { AreBlocksOf (M.objects world.now) (P.rules profile.now) (B.map blocks.now) }
    ensures { IfOk result (λ yes. IsTrue yes
        ↔ IsCertificate (M.objects world.now) (P.rules profile.now) a b (option_copied route.entry) potentials.now) }
{
    is_shown(
        alloc,
        &Network::new(world, *profile),
        &blocks.lend(),
        a,
        b,
        route,
        potentials.items(),
    )
}

/// Whether the numbers show that no legal drive costs less than the route, or where there is no route, that there is
/// no legal drive.
fn is_shown<M: World, P: Profile>(
    alloc: Global,
    network: &Network<'_, M, P>,
    blocks: &View<'_, WayId, Block>,
    a: NodeId,
    b: NodeId,
    route: Option<&[Step]>,
    numbers: &[Option<u128>],
) -> Result<bool, NoMemory>
    requires { on network.now AreBlocksOf (block_map blocks.now) }
    ensures { IfOk result (λ yes. IsTrue yes
        ↔ on network.now IsCertificate a b (option_copied route.entry) numbers.now) }
{
    match route {
        Some(drive) => shows_route(alloc, network, blocks, a, b, drive, numbers),
        None => {
            let claim = Claim { a, b, cost: None };
            shows(alloc, network, blocks, &claim, numbers)
        }
    }
}

/// Whether the drive is a legal one from node a to node b, and the numbers show that none costs less.
fn shows_route<M: World, P: Profile>(
    alloc: Global,
    network: &Network<'_, M, P>,
    blocks: &View<'_, WayId, Block>,
    a: NodeId,
    b: NodeId,
    drive: &[Step],
    numbers: &[Option<u128>],
) -> Result<bool, NoMemory>
    requires { on network.now AreBlocksOf (block_map blocks.now) }
    ensures { IfOk result (λ yes. IsTrue yes ↔ on network.now IsCertificate a b (Some drive.now) numbers.now) }
{
    let legal = leads(alloc, network, a, b, drive)?;
    if !legal {
        return Ok(false);
    }
    let cost = drive_cost(network.world, drive);
    let claim = Claim { a, b, cost };
    let shown = shows(alloc, network, blocks, &claim, numbers)?;
    Ok(shown)
}

/// Whether the drive is a legal one from node a to node b.
fn leads<M: World, P: Profile>(
    alloc: Global,
    network: &Network<'_, M, P>,
    a: NodeId,
    b: NodeId,
    drive: &[Step],
) -> Result<bool, NoMemory>
    ensures { IfOk result (λ yes. IsTrue yes ↔ on network.now LeadsTo a b drive.now) }
{
    if drive.is_empty() {
        return Ok(false);
    }
    if !runs_between(network, a, b, drive) {
        return Ok(false);
    }
    let legal = is_legal(alloc, network, drive)?;
    Ok(legal)
}

/// Whether the drive, which isn't empty, begins at node a and ends at node b.
fn runs_between<M: World, P: Profile>(
    network: &Network<'_, M, P>,
    a: NodeId,
    b: NodeId,
    drive: &[Step],
) -> bool
    requires { drive.now ≢ [] }
    ensures yes { IsTrue result → on network.now Legal drive.now → on network.now LeadsTo a b drive.now }
    ensures no { IsFalse result → on network.now LeadsTo a b drive.now → ⊥ }
{
    let first = step_of(drive, 0);
    let last = step_of(drive, drive.len() - 1);
    let begins = is_node(tail(network.world, first), a);
    let ends = is_node(head(network.world, last), b);
    begins && ends
}

/// The step at the place.
fn step_of(drive: &[Step], place: usize) -> Step
    requires { place < length drive.now }
    ensures { slice_get drive.now place ≡ Some result }
{
    drive[place]
}

/// Whether there is a node, and it is this one.
fn is_node(found: Option<NodeId>, node: NodeId) -> bool
    ensures yes { IsTrue result → found ≡ Some node }
    ensures no { IsFalse result → found ≡ Some node → ⊥ }
{
    match found {
        Some(found) => found == node,
        None => false,
    }
}

/// Whether the drive, which isn't empty, is legal.
fn is_legal<M: World, P: Profile>(
    alloc: Global,
    network: &Network<'_, M, P>,
    drive: &[Step],
) -> Result<bool, NoMemory>
    requires { drive.now ≢ [] }
    ensures { IfOk result (λ yes. IsTrue yes ↔ on network.now Legal drive.now) }
{
    one_broken_rule(&network.profile);
    let table = WordTable::of(alloc, network.world, &network.profile, drive)?;
    match judge(network.world, &network.profile, &table, drive) {
        Verdict::Legal => Ok(true),
        Verdict::Broken { .. } => Ok(false),
    }
}

/// Whether the numbers show the claim.
fn shows<M: World, P: Profile>(
    alloc: Global,
    network: &Network<'_, M, P>,
    blocks: &View<'_, WayId, Block>,
    claim: &Claim,
    numbers: &[Option<u128>],
) -> Result<bool, NoMemory>
    requires { on network.now AreBlocksOf (block_map blocks.now) }
    ensures { IfOk result (λ yes. IsTrue yes
        ↔ on network.now IsCertified claim.now.a claim.now.b claim.now.cost numbers.now) }
{
    let spots = spots_in_order(alloc, network, blocks)?;
    let shown = shows_over(alloc, network, spots.as_slice(), claim, numbers)?;
    Ok(shown)
}

/// Whether the numbers show the claim over these contexts, which are all.
fn shows_over<M: World, P: Profile>(
    alloc: Global,
    network: &Network<'_, M, P>,
    spots: &[Spot<'_>],
    claim: &Claim,
    numbers: &[Option<u128>],
) -> Result<bool, NoMemory>
    requires { on network.now AreSpots (map at_of spots.now) }
    ensures { IfOk result (λ yes. IsTrue yes
        ↔ on network.now IsCertified claim.now.a claim.now.b claim.now.cost numbers.now) }
{
    name_order();
    if !are_as_many(numbers, spots) {
        return Ok(false);
    }
    let holds = hold(alloc, spots, numbers, claim)?;
    Ok(holds)
}

/// Whether there are as many numbers as contexts.
fn are_as_many(numbers: &[Option<u128>], spots: &[Spot<'_>]) -> bool
    ensures yes { IsTrue result → length numbers.now ≡ length spots.now }
    ensures no { IsFalse result → length numbers.now ≡ length spots.now → ⊥ }
{
    numbers.len() == spots.len()
}
