//! The junction positions of a road.
ghost use Rattle.std.specs.Prelude.{◌≡◌, ◌≤◌, ◌↔◌, IsTrue, IfOk, length};
ghost use Rattle.road_model.specs.Networks.{on};
ghost use Rattle.road_model.specs.Pieces.{IsPlain};
ghost use Rattle.way_lines.specs.RoadLines.{AreRoads, IsRoadLine};
ghost use Rattle.junctions.specs.Junctions.{AreJunctions};
ghost use Rattle.junctions.specs.Repeats.{nodes_of};

use crate::plain::{is_passed, neighbours_at};
use crate::repeats::Repeats;
use road_base::{NoMemory, WayId};
use road_model::{Network, Profile, World};
use std::alloc::Global;
use way_lines::{Road, RoadLine, Roads};

/// The junction positions of a road's line, ascending; none of any other way.
pub fn junctions_of<M: World, P: Profile>(
    alloc: Global,
    world: &M,
    profile: &P,
    way: WayId,
) -> Result<Vec<u32>, NoMemory>
    ensures { IfOk result (λ v. AreJunctions (M.objects world.now) (P.rules profile.now) way v.items) }
{
    let network = Network::new(world, *profile);
    let line = RoadLine::of(alloc, &network, Road::of(&network, way))?;
    let roads = Roads::new(alloc);
    junctions_along(alloc, &network, &roads, &line)
}

/// The junction positions of the road whose line this is, ascending; none where the way is no road.
pub fn junctions_along<M: World, P: Profile>(
    alloc: Global,
    network: &Network<'_, M, P>,
    roads: &Roads,
    line: &RoadLine,
) -> Result<Vec<u32>, NoMemory>
    requires roads { on network.now AreRoads roads.now }
    requires line { on network.now IsRoadLine line.now }
    requires short { length line.now.nodes.items ≤ 65535 }
    ensures { IfOk result (λ v. on network.now AreJunctions line.now.road.way v.items) }
{
    let repeats = Repeats::of(alloc, line.nodes.as_slice())?;
    let mut junctions = Vec::new(alloc);
    for at in 0..line.nodes.len() {
        if is_plain_at(network, roads, line, &repeats, at) {
            continue;
        }
        junctions.push(at as u32)?;
    }
    Ok(junctions)
}

/// Whether the position of the line is plain.
fn is_plain_at<M: World, P: Profile>(
    network: &Network<'_, M, P>,
    roads: &Roads,
    line: &RoadLine,
    repeats: &Repeats<'_>,
    at: usize,
) -> bool
    requires roads { on network.now AreRoads roads.now }
    requires line { on network.now IsRoadLine line.now }
    requires repeats { repeats.now ≡ nodes_of line.now.nodes.items }
    ensures { IsTrue result ↔ on network.now IsPlain line.now.road.way at }
{
    let Some(nodes) = neighbours_at(line.nodes.as_slice(), at) else {
        return false;
    };
    if repeats.has(nodes.here.node) {
        return false;
    }
    is_passed(network, Some(roads), line.road.way, nodes)
}
