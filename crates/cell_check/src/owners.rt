//! Where a way begins, which tells who owns it.
ghost use Rattle.std.specs.Prelude.{◌≡◌};
ghost use Rattle.road_base.specs.Objects.{node_of};
ghost use Rattle.map_cells.specs.Owners.{place_in, first_place};
ghost use Rattle.cell_check.specs.Owning.{lies_in};

use map_cells::Area;
use road_base::{Location, NodeId};
use road_model::World;

/// Whether the first located one of the nodes lies in the cell: so a cell owns a way.
pub fn begins_in<M: World>(world: &M, cell: &Area, nodes: &[NodeId]) -> bool
    ensures { result ≡ lies_in cell.now (first_place (M.objects world.now) nodes.now) }
{
    match first_place(world, nodes) {
        Some(place) => cell.holds(place),
        None => false,
    }
}

/// Where the first located one of the nodes is.
fn first_place<M: World>(world: &M, nodes: &[NodeId]) -> Option<Location>
    ensures { result ≡ first_place (M.objects world.now) nodes.now }
{
    for node in nodes {
        if let Some(place) = place_of(world, *node) {
            return Some(place);
        }
    }
    None
}

/// Where the node is, if it is visible and located.
pub fn place_of<M: World>(world: &M, node: NodeId) -> Option<Location>
    ensures { result ≡ place_in (node_of (M.objects world.now) node) }
{
    match world.node(node) {
        Some(body) => body.location,
        None => None,
    }
}
