//! Laws of cells, each the contract of a function that does nothing.
ghost use Rattle.std.specs.Prelude.{◌≡◌, ◌↔◌, List, ℕ, Bool, IsTrue, Contains, filter};
ghost use Rattle.road_base.specs.Objects.{Objects};
ghost use Rattle.road_base.specs.declared.ids.NodeId.{NodeId};
ghost use Rattle.road_base.specs.declared.ids.WayId.{WayId};
ghost use Rattle.road_model.specs.declared.blocks.Block.{Block};
ghost use Rattle.ordered_lists.specs.Orders.{Lists};
ghost use Rattle.road_model.specs.Orders.{way_cmp};
ghost use Rattle.road_model.specs.Blocks.{IsBlock, IsRoadBlock};
ghost use Rattle.road_model.specs.Format.{IsGraph, graph_bytes};
ghost use Rattle.road_model.specs.Links.{IsTouched};
ghost use Rattle.map_cells.specs.declared.area.Area.{Area as AreaValue};
ghost use Rattle.map_cells.specs.Areas.{IsInside, CoverWorld, CoverNodes};
ghost use Rattle.map_cells.specs.Cells.{IsLocatedIn, IsCell, Passes, IsCut, AreRoads};
ghost use Rattle.map_cells.specs.Parts.{Part, Cell, AreCells, AreParts, AreBlocksOfParts, HasOneOwner};

use road_model::Profile;
use road_model::laws::{blocks_stay, roads_refer};

/// Where each key within one link less than the link radius of a way is closed in a cell of a map, the way's block is
/// the same in the map and in the cell: no object that differs between them is within the link radius.
pub fn cell<P: Profile>(profile: &P)
    ensures untouched { (M C : Objects) (area : AreaValue) (w : WayId) → IsCell M C area → Passes C area w
        → IsTouched M C w → ⊥ }
    ensures block { (M C : Objects) (area : AreaValue) (w : WayId) (b : Block) → IsCell M C area → Passes C area w
        → IsBlock M (P.rules profile.now) w b ↔ IsBlock C (P.rules profile.now) w b }
{
    blocks_stay(profile);
}

/// A cell of a cell is a cell of the map, where its area lies in the other one's: so a map may be cut into regions
/// first, and these into cells.
pub fn nested()
    ensures { (M N C : Objects) (outer inner : AreaValue) → IsCell M N outer → IsCell N C inner → IsInside inner outer
        → IsCell M C inner }
{}

/// Where a part of a map keeps all that is within the link radius of a way, its block is the same in both.
pub fn cut<P: Profile>(profile: &P)
    ensures { (M C : Objects) (w : WayId) (b : Block) → IsCut M C w
        → IsBlock M (P.rules profile.now) w b ↔ IsBlock C (P.rules profile.now) w b }
{
    blocks_stay(profile);
}

/// The ways with the key `highway`, the restrictions, and the nodes and ways that these name, have the map's graph.
pub fn roads<P: Profile>(profile: &P)
    ensures blocks { (M R : Objects) (b : Block) → AreRoads M R
        → IsRoadBlock M (P.rules profile.now) b ↔ IsRoadBlock R (P.rules profile.now) b }
    ensures graph { (M R : Objects) (bytes : List ℕ) → AreRoads M R
        → IsGraph M (P.rules profile.now) bytes ↔ IsGraph R (P.rules profile.now) bytes }
{
    roads_refer(profile);
    blocks_stay(profile);
}

/// Where cells cover the world, as those of a plan do, the ones in which no node of the map is located may be left out.
pub fn empty_cells()
    ensures { (M : Objects) (cells : List AreaValue) (has_node : AreaValue → Bool)
        → CoverWorld cells
        → ((c : AreaValue) (n : NodeId) → Contains cells c → IsLocatedIn M c n → IsTrue (has_node c))
        → CoverNodes M (filter has_node cells) }
{}

/// Each way with pieces is owned by exactly one of a map's cells.
pub fn owners<P: Profile>(profile: &P)
    ensures { (M : Objects) (cells : List Cell) (b : Block) → AreCells M cells
        → IsRoadBlock M (P.rules profile.now) b
        → HasOneOwner M cells b.way }
{
    roads_refer(profile);
}

/// The blocks of the parts in which a map is compiled are those of its graph, byte for byte.
pub fn parts<P: Profile>(profile: &P)
    ensures blocks { (M : Objects) (list : List Part) (blocks : List Block)
        → AreParts M (P.rules profile.now) list
        → AreBlocksOfParts (P.rules profile.now) list blocks
        → Lists (λ b. b.way) way_cmp (IsRoadBlock M (P.rules profile.now)) blocks }
    ensures graph { (M : Objects) (list : List Part) (blocks : List Block)
        → AreParts M (P.rules profile.now) list
        → AreBlocksOfParts (P.rules profile.now) list blocks
        → IsGraph M (P.rules profile.now) (graph_bytes 2 (P.rules profile.now).number blocks) }
{
    blocks_stay(profile);
}
