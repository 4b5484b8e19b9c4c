//! Laws of what is merged, each the contract of a function that does nothing.
ghost use Rattle.std.specs.Prelude.{◌≡◌, ◌↔◌, ℕ, List};
ghost use Rattle.road_base.specs.Objects.{Objects};
ghost use Rattle.road_model.specs.declared.blocks.Block.{Block};
ghost use Rattle.road_model.specs.Blocks.{IsRoadBlock};
ghost use Rattle.road_model.specs.Format.{IsGraph, graph_bytes};
ghost use Rattle.graph_file.specs.GraphReading.{IsFile};
ghost use Rattle.graph_file.specs.WalkedFiles.{IsWalkedFile};
ghost use Rattle.graph_merge.specs.declared.faults.MergeFault.{MergeFault};
ghost use Rattle.graph_merge.specs.Merging.{StandsIn, IsMerge, IsMerged, IsMergeable, IsRefusedFor};

use graph_file::laws::{one_front, walked_file};
use road_model::Profile;

/// Where the blocks in the graphs are those of an object map's roads, each in one of them, what they are merged to is
/// the object map's graph, and whoever reads its file walks over the object map.
pub fn merged_graph<P: Profile>(profile: &P)
    ensures graph { (M : Objects) (files : List (List Block)) (blocks : List Block)
        → ((b : Block) → StandsIn files b ↔ IsRoadBlock M (P.rules profile.now) b)
        → IsMerge files blocks
        → IsGraph M (P.rules profile.now) (graph_bytes 2 (P.rules profile.now).number blocks) }
    ensures walks { (M : Objects) (files : List (List Block)) (blocks : List Block) (bytes : List ℕ)
        → ((b : Block) → StandsIn files b ↔ IsRoadBlock M (P.rules profile.now) b)
        → IsMerge files blocks
        → IsFile 2 (P.rules profile.now).number bytes blocks
        → IsWalkedFile M (P.rules profile.now) bytes }
{
    walked_file(profile);
}

/// Bytes are merged to one graph file and no other. They are merged where they are graph files of one version and one
/// profile and no way has a block in two, and refused only elsewhere.
pub fn one_merge()
    ensures one { (bytes first second : List ℕ) → IsMerged bytes first → IsMerged bytes second → first ≡ second }
    ensures fault { (bytes : List ℕ) (fault : MergeFault) → IsMergeable bytes → IsRefusedFor fault bytes → ⊥ }
{
    one_front();
}
