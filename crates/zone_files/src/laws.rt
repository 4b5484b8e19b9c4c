//! Laws of the marks in graph files, each the contract of a function that does nothing.
ghost use Rattle.std.specs.Prelude.{List, ℕ};
ghost use Rattle.road_base.specs.Objects.{Objects};
ghost use Rattle.road_model.specs.declared.blocks.Block.{Block};
ghost use Rattle.ordered_lists.specs.Orders.{Lists};
ghost use Rattle.road_model.specs.Orders.{way_cmp};
ghost use Rattle.road_model.specs.Blocks.{IsRoadBlock};
ghost use Rattle.graph_file.specs.GraphReading.{IsFile};
ghost use Rattle.zone_files.specs.ZoneFileWalks.{AreZoneFileWalks, IsZoneFile};

use destination_drives::laws::zone_walk_law;
use road_model::Profile;
use road_model::laws::file_walks;

/// Over the blocks of all ways with pieces, as a graph file spells them, the walks with phases by names and marks alone
/// spell exactly the legal drives from junction to junction that go through no zone.
pub fn zone_file_walks<P: Profile>(profile: &P)
    ensures { (M : Objects) (blocks : List Block)
        → Lists (λ b. b.way) way_cmp (IsRoadBlock M (P.rules profile.now)) blocks
        → AreZoneFileWalks M (P.rules profile.now) blocks }
{
    file_walks(profile);
    zone_walk_law(profile);
}

/// Whoever reads an object map's graph file of version 2 by the grammar, and walks with phases over the blocks that it
/// spells, makes exactly these drives.
pub fn zone_file<P: Profile>(profile: &P)
    ensures { (M : Objects) (bytes : List ℕ) (blocks : List Block)
        → Lists (λ b. b.way) way_cmp (IsRoadBlock M (P.rules profile.now)) blocks
        → IsFile 2 (P.rules profile.now).number bytes blocks
        → IsZoneFile M (P.rules profile.now) bytes }
{
    zone_file_walks(profile);
}
