//! What the bytes of a graph file leave no choice of, each the contract of a function that does nothing.
ghost use Rattle.std.specs.Prelude.{◌≡◌, ℕ, ◌+◌, ◌<◌, ◌^◌, List, ◌++◌, length, map, take, drop, IsTrue};
ghost use Rattle.std.specs.List.{AllByRecursion};
ghost use Rattle.road_base.specs.Objects.{Objects};
ghost use Rattle.road_base.specs.Bytes.{u64_bytes};
ghost use Rattle.road_model.specs.declared.blocks.Block.{Block};
ghost use Rattle.ordered_lists.specs.Orders.{Lists, rises};
ghost use Rattle.road_model.specs.Orders.{way_cmp};
ghost use Rattle.road_model.specs.Blocks.{IsRoadBlock};
ghost use Rattle.graph_file.specs.GraphReading.{IsFile, IsOfItsWay};
ghost use Rattle.graph_file.specs.WalkedFiles.{IsWalkedFile};

use road_model::Profile;
use road_model::laws::file_walks;

/// A graph file is of one version and one profile and has one list of blocks, and no other.
pub fn one_file()
    ensures { (v w m n : ℕ) (bytes : List ℕ) (a b : List Block)
        → IsFile v m bytes a
        → IsFile w n bytes b
        → (v ≡ w) × (m ≡ n) × (a ≡ b) }
{}

/// A graph file tells its own end: of two that stand at the front of the same bytes, each is the other one.
pub fn one_front()
    ensures { (v w m n : ℕ) (x y r s : List ℕ) (a b : List Block)
        → IsFile v m x a
        → IsFile w n y b
        → x ++ r ≡ y ++ s
        → (v ≡ w) × (m ≡ n) × (a ≡ b) × (r ≡ s) }
{}

/// Two graph files of one version and one profile, the ways of which ascend over both, are one file together: the head
/// of the first one with the count of both, and then the blocks of the first and of the second one.
pub fn joined_files()
    ensures { (v m : ℕ) (x y : List ℕ) (a b : List Block)
        → IsFile v m x a
        → IsFile v m y b
        → IsTrue (rises way_cmp (map (λ b. b.way) (a ++ b)))
        → length a + length b < 2 ^ 64
        → IsFile v m (take 12 x ++ (u64_bytes (length a + length b) ++ (drop 20 x ++ drop 20 y))) (a ++ b) }
{}

/// The blocks of an object map's roads are named by their ways. Whoever reads its graph file of version 2 by the
/// grammar, and walks over the blocks that it spells, makes the object map's walks.
pub fn walked_file<P: Profile>(profile: &P)
    ensures own { (M : Objects) (blocks : List Block)
        → Lists (λ b. b.way) way_cmp (IsRoadBlock M (P.rules profile.now)) blocks
        → AllByRecursion IsOfItsWay blocks }
    ensures walks { (M : Objects) (bytes : List ℕ) (blocks : List Block)
        → Lists (λ b. b.way) way_cmp (IsRoadBlock M (P.rules profile.now)) blocks
        → IsFile 2 (P.rules profile.now).number bytes blocks
        → IsWalkedFile M (P.rules profile.now) bytes }
{
    one_file();
    file_walks(profile);
}
