//! What is said of the ways that a change touches, and of those whose blocks it doesn't alter.
ghost use Rattle.std.specs.Prelude.{◌≡◌, ◌↔◌, ◌⊎◌, List, [], ◌∷◌, ◌++◌};
ghost use Rattle.road_base.specs.declared.ids.WayId.{WayId};
ghost use Rattle.road_base.specs.Objects.{Objects};
ghost use Rattle.road_model.specs.declared.blocks.Block.{Block};
ghost use Rattle.road_model.specs.declared.lists.PieceName.{PieceName};
ghost use Rattle.road_model.specs.declared.lists.TurnArc.{TurnArc};
ghost use Rattle.road_model.specs.Blocks.{IsBlock, ListsPieces};
ghost use Rattle.road_model.specs.Links.{AreTouched, IsTouched};
ghost use Rattle.road_model.specs.Local.{IsSameWithin, HasSameArcs};
ghost use Rattle.touched_ways.specs.Altering.{HasSamePieces, IsLedAlike, IsNamedSource, ListsArcFrom};
ghost use Rattle.touched_ways.specs.Altering.{IsAround, IsUnaltered, ListsArc, listed_pieces};

use road_model::Profile;

/// There is a list of the ways that a change touches.
pub fn some_touched_ways()
    ensures { (M N : Objects) → (ways : List WayId) × AreTouched M N ways }
{}

/// A way near a change, or that meets one near it, or that a restriction names beside one of these, is touched.
pub fn near_ways_are_touched()
    ensures { (M N : Objects) (w : WayId) → IsAround M N w → IsTouched M N w }
{}

/// So is each to which an arc leads from the block of such a way, be it the block before the change or behind it.
pub fn led_ways_are_touched<P: Profile>(profile: &P)
    ensures { (M N : Objects) (w : WayId) (b : Block) (name : PieceName) (before : List PieceName) (a : TurnArc)
        → IsAround M N w
        → IsBlock M (P.rules profile.now) w b ⊎ IsBlock N (P.rules profile.now) w b
        → ListsArc b.pieces name before a
        → IsTouched M N a.piece.way }
{}

/// Where nothing differs within two links of a way, and the ways that share a node with it have the same pieces, and
/// so it is with each way that a restriction names beside it, all that stands in its block but the sources is the same
/// before and after a change, also where the change touches it.
pub fn unaltered_blocks_stay<P: Profile>(profile: &P)
    ensures { (M N : Objects) (w : WayId)
        → IsUnaltered M N (P.rules profile.now) w
        → HasSameArcs M N (P.rules profile.now) w }
{}

/// Where all that stands in a way's block but the sources is the same before and after a change, and the blocks of
/// every way list the same arcs by pieces of this one, the sources are the same too, and so is the block.
pub fn led_blocks_stay<P: Profile>(profile: &P)
    ensures { (M N : Objects) (w : WayId) (b : Block)
        → HasSameArcs M N (P.rules profile.now) w
        → ((v : WayId) → IsLedAlike M N (P.rules profile.now) w v)
        → IsBlock M (P.rules profile.now) w b ↔ IsBlock N (P.rules profile.now) w b }
{}

/// The sources that end on a way are the arcs that its block lists, seen from behind.
pub fn arcs_are_sources<P: Profile>(profile: &P)
    ensures { (M : Objects) (b : Block) (name last : PieceName) (before front : List PieceName)
        → IsBlock M (P.rules profile.now) last.way b
        → IsNamedSource M (P.rules profile.now) name before (front ++ last ∷ [])
        ↔ ListsArcFrom b.pieces name before (front ++ last ∷ []) }
{}

/// Where all that stands in a way's block but the sources is the same before and after a change, so are the sources of
/// other contexts that end on the way.
pub fn sources_from_stay<P: Profile>(profile: &P)
    ensures { (M N : Objects) (name last : PieceName) (before front : List PieceName)
        → HasSameArcs M N (P.rules profile.now) last.way
        → IsNamedSource M (P.rules profile.now) name before (front ++ last ∷ [])
        ↔ IsNamedSource N (P.rules profile.now) name before (front ++ last ∷ []) }
{}

/// Where nothing differs within two links of a way, its pieces are the same before and after a change.
pub fn far_pieces_stay<P: Profile>(profile: &P)
    ensures { (M N : Objects) (w : WayId)
        → IsSameWithin 2 M N w
        → HasSamePieces M N (P.rules profile.now) w }
{}

/// Where a way's blocks before and after list the same pieces, by names and ends, its pieces are
/// the same.
pub fn listed_pieces_stay<P: Profile>(profile: &P)
    ensures { (M N : Objects) (w : WayId) (b c : Block)
        → IsBlock M (P.rules profile.now) w b
        → IsBlock N (P.rules profile.now) w c
        → listed_pieces b ≡ listed_pieces c
        → HasSamePieces M N (P.rules profile.now) w }
{}

/// The block of a way lists its pieces.
pub fn block_lists_pieces<P: Profile>(profile: &P)
    ensures { (M : Objects) (w : WayId) (b : Block)
        → IsBlock M (P.rules profile.now) w b
        → ListsPieces M (P.rules profile.now) w b }
{}

/// Where nothing differs within two links of a way, its block before a change lists its pieces behind the change.
pub fn far_blocks_list_pieces<P: Profile>(profile: &P)
    ensures { (M N : Objects) (w : WayId) (b : Block)
        → IsSameWithin 2 M N w
        → IsBlock M (P.rules profile.now) w b
        → ListsPieces N (P.rules profile.now) w b }
{}
