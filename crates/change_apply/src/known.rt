//! The blocks that stand before others are built.
ghost use Rattle.std.specs.Prelude.{◌≡◌, IsTrue, option_copied};
ghost use Rattle.ordered_lists.specs.Orders.{rises};
ghost use Rattle.road_model.specs.Orders.{way_cmp};
ghost use Rattle.graph_blocks.specs.Lent.{map_of};
ghost use Rattle.change_apply.specs.Rebuilding.{pieces_at};
ghost use Rattle.change_apply.specs.Standing.{built_in, newest, newest_but};

use graph_blocks::RoadBlocks;
use road_base::{WayId, Ways};
use road_model::laws::name_order;
use road_model::{Block, Blocks, Piece};
use touched_ways::is_among;
use way_pieces::KnownBlocks;

/// The blocks that stand: of each way the fresh one, if there is one, and else that which stood before.
#[derive(Clone, Copy)]
pub struct Standing<'a> {
    pub blocks: &'a RoadBlocks,
    /// Those that the change that is being applied has altered so far.
    pub fresh: &'a Blocks,
}

impl<'a> Standing<'a> {
    /// The newest block of the way: one that was built says also that the way has no pieces. Takes a search among the
    /// fresh ones, and a look-up among those that stood before.
    pub fn newest(&self, way: WayId) -> Option<&Block>
        ensures { option_copied result
            ≡ newest (built_in self.now) (map_of self.now.blocks.now) way }
    {
        name_order();
        match self.fresh.get(way) {
            Some(block) => Some(block),
            None => self.blocks.get(way),
        }
    }

    /// The pieces of the way's newest block; none where it has no block. Takes what `newest` takes.
    pub fn pieces(&self, way: WayId) -> &[Piece]
        ensures { result.now ≡ pieces_at (built_in self.now) (map_of self.now.blocks.now) way }
    {
        match self.newest(way) {
            Some(block) => block.pieces.items(),
            None => &[],
        }
    }
}

/// The blocks that stand, but those of some ways.
#[derive(Drop)]
pub struct StandingBut<'a> {
    pub standing: Standing<'a>,
    /// The ways whose blocks aren't known, ascending.
    pub but: &'a Ways,
    ghost ascend: { IsTrue (rises way_cmp but.now) },
}

impl<'a> KnownBlocks for StandingBut<'a> {
    ghost blocks = { λ s. newest_but s.but.now (built_in s.standing) (map_of s.standing.blocks.now) };

    /// Takes a search among the ways whose blocks aren't known, and what `Standing::newest` takes.
    fn known(&self, way: WayId) -> Option<&Block> {
        name_order();
        if is_among(self.but, way) {
            return None;
        }
        self.standing.newest(way)
    }
}
