//! How large a graph is.
ghost use Rattle.std.specs.Prelude.{◌≡◌, ◌+◌, length};
ghost use Rattle.drive_queries.specs.Counting.{blocks_in, totals_of};
ghost use Rattle.drive_queries.specs.Counting.{counted, contexts_on, arcs_on};
ghost use Rattle.drive_queries.specs.Summing.{arcs_at};

use graph_blocks::{LendsBlocks, walk};
use layered_maps::Walk;
use road_base::WayId;
use road_model::{Block, Context, Piece};

/// How many ways with pieces, pieces, contexts and arcs there are. A number stays at the last one of 64 bits where
/// there are more.
#[derive(Clone, Copy, PartialEq, Eq, Debug)]
pub struct Totals {
    pub ways: u64,
    pub pieces: u64,
    pub contexts: u64,
    pub arcs: u64,
}

/// How many of each the blocks have. Goes over all contexts once, and takes no memory.
pub fn counts<B: LendsBlocks>(blocks: &B) -> Totals
    ensures { result ≡ totals_of (blocks_in (B.map blocks.now)) }
{
    counts_of(walk(&blocks.lend()))
}

/// How many of each the blocks have that are left.
fn counts_of(blocks: Walk<'_, WayId, Block>) -> Totals
    ensures { result ≡ totals_of blocks.entry }
{
    let mut rest = blocks;
    let mut totals = Totals {
        ways: 0,
        pieces: 0,
        contexts: 0,
        arcs: 0,
    };
    while let Some(block) = rest.next() {
        totals = with_block(&totals, block);
    }
    totals
}

/// With those of the block.
fn with_block(totals: &Totals, block: &Block) -> Totals
    ensures ways { result.ways ≡ counted (totals.now.ways + 1) }
    ensures pieces { result.pieces ≡ counted (totals.now.pieces + length block.now.pieces) }
    ensures contexts { result.contexts ≡ counted (totals.now.contexts + contexts_on block.now.pieces) }
    ensures arcs { result.arcs ≡ counted (totals.now.arcs + arcs_on block.now.pieces) }
{
    let pieces = block.pieces.items();
    Totals {
        ways: totals.ways.saturating_add(1),
        pieces: totals.pieces.saturating_add(pieces.len() as u64),
        contexts: totals.contexts.saturating_add(contexts_on(pieces)),
        arcs: totals.arcs.saturating_add(arcs_on(pieces)),
    }
}

fn contexts_on(pieces: &[Piece]) -> u64
    ensures { result ≡ counted (contexts_on pieces.now) }
{
    let mut sum: u64 = 0;
    for piece in pieces {
        sum = sum.saturating_add(piece.contexts.items().len() as u64);
    }
    sum
}

fn arcs_on(pieces: &[Piece]) -> u64
    ensures { result ≡ counted (arcs_on pieces.now) }
{
    let mut sum: u64 = 0;
    for piece in pieces {
        sum = sum.saturating_add(arcs_at(piece.contexts.items()));
    }
    sum
}

fn arcs_at(contexts: &[Context]) -> u64
    ensures { result ≡ counted (arcs_at contexts.now) }
{
    let mut sum: u64 = 0;
    for context in contexts {
        sum = sum.saturating_add(context.arcs.items().len() as u64);
    }
    sum
}
