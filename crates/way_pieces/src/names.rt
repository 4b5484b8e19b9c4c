//! The names of the pieces of a way, and of those that begin at a node.
ghost use Rattle.std.specs.Prelude.{◌≡◌, IfOk, map};
ghost use Rattle.ordered_lists.specs.Orders.{Lists};
ghost use Rattle.road_model.specs.Orders.{name_cmp};
ghost use Rattle.way_pieces.specs.Names.{IsNameOn, IsNameFrom};

use crate::departures::{Departure, departures_from};
use crate::road_pieces::spans_of;
use crate::spans::PieceSpan;
use road_base::{NoMemory, NodeId, WayId};
use road_model::{Names, PieceName, Profile, World};
use std::alloc::{AllocError, Global};

/// The names of the way's pieces, each once, by position and forward before backward.
pub fn pieces_of<M: World, P: Profile>(
    alloc: Global,
    world: &M,
    profile: &P,
    way: WayId,
) -> Result<Names, NoMemory>
    ensures { let is_name = IsNameOn (M.objects world.now) (P.rules profile.now) way in
        IfOk result (λ names. Lists (λ n. n) name_cmp is_name names) }
{
    let spans = spans_of(alloc, world, profile, way)?;
    let names = span_names(alloc, spans.as_slice())?;
    Ok(Names::from_list(names))
}

fn span_names(alloc: Global, spans: &[PieceSpan]) -> Result<Vec<PieceName>, AllocError>
    ensures { IfOk result (λ v. v.items ≡ map (λ s. s.name) spans.now) }
{
    spans.iter().map(|span| span.name).collect(alloc)
}

/// The names of the pieces whose first step leaves the node, each once, ascending.
pub fn pieces_from<M: World, P: Profile>(
    alloc: Global,
    world: &M,
    profile: &P,
    node: NodeId,
) -> Result<Names, NoMemory>
    ensures { let is_name = IsNameFrom (M.objects world.now) (P.rules profile.now) node in
        IfOk result (λ names. Lists (λ n. n) name_cmp is_name names) }
{
    let departures = departures_from(alloc, world, profile, node)?;
    let names = departure_names(alloc, departures.as_slice())?;
    Ok(Names::from_list(names))
}

fn departure_names(alloc: Global, departures: &[Departure]) -> Result<Vec<PieceName>, AllocError>
    ensures { IfOk result (λ v. v.items ≡ map (λ d. d.piece) departures.now) }
{
    departures
        .iter()
        .map(|departure| departure.piece)
        .collect(alloc)
}
