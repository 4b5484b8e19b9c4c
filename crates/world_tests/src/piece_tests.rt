//! Maps with a way 10 over some of the nodes 1 to 4: which of its positions are plain and which are junctions, the
//! pieces that leave node 1, and all pieces, each with the steps that it is driven in; and how large its block is.
ghost use Rattle.std.specs.Prelude.{◌≡◌, ◌<◌};

use crate::worlds::world_of;
use access_profile::Motorcar;
use back_references::Indexed;
use expanded_graph::build_block;
use junctions::{is_plain, junctions_of};
use road_base::{Dir, NodeId, Steps, WayId};
use road_model::{Block, Piece, PieceName};
use std::alloc::Global;
use std::marker::Brand;
use std::sync::ledger::{Blank, Ledger};
use std::test::Fail;
use way_pieces::{pieces_from, pieces_of, spell};

/// The nodes on which the ways of the maps lie.
const NODES: &[u8] = b"n1 x0.001 y0\nn2 x0.002 y0\nn3 x0.003 y0\nn4 x0.002 y0.001\n";

/// The world of the nodes and these lines.
fn world_with_nodes(alloc: Global, lines: &[u8]) -> Result<Indexed, Fail> {
    let mut extract = NODES.to_vec(alloc)?;
    extract.extend_from_slice(lines)?;
    world_of(alloc, &extract)
}

fn add(alloc: Global, out: &mut String, index: u32, dir: Dir) -> Result<(), Fail> {
    let sign = match dir {
        Dir::Forward => '+',
        Dir::Backward => '-',
    };
    let step = format!(in alloc; "{index}{sign} ")?;
    Ok(out.push_str(&step)?)
}

/// The plain positions, and then the junctions.
fn add_positions(alloc: Global, out: &mut String, world: &Indexed) -> Result<(), Fail> {
    for at in 0..5 {
        if is_plain(world, &Motorcar, WayId(10), at) {
            out.push_str(&format!(in alloc; "{at} ")?)?;
        }
    }
    out.push_str("/ ")?;
    let junctions = junctions_of(alloc, world, &Motorcar, WayId(10))?;
    for at in &junctions {
        out.push_str(&format!(in alloc; "{at} ")?)?;
    }
    Ok(out.push_str("/ ")?)
}

/// The pieces that begin at node 1.
fn add_leaving(alloc: Global, out: &mut String, world: &Indexed) -> Result<(), Fail> {
    let names = pieces_from(alloc, world, &Motorcar, NodeId(1))?;
    for name in names.items() {
        add(alloc, out, name.index, name.dir)?;
    }
    Ok(out.push_str("/ ")?)
}

/// The steps of the piece, and a word where there is none.
fn add_spelling(
    alloc: Global,
    out: &mut String,
    world: &Indexed,
    name: PieceName,
) -> Result<(), Fail> {
    let Some(drive) = spell(alloc, world, &Motorcar, name)? else {
        return Ok(out.push_str("none ")?);
    };
    for step in drive.items() {
        add(alloc, out, step.index, step.dir)?;
    }
    Ok(())
}

/// The pieces, each with what it spells.
fn add_pieces(alloc: Global, out: &mut String, world: &Indexed) -> Result<(), Fail> {
    let names = pieces_of(alloc, world, &Motorcar, WayId(10))?;
    for name in names.items() {
        add(alloc, out, name.index, name.dir)?;
        out.push_str("as ")?;
        add_spelling(alloc, out, world, *name)?;
    }
    Ok(())
}

/// All that is found in the world.
fn add_found(alloc: Global, out: &mut String, world: &Indexed) -> Result<(), Fail> {
    add_positions(alloc, out, world)?;
    add_leaving(alloc, out, world)?;
    add_pieces(alloc, out, world)
}

fn found_in(alloc: Global, world: &Indexed) -> Result<String, Fail> {
    let mut out = String::new(alloc);
    add_found(alloc, &mut out, world)?;
    Ok(out)
}

/// All that is found on the map.
fn found(alloc: Global, lines: &[u8]) -> Result<String, Fail> {
    let world = world_with_nodes(alloc, lines)?;
    found_in(alloc, &world)
}

#[test]
fn pieces_lie_between_junctions(rt: HostRuntime) -> Result<(), Fail> {
    let cases: [(&[u8], &str); 6] = [
        (
            b"w10 Thighway=residential Nn1,n2,n3",
            "1 / 0 2 / 0+ / 0+ as 0+ 1+ 0- as 1- 0- ",
        ),
        (
            b"w10 Thighway=residential,junction=roundabout,oneway=-1 Nn1,n2,n3,n1",
            "1 2 / 0 3 / 0- / 0- as 2- 1- 0- ",
        ),
        (
            b"w10 Thighway=residential Nn1,n1,n2,n1",
            "/ 0 1 2 / 0+ 1- / 0+ as 0+ 0- as 0- 1+ as 1+ 1- as 1- ",
        ),
        (
            b"n2 v1 Tbarrier=bollard x0.002 y0\nw10 Thighway=residential Nn1,n2,n3",
            "/ 0 1 2 / 0+ / 0+ as 0+ 0- as 0- 1+ as 1+ 1- as 1- ",
        ),
        (
            b"n2 v1 dD\nw10 Thighway=residential Nn1,n2,n3",
            "/ 0 1 2 / / ",
        ),
        (b"w10 Twaterway=river Nn1,n2,n3", "/ / / "),
    ];
    for (lines, want) in cases {
        let text = found(rt.alloc(), lines)?;
        assert_eq!(rt; text.as_str(), want);
    }
    Ok(())
}

fn arc_count(piece: &Piece) -> usize {
    let mut arcs = 0usize;
    for context in piece.contexts.items() {
        arcs = arcs.wrapping_add(context.arcs.items().len());
    }
    arcs
}

/// How many pieces, contexts and arcs a block has.
fn counts(block: &Block) -> (usize, usize, usize) {
    let pieces = block.pieces.items();
    let (mut contexts, mut arcs) = (0usize, 0usize);
    for piece in pieces {
        contexts = contexts.wrapping_add(piece.contexts.items().len());
        arcs = arcs.wrapping_add(arc_count(piece));
    }
    (pieces.len(), contexts, arcs)
}

/// How many pieces, contexts and arcs way 10 of the world has, whose block is built by itself.
fn block_counts_in<L: Ledger>(
    alloc: Global,
    world: &Indexed,
    blank: Blank,
) -> Result<(usize, usize, usize), Fail>
    requires name { blank.name ≡ L.name }
    requires parts { blank.parts ≡ L.parts }
    requires some { 0 < L.parts }
{
    let mut steps = Steps::<L>::new(blank);
    let block = build_block(alloc, world, &Motorcar, WayId(10), &mut steps)?;
    Ok(counts(&block))
}

/// The same of way 10 of the map.
fn block_counts<L: Ledger>(
    alloc: Global,
    lines: &[u8],
    blank: Blank,
) -> Result<(usize, usize, usize), Fail>
    requires name { blank.name ≡ L.name }
    requires parts { blank.parts ≡ L.parts }
    requires some { 0 < L.parts }
{
    let world = world_with_nodes(alloc, lines)?;
    block_counts_in::<L>(alloc, &world, blank)
}

#[test]
fn blocks_are_built_by_themselves(rt: HostRuntime) -> Result<(), Fail> {
    let cases: [(&[u8], (usize, usize, usize)); 3] = [
        (b"w10 Thighway=residential Nn1,n2,n3", (2, 2, 2)),
        // The map of examples/fork.
        (
            b"w10 Thighway=road Nn1,n2\nw11 Thighway=road Nn2,n3\nw12 Thighway=road Nn2,n4\n",
            (2, 2, 3),
        ),
        (b"w10 Twaterway=river Nn1,n2,n3", (0, 0, 0)),
    ];
    for (lines, want) in cases {
        let found = block_counts::<Brand>(rt.alloc(), lines, Blank::new(1))?;
        assert_eq!(rt; found, want);
    }
    Ok(())
}
