//! That the calls which take memory find it, and that a profile can be written.
ghost use Rattle.std.specs.Prelude.{false};

use crate::makers::tags;
use road_base::{Dir, Location, NoMemory, NodeId, Tags, WayId};
use road_model::{
    Access, Arcs, Block, Blocks, Context, Contexts, Names, Piece, PieceName, Pieces, Place, Places,
    Profile, RuleKind, Sources, TurnArc, has_highway, is_restriction, laws,
};
use std::alloc::Global;
use std::test::Fail;

fn name(way: i64) -> PieceName {
    PieceName {
        way: WayId(way),
        index: 0,
        dir: Dir::Forward,
    }
}

/// A block with one piece, of one context with one arc and one source.
fn block_of(alloc: Global, way: i64, end: u32) -> Result<Block, NoMemory> {
    let arc = TurnArc {
        piece: name(9),
        length: 2,
    };
    let context = Context {
        before: Names::from_list(vec![in alloc; name(7)]?),
        arcs: Arcs::from_list(vec![in alloc; arc]?),
        sources: Sources::from_list(vec![in alloc; Names::one(alloc, name(7))]?),
    };
    let place = Place {
        node: NodeId(1),
        location: Location { lon: 10, lat: 20 },
    };
    let piece = Piece {
        name: name(way),
        end,
        zone: false,
        places: Places::from_list(vec![in alloc; place, place]?),
        contexts: Contexts::from_list(vec![in alloc; context]?),
    };
    Ok(Block {
        way: WayId(way),
        pieces: Pieces::from_list(vec![in alloc; piece]?),
    })
}

/// The ways of four blocks in the order in which they are put, whose pieces end at 0, 1, 2 and 3, and the ways with
/// the ends that stay.
const PUT: [([i64; 4], [(WayId, u32); 3]); 3] = [
    (
        [-5, 1, 2, 2],
        [(WayId(-5), 0), (WayId(1), 1), (WayId(2), 3)],
    ),
    (
        [2, 1, -5, 1],
        [(WayId(-5), 2), (WayId(1), 3), (WayId(2), 0)],
    ),
    (
        [1, 2, -5, -5],
        [(WayId(-5), 3), (WayId(1), 0), (WayId(2), 1)],
    ),
];

/// The blocks of the ways, each put behind the one before.
fn blocks_of(alloc: Global, ways: &[i64]) -> Result<Blocks, NoMemory> {
    let mut blocks = Blocks::new(alloc);
    for (way, end) in ways.iter().zip(0..) {
        blocks.insert(block_of(alloc, *way, end)?)?;
    }
    Ok(blocks)
}

/// The ends of all pieces, each beside its block's way.
fn ends(alloc: Global, blocks: &Blocks) -> Result<Vec<(WayId, u32)>, NoMemory> {
    let mut found = Vec::new(alloc);
    for block in blocks.items() {
        for piece in block.pieces.items() {
            found.push((block.way, piece.end))?;
        }
    }
    Ok(found)
}

#[test]
fn each_way_has_the_block_put_last(rt: HostRuntime) -> Result<(), Fail> {
    for (ways, wanted) in PUT.iter() {
        let blocks = blocks_of(rt.alloc(), ways)?;
        assert_eq!(rt; ends(rt.alloc(), &blocks)?.as_slice(), wanted.as_slice());
    }
    Ok(())
}

/// Three blocks, for which there is room from the start.
fn three_blocks(alloc: Global) -> Result<Blocks, NoMemory> {
    let mut blocks = Blocks::new(alloc);
    blocks.reserve(3)?;
    for way in [1, -5, 2] {
        blocks.insert(block_of(alloc, way, 0)?)?;
    }
    Ok(blocks)
}

fn stand_without_way_1(blocks: &Blocks) -> bool {
    [(-5, true), (1, false), (2, true), (3, false)].iter().all(|(way, stands)| blocks
        .get(WayId(*way))
        .is_some()
        == *stands)
}

#[test]
fn blocks_are_taken_out_and_copied(rt: HostRuntime) -> Result<(), Fail> {
    let mut blocks = three_blocks(rt.alloc())?;
    let taken = blocks.remove(WayId(1)).map(|block| block.way);
    assert_eq!(rt; taken, Some(WayId(1)));
    assert!(rt; blocks.remove(WayId(1)).is_none());
    assert!(rt; stand_without_way_1(&blocks));
    assert!(rt; stand_without_way_1(&blocks.copy()?));
    Ok(())
}

/// Whether the pieces end at the same places, and have the same ones.
fn have_same_places(these: &[Piece], those: &[Piece]) -> bool {
    these.iter().zip(those).all(|(this, that)| this.end == that.end
        && this.zone == that.zone
        && this.places.items() == that.places.items())
}

#[test]
fn copies_are_made(rt: HostRuntime) -> Result<(), Fail> {
    let block = block_of(rt.alloc(), 4, 6)?;
    let copy = block.copy()?;
    assert_eq!(rt; copy.way, block.way);
    assert_eq!(rt; copy.pieces.items().len(), 1);
    assert!(rt; have_same_places(copy.pieces.items(), block.pieces.items()));
    Ok(())
}

/// Tags, whether they carry the key of roads, and whether they are those of a restriction.
const OF_ROADS: [(&str, bool, bool); 6] = [
    ("", false, false),
    ("highway=residential", true, false),
    ("highway= railway=rail", true, false),
    ("highway:lanes=2 type=restriction", false, true),
    ("type=restrictions", false, false),
    ("restriction=no_left_turn type=route", false, false),
];

/// Whether the tags carry the key of roads, and whether they are those of a restriction.
fn of_roads(alloc: Global, of: &str) -> Result<(bool, bool), Fail> {
    let tags = tags(alloc, of)?;
    Ok((has_highway(&tags), is_restriction(&tags)))
}

#[test]
fn roads_and_restrictions_are_told_by_tags(rt: HostRuntime) -> Result<(), Fail> {
    for (of, highway, restriction) in OF_ROADS {
        assert_eq!(rt;
            of_roads(rt.alloc(), of)?,
            (highway, restriction),
            "at {of:?}"
        );
    }
    Ok(())
}

/// A profile that closes every way.
#[derive(Clone, Copy)]
struct Nobody;

impl Profile for Nobody {
    ghost use Rattle.road_model.specs.declared.answers.Access.TheVariants.{WrongWay};
    ghost use Rattle.road_model.specs.declared.answers.RuleKind.TheVariants.{Absent};
    ghost use Rattle.std.proofs.lemmas.Bool.{false≢true};

    ghost rules = { λ _. record {
      number = 0;
      direction = λ t d. WrongWay;
      node_open = λ t. false;
      turns = λ t. false;
      rule = λ t. Absent;
      reverses = false;
      zone = λ t d. false;
    } };

    ghost free_needs_highway = { λ p tags dir free. absurd (false≢true free) };

    fn number(&self) -> u32 {
        0
    }

    fn direction(&self, _tags: &Tags, _dir: Dir) -> Access {
        Access::WrongWay
    }

    fn node_open(&self, _tags: &Tags) -> bool {
        false
    }

    fn turns(&self, _tags: &Tags) -> bool {
        false
    }

    fn rule(&self, _tags: &Tags) -> RuleKind {
        RuleKind::Absent
    }

    fn reverses(&self) -> bool {
        false
    }

    fn zone(&self, _tags: &Tags, _dir: Dir) -> bool {
        false
    }
}

#[test]
fn laws_hold_of_any_profile() {
    laws::one_name(&Nobody);
    laws::one_block(&Nobody);
    laws::one_graph(&Nobody);
    laws::has_block(&Nobody);
    laws::has_graph(&Nobody);
    laws::one_piece(&Nobody);
    laws::whole_pieces(&Nobody);
    laws::context_decides(&Nobody);
    laws::walk_law(&Nobody);
    laws::one_broken_rule(&Nobody);
    laws::roads_refer(&Nobody);
}
