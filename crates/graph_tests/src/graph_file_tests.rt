//! Graph files whose bytes were spelled by hand.
ghost use Rattle.std.specs.Prelude.{◌≡◌, ◌+◌, ◌≤◌, true, false, [], ◌∷◌, IfOk, pos, vec_len};
ghost use Rattle.road_model.specs.Format.{IsVersion, is_sourced, IsBlockForm, IsContextForm, IsPieceForm};

use graph_file::{Graph, GraphWriter, VERSION, write};
use road_base::{Dir, Location, NoMemory, NodeId, WayId};
use road_model::{
    Arcs, Block, Blocks, Context, Contexts, Names, Piece, PieceName, Pieces, Place, Places,
    Sources, TurnArc,
};
use std::alloc::Global;
use std::test::Fail;

/// Way 10 over the nodes 1, 2 and 3, which may be driven both ways and turned on at both ends.
const THERE_AND_BACK: &[u8] = b"OSMROAD1\x01\0\0\0\x01\0\0\0\0\0\0\0\
    \x0a\0\0\0\0\0\0\0\x02\0\0\0\
    \0\0\0\0\x02\0\0\0\0\
    \x01\0\0\0\0\0\0\0\0\0\0\0\0\0\0\0\
    \x02\0\0\0\0\0\0\0\x10\x27\0\0\0\0\0\0\
    \x03\0\0\0\0\0\0\0\x20\x4e\0\0\0\0\0\0\
    \x01\0\0\0\0\0\0\0\
    \x01\0\0\0\
    \x01\0\0\0\0\0\0\0\
    \x0a\0\0\0\0\0\0\0\0\0\0\0\x01\x01\0\0\0\
    \0\0\0\0\x02\0\0\0\x01\
    \x03\0\0\0\0\0\0\0\x20\x4e\0\0\0\0\0\0\
    \x02\0\0\0\0\0\0\0\x10\x27\0\0\0\0\0\0\
    \x01\0\0\0\0\0\0\0\0\0\0\0\0\0\0\0\
    \x01\0\0\0\0\0\0\0\
    \x01\0\0\0\
    \x01\0\0\0\0\0\0\0\
    \x0a\0\0\0\0\0\0\0\0\0\0\0\0\x01\0\0\0";

/// The same in version 2, in which each piece shows its mark and each context its source.
const SOURCED: &[u8] = b"OSMROAD2\x01\0\0\0\x01\0\0\0\0\0\0\0\
    \x0a\0\0\0\0\0\0\0\x02\0\0\0\
    \0\0\0\0\x02\0\0\0\0\0\
    \x01\0\0\0\0\0\0\0\0\0\0\0\0\0\0\0\
    \x02\0\0\0\0\0\0\0\x10\x27\0\0\0\0\0\0\
    \x03\0\0\0\0\0\0\0\x20\x4e\0\0\0\0\0\0\
    \x01\0\0\0\0\0\0\0\
    \x01\0\0\0\
    \x01\0\0\0\0\0\0\0\
    \x0a\0\0\0\0\0\0\0\0\0\0\0\x01\x01\0\0\0\
    \x01\0\0\0\0\0\0\0\
    \x01\0\0\0\x0a\0\0\0\0\0\0\0\0\0\0\0\x01\
    \0\0\0\0\x02\0\0\0\x01\0\
    \x03\0\0\0\0\0\0\0\x20\x4e\0\0\0\0\0\0\
    \x02\0\0\0\0\0\0\0\x10\x27\0\0\0\0\0\0\
    \x01\0\0\0\0\0\0\0\0\0\0\0\0\0\0\0\
    \x01\0\0\0\0\0\0\0\
    \x01\0\0\0\
    \x01\0\0\0\0\0\0\0\
    \x0a\0\0\0\0\0\0\0\0\0\0\0\0\x01\0\0\0\
    \x01\0\0\0\0\0\0\0\
    \x01\0\0\0\x0a\0\0\0\0\0\0\0\0\0\0\0\0";

/// Way 20 with a marked piece that has two contexts, of which the first has two sources, and the second, of three
/// pieces, one.
const LONG_SOURCES: &[u8] = b"OSMROAD2\x02\0\0\0\x01\0\0\0\0\0\0\0\
    \x14\0\0\0\0\0\0\0\x01\0\0\0\
    \0\0\0\0\x01\0\0\0\0\x01\
    \x01\0\0\0\0\0\0\0\0\0\0\0\0\0\0\0\
    \x02\0\0\0\0\0\0\0\x10\x27\0\0\0\0\0\0\
    \x02\0\0\0\0\0\0\0\
    \x01\0\0\0\
    \0\0\0\0\0\0\0\0\
    \x02\0\0\0\0\0\0\0\
    \x01\0\0\0\x07\0\0\0\0\0\0\0\0\0\0\0\0\
    \x02\0\0\0\x06\0\0\0\0\0\0\0\0\0\0\0\0\x07\0\0\0\0\0\0\0\0\0\0\0\0\
    \x03\0\0\0\
    \x05\0\0\0\0\0\0\0\0\0\0\0\0\x06\0\0\0\0\0\0\0\0\0\0\0\0\
    \0\0\0\0\0\0\0\0\
    \x01\0\0\0\0\0\0\0\
    \x02\0\0\0\x05\0\0\0\0\0\0\0\0\0\0\0\0\x06\0\0\0\0\0\0\0\0\0\0\0\0";

/// Behind a byte 7: way -1, with a piece that has two contexts, the second of two pieces.
const WITH_A_NAME: &[u8] = b"\x07OSMROAD1\x01\0\0\0\x01\0\0\0\0\0\0\0\
    \xff\xff\xff\xff\xff\xff\xff\xff\x01\0\0\0\
    \x03\0\0\0\x04\0\0\0\x01\
    \xfb\xff\xff\xff\xff\xff\xff\xff\x00\x2e\xb6\x94\x00\xe9\xa4\x35\
    \x06\0\0\0\0\0\0\0\x01\0\0\0\xfe\xff\xff\xff\
    \x02\0\0\0\0\0\0\0\
    \x01\0\0\0\
    \x01\0\0\0\0\0\0\0\
    \x07\0\0\0\0\0\0\0\0\0\0\0\0\x01\0\0\0\
    \x02\0\0\0\
    \x08\0\0\0\0\0\0\0\xfd\xff\0\0\0\
    \x01\0\0\0\0\0\0\0\
    \x07\0\0\0\0\0\0\0\0\0\0\0\0\x03\0\0\0";

fn name(way: i64, index: u32, dir: Dir) -> PieceName
    ensures { result ≡ record { way = record { 0 = way }; index = index; dir = dir } }
{
    PieceName {
        way: WayId(way),
        index,
        dir,
    }
}

fn place(node: i64, location: Location) -> Place {
    Place {
        node: NodeId(node),
        location,
    }
}

/// A source of one piece.
fn from_one(alloc: Global, piece: PieceName) -> Result<Sources, NoMemory>
    ensures { IfOk result (λ l. l ≡ (piece ∷ []) ∷ []) }
{
    let source = Names::one(alloc, piece);
    Ok(Sources::from_list(vec![in alloc; source]?))
}

/// A piece of way 10 with one context, from which one arc leads back, and to which one leads from there.
fn along(alloc: Global, dir: Dir, places: Vec<Place>, back: Dir) -> Result<Piece, NoMemory>
    requires { vec_len places ≡ 3 }
    ensures plain { IfOk result (λ p. IsPieceForm false p) }
    ensures sourced { IfOk result (λ p. IsPieceForm true p) }
    ensures named { IfOk result (λ p. p.name ≡ record { way = record { 0 = pos 10 }; index = 0; dir = dir }) }
{
    let arc = TurnArc {
        piece: name(10, 0, back),
        length: 1,
    };
    let context = Context {
        before: Names::from_list(Vec::new(alloc)),
        arcs: Arcs::from_list(vec![in alloc; arc]?),
        sources: from_one(alloc, name(10, 0, back))?,
    };
    Ok(Piece {
        name: name(10, 0, dir),
        end: 2,
        zone: false,
        places: Places::from_list(places),
        contexts: Contexts::from_list(vec![in alloc; context]?),
    })
}

fn both_ways(alloc: Global) -> Result<Block, NoMemory>
    ensures plain { IfOk result (λ b. IsBlockForm false b) }
    ensures sourced { IfOk result (λ b. IsBlockForm true b) }
{
    let first = place(1, Location { lon: 0, lat: 0 });
    let middle = place(2, Location { lon: 10000, lat: 0 });
    let last = place(3, Location { lon: 20000, lat: 0 });
    let there = vec![in alloc; first, middle, last]?;
    let back = vec![in alloc; last, middle, first]?;
    let forward = along(alloc, Dir::Forward, there, Dir::Backward)?;
    let backward = along(alloc, Dir::Backward, back, Dir::Forward)?;
    Ok(Block {
        way: WayId(10),
        pieces: Pieces::from_list(vec![in alloc; forward, backward]?),
    })
}

/// A context with one arc, to a target of the length, and no sources.
fn context(alloc: Global, before: Vec<PieceName>, length: u32) -> Result<Context, NoMemory>
    requires short { vec_len before ≤ 1 }
    requires target { (1 ≤ length) × (length ≤ vec_len before + 2) }
    ensures plain { IfOk result (λ c. IsContextForm false c) }
    ensures sourced { IfOk result (λ c. IsContextForm true c) }
    ensures before { IfOk result (λ c. c.before ≡ before.items) }
{
    let arc = TurnArc {
        piece: name(7, 0, Dir::Forward),
        length,
    };
    Ok(Context {
        before: Names::from_list(before),
        arcs: Arcs::from_list(vec![in alloc; arc]?),
        sources: Sources::from_list(Vec::new(alloc)),
    })
}

fn with_two_contexts(alloc: Global) -> Result<Piece, NoMemory>
    ensures plain { IfOk result (λ p. IsPieceForm false p) }
    ensures sourced { IfOk result (λ p. IsPieceForm true p) }
{
    let first = place(
        -5,
        Location {
            lon: -1800000000,
            lat: 900000000,
        },
    );
    let last = place(6, Location { lon: 1, lat: -2 });
    let alone = context(alloc, Vec::new(alloc), 1)?;
    let before = vec![in alloc; name(8, 65533, Dir::Forward)]?;
    let behind_another = context(alloc, before, 3)?;
    Ok(Piece {
        name: name(-1, 3, Dir::Backward),
        end: 4,
        zone: false,
        places: Places::from_list(vec![in alloc; first, last]?),
        contexts: Contexts::from_list(vec![in alloc; alone, behind_another]?),
    })
}

fn one_way(alloc: Global) -> Result<Block, NoMemory>
    ensures plain { IfOk result (λ b. IsBlockForm false b) }
    ensures sourced { IfOk result (λ b. IsBlockForm true b) }
{
    let piece = with_two_contexts(alloc)?;
    Ok(Block {
        way: WayId(-1),
        pieces: Pieces::from_list(vec![in alloc; piece]?),
    })
}

fn write_one(alloc: Global, version: u32, block: Block, out: &mut Vec<u8>) -> Result<(), NoMemory>
    requires version { IsVersion version }
    requires form { IsBlockForm (is_sourced version) block }
{
    let mut blocks = Blocks::new(alloc);
    blocks.insert(block)?;
    write(version, 1, &blocks, out)
}

#[test]
fn writes_one_block(rt: HostRuntime) -> Result<(), Fail> {
    let alloc = rt.alloc();
    let mut out = Vec::new(alloc);
    write_one(alloc, 1, both_ways(alloc)?, &mut out)?;
    assert_eq!(rt; out.len(), 220);
    assert_eq!(rt; out.as_slice(), THERE_AND_BACK);
    Ok(())
}

#[test]
fn writes_one_block_with_sources(rt: HostRuntime) -> Result<(), Fail> {
    let alloc = rt.alloc();
    let mut out = Vec::new(alloc);
    write_one(alloc, VERSION, both_ways(alloc)?, &mut out)?;
    assert_eq!(rt; out.len(), 272);
    assert_eq!(rt; out.as_slice(), SOURCED);
    Ok(())
}

#[test]
fn writes_behind_what_is_there(rt: HostRuntime) -> Result<(), Fail> {
    let alloc = rt.alloc();
    let mut out = vec![in alloc; 7]?;
    write_one(alloc, 1, one_way(alloc)?, &mut out)?;
    assert_eq!(rt; out.as_slice(), WITH_A_NAME);
    Ok(())
}

/// The bytes of a graph without blocks.
fn write_none(alloc: Global, version: u32) -> Result<Vec<u8>, NoMemory>
    requires { IsVersion version }
{
    let blocks = Blocks::new(alloc);
    let mut out = Vec::new(alloc);
    write(version, 1, &blocks, &mut out)?;
    Ok(out)
}

#[test]
fn writes_no_blocks(rt: HostRuntime) -> Result<(), Fail> {
    assert_eq!(rt;
        write_none(rt.alloc(), 1)?.as_slice(),
        b"OSMROAD1\x01\0\0\0\0\0\0\0\0\0\0\0".as_slice()
    );
    assert_eq!(rt;
        write_none(rt.alloc(), VERSION)?.as_slice(),
        b"OSMROAD2\x01\0\0\0\0\0\0\0\0\0\0\0".as_slice()
    );
    Ok(())
}

#[test]
fn writer_puts_blocks_in_turn(rt: HostRuntime) -> Result<(), Fail> {
    let alloc = rt.alloc();
    let mut writer = GraphWriter::new(alloc, 1, 1, 0)?;
    writer.put(&one_way(alloc)?)?;
    writer.put(&both_ways(alloc)?)?;
    let mut expected = b"OSMROAD1\x01\0\0\0\x02\0\0\0\0\0\0\0".to_vec(alloc)?;
    expected.extend_from_slice(&WITH_A_NAME[21..])?;
    expected.extend_from_slice(&THERE_AND_BACK[20..])?;
    assert_eq!(rt; writer.finish(), expected);
    Ok(())
}

/// Puts the block 70,000 times.
fn put_often(file: &mut GraphWriter, block: &Block) -> Result<(), NoMemory>
    requires { IsBlockForm (is_sourced file.old.version) block.now }
{
    for _ in 0..70_000u32 {
        file.put(block)?;
    }
    Ok(())
}

/// The bytes of a file of so many blocks.
fn long_file(alloc: Global, block: &Block) -> Result<Vec<u8>, NoMemory>
    requires { IsBlockForm false block.now }
{
    let mut file = GraphWriter::new(alloc, 1, 1, 64)?;
    put_often(&mut file, block)?;
    Ok(file.finish())
}

#[test]
fn writes_more_blocks_than_two_bytes_count(rt: HostRuntime) -> Result<(), Fail> {
    let bytes = long_file(rt.alloc(), &one_way(rt.alloc())?)?;
    let header = b"OSMROAD1\x01\0\0\0\x70\x11\x01\0\0\0\0\0";
    let one = &WITH_A_NAME[21..];
    assert_eq!(rt; bytes.len(), 20 + 70_000 * one.len());
    assert_eq!(rt; bytes.get(..20), Some(header.as_slice()));
    assert_eq!(rt; bytes.get(bytes.len() - one.len()..), Some(one));
    Ok(())
}

/// The bytes with another byte at the place.
fn with_byte(alloc: Global, bytes: &[u8], at: usize, byte: u8) -> Result<Vec<u8>, NoMemory> {
    let mut bytes = bytes.to_vec(alloc)?;
    if let Some(place) = bytes.get_mut(at) {
        *place = byte;
    }
    Ok(bytes)
}

fn is_refused(alloc: Global, bytes: &[u8]) -> Result<bool, NoMemory> {
    let graph = Graph::read(alloc, bytes)?;
    Ok(graph.is_none())
}

/// The version and the profile of a graph that is read, and whether it is written as it was.
fn read_and_written(alloc: Global, bytes: &[u8]) -> Result<Option<(u32, u32, bool)>, NoMemory> {
    let Some(graph) = Graph::read(alloc, bytes)? else {
        return Ok(None);
    };
    let mut out = Vec::new(alloc);
    write(graph.version, graph.profile, &graph.blocks, &mut out)?;
    Ok(Some((graph.version, graph.profile, out.as_slice() == bytes)))
}

#[test]
fn reads_back_what_was_written(rt: HostRuntime) -> Result<(), Fail> {
    let alloc = rt.alloc();
    for bytes in [THERE_AND_BACK, &WITH_A_NAME[1..]] {
        assert_eq!(rt; read_and_written(alloc, bytes)?, Some((1, 1, true)));
    }
    assert_eq!(rt; read_and_written(alloc, SOURCED)?, Some((2, 1, true)));
    assert_eq!(rt; read_and_written(alloc, LONG_SOURCES)?, Some((2, 2, true)));
    Ok(())
}

#[test]
fn graphs_have_a_profile(rt: HostRuntime) -> Result<(), Fail> {
    for profile in [1, 2] {
        let bytes = with_byte(rt.alloc(), THERE_AND_BACK, 8, profile)?;
        let read = read_and_written(rt.alloc(), &bytes)?;
        assert_eq!(rt; read, Some((1, profile as u32, true)), "profile {profile}");
    }
    Ok(())
}

/// A place, and a byte with which no graph file has it there.
const REFUSED: &[(usize, u8)] = &[
    // another magic, three numbers of no profile, and 2 ^ 60 blocks
    (7, b'2'),
    (8, 0),
    (8, 3),
    (9, 1),
    (19, 0x10),
    // a block without pieces, one more piece, and two pieces of one name
    (28, 0),
    (28, 3),
    (134, 0),
    // a piece that ends where it begins, another number of places, a third direction, a latitude above the pole
    (32, 2),
    (36, 3),
    (40, 2),
    (56, 0x7f),
    // no contexts, one more, one without pieces, and one behind another's piece
    (89, 0),
    (89, 2),
    (97, 0),
    (97, 2),
    // a target without pieces, and one with more than there are
    (122, 0),
    (122, 3),
];

#[test]
fn refuses_what_is_not_a_graph_file(rt: HostRuntime) -> Result<(), Fail> {
    let alloc = rt.alloc();
    for (at, byte) in REFUSED.iter() {
        let bytes = with_byte(alloc, THERE_AND_BACK, *at, *byte)?;
        assert!(rt; is_refused(alloc, &bytes)?, "byte {at}");
    }
    let mut longer = THERE_AND_BACK.to_vec(alloc)?;
    longer.push(0)?;
    assert!(rt; is_refused(alloc, &longer)?);
    for end in 0..THERE_AND_BACK.len() {
        assert!(rt;
            is_refused(alloc, &THERE_AND_BACK[..end])?,
            "the first {end} bytes"
        );
    }
    Ok(())
}

/// The same for a file with marks and sources.
const REFUSED_SOURCES: &[(usize, u8)] = &[
    // the magic without marks and sources, one of no version, and a third mark
    (7, b'1'),
    (7, b'3'),
    (41, 2),
    // no sources, one more, and 2 ^ 63
    (127, 0),
    (127, 2),
    (134, 0x80),
    // a source without pieces, one with another's, and one with 2 ^ 31
    (135, 0),
    (135, 2),
    (138, 0x80),
    // a source that goes in a third direction
    (151, 2),
];

#[test]
fn refuses_what_is_not_a_graph_file_with_sources(rt: HostRuntime) -> Result<(), Fail> {
    let alloc = rt.alloc();
    for (at, byte) in REFUSED_SOURCES.iter() {
        let bytes = with_byte(alloc, SOURCED, *at, *byte)?;
        assert!(rt; is_refused(alloc, &bytes)?, "byte {at}");
    }
    for end in 0..SOURCED.len() {
        assert!(rt;
            is_refused(alloc, &SOURCED[..end])?,
            "the first {end} bytes"
        );
    }
    Ok(())
}

/// The second part before the first, behind the front.
fn exchanged(
    alloc: Global,
    front: &[u8],
    first: &[u8],
    second: &[u8],
) -> Result<Vec<u8>, NoMemory> {
    let mut bytes = front.to_vec(alloc)?;
    bytes.extend_from_slice(second)?;
    bytes.extend_from_slice(first)?;
    Ok(bytes)
}

#[test]
fn refuses_pieces_and_contexts_out_of_order(rt: HostRuntime) -> Result<(), Fail> {
    let alloc = rt.alloc();
    let pieces = exchanged(
        alloc,
        &THERE_AND_BACK[..32],
        &THERE_AND_BACK[32..126],
        &THERE_AND_BACK[126..],
    )?;
    assert_eq!(rt; pieces.len(), 220);
    assert!(rt; is_refused(alloc, &pieces)?);
    let contexts = exchanged(
        alloc,
        &WITH_A_NAME[1..82],
        &WITH_A_NAME[82..111],
        &WITH_A_NAME[111..],
    )?;
    assert_eq!(rt; contexts.len(), 152);
    assert!(rt; is_refused(alloc, &contexts)?);
    Ok(())
}

/// The three parts, one behind the other.
fn in_turn(alloc: Global, front: &[u8], middle: &[u8], last: &[u8]) -> Result<Vec<u8>, NoMemory> {
    let mut bytes = front.to_vec(alloc)?;
    bytes.extend_from_slice(middle)?;
    bytes.extend_from_slice(last)?;
    Ok(bytes)
}

/// The file whose context of three pieces has a source of so many, all of one name.
fn with_source_of(alloc: Global, count: u8) -> Result<Vec<u8>, NoMemory> {
    let mut bytes = in_turn(alloc, &LONG_SOURCES[..195], &[count], b"\0\0\0")?;
    for _ in 0..count {
        bytes.extend_from_slice(&LONG_SOURCES[199..212])?;
    }
    Ok(bytes)
}

#[test]
fn refuses_sources_that_are_too_short(rt: HostRuntime) -> Result<(), Fail> {
    let alloc = rt.alloc();
    for count in [0, 1] {
        assert!(rt;
            is_refused(alloc, &with_source_of(alloc, count)?)?,
            "{count}"
        );
    }
    for count in [2, 3] {
        let read = read_and_written(alloc, &with_source_of(alloc, count)?)?;
        assert_eq!(rt; read, Some((2, 2, true)), "{count}");
    }
    Ok(())
}

#[test]
fn refuses_sources_out_of_order(rt: HostRuntime) -> Result<(), Fail> {
    let alloc = rt.alloc();
    let first = &LONG_SOURCES[102..119];
    let second = &LONG_SOURCES[119..149];
    let mut exchanged = exchanged(alloc, &LONG_SOURCES[..102], first, second)?;
    exchanged.extend_from_slice(&LONG_SOURCES[149..])?;
    assert_eq!(rt; exchanged.len(), LONG_SOURCES.len());
    assert!(rt; is_refused(alloc, &exchanged)?);
    let twice = in_turn(alloc, &LONG_SOURCES[..119], first, &LONG_SOURCES[149..])?;
    assert!(rt; is_refused(alloc, &twice)?);
    Ok(())
}

fn count_of_contexts(graph: &Graph, piece: PieceName) -> Option<usize> {
    match graph.contexts(piece) {
        Some(contexts) => Some(contexts.items().len()),
        None => None,
    }
}

/// The first arc from the piece's context at the place.
fn first_arc(graph: &Graph, piece: PieceName, place: usize) -> Option<TurnArc> {
    match graph.arcs(piece, place) {
        Some(arcs) => arcs.items().first().copied(),
        None => None,
    }
}

/// How many sources the piece's context at the place has.
fn count_of_sources(graph: &Graph, piece: PieceName, place: usize) -> Option<usize> {
    match graph.sources(piece, place) {
        Some(sources) => Some(sources.items().len()),
        None => None,
    }
}

/// The last name of the first source of the piece's context at the place.
fn last_of_first(graph: &Graph, piece: PieceName, place: usize) -> Option<PieceName> {
    match graph.sources(piece, place) {
        Some(sources) => match sources.items().first() {
            Some(names) => names.items().last().copied(),
            None => None,
        },
        None => None,
    }
}

fn arc(piece: PieceName, length: u32) -> TurnArc {
    TurnArc { piece, length }
}

/// The pieces of the way that is driven both ways, and some that it hasn't.
const THERE: PieceName = PieceName {
    way: WayId(10),
    index: 0,
    dir: Dir::Forward,
};

const BACK: PieceName = PieceName {
    way: WayId(10),
    index: 0,
    dir: Dir::Backward,
};

const MISSING: [PieceName; 4] = [
    PieceName {
        way: WayId(10),
        index: 1,
        dir: Dir::Forward,
    },
    PieceName {
        way: WayId(9),
        index: 0,
        dir: Dir::Forward,
    },
    PieceName {
        way: WayId(11),
        index: 0,
        dir: Dir::Forward,
    },
    PieceName {
        way: WayId(-1),
        index: 3,
        dir: Dir::Forward,
    },
];

/// The piece with two contexts, and that to which its arcs lead.
const ALONG: PieceName = PieceName {
    way: WayId(-1),
    index: 3,
    dir: Dir::Backward,
};

const ON: PieceName = PieceName {
    way: WayId(7),
    index: 0,
    dir: Dir::Forward,
};

fn is_missing(graph: &Graph, piece: PieceName) -> bool {
    count_of_contexts(graph, piece).is_none()
        && first_arc(graph, piece, 0).is_none()
        && count_of_sources(graph, piece, 0).is_none()
}

/// Whether the graph has what that of the way that is driven both ways has, and nothing of pieces that it hasn't.
fn leads_there_and_back(graph: &Graph) -> bool {
    count_of_contexts(graph, THERE) == Some(1)
        && first_arc(graph, THERE, 0) == Some(arc(BACK, 1))
        && first_arc(graph, BACK, 0) == Some(arc(THERE, 1))
        && first_arc(graph, BACK, 1).is_none()
        && MISSING.iter().all(|piece| is_missing(graph, *piece))
}

/// Whether the graph has the sources of the same graph in version 2.
fn knows_whence(graph: &Graph) -> bool {
    count_of_sources(graph, THERE, 0) == Some(1)
        && last_of_first(graph, THERE, 0) == Some(BACK)
        && last_of_first(graph, BACK, 0) == Some(THERE)
        && count_of_sources(graph, BACK, 1).is_none()
}

/// Whether the graph has what that with the piece of two contexts has.
fn leads_along(graph: &Graph) -> bool {
    count_of_contexts(graph, ALONG) == Some(2)
        && first_arc(graph, ALONG, 0) == Some(arc(ON, 1))
        && first_arc(graph, ALONG, 1) == Some(arc(ON, 3))
        && first_arc(graph, ALONG, 2).is_none()
}

/// The graph of a graph file.
fn graph_of(alloc: Global, bytes: &[u8]) -> Result<Graph, Fail> {
    match Graph::read(alloc, bytes)? {
        Some(graph) => Ok(graph),
        None => Err(Fail::from("these bytes are no graph")),
    }
}

#[test]
fn looks_up_what_a_piece_has(rt: HostRuntime) -> Result<(), Fail> {
    let plain = graph_of(rt.alloc(), THERE_AND_BACK)?;
    assert!(rt; count_of_sources(&plain, THERE, 0) == Some(0));
    assert!(rt; leads_there_and_back(&plain));
    Ok(())
}

#[test]
fn looks_up_whence_a_piece_is_reached(rt: HostRuntime) -> Result<(), Fail> {
    let sourced = graph_of(rt.alloc(), SOURCED)?;
    assert!(rt; leads_there_and_back(&sourced));
    assert!(rt; knows_whence(&sourced));
    Ok(())
}

#[test]
fn looks_up_what_each_context_has(rt: HostRuntime) -> Result<(), Fail> {
    let graph = graph_of(rt.alloc(), &WITH_A_NAME[1..])?;
    assert!(rt; leads_along(&graph));
    Ok(())
}
