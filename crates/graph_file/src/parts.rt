//! Directions, marks, names, places, arcs, sources and contexts, read from the front of bytes.
ghost use Rattle.std.specs.Prelude.{◌≡◌, ◌+◌, ◌≤◌, ◌↔◌, length, map, IsTrue};
ghost use Rattle.std.specs.List.{AllByRecursion};
ghost use Rattle.ordered_lists.specs.Orders.{rises};
ghost use Rattle.road_model.specs.Orders.{names_cmp};
ghost use Rattle.road_model.specs.Format.{dir_bytes, mark_bytes, name_bytes, place_bytes, arc_bytes, source_bytes};
ghost use Rattle.road_model.specs.Format.{sources_bytes, context_bytes, NameFits, begins_alone};
ghost use Rattle.graph_file.specs.GraphReading.{Any, MarkFits, PlaceFits, ArcFits, list_bytes, ListFits, before_bytes};
ghost use Rattle.graph_file.specs.GraphReading.{BeforeFits, SourceFits, SourcesAre, AreArcsOf, AreSourcesOf, IsContext};
ghost use Rattle.graph_file.specs.GraphReading.{AreContexts};
ghost use Rattle.graph_file.specs.OneSpelling.{dir_one, mark_one, name_one, place_one, arc_one, arcs_one, before_one};
ghost use Rattle.graph_file.specs.OneSpelling.{source_one, sources_one, context_one, contexts_one};

use crate::ascending::do_ascend;
use crate::grammar::{Grammar, GraphFile};
use crate::lists::read_list;
use road_base::{Dir, Location, NodeId, WayId};
use road_model::{Arcs, Context, Contexts, Names, PieceName, Place, Sources, TurnArc};
use spelled_bytes::{Spell, Unread, read_all};
use std::alloc::Global;
use std::marker::Model;

impl<G> Spell<GraphFile<G>> for Dir {
    ghost spelling = { dir_bytes };

    ghost fits = { Any };

    ghost one = { dir_one };

    fn read(_alloc: Global, bytes: &[u8]) -> Result<(Dir, &[u8]), Unread> {
        match bytes {
            [0, rest @ ..] => Ok((Dir::Forward, rest)),
            [1, rest @ ..] => Ok((Dir::Backward, rest)),
            _ => Err(Unread::Malformed),
        }
    }
}

/// A mark; no bytes, and false, where none is spelled.
impl<G: Grammar> Spell<GraphFile<G>> for bool {
    ghost spelling = { mark_bytes G.sourced };

    ghost fits = { MarkFits G.sourced };

    ghost one = { mark_one G.sourced };

    fn read(_alloc: Global, bytes: &[u8]) -> Result<(bool, &[u8]), Unread> {
        if !G::is_sourced() {
            return Ok((false, bytes));
        }
        match bytes {
            [0, rest @ ..] => Ok((false, rest)),
            [1, rest @ ..] => Ok((true, rest)),
            _ => Err(Unread::Malformed),
        }
    }
}

impl<G> Spell<GraphFile<G>> for PieceName {
    ghost spelling = { name_bytes };

    ghost fits = { NameFits };

    ghost one = { name_one };

    fn read(alloc: Global, bytes: &[u8]) -> Result<(PieceName, &[u8]), Unread> {
        let ((way, (index, dir)), rest) = <(i64, (u32, Dir)) as Spell<GraphFile<G>>>::read(
            alloc, bytes,
        )?;
        let name = PieceName {
            way: WayId(way),
            index,
            dir,
        };
        Ok((name, rest))
    }
}

impl<G> Spell<GraphFile<G>> for Place {
    ghost spelling = { place_bytes };

    ghost fits = { PlaceFits };

    ghost one = { place_one };

    fn read(alloc: Global, bytes: &[u8]) -> Result<(Place, &[u8]), Unread> {
        let ((node, location), rest) = <(i64, Location) as Spell<GraphFile<G>>>::read(
            alloc, bytes,
        )?;
        let place = Place {
            node: NodeId(node),
            location,
        };
        Ok((place, rest))
    }
}

impl<G> Spell<GraphFile<G>> for TurnArc {
    ghost spelling = { arc_bytes };

    ghost fits = { ArcFits };

    ghost one = { arc_one };

    fn read(alloc: Global, bytes: &[u8]) -> Result<(TurnArc, &[u8]), Unread> {
        let ((piece, length), rest) = <(PieceName, u32) as Spell<GraphFile<G>>>::read(
            alloc, bytes,
        )?;
        Ok((TurnArc { piece, length }, rest))
    }
}

/// Arcs, behind how many there are.
impl<G> Spell<GraphFile<G>> for Arcs {
    ghost spelling = { list_bytes arc_bytes };

    ghost fits = { ListFits ArcFits };

    ghost one = { arcs_one };

    fn read(alloc: Global, bytes: &[u8]) -> Result<(Arcs, &[u8]), Unread> {
        let (list, rest) = read_list::<G, TurnArc>(alloc, bytes)?;
        Ok((Arcs::from_list(list), rest))
    }
}

/// The names of all pieces of a context but the last.
#[derive(Drop)]
struct Before {
    names: Names,
}

impl Model for Before {
    ghost use Rattle.std.specs.Prelude.{List};
    ghost use Rattle.road_model.specs.declared.lists.PieceName.{PieceName};

    ghost Value = { List PieceName };

    ghost view = { λ b. b.names };
}

impl Before {
    fn into_names(self) -> Names
        ensures { result ≡ self }
    {
        self.names
    }
}

/// The names before a context's last, behind how many pieces it has.
impl<G> Spell<GraphFile<G>> for Before {
    ghost spelling = { before_bytes };

    ghost fits = { BeforeFits };

    ghost one = { before_one };

    fn read(alloc: Global, bytes: &[u8]) -> Result<(Before, &[u8]), Unread> {
        let (length, rest) = <u32 as Spell<GraphFile<G>>>::read(alloc, bytes)?;
        if length == 0 {
            return Err(Unread::Malformed);
        }
        let (list, rest) = read_all::<GraphFile<G>, PieceName>(alloc, u64::from(length - 1), rest)?;
        let names = Names::from_list(list);
        Ok((Before { names }, rest))
    }
}

/// The names of all pieces of a source, behind how many these are. One alone takes no memory.
impl<G> Spell<GraphFile<G>> for Names {
    ghost spelling = { source_bytes };

    ghost fits = { SourceFits };

    ghost one = { source_one };

    fn read(alloc: Global, bytes: &[u8]) -> Result<(Names, &[u8]), Unread> {
        let (length, rest) = <u32 as Spell<GraphFile<G>>>::read(alloc, bytes)?;
        if length == 1 {
            let (name, rest) = <PieceName as Spell<GraphFile<G>>>::read(alloc, rest)?;
            return Ok((Names::one(alloc, name), rest));
        }
        let (list, rest) = read_all::<GraphFile<G>, PieceName>(alloc, u64::from(length), rest)?;
        Ok((Names::from_list(list), rest))
    }
}

/// Sources, behind how many there are; no bytes, and none, where none are spelled.
impl<G: Grammar> Spell<GraphFile<G>> for Sources {
    ghost spelling = { sources_bytes G.sourced };

    ghost fits = { SourcesAre G.sourced };

    ghost one = { sources_one G.sourced };

    fn read(alloc: Global, bytes: &[u8]) -> Result<(Sources, &[u8]), Unread> {
        if !G::is_sourced() {
            return Ok((Sources::from_list(Vec::new(alloc)), bytes));
        }
        let (list, rest) = read_list::<G, Names>(alloc, bytes)?;
        Ok((Sources::from_list(list), rest))
    }
}

/// The three lists of a context, one behind the other.
type ContextLists = (Before, (Arcs, Sources));

/// A context whose arcs and sources ascend, and are such that it may have.
impl<G: Grammar> Spell<GraphFile<G>> for Context {
    ghost spelling = { context_bytes G.sourced };

    ghost fits = { IsContext G.sourced };

    ghost one = { context_one G.sourced };

    fn read(alloc: Global, bytes: &[u8]) -> Result<(Context, &[u8]), Unread> {
        let ((front, (arcs, sources)), rest) = <ContextLists as Spell<GraphFile<G>>>::read(
            alloc, bytes,
        )?;
        let before = front.into_names();
        if !are_of_a_context(&before, &arcs, &sources) {
            return Err(Unread::Malformed);
        }
        let context = Context {
            before,
            arcs,
            sources,
        };
        Ok((context, rest))
    }
}

/// Arcs and sources that a context with these names before its last one may have.
fn are_of_a_context(before: &Names, arcs: &Arcs, sources: &Sources) -> bool
    ensures { IsTrue result ↔ (AreArcsOf before.now arcs.now × AreSourcesOf before.now sources.now) }
{
    lead_on(before, arcs) && lead_there(before, sources)
}

/// The arcs of a context ascend by their pieces, and each has a target that it may have: the names before the
/// context's last piece, that piece and the arc's are the most of which it is made.
fn lead_on(before: &Names, arcs: &Arcs) -> bool
    ensures { IsTrue result ↔ AreArcsOf before.now arcs.now }
{
    let most = before.items().len() as u64 + 2;
    do_ascend::<TurnArc>(arcs.items()) && have_targets(arcs.items(), most)
}

/// Each arc's target has a piece at least, and so many at most.
fn have_targets(arcs: &[TurnArc], most: u64) -> bool
    ensures { IsTrue result ↔ AllByRecursion (λ a. (1 ≤ a.length) × (a.length ≤ most)) arcs.now }
{
    arcs.iter().all(|arc| is_target(arc.length, most))
}

/// So many pieces are one at least, and so many at most.
fn is_target(length: u32, most: u64) -> bool
    ensures { IsTrue result ↔ ((1 ≤ length) × (length ≤ most)) }
{
    1 <= length && u64::from(length) <= most
}

/// The sources of a context ascend, and each has a piece at least, and all names before the context's last one: those
/// that stand there and its own last.
fn lead_there(before: &Names, sources: &Sources) -> bool
    ensures { IsTrue result ↔ AreSourcesOf before.now sources.now }
{
    have_pieces(sources.items(), before.items().len()) && do_ascend::<Names>(sources.items())
}

/// Each source has a piece, and so many at least.
fn have_pieces(sources: &[Names], least: usize) -> bool
    ensures { IsTrue result ↔ AllByRecursion (λ s. (1 ≤ length s) × (least ≤ length s)) sources.now }
{
    sources
        .iter()
        .all(|source| is_source(source.items().len(), least))
}

/// So many pieces are one at least, and so many at least.
fn is_source(count: usize, least: usize) -> bool
    ensures { IsTrue result ↔ ((1 ≤ count) × (least ≤ count)) }
{
    1 <= count && least <= count
}

/// Contexts of a piece, of which the first has no names and each comes before the next, behind how many there are.
impl<G: Grammar> Spell<GraphFile<G>> for Contexts {
    ghost spelling = { list_bytes (context_bytes G.sourced) };

    ghost fits = { AreContexts G.sourced };

    ghost one = { contexts_one G.sourced };

    fn read(alloc: Global, bytes: &[u8]) -> Result<(Contexts, &[u8]), Unread> {
        let (list, rest) = read_list::<G, Context>(alloc, bytes)?;
        if !are_of_a_piece(&list) {
            return Err(Unread::Malformed);
        }
        Ok((Contexts::from_list(list), rest))
    }
}

/// The first context has no names, and each comes before the next.
fn are_of_a_piece(contexts: &[Context]) -> bool
    ensures { IsTrue result ↔ (begins_alone contexts.now
        × IsTrue (rises names_cmp (map (λ c. c.before) contexts.now))) }
{
    begin_alone(contexts) && do_ascend::<Context>(contexts)
}

fn begin_alone(contexts: &[Context]) -> bool
    ensures { IsTrue result ↔ begins_alone contexts.now }
{
    match contexts {
        [first, ..] => first.before.items().is_empty(),
        [] => false,
    }
}
