//! A graph that is read from the bytes of a graph file.
ghost use Rattle.std.specs.Prelude.{◌≡◌, ◌++◌, ℕ, Bool, List, map, option_copied, Some, IsTrue, IfOk, IfErr, IfSome};
ghost use Rattle.std.specs.Prelude.{IfNone};
ghost use Rattle.std.specs.List.{AllByRecursion};
ghost use Rattle.std.specs.FinMap.{values};
ghost use Rattle.road_base.specs.Profiles.{IsProfile};
ghost use Rattle.road_base.specs.Bytes.{u32_bytes};
ghost use Rattle.road_model.specs.declared.lists.PieceName.{PieceName};
ghost use Rattle.road_model.specs.declared.lists.TurnArc.{TurnArc};
ghost use Rattle.road_model.specs.declared.lists.Context.{Context};
ghost use Rattle.road_model.specs.declared.blocks.Block.{Block};
ghost use Rattle.ordered_lists.specs.Orders.{rises};
ghost use Rattle.road_model.specs.Orders.{way_cmp};
ghost use Rattle.road_model.specs.Format.{graph_bytes, magic_bytes, block_bytes, is_sourced, IsVersion, IsBlockForm};
ghost use Rattle.road_model.specs.Format.{IsGraphFile};
ghost use Rattle.spelled_bytes.specs.Reading.{Begins, NoneBegins, IfMalformed};
ghost use Rattle.graph_file.specs.GraphReading.{list_bytes, ListFits, IsWayBlock, IsBareBlock, IsFile, IsOfItsWay};
ghost use Rattle.graph_file.specs.GraphReading.{BeginsFile};
ghost use Rattle.graph_file.specs.LookUps.{AreOrdered, HasContextsOf, HasContextAt, HasArcsOf, HasSourcesAt};
ghost use Rattle.graph_file.specs.LookUps.{HasSourcesOf};

use crate::VERSION;
use crate::ascending::do_ascend;
use crate::grammar::{GraphFile, Plain, Sourced};
use crate::lists::read_list;
use crate::look_ups::piece_named;
use road_base::{NoMemory, is_profile};
use road_model::{Arcs, Block, Blocks, Context, Contexts, PieceName, Sources};
use spelled_bytes::{Spell, Unread};
use std::alloc::Global;

/// A graph as a graph file holds it.
#[derive(Drop)]
pub struct Graph {
    pub version: u32,
    pub profile: u32,
    pub blocks: Blocks,
    /// A piece is found by its way, and then by its name.
    ghost ordered: { AreOrdered (values blocks.map) },
}

impl Graph {
    /// The graph that the bytes spell, of version 1 or 2; None exactly where they are in neither grammar. Of version 1
    /// it has no marks and no sources. Written again for its version and profile it has the same bytes.
    pub fn read(alloc: Global, bytes: &[u8]) -> Result<Option<Graph>, NoMemory>
        ensures version { IfOk result (λ r. IfSome r (λ g. IsVersion g.version)) }
        ensures profile { IfOk result (λ r. IfSome r (λ g. IsProfile g.profile)) }
        ensures bytes { IfOk result (λ r. IfSome r
            (λ g. bytes.now ≡ graph_bytes g.version g.profile (values g.blocks.map))) }
        ensures forms { IfOk result (λ r. IfSome r
            (λ g. AllByRecursion (IsBlockForm (is_sourced g.version)) (values g.blocks.map))) }
        ensures bare { IfOk result (λ r. IfSome r
            (λ g. g.version ≡ 1 → AllByRecursion IsBareBlock (values g.blocks.map))) }
        ensures ways { IfOk result (λ r. IfSome r (λ g. AllByRecursion IsOfItsWay (values g.blocks.map))) }
        ensures grammar { IfOk result (λ r. IfSome r (λ _. IsGraphFile bytes.now)) }
        ensures file { IfOk result (λ r. IfSome r
            (λ g. IsFile g.version g.profile bytes.now (values g.blocks.map))) }
        ensures none { IfOk result (λ r. IfNone r (IsGraphFile bytes.now → ⊥)) }
    {
        match Graph::read_front(alloc, bytes) {
            Ok(Some((graph, rest))) => {
                if rest.len() > 0 {
                    return Ok(None);
                }
                Ok(Some(graph))
            }
            Ok(None) => Ok(None),
            Err(error) => Err(error),
        }
    }

    /// The graph of version 1 or 2 that the bytes begin with, and what stands behind it; None exactly where they begin
    /// with none. A graph tells its own end, so no other front of the bytes is one.
    pub fn read_front(alloc: Global, bytes: &[u8]) -> Result<Option<(Graph, &[u8])>, NoMemory>
        ensures version { IfOk result (λ r. IfSome r (λ g. IsVersion g.0.version)) }
        ensures profile { IfOk result (λ r. IfSome r (λ g. IsProfile g.0.profile)) }
        ensures front { IfOk result (λ r. IfSome r
            (λ g. bytes.now ≡ graph_bytes g.0.version g.0.profile (values g.0.blocks.map) ++ g.1.now)) }
        ensures forms { IfOk result (λ r. IfSome r
            (λ g. AllByRecursion (IsBlockForm (is_sourced g.0.version)) (values g.0.blocks.map))) }
        ensures bare { IfOk result (λ r. IfSome r
            (λ g. g.0.version ≡ 1 → AllByRecursion IsBareBlock (values g.0.blocks.map))) }
        ensures ways { IfOk result (λ r. IfSome r (λ g. AllByRecursion IsOfItsWay (values g.0.blocks.map))) }
        ensures grammar { IfOk result (λ r. IfSome r
            (λ g. IsGraphFile (graph_bytes g.0.version g.0.profile (values g.0.blocks.map)))) }
        ensures file { IfOk result (λ r. IfSome r (λ g. IsFile g.0.version g.0.profile
            (graph_bytes g.0.version g.0.profile (values g.0.blocks.map)) (values g.0.blocks.map))) }
        ensures none { IfOk result (λ r. IfNone r
            ((front rest : List ℕ) → bytes.now ≡ front ++ rest → IsGraphFile front → ⊥)) }
    {
        match read_blocks(alloc, bytes) {
            Ok((version, (profile, (list, rest)))) => {
                let blocks = into_blocks(alloc, list)?;
                let graph = Graph {
                    version,
                    profile,
                    blocks,
                };
                Ok(Some((graph, rest)))
            }
            Err(Unread::Malformed) => Ok(None),
            Err(Unread::Memory) => Err(NoMemory),
        }
    }

    /// The contexts of the piece, by length and then by names. None exactly where the graph has no such piece. Takes no
    /// memory.
    pub fn contexts(&self, piece: PieceName) -> Option<&Contexts>
        ensures some { IfSome result (λ l. HasContextsOf (values self.now.blocks.map) piece l.now) }
        ensures only { (l : List Context) → HasContextsOf (values self.now.blocks.map) piece l
            → option_copied result ≡ Some l }
    {
        match piece_named(self.blocks.items(), piece) {
            Some(found) => Some(&found.contexts),
            None => None,
        }
    }

    /// The arcs from the piece's context at the place, by name. None exactly where the graph has no such piece, or the
    /// piece no context at the place. Takes no memory.
    pub fn arcs(&self, piece: PieceName, place: usize) -> Option<&Arcs>
        ensures some { IfSome result (λ l. HasArcsOf (values self.now.blocks.map) piece place l.now) }
        ensures only { (l : List TurnArc) → HasArcsOf (values self.now.blocks.map) piece place l
            → option_copied result ≡ Some l }
    {
        match self.contexts(piece) {
            Some(contexts) => arcs_at(contexts.items(), place),
            None => None,
        }
    }

    /// The sources of the piece's context at the place, by length and then by names. None exactly where the graph has
    /// no such piece, or the piece no context at the place. Takes no memory.
    pub fn sources(&self, piece: PieceName, place: usize) -> Option<&Sources>
        ensures some { IfSome result (λ l. HasSourcesOf (values self.now.blocks.map) piece place l.now) }
        ensures only { (l : List (List PieceName))
            → HasSourcesOf (values self.now.blocks.map) piece place l
            → option_copied result ≡ Some l }
    {
        match self.contexts(piece) {
            Some(contexts) => sources_at(contexts.items(), place),
            None => None,
        }
    }
}

/// The arcs from the context at the place.
fn arcs_at(contexts: &[Context], place: usize) -> Option<&Arcs>
    ensures some { IfSome result (λ l. HasContextAt contexts.now place l.now) }
    ensures only { (l : List TurnArc) → HasContextAt contexts.now place l → option_copied result ≡ Some l }
{
    match contexts.get(place) {
        Some(context) => Some(&context.arcs),
        None => None,
    }
}

/// The sources of the context at the place.
fn sources_at(contexts: &[Context], place: usize) -> Option<&Sources>
    ensures some { IfSome result (λ l. HasSourcesAt contexts.now place l.now) }
    ensures only { (l : List (List PieceName)) → HasSourcesAt contexts.now place l → option_copied result ≡ Some l }
{
    match contexts.get(place) {
        Some(context) => Some(&context.sources),
        None => None,
    }
}

/// The version that the magic names, and what stands behind it; None exactly where no magic stands in front.
fn behind_magic(bytes: &[u8]) -> Option<(u32, &[u8])>
    ensures version { IfSome result (λ r. IsVersion r.0) }
    ensures some { IfSome result (λ r. bytes.now ≡ magic_bytes (is_sourced r.0) ++ r.1.now) }
    ensures none { IfNone result ((sourced : Bool) (rest : List ℕ) → bytes.now ≡ magic_bytes sourced ++ rest → ⊥) }
{
    if let Some(rest) = bytes.strip_prefix(b"OSMROAD2") {
        return Some((VERSION, rest));
    }
    match bytes.strip_prefix(b"OSMROAD1") {
        Some(rest) => Some((1, rest)),
        None => None,
    }
}

/// Reads the number of a profile.
fn read_profile(alloc: Global, bytes: &[u8]) -> Result<(u32, &[u8]), Unread>
    ensures found { IfOk result (λ r. Begins u32_bytes IsProfile bytes.now r.0 r.1.now) }
    ensures malformed { IfErr result (λ e. IfMalformed e (NoneBegins u32_bytes IsProfile bytes.now)) }
{
    let (number, rest) = <u32 as Spell<GraphFile<Plain>>>::read(alloc, bytes)?;
    if !is_profile(number) {
        return Err(Unread::Malformed);
    }
    Ok((number, rest))
}

/// Reads how many blocks there are, and these, by the grammar of the version.
fn read_list_of(alloc: Global, version: u32, bytes: &[u8]) -> Result<(Vec<Block>, &[u8]), Unread>
    ensures found { IfOk result (λ x. Begins (list_bytes (block_bytes (is_sourced version)))
        (ListFits (IsWayBlock (is_sourced version))) bytes.now x.0.items x.1.now) }
    ensures malformed { IfErr result (λ e. IfMalformed e
        (NoneBegins (list_bytes (block_bytes (is_sourced version))) (ListFits (IsWayBlock (is_sourced version)))
        bytes.now)) }
{
    if version == VERSION {
        read_list::<Sourced, Block>(alloc, bytes)
    } else {
        read_list::<Plain, Block>(alloc, bytes)
    }
}

/// Reads the version of a file, the profile's number, and its blocks, which ascend.
fn read_blocks(alloc: Global, bytes: &[u8]) -> Result<(u32, (u32, (Vec<Block>, &[u8]))), Unread>
    ensures found { IfOk result (λ r. BeginsFile r.0 r.1.0 bytes.now r.1.1.0.items r.1.1.1.now) }
    ensures malformed { IfErr result (λ e. IfMalformed e
        ((version profile : ℕ) (list : List Block) (rest : List ℕ)
        → BeginsFile version profile bytes.now list rest → ⊥)) }
{
    let (version, rest) = match behind_magic(bytes) {
        Some(front) => front,
        None => return Err(Unread::Malformed),
    };
    let (profile, rest) = read_profile(alloc, rest)?;
    let (list, rest) = read_list_of(alloc, version, rest)?;
    if !do_ascend::<Block>(&list) {
        return Err(Unread::Malformed);
    }
    Ok((version, (profile, (list, rest))))
}

/// The blocks of ascending ways, each at its way.
fn into_blocks(alloc: Global, list: Vec<Block>) -> Result<Blocks, NoMemory>
    requires { IsTrue (rises way_cmp (map (λ b. b.way) list.items)) }
    ensures { IfOk result (λ blocks. values blocks.map ≡ list.items) }
{
    let mut blocks = Blocks::new(alloc);
    blocks.reserve(list.len())?;
    for block in list {
        blocks.insert(block)?;
    }
    Ok(blocks)
}
