//! Pieces, contexts and arcs of the turn-expanded graph, and lists of them.
ghost use Rattle.std.specs.Prelude.{◌≡◌, [], ◌∷◌, IfOk, IfSome};

use road_base::{Dir, Location, NoMemory, NodeId, WayId};
use smallvec::SmallVec;
use std::alloc::Global;
use std::default::MadeWith;
use std::marker::Model;

/// Most contexts have so many arcs or fewer: at a crossing one to each side, and one straight on.
const FEW_ARCS: usize = 3;

/// Most contexts have so many sources or fewer: at a crossing one from each side, and one from straight behind.
const FEW_SOURCES: usize = 3;

/// What names a piece: its way, its lower position on the way's line, and its direction. Names are compared in this
/// order.
#[derive(Clone, Copy, PartialEq, Eq, PartialOrd, Ord, Debug)]
pub struct PieceName {
    pub way: WayId,
    pub index: u32,
    pub dir: Dir,
}

/// A node that a piece passes, and where it lies.
#[derive(Clone, Copy, PartialEq, Eq, Debug)]
pub struct Place {
    pub node: NodeId,
    pub location: Location,
}

/// An arc: the piece by which it leads on, and how many pieces the context has to which it leads. These are the last
/// pieces of the context from which it comes, and then that piece.
#[derive(Clone, Copy, PartialEq, Eq, Debug)]
pub struct TurnArc {
    pub piece: PieceName,
    pub length: u32,
}

/// A context of a piece: the pieces driven before it, as far as they matter, the arcs from there, and its sources: the
/// contexts from which an arc leads there, each by the names of all its pieces.
#[derive(Drop)]
pub struct Context {
    pub before: Names,
    pub arcs: Arcs,
    pub sources: Sources,
}

/// A run of a way between two junctions in one direction: its name, its upper position on the way's line, its mark, the
/// nodes in order of travel, and its contexts.
#[derive(Drop)]
pub struct Piece {
    pub name: PieceName,
    pub end: u32,
    /// Whether the piece is marked as one of a zone, as the profile says of its way's tags in its direction.
    pub zone: bool,
    pub places: Places,
    pub contexts: Contexts,
}

impl Context {
    /// An equal value.
    pub fn copy(&self) -> Result<Context, NoMemory>
        ensures { IfOk result (λ c. c ≡ self.now) }
    {
        let before = self.before.copy()?;
        let arcs = self.arcs.copy()?;
        let sources = self.sources.copy()?;
        Ok(Context {
            before,
            arcs,
            sources,
        })
    }
}

impl Default for PieceName {
    /// What stands where a short list has room for a name.
    fn default() -> PieceName {
        PieceName {
            way: WayId(0),
            index: 0,
            dir: Dir::Forward,
        }
    }
}

impl Default for TurnArc {
    /// What stands where a short list has room for an arc.
    fn default() -> TurnArc {
        TurnArc {
            piece: PieceName::default(),
            length: 0,
        }
    }
}

impl MadeWith<Global> for Names {
    /// What stands where a short list has room for names.
    fn made_with(alloc: Global) -> Names {
        Names::from_list(Vec::new(alloc))
    }
}

impl MadeWith<Global> for Context {
    /// What stands where a short list has room for a context.
    fn made_with(alloc: Global) -> Context {
        Context {
            before: Names::from_list(Vec::new(alloc)),
            arcs: Arcs::from_list(Vec::new(alloc)),
            sources: Sources::from_list(Vec::new(alloc)),
        }
    }
}

impl Piece {
    /// An equal value.
    pub fn copy(&self) -> Result<Piece, NoMemory>
        ensures { IfOk result (λ p. p ≡ self.now) }
    {
        let places = self.places.copy()?;
        let contexts = self.contexts.copy()?;
        Ok(Piece {
            name: self.name,
            end: self.end,
            zone: self.zone,
            places,
            contexts,
        })
    }
}

/// Names of pieces. One alone takes no memory of its own.
#[derive(Drop)]
pub struct Names {
    list: SmallVec<PieceName, 1>,
}

impl Model for Names {
    ghost use Rattle.std.specs.Prelude.{List};
    ghost use Rattle.road_model.specs.declared.lists.PieceName.{PieceName};

    ghost Value = { List PieceName };

    ghost view = { λ l. l.list.items };
}

impl Names {
    /// Takes no memory.
    pub fn from_list(list: Vec<PieceName>) -> Names
        ensures { result ≡ list.items }
    {
        match list.as_slice() {
            [name] => Names::one(*list.allocator(), *name),
            _ => Names {
                list: SmallVec::from_vec(list),
            },
        }
    }

    /// One name alone. Takes no memory.
    pub fn one(alloc: Global, name: PieceName) -> Names
        ensures { result ≡ name ∷ [] }
    {
        Names {
            list: SmallVec::from_buf(alloc, [name]),
        }
    }

    /// In their stated order: of travel, or ascending.
    pub fn items(&self) -> &[PieceName]
        ensures { result.now ≡ self.now }
    {
        self.list.as_slice()
    }

    /// An equal value.
    pub fn copy(&self) -> Result<Names, NoMemory>
        ensures { IfOk result (λ l. l ≡ self.now) }
    {
        let list = SmallVec::from_slice(*self.list.allocator(), self.list.as_slice())?;
        Ok(Names { list })
    }
}

/// Arcs from a context. Three or fewer take no memory of their own.
#[derive(Drop)]
pub struct Arcs {
    list: SmallVec<TurnArc, FEW_ARCS>,
}

impl Model for Arcs {
    ghost use Rattle.std.specs.Prelude.{List};
    ghost use Rattle.road_model.specs.declared.lists.TurnArc.{TurnArc};

    ghost Value = { List TurnArc };

    ghost view = { λ l. l.list.items };
}

impl Arcs {
    /// Takes no memory.
    pub fn from_list(list: Vec<TurnArc>) -> Arcs
        ensures { result ≡ list.items }
    {
        match few_arcs(&list) {
            Some(list) => Arcs { list },
            None => Arcs {
                list: SmallVec::from_vec(list),
            },
        }
    }

    /// Ascending by name, in a graph.
    pub fn items(&self) -> &[TurnArc]
        ensures { result.now ≡ self.now }
    {
        self.list.as_slice()
    }

    /// An equal value.
    pub fn copy(&self) -> Result<Arcs, NoMemory>
        ensures { IfOk result (λ l. l ≡ self.now) }
    {
        let list = SmallVec::from_slice(*self.list.allocator(), self.list.as_slice())?;
        Ok(Arcs { list })
    }
}

/// The arcs without memory of their own, if they are few.
fn few_arcs(list: &Vec<TurnArc>) -> Option<SmallVec<TurnArc, FEW_ARCS>>
    ensures { IfSome result (λ few. few.items ≡ list.now.items) }
{
    if list.len() > FEW_ARCS {
        return None;
    }
    SmallVec::from_slice(*list.allocator(), list.as_slice()).ok()
}

/// The sources of a context: of each context from which an arc leads there, the names of all its pieces. Three or fewer
/// take no memory of their own.
#[derive(Drop)]
pub struct Sources {
    list: SmallVec<Names, FEW_SOURCES>,
}

impl Model for Sources {
    ghost use Rattle.std.specs.Prelude.{List};
    ghost use Rattle.road_model.specs.declared.lists.PieceName.{PieceName};

    ghost Value = { List (List PieceName) };

    ghost view = { λ l. l.list.items };
}

impl Sources {
    /// Takes no memory.
    pub fn from_list(list: Vec<Names>) -> Sources
        ensures { result ≡ list.items }
    {
        let mut list = SmallVec::from_vec(list);
        if list.len() <= FEW_SOURCES {
            list.shrink_to_fit();
        }
        Sources { list }
    }

    /// By length and then by names, in a graph.
    pub fn items(&self) -> &[Names]
        ensures { result.now ≡ self.now }
    {
        self.list.as_slice()
    }

    /// An equal value.
    pub fn copy(&self) -> Result<Sources, NoMemory>
        ensures { IfOk result (λ l. l ≡ self.now) }
    {
        let from = self.list.as_slice();
        let mut list = SmallVec::with_capacity(*self.list.allocator(), from.len())?;
        for item in from {
            list.push(item.copy()?)?;
        }
        Ok(Sources { list })
    }
}

/// The nodes that a piece passes.
#[derive(Drop)]
pub struct Places {
    list: Vec<Place>,
}

impl Model for Places {
    ghost use Rattle.std.specs.Prelude.{List};
    ghost use Rattle.road_model.specs.declared.lists.Place.{Place};

    ghost Value = { List Place };

    ghost view = { λ l. l.list.items };
}

impl Places {
    /// Takes no memory.
    pub fn from_list(list: Vec<Place>) -> Places
        ensures { result ≡ list.items }
    {
        Places { list }
    }

    /// In order of travel.
    pub fn items(&self) -> &[Place]
        ensures { result.now ≡ self.now }
    {
        self.list.as_slice()
    }

    /// An equal value.
    pub fn copy(&self) -> Result<Places, NoMemory>
        ensures { IfOk result (λ l. l ≡ self.now) }
    {
        let list = self.list.clone()?;
        Ok(Places { list })
    }
}

/// The contexts of a piece. Where there is one alone, as for most pieces, it takes no memory of its own.
#[derive(Drop)]
pub struct Contexts {
    list: SmallVec<Context, 1>,
}

impl Model for Contexts {
    ghost use Rattle.std.specs.Prelude.{List};
    ghost use Rattle.road_model.specs.declared.lists.Context.{Context};

    ghost Value = { List Context };

    ghost view = { λ l. l.list.items };
}

impl Contexts {
    /// Takes no memory.
    pub fn from_list(list: Vec<Context>) -> Contexts
        ensures { result ≡ list.items }
    {
        let mut list = list;
        if list.len() == 1 {
            if let Some(context) = list.pop() {
                return Contexts {
                    list: SmallVec::from_buf(*list.allocator(), [context]),
                };
            }
        }
        Contexts {
            list: SmallVec::from_vec(list),
        }
    }

    /// By length and then by names, in a graph.
    pub fn items(&self) -> &[Context]
        ensures { result.now ≡ self.now }
    {
        self.list.as_slice()
    }

    /// An equal value.
    pub fn copy(&self) -> Result<Contexts, NoMemory>
        ensures { IfOk result (λ l. l ≡ self.now) }
    {
        let from = self.list.as_slice();
        let mut list = SmallVec::with_capacity(*self.list.allocator(), from.len())?;
        for item in from {
            list.push(item.copy()?)?;
        }
        Ok(Contexts { list })
    }
}

/// The pieces of a way.
#[derive(Drop)]
pub struct Pieces {
    list: Vec<Piece>,
}

impl Model for Pieces {
    ghost use Rattle.std.specs.Prelude.{List};
    ghost use Rattle.road_model.specs.declared.lists.Piece.{Piece};

    ghost Value = { List Piece };

    ghost view = { λ l. l.list.items };
}

impl Pieces {
    /// Takes no memory.
    pub fn from_list(list: Vec<Piece>) -> Pieces
        ensures { result ≡ list.items }
    {
        Pieces { list }
    }

    /// Ascending by name, in a graph.
    pub fn items(&self) -> &[Piece]
        ensures { result.now ≡ self.now }
    {
        self.list.as_slice()
    }

    /// An equal value.
    pub fn copy(&self) -> Result<Pieces, NoMemory>
        ensures { IfOk result (λ l. l ≡ self.now) }
    {
        let from = self.list.as_slice();
        let mut list = Vec::with_capacity(*self.list.allocator(), from.len())?;
        for item in from {
            list.push(item.copy()?)?;
        }
        Ok(Pieces { list })
    }
}
