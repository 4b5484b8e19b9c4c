//! Laws of the definitions, each the contract of a function that does nothing.
ghost use Rattle.std.specs.Prelude.{◌≡◌, ◌↔◌, ℕ, ◌≤◌, List, [], ◌∷◌, ◌++◌, length, map, filter_map, Bool, Option, Some};
ghost use Rattle.std.specs.Prelude.{IsTrue, Contains};
ghost use Rattle.std.specs.Cmp.{IsTotalOrder};
ghost use Rattle.std.specs.FinMap.{IsAntisymmetric};
ghost use Rattle.road_base.specs.Objects.{Objects};
ghost use Rattle.road_base.specs.declared.ids.NodeId.{NodeId};
ghost use Rattle.road_base.specs.declared.ids.WayId.{WayId};
ghost use Rattle.road_base.specs.declared.ids.RelationId.{RelationId};
ghost use Rattle.road_base.specs.declared.ids.Key.TheVariants.{Way as WayKey};
ghost use Rattle.road_base.specs.declared.ids.Step.{Step};
ghost use Rattle.road_model.specs.declared.lists.PieceName.{PieceName};
ghost use Rattle.ordered_lists.specs.Orders.{Lists};
ghost use Rattle.road_model.specs.Orders.{node_cmp, way_cmp, relation_cmp, name_cmp, names_cmp};
ghost use Rattle.road_model.specs.Lines.{head_of, node_at};
ghost use Rattle.road_model.specs.Driving.{drivable, is_road, Leaves};
ghost use Rattle.road_model.specs.Pieces.{Span, IsPiece, IsInOnePiece, BeginsPiece, spell};
ghost use Rattle.road_model.specs.Words.{IsWord};
ghost use Rattle.road_model.specs.Contexts.{Every};
ghost use Rattle.road_model.specs.Network.{AnyWord, Legal, GoesOn, IsContext, IsContextOf, HasNoWords, spell_pieces};
ghost use Rattle.road_model.specs.Network.{IsArc};
ghost use Rattle.road_model.specs.Links.{HasMember, RefersTo, IsTouched, link_radius};
ghost use Rattle.road_model.specs.Local.{IsSameWithin, forward_radius, HasSameArcs, HasSameSources};
ghost use Rattle.road_model.specs.Blocks.{name_of, IsRoadBlock, IsPlaceOf, IsBlock};
ghost use Rattle.road_model.specs.declared.lists.Place.{Place};
ghost use Rattle.road_model.specs.Highways.{IsHighway};
ghost use Rattle.road_model.specs.declared.blocks.Block.{Block};
ghost use Rattle.road_model.specs.Turning.{HasTurnSteps, BeginsWord, EndsPiece};
ghost use Rattle.road_model.specs.Walks.{AreWalked};
ghost use Rattle.road_model.specs.FileWalks.{AreFileWalks};
ghost use Rattle.road_model.specs.Naming.{OnePiece, OneEntry, OneBlock, OneGraph, HasBlock, HasGraph};
ghost use Rattle.road_model.specs.Broken.{BrokenRule, Broken};

use crate::Profile;
use road_base::WayId;

/// Ways, names of pieces and lists of names stand in total orders, in which only equal ones tie. `cmp` compares names
/// so.
pub fn name_order()
    ensures ways { IsTotalOrder way_cmp }
    ensures way_ties { IsAntisymmetric way_cmp }
    ensures names { IsTotalOrder name_cmp }
    ensures name_ties { IsAntisymmetric name_cmp }
    ensures lists { IsTotalOrder names_cmp }
    ensures list_ties { IsAntisymmetric names_cmp }
    ensures by_cmp { (a b : PieceName) → ⟦<crate::PieceName as Ord>⟧.cmp a b ≡ name_cmp a b }
{}

/// Nodes and relations stand in total orders, in which only equal ones tie.
pub fn number_order()
    ensures nodes { IsTotalOrder node_cmp }
    ensures node_ties { IsAntisymmetric node_cmp }
    ensures relations { IsTotalOrder relation_cmp }
    ensures relation_ties { IsAntisymmetric relation_cmp }
{}

/// A piece is known by its name, and is written in one way.
pub fn one_name<P: Profile>(profile: &P)
    ensures pieces { (M : Objects) → OnePiece M (P.rules profile.now) }
    ensures entries { (M : Objects) → OneEntry M (P.rules profile.now) }
{}

/// A way has one block and no other.
pub fn one_block<P: Profile>(profile: &P)
    ensures { (M : Objects) → OneBlock M (P.rules profile.now) }
{}

/// The graph's bytes of an object map are one and no other.
pub fn one_graph<P: Profile>(profile: &P)
    ensures { (M : Objects) → OneGraph M (P.rules profile.now) }
{}

/// Every way has a block, over every object map.
pub fn has_block<P: Profile>(profile: &P)
    ensures { (M : Objects) → HasBlock M (P.rules profile.now) }
{}

/// Every object map has a graph.
pub fn has_graph<P: Profile>(profile: &P)
    ensures { (M : Objects) → HasGraph M (P.rules profile.now) }
{}

/// Each drivable step stands in the spelling of exactly one piece, once.
pub fn one_piece<P: Profile>(profile: &P)
    ensures { (M : Objects) (s : Step) → IsTrue (drivable M (P.rules profile.now) s)
        → IsInOnePiece M (P.rules profile.now) s }
{}

/// Where a piece ends, each drivable step that leaves is the first one of a piece.
pub fn steps_depart<P: Profile>(profile: &P)
    ensures { (M : Objects) (p : Span) (front : List Step) (last u : Step) (v : NodeId)
        → IsPiece M (P.rules profile.now) p
        → spell p ≡ front ++ last ∷ []
        → head_of M last ≡ Some v
        → Leaves M (P.rules profile.now) v u
        → BeginsPiece M (P.rules profile.now) u }
{}

/// A legal drive stays legal when the steps that stand before its first step in that step's piece are put before it,
/// and when those that stand behind its last step in that step's piece are put behind it.
pub fn whole_pieces<P: Profile>(profile: &P)
    ensures before { (M : Objects) (p : Span) (front : List Step) (s : Step) (back rest : List Step)
        → IsPiece M (P.rules profile.now) p
        → spell p ≡ front ++ s ∷ back
        → Legal M (P.rules profile.now) (s ∷ rest)
        → Legal M (P.rules profile.now) (front ++ s ∷ rest) }
    ensures behind { (M : Objects) (p : Span) (front : List Step) (s : Step) (back rest : List Step)
        → IsPiece M (P.rules profile.now) p
        → spell p ≡ front ++ s ∷ back
        → Legal M (P.rules profile.now) (rest ++ s ∷ [])
        → Legal M (P.rules profile.now) ((rest ++ s ∷ []) ++ back) }
{}

/// A piece alone spells a legal drive, and behind legal pieces it is legal exactly where its first step may go on
/// there.
pub fn one_junction<P: Profile>(profile: &P)
    ensures alone { (M : Objects) (p : Span) → IsPiece M (P.rules profile.now) p
        → Legal M (P.rules profile.now) (spell p) }
    ensures joined { (M : Objects) (d : List Span) (t : Span) (first : Step) (more : List Step)
        → Every (IsPiece M (P.rules profile.now)) d
        → (d ≡ [] → ⊥)
        → Legal M (P.rules profile.now) (spell_pieces d)
        → IsPiece M (P.rules profile.now) t
        → spell t ≡ first ∷ more
        → Legal M (P.rules profile.now) (spell_pieces d ++ spell t)
        ↔ GoesOn M (P.rules profile.now) (spell_pieces d) first }
{}

/// A run of neighbouring steps of a legal drive is legal.
pub fn drive_parts<P: Profile>(profile: &P)
    ensures { (M : Objects) (before d behind : List Step)
        → (d ≡ [] → ⊥)
        → Legal M (P.rules profile.now) (before ++ (d ++ behind))
        → Legal M (P.rules profile.now) d }
{}

/// Inside a piece, between two of its steps, no word begins or ends, and one that comes there goes straight on.
pub fn words_at_junctions<P: Profile>(profile: &P)
    ensures begins { (M : Objects) (p : Span) (front : List Step) (s t : Step) (back rest : List Step)
        → IsPiece M (P.rules profile.now) p
        → spell p ≡ front ++ s ∷ t ∷ back
        → AnyWord M (P.rules profile.now) (s ∷ rest)
        → ⊥ }
    ensures ends { (M : Objects) (p : Span) (front : List Step) (s t : Step) (back before : List Step)
        → IsPiece M (P.rules profile.now) p
        → spell p ≡ front ++ s ∷ t ∷ back
        → AnyWord M (P.rules profile.now) (before ++ t ∷ [])
        → ⊥ }
    ensures goes_straight { (M : Objects) (p : Span) (front : List Step) (s t next : Step)
        (back before rest : List Step)
        → IsPiece M (P.rules profile.now) p
        → spell p ≡ front ++ s ∷ t ∷ back
        → AnyWord M (P.rules profile.now) (before ++ s ∷ next ∷ rest)
        → next ≡ t }
{}

/// A context without its last piece is a context, if some piece is left. A legal list of pieces ends with one longest
/// context, which is found piece by piece: with one more piece it is the longest one that ends the last one and this
/// piece. Where no restriction gives a word, a context is one piece.
pub fn contexts<P: Profile>(profile: &P)
    ensures shorter { (M : Objects) (e : List Span) (t : Span) → (e ≡ [] → ⊥)
        → IsContext M (P.rules profile.now) (e ++ t ∷ []) → IsContext M (P.rules profile.now) e }
    ensures some { (M : Objects) (d : List Span)
        → (d ≡ [] → ⊥)
        → Every (IsPiece M (P.rules profile.now)) d
        → Legal M (P.rules profile.now) (spell_pieces d)
        → (c : List Span) × IsContextOf M (P.rules profile.now) d c }
    ensures one { (M : Objects) (d b c : List Span) → IsContextOf M (P.rules profile.now) d b
        → IsContextOf M (P.rules profile.now) d c → b ≡ c }
    ensures next { (M : Objects) (d b c : List Span) (t : Span)
        → Every (IsPiece M (P.rules profile.now)) d
        → IsPiece M (P.rules profile.now) t
        → IsContextOf M (P.rules profile.now) d b
        → IsContextOf M (P.rules profile.now) (b ++ t ∷ []) c
        → IsContextOf M (P.rules profile.now) (d ++ t ∷ []) c }
    ensures alone { (M : Objects) (c : List Span) → HasNoWords M (P.rules profile.now)
        → IsContext M (P.rules profile.now) c → (p : Span) × (c ≡ p ∷ []) }
{}

/// What may follow a legal list of pieces is decided by the longest context that ends it.
pub fn context_decides<P: Profile>(profile: &P)
    ensures { (M : Objects) (d c : List Span) (t : Span)
        → Every (IsPiece M (P.rules profile.now)) d
        → Legal M (P.rules profile.now) (spell_pieces d)
        → IsContextOf M (P.rules profile.now) d c
        → IsPiece M (P.rules profile.now) t
        → Legal M (P.rules profile.now) (spell_pieces d ++ spell t)
        ↔ Legal M (P.rules profile.now) (spell_pieces c ++ spell t) }
{}

/// Spelling is a one-to-one map from the walks onto the legal drives from junction to junction, and every legal drive
/// is an infix of the spelling of exactly one shortest walk, by pieces and by steps alike.
pub fn walk_law<P: Profile>(profile: &P)
    ensures { (M : Objects) → AreWalked M (P.rules profile.now) }
{}

/// Over the blocks of all ways with pieces, as a graph file spells them, the walks by names alone are the object map's
/// walks, they spell exactly its legal drives from junction to junction, and the places of their pieces are the nodes
/// passed.
pub fn file_walks<P: Profile>(profile: &P)
    ensures { (M : Objects) (blocks : List Block)
        → Lists (λ b. b.way) way_cmp (IsRoadBlock M (P.rules profile.now)) blocks
        → AreFileWalks M (P.rules profile.now) blocks }
{}

/// A drivable step alone is a legal drive, and a legal drive with one more drivable step is legal exactly where this
/// step may go on.
pub fn drive_grows<P: Profile>(profile: &P)
    ensures alone { (M : Objects) (s : Step) → IsTrue (drivable M (P.rules profile.now) s)
        → Legal M (P.rules profile.now) (s ∷ []) }
    ensures grows { (M : Objects) (d : List Step) (t : Step)
        → Legal M (P.rules profile.now) d
        → IsTrue (drivable M (P.rules profile.now) t)
        → GoesOn M (P.rules profile.now) d t ↔ Legal M (P.rules profile.now) (d ++ t ∷ []) }
{}

/// A drive that is neither empty nor legal breaks some rule first, one alone and at one step; a legal one breaks none.
pub fn one_broken_rule<P: Profile>(profile: &P)
    ensures one { (M : Objects) (d : List Step) (j k : ℕ) (a b : BrokenRule)
        → Broken M (P.rules profile.now) d j a
        → Broken M (P.rules profile.now) d k b
        → (j ≡ k) × (a ≡ b) }
    ensures illegal { (M : Objects) (d : List Step) (k : ℕ) (a : BrokenRule)
        → Broken M (P.rules profile.now) d k a
        → Legal M (P.rules profile.now) d
        → ⊥ }
    ensures some { (M : Objects) (d : List Step)
        → (d ≡ [] → ⊥)
        → (Legal M (P.rules profile.now) d → ⊥)
        → (k : ℕ) × (a : BrokenRule) × Broken M (P.rules profile.now) d k a }
{}

/// The steps of a word lie on members of its restriction, and are at least two and at most 1,026.
pub fn words_on_ways<P: Profile>(profile: &P)
    ensures members { (M : Objects) (r : RelationId) (only : Bool) (binding : ℕ) (u : List Step) (s : Step)
        → IsWord M (P.rules profile.now) r only binding u
        → Contains u s
        → HasMember M r (WayKey s.way) }
    ensures long { (M : Objects) (r : RelationId) (only : Bool) (binding : ℕ) (u : List Step)
        → IsWord M (P.rules profile.now) r only binding u
        → (first : Step) × (middle : List Step) × (last : Step) × (u ≡ first ∷ (middle ++ last ∷ [])) }
    ensures short { (M : Objects) (r : RelationId) (only : Bool) (binding : ℕ) (u : List Step)
        → IsWord M (P.rules profile.now) r only binding u
        → length u ≤ 1026 }
{}

/// A context of two pieces or more is known by its steps from the last one of its first piece on: they are legal and
/// begin a word, and each such list of steps up to the last one of a piece is that of one context that ends with this
/// piece. Where such steps end pieces they name the pieces. A context has at most 1,026 pieces.
pub fn context_steps<P: Profile>(profile: &P)
    ensures single { (M : Objects) (p : Span) → IsPiece M (P.rules profile.now) p
        → (last : Step) × HasTurnSteps (p ∷ []) (last ∷ []) }
    ensures to { (M : Objects) (c : List Span) (a b : Span) (rest : List Span)
        → IsContext M (P.rules profile.now) c
        → c ≡ a ∷ b ∷ rest
        → (q : List Step) × HasTurnSteps c q × BeginsWord M (P.rules profile.now) q × Legal M (P.rules profile.now) q }
    ensures from { (M : Objects) (q : List Step) (s : Step) (u : List Step) (t : Step) (p : Span) (front : List Step)
        → Legal M (P.rules profile.now) q
        → BeginsWord M (P.rules profile.now) q
        → q ≡ s ∷ (u ++ t ∷ [])
        → IsPiece M (P.rules profile.now) p
        → spell p ≡ front ++ t ∷ []
        → (before : List Span) × (before ≡ [] → ⊥) × HasTurnSteps (before ++ p ∷ []) q
        × IsContext M (P.rules profile.now) (before ++ p ∷ []) }
    ensures one { (M : Objects) (c d : List Span) (q : List Step)
        → Every (IsPiece M (P.rules profile.now)) c
        → Every (IsPiece M (P.rules profile.now)) d
        → HasTurnSteps c q
        → HasTurnSteps d q
        → c ≡ d }
    ensures names { (M : Objects) (c : List Span) (q : List Step) (f : Step → Option PieceName)
        → Every (IsPiece M (P.rules profile.now)) c
        → HasTurnSteps c q
        → ((s : Step) (n : PieceName) → Contains q s → (f s ≡ Some n) ↔ EndsPiece M (P.rules profile.now) s n)
        → filter_map f q ≡ map name_of c }
    ensures short { (M : Objects) (c : List Span) → IsContext M (P.rules profile.now) c → length c ≤ 1026 }
{}

/// A piece may follow a context exactly where the piece's first step may go on behind the context's last steps, from
/// the last one of its first piece on.
pub fn context_goes_on<P: Profile>(profile: &P)
    ensures { (M : Objects) (c : List Span) (q : List Step) (t : Span) (x : Step) (more : List Step)
        → IsContext M (P.rules profile.now) c
        → HasTurnSteps c q
        → Legal M (P.rules profile.now) q
        → IsPiece M (P.rules profile.now) t
        → spell t ≡ x ∷ more
        → Legal M (P.rules profile.now) (spell_pieces c ++ spell t) ↔ GoesOn M (P.rules profile.now) q x }
{}

/// Where an arc leads: the longest end of the context's steps with which the piece's first step begins a word,
/// without being the whole of it, is that of the pieces that stay before the piece; where there is none, the piece
/// stands alone.
pub fn context_target<P: Profile>(profile: &P)
    ensures alone { (M : Objects) (c : List Span) (q : List Step) (t : Span) (x : Step) (more : List Step)
        → IsContext M (P.rules profile.now) c
        → HasTurnSteps c q
        → IsPiece M (P.rules profile.now) t
        → spell t ≡ x ∷ more
        → Legal M (P.rules profile.now) (spell_pieces c ++ spell t)
        → ((a b : List Step) → q ≡ a ++ b → (b ≡ [] → ⊥) → BeginsWord M (P.rules profile.now) (b ++ x ∷ []) → ⊥)
        → IsContextOf M (P.rules profile.now) (c ++ t ∷ []) (t ∷ []) }
    ensures longer { (M : Objects) (c : List Span) (q : List Step) (t : Span) (x : Step) (more : List Step)
        (a b : List Step)
        → IsContext M (P.rules profile.now) c
        → HasTurnSteps c q
        → IsPiece M (P.rules profile.now) t
        → spell t ≡ x ∷ more
        → Legal M (P.rules profile.now) (spell_pieces c ++ spell t)
        → q ≡ a ++ b
        → (b ≡ [] → ⊥)
        → BeginsWord M (P.rules profile.now) (b ++ x ∷ [])
        → ((k l : List Step) → q ≡ k ++ l → BeginsWord M (P.rules profile.now) (l ++ x ∷ []) → length l ≤ length b)
        → (e : List Span) × HasTurnSteps e b × IsContextOf M (P.rules profile.now) (c ++ t ∷ []) (e ++ t ∷ [])
        × ((d : List Span) × (c ≡ d ++ e)) }
{}

/// A road is linked to each node that its line passes, and so is the way of a drivable step to the node where it
/// begins. A way with pieces is visible and has the key `highway`.
pub fn roads_refer<P: Profile>(profile: &P)
    ensures passed { (M : Objects) (w : WayId) (i : ℕ) (v : NodeId) → IsTrue (is_road M (P.rules profile.now) w)
        → node_at M w i ≡ Some v → RefersTo M w v }
    ensures left { (M : Objects) (v : NodeId) (u : Step) → Leaves M (P.rules profile.now) v u → RefersTo M u.way v }
    ensures blocks { (M : Objects) (b : Block) → IsRoadBlock M (P.rules profile.now) b → IsHighway M b.way }
{}

/// Where no key whose visible body differs between two object maps is within three links of the way, in the one or in
/// the other, the way's pieces are the same in both, with their nodes and locations.
pub fn local_pieces<P: Profile>(profile: &P, way: WayId)
    ensures pieces { (M N : Objects) (p : Span)
        → IsSameWithin 3 M N way
        → p.way ≡ way
        → IsPiece M (P.rules profile.now) p ↔ IsPiece N (P.rules profile.now) p }
    ensures places { (M N : Objects) (p : Span) (k : ℕ) (x : Place)
        → IsSameWithin 3 M N way
        → p.way ≡ way
        → IsPiece M (P.rules profile.now) p
        → IsPlaceOf M p k x ↔ IsPlaceOf N p k x }
{}

/// In the same case the words that have a step of the way are the same in both, each with its relation, its kind and
/// its binding length.
pub fn local_words<P: Profile>(profile: &P, way: WayId)
    ensures { (M N : Objects) (r : RelationId) (only : Bool) (binding : ℕ) (u : List Step) (s : Step)
        → IsSameWithin 3 M N way
        → Contains u s
        → s.way ≡ way
        → IsWord M (P.rules profile.now) r only binding u ↔ IsWord N (P.rules profile.now) r only binding u }
{}

/// Where no such key is within the forward radius of the way, the contexts of the way's pieces are the same in both
/// object maps.
pub fn local_contexts<P: Profile>(profile: &P, way: WayId)
    ensures { (M N : Objects) (before : List Span) (p : Span)
        → IsSameWithin forward_radius M N way
        → p.way ≡ way
        → IsContext M (P.rules profile.now) (before ++ p ∷ []) ↔ IsContext N (P.rules profile.now) (before ++ p ∷ []) }
{}

/// In the same case the arcs of these contexts are the same in both, with the contexts to which they lead.
pub fn local_arcs<P: Profile>(profile: &P, way: WayId)
    ensures { (M N : Objects) (before : List Span) (p t : Span) (target : List Span)
        → IsSameWithin forward_radius M N way
        → p.way ≡ way
        → IsArc M (P.rules profile.now) (before ++ p ∷ []) t target
        ↔ IsArc N (P.rules profile.now) (before ++ p ∷ []) t target }
{}

/// In the same case all is the same in both that stands in the way's block but the sources.
pub fn local_blocks<P: Profile>(profile: &P, way: WayId)
    ensures { (M N : Objects)
        → IsSameWithin forward_radius M N way
        → HasSameArcs M N (P.rules profile.now) way }
{}

/// Where no such key is within the link radius of the way, the same arcs lead by its pieces in both: a source of one
/// of its contexts is a context of a way that shares a node with it, and so is at most two links away.
pub fn local_sources<P: Profile>(profile: &P, way: WayId)
    ensures { (M N : Objects)
        → IsSameWithin link_radius M N way
        → HasSameSources M N (P.rules profile.now) way }
{}

/// A block is what stands in it: where all but the sources is the same in two object maps, and the same arcs lead by
/// the way's pieces, its block is the same in both.
pub fn same_blocks<P: Profile>(profile: &P)
    ensures { (M N : Objects) (w : WayId) (b : Block)
        → HasSameArcs M N (P.rules profile.now) w
        → HasSameSources M N (P.rules profile.now) w
        → IsBlock M (P.rules profile.now) w b ↔ IsBlock N (P.rules profile.now) w b }
{}

/// A change alters no block of a way that it doesn't touch: where the way isn't within the link radius of a key whose
/// visible body differs between two object maps, its block is the same in both.
pub fn locality<P: Profile>(profile: &P, way: WayId)
    ensures { (M N : Objects) (b : Block)
        → (IsTouched M N way → ⊥)
        → IsBlock M (P.rules profile.now) way b ↔ IsBlock N (P.rules profile.now) way b }
{}

/// The same of the blocks of all ways: a way that a change doesn't touch keeps its block.
pub fn blocks_stay<P: Profile>(profile: &P)
    ensures { (M N : Objects) (w : WayId) (b : Block)
        → (IsTouched M N w → ⊥)
        → IsBlock M (P.rules profile.now) w b ↔ IsBlock N (P.rules profile.now) w b }
{}
