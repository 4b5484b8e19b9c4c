//! The ways by whose pieces other arcs lead than before.
ghost use Rattle.std.specs.Prelude.{◌≡◌, ◌⊎◌, List, IfOk, OnOk, IsTrue, Contains};
ghost use Rattle.ordered_lists.specs.Orders.{rises};
ghost use Rattle.road_base.specs.declared.ids.WayId.{WayId as WayNumber};
ghost use Rattle.road_model.specs.declared.lists.PieceName.{PieceName as NameValue};
ghost use Rattle.road_model.specs.declared.lists.TurnArc.{TurnArc as ArcValue};
ghost use Rattle.road_model.specs.Orders.{way_cmp};
ghost use Rattle.graph_blocks.specs.Lent.{map_of};
ghost use Rattle.touched_ways.specs.Altering.{ListSameArcs, ListsArc, ListsArcBehind};
ghost use Rattle.change_apply.specs.Rebuilding.{pieces_at};
ghost use Rattle.change_apply.specs.Sourcing.{AreArcsLed, AreLed, AreLedBehind};
ghost use Rattle.change_apply.specs.Sourcing.{IsLedFrom, LeadBehind, LeadTo, ListArcTo};
ghost use Rattle.change_apply.specs.Standing.{built_in};

use crate::known::Standing;
use crate::sameness::same_arcs;
use ordered_lists::leave_once;
use road_base::{NoMemory, WayId, Ways};
use road_model::laws::name_order;
use road_model::{Context, Piece, PieceName, TurnArc};
use std::alloc::Global;
use touched_ways::apart_from;

/// The ways, ascending, but those of both lists, by whose pieces an arc leads that stands in one of two blocks of a way
/// alone: in the block that stood before, or in the one that was built for it, if it is one of these ways. Takes the
/// time of a run over the blocks of each, and of a sort of what differs; and no memory where nothing does.
pub fn led_to(
    alloc: Global,
    before: &Standing<'_>,
    near_ways: &Ways,
    near: &Standing<'_>,
    met_ways: &Ways,
    met: &Standing<'_>,
) -> Result<Ways, NoMemory>
    requires near_ways { IsTrue (rises way_cmp near_ways.now) }
    requires met_ways { IsTrue (rises way_cmp met_ways.now) }
    ensures ascending { IfOk result (λ led. IsTrue (rises way_cmp led)) }
    ensures apart { IfOk result (λ led. (w : WayNumber) → Contains led w
        → (Contains near_ways.now w → ⊥) × (Contains met_ways.now w → ⊥)) }
    ensures only { IfOk result (λ led. (w : WayNumber) → Contains led w
        → IsLedFrom (pieces_at (built_in before.now) (map_of before.now.blocks.now))
        (pieces_at (built_in near.now) (map_of near.now.blocks.now)) near_ways.now w
        ⊎ IsLedFrom (pieces_at (built_in before.now) (map_of before.now.blocks.now))
        (pieces_at (built_in met.now) (map_of met.now.blocks.now)) met_ways.now w) }
    ensures near { IfOk result (λ led. (v w : WayNumber) → Contains near_ways.now v → (Contains led w → ⊥)
        → (Contains near_ways.now w → ⊥) → (Contains met_ways.now w → ⊥)
        → ListSameArcs w (pieces_at (built_in before.now) (map_of before.now.blocks.now) v)
        (pieces_at (built_in near.now) (map_of near.now.blocks.now) v)) }
    ensures met { IfOk result (λ led. (v w : WayNumber) → Contains met_ways.now v → (Contains led w → ⊥)
        → (Contains near_ways.now w → ⊥) → (Contains met_ways.now w → ⊥)
        → ListSameArcs w (pieces_at (built_in before.now) (map_of before.now.blocks.now) v)
        (pieces_at (built_in met.now) (map_of met.now.blocks.now) v)) }
{
    name_order();
    let mut led = Vec::new(alloc);
    add_led(before, near, near_ways.items(), &mut led)?;
    add_led(before, met, met_ways.items(), &mut led)?;
    leave_once(&mut led);
    let all = Ways::from_list(led);
    let others = apart_from(alloc, &all, near_ways)?;
    apart_from(alloc, &others, met_ways)
}

/// Adds the ways by whose pieces an arc leads that stands in one of two blocks of one of these ways alone.
fn add_led(
    before: &Standing<'_>,
    after: &Standing<'_>,
    ways: &[WayId],
    led: &mut Vec<WayId>,
) -> Result<(), NoMemory>
    ensures keeps { OnOk result ((w : WayNumber) → Contains led.old.items w → Contains led.new.items w) }
    ensures only { OnOk result ((w : WayNumber) → Contains led.new.items w → Contains led.old.items w
        ⊎ IsLedFrom (pieces_at (built_in before.now) (map_of before.now.blocks.now))
        (pieces_at (built_in after.now) (map_of after.now.blocks.now)) ways.now w) }
    ensures alike { OnOk result ((v w : WayNumber) → Contains ways.now v → (Contains led.new.items w → ⊥)
        → ListSameArcs w (pieces_at (built_in before.now) (map_of before.now.blocks.now) v)
        (pieces_at (built_in after.now) (map_of after.now.blocks.now) v)) }
{
    for way in ways {
        let was = before.pieces(*way);
        let is = after.pieces(*way);
        add_either(was, is, led)?;
    }
    Ok(())
}

/// Adds the ways by whose pieces an arc leads that stands in one of both lists of pieces alone.
fn add_either(was: &[Piece], is: &[Piece], led: &mut Vec<WayId>) -> Result<(), NoMemory>
    ensures keeps { OnOk result ((w : WayNumber) → Contains led.old.items w → Contains led.new.items w) }
    ensures only { OnOk result ((w : WayNumber) → Contains led.new.items w
        → Contains led.old.items w ⊎ (ListArcTo was.now w ⊎ ListArcTo is.now w)) }
    ensures alike { OnOk result ((w : WayNumber) → (Contains led.new.items w → ⊥) → ListSameArcs w was.now is.now) }
{
    add_pieces(was, is, led)?;
    add_pieces(is, was, led)
}

/// Adds the ways by whose pieces an arc of these pieces leads that the others lack. Where both ascend by name they are
/// gone along once.
fn add_pieces(pieces: &[Piece], others: &[Piece], led: &mut Vec<WayId>) -> Result<(), NoMemory>
    ensures keeps { OnOk result ((w : WayNumber) → Contains led.old.items w → Contains led.new.items w) }
    ensures only { OnOk result ((w : WayNumber) → Contains led.new.items w
        → Contains led.old.items w ⊎ ListArcTo pieces.now w) }
    ensures led { OnOk result (AreLed pieces.now others.now led.new.items) }
{
    let mut at = 0;
    for piece in pieces {
        at = piece_from(others, at, piece.name);
        let contexts = contexts_at(others, at, piece.name);
        add_contexts(piece.contexts.items(), contexts, led)?;
    }
    Ok(())
}

/// The same of contexts, which ascend by the names before.
fn add_contexts(
    contexts: &[Context],
    others: &[Context],
    led: &mut Vec<WayId>,
) -> Result<(), NoMemory>
    ensures keeps { OnOk result ((w : WayNumber) → Contains led.old.items w → Contains led.new.items w) }
    ensures only { OnOk result ((w : WayNumber) → Contains led.new.items w
        → Contains led.old.items w ⊎ LeadBehind contexts.now w) }
    ensures led { OnOk result (AreLedBehind contexts.now others.now led.new.items) }
{
    let mut at = 0;
    for context in contexts {
        let before = context.before.items();
        at = context_from(others, at, before);
        let arcs = arcs_at(others, at, before);
        add_arcs(context.arcs.items(), arcs, led)?;
    }
    Ok(())
}

/// The same of arcs, which ascend by piece.
fn add_arcs(arcs: &[TurnArc], others: &[TurnArc], led: &mut Vec<WayId>) -> Result<(), NoMemory>
    ensures keeps { OnOk result ((w : WayNumber) → Contains led.old.items w → Contains led.new.items w) }
    ensures only { OnOk result ((w : WayNumber) → Contains led.new.items w
        → Contains led.old.items w ⊎ LeadTo arcs.now w) }
    ensures led { OnOk result (AreArcsLed arcs.now others.now led.new.items) }
{
    if same_arcs(arcs, others) {
        return Ok(());
    }
    add_each_arc(arcs, others, led)
}

/// The same, arc by arc.
fn add_each_arc(arcs: &[TurnArc], others: &[TurnArc], led: &mut Vec<WayId>) -> Result<(), NoMemory>
    ensures keeps { OnOk result ((w : WayNumber) → Contains led.old.items w → Contains led.new.items w) }
    ensures only { OnOk result ((w : WayNumber) → Contains led.new.items w
        → Contains led.old.items w ⊎ LeadTo arcs.now w) }
    ensures led { OnOk result (AreArcsLed arcs.now others.now led.new.items) }
{
    let mut at = 0;
    for arc in arcs {
        at = arc_from(others, at, arc.piece);
        add_unless_at(*arc, others, at, led)?;
    }
    Ok(())
}

/// Adds the way of the arc's piece, unless the arc stands at the position.
fn add_unless_at(
    arc: TurnArc,
    others: &[TurnArc],
    at: usize,
    led: &mut Vec<WayId>,
) -> Result<(), NoMemory>
    ensures keeps { OnOk result ((w : WayNumber) → Contains led.old.items w → Contains led.new.items w) }
    ensures only { OnOk result ((w : WayNumber) → Contains led.new.items w
        → Contains led.old.items w ⊎ (arc.piece.way ≡ w)) }
    ensures adds { OnOk result (Contains others.now arc ⊎ Contains led.new.items arc.piece.way) }
{
    if is_at(others, at, arc) {
        return Ok(());
    }
    led.push(arc.piece.way)?;
    Ok(())
}

/// Whether the arc stands at the position.
fn is_at(arcs: &[TurnArc], at: usize, arc: TurnArc) -> bool
    ensures { IsTrue result → Contains arcs.now arc }
{
    at < arcs.len() && arcs[at] == arc
}

/// The contexts of the piece at the position, if it has the name, and else none.
fn contexts_at(pieces: &[Piece], at: usize, name: PieceName) -> &[Context]
    ensures { (before : List NameValue) (a : ArcValue) → ListsArcBehind result.now before a
        → ListsArc pieces.now name before a }
{
    match pieces.get(at) {
        Some(piece) if piece.name == name => piece.contexts.items(),
        _ => &[],
    }
}

/// The arcs of the context at the position, if it has these names before, and else none.
fn arcs_at<'a>(contexts: &'a [Context], at: usize, before: &[PieceName]) -> &'a [TurnArc]
    ensures { (a : ArcValue) → Contains result.now a → ListsArcBehind contexts.now before.now a }
{
    match contexts.get(at) {
        Some(context) if context.before.items() == before => context.arcs.items(),
        _ => &[],
    }
}

/// The first position from `low` on at which a piece stands whose name isn't below this one, or the end. Nothing is
/// promised of it: whoever asks compares the name.
fn piece_from(pieces: &[Piece], low: usize, name: PieceName) -> usize {
    for at in low..pieces.len() {
        if pieces[at].name >= name {
            return at;
        }
    }
    pieces.len()
}

/// The same of contexts, by the names before, which are compared by length first.
fn context_from(contexts: &[Context], low: usize, before: &[PieceName]) -> usize {
    for at in low..contexts.len() {
        if !is_below(contexts[at].before.items(), before) {
            return at;
        }
    }
    contexts.len()
}

/// The same of arcs, by their pieces.
fn arc_from(arcs: &[TurnArc], low: usize, piece: PieceName) -> usize {
    for at in low..arcs.len() {
        if arcs[at].piece >= piece {
            return at;
        }
    }
    arcs.len()
}

/// Whether the first names stand before the second ones, by length, and then by name.
fn is_below(a: &[PieceName], b: &[PieceName]) -> bool {
    a.len() < b.len() || (a.len() == b.len() && a < b)
}
