//! The contexts of a piece with their sources.
ghost use Rattle.std.specs.Prelude.{◌≡◌, ◌≤◌, ◌-◌, ◌↔◌, length, map, filter, take, drop, Contains, IfOk, OnOk, IsTrue};
ghost use Rattle.std.specs.List.Sorted.{IsPermutation, IsSortedByKey, IsStableByKey};
ghost use Rattle.ordered_lists.specs.Orders.{Lists, rises};
ghost use Rattle.road_model.specs.Pieces.{Span};
ghost use Rattle.road_model.specs.Blocks.{IsContextEntry};
ghost use Rattle.road_model.specs.Networks.{on};
ghost use Rattle.road_model.specs.Orders.{names_cmp};
ghost use Rattle.expanded_graph.specs.declared.sources.Leading.{Leading as LeadingArc};
ghost use Rattle.expanded_graph.specs.Contexts.{IsBareContext};
ghost use Rattle.expanded_graph.specs.Sources.{AreLeadingBy, AreOneBySource, same_names};

use crate::contexts::by_names;
use crate::sources::Leading;
use road_base::NoMemory;
use road_model::laws::{name_order, one_name};
use road_model::{Context, Names, Network, Profile, Sources, World};
use std::alloc::Global;

/// The contexts, each with its sources: the arcs that lead to the contexts are given in any order. Takes the time to
/// sort the arcs, of two short searches among them for each context, and of a copy of the sources.
pub fn with_sources<M: World, P: Profile>(
    alloc: Global,
    network: &Network<'_, M, P>,
    contexts: Vec<Context>,
    leading: Vec<Leading>,
) -> Result<Vec<Context>, NoMemory>
    requires leading { AreOneBySource leading.items }
    ensures listed { IfOk result (λ v. (p : Span)
        → Lists (λ c. c.before) names_cmp (on network.now IsBareContext p) contexts.items
        → on network.now AreLeadingBy p leading.items
        → Lists (λ c. c.before) names_cmp (on network.now IsContextEntry p) v.items) }
    ensures names { IfOk result (λ v. map (λ c. c.before) v.items ≡ map (λ c. c.before) contexts.items) }
{
    name_order();
    one_name(&network.profile);
    let mut sorted = leading;
    sort_by_source(&mut sorted)?;
    sort_by_target(&mut sorted)?;
    let mut list = Vec::with_capacity(alloc, contexts.len())?;
    for context in contexts {
        let Context { before, arcs, .. } = context;
        let sources = sources_with(alloc, sorted.as_slice(), &before)?;
        list.push(Context {
            before,
            arcs,
            sources: Sources::from_list(sources),
        })?;
    }
    Ok(list)
}

/// Sorts the arcs by their sources, and leaves one with each.
fn sort_by_source(list: &mut Vec<Leading>) -> Result<(), NoMemory>
    requires { AreOneBySource list.old.items }
    ensures ascending { OnOk result (IsTrue (rises names_cmp (map (λ l. l.source) list.new.items))) }
    ensures exactly { OnOk result ((l : LeadingArc) → Contains list.new.items l ↔ Contains list.old.items l) }
{
    name_order();
    list.sort_by(|a, b| by_names(&a.source, &b.source))?;
    list.dedup_by(|later, kept| by_names(&later.source, &kept.source).is_eq());
    Ok(())
}

/// Sorts the arcs by their targets. Those to one context keep their order.
fn sort_by_target(list: &mut Vec<Leading>) -> Result<(), NoMemory>
    ensures sorted { OnOk result (IsSortedByKey (λ l. l.before) names_cmp list.new.items) }
    ensures stable { OnOk result (IsStableByKey (λ l. l.before) names_cmp list.old.items list.new.items) }
    ensures same { OnOk result (IsPermutation list.old.items list.new.items) }
{
    name_order();
    list.sort_by(|a, b| by_names(&a.before, &b.before))?;
    Ok(())
}

/// The sources of the arcs to the context with these names before its piece. The arcs are sorted by their targets.
fn sources_with(alloc: Global, leading: &[Leading], before: &Names) -> Result<Vec<Names>, NoMemory>
    requires { IsSortedByKey (λ l. l.before) names_cmp leading.now }
    ensures { IfOk result (λ v. v.items
        ≡ map (λ l. l.source) (filter (λ l. same_names l.before before.now) leading.now)) }
{
    let here = leading_to(leading, before);
    let mut sources = Vec::with_capacity(alloc, here.len())?;
    for arc in here {
        sources.push(arc.source.copy()?)?;
    }
    Ok(sources)
}

/// The arcs to the context with these names before its piece. Takes the time of the logarithm of their number.
fn leading_to<'a>(leading: &'a [Leading], before: &Names) -> &'a [Leading]
    requires { IsSortedByKey (λ l. l.before) names_cmp leading.now }
    ensures { result.now ≡ filter (λ l. same_names l.before before.now) leading.now }
{
    name_order();
    let low = leading.partition_point(|arc| by_names(&arc.before, before).is_lt());
    let high = leading.partition_point(|arc| by_names(&arc.before, before).is_le());
    part(leading, low, high)
}

/// Those from the one position on, below the other.
fn part(leading: &[Leading], low: usize, high: usize) -> &[Leading]
    requires rising { low ≤ high }
    requires within { high ≤ length leading.now }
    ensures { result.now ≡ take (high - low) (drop low leading.now) }
{
    &leading[low..high]
}
