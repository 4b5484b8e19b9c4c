//! The audit: what becomes of each restriction, and how many objects carry conditional keys. It takes the time of two
//! runs over the objects, of which one looks at their tags, and that of `words` for each restriction; and the memory of
//! the keys of the objects that it counts.
ghost use Rattle.std.specs.Prelude.{◌≡◌, ◌++◌, All, IfOk, OnOk, filter_map, string_bytes};
ghost use Rattle.std.specs.Option.{option_to_list};
ghost use Rattle.restrictions.specs.Words.{IsRestriction};
ghost use Rattle.osmroad.specs.Audit.{IsAudit, IsLineOf, AreRuleLines, restriction_of, carries_conditional};
ghost use Rattle.osmroad.specs.Audit.{conditional_of, has_conditional, is_conditional, conditional_line};

use crate::findings::{finding_of, rule_text};
use back_references::Indexed;
use layered_maps::Walk;
use road_base::laws::key_order;
use road_base::{Body, Event, Key, NoMemory, RelationId, Tags};
use road_model::{Network, Profile, is_restriction};
use std::alloc::{AllocError, Global};

/// The audit of the objects, for the profile: for each visible restriction by number its line, `rN no K` or `rN only K`
/// where it gives K different words, `rN unused CAUSE` where it is of no use; then `conditional K`, where K visible
/// objects carry a key that ends in `:conditional` (OSM wiki, Conditional restrictions).
pub fn audit_text<P: Profile>(
    alloc: Global,
    network: &Network<'_, Indexed, P>,
) -> Result<String, NoMemory>
    ensures { IfOk result
        (λ text. IsAudit network.now.world.now (P.rules network.now.profile) (string_bytes text)) }
{
    key_order();
    let objects = network.world.objects();
    let rules = restrictions_among(alloc, objects.walk())?;
    let mut text = rule_lines(alloc, network, &rules)?;
    let keys = conditional_among(alloc, objects.walk())?;
    text.push_str(&conditional_text(alloc, keys.len())?)?;
    Ok(text)
}

/// The lines of the restrictions, in their order.
fn rule_lines<P: Profile>(
    alloc: Global,
    network: &Network<'_, Indexed, P>,
    rules: &[RelationId],
) -> Result<String, NoMemory>
    requires { All (IsRestriction network.now.world.now) rules.now }
    ensures { IfOk result
        (λ text. AreRuleLines network.now.world.now (P.rules network.now.profile) rules.now (string_bytes text)) }
{
    let mut text = String::new(alloc);
    for relation in rules {
        let line = line_of(alloc, network, *relation)?;
        text.push_str(&line)?;
    }
    Ok(text)
}

/// The line of the restriction.
fn line_of<P: Profile>(
    alloc: Global,
    network: &Network<'_, Indexed, P>,
    relation: RelationId,
) -> Result<String, NoMemory>
    requires { IsRestriction network.now.world.now relation }
    ensures { IfOk result
        (λ text. IsLineOf network.now.world.now (P.rules network.now.profile) relation (string_bytes text)) }
{
    let finding = finding_of(alloc, network, relation)?;
    Ok(rule_text(alloc, relation, finding)?)
}

/// The line that counts the objects with conditional keys.
fn conditional_text(alloc: Global, count: usize) -> Result<String, AllocError>
    ensures { IfOk result (λ text. string_bytes text ≡ conditional_line count) }
{
    format!(in alloc; "conditional {count}\n")
}

/// The visible restrictions among the entries, in their order.
fn restrictions_among(
    alloc: Global,
    entries: Walk<'_, Key, Event>,
) -> Result<Vec<RelationId>, NoMemory>
    ensures { IfOk result (λ rules. rules.items ≡ filter_map (λ e. restriction_of e.key e.body) entries.entry) }
{
    let mut rules = Vec::new(alloc);
    let mut rest = entries;
    while let Some(entry) = rest.next() {
        add(restriction_of(entry), &mut rules)?;
    }
    Ok(rules)
}

/// Puts the value, if there is one, behind the others.
fn add<T: Drop>(value: Option<T>, list: &mut Vec<T>) -> Result<(), NoMemory>
    ensures { OnOk result (list.new.items ≡ list.old.items ++ option_to_list value) }
{
    if let Some(value) = value {
        list.push(value)?;
    }
    Ok(())
}

/// The relation of the entry, if it is a visible restriction.
fn restriction_of(entry: &Event) -> Option<RelationId>
    ensures { result ≡ restriction_of entry.now.key entry.now.body }
{
    match (entry.key, &entry.body) {
        (Key::Relation(id), Body::Relation(body)) if is_restriction(&body.tags) => Some(id),
        _ => None,
    }
}

/// The keys of the entries that are visible and carry a key that ends in `:conditional`, in their order.
fn conditional_among(alloc: Global, entries: Walk<'_, Key, Event>) -> Result<Vec<Key>, NoMemory>
    ensures { IfOk result (λ keys. keys.items ≡ filter_map (λ e. conditional_of e.key e.body) entries.entry) }
{
    let mut keys = Vec::new(alloc);
    let mut rest = entries;
    while let Some(entry) = rest.next() {
        add(conditional_of(entry), &mut keys)?;
    }
    Ok(keys)
}

/// The key of the entry, if that is visible and carries such a key.
fn conditional_of(entry: &Event) -> Option<Key>
    ensures { result ≡ conditional_of entry.now.key entry.now.body }
{
    if carries_conditional(&entry.body) {
        Some(entry.key)
    } else {
        None
    }
}

fn carries_conditional(body: &Body) -> bool
    ensures { result ≡ carries_conditional body.now }
{
    match body {
        Body::Node(node) => has_conditional(&node.tags),
        Body::Way(way) => has_conditional(&way.tags),
        Body::Relation(relation) => has_conditional(&relation.tags),
        Body::Deleted => false,
    }
}

fn has_conditional(tags: &Tags) -> bool
    ensures { result ≡ has_conditional tags.now }
{
    tags.items()
        .iter()
        .any(|tag| is_conditional(tag.0.as_str()))
}

fn is_conditional(key: &str) -> bool
    ensures { result ≡ is_conditional key.now }
{
    key.ends_with(":conditional")
}
