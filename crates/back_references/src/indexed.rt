//! Objects with the references to each of them.
ghost use Rattle.std.specs.Prelude.{◌≡◌, IfOk, OnOk, OnErr, map, option_copied, Contains, IsTrue};
ghost use Rattle.std.specs.Option.{option_map};
ghost use Rattle.std.specs.FinMap.{empty, entries};
ghost use Rattle.road_base.specs.Applying.{IsApplied, entry_of};
ghost use Rattle.road_base.specs.Objects.{Objects as ObjectMap, body_in, node_in, way_in, relation_in};
ghost use Rattle.road_base.specs.declared.ids.WayId.{WayId};
ghost use Rattle.road_model.specs.Links.{AreChanged};
ghost use Rattle.road_model.specs.Highways.{IsHighway, highways};
ghost use Rattle.ordered_lists.specs.Orders.{rises};
ghost use Rattle.road_model.specs.Orders.{way_cmp};
ghost use Rattle.back_references.specs.Indexing.{IsIndexed};

use crate::highways::highways_among;
use crate::prepared::Prepared;
use crate::references::References;
use object_store::{Base, Fresh, Objects};
use road_base::laws::key_order;
use road_base::{Body, Event, Key, Keys, NoMemory, Node, NodeId, Relation, RelationId, Way, WayId};
use road_model::World;
use std::alloc::Global;
use std::marker::Model;

/// An object map with the ways and restrictions that name each object.
#[derive(Drop)]
pub struct Indexed {
    alloc: Global,
    objects: Objects,
    references: References,
}

impl Model for Indexed {
    ghost use Rattle.road_base.specs.Objects.{Objects as ObjectMap};
    ghost use Rattle.object_store.specs.Codes.{coded_objects};

    ghost Value = { ObjectMap };

    ghost coded = { coded_objects };

    ghost use Rattle.back_references.specs.Indexing.{IsIndexed};

    ghost view = { λ i. i.objects };

    ghost invariant = { λ i. IsIndexed i.objects i.references };
}

impl Indexed {
    ghost use Rattle.object_store.specs.Listed.{pair_of};

    /// No objects. Takes no memory.
    pub fn new(alloc: Global) -> Indexed
        ensures { result ≡ empty }
    {
        Indexed {
            alloc,
            objects: Objects::new(alloc),
            references: References::new(alloc),
        }
    }

    /// What the events leave of no objects. They are moved, not copied.
    pub fn of(alloc: Global, events: Vec<Event>) -> Result<Indexed, NoMemory>
        ensures { IfOk result (λ i. IsApplied empty events.items i) }
    {
        let listed = Base::of(events)?;
        let references = References::of(alloc, &listed)?;
        let objects = Objects::of_base(listed)?;
        Ok(Indexed {
            alloc,
            objects,
            references,
        })
    }

    /// The objects alone.
    pub fn objects(&self) -> &Objects
        ensures { result.now ≡ self.now }
    {
        &self.objects
    }

    /// An equal value, which shares all with this one. Takes a few reference counts.
    pub fn copy(&self) -> Result<Indexed, NoMemory>
        ensures { IfOk result (λ i. i ≡ self.now) }
    {
        let objects = self.objects.copy()?;
        let references = self.references.share()?;
        Ok(Indexed {
            alloc: self.alloc,
            objects,
            references,
        })
    }

    /// The references alone. Takes no memory: the objects are dropped.
    pub(crate) fn into_references(self) -> References
        ensures { IsIndexed self result }
    {
        self.references
    }

    /// The keys whose visible body the events would change, ascending.
    pub fn changed(&self, events: &[Event]) -> Result<Keys, NoMemory>
        ensures { IfOk result (λ keys. (N : ObjectMap)
            → IsApplied self.now events.now N
            → AreChanged self.now N keys) }
    {
        self.objects.changed(events)
    }

    /// Finds what the events leave: of each key the first one of the greatest version, its entry here before all of
    /// them. The objects stay as they are. Takes the time of the events' sort, of a few look-ups for each of them, and
    /// of the lists of references that change.
    pub fn prepare(&mut self, events: &[Event]) -> Result<Prepared, NoMemory>
        ensures same { self.new ≡ self.old }
        ensures before { IfOk result (λ p. p.before ≡ self.old) }
        ensures after { IfOk result (λ p. IsApplied self.old events.now p.after) }
    {
        let fresh = self.objects.prepare(events)?;
        let next = self.after(&fresh)?;
        Ok(Prepared::new(fresh, next))
    }

    /// The objects after the change, which was found for these.
    fn after(&mut self, fresh: &Fresh) -> Result<Indexed, NoMemory>
        requires { fresh.now.before ≡ self.old }
        ensures same { self.new ≡ self.old }
        ensures after { IfOk result (λ i. i ≡ fresh.now.after) }
    {
        let objects = fresh.after().copy()?;
        let references = self.references.exchanged(
            self.alloc,
            fresh.before(),
            fresh.after(),
            fresh.keys().items(),
        )?;
        Ok(Indexed {
            alloc: self.alloc,
            objects,
            references,
        })
    }

    /// Leaves what the events leave for which the change was prepared. Takes no memory: the copy of the objects after
    /// the change is dropped before the change is made.
    pub fn commit(&mut self, prepared: Prepared)
        requires { prepared.before ≡ self.now }
        ensures { self.new ≡ prepared.after }
    {
        let (fresh, references) = prepared.into_parts();
        self.objects.commit(fresh);
        self.references = references;
    }

    /// Applies the events: of each key the first one of the greatest version stands, its entry here before all of
    /// them. Answers the keys whose visible body changed, ascending. Where no memory is found nothing changes.
    pub fn apply(&mut self, events: &[Event]) -> Result<Keys, NoMemory>
        ensures applied { OnOk result (IsApplied self.old events.now self.new) }
        ensures keys { IfOk result (λ keys. AreChanged self.old self.new keys) }
        ensures err { OnErr result (self.new ≡ self.old) }
    {
        let prepared = self.prepare(events)?;
        self.commit_answered(prepared)
    }

    /// Leaves what was prepared, and answers the keys whose visible body changed.
    fn commit_answered(&mut self, prepared: Prepared) -> Result<Keys, NoMemory>
        requires { prepared.before ≡ self.now }
        ensures applied { OnOk result (self.new ≡ prepared.after) }
        ensures keys { IfOk result (λ keys. AreChanged prepared.before prepared.after keys) }
        ensures err { OnErr result (self.new ≡ self.old) }
    {
        let keys = prepared.keys().copy()?;
        self.commit(prepared);
        Ok(keys)
    }

    /// The visible ways with the key `highway`, ascending.
    pub fn highways(&self) -> Result<Vec<WayId>, NoMemory>
        ensures exactly { IfOk result (λ ways. ways.items ≡ highways self.now) }
        ensures ascending { IfOk result (λ ways. IsTrue (rises way_cmp ways.items)) }
        ensures each { IfOk result (λ ways. (w : WayId) → IsHighway self.now w → Contains ways.items w) }
    {
        key_order();
        Ok(highways_among(self.alloc, self.objects.walk())?)
    }

    /// Copies of all entries as events, in key order.
    pub fn events(&self) -> Result<Vec<Event>, NoMemory>
        ensures { IfOk result (λ v. map pair_of v.items ≡ entries self.now) }
    {
        self.objects.events()
    }
}

impl World for Indexed {
    ghost objects = { λ i. i };

    #[tactic(auto, unfolding(road_base::specs::Objects::node_of, road_base::specs::Objects::visible))]
    fn node(&self, id: NodeId) -> Option<&Node> {
        visible_node(self.objects.get(Key::Node(id)))
    }

    #[tactic(auto, unfolding(road_base::specs::Objects::way_of, road_base::specs::Objects::visible))]
    fn way(&self, id: WayId) -> Option<&Way> {
        visible_way(self.objects.get(Key::Way(id)))
    }

    #[tactic(auto, unfolding(road_base::specs::Objects::relation_of, road_base::specs::Objects::visible))]
    fn relation(&self, id: RelationId) -> Option<&Relation> {
        visible_relation(self.objects.get(Key::Relation(id)))
    }

    fn ways_at(&self, id: NodeId) -> &[WayId] {
        self.references.ways_at(id)
    }

    fn rules_of_way(&self, id: WayId) -> &[RelationId] {
        self.references.rules_of_way(id)
    }

    fn rules_at(&self, id: NodeId) -> &[RelationId] {
        self.references.rules_at(id)
    }
}

fn visible_node(event: Option<&Event>) -> Option<&Node>
    ensures { option_copied result ≡ node_in (body_in (option_map entry_of (option_copied event.entry))) }
{
    match event {
        None => None,
        Some(event) => match &event.body {
            Body::Node(node) => Some(node),
            Body::Way(_) => None,
            Body::Relation(_) => None,
            Body::Deleted => None,
        },
    }
}

fn visible_way(event: Option<&Event>) -> Option<&Way>
    ensures { option_copied result ≡ way_in (body_in (option_map entry_of (option_copied event.entry))) }
{
    match event {
        None => None,
        Some(event) => match &event.body {
            Body::Node(_) => None,
            Body::Way(way) => Some(way),
            Body::Relation(_) => None,
            Body::Deleted => None,
        },
    }
}

fn visible_relation(event: Option<&Event>) -> Option<&Relation>
    ensures { option_copied result ≡ relation_in (body_in (option_map entry_of (option_copied event.entry))) }
{
    match event {
        None => None,
        Some(event) => match &event.body {
            Body::Node(_) => None,
            Body::Way(_) => None,
            Body::Relation(relation) => Some(relation),
            Body::Deleted => None,
        },
    }
}
