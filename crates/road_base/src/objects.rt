//! Nodes, ways and relations.
ghost use Rattle.std.specs.Prelude.{◌≡◌, ◌↔◌, [], IfOk, IsTrue, ◌≤◌, length};

use crate::boxed_list::BoxedList;
use crate::{Key, Location, NoMemory, Refs, Tags, Text};
use std::alloc::Global;
use std::marker::Model;

/// A node. Its location is missing where the source doesn't tell it.
#[derive(Drop)]
pub struct Node {
    pub tags: Tags,
    pub location: Option<Location>,
}

/// A way.
#[derive(Drop)]
pub struct Way {
    pub tags: Tags,
    pub refs: Refs,
}

/// An object that a relation names, and the role that it plays there.
#[derive(Drop)]
pub struct Member {
    pub item: Key,
    pub role: Text,
}

/// The members of a relation, at most 65,535 of them.
#[derive(Drop)]
pub struct Members {
    list: BoxedList<Member>,
}

impl Model for Members {
    ghost use Rattle.std.specs.Prelude.{List, ◌≤◌, length};
    ghost use Rattle.road_base.specs.declared.objects.Member.{Member};

    ghost Value = { List Member };

    ghost view = { λ m. m.list };

    ghost invariant = { λ m. length m.list ≤ 65535 };
}

/// A relation.
#[derive(Drop)]
pub struct Relation {
    pub tags: Tags,
    pub members: Members,
}

/// What an object is after an event.
#[derive(Drop)]
pub enum Body {
    Node(Node),
    Way(Way),
    Relation(Relation),
    Deleted,
}

impl Node {
    /// Whether the two are equal.
    pub fn same(&self, other: &Node) -> bool
        ensures { IsTrue result ↔ (self.now ≡ other.now) }
    {
        same_location(self.location, other.location) && self.tags.same(&other.tags)
    }

    /// An equal value.
    pub fn copy(&self) -> Result<Node, NoMemory>
        ensures { IfOk result (λ n. n ≡ self.now) }
    {
        let tags = self.tags.copy()?;
        Ok(Node {
            tags,
            location: self.location,
        })
    }
}

impl Way {
    /// Whether the two are equal.
    pub fn same(&self, other: &Way) -> bool
        ensures { IsTrue result ↔ (self.now ≡ other.now) }
    {
        self.refs.same(&other.refs) && self.tags.same(&other.tags)
    }

    /// An equal value.
    pub fn copy(&self) -> Result<Way, NoMemory>
        ensures { IfOk result (λ w. w ≡ self.now) }
    {
        let tags = self.tags.copy()?;
        let refs = self.refs.copy()?;
        Ok(Way { tags, refs })
    }
}

impl Member {
    /// Whether the two are equal.
    pub fn same(&self, other: &Member) -> bool
        ensures { IsTrue result ↔ (self.now ≡ other.now) }
    {
        self.item == other.item && self.role.same(&other.role)
    }

    /// An equal value.
    pub fn copy(&self) -> Result<Member, NoMemory>
        ensures { IfOk result (λ m. m ≡ self.now) }
    {
        let role = self.role.copy()?;
        Ok(Member {
            item: self.item,
            role,
        })
    }
}

impl Members {
    /// None. Takes no memory.
    pub fn new() -> Members
        ensures { result ≡ [] }
    {
        Members {
            list: BoxedList::new(),
        }
    }

    /// These, in this order.
    pub fn from_list(list: Vec<Member>) -> Result<Members, NoMemory>
        requires { length list.items ≤ 65535 }
        ensures { IfOk result (λ m. m ≡ list.items) }
    {
        let list = BoxedList::of(list)?;
        Ok(Members { list })
    }

    /// In the order in which the relation names them.
    pub fn items(&self) -> &[Member]
        ensures items { result.now ≡ self.now }
        ensures short { length self.now ≤ 65535 }
    {
        self.list.items()
    }

    /// Whether the two are equal.
    pub fn same(&self, other: &Members) -> bool
        ensures { IsTrue result ↔ (self.now ≡ other.now) }
    {
        same_members(self.list.items(), other.list.items())
    }

    /// An equal value.
    pub fn copy(&self) -> Result<Members, NoMemory>
        ensures { IfOk result (λ m. m ≡ self.now) }
    {
        let Some(from) = self.list.held() else {
            return Ok(Members::new());
        };
        Members::from_list(copied_members(*from.allocator(), from.as_slice())?)
    }
}

impl Relation {
    /// Whether the two are equal.
    pub fn same(&self, other: &Relation) -> bool
        ensures { IsTrue result ↔ (self.now ≡ other.now) }
    {
        self.members.same(&other.members) && self.tags.same(&other.tags)
    }

    /// An equal value.
    pub fn copy(&self) -> Result<Relation, NoMemory>
        ensures { IfOk result (λ r. r ≡ self.now) }
    {
        let tags = self.tags.copy()?;
        let members = self.members.copy()?;
        Ok(Relation { tags, members })
    }
}

impl Body {
    /// Whether the two are equal.
    pub fn same(&self, other: &Body) -> bool
        ensures { IsTrue result ↔ (self.now ≡ other.now) }
    {
        match (self, other) {
            (Body::Node(this), Body::Node(that)) => this.same(that),
            (Body::Way(this), Body::Way(that)) => this.same(that),
            (Body::Relation(this), Body::Relation(that)) => this.same(that),
            (Body::Deleted, Body::Deleted) => true,
            _ => false,
        }
    }

    /// An equal value.
    pub fn copy(&self) -> Result<Body, NoMemory>
        ensures { IfOk result (λ b. b ≡ self.now) }
    {
        match self {
            Body::Node(node) => Ok(Body::Node(node.copy()?)),
            Body::Way(way) => Ok(Body::Way(way.copy()?)),
            Body::Relation(relation) => Ok(Body::Relation(relation.copy()?)),
            Body::Deleted => Ok(Body::Deleted),
        }
    }
}

fn same_location(this: Option<Location>, that: Option<Location>) -> bool
    ensures { IsTrue result ↔ (this ≡ that) }
{
    match (this, that) {
        (Some(this), Some(that)) => this == that,
        (None, None) => true,
        _ => false,
    }
}

/// Equal members.
fn copied_members(alloc: Global, members: &[Member]) -> Result<Vec<Member>, NoMemory>
    ensures { IfOk result (λ v. v.items ≡ members.now) }
{
    let mut list = Vec::with_capacity(alloc, members.len())?;
    for member in members {
        list.push(member.copy()?)?;
    }
    Ok(list)
}

fn same_members(these: &[Member], those: &[Member]) -> bool
    ensures { IsTrue result ↔ (these.now ≡ those.now) }
{
    if these.len() != those.len() {
        return false;
    }
    for at in 0..these.len() {
        if !these[at].same(&those[at]) {
            return false;
        }
    }
    true
}
