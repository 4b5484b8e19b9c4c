//! Keys, and nodes, ways and relations.
ghost use Rattle.std.specs.Prelude.{◌≡◌, ◌++◌, ◌∷◌, OnOk, OnErr, FitsSigned};
ghost use Rattle.std.specs.Int.{w64};
ghost use Rattle.road_base.specs.Bytes.{i64_bytes, Keeps};
ghost use Rattle.object_codec.specs.Spelling.{key_bytes, place_bytes, node_bytes, refs_bytes};
ghost use Rattle.object_codec.specs.Spelling.{way_bytes, member_bytes, members_bytes, relation_bytes, KeyFits};
ghost use Rattle.object_codec.specs.Spelling.{PlaceFits, NodeFits, RefsFit, WayFits, MemberFits};
ghost use Rattle.object_codec.specs.Spelling.{MembersFit, RelationFits};
ghost use Rattle.object_codec.specs.OneSpelling.{key_one, place_one, node_one, refs_one, way_one};
ghost use Rattle.object_codec.specs.OneSpelling.{member_one, members_one, relation_one};

use crate::lists::{put_list, read_list};
use crate::spelling::{EventFormat, Put};
use road_base::{
    Key, Location, Member, Members, NoMemory, Node, NodeId, Refs, Relation, RelationId, Tags, Text,
    Way, WayId,
};
use spelled_bytes::{Spell, Unread};
use std::alloc::Global;

/// The kind of a node.
const NODE: u8 = 0;

/// The kind of a way.
const WAY: u8 = 1;

/// The kind of a relation.
const RELATION: u8 = 2;

/// The flag where a node has no location.
const ABSENT: u8 = 0;

/// The flag in front of a node's location.
const PRESENT: u8 = 1;

#[tactic(auto, unfolding(crate::specs::Spelling::key_bytes, crate::specs::Spelling::KeyFits))]
impl Spell<EventFormat> for Key {
    ghost spelling = { key_bytes };

    ghost fits = { KeyFits };

    ghost one = { key_one };

    fn read(alloc: Global, bytes: &[u8]) -> Result<(Key, &[u8]), Unread> {
        match bytes {
            [NODE, rest @ ..] => {
                let (number, rest) = <i64 as Spell<EventFormat>>::read(alloc, rest)?;
                Ok((Key::Node(NodeId(number)), rest))
            }
            [WAY, rest @ ..] => {
                let (number, rest) = <i64 as Spell<EventFormat>>::read(alloc, rest)?;
                Ok((Key::Way(WayId(number)), rest))
            }
            [RELATION, rest @ ..] => {
                let (number, rest) = <i64 as Spell<EventFormat>>::read(alloc, rest)?;
                Ok((Key::Relation(RelationId(number)), rest))
            }
            _ => Err(Unread::Malformed),
        }
    }
}

#[tactic(auto, unfolding(crate::specs::Spelling::key_bytes, crate::specs::Spelling::KeyFits))]
impl Put for Key {
    fn put(&self, out: &mut Vec<u8>) -> Result<(), NoMemory> {
        match self {
            Key::Node(node) => put_key(NODE, node.0, out),
            Key::Way(way) => put_key(WAY, way.0, out),
            Key::Relation(relation) => put_key(RELATION, relation.0, out),
        }
    }
}

/// Appends the kind and the number.
fn put_key(kind: u8, number: i64, out: &mut Vec<u8>) -> Result<(), NoMemory>
    ensures ok { OnOk result (out.new.items ≡ out.old.items ++ kind ∷ i64_bytes number) }
    ensures fit { OnOk result (FitsSigned w64 number) }
    ensures err { OnErr result (Keeps out.old.items out.new.items) }
{
    out.push(kind)?;
    number.put(out)
}

impl Put for Location {
    fn put(&self, out: &mut Vec<u8>) -> Result<(), NoMemory> {
        self.lon.put(out)?;
        self.lat.put(out)
    }
}

/// A flag, and the location behind it where there is one.
#[tactic(auto, unfolding(crate::specs::Spelling::place_bytes, crate::specs::Spelling::PlaceFits))]
impl Spell<EventFormat> for Option<Location> {
    ghost spelling = { place_bytes };

    ghost fits = { PlaceFits };

    ghost one = { place_one };

    fn read(alloc: Global, bytes: &[u8]) -> Result<(Option<Location>, &[u8]), Unread> {
        match bytes {
            [ABSENT, rest @ ..] => Ok((None, rest)),
            [PRESENT, rest @ ..] => {
                let (location, rest) = <Location as Spell<EventFormat>>::read(alloc, rest)?;
                Ok((Some(location), rest))
            }
            _ => Err(Unread::Malformed),
        }
    }
}

#[tactic(auto, unfolding(crate::specs::Spelling::place_bytes, crate::specs::Spelling::PlaceFits))]
impl Put for Option<Location> {
    fn put(&self, out: &mut Vec<u8>) -> Result<(), NoMemory> {
        match self {
            None => Ok(out.push(ABSENT)?),
            Some(location) => {
                out.push(PRESENT)?;
                location.put(out)
            }
        }
    }
}

#[tactic(auto, unfolding(crate::specs::Spelling::node_bytes, crate::specs::Spelling::NodeFits))]
impl Spell<EventFormat> for Node {
    ghost spelling = { node_bytes };

    ghost fits = { NodeFits };

    ghost one = { node_one };

    fn read(alloc: Global, bytes: &[u8]) -> Result<(Node, &[u8]), Unread> {
        let ((tags, location), rest) = <(Tags, Option<Location>)>::read(alloc, bytes)?;
        Ok((Node { tags, location }, rest))
    }
}

#[tactic(auto, unfolding(crate::specs::Spelling::node_bytes, crate::specs::Spelling::NodeFits))]
impl Put for Node {
    fn put(&self, out: &mut Vec<u8>) -> Result<(), NoMemory> {
        self.tags.put(out)?;
        self.location.put(out)
    }
}

#[tactic(auto, unfolding(crate::specs::Spelling::refs_bytes, crate::specs::Spelling::RefsFit))]
impl Spell<EventFormat> for Refs {
    ghost spelling = { refs_bytes };

    ghost fits = { RefsFit };

    ghost one = { refs_one };

    fn read(alloc: Global, bytes: &[u8]) -> Result<(Refs, &[u8]), Unread> {
        let (list, rest) = read_list::<NodeId>(alloc, bytes)?;
        Ok((Refs::from_list(list)?, rest))
    }
}

#[tactic(auto, unfolding(crate::specs::Spelling::refs_bytes, crate::specs::Spelling::RefsFit))]
impl Put for Refs {
    fn put(&self, out: &mut Vec<u8>) -> Result<(), NoMemory> {
        put_list(self.items(), out)
    }
}

#[tactic(auto, unfolding(crate::specs::Spelling::way_bytes, crate::specs::Spelling::WayFits))]
impl Spell<EventFormat> for Way {
    ghost spelling = { way_bytes };

    ghost fits = { WayFits };

    ghost one = { way_one };

    fn read(alloc: Global, bytes: &[u8]) -> Result<(Way, &[u8]), Unread> {
        let ((tags, refs), rest) = <(Tags, Refs)>::read(alloc, bytes)?;
        Ok((Way { tags, refs }, rest))
    }
}

#[tactic(auto, unfolding(crate::specs::Spelling::way_bytes, crate::specs::Spelling::WayFits))]
impl Put for Way {
    fn put(&self, out: &mut Vec<u8>) -> Result<(), NoMemory> {
        self.tags.put(out)?;
        self.refs.put(out)
    }
}

#[tactic(auto, unfolding(crate::specs::Spelling::member_bytes, crate::specs::Spelling::MemberFits))]
impl Spell<EventFormat> for Member {
    ghost spelling = { member_bytes };

    ghost fits = { MemberFits };

    ghost one = { member_one };

    fn read(alloc: Global, bytes: &[u8]) -> Result<(Member, &[u8]), Unread> {
        let ((item, role), rest) = <(Key, Text)>::read(alloc, bytes)?;
        Ok((Member { item, role }, rest))
    }
}

#[tactic(auto, unfolding(crate::specs::Spelling::member_bytes, crate::specs::Spelling::MemberFits))]
impl Put for Member {
    fn put(&self, out: &mut Vec<u8>) -> Result<(), NoMemory> {
        self.item.put(out)?;
        self.role.put(out)
    }
}

#[tactic(auto, unfolding(crate::specs::Spelling::members_bytes, crate::specs::Spelling::MembersFit))]
impl Spell<EventFormat> for Members {
    ghost spelling = { members_bytes };

    ghost fits = { MembersFit };

    ghost one = { members_one };

    fn read(alloc: Global, bytes: &[u8]) -> Result<(Members, &[u8]), Unread> {
        let (list, rest) = read_list::<Member>(alloc, bytes)?;
        Ok((Members::from_list(list)?, rest))
    }
}

#[tactic(auto, unfolding(crate::specs::Spelling::members_bytes, crate::specs::Spelling::MembersFit))]
impl Put for Members {
    fn put(&self, out: &mut Vec<u8>) -> Result<(), NoMemory> {
        put_list(self.items(), out)
    }
}

#[tactic(auto, unfolding(crate::specs::Spelling::relation_bytes, crate::specs::Spelling::RelationFits))]
impl Spell<EventFormat> for Relation {
    ghost spelling = { relation_bytes };

    ghost fits = { RelationFits };

    ghost one = { relation_one };

    fn read(alloc: Global, bytes: &[u8]) -> Result<(Relation, &[u8]), Unread> {
        let ((tags, members), rest) = <(Tags, Members)>::read(alloc, bytes)?;
        Ok((Relation { tags, members }, rest))
    }
}

#[tactic(auto, unfolding(crate::specs::Spelling::relation_bytes, crate::specs::Spelling::RelationFits))]
impl Put for Relation {
    fn put(&self, out: &mut Vec<u8>) -> Result<(), NoMemory> {
        self.tags.put(out)?;
        self.members.put(out)
    }
}
