//! Bodies and events.
ghost use Rattle.std.specs.Prelude.{◌≡◌, ◌++◌, ◌∷◌, OnOk, OnErr, IfOk, IfErr};
ghost use Rattle.road_base.specs.Bytes.{Keeps};
ghost use Rattle.object_codec.specs.Spelling.{body_bytes, event_bytes, BodyFits, IsBodyOf, EventFits};
ghost use Rattle.spelled_bytes.specs.Reading.{Begins, NoneBegins, IfMalformed};
ghost use Rattle.object_codec.specs.OneSpelling.{event_one};

use crate::spelling::{EventFormat, Put};
use road_base::{Body, Event, Key, NoMemory, Node, Relation, Way};
use spelled_bytes::{Spell, Unread};
use std::alloc::Global;

/// The state of a deleted object.
const DELETED: u8 = 0;

/// The state of a visible object.
const VISIBLE: u8 = 1;

#[tactic(auto, unfolding(crate::specs::Spelling::event_bytes, crate::specs::Spelling::EventFits))]
impl Spell<EventFormat> for Event {
    ghost spelling = { event_bytes };

    ghost fits = { EventFits };

    ghost one = { event_one };

    fn read(alloc: Global, bytes: &[u8]) -> Result<(Event, &[u8]), Unread> {
        let ((key, version), rest) = <(Key, u32)>::read(alloc, bytes)?;
        let (body, rest) = read_body(alloc, key, rest)?;
        Ok((Event { key, version, body }, rest))
    }
}

#[tactic(auto, unfolding(crate::specs::Spelling::event_bytes, crate::specs::Spelling::EventFits))]
impl Put for Event {
    fn put(&self, out: &mut Vec<u8>) -> Result<(), NoMemory> {
        self.key.put(out)?;
        self.version.put(out)?;
        put_body(&self.body, out)
    }
}

/// Appends the state, and the object where it is visible.
#[tactic(auto, unfolding(crate::specs::Spelling::body_bytes, crate::specs::Spelling::BodyFits))]
fn put_body(body: &Body, out: &mut Vec<u8>) -> Result<(), NoMemory>
    ensures ok { OnOk result (out.new.items ≡ out.old.items ++ body_bytes body.now) }
    ensures fit { OnOk result (BodyFits body.now) }
    ensures err { OnErr result (Keeps out.old.items out.new.items) }
{
    match body {
        Body::Deleted => Ok(out.push(DELETED)?),
        Body::Node(node) => put_visible(node, out),
        Body::Way(way) => put_visible(way, out),
        Body::Relation(relation) => put_visible(relation, out),
    }
}

/// Appends the state of a visible object, and the object.
fn put_visible<T: Put>(object: &T, out: &mut Vec<u8>) -> Result<(), NoMemory>
    ensures ok { OnOk result (out.new.items ≡ out.old.items ++ 1 ∷ T.spelling object.now) }
    ensures fit { OnOk result (T.fits object.now) }
    ensures err { OnErr result (Keeps out.old.items out.new.items) }
{
    out.push(VISIBLE)?;
    object.put(out)
}

/// Reads a body that an object of this key may have.
#[tactic(auto, unfolding(crate::specs::Spelling::body_bytes, crate::specs::Spelling::BodyFits, crate::specs::Spelling::IsBodyOf))]
fn read_body(alloc: Global, key: Key, bytes: &[u8]) -> Result<(Body, &[u8]), Unread>
    ensures found { IfOk result (λ x. Begins body_bytes (IsBodyOf key) bytes.now x.0 x.1.now) }
    ensures malformed { IfErr result (λ e. IfMalformed e (NoneBegins body_bytes (IsBodyOf key) bytes.now)) }
{
    match bytes {
        [DELETED, rest @ ..] => Ok((Body::Deleted, rest)),
        [VISIBLE, rest @ ..] => match key {
            Key::Node(_) => {
                let (node, rest) = Node::read(alloc, rest)?;
                Ok((Body::Node(node), rest))
            }
            Key::Way(_) => {
                let (way, rest) = Way::read(alloc, rest)?;
                Ok((Body::Way(way), rest))
            }
            Key::Relation(_) => {
                let (relation, rest) = Relation::read(alloc, rest)?;
                Ok((Body::Relation(relation), rest))
            }
        },
        _ => Err(Unread::Malformed),
    }
}
