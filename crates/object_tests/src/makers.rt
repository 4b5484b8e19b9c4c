//! Texts, tags and events for tests, and their comparison.
ghost use Rattle.std.specs.Prelude.{◌≡◌, IfOk};
ghost use Rattle.road_base.specs.declared.objects.Body.TheVariants.{Deleted};

use opl_objects::{Mode, ReadError, Reader};
use road_base::{Body, Event, Key, NoMemory, Tags, Text};
use std::alloc::Global;
use std::test::Fail;

/// An equal text.
pub fn text(alloc: Global, of: &str) -> Result<Text, NoMemory>
    ensures { IfOk result (λ t. t ≡ of.now) }
{
    Text::of(alloc, of)
}

/// The tags of these pairs of a key and a value, which ascend by key.
pub fn tags_of(list: Vec<(Text, Text)>) -> Result<Tags, Fail>
    ensures { IfOk result (λ t. t ≡ list.items) }
{
    if list.len() > 65_535 || !Tags::are_ascending(&list) {
        return Err(Fail::from("the keys don't ascend"));
    }
    Ok(Tags::from_list(list)?)
}

fn add_pair(
    alloc: Global,
    list: &mut Vec<(Text, Text)>,
    key: &str,
    value: &str,
) -> Result<(), NoMemory> {
    let key = text(alloc, key)?;
    let value = text(alloc, value)?;
    list.push((key, value))?;
    Ok(())
}

/// The pairs such as `access=no`, parted by spaces, in their order.
fn pairs(alloc: Global, of: &str) -> Result<Vec<(Text, Text)>, NoMemory> {
    let mut list = Vec::new(alloc);
    for pair in of.split(' ') {
        if let Some((key, value)) = pair.split_once('=') {
            add_pair(alloc, &mut list, key, value)?;
        }
    }
    Ok(list)
}

/// Tags of pairs such as `access=no`, parted by spaces, in any order.
pub fn tags(alloc: Global, of: &str) -> Result<Tags, Fail> {
    let mut list = pairs(alloc, of)?;
    list.sort_by(|a, b| a.0.as_str().cmp(b.0.as_str()))?;
    tags_of(list)
}

/// The deletion of the object in that version.
pub fn deletion(key: Key, version: u32) -> Event
    ensures key { result.key ≡ key }
    ensures version { result.version ≡ version }
    ensures deleted { result.body ≡ Deleted }
{
    Event {
        key,
        version,
        body: Body::Deleted,
    }
}

fn read(alloc: Global, mode: Mode, lines: &[u8]) -> Result<Vec<Event>, ReadError> {
    let mut reader = Reader::new(alloc, mode);
    reader.feed(lines)?;
    reader.finish()
}

/// The events of a change, one a line.
pub fn events_of(alloc: Global, lines: &[u8]) -> Result<Vec<Event>, Fail> {
    match read(alloc, Mode::Change, lines) {
        Ok(events) => Ok(events),
        Err(_) => Err(Fail::from("the change isn't read")),
    }
}

/// The last event of a change.
pub fn event_of(alloc: Global, lines: &[u8]) -> Result<Event, Fail> {
    match events_of(alloc, lines)?.pop() {
        Some(event) => Ok(event),
        None => Err(Fail::from("the change has no event")),
    }
}

/// The events of an extract.
pub fn extract_of(alloc: Global, lines: &[u8]) -> Result<Vec<Event>, Fail> {
    match read(alloc, Mode::Extract, lines) {
        Ok(events) => Ok(events),
        Err(_) => Err(Fail::from("the extract isn't read")),
    }
}

/// Whether both lists have the same events.
pub fn are_same(these: &[Event], those: &[Event]) -> bool {
    if these.len() != those.len() {
        return false;
    }
    for at in 0..these.len() {
        let (this, that) = (&these[at], &those[at]);
        if this.key != that.key || this.version != that.version || !this.body.same(&that.body) {
            return false;
        }
    }
    true
}
