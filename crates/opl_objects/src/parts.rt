//! What the fields of a line hold.
ghost use Rattle.std.specs.Prelude.{◌≡◌, ◌∷◌, ◌++◌, ℕ, List, [], None, Option, drop, IsTrue, IfOk, IfErr, OnOk};
ghost use Rattle.road_base.specs.Kinds.{has_kind};
ghost use Rattle.opl_lexer.specs.declared.fault.FaultKind.{FaultKind};
ghost use Rattle.opl_lexer.specs.declared.fault.FaultKind.TheVariants.{BadNumber};
ghost use Rattle.opl_lexer.specs.Numbers.{version_of};
ghost use Rattle.opl_lexer.specs.Contents.{or_fault, axis_of, deletion_in};
ghost use Rattle.opl_lexer.specs.Faults.{letter as letter_byte, stands, version_letter, contents_fault, field_fault};
ghost use Rattle.opl_lexer.specs.Faults.{first_bad, at_field, most_lon, most_lat};
ghost use Rattle.opl_lexer.specs.Left.{fields_left};
ghost use Rattle.opl_lexer.specs.Spelling.{HasPlace, IsVisible, HasBody, is_deleted};
ghost use Rattle.opl_objects.specs.declared.letters.Letter.TheVariants.{Version, Deletion, Tags as TagsLetter, Lon};
ghost use Rattle.opl_objects.specs.declared.letters.Letter.TheVariants.{Lat, Refs as RefsLetter};
ghost use Rattle.opl_objects.specs.declared.letters.Letter.TheVariants.{Members as MembersLetter};
ghost use Rattle.opl_objects.specs.Outcomes.{IsGood, IsBad};
ghost use Rattle.opl_objects.specs.LineLetters.{byte_of};
ghost use Rattle.opl_objects.specs.LineParts.{IsFault, IsFaultAt, IsAxis, AreRead, Puts, IsEvent};

use crate::contents::{members, refs, tags};
use crate::letters::{Letter, Seen, letter_of};
use crate::line::LineError;
use opl_lexer::{FaultKind, FieldIter, LexError, coordinate, version};
use road_base::{
    Body, Event, Key, Location, MOST_LAT, MOST_LON, Members, Node, Refs, Relation, Tags, Way,
};
use std::alloc::Global;

/// What the fields of a line that were read so far hold.
#[derive(Drop)]
pub struct Parts {
    seen: Seen,
    version: u32,
    deleted: bool,
    tags: Tags,
    lon: Option<i32>,
    lat: Option<i32>,
    refs: Refs,
    members: Members,
}

/// An object's version.
#[inline]
fn version_number(contents: &str) -> Result<u32, LexError>
    ensures ok { IfOk result (IsGood (or_fault BadNumber (version_of contents.now))) }
    ensures err { IfErr result (IsBad (or_fault BadNumber (version_of contents.now))) }
{
    version(contents).ok_or(LexError::Kind(FaultKind::BadNumber))
}

/// Whether the object is deleted.
#[inline]
fn deletion(contents: &str) -> Result<bool, LexError>
    ensures ok { IfOk result (IsGood (deletion_in contents.now)) }
    ensures err { IfErr result (IsBad (deletion_in contents.now)) }
{
    match contents.as_bytes() {
        [b'V'] => Ok(false),
        [b'D'] => Ok(true),
        _ => Err(LexError::Kind(FaultKind::BadFlag)),
    }
}

/// A coordinate of at most the limit's size, or nothing.
#[inline]
fn axis(contents: &str, limit: i32) -> Result<Option<i32>, LexError>
    ensures ok { IfOk result (IsGood (axis_of limit contents.now)) }
    ensures err { IfErr result (IsBad (axis_of limit contents.now)) }
{
    if contents.is_empty() {
        return Ok(None);
    }
    let units = coordinate(contents, limit);
    if units.is_none() {
        return Err(LexError::Kind(FaultKind::BadCoordinate));
    }
    Ok(units)
}

/// The place with these coordinates, where both are there.
#[inline]
fn place(lon: Option<i32>, lat: Option<i32>) -> Option<Location>
    requires lon { IsAxis most_lon lon }
    requires lat { IsAxis most_lat lat }
    ensures { HasPlace lon lat result }
{
    match (lon, lat) {
        (Some(lon), Some(lat)) => Some(Location { lon, lat }),
        _ => None,
    }
}

/// The first byte of a field, 0 where it has none.
#[inline]
pub fn first_byte(field: &str) -> u8
    ensures { result ≡ letter_byte field.now }
{
    match field.as_bytes() {
        [first, ..] => *first,
        [] => 0,
    }
}

/// What stands behind a field's letter.
#[inline]
fn behind(field: &str, by: Letter) -> &str
    requires { byte_of by ≡ letter_byte field.now }
    ensures { result.now ≡ drop 1 field.now }
{
    let (_, contents) = field.split_at(1);
    contents
}

/// The fault of a field, by its number.
#[inline]
fn fault_at(field: u32, error: LexError) -> LineError
    ensures { (fault : Option FaultKind) → IsFault fault error
        → IsFaultAt (at_field field fault) result }
{
    match error {
        LexError::Kind(kind) => LineError::Fault { field, kind },
        LexError::NoMemory => LineError::NoMemory,
    }
}

impl Parts {
    /// No field was read.
    #[inline]
    pub fn new() -> Parts
        ensures { AreRead [] result }
    {
        Parts {
            seen: Seen::new(),
            version: 0,
            deleted: false,
            tags: Tags::new(),
            lon: None,
            lat: None,
            refs: Refs::new(),
            members: Members::new(),
        }
    }

    #[inline]
    fn put_version(&mut self, contents: &str) -> Result<(), LexError>
        ensures ok { OnOk result (Puts Version contents.now self.old self.new) }
        ensures err { IfErr result (IsFault (contents_fault (byte_of Version) contents.now)) }
    {
        self.version = version_number(contents)?;
        Ok(())
    }

    #[inline]
    fn put_deletion(&mut self, contents: &str) -> Result<(), LexError>
        ensures ok { OnOk result (Puts Deletion contents.now self.old self.new) }
        ensures err { IfErr result (IsFault (contents_fault (byte_of Deletion) contents.now)) }
    {
        self.deleted = deletion(contents)?;
        Ok(())
    }

    #[inline]
    fn put_lon(&mut self, contents: &str) -> Result<(), LexError>
        ensures ok { OnOk result (Puts Lon contents.now self.old self.new) }
        ensures err { IfErr result (IsFault (contents_fault (byte_of Lon) contents.now)) }
    {
        self.lon = axis(contents, MOST_LON)?;
        Ok(())
    }

    #[inline]
    fn put_lat(&mut self, contents: &str) -> Result<(), LexError>
        ensures ok { OnOk result (Puts Lat contents.now self.old self.new) }
        ensures err { IfErr result (IsFault (contents_fault (byte_of Lat) contents.now)) }
    {
        self.lat = axis(contents, MOST_LAT)?;
        Ok(())
    }

    #[inline(never)]
    fn put_tags(&mut self, alloc: Global, contents: &str) -> Result<(), LexError>
        ensures ok { OnOk result (Puts TagsLetter contents.now self.old self.new) }
        ensures err { IfErr result (IsFault (contents_fault (byte_of TagsLetter) contents.now)) }
    {
        self.tags = tags(alloc, contents)?;
        Ok(())
    }

    #[inline(never)]
    fn put_refs(&mut self, alloc: Global, contents: &str) -> Result<(), LexError>
        ensures ok { OnOk result (Puts RefsLetter contents.now self.old self.new) }
        ensures err { IfErr result (IsFault (contents_fault (byte_of RefsLetter) contents.now)) }
    {
        self.refs = refs(alloc, contents)?;
        Ok(())
    }

    #[inline(never)]
    fn put_members(&mut self, alloc: Global, contents: &str) -> Result<(), LexError>
        ensures ok { OnOk result (Puts MembersLetter contents.now self.old self.new) }
        ensures err { IfErr result (IsFault (contents_fault (byte_of MembersLetter) contents.now)) }
    {
        self.members = members(alloc, contents)?;
        Ok(())
    }

    /// Keeps what a field with this letter holds.
    #[inline]
    fn put(&mut self, alloc: Global, letter: Letter, contents: &str) -> Result<(), LexError>
        ensures ok { OnOk result (Puts letter contents.now self.old self.new) }
        ensures err { IfErr result (IsFault (contents_fault (byte_of letter) contents.now)) }
    {
        match letter {
            Letter::Version => self.put_version(contents),
            Letter::Deletion => self.put_deletion(contents),
            Letter::Tags => self.put_tags(alloc, contents),
            Letter::Lon => self.put_lon(contents),
            Letter::Lat => self.put_lat(contents),
            Letter::Refs => self.put_refs(alloc, contents),
            Letter::Members => self.put_members(alloc, contents),
            Letter::Changeset | Letter::Timestamp | Letter::UserId | Letter::User => Ok(()),
        }
    }

    /// Reads one more field of an object.
    #[inline]
    fn take(&mut self, alloc: Global, key: Key, field: &str) -> Result<(), LexError>
        ensures good { (fields : List (List ℕ)) → AreRead fields self.old
            → OnOk result (field_fault key fields field.now ≡ None) }
        ensures read { (fields : List (List ℕ)) → AreRead fields self.old
            → OnOk result (AreRead (fields ++ field.now ∷ []) self.new) }
        ensures err { (fields : List (List ℕ)) → AreRead fields self.old
            → IfErr result (IsFault (field_fault key fields field.now)) }
    {
        let Some(letter) = letter_of(key, first_byte(field)) else {
            return Err(LexError::Kind(FaultKind::UnknownField));
        };
        if self.seen.has(letter) {
            return Err(LexError::Kind(FaultKind::Repeated));
        }
        self.seen.add(letter);
        self.put(alloc, letter, behind(field, letter))
    }

    /// Reads the fields of an object, up to the first that is in fault.
    pub fn read(&mut self, alloc: Global, key: Key, fields: FieldIter<'_>) -> Result<(), LineError>
        requires { AreRead [] self.old }
        ensures good { OnOk result (first_bad key [] (fields_left fields.entry) ≡ None) }
        ensures read { OnOk result (AreRead (fields_left fields.entry) self.new) }
        ensures err { IfErr result (IsFaultAt (first_bad key [] (fields_left fields.entry))) }
    {
        let mut number = 2u32;
        for field in fields {
            match self.take(alloc, key, field) {
                Ok(()) => number += 1,
                Err(error) => return Err(fault_at(number, error)),
            }
        }
        Ok(())
    }

    /// Whether a field with the version stood.
    #[inline]
    pub fn has_version(&self) -> bool
        ensures { (fields : List (List ℕ)) → AreRead fields self.now
            → result ≡ stands version_letter fields }
    {
        self.seen.has(Letter::Version)
    }

    /// What a visible object of this kind is.
    #[inline]
    fn visible(self, key: Key) -> Body
        requires { (others : List (List ℕ)) × AreRead others self }
        ensures kind { IsTrue (has_kind key result) }
        ensures visible { (others : List (List ℕ)) → AreRead others self
            → IsVisible others key result }
    {
        match key {
            Key::Node(_) => Body::Node(Node {
                tags: self.tags,
                location: place(self.lon, self.lat),
            }),
            Key::Way(_) => Body::Way(Way {
                tags: self.tags,
                refs: self.refs,
            }),
            Key::Relation(_) => Body::Relation(Relation {
                tags: self.tags,
                members: self.members,
            }),
        }
    }

    /// What the object is after the line.
    #[inline]
    fn body(self, key: Key) -> Body
        requires { (others : List (List ℕ)) × AreRead others self }
        ensures kind { IsTrue (has_kind key result) }
        ensures body { (others : List (List ℕ)) → AreRead others self
            → HasBody (is_deleted others) others key result }
    {
        if self.deleted {
            return Body::Deleted;
        }
        self.visible(key)
    }

    /// The event that the fields make of an object.
    #[inline]
    pub fn event(self, key: Key) -> Event
        requires { (others : List (List ℕ)) × AreRead others self }
        ensures { (others : List (List ℕ)) → AreRead others self → IsEvent others key result }
    {
        let version = self.version;
        let body = self.body(key);
        Event { key, version, body }
    }
}
