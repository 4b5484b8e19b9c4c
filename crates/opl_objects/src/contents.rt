//! The contents of the fields that hold lists.
ghost use Rattle.std.specs.Prelude.{◌≡◌, ◌==◌, ◌+◌, ◌||◌, false, min, length, IfOk, IfErr, IfSome, IfNone, drop};
ghost use Rattle.std.specs.Prelude.{option_copied, slice_index};
ghost use Rattle.opl_lexer.specs.Letters.{comma, letter_x, letter_y};
ghost use Rattle.opl_lexer.specs.Parts.{parts};
ghost use Rattle.opl_lexer.specs.Contents.{items, or_fault, text_of, is_run, is_run_byte as is_run_byte_of, is_place};
ghost use Rattle.opl_lexer.specs.Contents.{number_in, ref_of, key_of, member_of, list_of};
ghost use Rattle.opl_objects.specs.Cutting.{other_parts, is_letter};
ghost use Rattle.opl_objects.specs.References.{BeginsWithRef, BeginsWithoutRef};
ghost use Rattle.opl_objects.specs.Outcomes.{IsGood, IsBad};
ghost use Rattle.opl_lexer.specs.declared.fault.FaultKind.TheVariants.{BadRef};

use crate::cut::at_first;
pub use crate::tag_list::tags;
use opl_lexer::{FaultKind, LexError, front_number, unescape, whole};
use road_base::{Key, MOST_ITEMS, Member, Members, NodeId, Refs, RelationId, Text, WayId};
use std::alloc::Global;

/// A list has more than 65,535 items.
pub const TOO_MANY: LexError = LexError::Kind(FaultKind::TooMany);

const BAD_REF: LexError = LexError::Kind(FaultKind::BadRef);

const BAD_MEMBER: LexError = LexError::Kind(FaultKind::BadMember);

/// How many commas stand in a text.
#[inline]
fn commas(text: &str) -> usize
    ensures { result + 1 ≡ length (parts comma text.now) }
{
    let bytes = text.as_bytes();
    let mut count = 0usize;
    for at in 0..bytes.len() {
        if bytes[at] == b',' {
            count += 1;
        }
    }
    count
}

/// For how many items a list takes room at once: for all that it has, and for no more than it may have.
#[inline]
pub fn room(contents: &str) -> usize
    ensures { result ≡ min (length (items contents.now)) 65535 }
{
    if contents.is_empty() {
        return 0;
    }
    let commas = commas(contents);
    if MOST_ITEMS <= commas {
        return MOST_ITEMS;
    }
    commas + 1
}

/// A list's text where it has an item.
#[inline]
pub fn first_items(contents: &str) -> Option<&str>
    ensures { other_parts comma (option_copied result) ≡ items contents.now }
{
    if contents.is_empty() {
        return None;
    }
    Some(contents)
}

/// A key, a value or a role, with its escapes read. `BadEscape` comes exactly where an escape isn't in form.
pub fn text(alloc: Global, raw: &str) -> Result<Text, LexError>
    ensures ok { IfOk result (IsGood (text_of raw.now)) }
    ensures err { IfErr result (IsBad (text_of raw.now)) }
{
    let (plain, escape) = at_first(raw, b'%');
    if escape.is_none() {
        return Ok(Text::of(alloc, plain)?);
    }
    let mut out = String::with_capacity(alloc, raw.len())?;
    unescape(raw, &mut out)?;
    Ok(Text::from_string(out))
}

/// Whether a byte is a digit, a point or a minus sign.
#[inline]
fn is_run_byte(byte: u8) -> bool
    ensures { result ≡ is_run_byte_of byte }
{
    byte.is_ascii_digit() || byte == b'.' || byte == b'-'
}

/// Whether digits, points and minus signs alone stand here.
fn is_run(text: &str) -> bool
    ensures { result ≡ is_run text.now }
{
    let bytes = text.as_bytes();
    for at in 0..bytes.len() {
        if !is_run_byte(bytes[at]) {
            return false;
        }
    }
    true
}

/// Whether two runs stand here, a `y` between them.
fn is_place(text: &str) -> bool
    ensures { result ≡ is_place (parts letter_y text.now) }
{
    let (x, behind) = at_first(text, b'y');
    let Some(behind) = behind else {
        return false;
    };
    let (y, more) = at_first(behind, b'y');
    if more.is_some() {
        return false;
    }
    is_run(x) && is_run(y)
}

/// A number with a place behind it that is passed over, or alone.
#[inline(never)]
fn number_before_place(text: &str) -> Option<i64>
    ensures { result ≡ number_in (parts letter_x text.now) }
{
    let (number, behind) = at_first(text, b'x');
    let Some(behind) = behind else {
        return whole(number);
    };
    let (place, more) = at_first(behind, b'x');
    if more.is_some() {
        return None;
    }
    if !is_place(place) {
        return None;
    }
    whole(number)
}

/// A number alone, or with a place behind it that is passed over.
#[inline]
fn number(text: &str) -> Option<i64>
    ensures { result ≡ number_in (parts letter_x text.now) }
{
    let alone = whole(text);
    if alone.is_some() {
        return alone;
    }
    number_before_place(text)
}

/// The first byte where it is ASCII, and the text behind it.
#[inline]
fn letter(text: &str) -> Option<(u8, &str)>
    ensures some { IfSome result (λ found. slice_index text.now 0 ≡ found.0) }
    ensures rest { IfSome result (λ found. found.1.now ≡ drop 1 text.now) }
    ensures none { IfNone result (is_letter (slice_index text.now 0) ≡ false) }
{
    let bytes = text.as_bytes();
    if bytes.is_empty() || 128 <= bytes[0] {
        return None;
    }
    Some((bytes[0], &text[1..]))
}

/// A reference: `n` and a node's number, maybe with a place behind it.
#[inline(never)]
fn reference(item: &str) -> Option<NodeId>
    ensures { or_fault BadRef result ≡ ref_of item.now }
{
    let (letter, rest) = letter(item)?;
    if letter != b'n' {
        return None;
    }
    Some(NodeId(number(rest)?))
}

/// The first reference where it is an `n` and digits alone, at most 18 of them, and the text behind the comma behind
/// it. Most are; each is gone over once.
#[inline]
fn plain_reference(text: &str) -> Option<(NodeId, Option<&str>)>
    ensures { IfSome result (λ found.
        BeginsWithRef text.now found.0 (other_parts comma (option_copied found.1))) }
{
    let (letter, rest) = letter(text)?;
    if letter != b'n' {
        return None;
    }
    let (number, digits) = front_number(rest)?;
    let end = digits + 1;
    let bytes = text.as_bytes();
    if end == bytes.len() {
        return Some((NodeId(number), None));
    }
    if bytes[end] != b',' {
        return None;
    }
    Some((NodeId(number), Some(&text[end + 1..])))
}

/// The first reference, and the text behind the comma behind it.
#[inline]
fn first_reference(text: &str) -> Option<(NodeId, Option<&str>)>
    ensures some { IfSome result (λ found.
        BeginsWithRef text.now found.0 (other_parts comma (option_copied found.1))) }
    ensures none { IfNone result (BeginsWithoutRef text.now) }
{
    let plain = plain_reference(text);
    if plain.is_some() {
        return plain;
    }
    let (item, behind) = at_first(text, b',');
    Some((reference(item)?, behind))
}

/// The references of a list, in order. `BadRef` comes where one of the first 65,535 items is in fault, and else
/// `TooMany` where the item behind the 65,535th begins.
pub fn refs(alloc: Global, contents: &str) -> Result<Refs, LexError>
    ensures ok { IfOk result (IsGood (list_of ref_of contents.now)) }
    ensures err { IfErr result (IsBad (list_of ref_of contents.now)) }
{
    let mut list = Vec::with_capacity(alloc, room(contents))?;
    let mut next = first_items(contents);
    while let Some(rest) = next {
        if list.len() == MOST_ITEMS {
            return Err(TOO_MANY);
        }
        let Some((id, behind)) = first_reference(rest) else {
            return Err(BAD_REF);
        };
        list.push(id)?;
        next = behind;
    }
    Ok(Refs::from_list(list)?)
}

/// The key that a letter and a number name.
#[inline]
pub fn key(text: &str) -> Option<Key>
    ensures { result ≡ key_of text.now }
{
    let (letter, number) = letter(text)?;
    let number = whole(number)?;
    match letter {
        b'n' => Some(Key::Node(NodeId(number))),
        b'w' => Some(Key::Way(WayId(number))),
        b'r' => Some(Key::Relation(RelationId(number))),
        _ => None,
    }
}

/// A member: a key, `@`, and a role.
fn member(alloc: Global, item: &str) -> Result<Member, LexError>
    ensures ok { IfOk result (IsGood (member_of item.now)) }
    ensures err { IfErr result (IsBad (member_of item.now)) }
{
    let (front, role) = at_first(item, b'@');
    let Some(role) = role else {
        return Err(BAD_MEMBER);
    };
    let Some(item) = key(front) else {
        return Err(BAD_MEMBER);
    };
    let role = text(alloc, role)?;
    Ok(Member { item, role })
}

/// The members of a list, in order. The fault is that of the first item in fault, or `TooMany` where the item behind
/// the 65,535th begins.
pub fn members(alloc: Global, contents: &str) -> Result<Members, LexError>
    ensures ok { IfOk result (IsGood (list_of member_of contents.now)) }
    ensures err { IfErr result (IsBad (list_of member_of contents.now)) }
{
    let mut list = Vec::with_capacity(alloc, room(contents))?;
    let mut next = first_items(contents);
    while let Some(rest) = next {
        if list.len() == MOST_ITEMS {
            return Err(TOO_MANY);
        }
        let (item, behind) = at_first(rest, b',');
        list.push(member(alloc, item)?)?;
        next = behind;
    }
    Ok(Members::from_list(list)?)
}
