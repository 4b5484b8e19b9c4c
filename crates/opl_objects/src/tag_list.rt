//! Tags, read in whatever order and kept ascending by key.
ghost use Rattle.std.specs.Prelude.{◌≡◌, ◌≤◌, IfOk, IfErr, List, ℕ, length};
ghost use Rattle.std.specs.Ordering.{is_lt, nat_cmp};
ghost use Rattle.std.specs.Cmp.Lexicographic.{slice_cmp};
ghost use Rattle.road_base.specs.Tags.{IsAscending, value_of};
ghost use Rattle.opl_lexer.specs.Contents.{Good, tag_of, list_of};
ghost use Rattle.opl_lexer.specs.Spelling.{AreTags};
ghost use Rattle.opl_lexer.specs.declared.fault.LexError.TheVariants.{NoMemory};
ghost use Rattle.opl_objects.specs.Outcomes.{IsGood, IsBad};

use crate::contents::{TOO_MANY, first_items, room, text};
use crate::cut::at_first;
use opl_lexer::{FaultKind, LexError};
use road_base::{MOST_ITEMS, Tags, Text};
use std::alloc::Global;

const BAD_TAG: LexError = LexError::Kind(FaultKind::BadTag);

/// A key and a value.
fn tag(alloc: Global, item: &str) -> Result<(Text, Text), LexError>
    ensures ok { IfOk result (IsGood (tag_of item.now)) }
    ensures err { IfErr result (IsBad (tag_of item.now)) }
{
    let (key, behind) = at_first(item, b'=');
    let key = text(alloc, key)?;
    let Some(behind) = behind else {
        return Err(BAD_TAG);
    };
    let (value, more) = at_first(behind, b'=');
    let value = text(alloc, value)?;
    if more.is_some() {
        return Err(BAD_TAG);
    }
    Ok((key, value))
}

/// The tags of a list as they stand there.
fn pairs(alloc: Global, contents: &str) -> Result<Vec<(Text, Text)>, LexError>
    ensures ok { IfOk result (λ list. list_of tag_of contents.now ≡ Good list.items) }
    ensures short { IfOk result (λ list. length list.items ≤ 65535) }
    ensures err { IfErr result (IsBad (list_of tag_of contents.now)) }
{
    let mut list = Vec::with_capacity(alloc, room(contents))?;
    let mut next = first_items(contents);
    while let Some(rest) = next {
        if list.len() == MOST_ITEMS {
            return Err(TOO_MANY);
        }
        let (item, behind) = at_first(rest, b',');
        list.push(tag(alloc, item)?)?;
        next = behind;
    }
    Ok(list)
}

/// The tags ascending by key, of each key the first one.
fn in_order(list: Vec<(Text, Text)>) -> Result<Vec<(Text, Text)>, LexError>
    ensures ascending { IfOk result (λ tags. IsAscending tags.items) }
    ensures values { IfOk result (λ tags. (key : List ℕ) → value_of key tags.items ≡ value_of key list.items) }
    ensures short { IfOk result (λ tags. length tags.items ≤ length list.items) }
    ensures only { IfErr result (λ e. e ≡ NoMemory) }
{
    let mut list = list;
    list.sort_by(|a, b| a.0.as_str().cmp(b.0.as_str()))?;
    list.dedup_by(|later, kept| later.0.as_str() == kept.0.as_str());
    Ok(list)
}

/// The tags of a list, ascending by key. Of a key that stands twice the first value counts. The fault is that of the
/// first item in fault, or `TooMany` where the item behind the 65,535th begins.
pub fn tags(alloc: Global, contents: &str) -> Result<Tags, LexError>
    ensures ok { IfOk result (AreTags contents.now) }
    ensures err { IfErr result (IsBad (list_of tag_of contents.now)) }
{
    let list = pairs(alloc, contents)?;
    if Tags::are_ascending(&list) {
        return Ok(Tags::from_list(list)?);
    }
    Ok(Tags::from_list(in_order(list)?)?)
}
