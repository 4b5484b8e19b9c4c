//! The tags of an object.
ghost use Rattle.std.specs.Prelude.{◌≡◌, ◌↔◌, [], IfOk, IsTrue, ◌≤◌, length, take, option_copied};
ghost use Rattle.std.specs.Ordering.{nat_cmp};
ghost use Rattle.std.specs.Cmp.Lexicographic.{slice_cmp};
ghost use Rattle.road_base.specs.Tags.{IsAscending, is_ascending, value_of};

use crate::boxed_list::BoxedList;
use crate::{NoMemory, Text};
use std::alloc::Global;
use std::cmp::Ordering;
use std::marker::Model;

/// So many tags at most are gone through for a key. Most objects have fewer.
const FEW: usize = 16;

/// Keys with their values, the keys strictly ascending by bytes, at most 65,535 of them.
#[derive(Drop)]
pub struct Tags {
    list: BoxedList<(Text, Text)>,
}

impl Model for Tags {
    ghost use Rattle.std.specs.Prelude.{List, ℕ, ◌≤◌, length};
    ghost use Rattle.road_base.specs.Tags.{IsAscending};

    ghost Value = { List (List ℕ × List ℕ) };

    ghost view = { λ t. t.list };

    ghost invariant = { λ t. IsAscending t.list × (length t.list ≤ 65535) };
}

impl Tags {
    /// Whether each key stands above the one before it by bytes, as tags ask.
    pub fn are_ascending(list: &[(Text, Text)]) -> bool
        ensures { result ≡ is_ascending list.now }
    {
        for at in 1..list.len() {
            if list[at - 1].0.as_str() >= list[at].0.as_str() {
                return false;
            }
        }
        true
    }

    /// None. Takes no memory.
    pub fn new() -> Tags
        ensures { result ≡ [] }
    {
        Tags {
            list: BoxedList::new(),
        }
    }

    /// These pairs.
    pub fn from_list(list: Vec<(Text, Text)>) -> Result<Tags, NoMemory>
        requires ascending { IsAscending list.items }
        requires short { length list.items ≤ 65535 }
        ensures { IfOk result (λ t. t ≡ list.items) }
    {
        let list = BoxedList::of(list)?;
        Ok(Tags { list })
    }

    /// The pairs, in the order of their keys.
    pub fn items(&self) -> &[(Text, Text)]
        ensures items { result.now ≡ self.now }
        ensures ascending { IsAscending self.now }
        ensures short { length self.now ≤ 65535 }
    {
        self.list.items()
    }

    /// The value of a key, None exactly where the key isn't carried.
    pub fn get(&self, key: &str) -> Option<&str>
        ensures { option_copied result ≡ value_of key.now self.now }
    {
        let list = self.list.items();
        if list.len() <= FEW {
            return value_among(list, key);
        }
        match list.binary_search_by(|pair| pair.0.as_str().cmp(key)) {
            Ok(at) => Some(list[at].1.as_str()),
            Err(_) => None,
        }
    }

    /// Whether the two are equal.
    pub fn same(&self, other: &Tags) -> bool
        ensures { IsTrue result ↔ (self.now ≡ other.now) }
    {
        same_pairs(self.list.items(), other.list.items())
    }

    /// An equal value.
    pub fn copy(&self) -> Result<Tags, NoMemory>
        ensures { IfOk result (λ t. t ≡ self.now) }
    {
        let Some(from) = self.list.held() else {
            return Ok(Tags::new());
        };
        Tags::from_list(copied_pairs(*from.allocator(), from.as_slice())?)
    }
}

/// Equal pairs.
fn copied_pairs(alloc: Global, pairs: &[(Text, Text)]) -> Result<Vec<(Text, Text)>, NoMemory>
    ensures { IfOk result (λ v. v.items ≡ pairs.now) }
{
    let mut list = Vec::with_capacity(alloc, pairs.len())?;
    for pair in pairs {
        list.push((pair.0.copy()?, pair.1.copy()?))?;
    }
    Ok(list)
}

/// The value of a key among few pairs: they are gone through until a key begins with a later byte.
fn value_among<'a>(list: &'a [(Text, Text)], key: &str) -> Option<&'a str>
    requires ascending { IsAscending list.now }
    ensures { option_copied result ≡ value_of key.now list.now }
{
    for pair in list {
        let found = pair.0.as_str();
        match first_bytes_order(found.as_bytes(), key.as_bytes()) {
            Ordering::Less => {}
            Ordering::Equal => {
                if found == key {
                    return Some(pair.1.as_str());
                }
            }
            Ordering::Greater => return None,
        }
    }
    None
}

/// How the first bytes compare. No byte is below each.
fn first_bytes_order(these: &[u8], those: &[u8]) -> Ordering
    ensures { result ≡ slice_cmp nat_cmp (take 1 these.now) (take 1 those.now) }
{
    match (these, those) {
        ([this, ..], [that, ..]) => this.cmp(that),
        ([], [_, ..]) => Ordering::Less,
        ([_, ..], []) => Ordering::Greater,
        ([], []) => Ordering::Equal,
    }
}

fn same_pairs(these: &[(Text, Text)], those: &[(Text, Text)]) -> bool
    ensures { IsTrue result ↔ (these.now ≡ those.now) }
{
    if these.len() != those.len() {
        return false;
    }
    for at in 0..these.len() {
        if !these[at].0.same(&those[at].0) || !these[at].1.same(&those[at].1) {
            return false;
        }
    }
    true
}
