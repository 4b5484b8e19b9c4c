//! The fields of a line.
ghost use Rattle.std.specs.Prelude.{◌≡◌, ◌<◌, ◌≤◌, ℕ, [], ◌∷◌, length, slice_index, true, false, IfSome, IfNone};
ghost use Rattle.std.specs.Iterator.{YieldsFirstRef, item_count};
ghost use Rattle.opl_lexer.specs.Fields.{is_blank as is_blank_byte, fields as fields_of};
ghost use Rattle.opl_lexer.specs.Left.{fields_left};

use std::simd::prelude::*;

/// The fields of a line, in order.
#[derive(Drop)]
pub struct FieldIter<'a> {
    rest: &'a str,
}

/// The longest runs of the line without space and tab, in order.
pub fn fields(line: &str) -> FieldIter<'_>
    ensures { fields_left result ≡ fields_of line.now }
{
    FieldIter { rest: line }
}

/// Whether a byte is a space or a tab.
#[inline]
fn is_blank(byte: u8) -> bool
    ensures { result ≡ is_blank_byte byte }
{
    byte == b' ' || byte == b'\t'
}

/// How many blanks stand in front, any number of them.
fn all_blanks(bytes: &[u8]) -> usize
    ensures bound { result ≤ length bytes.now }
    ensures blank { (k : ℕ) → k < result → is_blank_byte (slice_index bytes.now k) ≡ true }
    ensures stops { result < length bytes.now → is_blank_byte (slice_index bytes.now result) ≡ false }
{
    for at in 0..bytes.len() {
        if !is_blank(bytes[at]) {
            return at;
        }
    }
    bytes.len()
}

/// How many blanks stand in front: mostly one.
#[inline]
fn blanks(bytes: &[u8]) -> usize
    ensures bound { result ≤ length bytes.now }
    ensures blank { (k : ℕ) → k < result → is_blank_byte (slice_index bytes.now k) ≡ true }
    ensures stops { result < length bytes.now → is_blank_byte (slice_index bytes.now result) ≡ false }
{
    if 2 <= bytes.len() && is_blank(bytes[0]) && !is_blank(bytes[1]) {
        return 1;
    }
    all_blanks(bytes)
}

/// How many bytes of a short text stand before the first blank.
#[inline]
fn short_run(bytes: &[u8]) -> usize
    ensures bound { result ≤ length bytes.now }
    ensures solid { (k : ℕ) → k < result → is_blank_byte (slice_index bytes.now k) ≡ false }
    ensures stops { result < length bytes.now → is_blank_byte (slice_index bytes.now result) ≡ true }
{
    for at in 0..bytes.len() {
        if is_blank(bytes[at]) {
            return at;
        }
    }
    bytes.len()
}

/// How many of the first 16 bytes stand before one that is at most a space.
#[inline]
fn above_space(bytes: &[u8]) -> usize
    requires { 16 ≤ length bytes.now }
    ensures bound { result ≤ 16 }
    ensures above { (k : ℕ) → k < result → 32 < slice_index bytes.now k }
{
    let low = u8x16::from_slice(bytes)
        .simd_le(u8x16::splat(b' '))
        .to_bitmask();
    if low == 0 {
        return 16;
    }
    low.trailing_zeros() as usize
}

/// A number of bytes in front without a blank: none exactly where a blank stands first.
#[inline]
fn step(bytes: &[u8]) -> usize
    requires { 0 < length bytes.now }
    ensures bound { result ≤ length bytes.now }
    ensures solid { (k : ℕ) → k < result → is_blank_byte (slice_index bytes.now k) ≡ false }
    ensures stops { result ≡ 0 → is_blank_byte (slice_index bytes.now 0) ≡ true }
{
    if bytes.len() < 16 {
        return short_run(bytes);
    }
    if is_blank(bytes[0]) {
        return 0;
    }
    above_space(bytes).max(1)
}

/// How many bytes stand before the first blank, none of which is among the first `at`.
fn run_from(bytes: &[u8], at: usize) -> usize
    requires inside { at ≤ length bytes.now }
    requires front { (k : ℕ) → k < at → is_blank_byte (slice_index bytes.now k) ≡ false }
    ensures bound { result ≤ length bytes.now }
    ensures solid { (k : ℕ) → k < result → is_blank_byte (slice_index bytes.now k) ≡ false }
    ensures stops { result < length bytes.now → is_blank_byte (slice_index bytes.now result) ≡ true }
{
    let mut at = at;
    while at < bytes.len() {
        let (_, rest) = bytes.split_at(at);
        let step = step(rest);
        if step == 0 {
            return at;
        }
        at += step;
    }
    at
}

/// How many bytes stand before the first blank: mostly fewer than 16.
#[inline]
fn run(bytes: &[u8]) -> usize
    ensures bound { result ≤ length bytes.now }
    ensures solid { (k : ℕ) → k < result → is_blank_byte (slice_index bytes.now k) ≡ false }
    ensures stops { result < length bytes.now → is_blank_byte (slice_index bytes.now result) ≡ true }
{
    if bytes.len() < 16 {
        return short_run(bytes);
    }
    let near = above_space(bytes);
    if near < 16 && is_blank(bytes[near]) {
        return near;
    }
    run_from(bytes, near)
}

/// The text from its first byte on that is no blank.
#[inline]
fn without_blanks(text: &str) -> &str
    ensures same { fields_of result.now ≡ fields_of text.now }
    ensures solid { 0 < length result.now → is_blank_byte (slice_index result.now 0) ≡ false }
{
    let (_, rest) = text.split_at(blanks(text.as_bytes()));
    rest
}

/// The first field, and the text behind it.
#[inline]
fn first_field(text: &str) -> Option<(&str, &str)>
    ensures some { IfSome result (λ parts. fields_of text.now ≡ parts.0.now ∷ fields_of parts.1.now) }
    ensures none { IfNone result (fields_of text.now ≡ []) }
{
    let text = without_blanks(text);
    if text.is_empty() {
        return None;
    }
    Some(text.split_at(run(text.as_bytes())))
}

impl<'a> Iterator for FieldIter<'a> {
    type Item = &'a str;

    ghost next_gives = { YieldsFirstRef fields_left };

    ghost remaining = { item_count fields_left };

    #[inline]
    fn next(&mut self) -> Option<&'a str> {
        let (field, rest) = first_field(self.rest)?;
        self.rest = rest;
        Some(field)
    }
}
