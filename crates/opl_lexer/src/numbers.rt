//! Numbers and coordinates, read from the text that spells them.
ghost use Rattle.std.specs.Prelude.{◌≡◌, ◌<◌, ◌≤◌, ◌+◌, ◌-◌, ◌*◌, ◌^◌, ℕ, List, [], ◌∷◌, length, take};
ghost use Rattle.std.specs.Prelude.{slice_index, Some, SomeIff, IfSome, IfNone, IsTrue};
ghost use Rattle.std.specs.Char.{digit_value};
ghost use Rattle.std.specs.Str.Parse.{IsNumeral, digits_value, starts_with_minus};
ghost use Rattle.opl_lexer.specs.Letters.{point};
ghost use Rattle.opl_lexer.specs.Parts.{parts};
ghost use Rattle.opl_lexer.specs.Numbers.{IsFront, is_numeral, magnitude, whole_of, version_of, units_in};
ghost use Rattle.opl_lexer.specs.Numbers.{coordinate_of, number_below};

/// How many digits a number may have whose value is surely below 2^63.
const SAFE_DIGITS: usize = 18;

/// The value of a digit.
#[inline]
fn digit(byte: u8) -> Option<u64>
    ensures { SomeIff result (digit_value byte < 10) (digit_value byte) }
{
    if byte < b'0' || b'9' < byte {
        return None;
    }
    Some((byte - b'0') as u64)
}

/// The value of the digits in front, of at most 18, and how many these are.
#[inline]
fn digits_in_front(bytes: &[u8]) -> (u64, usize)
    ensures within { result.1 ≤ length bytes.now }
    ensures few { result.1 ≤ 18 }
    ensures front { IsFront bytes.now result.1 result.0 }
    ensures stops { result.1 < 18 → result.1 < length bytes.now
        → 10 ≤ digit_value (slice_index bytes.now result.1) }
{
    let most = bytes.len().min(SAFE_DIGITS);
    let mut value = 0u64;
    for at in 0..most {
        let Some(digit) = digit(bytes[at]) else {
            return (value, at);
        };
        value = value * 10 + digit;
    }
    (value, most)
}

/// The value with one more digit behind it.
fn with_digit(value: u64, byte: u8) -> Option<u64>
    ensures { let next = value * 10 + digit_value byte in
        SomeIff result ((digit_value byte < 10) × (next < 2 ^ 64)) next }
{
    let digit = digit(byte)?;
    value.checked_mul(10)?.checked_add(digit)
}

/// The value of any number of digits, at least one.
#[inline(never)]
fn many_digits(bytes: &[u8]) -> Option<u64>
    requires { 0 < length bytes.now }
    ensures { SomeIff result
        (IsNumeral 10 bytes.now × (digits_value 10 bytes.now < 2 ^ 64))
        (digits_value 10 bytes.now) }
{
    let mut value = 0u64;
    for at in 0..bytes.len() {
        let Some(next) = with_digit(value, bytes[at]) else {
            return None;
        };
        value = next;
    }
    Some(value)
}

/// The value of digits alone, at least one.
#[inline]
fn digits(bytes: &[u8]) -> Option<u64>
    ensures { SomeIff result
        (IsNumeral 10 bytes.now × (digits_value 10 bytes.now < 2 ^ 64))
        (digits_value 10 bytes.now) }
{
    if bytes.is_empty() {
        return None;
    }
    let (value, count) = digits_in_front(bytes);
    if count == SAFE_DIGITS {
        return many_digits(bytes);
    }
    if count < bytes.len() {
        return None;
    }
    Some(value)
}

/// The number that the digits in front spell, of at most 18, and how many these are. None where no digit stands in
/// front.
#[inline]
pub fn front_number(text: &str) -> Option<(i64, usize)>
    ensures within { IfSome result (λ found. found.1 ≤ length text.now) }
    ensures digits { IfSome result (λ found. IsTrue (is_numeral (take found.1 text.now))) }
    ensures value { IfSome result (λ found. whole_of (take found.1 text.now) ≡ Some found.0) }
{
    let (value, count) = digits_in_front(text.as_bytes());
    if count == 0 {
        return None;
    }
    Some((value as i64, count))
}

/// Whether a minus stands in front, and what follows it.
#[inline]
fn sign(bytes: &[u8]) -> (bool, &[u8])
    ensures minus { result.0 ≡ starts_with_minus bytes.now }
    ensures rest { result.1.now ≡ magnitude bytes.now }
{
    match bytes {
        [b'-', rest @ ..] => (true, rest),
        _ => (false, bytes),
    }
}

/// An optional minus and digits, a value of i64: an object's number. None where the text isn't in this form and range.
pub fn whole(text: &str) -> Option<i64>
    ensures { result ≡ whole_of text.now }
{
    let (minus, rest) = sign(text.as_bytes());
    let Some(size) = digits(rest) else {
        return None;
    };
    if minus {
        0i64.checked_sub_unsigned(size)
    } else {
        0i64.checked_add_unsigned(size)
    }
}

/// One or more digits, a value of u32: an object's version. None where the text isn't in this form and range.
pub fn version(text: &str) -> Option<u32>
    ensures { result ≡ version_of text.now }
{
    let Some(value) = digits(text.as_bytes()) else {
        return None;
    };
    u32::try_from(value).ok()
}

/// Digits alone, at least one, a value of u64. None where the text isn't in this form and range.
pub fn long_number(text: &str) -> Option<u64>
    ensures { result ≡ number_below (2 ^ 64) text.now }
{
    digits(text.as_bytes())
}

/// How many digits stand at the front.
#[inline]
fn digit_run(bytes: &[u8]) -> usize
    ensures bound { result ≤ length bytes.now }
    ensures digits { (k : ℕ) → k < result → digit_value (slice_index bytes.now k) < 10 }
    ensures stops { result < length bytes.now → 10 ≤ digit_value (slice_index bytes.now result) }
{
    for at in 0..bytes.len() {
        if !bytes[at].is_ascii_digit() {
            return at;
        }
    }
    bytes.len()
}

/// A power of ten up to the seventh.
#[inline]
fn power(exponent: usize) -> u64
    requires { exponent ≤ 7 }
    ensures value { result ≡ 10 ^ exponent }
    ensures bound { result ≤ 10 ^ 7 }
{
    match exponent {
        0 => 1,
        1 => 10,
        2 => 100,
        3 => 1_000,
        4 => 10_000,
        5 => 100_000,
        6 => 1_000_000,
        _ => 10_000_000,
    }
}

/// One or more digits behind a point, in units of 1e-7.
#[inline]
fn places(bytes: &[u8]) -> Option<u64>
    ensures value { SomeIff result (IsNumeral 10 bytes.now)
        (digits_value 10 (take 7 bytes.now) * 10 ^ (7 - length bytes.now)) }
    ensures bound { IfSome result (λ n. n < 10 ^ 7) }
{
    if bytes.len() < 7 {
        let Some(value) = digits(bytes) else {
            return None;
        };
        return Some(value * power(7 - bytes.len()));
    }
    let (front, rest) = bytes.split_at(7);
    if digit_run(rest) != rest.len() {
        return None;
    }
    digits(front)
}

/// What stands before the first point, and what stands behind it where there is one.
#[inline]
fn at_point(bytes: &[u8]) -> (&[u8], Option<&[u8]>)
    ensures first { (others : List (List ℕ)) × (parts point bytes.now ≡ result.0.now ∷ others) }
    ensures cut { IfSome result.1 (λ behind. parts point bytes.now ≡ result.0.now ∷ parts point behind.now) }
    ensures whole { IfNone result.1 (parts point bytes.now ≡ result.0.now ∷ []) }
{
    for at in 0..bytes.len() {
        if bytes[at] == b'.' {
            let (front, rest) = bytes.split_at(at);
            let (_, behind) = rest.split_at(1);
            return (front, Some(behind));
        }
    }
    (bytes, None)
}

/// A decimal in units of 1e-7, where it is below 1001.
#[inline(never)]
fn any_degrees(bytes: &[u8]) -> Option<u64>
    ensures found { IfSome result (λ n. units_in (parts point bytes.now) ≡ Some n) }
    ensures none { IfNone result (IfSome (units_in (parts point bytes.now)) (λ n. 10010000000 ≤ n)) }
    ensures bound { IfSome result (λ n. n < 10010000000) }
{
    let (front, behind) = at_point(bytes);
    let Some(whole) = digits(front) else {
        return None;
    };
    if whole > 1000 {
        return None;
    }
    let Some(behind) = behind else {
        return Some(whole * 10_000_000);
    };
    let Some(behind) = places(behind) else {
        return None;
    };
    Some(whole * 10_000_000 + behind)
}

/// A decimal in units of 1e-7, where it is below 1001 and has at most 18 digits in front.
#[inline]
fn plain_degrees(bytes: &[u8]) -> Option<u64>
    ensures found { IfSome result (λ n. units_in (parts point bytes.now) ≡ Some n) }
    ensures bound { IfSome result (λ n. n < 10010000000) }
{
    let (whole, count) = digits_in_front(bytes);
    if count == 0 || whole > 1000 {
        return None;
    }
    if count == bytes.len() {
        return Some(whole * 10_000_000);
    }
    if bytes[count] != b'.' {
        return None;
    }
    let (_, behind) = bytes.split_at(count + 1);
    let Some(behind) = places(behind) else {
        return None;
    };
    Some(whole * 10_000_000 + behind)
}

/// A decimal in units of 1e-7, where it is below 1001.
fn degrees(bytes: &[u8]) -> Option<u64>
    ensures found { IfSome result (λ n. units_in (parts point bytes.now) ≡ Some n) }
    ensures none { IfNone result (IfSome (units_in (parts point bytes.now)) (λ n. 10010000000 ≤ n)) }
    ensures bound { IfSome result (λ n. n < 10010000000) }
{
    let plain = plain_degrees(bytes);
    if plain.is_some() {
        return plain;
    }
    any_degrees(bytes)
}

/// A coordinate in units of 1e-7 degree, of at most the limit's size; digits after the seventh behind the point are
/// dropped. None where the text isn't in this form and range.
pub fn coordinate(text: &str, limit: i32) -> Option<i32>
    ensures { result ≡ coordinate_of limit text.now }
{
    if limit < 0 {
        return None;
    }
    let (minus, rest) = sign(text.as_bytes());
    let Some(size) = degrees(rest) else {
        return None;
    };
    if size > limit as u64 {
        return None;
    }
    if minus {
        Some(-(size as i32))
    } else {
        Some(size as i32)
    }
}
