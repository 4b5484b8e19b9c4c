//! Texts of a fixed shape.
ghost use Rattle.std.specs.Prelude.{◌≡◌, ◌<◌, ◌+◌, ℕ, true, length, slice_index};
ghost use Rattle.std.specs.Char.{digit_value};
ghost use Rattle.moment_rules.specs.Letters.{digit_zero};
ghost use Rattle.moment_rules.specs.Shapes.{has_shape, meets, number_at};

/// Whether the character is that of the shape, or any digit where that is 0.
fn meets(shape: u8, byte: u8) -> bool
    ensures { result ≡ meets shape byte }
{
    if shape == b'0' {
        byte.is_ascii_digit()
    } else {
        byte == shape
    }
}

/// Whether the text has the shape: digits where that has a 0, and elsewhere the same characters.
pub fn has_shape(shape: &[u8], text: &[u8]) -> bool
    ensures value { result ≡ has_shape shape.now text.now }
    ensures len { result ≡ true → length text.now ≡ length shape.now }
    ensures digits { result ≡ true → (k : ℕ) → k < length shape.now → slice_index shape.now k ≡ digit_zero
        → digit_value (slice_index text.now k) < 10 }
{
    if shape.len() != text.len() {
        return false;
    }
    for at in 0..shape.len() {
        if !meets(shape[at], text[at]) {
            return false;
        }
    }
    true
}

/// The number that two digits at a place spell.
pub fn two_digits(text: &[u8], place: usize) -> u8
    requires inside { place + 1 < length text.now }
    requires first { digit_value (slice_index text.now place) < 10 }
    requires second { digit_value (slice_index text.now (place + 1)) < 10 }
    ensures value { result ≡ number_at place 2 text.now }
    ensures bound { result < 100 }
{
    (text[place] - b'0') * 10 + (text[place + 1] - b'0')
}

/// The number that four digits at a place spell.
pub fn four_digits(text: &[u8], place: usize) -> u16
    requires inside { place + 3 < length text.now }
    requires digits { (k : ℕ) → k < 4 → digit_value (slice_index text.now (place + k)) < 10 }
    ensures value { result ≡ number_at place 4 text.now }
    ensures bound { result < 10000 }
{
    two_digits(text, place) as u16 * 100 + two_digits(text, place + 2) as u16
}
