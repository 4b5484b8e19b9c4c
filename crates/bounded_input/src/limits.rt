//! The limits of an input.
ghost use Rattle.std.specs.Prelude.{◌≡◌, ◌≢◌, ◌≤◌, ◌<◌, ◌+◌, ◌-◌, ◌^◌, ◌++◌, ◌⊎◌, [], ℕ, List, length, slice_index};
ghost use Rattle.std.specs.Prelude.{IfSome, IfNone};
ghost use Rattle.opl_lexer.specs.Letters.{newline};

use memchr::{memchr, memrchr};
use road_base::MOST_LINE;

/// How many bytes an input may have whose bytes aren't kept: so few that its lines can be counted.
pub const MOST_STREAM: usize = 1 << 62;

/// How long an input is so far, and how long its last line, within the limits.
#[derive(Clone, Copy)]
pub struct Measure {
    /// How many bytes there may be.
    most: usize,
    total: usize,
    line: usize,
    ghost counted: { most ≤ 2 ^ 62 },
    ghost few: { total ≤ most },
    ghost short: { line ≤ 2 ^ 24 },
}

/// How many bytes stand behind the last newline.
fn last_line(bytes: &[u8]) -> usize
    ensures bound { result ≤ length bytes.now }
    ensures open_line { (j : ℕ) → length bytes.now - result ≤ j → j < length bytes.now
        → slice_index bytes.now j ≢ newline }
    ensures start { (result ≡ length bytes.now)
        ⊎ ((result < length bytes.now) × (slice_index bytes.now (length bytes.now - result - 1) ≡ newline)) }
{
    match memrchr(b'\n', bytes) {
        Some(at) => bytes.len() - at - 1,
        None => bytes.len(),
    }
}

impl Measure {
    ghost use Rattle.bounded_input.specs.Limits.{Passes, Measures};

    /// Of nothing, where there may be so many bytes.
    pub fn new(most: usize) -> Measure
        requires { most ≤ 2 ^ 62 }
        ensures measures { Measures [] result }
        ensures total { result.total ≡ 0 }
        ensures most { result.most ≡ most }
    {
        Measure {
            most,
            total: 0,
            line: 0,
        }
    }

    /// With one more part, or None exactly where a limit is passed.
    pub fn with(self, part: &[u8]) -> Option<Measure>
        requires { length part.now ≤ 2 ^ 24 }
        ensures some { IfSome result (λ after. (bytes : List ℕ) → Measures bytes self
            → Measures (bytes ++ part.now) after) }
        ensures total { IfSome result (λ after. after.total ≡ self.total + length part.now) }
        ensures most { IfSome result (λ after. after.most ≡ self.most) }
        ensures none { IfNone result ((bytes : List ℕ) → Measures bytes self → Passes self.most (bytes ++ part.now)) }
    {
        let most = self.most;
        let total = self.total + part.len();
        if total > most {
            return None;
        }
        let Some(first) = memchr(b'\n', part) else {
            let line = self.line + part.len();
            if line > MOST_LINE {
                return None;
            }
            return Some(Measure { most, total, line });
        };
        if self.line + first > MOST_LINE {
            return None;
        }
        let line = last_line(part);
        Some(Measure { most, total, line })
    }
}
