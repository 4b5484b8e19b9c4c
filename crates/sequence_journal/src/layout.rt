//! What stands at the front of bytes: the head of a base, or the fields of a record.
ghost use Rattle.std.specs.Prelude.{◌≡◌, ◌+◌, ◌<◌, ◌^◌, ◌++◌, ◌∷◌, ℕ, List, IfSome, IfNone, length};
ghost use Rattle.road_base.specs.Bytes.{u32_bytes, u64_bytes};
ghost use Rattle.sequence_journal.specs.Layout.{magic, head_bytes};
ghost use Rattle.sequence_journal.specs.Fields.{HeadFits, NoHead, fields_bytes, NoFields};

/// How many bytes the gate, the magic and the fields of a base take.
pub const HEAD: usize = 37;

/// How many bytes the gate and the fields of a record take.
pub const FIELDS: usize = 17;

/// What the head of an open base says.
#[derive(Clone, Copy)]
pub struct Head {
    pub profile: u32,
    pub generation: u64,
    pub number: u64,
    /// How many bytes follow the head.
    pub size: u64,
}

/// The head of an open base, and what is behind it.
pub fn open_head(bytes: &[u8]) -> Option<(Head, &[u8])>
    ensures found { IfSome result (λ r.
        bytes.now ≡ head_bytes r.0.profile r.0.generation r.0.number r.0.size ++ r.1.now) }
    ensures fits { IfSome result (λ r. HeadFits r.0.profile r.0.generation r.0.number r.0.size) }
    ensures none { IfNone result (NoHead bytes.now) }
{
    let fields = behind_magic(bytes)?;
    let (profile, rest) = small_number(fields)?;
    let (generation, rest) = number(rest)?;
    let (kept, rest) = number(rest)?;
    let (size, rest) = number(rest)?;
    let head = Head {
        profile,
        generation,
        number: kept,
        size,
    };
    Some((head, rest))
}

/// The fields of an open record.
#[derive(Clone, Copy)]
pub struct Fields {
    pub number: u64,
    /// How many bytes follow the fields.
    pub size: u64,
}

/// The fields of an open record, and what is behind them.
pub fn open_fields(bytes: &[u8]) -> Option<(Fields, &[u8])>
    ensures found { IfSome result (λ r. bytes.now ≡ fields_bytes r.0.number r.0.size ++ r.1.now) }
    ensures number_fits { IfSome result (λ r. r.0.number < 2 ^ 64) }
    ensures size_fits { IfSome result (λ r. r.0.size < 2 ^ 64) }
    ensures none { IfNone result (NoFields bytes.now) }
{
    let fields = behind_gate(bytes)?;
    let (kept, rest) = number(fields)?;
    let (size, rest) = number(rest)?;
    Some((Fields { number: kept, size }, rest))
}

/// A number of eight bytes, and what is behind it.
fn number(bytes: &[u8]) -> Option<(u64, &[u8])>
    ensures found { IfSome result (λ r. bytes.now ≡ u64_bytes r.0 ++ r.1.now) }
    ensures small { IfSome result (λ r. r.0 < 2 ^ 64) }
    ensures none { IfNone result (length bytes.now < 8) }
{
    if bytes.len() < 8 {
        return None;
    }
    let (front, rest) = bytes.split_at(8);
    let number = u64::from_le_bytes([
        front[0], front[1], front[2], front[3], front[4], front[5], front[6], front[7],
    ]);
    Some((number, rest))
}

/// A number of four bytes, and what is behind it.
fn small_number(bytes: &[u8]) -> Option<(u32, &[u8])>
    ensures found { IfSome result (λ r. bytes.now ≡ u32_bytes r.0 ++ r.1.now) }
    ensures small { IfSome result (λ r. r.0 < 2 ^ 32) }
    ensures none { IfNone result (length bytes.now < 4) }
{
    if bytes.len() < 4 {
        return None;
    }
    let (front, rest) = bytes.split_at(4);
    let number = u32::from_le_bytes([front[0], front[1], front[2], front[3]]);
    Some((number, rest))
}

/// What is behind an open gate.
fn behind_gate(bytes: &[u8]) -> Option<&[u8]>
    ensures found { IfSome result (λ rest. bytes.now ≡ 1 ∷ rest.now) }
    ensures none { IfNone result ((rest : List ℕ) → bytes.now ≡ 1 ∷ rest → ⊥) }
{
    let (gate, rest) = bytes.split_first()?;
    if *gate == 1 { Some(rest) } else { None }
}

/// What is behind an open gate and the magic.
fn behind_magic(bytes: &[u8]) -> Option<&[u8]>
    ensures found { IfSome result (λ rest. bytes.now ≡ (1 ∷ magic) ++ rest.now) }
    ensures none { IfNone result ((rest : List ℕ) → bytes.now ≡ (1 ∷ magic) ++ rest → ⊥) }
{
    if bytes.len() < 9 {
        return None;
    }
    let (front, rest) = bytes.split_at(9);
    if front == b"\x01OSMJRNL1".as_slice() {
        Some(rest)
    } else {
        None
    }
}
