//! Numbers as bytes, little endian, and lists of what has bytes.
ghost use Rattle.std.specs.Prelude.{◌≡◌, ◌<◌, ◌^◌, ℕ, List, [], ◌∷◌, ◌++◌, OnOk, OnErr, FitsSigned};
ghost use Rattle.std.specs.Int.{w32, w64};
ghost use Rattle.std.specs.List.{AllByRecursion};
ghost use Rattle.road_base.specs.Bytes.{u32_bytes, u64_bytes, i32_bytes, i64_bytes, joined, Keeps};

use crate::NoMemory;

/// Numbers that are appended in little endian.
pub trait LittleEndian {
    ghost bytes: { Self → List ℕ };

    /// What the type can hold.
    ghost fits: { Self → Type 0 };

    /// Appends the number's bytes. Where no memory is found nothing is appended.
    fn put(&self, out: &mut Vec<u8>) -> Result<(), NoMemory>
        ensures ok { OnOk result (out.new.items ≡ out.old.items ++ bytes self.now) }
        ensures fit { OnOk result (fits self.now) }
        ensures err { OnErr result (out.new.items ≡ out.old.items) };
}

impl LittleEndian for u8 {
    ghost bytes = { λ n. n ∷ [] };

    ghost fits = { λ n. n < 2 ^ 8 };

    fn put(&self, out: &mut Vec<u8>) -> Result<(), NoMemory> {
        Ok(out.push(*self)?)
    }
}

impl LittleEndian for u32 {
    ghost bytes = { u32_bytes };

    ghost fits = { λ n. n < 2 ^ 32 };

    fn put(&self, out: &mut Vec<u8>) -> Result<(), NoMemory> {
        Ok(out.extend_from_slice(&self.to_le_bytes())?)
    }
}

impl LittleEndian for u64 {
    ghost bytes = { u64_bytes };

    ghost fits = { λ n. n < 2 ^ 64 };

    fn put(&self, out: &mut Vec<u8>) -> Result<(), NoMemory> {
        Ok(out.extend_from_slice(&self.to_le_bytes())?)
    }
}

impl LittleEndian for i32 {
    ghost bytes = { i32_bytes };

    ghost fits = { FitsSigned w32 };

    fn put(&self, out: &mut Vec<u8>) -> Result<(), NoMemory> {
        Ok(out.extend_from_slice(&self.to_le_bytes())?)
    }
}

impl LittleEndian for i64 {
    ghost bytes = { i64_bytes };

    ghost fits = { FitsSigned w64 };

    fn put(&self, out: &mut Vec<u8>) -> Result<(), NoMemory> {
        Ok(out.extend_from_slice(&self.to_le_bytes())?)
    }
}

/// How a format spells the items of a type.
pub trait Format<T> {
    ghost spelling: { T → List ℕ };

    /// The items that the format has room for.
    ghost has_form: { T → Type 0 } = { λ _. Unit {0} };

    /// The item's numbers fit their bytes.
    ghost fits: { T → Type 0 } = { λ _. Unit {0} };

    /// Appends the spelling. Where no memory is found, a part of it may stand there.
    fn put(item: &T, out: &mut Vec<u8>) -> Result<(), NoMemory>
        requires { has_form item.now }
        ensures ok { OnOk result (out.new.items ≡ out.old.items ++ spelling item.now) }
        ensures fit { OnOk result (fits item.now) }
        ensures err { OnErr result (Keeps out.old.items out.new.items) };
}

/// Appends the spelling of each item, in order. Where no memory is found nothing is appended.
pub fn put_all<F: Format<T>, T>(items: &[T], out: &mut Vec<u8>) -> Result<(), NoMemory>
    requires { AllByRecursion F.has_form items.now }
    ensures ok { OnOk result (out.new.items ≡ out.old.items ++ joined F.spelling items.now) }
    ensures fit { OnOk result (AllByRecursion F.fits items.now) }
    ensures err { OnErr result (out.new.items ≡ out.old.items) }
{
    let before = out.len();
    for item in items {
        if let Err(error) = F::put(item, out) {
            out.truncate(before);
            return Err(error);
        }
    }
    Ok(())
}
