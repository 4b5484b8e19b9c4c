//! Numbers, little endian.
ghost use Rattle.std.specs.Prelude.{◌<◌, ◌^◌, FitsSigned};
ghost use Rattle.std.specs.Int.{w32, w64};
ghost use Rattle.road_base.specs.Bytes.{u32_bytes, u64_bytes, i32_bytes, i64_bytes};
ghost use Rattle.spelled_bytes.specs.OneSpelling.{u32_one, u64_one, i32_one, i64_one};

use crate::spelling::Spell;
use crate::unread::Unread;
use std::alloc::Global;

impl<F> Spell<F> for u32 {
    ghost spelling = { u32_bytes };

    ghost fits = { λ n. n < 2 ^ 32 };

    ghost one = { u32_one };

    fn read(_alloc: Global, bytes: &[u8]) -> Result<(u32, &[u8]), Unread> {
        if bytes.len() < 4 {
            return Err(Unread::Malformed);
        }
        let (front, rest) = bytes.split_at(4);
        let number = u32::from_le_bytes([front[0], front[1], front[2], front[3]]);
        Ok((number, rest))
    }
}

impl<F> Spell<F> for u64 {
    ghost spelling = { u64_bytes };

    ghost fits = { λ n. n < 2 ^ 64 };

    ghost one = { u64_one };

    fn read(_alloc: Global, bytes: &[u8]) -> Result<(u64, &[u8]), Unread> {
        if bytes.len() < 8 {
            return Err(Unread::Malformed);
        }
        let (front, rest) = bytes.split_at(8);
        let number = u64::from_le_bytes([
            front[0], front[1], front[2], front[3], front[4], front[5], front[6], front[7],
        ]);
        Ok((number, rest))
    }
}

impl<F> Spell<F> for i32 {
    ghost spelling = { i32_bytes };

    ghost fits = { FitsSigned w32 };

    ghost one = { i32_one };

    fn read(_alloc: Global, bytes: &[u8]) -> Result<(i32, &[u8]), Unread> {
        if bytes.len() < 4 {
            return Err(Unread::Malformed);
        }
        let (front, rest) = bytes.split_at(4);
        let number = i32::from_le_bytes([front[0], front[1], front[2], front[3]]);
        Ok((number, rest))
    }
}

impl<F> Spell<F> for i64 {
    ghost spelling = { i64_bytes };

    ghost fits = { FitsSigned w64 };

    ghost one = { i64_one };

    fn read(_alloc: Global, bytes: &[u8]) -> Result<(i64, &[u8]), Unread> {
        if bytes.len() < 8 {
            return Err(Unread::Malformed);
        }
        let (front, rest) = bytes.split_at(8);
        let number = i64::from_le_bytes([
            front[0], front[1], front[2], front[3], front[4], front[5], front[6], front[7],
        ]);
        Ok((number, rest))
    }
}
