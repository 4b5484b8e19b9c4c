//! Where a piece lies on its way's line.
ghost use Rattle.graph_file.specs.GraphReading.{extent_bytes, IsExtent};
ghost use Rattle.graph_file.specs.OneSpelling.{extent_one};

use crate::grammar::{Grammar, GraphFile};
use road_base::Dir;
use spelled_bytes::{Spell, Unread};
use std::alloc::Global;

/// The lower and the upper position of a piece on its way's line, and its direction and its mark.
#[derive(Clone, Copy)]
pub struct Extent {
    pub index: u32,
    pub end: u32,
    pub dir: Dir,
    pub zone: bool,
}

/// The two positions, the direction and the mark, one behind the other.
type Parts = (u32, (u32, (Dir, bool)));

/// The highest position on a line.
const LAST: u32 = 65_534;

impl<G: Grammar> Spell<GraphFile<G>> for Extent {
    ghost spelling = { extent_bytes G.sourced };

    ghost fits = { IsExtent G.sourced };

    ghost one = { extent_one G.sourced };

    fn read(alloc: Global, bytes: &[u8]) -> Result<(Extent, &[u8]), Unread> {
        let ((index, (end, (dir, zone))), rest) = <Parts as Spell<GraphFile<G>>>::read(
            alloc, bytes,
        )?;
        if end <= index || LAST < end {
            return Err(Unread::Malformed);
        }
        let extent = Extent {
            index,
            end,
            dir,
            zone,
        };
        Ok((extent, rest))
    }
}
