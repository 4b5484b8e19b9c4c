//! Two neighbouring junctions of a way.
use road_base::WayId;

/// Two neighbouring junction positions of a way's line, the lower one first.
#[derive(Clone, Copy, Debug)]
pub struct Stretch {
    pub way: WayId,
    pub index: u32,
    pub end: u32,
}
