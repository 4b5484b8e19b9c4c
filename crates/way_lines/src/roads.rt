//! The directions in which ways are open, asked once for each.
ghost use Rattle.std.specs.Prelude.{◌≡◌, ◌||◌, [], map, IfOk, IfSome, slice_get, Some};
ghost use Rattle.road_model.specs.Rules.{is_free};
ghost use Rattle.way_lines.specs.declared.roads.Road.{Road};
ghost use Rattle.road_model.specs.Networks.{on};
ghost use Rattle.way_lines.specs.RoadLines.{IsRoad, AreRoads};

use ordered_lists::{Numbered, Ranges};
use road_base::{Dir, NoMemory, WayId};
use road_model::{Access, Network, Profile, World};
use std::alloc::Global;

/// A way, and the directions in which it is open. It is a road where one of them is.
#[derive(Clone, Copy, Debug)]
pub struct Road {
    pub way: WayId,
    pub forward: bool,
    pub backward: bool,
}

impl Numbered for Road {
    fn number(&self) -> i64 {
        self.way.0
    }
}

impl Road {
    /// The directions in which the way is open; none where it isn't visible.
    #[tactic(auto, unfolding(road_model::specs::Driving::is_open))]
    pub fn of<M: World, P: Profile>(network: &Network<'_, M, P>, way: WayId) -> Road
        ensures way { result.way ≡ way }
        ensures directions { on network.now IsRoad result }
    {
        let Some(body) = network.world.way(way) else {
            return Road {
                way,
                forward: false,
                backward: false,
            };
        };
        Road {
            way,
            forward: is_free(network.profile.direction(&body.tags, Dir::Forward)),
            backward: is_free(network.profile.direction(&body.tags, Dir::Backward)),
        }
    }

    /// Whether the way is open in some direction.
    pub fn is_open(self) -> bool
        ensures { result ≡ (self.forward || self.backward) }
    {
        self.forward || self.backward
    }
}

/// The directions of ways that were asked once. Where the ways ascend, one of them is found in the time of a short
/// search; of any other way the world is asked anew.
#[derive(Drop)]
pub struct Roads {
    roads: Vec<Road>,
    ranges: Ranges,
}

impl Roads {
    /// Of no ways. Takes no memory.
    pub fn new(alloc: Global) -> Roads
        ensures { result.roads.items ≡ [] }
    {
        Roads {
            roads: Vec::new(alloc),
            ranges: Ranges::new(alloc),
        }
    }

    /// Of these ways, in their order.
    pub fn of<M: World, P: Profile>(
        alloc: Global,
        network: &Network<'_, M, P>,
        ways: &[WayId],
    ) -> Result<Roads, NoMemory>
        ensures are { IfOk result (on network.now AreRoads) }
        ensures ways { IfOk result (λ r. map (λ x. x.way) r.roads.items ≡ ways.now) }
    {
        let mut roads = Vec::with_capacity(alloc, ways.len())?;
        for way in ways {
            roads.push(Road::of(network, *way))?;
        }
        Ok(Roads::from_list(alloc, roads))
    }

    /// These, in their order. Nothing is asked.
    pub fn from_list(alloc: Global, roads: Vec<Road>) -> Roads
        ensures { result.roads.items ≡ roads.items }
    {
        let ranges = Ranges::of(alloc, roads.as_slice());
        Roads { roads, ranges }
    }

    /// All of them, in the order of the ways that were asked.
    pub fn items(&self) -> &[Road]
        ensures { result.now ≡ self.now.roads.items }
    {
        self.roads.as_slice()
    }

    /// Where the way stands among them, if it is found there.
    pub fn position_of(&self, way: WayId) -> Option<usize>
        ensures { IfSome result (λ at. (road : Road)
            × (slice_get self.now.roads.items at ≡ Some road)
            × (road.way ≡ way)) }
    {
        let at = self.ranges.find(self.roads.as_slice(), way.0)?;
        if self.roads[at].way == way {
            Some(at)
        } else {
            None
        }
    }

    /// The directions of the way.
    pub fn road<M: World, P: Profile>(&self, network: &Network<'_, M, P>, way: WayId) -> Road
        requires { on network.now AreRoads self.now }
        ensures way { result.way ≡ way }
        ensures directions { on network.now IsRoad result }
    {
        match self.position_of(way) {
            Some(at) => self.roads[at],
            None => Road::of(network, way),
        }
    }
}

/// Whether one may drive there.
pub fn is_free(access: Access) -> bool
    ensures { result ≡ is_free access }
{
    matches!(access, Access::Free)
}
