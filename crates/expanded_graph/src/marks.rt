//! Whether the pieces of a way are marked.
ghost use Rattle.std.specs.Prelude.{◌≡◌};
ghost use Rattle.road_model.specs.Networks.{on};
ghost use Rattle.expanded_graph.specs.Marks.{AreMarks, mark_in};

use road_base::{Dir, WayId};
use road_model::{Network, Profile, World};

/// Whether the pieces of a way are marked as those of a zone, in each direction.
#[derive(Clone, Copy, Debug)]
pub struct ZoneMarks {
    pub forward: bool,
    pub backward: bool,
}

impl ZoneMarks {
    /// What the profile says of the way's tags. A way that isn't visible has no mark.
    #[tactic(auto, unfolding(road_model::specs::Driving::is_marked))]
    pub fn of<M: World, P: Profile>(network: &Network<'_, M, P>, way: WayId) -> ZoneMarks
        ensures { on network.now AreMarks way result }
    {
        let Some(body) = network.world.way(way) else {
            return ZoneMarks {
                forward: false,
                backward: false,
            };
        };
        ZoneMarks {
            forward: network.profile.zone(&body.tags, Dir::Forward),
            backward: network.profile.zone(&body.tags, Dir::Backward),
        }
    }

    /// The mark in the direction.
    pub fn toward(self, dir: Dir) -> bool
        ensures { result ≡ mark_in self dir }
    {
        match dir {
            Dir::Forward => self.forward,
            Dir::Backward => self.backward,
        }
    }
}
