//! Ways near which an automaton watches for words.
ghost use Rattle.std.specs.Prelude.{◌≡◌, ◌<◌, IfOk, IsTrue, Contains};
ghost use Rattle.road_base.specs.Objects.{Objects};
ghost use Rattle.road_model.specs.Rules.{Rules};
ghost use Rattle.road_model.specs.Pieces.{IsPiece};
ghost use Rattle.road_model.specs.Networks.{on};
ghost use Rattle.way_pieces.specs.Names.{piece_of};
ghost use Rattle.way_pieces.specs.RoadPieces.{AreRoadPieces};
ghost use Rattle.expanded_graph.specs.Watched.{AreWatched, IsPlainPiece};

use crate::endings::{Ending, endings_of, endings_with};
use crate::last_steps::last_step;
use crate::states::States;
use ordered_lists::Ranges;
use road_base::{NoMemory, WayId};
use road_model::laws::{context_steps, drive_grows, one_name};
use road_model::{Network, Profile, World};
use std::alloc::Global;
use turn_automata::State;
use way_pieces::{PieceSpan, RoadPieces};

/// Ways, the automaton of the words near them with its states, and the states in which contexts may end there.
#[derive(Drop)]
pub struct WatchedWays {
    pub ways: Vec<WayId>,
    pub ranges: Ranges,
    pub states: States,
    pub endings: Vec<Ending>,
}

impl WatchedWays {
    /// These ways. The pieces that states' last steps end are looked for among the given ones.
    pub fn of<M: World, P: Profile>(
        alloc: Global,
        network: &Network<'_, M, P>,
        pieces: &RoadPieces,
        ways: Vec<WayId>,
    ) -> Result<WatchedWays, NoMemory>
        requires { on network.now AreRoadPieces pieces.now }
        ensures are { IfOk result (on network.now AreWatched) }
        ensures ways { IfOk result (λ t. t.ways ≡ ways) }
    {
        let states = States::of(alloc, network, pieces, ways.as_slice())?;
        let endings = endings_of(alloc, &states)?;
        let ranges = Ranges::of(alloc, ways.as_slice());
        Ok(WatchedWays {
            ways,
            ranges,
            states,
            endings,
        })
    }

    /// Whether the way is found among these. Where it is false it may still be one of them.
    pub fn have(&self, way: WayId) -> bool
        ensures { IsTrue result → Contains self.now.ways.items way }
    {
        match self.ranges.find(self.ways.as_slice(), way.0) {
            Some(at) => self.ways[at] == way,
            None => false,
        }
    }

    /// Whether no word begins with the last step of the piece, and no context of two pieces or more ends with it: then
    /// it is as if nothing was watched for before what follows it. Where it is false that may still be so.
    pub fn is_plain<M: World, P: Profile>(
        &self,
        network: &Network<'_, M, P>,
        span: PieceSpan,
    ) -> bool
        requires watched { on network.now AreWatched self.now }
        requires piece { on network.now IsPiece (piece_of span) }
        ensures { IsTrue result → on network.now IsPlainPiece self.now.states.automaton self.now.states.facts.items
            (piece_of span) }
    {
        one_name(&network.profile);
        context_steps(&network.profile);
        drive_grows(&network.profile);
        self.states.automaton.closed();
        if !self.have(span.name.way) {
            return false;
        }
        let alone = self.states.automaton.start(last_step(span));
        if !is_first(alone) {
            return false;
        }
        let here = endings_with(self.endings.as_slice(), span.name);
        here.is_empty()
    }
}

/// Whether it is the first state, which stands for no steps.
fn is_first(state: State) -> bool
    ensures { IsTrue result → state.0 ≡ 0 }
{
    state.0 == 0
}
