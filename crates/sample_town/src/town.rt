//! A town, and the lists of events that it gives.
ghost use Rattle.std.specs.Prelude.{◌≡◌, ◌<◌, ◌==◌, cond, IfOk, OnOk, OnErr};
ghost use Rattle.sample_town.specs.Draws.{iterate, after_draws};
ghost use Rattle.sample_town.specs.Lists.{Progress, base, change_from, after_event, next_list, after_list};

use crate::base::base_events;
use crate::changes::change_events;
use crate::draws::Draws;
use road_base::{Event, NoMemory};
use std::alloc::Global;
use std::marker::Model;

/// How many lists have events: the base and ten changes.
const LISTS: u32 = 11;

/// A town made from a number. Contracts see that number, and how many lists it gave, the empty ones not counted.
#[derive(Drop)]
pub struct Town {
    alloc: Global,
    number: u64,
    given: u32,
    draws: Draws,
}

impl Model for Town {
    ghost use Rattle.std.specs.Prelude.{◌≡◌, ◌≤◌};
    ghost use Rattle.sample_town.specs.Lists.{Progress, before_list};

    ghost Value = { Progress };

    ghost view = { λ t. record { number = t.number; given = t.given } };

    ghost invariant = { λ t. (t.given ≤ 11) × (t.draws.state ≡ before_list t.number t.given) };
}

impl Town {
    /// The town made from this number, before its first list. Takes no memory.
    #[tactic(auto, unfolding(crate::specs::Lists::before_list))]
    pub fn new(alloc: Global, n: u64) -> Town
        ensures { result ≡ record { number = n; given = 0 } }
    {
        Town {
            alloc,
            number: n,
            given: 0,
            draws: Draws { state: n },
        }
    }

    /// The first call gives the base, the next ten its changes in order, and each later call an empty list. A call that
    /// answers NoMemory changes nothing.
    pub fn events(&mut self) -> Result<Vec<Event>, NoMemory>
        ensures items { IfOk result (λ list. list.items ≡ next_list self.old) }
        ensures ok { OnOk result (self.new ≡ after_list self.old) }
        ensures err { OnErr result (self.new ≡ self.old) }
    {
        if self.given == LISTS {
            return Ok(Vec::new(self.alloc));
        }
        let mut draws = self.draws;
        let list = list_from(self.alloc, self.given, &mut draws)?;
        self.draws = draws;
        self.given += 1;
        Ok(list)
    }
}

/// The list that comes behind so many, from the generator as it stands there.
fn list_from(alloc: Global, given: u32, draws: &mut Draws) -> Result<Vec<Event>, NoMemory>
    requires { given < 11 }
    ensures items { IfOk result (λ list. list.items
        ≡ cond (given == 0) (base draws.old.state) (change_from given draws.old.state)) }
    ensures state { OnOk result (draws.new.state
        ≡ cond (given == 0) (after_draws 8880 draws.old.state) (iterate after_event 20 draws.old.state)) }
{
    match given {
        0 => base_events(alloc, draws),
        change => change_events(alloc, change, draws),
    }
}
