//! Laws, the contracts of functions that do nothing: what a run gives, and what commands go by that load a store.
ghost use Rattle.std.specs.Prelude.{◌≡◌, List, Option, None, Some, ℕ};
ghost use Rattle.road_base.specs.History.{History};
ghost use Rattle.osmroad.specs.declared.command.Command.{Command};
ghost use Rattle.last_words.specs.declared.status.Status.{Status};
ghost use Rattle.osmroad.specs.Opening.{Files};
ghost use Rattle.osmroad.specs.Outcomes.{Gives};
ghost use Rattle.osmroad.specs.Run.{IsStored};
ghost use Rattle.osmroad.specs.StoreLaws.{StoreLaws, ChangeLaws, CheckpointLaws};

use crate::profiles::{FIRST_PROFILE, RAISED_PROFILE};
use compiled_graph::profile_of;
use opl_lexer::laws::one_reading;
use road_base::laws::one_map;
use road_model::laws::{number_order, one_graph};
use sequence_journal::laws::one_damage;
use store_switch::laws::{
    change_on_store, checkpoint_for_reader, checkpoint_on_store, journal_on_store,
    no_damage_in_store, one_live, one_store, still_there,
};

/// A command, the bytes of both files and those of the source determine the status, the output, and the history for
/// which the files then stand, of a run in which nothing fails. Without a store no file is looked at.
pub fn one_answer()
    ensures stored { (command : Option Command) (files : Files) (bytes out other : List ℕ) (status another : Status)
        (after next : Option History)
        → Gives command (Some files) bytes status out after
        → Gives command (Some files) bytes another other next
        → (status ≡ another) × (out ≡ other) × (after ≡ next) }
    ensures alone { (command : Option Command) (bytes out other : List ℕ) (status another : Status)
        (after next : Option History)
        → (IsStored command → ⊥)
        → Gives command None bytes status out after
        → Gives command None bytes another other next
        → (status ≡ another) × (out ≡ other) × (after ≡ next) }
{
    one_reading();
    one_map();
    one_graph(&profile_of(FIRST_PROFILE));
    one_graph(&profile_of(RAISED_PROFILE));
    number_order();
    one_damage();
    store_laws();
}

/// What two files stand for, what a stop leaves of them, a journal that stands on them, a change that is added, and a
/// checkpoint.
pub fn store_laws()
    ensures store { StoreLaws }
    ensures change { ChangeLaws }
    ensures checkpoint { CheckpointLaws }
{
    checkpoint_on_store();
    checkpoint_for_reader();
    one_store();
    one_live();
    no_damage_in_store();
    still_there();
    journal_on_store();
    change_on_store();
}
