//! All that a store holds, as the base of its other file.
ghost use Rattle.std.specs.Prelude.{◌≡◌, ◌≤◌, ℕ, List, Option, Some, IfOk, string_bytes};
ghost use Rattle.road_base.specs.Profiles.{IsProfile};
ghost use Rattle.osmroad.specs.declared.command.Command.TheVariants.{Checkpoint as CheckpointCommand};
ghost use Rattle.osmroad.specs.Checkpoints.{profile_of_base, base_line};
ghost use Rattle.osmroad.specs.Replies.{Prepares, CountsCalls};

use crate::command::BaseProfile;
use crate::laws::store_laws;
use crate::profiles::RAISED_PROFILE;
use crate::store_refusals::refuse_store;
use crate::texts::{checkpoint_text, raise_text};
use last_words::{Failure, LastWords, Status};
use object_store::Base;
use road_base::Sequence;
use road_io::Site;
use sequence_journal::Loaded;
use std::alloc::{AllocError, Global};
use store_switch::load_store;

/// Writes what the store holds into its other file, as a base under the kept number and this profile, and goes on
/// there.
pub fn checkpoint<W: Site>(
    alloc: Global,
    base: BaseProfile,
    site: &mut W,
) -> Result<LastWords, Failure>
    ensures prepares { (held : Option (List ℕ)) → Prepares (Some (CheckpointCommand base)) result held held
        (W.outside site.old) (W.outside site.new) }
    ensures calls { CountsCalls (W.faults site.old) (W.faults site.new) result }
{
    store_laws();
    let Loaded {
        mut journal,
        events,
    } = match load_store(alloc, site) {
        Ok(loaded) => loaded,
        Err(error) => return refuse_store(alloc, error),
    };
    let objects = Base::of(events)?;
    let line = base_text(alloc, base, journal.kept())?;
    let profile = profile_of_base(base, journal.profile());
    match store_switch::checkpoint(alloc, site, &mut journal, profile, objects.items()) {
        Ok(()) => Ok(LastWords::new(Status::Done, line)),
        Err(error) => refuse_store(alloc, error),
    }
}

/// The profile of the base, for a store of this one.
fn profile_of_base(base: BaseProfile, profile: u32) -> u32
    requires { IsProfile profile }
    ensures is { result ≡ profile_of_base base profile }
    ensures known { IsProfile result }
    ensures not_lower { profile ≤ result }
{
    match base {
        BaseProfile::Kept => profile,
        BaseProfile::Raised => RAISED_PROFILE,
    }
}

/// The line that tells of the base.
fn base_text(alloc: Global, base: BaseProfile, number: Sequence) -> Result<String, AllocError>
    ensures { IfOk result (λ text. string_bytes text ≡ base_line base number.0) }
{
    match base {
        BaseProfile::Kept => checkpoint_text(alloc, number),
        BaseProfile::Raised => raise_text(alloc, number),
    }
}
