//! What a store holds, shown.
ghost use Rattle.std.specs.Prelude.{◌≡◌, ◌+◌, ◌≤◌, ℕ, List, length, Option, Some, IfOk};
ghost use Rattle.std.specs.FinMap.{empty};
ghost use Rattle.road_base.specs.Objects.{Objects};
ghost use Rattle.road_base.specs.Applying.{IsApplied};
ghost use Rattle.road_base.specs.Profiles.{IsProfile};
ghost use Rattle.road_model.specs.Highways.{highways};
ghost use Rattle.moment_rules.specs.AtMoment.{rules_at};
ghost use Rattle.compiled_graph.specs.Compiled.{IsGraphOf};
ghost use Rattle.osmroad.specs.Shown.{rules_shown};
ghost use Rattle.osmroad.specs.declared.command.Command.TheVariants.{Graph as GraphCommand, Audit as AuditCommand};
ghost use Rattle.osmroad.specs.Run.{Builds};
ghost use Rattle.osmroad.specs.Replies.{Prepares, CountsCalls};

use crate::audit::audit_text;
use crate::laws::store_laws;
use crate::store_refusals::refuse_store;
use back_references::Indexed;
use compiled_graph::{graph_of, profile_of};
use last_words::{Failure, LastWords, Status};
use moment_rules::{AtMoment, Moment};
use road_base::{Event, NoMemory, Steps};
use road_io::Site;
use road_model::Network;
use std::alloc::Global;
use std::mem::forget;
use std::sync::ledger::Ledger;
use store_switch::load_store;

/// The graph of what the store holds, of its profile; at a moment, under the access keys that hold then.
pub fn stored_graph<W: Site, L: Ledger>(
    alloc: Global,
    at: Option<Moment>,
    site: &mut W,
    steps: &mut Steps<L>,
) -> Result<LastWords, Failure>
    ensures prepares { (held : Option (List ℕ)) → Prepares (Some (GraphCommand at)) result held held
        (W.outside site.old) (W.outside site.new) }
    ensures calls { CountsCalls (W.faults site.old) (W.faults site.new) result }
    ensures built { (held : Option (List ℕ))
        → Builds (Some (GraphCommand at)) held (W.outside site.old) steps.old steps.new }
{
    store_laws();
    let loaded = match load_store(alloc, site) {
        Ok(loaded) => loaded,
        Err(error) => return refuse_store(alloc, error),
    };
    let out = graph_shown(alloc, at, loaded.journal.profile(), loaded.events, steps)?;
    Ok(LastWords {
        status: Status::Done,
        out,
    })
}

/// The graph of what the events leave, of the profile of this number; at a moment, under the access keys that hold
/// then.
fn graph_shown<L: Ledger>(
    alloc: Global,
    at: Option<Moment>,
    profile: u32,
    events: Vec<Event>,
    steps: &mut Steps<L>,
) -> Result<Vec<u8>, NoMemory>
    requires { IsProfile profile }
    ensures graph { IfOk result (λ out. IsGraphOf (rules_shown at profile) events.items out.items) }
    ensures built { (objects : Objects)
        → IsApplied empty events.items objects
        → steps.new ≤ steps.old + length (highways objects) }
{
    match at {
        None => graph_of(alloc, profile_of(profile), events, steps),
        Some(at) => graph_at(alloc, at, profile, events, steps),
    }
}

/// The graph of what the events leave at the moment.
fn graph_at<L: Ledger>(
    alloc: Global,
    at: Moment,
    profile: u32,
    events: Vec<Event>,
    steps: &mut Steps<L>,
) -> Result<Vec<u8>, NoMemory>
    requires { IsProfile profile }
    ensures graph { IfOk result (λ out. IsGraphOf (rules_at profile at) events.items out.items) }
    ensures built { (objects : Objects)
        → IsApplied empty events.items objects
        → steps.new ≤ steps.old + length (highways objects) }
{
    graph_of(alloc, AtMoment::new(profile, at), events, steps)
}

/// The audit of what the store holds, for its profile.
pub fn stored_audit<W: Site>(alloc: Global, site: &mut W) -> Result<LastWords, Failure>
    ensures prepares { (held : Option (List ℕ)) → Prepares (Some AuditCommand) result held held
        (W.outside site.old) (W.outside site.new) }
    ensures calls { CountsCalls (W.faults site.old) (W.faults site.new) result }
{
    store_laws();
    let loaded = match load_store(alloc, site) {
        Ok(loaded) => loaded,
        Err(error) => return refuse_store(alloc, error),
    };
    let profile = profile_of(loaded.journal.profile());
    let world = Indexed::of(alloc, loaded.events)?;
    let network = Network::new(&world, profile);
    let text = audit_text(alloc, &network)?;
    forget(world);
    Ok(LastWords::new(Status::Done, text))
}
