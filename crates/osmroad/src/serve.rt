//! A session over the store on the site.
ghost use Rattle.std.specs.Prelude.{◌≡◌, ◌≢◌, ◌⊎◌, ℕ, [], Option, Err, false, IfSome};
ghost use Rattle.road_base.specs.Profiles.{IsProfile};
ghost use Rattle.road_io.specs.Told.{Told};
ghost use Rattle.road_io.specs.Outside.{Outside};
ghost use Rattle.sequence_journal.specs.declared.load.Loaded.{Loaded as LoadedStore};
ghost use Rattle.sequence_journal.specs.Journal.{CountsFaults};
ghost use Rattle.store_switch.specs.StoreLoading.{IsLoadError, LoadsStore};
ghost use Rattle.session.specs.Conversing.{IsReadyAt};
ghost use Rattle.session_replies.specs.Replies.{road_replies};
ghost use Rattle.osmroad.specs.Sessions.{end_status, IsServed, IsNotServed, IsOpening, AnswersFaults};
ghost use Rattle.osmroad.specs.Sessions.{Serves, ServesBuilding, SessionRuns, EndsSession, SessionRunBuilds};

use crate::laws::store_laws;
use crate::store_refusals::refuse_store;
use change_apply::Engine;
use compiled_graph::profile_of;
use last_words::{Status, put_last};
use road_base::Steps;
use road_io::{Site, Source};
use road_model::Profile;
use sequence_journal::{JournalError, Loaded};
use session::laws::nothing_read;
use session::{End, converse};
use session_replies::RoadAnswerer;
use std::alloc::Global;
use std::sync::ledger::Ledger;
use store_switch::load_store;

fn status_of(end: End) -> Status
    ensures { result ≡ end_status end }
{
    match end {
        End::Done => Status::Done,
        End::Unfinished => Status::Refused,
        End::ReadFault => Status::ReadFault,
        End::SiteFault => Status::SiteFault,
        End::Limit => Status::Limit,
        End::NoMemory => Status::NoMemory,
    }
}

/// Answers the messages on the source until it ends, over the store that was loaded and for its profile, and keeps each
/// accepted change in it. Answers Done where all of them are answered, Refused where the source ends inside a frame,
/// ReadFault and SiteFault where a read or a call on the site failed, Limit where a limit is passed, and NoMemory.
/// Where no memory is found for the objects and their blocks, nothing is read.
pub fn serve<P: Profile, S: Source, W: Site, L: Ledger>(
    alloc: Global,
    profile: P,
    loaded: Loaded,
    source: &mut S,
    site: &mut W,
    steps: &mut Steps<L>,
) -> Status
    requires stored { (P.rules profile).number ≡ loaded.journal.profile }
    requires known { IsProfile (P.rules profile).number }
    requires not_closed { loaded.journal.closed ≡ false }
    requires opens { IfSome (W.outside site.old) (IsReadyAt (IsOpening loaded)) }
    ensures serves { Serves (road_replies (P.rules profile)) loaded result (S.bytes_left source.old)
        (S.bytes_left source.new) (W.outside site.old) (W.outside site.new) }
    ensures builds { ServesBuilding loaded (result ≢ Status.ReadFault) (S.bytes_left source.old)
        (S.bytes_left source.new) (W.outside site.old) steps.old steps.new }
    ensures reads { AnswersFaults Status.ReadFault result (S.faults source.old) (S.faults source.new) }
    ensures calls { AnswersFaults Status.SiteFault result (W.faults site.old) (W.faults site.new) }
    ensures named { IsServed result }
{
    nothing_read::<RoadAnswerer<P>>();
    let Loaded { journal, events } = loaded;
    let Ok(engine) = Engine::load(alloc, profile, events, steps) else {
        return Status::NoMemory;
    };
    let Ok(answerer) = RoadAnswerer::new(alloc, journal.kept(), engine) else {
        return Status::NoMemory;
    };
    status_of(converse(alloc, answerer, journal, source, site, steps))
}

/// Says why the store isn't loaded.
fn refuse<W: Site>(alloc: Global, site: &mut W, error: JournalError) -> Status
    requires named { IsLoadError error }
    ensures runs { (x : Option Outside) → Told (LoadsStore (Err error)) x (W.outside site.old)
        → Told (SessionRuns [] false result) x (W.outside site.new) }
    ensures calls { (before : ℕ) → CountsFaults {T = LoadedStore} before (W.faults site.old) (Err error)
        → AnswersFaults Status.SiteFault result before (W.faults site.new) }
    ensures named { IsNotServed result }
{
    store_laws();
    match refuse_store(alloc, error) {
        Ok(reply) => put_last(site, &reply.out, reply.status),
        Err(failure) => failure.status(),
    }
}

/// Loads the store, and answers the messages on the source over it, for its profile.
pub fn serve_store<S: Source, W: Site, L: Ledger>(
    alloc: Global,
    source: &mut S,
    site: &mut W,
    steps: &mut Steps<L>,
) -> Status
    ensures ends { EndsSession result (S.bytes_left source.old) (S.bytes_left source.new)
        (W.outside site.old) (W.outside site.new) }
    ensures built { SessionRunBuilds result (S.bytes_left source.old) (S.bytes_left source.new) (W.outside site.old)
        steps.old steps.new }
    ensures reads { AnswersFaults Status.ReadFault result (S.faults source.old) (S.faults source.new) }
    ensures calls { AnswersFaults Status.SiteFault result (W.faults site.old) (W.faults site.new) }
    ensures named { IsServed result ⊎ IsNotServed result }
{
    store_laws();
    match load_store(alloc, site) {
        Ok(loaded) => {
            let profile = profile_of(loaded.journal.profile());
            serve(alloc, profile, loaded, source, site, steps)
        }
        Err(error) => refuse(alloc, site, error),
    }
}
