//! The one top call: what the program does for its words, over any source and site.
ghost use Rattle.std.specs.Prelude.{◌≡◌, ◌⊎◌, ◌<◌, List, ℕ, map, Some};
ghost use Rattle.road_io.specs.Told.{Told, Rose};
ghost use Rattle.road_io.specs.Outside.{LeavesOnly, image_of};
ghost use Rattle.store_switch.specs.LiveFile.{BothDurable, reads_of};
ghost use Rattle.store_switch.specs.TwoFiles.{AreIntact};
ghost use Rattle.osmroad.specs.Commands.{asked, HasProfile};
ghost use Rattle.osmroad.specs.Run.{IsReading, IsStored, MayEnd, Ends, CanBeDone, Builds, files_of};
ghost use Rattle.osmroad.specs.Requests.{RunEnds, RunMayEnd, RunIsStored, RunCanBeDone, RunBuilds};
ghost use Rattle.osmroad.specs.Replies.{Prepares, CountsReads, CountsCalls};

use crate::apply::apply;
use crate::checkpoint::checkpoint;
use crate::command::{Command, Request, request_of};
use crate::compile::compile;
use crate::create::create;
use crate::inspect::inspect;
use crate::laws::store_laws;
use crate::sample::sample;
use crate::serve::serve_store;
use crate::stored::{stored_audit, stored_graph};
use last_words::{Failure, LastWords, Status, put_last};
use opl_lexer::laws::one_reading;
use road_base::Steps;
use road_io::{Site, Source};
use std::alloc::Global;
use std::sync::ledger::Ledger;
use store_switch::laws::one_live;

/// The last line where the words aren't known.
const USAGE: &[u8] =
    b"usage: osmroad STORE create N|apply N|session|graph [MOMENT]|audit|checkpoint|raise, or osmroad - \
    compile|compile 2|inspect|sample N\n";

// What the command puts, before it is put.
fn prepare<S: Source, W: Site, L: Ledger>(
    alloc: Global,
    command: Command,
    source: &mut S,
    site: &mut W,
    steps: &mut Steps<L>,
) -> Result<LastWords, Failure>
    requires { HasProfile command }
    ensures prepares { Prepares (Some command) result (S.bytes_left source.old) (S.bytes_left source.new)
        (W.outside site.old) (W.outside site.new) }
    ensures reads { CountsReads (S.faults source.old) (S.faults source.new) result }
    ensures calls { CountsCalls (W.faults site.old) (W.faults site.new) result }
    ensures untouched { (IsStored (Some command) → ⊥) → site.new ≡ site.old }
    ensures unread { (IsReading (Some command) → ⊥) → source.new ≡ source.old }
    ensures built { Builds (Some command) (S.bytes_left source.old) (W.outside site.old) steps.old steps.new }
{
    match command {
        Command::Compile(profile) => compile(alloc, profile, source, steps),
        Command::Inspect => inspect(alloc, source),
        Command::Sample(number) => sample(alloc, number, steps),
        Command::Create(number) => create(alloc, number, source, site),
        Command::Apply(number) => apply(alloc, number, source, site),
        Command::Graph(at) => stored_graph(alloc, at, site, steps),
        Command::Audit => stored_audit(alloc, site),
        Command::Checkpoint(base) => checkpoint(alloc, base, site),
    }
}

// Does what the command says. Its clauses are those of `run`.
fn run_command<S: Source, W: Site, L: Ledger>(
    alloc: Global,
    command: Command,
    source: &mut S,
    site: &mut W,
    steps: &mut Steps<L>,
) -> Status
    requires { HasProfile command }
    ensures ends { Ends (Some command) result (S.bytes_left source.old) (S.bytes_left source.new)
        (W.outside site.old) (W.outside site.new) }
    ensures named { MayEnd (Some command) result }
    ensures untouched { (IsStored (Some command) → ⊥)
        → Told (λ before now. (now.a ≡ before.a) × (now.b ≡ before.b)) (W.outside site.old) (W.outside site.new) }
    ensures read_fault { result ≡ Status.ReadFault → Rose (S.faults source.old) (S.faults source.new) }
    ensures site_fault { result ≡ Status.SiteFault → Rose (W.faults site.old) (W.faults site.new) }
    ensures each_read_fault { S.faults source.old < S.faults source.new → result ≡ Status.ReadFault }
    ensures each_site_fault { W.faults site.old < W.faults site.new → result ≡ Status.SiteFault }
    ensures complete { (bytes : List ℕ) → S.bytes_left source.old ≡ Some bytes
        → CanBeDone (Some command) (files_of (W.outside site.old)) bytes
        → (Rose (S.faults source.old) (S.faults source.new) → ⊥)
        → (Rose (W.faults site.old) (W.faults site.new) → ⊥)
        → (result ≡ Status.Done) ⊎ (result ≡ Status.NoMemory) }
    ensures built { Builds (Some command) (S.bytes_left source.old) (W.outside site.old) steps.old steps.new }
{
    one_reading();
    one_live();
    match prepare(alloc, command, source, site, steps) {
        Ok(reply) => put_last(site, &reply.out, reply.status),
        Err(failure) => failure.status(),
    }
}

/// Does what the words ask, reading from the source and putting to the site, and answers how it ended. It returns for
/// any words, source and site: a source that never ends is left as soon as it passed a limit, 2^30 bytes in all or 2^24
/// in a line. The first read or call on the site that fails ends it: nothing is tried again.
///
/// `- compile` puts the graph's bytes of the extract on the source, under profile 1, and `- compile 2` under profile 2;
/// `- inspect` how large the graph is whose file is on the source, of at most 2^30 bytes, and `- sample N` how large
/// the graphs are of a town that is made from N, and of its ten changes, under profile 1. A STORE is the site's two
/// files: `create N` makes one of the extract, of profile 1, `apply N` adds the change on the source, `graph` puts the
/// graph's bytes of all that it holds, `graph MOMENT` those under the access keys that hold at that moment of civil
/// time, `audit` what becomes of its restrictions, `checkpoint` writes all that it holds into its other file and goes
/// on there, `raise` does so under profile 2, and `session` answers the messages on the source in turn. `steps` rises
/// by one for each block that is built; for a command that is one for each visible way with the key `highway`. Other
/// words are answered by the usage line.
pub fn run<S: Source, W: Site, L: Ledger>(
    alloc: Global,
    words: &[&str],
    source: &mut S,
    site: &mut W,
    steps: &mut Steps<L>,
) -> Status
    // What is read and put, by the status, for what the files then stand, and what a stop at any moment leaves of the
    // files and the output.
    ensures ends { RunEnds (asked (map (λ w. w.now) words.now)) result (S.bytes_left source.old)
        (S.bytes_left source.new) (W.outside site.old) (W.outside site.new) }

    // A request has its own statuses, whatever source and site.
    ensures named { RunMayEnd (asked (map (λ w. w.now) words.now)) result }

    // Without a store no file is touched.
    ensures untouched { (RunIsStored (asked (map (λ w. w.now) words.now)) → ⊥)
        → Told (λ before now. (now.a ≡ before.a) × (now.b ≡ before.b)) (W.outside site.old) (W.outside site.new) }

    // A fault is answered only where it came, and where one came it is answered.
    ensures read_fault { result ≡ Status.ReadFault → Rose (S.faults source.old) (S.faults source.new) }
    ensures site_fault { result ≡ Status.SiteFault → Rose (W.faults site.old) (W.faults site.new) }
    ensures each_read_fault { S.faults source.old < S.faults source.new → result ≡ Status.ReadFault }
    ensures each_site_fault { W.faults site.old < W.faults site.new → result ≡ Status.SiteFault }

    // Where the words, the bytes, the files and the outside are good, it is done, or memory ended.
    ensures complete { (bytes : List ℕ) → S.bytes_left source.old ≡ Some bytes
        → RunCanBeDone (asked (map (λ w. w.now) words.now)) (files_of (W.outside site.old)) bytes
        → (Rose (S.faults source.old) (S.faults source.new) → ⊥)
        → (Rose (W.faults site.old) (W.faults site.new) → ⊥)
        → (result ≡ Status.Done) ⊎ (result ≡ Status.NoMemory) }

    // Where nothing is pending on files that stand for a history, or that hold no store, a stop at any moment leaves
    // such files: a store that these runs made is never damaged, after any list of stops. Loading such files never
    // answers Damaged, by the law `no_damage_in_store` of `store_switch`.
    ensures intact { Told (λ w v. BothDurable w → AreIntact (reads_of w)
        → LeavesOnly w v (λ left. AreIntact (image_of left))) (W.outside site.old) (W.outside site.new) }

    // No more blocks are built than the graph's objects have visible ways with the key `highway`; in a session, for
    // each accepted frame no more than the ways that it touches.
    ensures built { RunBuilds (asked (map (λ w. w.now) words.now)) result (S.bytes_left source.old)
        (S.bytes_left source.new) (W.outside site.old) steps.old steps.new }
{
    store_laws();
    match request_of(words) {
        Some(Request::Session) => serve_store(alloc, source, site, steps),
        Some(Request::Command(command)) => run_command(alloc, command, source, site, steps),
        None => put_last(site, USAGE, Status::Usage),
    }
}
