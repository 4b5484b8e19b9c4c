//! The replies to lines.
ghost use Rattle.std.specs.Prelude.{◌≡◌, ◌≢◌, [], Some, IfOk};
ghost use Rattle.context_search.specs.Reaching.{IsFound};
ghost use Rattle.road_base.specs.Profiles.{IsProfile};
ghost use Rattle.drive_queries.specs.Messages.{AsksSteps};
ghost use Rattle.session_answers.specs.Said.{said};
ghost use Rattle.moment_rules.specs.AtMoment.{rules_at};
ghost use Rattle.session_replies.specs.FurtherMessages.{further_message, HasSteps};
ghost use Rattle.session_replies.specs.Replies.{IsReply, IsFurtherReply, IsDriveReply, IsGraphReply, IsStateReply};
ghost use Rattle.session_replies.specs.Replies.{IsLineReply, IsRouteReply, IsCertifyReply};
ghost use Rattle.session_replies.specs.Replies.{IsZoneDriveReply, IsZoneReachReply};
ghost use Rattle.session_replies.specs.Texts.{unknown_line, found_line};

use crate::cost_texts::{cheapest_reply, shortest_reply};
use crate::further_messages::{FurtherMessage, further_message};
use crate::texts::{found_reply, graph_head, line_alone, state, unknown, verdict_reply};
use crate::zone_verdicts::{judge_zones, zone_verdict_reply};
use back_references::Indexed;
use change_apply::Engine;
use destination_drives::zone_reach;
use drive_queries::{Asked, WordTable, counts, judge, message, reach};
use graph_file::laws::walked_file;
use graph_file::{VERSION, write};
use least_cost::{least, shortest};
use moment_rules::{AtMoment, Moment};
use road_base::{NoMemory, NodeId, Sequence, Step};
use road_model::Profile;
use road_model::laws::walk_law;
use session_answers::Reply;
use std::alloc::Global;
use zone_files::laws::zone_file;

/// The reply to a line that asks of the newest state.
pub fn newest_reply<P: Profile>(
    alloc: Global,
    engine: &Engine<P>,
    kept: Sequence,
    line: &str,
) -> Result<Reply, NoMemory>
    requires { IsProfile (P.rules engine.now.profile).number }
    ensures { IfOk result (λ r.
        IsLineReply engine.now.world (P.rules engine.now.profile) kept.0 (Some line.now) (said r)) }
{
    let asked = message(alloc, line)?;
    reply_to(alloc, engine, kept, &asked, line)
}

/// The reply to a message. The kept number is that of the last change. What isn't known is looked for in the line.
fn reply_to<P: Profile>(
    alloc: Global,
    engine: &Engine<P>,
    kept: Sequence,
    asked: &Asked,
    line: &str,
) -> Result<Reply, NoMemory>
    requires number { IsProfile (P.rules engine.now.profile).number }
    requires drives { AsksSteps asked.now }
    ensures { IfOk result (λ r.
        IsReply engine.now.world (P.rules engine.now.profile) kept.0 asked.now (further_message line.now) (said r)) }
{
    match asked {
        Asked::Empty => Ok(line_alone(alloc, Vec::new(alloc))),
        Asked::Graph => graph_reply(alloc, engine),
        Asked::State => state_reply(alloc, engine, kept),
        Asked::Drive(drive) => drive_reply(alloc, engine, drive.items()),
        Asked::Reach(a, b) => reach_reply(alloc, engine, *a, *b),
        Asked::Seq(_) => unknown_reply(alloc),
        Asked::Unknown => unmessaged_reply(alloc, engine, line),
    }
}

/// The reply to a line that is no message of `drive_queries`.
fn unmessaged_reply<P: Profile>(
    alloc: Global,
    engine: &Engine<P>,
    line: &str,
) -> Result<Reply, NoMemory>
    requires { IsProfile (P.rules engine.now.profile).number }
    ensures { IfOk result (λ r.
        IsFurtherReply engine.now.world (P.rules engine.now.profile) (further_message line.now) (said r)) }
{
    let found = further_message(alloc, line)?;
    match found {
        Some(asks) => further_reply(alloc, engine, &asks),
        None => unknown_reply(alloc),
    }
}

/// The reply to what is further asked.
fn further_reply<P: Profile>(
    alloc: Global,
    engine: &Engine<P>,
    asks: &FurtherMessage,
) -> Result<Reply, NoMemory>
    requires number { IsProfile (P.rules engine.now.profile).number }
    requires drives { HasSteps asks.now }
    ensures { IfOk result (λ r.
        IsFurtherReply engine.now.world (P.rules engine.now.profile) (Some asks.now) (said r)) }
{
    match asks {
        FurtherMessage::DriveAt(moment, drive) => drive_at_reply(
            alloc,
            engine,
            *moment,
            drive.items(),
        ),
        FurtherMessage::Route(a, b) => route_reply(alloc, engine, *a, *b),
        FurtherMessage::Certify(a, b) => certify_reply(alloc, engine, *a, *b),
        FurtherMessage::ZoneDrive(drive) => zone_drive_reply(alloc, engine, drive.items()),
        FurtherMessage::ZoneReach(a, b) => zone_reach_reply(alloc, engine, *a, *b),
    }
}

/// The reply to what asks nothing that is known.
pub fn unknown_reply(alloc: Global) -> Result<Reply, NoMemory>
    ensures { IfOk result (λ r. said r ≡ unknown_line) }
{
    Ok(line_alone(alloc, unknown(alloc)?))
}

/// The graph's bytes, behind a line that tells how many there are.
pub fn graph_reply<P: Profile>(alloc: Global, engine: &Engine<P>) -> Result<Reply, NoMemory>
    requires { IsProfile (P.rules engine.now.profile).number }
    ensures { IfOk result (λ r. IsGraphReply engine.now.world (P.rules engine.now.profile) (said r)) }
{
    let profile = engine.profile();
    walk_law(&profile);
    walked_file(&profile);
    zone_file(&profile);
    let mut graph = Vec::new(alloc);
    write(VERSION, profile.number(), engine.blocks(), &mut graph)?;
    let line = graph_head(alloc, &graph)?;
    Ok(Reply {
        line,
        behind: graph,
    })
}

/// The kept number, and how large the graph is.
pub fn state_reply<P: Profile>(
    alloc: Global,
    engine: &Engine<P>,
    kept: Sequence,
) -> Result<Reply, NoMemory>
    ensures { IfOk result (λ r. IsStateReply engine.now.world (P.rules engine.now.profile) kept.0 (said r)) }
{
    let totals = counts(engine.blocks());
    Ok(line_alone(alloc, state(alloc, kept, &totals)?))
}

/// Whether the drive is legal, and else the first rule that it breaks. It has one step at least.
pub fn drive_reply<P: Profile>(
    alloc: Global,
    engine: &Engine<P>,
    drive: &[Step],
) -> Result<Reply, NoMemory>
    requires { drive.now ≢ [] }
    ensures { IfOk result (λ r. IsDriveReply engine.now.world (P.rules engine.now.profile) drive.now (said r)) }
{
    judged_reply(alloc, engine.world(), &engine.profile(), drive)
}

/// The same at a moment, under the access keys that hold then.
fn drive_at_reply<P: Profile>(
    alloc: Global,
    engine: &Engine<P>,
    moment: Moment,
    drive: &[Step],
) -> Result<Reply, NoMemory>
    requires number { IsProfile (P.rules engine.now.profile).number }
    requires steps { drive.now ≢ [] }
    ensures { IfOk result (λ r.
        IsDriveReply engine.now.world (rules_at (P.rules engine.now.profile).number moment) drive.now (said r)) }
{
    let profile = AtMoment::new(engine.profile().number(), moment);
    judged_reply(alloc, engine.world(), &profile, drive)
}

/// The verdict on the drive, which has one step at least, under this profile.
fn judged_reply<P: Profile>(
    alloc: Global,
    world: &Indexed,
    profile: &P,
    drive: &[Step],
) -> Result<Reply, NoMemory>
    requires { drive.now ≢ [] }
    ensures { IfOk result (λ r. IsDriveReply world.now (P.rules profile.now) drive.now (said r)) }
{
    let table = WordTable::of(alloc, world, profile, drive)?;
    let verdict = judge(world, profile, &table, drive);
    Ok(line_alone(alloc, verdict_reply(alloc, &verdict)?))
}

/// A drive from node a to node b.
pub fn reach_reply<P: Profile>(
    alloc: Global,
    engine: &Engine<P>,
    a: NodeId,
    b: NodeId,
) -> Result<Reply, NoMemory>
    ensures { IfOk result (λ r. (found : _)
        × IsFound engine.now.world (P.rules engine.now.profile) a b found
        × (said r ≡ found_line found)) }
{
    let found = reach(
        alloc,
        engine.world(),
        &engine.profile(),
        engine.blocks(),
        a,
        b,
    )?;
    Ok(line_alone(alloc, found_reply(alloc, &found)?))
}

/// A drive of least cost from node a to node b.
fn route_reply<P: Profile>(
    alloc: Global,
    engine: &Engine<P>,
    a: NodeId,
    b: NodeId,
) -> Result<Reply, NoMemory>
    ensures { IfOk result (λ r. IsRouteReply engine.now.world (P.rules engine.now.profile) a b (said r)) }
{
    let found = shortest(
        alloc,
        engine.world(),
        &engine.profile(),
        engine.blocks(),
        a,
        b,
    )?;
    Ok(line_alone(alloc, shortest_reply(alloc, found)?))
}

/// What shows the least cost of drives from node a to node b, or that there is none.
fn certify_reply<P: Profile>(
    alloc: Global,
    engine: &Engine<P>,
    a: NodeId,
    b: NodeId,
) -> Result<Reply, NoMemory>
    ensures { IfOk result (λ r. IsCertifyReply engine.now.world (P.rules engine.now.profile) a b (said r)) }
{
    let found = least(
        alloc,
        engine.world(),
        &engine.profile(),
        engine.blocks(),
        a,
        b,
    )?;
    cheapest_reply(alloc, &found)
}

/// Whether the drive is legal and goes through no zone, and else at which step and why it isn't so. It has one step at
/// least.
fn zone_drive_reply<P: Profile>(
    alloc: Global,
    engine: &Engine<P>,
    drive: &[Step],
) -> Result<Reply, NoMemory>
    requires { drive.now ≢ [] }
    ensures { IfOk result (λ r. IsZoneDriveReply engine.now.world (P.rules engine.now.profile) drive.now (said r)) }
{
    zones_judged_reply(alloc, engine.world(), &engine.profile(), drive)
}

/// The verdict on the drive, which has one step at least, under this profile, with its zones.
fn zones_judged_reply<P: Profile>(
    alloc: Global,
    world: &Indexed,
    profile: &P,
    drive: &[Step],
) -> Result<Reply, NoMemory>
    requires { drive.now ≢ [] }
    ensures { IfOk result (λ r. IsZoneDriveReply world.now (P.rules profile.now) drive.now (said r)) }
{
    let table = WordTable::of(alloc, world, profile, drive)?;
    let verdict = judge(world, profile, &table, drive);
    let verdict = judge_zones(world, profile, verdict, drive);
    Ok(line_alone(alloc, zone_verdict_reply(alloc, &verdict)?))
}

/// A drive from node a to node b that goes through no zone.
fn zone_reach_reply<P: Profile>(
    alloc: Global,
    engine: &Engine<P>,
    a: NodeId,
    b: NodeId,
) -> Result<Reply, NoMemory>
    ensures { IfOk result (λ r. IsZoneReachReply engine.now.world (P.rules engine.now.profile) a b (said r)) }
{
    let found = zone_reach(
        alloc,
        engine.world(),
        &engine.profile(),
        engine.blocks(),
        a,
        b,
    )?;
    Ok(line_alone(alloc, found_reply(alloc, &found)?))
}
