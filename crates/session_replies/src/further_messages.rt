//! What a line asks that is no message of `drive_queries`.
ghost use Rattle.std.specs.Prelude.{◌≡◌, IfOk, IfSome};
ghost use Rattle.opl_lexer.specs.Left.{fields_left};
ghost use Rattle.moment_rules.specs.MomentTexts.{moment_of};
ghost use Rattle.session_replies.specs.FurtherMessages.{further_message, further_drive, HasSteps};
ghost use Rattle.session_replies.specs.FurtherMessages.{further_route, further_certify};
ghost use Rattle.session_replies.specs.FurtherMessages.{further_zone_drive, further_zone_reach};

use drive_queries::{Asked, asked_drive, asked_reach};
use moment_rules::{Moment, one_moment, parse_moment};
use opl_lexer::{FieldIter, fields};
use road_base::{Drive, NoMemory, NodeId};
use std::alloc::Global;

/// What a line outside a frame asks that is no message of `drive_queries`.
#[derive(Drop)]
pub enum FurtherMessage {
    /// `drive-at MOMENT STEP ..`: whether the drive is legal at the moment. It has one step at least.
    DriveAt(Moment, Drive),
    /// `route A B`: a drive of least cost from node A to node B.
    Route(NodeId, NodeId),
    /// `certify A B`: what shows the least cost of drives from node A to node B, or that there is none.
    Certify(NodeId, NodeId),
    /// `zone-drive STEP ..`: whether the drive is legal, and goes through no road that is open to destination traffic
    /// alone. It has one step at least.
    ZoneDrive(Drive),
    /// `zone-reach A B`: such a drive from node A to node B.
    ZoneReach(NodeId, NodeId),
}

/// The moment that the word is.
fn moment_of(word: &str) -> Option<Moment>
    ensures { result ≡ moment_of word.now }
{
    one_moment();
    parse_moment(word)
}

/// A moment, and steps, at least one.
fn further_drive(
    alloc: Global,
    mut words: FieldIter<'_>,
) -> Result<Option<FurtherMessage>, NoMemory>
    ensures asks { IfOk result (λ asks. asks ≡ further_drive (fields_left words.entry)) }
    ensures drives { IfOk result (λ asks. IfSome asks HasSteps) }
{
    let Some(word) = words.next() else {
        return Ok(None);
    };
    let Some(moment) = moment_of(word) else {
        return Ok(None);
    };
    match asked_drive(alloc, words)? {
        Asked::Drive(drive) => Ok(Some(FurtherMessage::DriveAt(moment, drive))),
        _ => Ok(None),
    }
}

/// The numbers of two nodes, for a drive of least cost.
fn further_route(words: FieldIter<'_>) -> Option<FurtherMessage>
    ensures asks { result ≡ further_route (fields_left words.entry) }
    ensures drives { IfSome result HasSteps }
{
    match asked_reach(words) {
        Asked::Reach(from, to) => Some(FurtherMessage::Route(from, to)),
        _ => None,
    }
}

/// The numbers of two nodes, for what shows the least cost.
fn further_certify(words: FieldIter<'_>) -> Option<FurtherMessage>
    ensures asks { result ≡ further_certify (fields_left words.entry) }
    ensures drives { IfSome result HasSteps }
{
    match asked_reach(words) {
        Asked::Reach(from, to) => Some(FurtherMessage::Certify(from, to)),
        _ => None,
    }
}

/// Steps, at least one, of a drive that goes through no zone.
fn further_zone_drive(
    alloc: Global,
    words: FieldIter<'_>,
) -> Result<Option<FurtherMessage>, NoMemory>
    ensures asks { IfOk result (λ asks. asks ≡ further_zone_drive (fields_left words.entry)) }
    ensures drives { IfOk result (λ asks. IfSome asks HasSteps) }
{
    match asked_drive(alloc, words)? {
        Asked::Drive(drive) => Ok(Some(FurtherMessage::ZoneDrive(drive))),
        _ => Ok(None),
    }
}

/// The numbers of two nodes, for a drive that goes through no zone.
fn further_zone_reach(words: FieldIter<'_>) -> Option<FurtherMessage>
    ensures asks { result ≡ further_zone_reach (fields_left words.entry) }
    ensures drives { IfSome result HasSteps }
{
    match asked_reach(words) {
        Asked::Reach(from, to) => Some(FurtherMessage::ZoneReach(from, to)),
        _ => None,
    }
}

/// What the line asks, if it is one of these. Takes time linear in the line.
pub fn further_message(alloc: Global, line: &str) -> Result<Option<FurtherMessage>, NoMemory>
    ensures asks { IfOk result (λ asks. asks ≡ further_message line.now) }
    ensures drives { IfOk result (λ asks. IfSome asks HasSteps) }
{
    let mut words = fields(line);
    let Some(name) = words.next() else {
        return Ok(None);
    };
    match name {
        "drive-at" => further_drive(alloc, words),
        "route" => Ok(further_route(words)),
        "certify" => Ok(further_certify(words)),
        "zone-drive" => further_zone_drive(alloc, words),
        "zone-reach" => Ok(further_zone_reach(words)),
        _ => Ok(None),
    }
}
