//! How far a drive is between the zone where it begins and the one where it ends.
ghost use Rattle.std.specs.Prelude.{◌≡◌};
ghost use Rattle.destination_drives.specs.Phases.{started, gone};

/// How far a drive is, on the step or the piece that it has come to (OSM wiki, Key:access, destination).
#[derive(Clone, Copy, PartialEq, Eq, Debug)]
pub enum Phase {
    /// In the zone where it begins: no road that is open to all was driven yet.
    Before,
    /// On a road that is open to all, and no zone was driven into.
    Open,
    /// In a zone that was driven into, where the drive must end.
    After,
}

/// The phase on the first piece of a drive, which is part of a zone or isn't. Takes no memory.
pub fn start(zone: bool) -> Phase
    ensures { result ≡ started zone }
{
    if zone { Phase::Before } else { Phase::Open }
}

/// The phase on the next piece, which is part of a zone or isn't. None exactly where the drive would leave a zone that
/// it was driven into. Takes no memory.
pub fn go(phase: Phase, zone: bool) -> Option<Phase>
    ensures { result ≡ gone phase zone }
{
    match (phase, zone) {
        (Phase::Before, true) => Some(Phase::Before),
        (Phase::Before | Phase::Open, false) => Some(Phase::Open),
        (Phase::Open | Phase::After, true) => Some(Phase::After),
        (Phase::After, false) => None,
    }
}
