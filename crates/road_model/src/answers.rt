//! What a profile answers, and why a restriction may be of no use.
use road_base::Dir;

/// The keys that may decide on access, the most specific first (OSM wiki, Key:access).
#[derive(Clone, Copy, PartialEq, Eq, Debug)]
pub enum AccessKey {
    Motorcar,
    MotorVehicle,
    Vehicle,
    Access,
}

/// The key that closes a way: `area`, `highway`, or a deciding key with the direction that it names, if it names one.
/// `Conditional` stands for the key with the ending `:conditional`, whose value names the times at which it closes the
/// way (OSM wiki, Conditional restrictions).
#[derive(Clone, Copy, PartialEq, Eq, Debug)]
pub enum ClosedBy {
    Area,
    Highway,
    Deciding { name: AccessKey, side: Option<Dir> },
    Conditional { name: AccessKey, side: Option<Dir> },
}

/// Whether a way may be driven in a direction. `WrongWay` comes where oneway alone closes it.
#[derive(Clone, Copy, PartialEq, Eq, Debug)]
pub enum Access {
    Free,
    Closed(ClosedBy),
    WrongWay,
}

/// What a restriction's tags say to this vehicle: nothing, as it is excepted; nothing, as they hold no rule; that its
/// turns are forbidden; that no other turns are allowed.
#[derive(Clone, Copy, PartialEq, Eq, Debug)]
pub enum RuleKind {
    Freed,
    Absent,
    No,
    Only,
}

/// Why a restriction is of no use (OSM wiki, Relation:restriction). Where several causes hold, the first one is named.
#[derive(Clone, Copy, PartialEq, Eq, Debug)]
pub enum Unusable {
    /// The vehicle is excepted.
    NotThisVehicle,
    /// Its tags hold no rule.
    NoValue,
    /// Its members are too few, too many, or of the wrong kinds.
    Members,
    /// A from, via or to member isn't visible, or is a way without the key `highway` or with fewer than two nodes on
    /// its line.
    Missing,
    /// No from way or no to way ends where the turn is, or a via way begins and ends at one node.
    NotAnEnd,
    /// The via ways don't lead from a from way to a to way.
    NotConnected,
    /// The via ways may not be driven in the directions that lead there.
    ClosedVia,
    /// More than 16 members of a role, or more than 1,024 steps on the via ways.
    TooLong,
}
