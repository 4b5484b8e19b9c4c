//! The objects of a town.
ghost use Rattle.std.specs.Prelude.{◌≡◌, ◌<◌, ◌≤◌, ◌+◌, ◌/◌, ◌%◌, ◌++◌, ◌∷◌, [], IfOk};
ghost use Rattle.sample_town.specs.Streets.{node_at, east_of, north_of, node, way_tags, way, east_way, north_way};
ghost use Rattle.sample_town.specs.Streets.{restriction_tags, member, turn, restriction_members, restriction, deletion};

use road_base::{
    Body, Event, Key, Location, Member, Members, NoMemory, Node, NodeId, Refs, Relation,
    RelationId, Tags, Text, Way, WayId,
};
use std::alloc::Global;

/// How many rows of crossings there are.
pub const ROWS: u32 = 60;

/// How many crossings there are in a row.
pub const COLUMNS: u32 = 60;

/// How many ways to the east there are in a row.
pub const EAST_WAYS: u32 = 59;

/// The number of the first way to the north.
const FIRST_NORTH_WAY: u32 = 100_001;

/// How far a crossing is from the next one, in units of 1e-7 degree.
const SPACING: u32 = 10_000;

/// The version of an object in the base.
const FIRST_VERSION: u32 = 1;

/// A crossing of the grid. Rows are counted from the south, and columns from the west.
#[derive(Clone, Copy)]
pub struct Crossing {
    pub row: u32,
    pub column: u32,
    ghost row_within: { row < 60 },
    ghost column_within: { column < 60 },
}

impl Crossing {
    /// The crossing with this place among all of them, row by row.
    pub fn nth(place: u32) -> Crossing
        requires { place < 3600 }
        ensures row { result.row ≡ place / 60 }
        ensures column { result.column ≡ place % 60 }
    {
        Crossing {
            row: place / COLUMNS,
            column: place % COLUMNS,
        }
    }

    /// The crossing from which the way with this place among those to the east begins, row by row.
    pub fn nth_way_east(place: u32) -> Crossing
        requires { place < 3540 }
        ensures row { result.row ≡ place / 59 }
        ensures column { result.column ≡ place % 59 }
    {
        Crossing {
            row: place / EAST_WAYS,
            column: place % EAST_WAYS,
        }
    }

    /// The crossing so many columns farther to the east.
    fn east(self, by: u32) -> Crossing
        requires { self.column + by < 60 }
        ensures row { result.row ≡ self.row }
        ensures column { result.column ≡ self.column + by }
    {
        Crossing {
            row: self.row,
            column: self.column + by,
        }
    }

    /// The next crossing to the north.
    fn north(self) -> Crossing
        requires { self.row < 59 }
        ensures row { result.row ≡ self.row + 1 }
        ensures column { result.column ≡ self.column }
    {
        Crossing {
            row: self.row + 1,
            column: self.column,
        }
    }

    fn node(self) -> NodeId
        ensures { result ≡ node_at self.row self.column }
    {
        NodeId(i64::from(1 + COLUMNS * self.row + self.column))
    }

    /// The way from here to the next crossing to the east.
    fn way_east(self) -> WayId
        ensures { result ≡ east_of self.row self.column }
    {
        WayId(i64::from(1 + EAST_WAYS * self.row + self.column))
    }

    /// The way from here to the next crossing to the north.
    fn way_north(self) -> WayId
        ensures { result ≡ north_of self.row self.column }
    {
        WayId(i64::from(FIRST_NORTH_WAY + COLUMNS * self.row + self.column))
    }
}

/// A key beside a value.
fn tag(alloc: Global, key: &str, value: &str) -> Result<(Text, Text), NoMemory>
    ensures { IfOk result (λ t. t ≡ (key.now, value.now)) }
{
    let key = Text::of(alloc, key)?;
    let value = Text::of(alloc, value)?;
    Ok((key, value))
}

/// The node of a crossing in the version of a change, which moves it to the east. The base is change 0. Takes no
/// memory.
pub fn node(change: u32, at: Crossing) -> Event
    requires { change ≤ 10 }
    ensures { result ≡ node change at.row at.column }
{
    let location = Location {
        lon: (SPACING * at.column + change) as i32,
        lat: (SPACING * at.row) as i32,
    };
    let node = Node {
        tags: Tags::new(),
        location: Some(location),
    };
    Event {
        key: Key::Node(at.node()),
        version: FIRST_VERSION + change,
        body: Body::Node(node),
    }
}

fn way_tags(alloc: Global, oneway: bool) -> Result<Tags, NoMemory>
    ensures { IfOk result (λ t. t ≡ way_tags oneway) }
{
    let mut list = Vec::new(alloc);
    list.push(tag(alloc, "highway", "residential")?)?;
    if oneway {
        list.push(tag(alloc, "oneway", "yes")?)?;
    }
    Tags::from_list(list)
}

/// The way over two nodes in the version of a change.
#[tactic(auto, unfolding(crate::specs::Streets::way))]
fn way(
    alloc: Global,
    change: u32,
    id: WayId,
    tail: NodeId,
    head: NodeId,
    oneway: bool,
) -> Result<Event, NoMemory>
    requires { change ≤ 10 }
    ensures { IfOk result (λ e. e ≡ way change id tail head oneway) }
{
    let tags = way_tags(alloc, oneway)?;
    let refs = Refs::from_list(vec![in alloc; tail, head]?)?;
    Ok(Event {
        key: Key::Way(id),
        version: FIRST_VERSION + change,
        body: Body::Way(Way { tags, refs }),
    })
}

/// The way from a crossing to the next one to the east, in the version of a change.
pub fn east_way(alloc: Global, change: u32, at: Crossing, oneway: bool) -> Result<Event, NoMemory>
    requires change { change ≤ 10 }
    requires column { at.column < 59 }
    ensures { IfOk result (λ e. e ≡ east_way change at.row at.column oneway) }
{
    way(
        alloc,
        change,
        at.way_east(),
        at.node(),
        at.east(1).node(),
        oneway,
    )
}

/// The way from a crossing to the next one to the north, in the version of a change.
pub fn north_way(alloc: Global, change: u32, at: Crossing, oneway: bool) -> Result<Event, NoMemory>
    requires change { change ≤ 10 }
    requires row { at.row < 59 }
    ensures { IfOk result (λ e. e ≡ north_way change at.row at.column oneway) }
{
    way(
        alloc,
        change,
        at.way_north(),
        at.node(),
        at.north().node(),
        oneway,
    )
}

fn restriction_tags(alloc: Global, kind: u32) -> Result<Tags, NoMemory>
    ensures { IfOk result (λ t. t ≡ restriction_tags kind) }
{
    let value = if kind % 2 == 0 {
        "no_straight_on"
    } else {
        "only_straight_on"
    };
    let mut list = Vec::new(alloc);
    list.push(tag(alloc, "restriction", value)?)?;
    list.push(tag(alloc, "type", "restriction")?)?;
    Tags::from_list(list)
}

fn member(alloc: Global, item: Key, role: &str) -> Result<Member, NoMemory>
    ensures { IfOk result (λ m. m ≡ member item role.now) }
{
    let role = Text::of(alloc, role)?;
    Ok(Member { item, role })
}

/// The members of a restriction from a way by another member to a way.
fn turn(alloc: Global, from: WayId, via: Key, to: WayId) -> Result<Members, NoMemory>
    ensures { IfOk result (λ m. m ≡ turn from via to) }
{
    let mut list = Vec::new(alloc);
    list.push(member(alloc, Key::Way(from), "from")?)?;
    list.push(member(alloc, via, "via")?)?;
    list.push(member(alloc, Key::Way(to), "to")?)?;
    Members::from_list(list)
}

/// The members of the restriction of this kind from a crossing.
fn restriction_members(alloc: Global, from: Crossing, kind: u32) -> Result<Members, NoMemory>
    requires { from.column < 57 }
    ensures { IfOk result (λ m. m ≡ restriction_members from.row from.column kind) }
{
    let next = from.east(1);
    if kind < 2 {
        turn(
            alloc,
            from.way_east(),
            Key::Node(next.node()),
            next.way_east(),
        )
    } else {
        turn(
            alloc,
            from.way_east(),
            Key::Way(next.way_east()),
            from.east(2).way_east(),
        )
    }
}

/// The restriction of this kind from a crossing.
#[tactic(auto, unfolding(crate::specs::Streets::restriction))]
pub fn restriction(alloc: Global, number: u32, from: Crossing, kind: u32) -> Result<Event, NoMemory>
    requires { from.column < 57 }
    ensures { IfOk result (λ e. e ≡ restriction number from.row from.column kind) }
{
    let tags = restriction_tags(alloc, kind)?;
    let members = restriction_members(alloc, from, kind)?;
    Ok(Event {
        key: Key::Relation(RelationId(i64::from(number))),
        version: FIRST_VERSION,
        body: Body::Relation(Relation { tags, members }),
    })
}

/// The deletion of a relation by a change.
#[tactic(auto, unfolding(crate::specs::Streets::deletion))]
pub fn deletion(change: u32, number: u32) -> Event
    requires { change ≤ 10 }
    ensures { result ≡ deletion change number }
{
    Event {
        key: Key::Relation(RelationId(i64::from(number))),
        version: FIRST_VERSION + change,
        body: Body::Deleted,
    }
}
