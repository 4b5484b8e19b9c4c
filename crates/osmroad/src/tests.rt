//! Whole runs, over sources and sites in memory.
ghost use Rattle.std.specs.Prelude.{◌≡◌, ◌<◌};

use crate::failure_tests::with_byte;
use crate::session_tests::{self, FORK_LINES};
use crate::store_tests::joined;
use last_words::Status;
use road_base::NoMemory;
use road_io::MemorySite;
use std::alloc::Global;
use std::marker::Brand;
use std::process::Abort;
use std::sync::ledger::{Blank, Ledger};
use std::test::Fail;

/// Way 10 over three nodes. Node 2 is plain, and one turns round at both ends.
pub const STREET: &[u8] =
    b"n1 x0 y0\nn2 x0.001 y0\nn3 x0.002 y0\nw10 Thighway=residential Nn1,n2,n3\n";

/// The same with carriage returns, without a last newline, and in another order.
const STREET_RETURNS: &[u8] =
    b"w10 Thighway=residential Nn1,n2,n3\r\nn3 x0.002 y0\r\nn1 x0 y0\r\nn2 x0.001 y0";

/// The same as osmium writes it, with metadata and with locations on the references.
const STREET_METADATA: &[u8] = b"\
    n1 v3 dV c1001 t2020-05-01T10:00:00Z i7 uanna T x0 y0\n\
    n2 v1 dV c1001 t2020-05-01T10:00:00Z i7 ub%20%c T x0.001 y0\n\
    n3 v2 dV c1002 t2020-05-02T10:00:00Z i8 u T x0.0020000004 y-0\n\
    w10 v4 dV c1002 t2020-05-02T10:00:00Z i8 uanna Thigh%77%ay=residential Nn1x0y0,n2x0.001y0,n3xy\n";

/// The same left by several lines of one object: a later version, a stale one, a second one of the same version, and a
/// street that was deleted with its node.
const STREET_VERSIONS: &[u8] = b"\
    w10 v3 Thighway=residential Nn1,n2,n3\n\
    w10 v2 Thighway=motorway Nn1,n2\n\
    w10 v3 Thighway=service Nn3,n2,n1\n\
    n1 v1 dD\n\
    n1 v2 x0 y0\n\
    n2 v1 x0.001 y0\n\
    n2 v1 x5 y5\n\
    n3 v2 x0.002 y0\n\
    n3 v1 Tbarrier=gate\n\
    n4 v1 x0.003 y0\n\
    w11 v1 Thighway=residential Nn3,n4\n\
    w11 v2 dD\n\
    n4 v2 dD\n\
    r1 v1 Ttype=route Mn1@\n\
    r1 v2 dD\n";

/// The same beside what is no part of the road network.
const STREET_SURROUNDINGS: &[u8] = b"\
    n1 x0 y0\nn2 x0.001 y0 Tname=A\nn3 x0.002 y0\nn4 x0.003 y0 Tbarrier=gate\n\
    w10 Thighway=residential,name=B Nn1,n2,n3\n\
    w11 Tbuilding=yes Nn1,n2,n4,n1\n\
    w12 Thighway=proposed Nn2,n4\n\
    r1 Ttype=route,route=bus Mw10@,n2@stop\n\
    r2 Ttype=restriction,restriction=no_u_turn Mw10@from,n9@via,w10@to\n";

/// The graph of `STREET`, as the format spells it: a header; way 10 with two pieces; each with its positions and
/// direction, not marked, its nodes, and one context with one arc to the other piece, which is its one source too.
pub const STREET_GRAPH: &[u8] = b"\
    \x4f\x53\x4d\x52\x4f\x41\x44\x32\x01\x00\x00\x00\x01\x00\x00\x00\x00\x00\x00\x00\
    \x0a\x00\x00\x00\x00\x00\x00\x00\x02\x00\x00\x00\
    \x00\x00\x00\x00\x02\x00\x00\x00\x00\x00\
    \x01\x00\x00\x00\x00\x00\x00\x00\x00\x00\x00\x00\x00\x00\x00\x00\
    \x02\x00\x00\x00\x00\x00\x00\x00\x10\x27\x00\x00\x00\x00\x00\x00\
    \x03\x00\x00\x00\x00\x00\x00\x00\x20\x4e\x00\x00\x00\x00\x00\x00\
    \x01\x00\x00\x00\x00\x00\x00\x00\x01\x00\x00\x00\x01\x00\x00\x00\x00\x00\x00\x00\
    \x0a\x00\x00\x00\x00\x00\x00\x00\x00\x00\x00\x00\x01\x01\x00\x00\x00\
    \x01\x00\x00\x00\x00\x00\x00\x00\x01\x00\x00\x00\
    \x0a\x00\x00\x00\x00\x00\x00\x00\x00\x00\x00\x00\x01\
    \x00\x00\x00\x00\x02\x00\x00\x00\x01\x00\
    \x03\x00\x00\x00\x00\x00\x00\x00\x20\x4e\x00\x00\x00\x00\x00\x00\
    \x02\x00\x00\x00\x00\x00\x00\x00\x10\x27\x00\x00\x00\x00\x00\x00\
    \x01\x00\x00\x00\x00\x00\x00\x00\x00\x00\x00\x00\x00\x00\x00\x00\
    \x01\x00\x00\x00\x00\x00\x00\x00\x01\x00\x00\x00\x01\x00\x00\x00\x00\x00\x00\x00\
    \x0a\x00\x00\x00\x00\x00\x00\x00\x00\x00\x00\x00\x00\x01\x00\x00\x00\
    \x01\x00\x00\x00\x00\x00\x00\x00\x01\x00\x00\x00\
    \x0a\x00\x00\x00\x00\x00\x00\x00\x00\x00\x00\x00\x00";

/// The same graph as a file of version 1, as it was put before.
const STREET_GRAPH_BEFORE: &[u8] = b"\
    \x4f\x53\x4d\x52\x4f\x41\x44\x31\x01\x00\x00\x00\x01\x00\x00\x00\x00\x00\x00\x00\
    \x0a\x00\x00\x00\x00\x00\x00\x00\x02\x00\x00\x00\
    \x00\x00\x00\x00\x02\x00\x00\x00\x00\
    \x01\x00\x00\x00\x00\x00\x00\x00\x00\x00\x00\x00\x00\x00\x00\x00\
    \x02\x00\x00\x00\x00\x00\x00\x00\x10\x27\x00\x00\x00\x00\x00\x00\
    \x03\x00\x00\x00\x00\x00\x00\x00\x20\x4e\x00\x00\x00\x00\x00\x00\
    \x01\x00\x00\x00\x00\x00\x00\x00\x01\x00\x00\x00\x01\x00\x00\x00\x00\x00\x00\x00\
    \x0a\x00\x00\x00\x00\x00\x00\x00\x00\x00\x00\x00\x01\x01\x00\x00\x00\
    \x00\x00\x00\x00\x02\x00\x00\x00\x01\
    \x03\x00\x00\x00\x00\x00\x00\x00\x20\x4e\x00\x00\x00\x00\x00\x00\
    \x02\x00\x00\x00\x00\x00\x00\x00\x10\x27\x00\x00\x00\x00\x00\x00\
    \x01\x00\x00\x00\x00\x00\x00\x00\x00\x00\x00\x00\x00\x00\x00\x00\
    \x01\x00\x00\x00\x00\x00\x00\x00\x01\x00\x00\x00\x01\x00\x00\x00\x00\x00\x00\x00\
    \x0a\x00\x00\x00\x00\x00\x00\x00\x00\x00\x00\x00\x00\x01\x00\x00\x00";

/// `STREET_GRAPH` in parts: the header and the head of way 10; its piece along it; and that against it, but for its
/// last byte.
const STREET_HEAD: &[u8] = b"OSMROAD2\x01\0\0\0\x01\0\0\0\0\0\0\0\x0a\0\0\0\0\0\0\0\x02\0\0\0";

const STREET_ALONG: &[u8] = b"\0\0\0\0\x02\0\0\0\0\0\
    \x01\0\0\0\0\0\0\0\0\0\0\0\0\0\0\0\
    \x02\0\0\0\0\0\0\0\x10\x27\0\0\0\0\0\0\
    \x03\0\0\0\0\0\0\0\x20\x4e\0\0\0\0\0\0\
    \x01\0\0\0\0\0\0\0\x01\0\0\0\x01\0\0\0\0\0\0\0\
    \x0a\0\0\0\0\0\0\0\0\0\0\0\x01\x01\0\0\0\
    \x01\0\0\0\0\0\0\0\x01\0\0\0\x0a\0\0\0\0\0\0\0\0\0\0\0\x01";

const STREET_AGAINST: &[u8] = b"\0\0\0\0\x02\0\0\0\x01\0\
    \x03\0\0\0\0\0\0\0\x20\x4e\0\0\0\0\0\0\
    \x02\0\0\0\0\0\0\0\x10\x27\0\0\0\0\0\0\
    \x01\0\0\0\0\0\0\0\0\0\0\0\0\0\0\0\
    \x01\0\0\0\0\0\0\0\x01\0\0\0\x01\0\0\0\0\0\0\0\
    \x0a\0\0\0\0\0\0\0\0\0\0\0\0\x01\0\0\0\
    \x01\0\0\0\0\0\0\0\x01\0\0\0\x0a\0\0\0\0\0\0\0\0\0\0\0";

/// Way 10 round from node 1 to itself, driven against its line alone.
const RING: &[u8] = b"n1 x0.001 y0\nn2 x0.002 y0\nn3 x0.003 y0\n\
    w10 Thighway=residential,junction=roundabout,oneway=-1 Nn1,n2,n3,n1\n";

/// The graph of `RING`: one piece over the nodes 1, 3, 2, 1, with one arc, to itself, and so one source.
const RING_GRAPH: &[u8] = b"\
    OSMROAD2\x01\x00\x00\x00\x01\x00\x00\x00\x00\x00\x00\x00\
    \x0a\x00\x00\x00\x00\x00\x00\x00\x01\x00\x00\x00\
    \x00\x00\x00\x00\x03\x00\x00\x00\x01\x00\
    \x01\x00\x00\x00\x00\x00\x00\x00\x10\x27\x00\x00\x00\x00\x00\x00\
    \x03\x00\x00\x00\x00\x00\x00\x00\x30\x75\x00\x00\x00\x00\x00\x00\
    \x02\x00\x00\x00\x00\x00\x00\x00\x20\x4e\x00\x00\x00\x00\x00\x00\
    \x01\x00\x00\x00\x00\x00\x00\x00\x10\x27\x00\x00\x00\x00\x00\x00\
    \x01\x00\x00\x00\x00\x00\x00\x00\x01\x00\x00\x00\x01\x00\x00\x00\x00\x00\x00\x00\
    \x0a\x00\x00\x00\x00\x00\x00\x00\x00\x00\x00\x00\x01\x01\x00\x00\x00\
    \x01\x00\x00\x00\x00\x00\x00\x00\x01\x00\x00\x00\
    \x0a\x00\x00\x00\x00\x00\x00\x00\x00\x00\x00\x00\x01";

/// The graph of `FORK_LINES`. Way 3 along its line has three contexts: alone it has no source, behind way 2 the one of
/// way 2 alone, and behind the ways 1 and 2 that of way 2 behind way 1.
const FORK_GRAPH: &[u8] = b"\
    OSMROAD2\x01\0\0\0\x05\0\0\0\0\0\0\0\
    \x01\0\0\0\0\0\0\0\x02\0\0\0\
    \0\0\0\0\x01\0\0\0\0\0\
    \x01\0\0\0\0\0\0\0\x10'\0\0\0\0\0\0\
    \x02\0\0\0\0\0\0\0\x20N\0\0\0\0\0\0\
    \x01\0\0\0\0\0\0\0\
    \x01\0\0\0\x01\0\0\0\0\0\0\0\
    \x02\0\0\0\0\0\0\0\0\0\0\0\0\x02\0\0\0\
    \x01\0\0\0\0\0\0\0\
    \x01\0\0\0\x01\0\0\0\0\0\0\0\0\0\0\0\x01\
    \0\0\0\0\x01\0\0\0\x01\0\
    \x02\0\0\0\0\0\0\0\x20N\0\0\0\0\0\0\
    \x01\0\0\0\0\0\0\0\x10'\0\0\0\0\0\0\
    \x01\0\0\0\0\0\0\0\
    \x01\0\0\0\x01\0\0\0\0\0\0\0\
    \x01\0\0\0\0\0\0\0\0\0\0\0\0\x01\0\0\0\
    \x01\0\0\0\0\0\0\0\
    \x01\0\0\0\x02\0\0\0\0\0\0\0\0\0\0\0\x01\
    \x02\0\0\0\0\0\0\0\x02\0\0\0\
    \0\0\0\0\x01\0\0\0\0\0\
    \x02\0\0\0\0\0\0\0\x20N\0\0\0\0\0\0\
    \x03\0\0\0\0\0\0\x000u\0\0\0\0\0\0\
    \x02\0\0\0\0\0\0\0\
    \x01\0\0\0\x01\0\0\0\0\0\0\0\
    \x03\0\0\0\0\0\0\0\0\0\0\0\0\x02\0\0\0\
    \0\0\0\0\0\0\0\0\
    \x02\0\0\0\x01\0\0\0\0\0\0\0\0\0\0\0\0\x01\0\0\0\0\0\0\0\
    \x03\0\0\0\0\0\0\0\0\0\0\0\0\x03\0\0\0\
    \x01\0\0\0\0\0\0\0\
    \x01\0\0\0\x01\0\0\0\0\0\0\0\0\0\0\0\0\
    \0\0\0\0\x01\0\0\0\x01\0\
    \x03\0\0\0\0\0\0\x000u\0\0\0\0\0\0\
    \x02\0\0\0\0\0\0\0\x20N\0\0\0\0\0\0\
    \x01\0\0\0\0\0\0\0\
    \x01\0\0\0\x01\0\0\0\0\0\0\0\
    \x01\0\0\0\0\0\0\0\0\0\0\0\x01\x01\0\0\0\
    \x01\0\0\0\0\0\0\0\
    \x01\0\0\0\x03\0\0\0\0\0\0\0\0\0\0\0\x01\
    \x03\0\0\0\0\0\0\0\x02\0\0\0\
    \0\0\0\0\x01\0\0\0\0\0\
    \x03\0\0\0\0\0\0\x000u\0\0\0\0\0\0\
    \x04\0\0\0\0\0\0\0@\x9c\0\0\0\0\0\0\
    \x03\0\0\0\0\0\0\0\
    \x01\0\0\0\x02\0\0\0\0\0\0\0\
    \x04\0\0\0\0\0\0\0\0\0\0\0\0\x01\0\0\0\
    \x05\0\0\0\0\0\0\0\0\0\0\0\0\x01\0\0\0\
    \0\0\0\0\0\0\0\0\
    \x02\0\0\0\x02\0\0\0\0\0\0\0\0\0\0\0\0\x01\0\0\0\0\0\0\0\
    \x05\0\0\0\0\0\0\0\0\0\0\0\0\x01\0\0\0\
    \x01\0\0\0\0\0\0\0\
    \x01\0\0\0\x02\0\0\0\0\0\0\0\0\0\0\0\0\
    \x03\0\0\0\x01\0\0\0\0\0\0\0\0\0\0\0\0\x02\0\0\0\0\0\0\0\0\0\0\0\0\x01\0\0\0\0\0\0\0\
    \x05\0\0\0\0\0\0\0\0\0\0\0\0\x01\0\0\0\
    \x01\0\0\0\0\0\0\0\
    \x02\0\0\0\x01\0\0\0\0\0\0\0\0\0\0\0\0\x02\0\0\0\0\0\0\0\0\0\0\0\0\
    \0\0\0\0\x01\0\0\0\x01\0\
    \x04\0\0\0\0\0\0\0@\x9c\0\0\0\0\0\0\
    \x03\0\0\0\0\0\0\x000u\0\0\0\0\0\0\
    \x01\0\0\0\0\0\0\0\
    \x01\0\0\0\x01\0\0\0\0\0\0\0\
    \x02\0\0\0\0\0\0\0\0\0\0\0\x01\x01\0\0\0\
    \x02\0\0\0\0\0\0\0\
    \x01\0\0\0\x04\0\0\0\0\0\0\0\0\0\0\0\x01\
    \x01\0\0\0\x05\0\0\0\0\0\0\0\0\0\0\0\x01\
    \x04\0\0\0\0\0\0\0\x02\0\0\0\
    \0\0\0\0\x01\0\0\0\0\0\
    \x04\0\0\0\0\0\0\0@\x9c\0\0\0\0\0\0\
    \x05\0\0\0\0\0\0\0P\xc3\0\0\0\0\0\0\
    \x01\0\0\0\0\0\0\0\
    \x01\0\0\0\x01\0\0\0\0\0\0\0\
    \x04\0\0\0\0\0\0\0\0\0\0\0\x01\x01\0\0\0\
    \x02\0\0\0\0\0\0\0\
    \x01\0\0\0\x03\0\0\0\0\0\0\0\0\0\0\0\0\
    \x01\0\0\0\x05\0\0\0\0\0\0\0\0\0\0\0\x01\
    \0\0\0\0\x01\0\0\0\x01\0\
    \x05\0\0\0\0\0\0\0P\xc3\0\0\0\0\0\0\
    \x04\0\0\0\0\0\0\0@\x9c\0\0\0\0\0\0\
    \x01\0\0\0\0\0\0\0\
    \x01\0\0\0\x02\0\0\0\0\0\0\0\
    \x03\0\0\0\0\0\0\0\0\0\0\0\x01\x01\0\0\0\
    \x05\0\0\0\0\0\0\0\0\0\0\0\0\x01\0\0\0\
    \x01\0\0\0\0\0\0\0\
    \x01\0\0\0\x04\0\0\0\0\0\0\0\0\0\0\0\0\
    \x05\0\0\0\0\0\0\0\x02\0\0\0\
    \0\0\0\0\x01\0\0\0\0\0\
    \x04\0\0\0\0\0\0\0@\x9c\0\0\0\0\0\0\
    \x06\0\0\0\0\0\0\0`\xea\0\0\0\0\0\0\
    \x01\0\0\0\0\0\0\0\
    \x01\0\0\0\x01\0\0\0\0\0\0\0\
    \x05\0\0\0\0\0\0\0\0\0\0\0\x01\x01\0\0\0\
    \x04\0\0\0\0\0\0\0\
    \x01\0\0\0\x03\0\0\0\0\0\0\0\0\0\0\0\0\
    \x01\0\0\0\x04\0\0\0\0\0\0\0\0\0\0\0\x01\
    \x02\0\0\0\x02\0\0\0\0\0\0\0\0\0\0\0\0\x03\0\0\0\0\0\0\0\0\0\0\0\0\
    \x03\0\0\0\x01\0\0\0\0\0\0\0\0\0\0\0\0\x02\0\0\0\0\0\0\0\0\0\0\0\0\x03\0\0\0\0\0\0\0\0\0\0\0\0\
    \0\0\0\0\x01\0\0\0\x01\0\
    \x06\0\0\0\0\0\0\0`\xea\0\0\0\0\0\0\
    \x04\0\0\0\0\0\0\0@\x9c\0\0\0\0\0\0\
    \x01\0\0\0\0\0\0\0\
    \x01\0\0\0\x02\0\0\0\0\0\0\0\
    \x03\0\0\0\0\0\0\0\0\0\0\0\x01\x01\0\0\0\
    \x04\0\0\0\0\0\0\0\0\0\0\0\0\x01\0\0\0\
    \x01\0\0\0\0\0\0\0\
    \x01\0\0\0\x05\0\0\0\0\0\0\0\0\0\0\0\0";

/// `STREET` without its middle node, and then with it, each line with a version.
pub const STREET_CUT: &[u8] =
    b"n1 v1 x0 y0\nn3 v1 x0.002 y0\nw10 v1 Thighway=residential Nn1,n2,n3\n";

const STREET_MENDED: &[u8] =
    b"n1 v1 x0 y0\nn3 v1 x0.002 y0\nw10 v1 Thighway=residential Nn1,n2,n3\nn2 v1 x0.001 y0\n";

/// The graph of nothing, of profile 2.
pub const NO_GRAPH_RAISED: &[u8] = b"OSMROAD2\x02\x00\x00\x00\x00\x00\x00\x00\x00\x00\x00\x00";

/// The graph of nothing: the header alone.
pub const NO_GRAPH: &[u8] = b"OSMROAD2\x01\x00\x00\x00\x00\x00\x00\x00\x00\x00\x00\x00";

pub const USAGE: &[u8] =
    b"usage: osmroad STORE create N|apply N|session|graph [MOMENT]|audit|checkpoint|raise, or osmroad - \
    compile|compile 2|inspect|sample N\n";

const COMPILE: &[&str] = &["-", "compile"];

/// A run: its words, its input, the reads and puts that are to fail, and what is expected of it.
#[derive(Clone, Copy)]
struct Case<'a> {
    words: &'a [&'a str],
    input: &'a [u8],
    read_fails: &'a [u64],
    put_fails: &'a [u64],
    status: Status,
    output: &'a [u8],
}

const fn compiles<'a>(input: &'a [u8], status: Status, output: &'a [u8]) -> Case<'a> {
    Case {
        words: COMPILE,
        input,
        read_fails: &[],
        put_fails: &[],
        status,
        output,
    }
}

/// A site whose files are empty, and whose calls with these numbers fail.
fn site_of(alloc: Global, fails: &[u64]) -> Result<MemorySite, NoMemory> {
    let fails = fails.to_vec(alloc)?;
    Ok(MemorySite::new(alloc, Vec::new(alloc), Vec::new(alloc), fails))
}

/// The case run on the site, and all that was put.
fn ended_on<L: Ledger>(
    alloc: Global,
    case: &Case,
    site: &mut MemorySite,
    blank: Blank,
) -> Result<(Status, Vec<u8>), NoMemory>
    requires name { blank.name ≡ L.name }
    requires parts { blank.parts ≡ L.parts }
    requires some { 0 < L.parts }
{
    let (words, input, fails) = (case.words, case.input, case.read_fails);
    let status = session_tests::ended::<L>(alloc, words, input, fails, site, blank)?;
    Ok((status, site.output().to_vec(alloc)?))
}

/// The same on a new site.
fn ended<L: Ledger>(alloc: Global, case: &Case, blank: Blank) -> Result<(Status, Vec<u8>), NoMemory>
    requires name { blank.name ≡ L.name }
    requires parts { blank.parts ≡ L.parts }
    requires some { 0 < L.parts }
{
    let mut site = site_of(alloc, case.put_fails)?;
    ended_on::<L>(alloc, case, &mut site, blank)
}

/// Runs the case, and compares what is expected of it.
fn check(rt: &impl Abort, alloc: Global, case: &Case) -> Result<(), NoMemory> {
    let (status, output) = ended::<Brand>(alloc, case, Blank::new(1))?;
    assert_eq!(rt; status, case.status);
    assert_eq!(rt; output.as_slice(), case.output);
    Ok(())
}

/// The graph of the extract, by a whole run.
pub fn compiled<L: Ledger>(alloc: Global, input: &[u8], blank: Blank) -> Result<Vec<u8>, Fail>
    requires name { blank.name ≡ L.name }
    requires parts { blank.parts ≡ L.parts }
    requires some { 0 < L.parts }
{
    let case = compiles(input, Status::Done, b"");
    match ended::<L>(alloc, &case, blank)? {
        (Status::Done, graph) => Ok(graph),
        _ => Err(Fail::from("the extract isn't compiled")),
    }
}

#[test]
fn extracts_are_compiled(rt: HostRuntime) -> Result<(), Fail> {
    let cases = [
        compiles(STREET, Status::Done, STREET_GRAPH),
        compiles(STREET_RETURNS, Status::Done, STREET_GRAPH),
        compiles(b"", Status::Done, NO_GRAPH),
        compiles(b"n1 x0 y0", Status::Done, NO_GRAPH),
        compiles(STREET_METADATA, Status::Done, STREET_GRAPH),
        compiles(STREET_VERSIONS, Status::Done, STREET_GRAPH),
        compiles(
            b"n1 dD\nn1 x0 y0 Tbarrier=gate\nw1 v1 dD",
            Status::Done,
            NO_GRAPH,
        ),
        compiles(
            b"# a note\n \t\nc77 anything at all\n",
            Status::Done,
            NO_GRAPH,
        ),
        // A building, a route and a gate off the road change nothing.
        compiles(STREET_SURROUNDINGS, Status::Done, STREET_GRAPH),
        compiles(RING, Status::Done, RING_GRAPH),
        compiles(STREET_CUT, Status::Done, NO_GRAPH),
        compiles(STREET_MENDED, Status::Done, STREET_GRAPH),
        compiles(FORK_LINES, Status::Done, FORK_GRAPH),
    ];
    for case in &cases {
        check(&rt, rt.alloc(), case)?;
    }
    Ok(())
}

/// Under profile 2 the graph of the street is the same, but for the number of its profile.
#[test]
fn an_extract_is_compiled_under_profile_2(rt: HostRuntime) -> Result<(), Fail> {
    let graph = with_byte(rt.alloc(), STREET_GRAPH, 8, 2)?;
    let case = Case {
        words: &["-", "compile", "2"],
        ..compiles(STREET, Status::Done, graph.as_slice())
    };
    check(&rt, rt.alloc(), &case)?;
    Ok(())
}

#[test]
fn faults_of_extracts_are_named(rt: HostRuntime) -> Result<(), Fail> {
    let cases: [(&[u8], &[u8]); 9] = [
        (b"n1 k5", b"refused line 1 field 2 UnknownField\n"),
        (
            b"n1 v1 x180.0000001 y0",
            b"refused line 1 field 3 BadCoordinate\n",
        ),
        (
            b"n9223372036854775808 v1",
            b"refused line 1 field 1 BadNumber\n",
        ),
        (b"n1 v1 Ta=%d800%", b"refused line 1 field 3 BadEscape\n"),
        (
            b"n1 v1 Ta=b Tc=d x0 y0",
            b"refused line 1 field 4 Repeated\n",
        ),
        (b"z1", b"refused line 1 field 1 UnknownLine\n"),
        (b"\xff", b"refused line 1 field 0 NotUtf8\n"),
        // The first line in fault counts.
        (
            b"n1 dD\n\n# a note\nq1 v1\nn2 v\n",
            b"refused line 4 field 1 UnknownLine\n",
        ),
        (
            b"w1 v1 Mn1@\nn1 x0 y0\n",
            b"refused line 1 field 3 UnknownField\n",
        ),
    ];
    for (input, output) in cases {
        check(&rt, rt.alloc(), &compiles(input, Status::Refused, output))?;
    }
    Ok(())
}

/// A graph file in parts is inspected.
fn inspected(
    rt: &impl Abort,
    alloc: Global,
    parts: &[&[u8]],
    status: Status,
    output: &[u8],
) -> Result<(), NoMemory> {
    let file = joined(alloc, parts)?;
    let case = Case {
        words: &["-", "inspect"],
        ..compiles(file.as_slice(), status, output)
    };
    check(rt, alloc, &case)
}

/// A graph of version 1 is counted as that of version 2. A byte more, or pieces in another order are no graph.
#[test]
fn graph_files_are_counted(rt: HostRuntime) -> Result<(), Fail> {
    let counts = b"ways 1 pieces 2 contexts 2 arcs 2\n";
    let none = b"refused graph\n";
    let cases: [(&[&[u8]], Status, &[u8]); 6] = [
        (&[STREET_GRAPH], Status::Done, counts),
        (&[STREET_GRAPH_BEFORE], Status::Done, counts),
        (
            &[STREET_HEAD, STREET_ALONG, STREET_AGAINST, b"\0"],
            Status::Done,
            counts,
        ),
        (
            &[NO_GRAPH],
            Status::Done,
            b"ways 0 pieces 0 contexts 0 arcs 0\n",
        ),
        (&[STREET_GRAPH, b"\0"], Status::Refused, none),
        (
            &[STREET_HEAD, STREET_AGAINST, b"\0", STREET_ALONG],
            Status::Refused,
            none,
        ),
    ];
    for (parts, status, output) in cases {
        inspected(&rt, rt.alloc(), parts, status, output)?;
    }
    Ok(())
}

/// No front of a graph's bytes is a graph, but for all of them.
#[test]
fn fronts_of_graph_files_are_refused(rt: HostRuntime) -> Result<(), Fail> {
    assert_eq!(rt; STREET_GRAPH.len(), 272);
    for n in 0..272 {
        let front: &[&[u8]] = &[&STREET_GRAPH[..n]];
        inspected(&rt, rt.alloc(), front, Status::Refused, b"refused graph\n")?;
    }
    Ok(())
}

/// A note of so many bytes, and then a line in fault.
fn long_note(alloc: Global, bytes: usize) -> Result<Vec<u8>, NoMemory> {
    let mut text = vec![in alloc; b'#'; bytes]?;
    text.extend_from_slice(b"\nz")?;
    Ok(text)
}

#[test]
fn lines_have_a_limit(rt: HostRuntime) -> Result<(), Fail> {
    let most = 1usize << 24;
    let cases: [(usize, Status, &[u8]); 2] = [
        (
            most,
            Status::Refused,
            b"refused line 2 field 1 UnknownLine\n",
        ),
        (most + 1, Status::Limit, b"limit\n"),
    ];
    for (bytes, status, output) in cases {
        let text = long_note(rt.alloc(), bytes)?;
        check(&rt, rt.alloc(), &compiles(text.as_slice(), status, output))?;
    }
    Ok(())
}

#[test]
fn words_and_faults_are_answered(rt: HostRuntime) -> Result<(), Fail> {
    let good = compiles(STREET, Status::Done, STREET_GRAPH);
    let cases = [
        Case {
            words: &[],
            status: Status::Usage,
            output: USAGE,
            ..good
        },
        Case {
            words: &["-"],
            status: Status::Usage,
            output: USAGE,
            ..good
        },
        Case {
            words: &["-", "graph"],
            status: Status::Usage,
            output: USAGE,
            ..good
        },
        Case {
            words: &["-", "compile", "1"],
            status: Status::Usage,
            output: USAGE,
            ..good
        },
        Case {
            words: &[""],
            status: Status::Usage,
            output: USAGE,
            ..good
        },
        Case {
            read_fails: &[0],
            status: Status::ReadFault,
            output: b"",
            ..good
        },
        Case {
            read_fails: &[1],
            status: Status::ReadFault,
            output: b"",
            ..good
        },
        Case {
            put_fails: &[0],
            status: Status::SiteFault,
            output: b"",
            ..good
        },
    ];
    for case in &cases {
        check(&rt, rt.alloc(), case)?;
    }
    Ok(())
}
