//! The one top call: what the program does for its words, over any source and site.
ghost use Rattle.std.specs.Prelude.{◌≡◌, ◌⊎◌, ◌<◌, List, ℕ, map, Some};
ghost use Rattle.road_io.specs.Told.{Rose};
ghost use Rattle.cells.specs.Commands.{asked};
ghost use Rattle.cells.specs.Run.{MayEnd, Ends, TouchesNoFile, CanBeDone, Builds};
ghost use Rattle.cells.specs.Replies.{Prepares, CountsReads};

use crate::command::{Command, asked};
use crate::graphs::make_of_graphs;
use crate::made::make;
use crate::plan::plan_cells;
use graph_merge::laws::one_merge;
use last_words::{Failure, LastWords, Status, put_last};
use road_base::{NoMemory, Steps};
use road_io::{Site, Source};
use std::alloc::Global;
use std::sync::ledger::Ledger;

/// The last line where the words aren't known.
const USAGE: &[u8] =
    b"usage: cells plan NODES [METRES]|part BOX CELL [2]|rest BOX CELL|cell BOX CELL [2]|\
ways PROFILE WAY..|range FROM TO|merge\n";

// What the command puts, before it is put.
fn prepare<S: Source, L: Ledger>(
    alloc: Global,
    command: &Command,
    source: &mut S,
    steps: &mut Steps<L>,
) -> Result<LastWords, Failure>
    ensures prepares { Prepares command.now result (S.bytes_left source.old) (S.bytes_left source.new) }
    ensures reads { CountsReads (S.faults source.old) (S.faults source.new) result }
    ensures built { Builds (Some command.now) (S.bytes_left source.old) steps.old steps.new }
{
    match command {
        Command::Plan(rule) => plan_cells(alloc, *rule, source),
        Command::Map(made) => make(alloc, made, source, steps),
        Command::Graphs(made) => make_of_graphs(alloc, *made, source),
    }
}

// Does what the command says. Its clauses are those of `run`.
fn run_command<S: Source, W: Site, L: Ledger>(
    alloc: Global,
    command: &Command,
    source: &mut S,
    site: &mut W,
    steps: &mut Steps<L>,
) -> Status
    ensures ends { Ends (Some command.now) result (S.bytes_left source.old) (S.bytes_left source.new)
        (W.outside site.old) (W.outside site.new) }
    ensures named { MayEnd (Some command.now) result }
    ensures untouched { TouchesNoFile (W.outside site.old) (W.outside site.new) }
    ensures read_fault { result ≡ Status.ReadFault → Rose (S.faults source.old) (S.faults source.new) }
    ensures site_fault { result ≡ Status.SiteFault → Rose (W.faults site.old) (W.faults site.new) }
    ensures each_read_fault { S.faults source.old < S.faults source.new → result ≡ Status.ReadFault }
    ensures each_site_fault { W.faults site.old < W.faults site.new → result ≡ Status.SiteFault }
    ensures complete { (bytes : List ℕ) → S.bytes_left source.old ≡ Some bytes
        → CanBeDone (Some command.now) bytes
        → (Rose (S.faults source.old) (S.faults source.new) → ⊥)
        → (Rose (W.faults site.old) (W.faults site.new) → ⊥)
        → (result ≡ Status.Done) ⊎ (result ≡ Status.NoMemory) }
    ensures built { Builds (Some command.now) (S.bytes_left source.old) steps.old steps.new }
{
    one_merge();
    match prepare(alloc, command, source, steps) {
        Ok(reply) => put_last(site, &reply.out, reply.status),
        Err(failure) => failure.status(),
    }
}

/// Does what the words ask, reading from the source and putting to the site, and answers how it ended. It returns for
/// any words, source and site: a source that never ends is left as soon as it passed a limit. The first read or put
/// that fails ends it: nothing is tried again.
///
/// `plan NODES [METRES]` puts a line for each cell of the nodes on the source, `CELL BOX COUNT`; its text has no limit
/// that a map reaches, but 2^24 bytes in a line. `part BOX CELL [2]` puts the graph of those ways of the cell that can
/// be told to be the map's from the area that was cut, under profile 1 or 2, `rest BOX CELL` a line for each other way
/// of the cell, `cell BOX CELL [2]` the graph of `part`, a newline, a line `w12` for each of its ways, the lines of
/// `rest`, and a line `NODES PASSING FAILING` of how many nodes lie in the cell and how many of its ways pass and fail,
/// and `ways PROFILE WAY..` the graph of these ways; their text has at most 2^30 bytes. `range FROM TO` puts the blocks
/// of ways from FROM on and below TO of the graph on the source, and `merge` one graph with the blocks of the graphs on
/// the source, one behind the other; these have at most 2^30 bytes. `steps` rises by one for each block that is built.
/// Other words are answered by the usage line. What all of it is good for is the law `whole_graph`.
pub fn run<S: Source, W: Site, L: Ledger>(
    alloc: Global,
    words: &[&str],
    source: &mut S,
    site: &mut W,
    steps: &mut Steps<L>,
) -> Status
    // What is read and put, by the status.
    ensures ends { Ends (asked (map (λ w. w.now) words.now)) result (S.bytes_left source.old)
        (S.bytes_left source.new) (W.outside site.old) (W.outside site.new) }

    // A command has its own statuses, whatever source and site.
    ensures named { MayEnd (asked (map (λ w. w.now) words.now)) result }

    // No file is touched.
    ensures untouched { TouchesNoFile (W.outside site.old) (W.outside site.new) }

    // A fault is answered only where it came, and where one came it is answered.
    ensures read_fault { result ≡ Status.ReadFault → Rose (S.faults source.old) (S.faults source.new) }
    ensures site_fault { result ≡ Status.SiteFault → Rose (W.faults site.old) (W.faults site.new) }
    ensures each_read_fault { S.faults source.old < S.faults source.new → result ≡ Status.ReadFault }
    ensures each_site_fault { W.faults site.old < W.faults site.new → result ≡ Status.SiteFault }

    // Where the words, the bytes and the outside are good, it is done, or memory ended.
    ensures complete { (bytes : List ℕ) → S.bytes_left source.old ≡ Some bytes
        → CanBeDone (asked (map (λ w. w.now) words.now)) bytes
        → (Rose (S.faults source.old) (S.faults source.new) → ⊥)
        → (Rose (W.faults site.old) (W.faults site.new) → ⊥)
        → (result ≡ Status.Done) ⊎ (result ≡ Status.NoMemory) }

    // No more blocks are built than there are ways to be written.
    ensures built { Builds (asked (map (λ w. w.now) words.now)) (S.bytes_left source.old) steps.old steps.new }
{
    match asked(alloc, words) {
        Ok(Some(command)) => run_command(alloc, &command, source, site, steps),
        Ok(None) => put_last(site, USAGE, Status::Usage),
        Err(NoMemory) => Status::NoMemory,
    }
}
