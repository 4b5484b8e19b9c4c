//! What is made of graphs.
ghost use Rattle.std.specs.Prelude.{◌≡◌, IfOk, IfErr};
ghost use Rattle.bounded_input.specs.Limits.{HasTooManyBytes};
ghost use Rattle.graph_merge.specs.Merging.{IfFault};
ghost use Rattle.cells.specs.declared.command.Command.TheVariants.{Graphs};
ghost use Rattle.cells.specs.Outcomes.{IsMadeOfGraphs, IsRefusedGraph};
ghost use Rattle.cells.specs.Replies.{Prepares, CountsReads, Answers};

use crate::command::GraphCommand;
use crate::texts::fault_text;
use bounded_input::gather;
use graph_merge::{MergeError, merge, range};
use last_words::{Failure, LastWords, Status, refuse_input};
use road_io::Source;
use std::alloc::Global;

/// What the command makes of the graphs on the source. It touches no site.
pub fn make_of_graphs<S: Source>(
    alloc: Global,
    command: GraphCommand,
    source: &mut S,
) -> Result<LastWords, Failure>
    ensures prepares { Prepares (Graphs command) result (S.bytes_left source.old) (S.bytes_left source.new) }
    ensures reads { CountsReads (S.faults source.old) (S.faults source.new) result }
{
    match gather(alloc, source) {
        Ok(bytes) => answer(alloc, command, bytes),
        Err(error) => refuse_input(alloc, error),
    }
}

/// What the command makes of these bytes, or why it doesn't.
fn answer(alloc: Global, command: GraphCommand, bytes: Vec<u8>) -> Result<LastWords, Failure>
    requires { HasTooManyBytes bytes.items → ⊥ }
    ensures { Answers (Graphs command) bytes.items result }
{
    match made(alloc, command, bytes) {
        Ok(out) => Ok(LastWords {
            status: Status::Done,
            out,
        }),
        Err(MergeError::Fault(fault)) => {
            let line = fault_text(alloc, fault)?;
            Ok(LastWords::new(Status::Refused, line))
        }
        Err(MergeError::NoMemory) => Err(Failure::NoMemory),
    }
}

/// The merge of the graphs, or the blocks of a range.
fn made(alloc: Global, command: GraphCommand, bytes: Vec<u8>) -> Result<Vec<u8>, MergeError>
    ensures ok { IfOk result (λ out. IsMadeOfGraphs command bytes.items out.items) }
    ensures err { IfErr result (IfFault (IsRefusedGraph command bytes.items)) }
{
    match command {
        GraphCommand::Range(from, to) => range(alloc, bytes, from, to),
        GraphCommand::Merge => merge(alloc, bytes),
    }
}
