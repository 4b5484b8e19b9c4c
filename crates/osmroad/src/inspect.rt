//! How large a graph is, from its file.
ghost use Rattle.std.specs.Prelude.{◌≡◌, Option, Some, IfOk};
ghost use Rattle.road_io.specs.Outside.{Outside};
ghost use Rattle.drive_queries.specs.Counting.{blocks_in, totals_of};
ghost use Rattle.osmroad.specs.declared.command.Command.TheVariants.{Inspect as InspectCommand};
ghost use Rattle.osmroad.specs.Texts.{counts_line};
ghost use Rattle.osmroad.specs.Replies.{Prepares, CountsReads};

use bounded_input::gather;
use drive_queries::counts;
use graph_file::Graph;
use last_words::{Failure, LastWords, Status, refuse_input};
use reply_lines::counts_text;
use road_base::NoMemory;
use road_io::Source;
use road_model::Blocks;
use std::alloc::Global;

/// How large the graph is whose file is on the source. It touches no site. The bytes are let go before the graph is
/// counted.
pub fn inspect<S: Source>(alloc: Global, source: &mut S) -> Result<LastWords, Failure>
    ensures prepares { (outside : Option Outside) → Prepares (Some InspectCommand) result
        (S.bytes_left source.old) (S.bytes_left source.new) outside outside }
    ensures reads { CountsReads (S.faults source.old) (S.faults source.new) result }
{
    let bytes = match gather(alloc, source) {
        Ok(bytes) => bytes,
        Err(error) => return refuse_input(alloc, error),
    };
    let graph = Graph::read(alloc, &bytes)?;
    drop(bytes);
    match graph {
        Some(graph) => {
            let out = counts_line(alloc, &graph.blocks)?;
            Ok(LastWords {
                status: Status::Done,
                out,
            })
        }
        None => Ok(LastWords::fixed(alloc, Status::Refused, b"refused graph\n")?),
    }
}

/// How many blocks, pieces, contexts and arcs there are.
fn counts_line(alloc: Global, blocks: &Blocks) -> Result<Vec<u8>, NoMemory>
    ensures { IfOk result (λ line. line.items ≡ counts_line (totals_of (blocks_in blocks.now.map))) }
{
    let mut line = Vec::new(alloc);
    counts_text(&counts(blocks), &mut line)?;
    line.push(b'\n')?;
    Ok(line)
}
