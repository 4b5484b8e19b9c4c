//! An extract compiled without a store.
ghost use Rattle.std.specs.Prelude.{Option, Some};
ghost use Rattle.road_base.specs.Profiles.{IsProfile};
ghost use Rattle.road_io.specs.Outside.{Outside};
ghost use Rattle.osmroad.specs.declared.command.Command.TheVariants.{Compile as CompileCommand};
ghost use Rattle.osmroad.specs.Run.{Builds};
ghost use Rattle.osmroad.specs.Replies.{Prepares, CountsReads};

use bounded_input::read_events;
use compiled_graph::{graph_of, profile_of};
use last_words::{Failure, LastWords, Status, refuse_input};
use opl_lexer::Mode;
use opl_lexer::laws::one_reading;
use road_base::Steps;
use road_io::Source;
use std::alloc::Global;
use std::sync::ledger::Ledger;

/// The graph of the extract on the source, of the profile of this number. It touches no site.
pub fn compile<S: Source, L: Ledger>(
    alloc: Global,
    profile: u32,
    source: &mut S,
    steps: &mut Steps<L>,
) -> Result<LastWords, Failure>
    requires { IsProfile profile }
    ensures prepares { (outside : Option Outside) → Prepares (Some (CompileCommand profile)) result
        (S.bytes_left source.old) (S.bytes_left source.new) outside outside }
    ensures reads { CountsReads (S.faults source.old) (S.faults source.new) result }
    ensures built { (outside : Option Outside)
        → Builds (Some (CompileCommand profile)) (S.bytes_left source.old) outside steps.old steps.new }
{
    one_reading();
    let events = match read_events(alloc, Mode::Extract, source) {
        Ok(events) => events,
        Err(error) => return refuse_input(alloc, error),
    };
    let out = graph_of(alloc, profile_of(profile), events, steps)?;
    Ok(LastWords {
        status: Status::Done,
        out,
    })
}
