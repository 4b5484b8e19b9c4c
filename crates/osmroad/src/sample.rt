//! How large the graphs of a town and of its changes are.
ghost use Rattle.std.specs.Prelude.{◌≡◌, ◌+◌, ◌<◌, ℕ, List, [], Option, Some, IfOk, OnOk, length};
ghost use Rattle.std.specs.FinMap.{empty};
ghost use Rattle.road_base.specs.declared.event.Event.{Event};
ghost use Rattle.road_base.specs.Applying.{IsApplied};
ghost use Rattle.road_base.specs.Profiles.{IsProfile};
ghost use Rattle.road_model.specs.declared.blocks.Block.{Block};
ghost use Rattle.road_model.specs.Format.{IsGraphFile};
ghost use Rattle.road_io.specs.Outside.{Outside};
ghost use Rattle.graph_file.specs.GraphReading.{IsFile};
ghost use Rattle.drive_queries.specs.Counting.{totals_of};
ghost use Rattle.sample_town.specs.Lists.{next_list, after_list};
ghost use Rattle.osmroad.specs.declared.command.Command.TheVariants.{Sample as SampleCommand};
ghost use Rattle.osmroad.specs.Texts.{sample_line};
ghost use Rattle.access_profile.specs.Profiles.{rules_of};
ghost use Rattle.osmroad.specs.Sampling.{IsSampleLine, IsSample, Led};
ghost use Rattle.osmroad.specs.Replies.{Prepares};

use crate::profiles::FIRST_PROFILE;
use change_apply::Engine;
use compiled_graph::profile_of;
use drive_queries::{Totals, counts};
use graph_file::{Graph, VERSION, write};
use last_words::{Failure, LastWords, Status};
use reply_lines::counts_text;
use road_base::laws::applied_in_turn;
use road_base::{NoMemory, Steps};
use road_model::Profile;
use sample_town::Town;
use std::alloc::Global;
use std::sync::ledger::Ledger;

/// The base and the ten changes.
const LISTS: u32 = 11;

/// The lines of the town that is made from this number. It touches neither source nor site.
pub fn sample<L: Ledger>(
    alloc: Global,
    number: u64,
    steps: &mut Steps<L>,
) -> Result<LastWords, Failure>
    ensures { (held : Option (List ℕ)) (outside : Option Outside)
        → Prepares (Some (SampleCommand number)) result held held outside outside }
{
    let out = sample_text(alloc, number, steps)?;
    Ok(LastWords {
        status: Status::Done,
        out,
    })
}

/// A line for each list of the town: how large the graph is to which the lists lead up to this one.
fn sample_text<L: Ledger>(
    alloc: Global,
    number: u64,
    steps: &mut Steps<L>,
) -> Result<Vec<u8>, NoMemory>
    ensures { IfOk result (λ text. IsSample (rules_of 1) number text.items) }
{
    let mut town = Town::new(alloc, number);
    let mut engine = Engine::load(alloc, profile_of(FIRST_PROFILE), Vec::new(alloc), steps)?;
    all_lines(alloc, &mut town, &mut engine, steps)
}

/// The lines of a town that gave no list yet, where the engine has no objects.
fn all_lines<P: Profile, L: Ledger>(
    alloc: Global,
    town: &mut Town,
    engine: &mut Engine<P>,
    steps: &mut Steps<L>,
) -> Result<Vec<u8>, NoMemory>
    requires { IsProfile (P.rules engine.old.profile).number }
    ensures { IfOk result (λ text. (n : ℕ)
        → Led (P.rules engine.old.profile) n 0 town.old engine.old.world []
        → IsSample (P.rules engine.old.profile) n text.items) }
{
    let mut text = Vec::new(alloc);
    for change in 0..LISTS {
        add_line(alloc, change, town, engine, &mut text, steps)?;
    }
    Ok(text)
}

/// Applies the town's next list, and adds the line of what the engine has come to.
fn add_line<P: Profile, L: Ledger>(
    alloc: Global,
    change: u32,
    town: &mut Town,
    engine: &mut Engine<P>,
    text: &mut Vec<u8>,
    steps: &mut Steps<L>,
) -> Result<(), NoMemory>
    requires { IsProfile (P.rules engine.old.profile).number }
    ensures led { OnOk result ((n : ℕ) → change < 11
        → Led (P.rules engine.old.profile) n change town.old engine.old.world text.old.items
        → Led (P.rules engine.old.profile) n (change + 1) town.new engine.new.world text.new.items) }
    ensures profile { engine.new.profile ≡ engine.old.profile }
{
    applied_in_turn();
    apply_next(town, engine, steps)?;
    let line = line_of(alloc, change, engine)?;
    text.extend_from_slice(&line)?;
    Ok(())
}

/// Applies the town's next list.
fn apply_next<P: Profile, L: Ledger>(
    town: &mut Town,
    engine: &mut Engine<P>,
    steps: &mut Steps<L>,
) -> Result<(), NoMemory>
    ensures town { OnOk result (town.new ≡ after_list town.old) }
    ensures applied { OnOk result (IsApplied engine.old.world (next_list town.old) engine.new.world) }
    ensures profile { engine.new.profile ≡ engine.old.profile }
{
    let events = town.events()?;
    engine.apply(&events, steps)?;
    Ok(())
}

/// The line of what the engine has come to.
fn line_of<P: Profile>(alloc: Global, change: u32, engine: &Engine<P>) -> Result<Vec<u8>, NoMemory>
    requires { IsProfile (P.rules engine.now.profile).number }
    ensures { IfOk result (λ line. (events : List Event)
        → IsApplied empty events engine.now.world
        → IsSampleLine (P.rules engine.now.profile) change events line.items) }
{
    let mut graph = Vec::new(alloc);
    write(
        VERSION,
        engine.profile().number(),
        engine.blocks(),
        &mut graph,
    )?;
    let totals = totals_of(alloc, &graph)?;
    sample_line(alloc, change, &totals, graph.len())
}

/// How large the graph is whose file has these bytes.
fn totals_of(alloc: Global, bytes: &[u8]) -> Result<Totals, NoMemory>
    requires { IsGraphFile bytes.now }
    ensures { IfOk result (λ totals. (version : ℕ) × (profile : ℕ) × (blocks : List Block)
        × IsFile version profile bytes.now blocks
        × (totals ≡ totals_of blocks)) }
{
    match Graph::read(alloc, bytes)? {
        Some(graph) => Ok(counts(&graph.blocks)),
        None => unreachable!(),
    }
}

/// `sample Q ways W pieces P contexts C arcs A bytes LEN`.
fn sample_line(
    alloc: Global,
    change: u32,
    totals: &Totals,
    length: usize,
) -> Result<Vec<u8>, NoMemory>
    ensures { IfOk result (λ line. line.items ≡ sample_line change totals.now length) }
{
    let mut line = format!(in alloc; "sample {change} ")?.into_bytes();
    counts_text(totals, &mut line)?;
    let end = format!(in alloc; " bytes {length}\n")?;
    line.extend_from_slice(end.as_bytes())?;
    Ok(line)
}
