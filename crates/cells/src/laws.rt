//! What compiling a map cell by cell comes to, each the contract of a function that does nothing.
ghost use Rattle.std.specs.Prelude.{List, ℕ, Some, map};
ghost use Rattle.road_base.specs.Objects.{Objects};
ghost use Rattle.access_profile.specs.Profiles.{rules_of};
ghost use Rattle.graph_merge.specs.Merging.{IsMerged};
ghost use Rattle.map_cells.specs.Cells.{AreRoads};
ghost use Rattle.cell_plan.specs.declared.cells.PlanRule.{PlanRule as PlanRuleValue};
ghost use Rattle.last_words.specs.declared.status.Status.TheVariants.{Done};
ghost use Rattle.cells.specs.declared.command.CutCell.{CutCell};
ghost use Rattle.cells.specs.declared.command.ProfileNumber.{ProfileNumber as ProfileNumberValue};
ghost use Rattle.cells.specs.declared.command.MapCommand.TheVariants.{Cell};
ghost use Rattle.cells.specs.declared.command.Command.TheVariants.{Plan, Map};
ghost use Rattle.cells.specs.Commands.{number_of};
ghost use Rattle.cells.specs.Outcomes.{Gives};
ghost use Rattle.cells.specs.WholeGraph.{HasNodesOf, ArePlannedFor, HasPartAndRest};
ghost use Rattle.cells.specs.WholeGraph.{CompiledCell, CompiledWays, IsCompiledInCells};
ghost use Rattle.cells.specs.WholeGraph.{AreAllGraphs, IsWholeGraph};
ghost use Rattle.cells.specs.Ranges.{all_bytes, MergedRange, AreMergedRanges, AreJoined, ArePutTogether};

use crate::command::ProfileNumber;
use compiled_graph::profile_of;
use graph_file::laws::one_front;
use graph_merge::laws::merged_graph;
use map_cells::laws::{empty_cells, owners, roads};
use opl_lexer::laws::one_reading;
use road_base::laws::{applied_stands, one_map};

/// A plan is made of the nodes of a map. Then each of them that is located lies in one of the plan's cells that have
/// nodes: the others needn't be compiled.
pub fn planned_cells()
    ensures { (M : Objects) (rule : PlanRuleValue) (text lines : List ℕ)
        → Gives (Some (Plan rule)) text Done lines
        → HasNodesOf M text
        → ArePlannedFor M lines }
{
    applied_stands();
    empty_cells();
}

/// What `cell` puts has what `part` and `rest` put for the same text.
pub fn part_and_rest()
    ensures { (cut : CutCell) (profile : ProfileNumberValue) (text out : List ℕ)
        → Gives (Some (Map (Cell cut profile))) text Done out
        → HasPartAndRest cut profile text out }
{}

/// Graphs may be merged range by range of way numbers: `range` cuts each of them, and `merge` merges what is cut for a
/// range. What comes of all ranges, joined, is the one merge of the graphs, however large they are together.
pub fn merged_in_ranges()
    ensures { (graphs : List (List ℕ)) (ranges : List MergedRange) (out : List ℕ)
        → AreMergedRanges graphs ranges
        → AreJoined (map (λ r. r.graph) ranges) out
        → IsMerged (all_bytes graphs) out }
{
    one_front();
}

/// A map is cut into cells; `part` compiles the own ways of each that pass, `rest` names the others, and these are cut
/// out by links and compiled by `ways`. Then all these graphs, put together, are the graph of the map, byte for byte,
/// and whoever reads it walks over the map. And where the map is what of another one has to do with roads, they are the
/// graph of that one.
pub fn whole_graph(number: ProfileNumber)
    ensures graph { (M : Objects) (cells : List CompiledCell) (cuts : List CompiledWays) (graphs : List (List ℕ))
        (out : List ℕ)
        → IsCompiledInCells M number cells cuts
        → AreAllGraphs cells cuts graphs
        → ArePutTogether graphs out
        → IsWholeGraph M (rules_of (number_of number)) out }
    ensures roads { (M R : Objects) (cells : List CompiledCell) (cuts : List CompiledWays)
        (graphs : List (List ℕ)) (out : List ℕ)
        → AreRoads M R
        → IsCompiledInCells R number cells cuts
        → AreAllGraphs cells cuts graphs
        → ArePutTogether graphs out
        → IsWholeGraph M (rules_of (number_of number)) out }
{
    let profile = profile_of(number.number());
    owners(&profile);
    roads(&profile);
    merged_graph(&profile);
    one_front();
    one_reading();
    one_map();
    merged_in_ranges();
}
