//! Whether a drive is legal.
ghost use Rattle.std.specs.Prelude.{◌≢◌, ◌<◌, ◌∷◌, ◌++◌, [], length, IfOk, IfErr};
ghost use Rattle.road_model.specs.Networks.{map_of, on};
ghost use Rattle.turn_automata.specs.Machines.{Watches};
ghost use Rattle.drive_judging.specs.WordTables.{IsTableOf};
ghost use Rattle.drive_judging.specs.DriveLines.{AreLinesOn};
ghost use Rattle.drive_judging.specs.DeadEnds.{AreLeaving};
ghost use Rattle.drive_judging.specs.DriveWords.{AreInWordOrder};
ghost use Rattle.drive_judging.specs.Judging.{Breaks, HasWords, KeepsOn};
ghost use Rattle.drive_judging.specs.Verdicts.{IsVerdict, broken_rule};

use crate::step_rules::step_rule;
use crate::verdict::{Rule, Verdict};
use crate::word_rules::word_rule;
use crate::word_table::WordTable;
use road_base::Step;
use road_model::laws::{drive_grows, drive_parts};
use road_model::{Network, Profile, World};
use turn_automata::State;
use turn_automata::laws::unstopped_is_demanded;

/// Whether the drive, which isn't empty, is legal, and else the first step with which it isn't and the first rule that
/// it breaks there. The table is the drive's own. Takes no memory.
///
/// Takes for each step of the drive a few look-ups, each at the logarithm of what there is, and one step of the table's
/// automaton. The words are compared with the last step alone, and only where they stop it.
pub fn judge<M: World, P: Profile>(
    world: &M,
    profile: &P,
    table: &WordTable,
    drive: &[Step],
) -> Verdict
    requires some { drive.now ≢ [] }
    requires own { IsTableOf (M.objects world.now) (P.rules profile.now) drive.now table.now }
    ensures { IsVerdict (M.objects world.now) (P.rules profile.now) drive.now result }
{
    judge_on(&Network::new(world, *profile), table, drive)
}

/// Whether the drive is legal on the network.
fn judge_on<M: World, P: Profile>(
    network: &Network<'_, M, P>,
    table: &WordTable,
    drive: &[Step],
) -> Verdict
    requires some { drive.now ≢ [] }
    requires own { on network.now IsTableOf drive.now table.now }
    ensures { on network.now IsVerdict drive.now result }
{
    drive_grows(&network.profile);
    drive_parts(&network.profile);
    table.automaton.closed();
    let mut state = State(0);
    for at in 0..drive.len() {
        match judge_step(network, table, state, &drive[..at], drive[at]) {
            Ok(next) => state = next,
            Err(rule) => {
                return Verdict::Broken {
                    step: at as u64 + 1,
                    rule,
                };
            }
        }
    }
    Verdict::Legal
}

/// The state behind the step, or the first rule that it breaks behind the steps before.
fn judge_step<M: World, P: Profile>(
    network: &Network<'_, M, P>,
    table: &WordTable,
    state: State,
    before: &[Step],
    step: Step,
) -> Result<State, Rule>
    requires known { state.0 < length table.now.automaton.states }
    requires watches { Watches table.now.automaton state.0 before.now }
    requires sorted { AreInWordOrder table.now.automaton.words }
    requires words { on network.now HasWords (before.now ++ step ∷ []) table.now.automaton.words }
    requires lines { AreLinesOn (map_of network.now) table.now.lines (before.now ++ step ∷ []) }
    requires leaving { on network.now AreLeaving table.now.leaving }
    ensures known { IfOk result (λ next. next.0 < length table.now.automaton.states) }
    ensures watches { IfOk result (λ next. Watches table.now.automaton next.0 (before.now ++ step ∷ [])) }
    ensures goes { IfOk result (λ next. on network.now KeepsOn before.now step) }
    ensures breaks { IfErr result (λ rule. on network.now Breaks before.now step (broken_rule rule)) }
{
    unstopped_is_demanded();
    if let Some(rule) = step_rule(network, table, before, step) {
        return Err(rule);
    }
    match table.automaton.go(state, step) {
        Some(next) => Ok(next),
        None => Err(word_rule(&table.automaton, state, before, step)),
    }
}
