//! A session's messages, as they come.
ghost use Rattle.std.specs.Prelude.{◌≡◌, ◌≢◌, ◌≤◌, ◌^◌, ◌++◌, ℕ, List, [], Option, false, length, take, IfOk, IfErr};
ghost use Rattle.std.specs.Prelude.{IfSome, OnOk};
ghost use Rattle.road_io.specs.Outside.{Outside};
ghost use Rattle.road_io.specs.Told.{Told};
ghost use Rattle.session.specs.Building.{BuildsFew};
ghost use Rattle.session.specs.Answering.{CountsStops};
ghost use Rattle.session.specs.Following.{Since, Halts};
ghost use Rattle.session.specs.Talking.{IsGoing, IsBuilding, held, replies_of, costs_of, fixed_of};

use crate::stop::Stop;
use crate::talk::Talk;
use road_base::Steps;
use road_io::{Site, behind};
use session_answers::Answerer;
use session_input::{Input, InputStop};
use std::sync::ledger::Ledger;

/// Takes the next line of the part, or all of it, and answers the message that it ends. Answers how much was taken.
pub fn take_next<A: Answerer, W: Site, L: Ledger>(
    talk: &mut Talk<A>,
    input: &mut Input,
    part: &[u8],
    site: &mut W,
    steps: &mut Steps<L>,
) -> Result<usize, Stop>
    requires not_closed { talk.old.journal.closed ≡ false }
    requires small { length part.now ≤ 2 ^ 16 }
    requires goes { (start : _) × (read : List ℕ) × (x : Option Outside)
        × IsGoing start talk.old read input.old x (W.outside site.old) }
    ensures used { IfOk result (λ n. n ≤ length part.now) }
    ensures some { IfOk result (λ n. part.now ≢ [] → n ≢ 0) }
    ensures goes { IfOk result (λ n. (start : _) (read : List ℕ) (x : Option Outside)
        → IsGoing start talk.old read input.old x (W.outside site.old)
        → IsGoing start talk.new (read ++ take n part.now) input.new x (W.outside site.new)) }
    ensures halts { IfErr result (λ e. (start : _) (read : List ℕ) (x : Option Outside)
        → IsGoing start talk.old read input.old x (W.outside site.old)
        → Since (held start) (λ opening w v. Halts (replies_of start) opening (read ++ part.now) false e w v) x
        (W.outside site.new)) }
    ensures builds { IfOk result (λ n. Told (λ w v. (start : _) (opening : _) (read : List ℕ) (first : ℕ)
        → IsBuilding start talk.old opening read input.old first steps.old w
        → IsBuilding start talk.new opening (read ++ take n part.now) input.new first steps.new v)
        (W.outside site.old) (W.outside site.new)) }
    ensures few { IfErr result (λ e. IfSome (W.outside site.old) (λ w. (start : _) (opening : _) (read : List ℕ)
        (first : ℕ) → IsBuilding start talk.old opening read input.old first steps.old w
        → BuildsFew (costs_of start) opening (read ++ part.now) first steps.new)) }
    ensures calls { CountsStops (W.faults site.old) (W.faults site.new) result }
    ensures not_closed { OnOk result (talk.new.journal.closed ≡ false) }
    ensures fixed { fixed_of talk.new ≡ fixed_of talk.old }
{
    match input.take(part) {
        Err(InputStop::TooLong) => Err(Stop::Limit),
        Err(InputStop::NoMemory) => Err(Stop::NoMemory),
        Ok(taken) => match &taken.received {
            None => Ok(taken.used),
            Some(received) => match talk.answer(received, site, steps) {
                Ok(()) => Ok(taken.used),
                Err(stop) => Err(stop),
            },
        },
    }
}

/// Takes all of the part, and answers the messages that it ends, each before the next one is looked at.
pub fn take_part<A: Answerer, W: Site, L: Ledger>(
    talk: &mut Talk<A>,
    input: &mut Input,
    part: &[u8],
    site: &mut W,
    steps: &mut Steps<L>,
) -> Result<(), Stop>
    requires not_closed { talk.old.journal.closed ≡ false }
    requires small { length part.now ≤ 2 ^ 16 }
    requires goes { (start : _) × (read : List ℕ) × (x : Option Outside)
        × IsGoing start talk.old read input.old x (W.outside site.old) }
    ensures goes { OnOk result ((start : _) (read : List ℕ) (x : Option Outside)
        → IsGoing start talk.old read input.old x (W.outside site.old)
        → IsGoing start talk.new (read ++ part.now) input.new x (W.outside site.new)) }
    ensures halts { IfErr result (λ e. (start : _) (read : List ℕ) (x : Option Outside)
        → IsGoing start talk.old read input.old x (W.outside site.old)
        → Since (held start) (λ opening w v. Halts (replies_of start) opening (read ++ part.now) false e w v) x
        (W.outside site.new)) }
    ensures builds { OnOk result (Told (λ w v. (start : _) (opening : _) (read : List ℕ) (first : ℕ)
        → IsBuilding start talk.old opening read input.old first steps.old w
        → IsBuilding start talk.new opening (read ++ part.now) input.new first steps.new v)
        (W.outside site.old) (W.outside site.new)) }
    ensures few { IfErr result (λ e. IfSome (W.outside site.old) (λ w. (start : _) (opening : _) (read : List ℕ)
        (first : ℕ) → IsBuilding start talk.old opening read input.old first steps.old w
        → BuildsFew (costs_of start) opening (read ++ part.now) first steps.new)) }
    ensures calls { CountsStops (W.faults site.old) (W.faults site.new) result }
    ensures not_closed { OnOk result (talk.new.journal.closed ≡ false) }
    ensures fixed { fixed_of talk.new ≡ fixed_of talk.old }
{
    let mut used = 0;
    while used < part.len() {
        match take_next(talk, input, behind(part, used), site, steps) {
            Ok(more) => used += more,
            Err(stop) => return Err(stop),
        }
    }
    Ok(())
}
