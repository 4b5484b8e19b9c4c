//! A session, from its first read to its end.
ghost use Rattle.std.specs.Prelude.{◌≡◌, ◌≢◌, [], false, IfSome};
ghost use Rattle.session_input.specs.Holding.{Holds};
ghost use Rattle.session.specs.Conversing.{IsKept, IsReadyAt, Converses, CountsReads, CountsCalls};
ghost use Rattle.session.specs.Building.{SessionBuilds};
ghost use Rattle.session.specs.Talking.{held, replies_of, costs_of};

use crate::end::End;
use crate::following::take_part;
use crate::stores::store_laws;
use crate::talk::Talk;
use road_base::Steps;
use road_io::{Site, Source, front};
use sequence_journal::Journal;
use session_answers::Answerer;
use session_input::Input;
use std::alloc::Global;
use std::sync::ledger::Ledger;

/// How much is read at once, in bytes.
const PART: usize = 1 << 16;

/// Reads the source part by part, and answers the messages of each part before the next one is read.
fn follow<A: Answerer, S: Source, W: Site, L: Ledger>(
    talk: &mut Talk<A>,
    input: Input,
    source: &mut S,
    site: &mut W,
    steps: &mut Steps<L>,
) -> End
    requires not_closed { talk.old.journal.closed ≡ false }
    requires opens { IfSome (W.outside site.old) (IsReadyAt (held talk.old)) }
    requires empty { Holds 0 [] input }
    ensures converses { Converses (replies_of talk.old) (held talk.old) result (S.bytes_left source.old)
        (S.bytes_left source.new) (W.outside site.old) (W.outside site.new) }
    ensures builds { SessionBuilds (costs_of talk.old) (held talk.old) (result ≢ End.ReadFault)
        (S.bytes_left source.old) (S.bytes_left source.new) (W.outside site.old) steps.old steps.new }
    ensures reads { CountsReads (S.faults source.old) (S.faults source.new) result }
    ensures calls { CountsCalls (W.faults site.old) (W.faults site.new) result }
{
    store_laws();
    let Ok(mut part) = vec![in talk.alloc; 0u8; PART] else {
        return End::NoMemory;
    };
    let mut input = input;
    loop {
        let Ok(n) = source.read(&mut part) else {
            return End::ReadFault;
        };
        if n == 0 {
            return talk.finish(input, site, steps);
        }
        match take_part(talk, &mut input, front(&part, n), site, steps) {
            Ok(()) => {}
            Err(stop) => return talk.close(site, stop),
        }
    }
}

/// Answers the messages on the source until it ends, over the store on which the journal stands, by what stands for its
/// history, and keeps each accepted change in the store. It puts each reply by itself, what stands behind its line
/// after it, and what it says last: `refused unfinished N`, or `limit`. The first read or call on the site that fails
/// ends it. It builds no more blocks than its accepted frames cost.
pub fn converse<A: Answerer, S: Source, W: Site, L: Ledger>(
    alloc: Global,
    answerer: A,
    journal: Journal,
    source: &mut S,
    site: &mut W,
    steps: &mut Steps<L>,
) -> End
    requires not_closed { journal.closed ≡ false }
    requires opens { IfSome (W.outside site.old) (IsReadyAt (IsKept (A.stands answerer) journal)) }
    ensures converses { Converses (A.replies (A.fixed answerer)) (IsKept (A.stands answerer) journal) result
        (S.bytes_left source.old) (S.bytes_left source.new) (W.outside site.old) (W.outside site.new) }
    ensures builds { SessionBuilds (A.costs (A.fixed answerer)) (IsKept (A.stands answerer) journal)
        (result ≢ End.ReadFault) (S.bytes_left source.old) (S.bytes_left source.new) (W.outside site.old) steps.old
        steps.new }
    ensures reads { CountsReads (S.faults source.old) (S.faults source.new) result }
    ensures calls { CountsCalls (W.faults site.old) (W.faults site.new) result }
{
    let mut talk = Talk {
        alloc,
        answerer,
        journal,
    };
    follow(&mut talk, Input::new(alloc), source, site, steps)
}
