//! Laws of sessions, each the contract of a function that does nothing.
ghost use Rattle.std.specs.Prelude.{[], false};
ghost use Rattle.road_io.specs.Outside.{Outside};
ghost use Rattle.sequence_journal.specs.declared.journal.Journal.{Journal};
ghost use Rattle.store_switch.specs.TwoFiles.{IsOnStore};
ghost use Rattle.session.specs.declared.end.End.TheVariants.{NoMemory};
ghost use Rattle.session.specs.Conversation.{Kept};
ghost use Rattle.session.specs.Conversing.{SessionEnds};

use crate::stores::store_laws;
use session_answers::Answerer;

/// A session for which no memory is found ends with nothing read and nothing put, whatever would have answered it.
pub fn nothing_read<A: Answerer>()
    ensures { (fixed : A.Fixed) (opening : Kept A.Beside) (journal : Journal) (w : Outside)
        → IsOnStore journal opening.history w
        → SessionEnds (A.replies fixed) opening [] false NoMemory w w }
{
    store_laws();
}
