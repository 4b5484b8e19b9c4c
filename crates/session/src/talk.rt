//! What answers, with its journal.
ghost use Rattle.session.specs.Answerers.{AreReplies};

use sequence_journal::Journal;
use session_answers::Answerer;
use std::alloc::Global;

/// What answers, and the journal of the store in which the changes are kept that it follows. Contracts say what is kept
/// by the word `held`, and what lines are answered with by `replies_of`.
#[derive(Drop)]
pub struct Talk<A: Answerer> {
    pub alloc: Global,
    pub answerer: A,
    pub journal: Journal,
    /// That there is what lines are answered with. It makes this known to those words.
    ghost are: { ∥ AreReplies (A.replies (A.fixed answerer)) ∥₁ },
}
