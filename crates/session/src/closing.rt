//! How a session ends.
ghost use Rattle.std.specs.Prelude.{◌≡◌, ◌≢◌, ◌⊎◌, ℕ, List, Option, Bool, Err, IfSome, false, true};
ghost use Rattle.road_io.specs.Outside.{Outside};
ghost use Rattle.session.specs.Conversing.{SessionEnds, CountsCalls};
ghost use Rattle.session.specs.Building.{BuildsFew, BuildsLast};
ghost use Rattle.session.specs.Answering.{CountsStops};
ghost use Rattle.session.specs.Following.{Since, Closes, Halts, IsHalted};
ghost use Rattle.session.specs.Talking.{AnswersAs, IsGoing, IsBuilding, held, replies_of, costs_of};

use crate::end::End;
use crate::putting::put_chunk;
use crate::stop::Stop;
use crate::stores::store_laws;
use crate::talk::Talk;
use road_base::Steps;
use road_io::Site;
use session_answers::{Answerer, unfinished};
use session_input::{Input, InputEnd};
use std::sync::ledger::Ledger;

impl<A: Answerer> Talk<A> {
    /// Puts what is said last.
    fn say_last<W: Site>(&self, site: &mut W, line: &[u8], end: End) -> End
        requires { (end ≡ End.Unfinished) ⊎ (end ≡ End.Limit) }
        ensures ends { (start : _) (read : List ℕ) (ended : Bool) (x : Option Outside)
            → AnswersAs start self.now
            → Since (held start) (λ opening w v. Closes (replies_of start) opening read ended end line.now w v) x
            (W.outside site.old)
            → Since (held start) (λ opening w v. SessionEnds (replies_of start) opening read ended result w v) x
            (W.outside site.new) }
        ensures calls { CountsCalls (W.faults site.old) (W.faults site.new) result }
        ensures named { (result ≡ end) ⊎ (result ≡ End.SiteFault) }
    {
        store_laws();
        match put_chunk(site, line) {
            Ok(()) => end,
            Err(_) => End::SiteFault,
        }
    }

    /// Ends a session that doesn't go on.
    pub fn close<W: Site>(&self, site: &mut W, stop: Stop) -> End
        ensures ends { (start : _) (read : List ℕ) (ended : Bool) (x : Option Outside)
            → AnswersAs start self.now
            → Since (held start) (λ opening w v. Halts (replies_of start) opening read ended stop w v) x
            (W.outside site.old)
            → Since (held start) (λ opening w v. SessionEnds (replies_of start) opening read ended result w v) x
            (W.outside site.new) }
        ensures calls { (before : ℕ)
            → CountsStops {T = Unit {0}} before (W.faults site.old) (Err stop)
            → CountsCalls before (W.faults site.new) result }
        ensures named { IsHalted result }
    {
        match stop {
            Stop::SiteFault => End::SiteFault,
            Stop::Limit => self.say_last(site, b"limit\n", End::Limit),
            Stop::NoMemory => End::NoMemory,
        }
    }

    /// Ends a session whose input ends here: answers the last message where its last line has no newline.
    pub fn finish<W: Site, L: Ledger>(
        &mut self,
        input: Input,
        site: &mut W,
        steps: &mut Steps<L>,
    ) -> End
        requires not_closed { self.old.journal.closed ≡ false }
        requires goes { (start : _) × (read : List ℕ) × (x : Option Outside)
            × IsGoing start self.old read input x (W.outside site.old) }
        ensures ends { (start : _) (read : List ℕ) (x : Option Outside)
            → IsGoing start self.old read input x (W.outside site.old)
            → Since (held start) (λ opening w v. SessionEnds (replies_of start) opening read true result w v) x
            (W.outside site.new) }
        ensures builds { IfSome (W.outside site.old) (λ w. (start : _) (opening : _) (read : List ℕ) (first : ℕ)
            → IsBuilding start self.old opening read input first steps.old w
            → BuildsFew (costs_of start) opening read first steps.new
            ⊎ BuildsLast (costs_of start) opening read first steps.new) }
        ensures calls { CountsCalls (W.faults site.old) (W.faults site.new) result }
        ensures named { result ≢ End.ReadFault }
    {
        store_laws();
        match input.finish() {
            Err(_) => End::NoMemory,
            Ok(InputEnd::Done) => End::Done,
            Ok(InputEnd::Unfinished(number)) => match unfinished(self.alloc, number) {
                Ok(line) => self.say_last(site, &line, End::Unfinished),
                Err(_) => End::NoMemory,
            },
            Ok(InputEnd::Last(received)) => match self.answer(&received, site, steps) {
                Ok(()) => End::Done,
                Err(stop) => self.close(site, stop),
            },
        }
    }
}
