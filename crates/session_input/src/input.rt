//! A session's bytes, taken line by line.
ghost use Rattle.std.specs.Prelude.{◌≡◌, ◌≤◌, ◌<◌, ◌⊎◌, ◌+◌, ◌-◌, ◌++◌, ◌^◌, [], ◌∷◌, ℕ, List, length, take, vec_len};
ghost use Rattle.std.specs.Prelude.{IfOk, IfErr, IfSome, IfNone, OnOk};
ghost use Rattle.opl_lexer.specs.Letters.{newline};
ghost use Rattle.opl_lexer.specs.Parts.{Lacks};
ghost use Rattle.session_input.specs.Sizes.{frame_size};

use crate::line::Line;
use crate::lines::{first_line, held_line, lent_line};
use crate::next::{Behind, take_inside, take_outside};
use crate::open_frame::OpenFrame;
use crate::received::{InputEnd, InputStop, Received};
use std::alloc::Global;
use std::mem::replace;

/// The line and the frame of a session that haven't ended yet.
#[derive(Drop)]
pub struct Input {
    alloc: Global,
    /// The line that hasn't ended.
    held: Vec<u8>,
    /// The frame that hasn't ended.
    frame: Option<OpenFrame>,
    /// How many bytes were taken.
    total: u64,
    ghost line_fits: { vec_len held ≤ 2 ^ 24 },
    ghost frame_fits: { frame_size frame + vec_len held ≤ 2 ^ 30 },
    ghost session_fits: { total ≤ 2 ^ 40 },
}

/// The longest line, in bytes, without its newline.
const LINE_LIMIT: usize = 16_777_216;

/// The longest frame, in bytes behind its first line.
const FRAME_LIMIT: usize = 1_073_741_824;

/// The longest session, in bytes.
const SESSION_LIMIT: u64 = 1_099_511_627_776;

/// How much of a part was taken, and the message that it ended, if it ended one.
#[derive(Drop)]
pub struct Taken<'a> {
    pub used: usize,
    pub received: Option<Received<'a>>,
}

impl Input {
    ghost use Rattle.session_input.specs.Reading.{Receives, StopsAt, IsEnding};
    ghost use Rattle.session_input.specs.Messages.{line_text};
    ghost use Rattle.session_input.specs.Texts.{text_of};
    ghost use Rattle.session_input.specs.Holding.{HasRoom, HasFrame, Holds, IsWholeLine, IsFront, LeadsTo, next_size};

    /// Nothing was taken. Takes no memory.
    pub fn new(alloc: Global) -> Input
        ensures { Holds 0 [] result }
    {
        Input {
            alloc,
            held: Vec::new(alloc),
            frame: None,
            total: 0,
        }
    }

    /// Takes the next line of the part, or all of the part where no line of it ends.
    pub fn take<'a>(&mut self, part: &'a [u8]) -> Result<Taken<'a>, InputStop>
        ensures used { IfOk result (λ t. t.used ≤ length part.now) }
        ensures received { IfOk result (λ t. IfSome t.received (λ r. (before : ℕ) (bytes : List ℕ)
            → Holds before bytes self.old
            → Receives before r (bytes ++ take t.used part.now)
            × Holds (before + length (bytes ++ take t.used part.now)) [] self.new)) }
        ensures more { IfOk result (λ t. IfNone t.received ((before : ℕ) (bytes : List ℕ)
            → Holds before bytes self.old
            → Holds before (bytes ++ take t.used part.now) self.new)) }
        ensures goes_on { IfOk result (λ t. (part.now ≡ []) ⊎ (0 < t.used)) }
        ensures stopped { IfErr result (λ e. (before : ℕ) (bytes : List ℕ)
            → Holds before bytes self.old
            → StopsAt e before (bytes ++ part.now)) }
    {
        let Some(line) = first_line(part) else {
            self.check(part.len(), 0)?;
            self.hold(part)?;
            return Ok(Taken {
                used: part.len(),
                received: None,
            });
        };
        self.check(line.len() - 1, 1)?;
        Ok(Taken {
            used: line.len(),
            received: self.receive_line(line)?,
        })
    }

    /// The input ends here.
    pub fn finish(self) -> Result<InputEnd, InputStop>
        ensures ended { IfOk result (λ ending. (before : ℕ) (bytes : List ℕ)
            → Holds before bytes self
            → IsEnding bytes ending) }
        ensures stopped { IfErr result (λ e. e ≡ InputStop.NoMemory) }
    {
        let frame = self.frame;
        let mut held = self.held;
        if held.is_empty() {
            return Ok(Input::without_line(frame));
        }
        let Some(frame) = frame else {
            return Ok(Input::behind_line(take_outside(self.alloc, held_line(held))));
        };
        held.extend_from_slice(b"\n")?;
        let next = take_inside(frame, held.as_slice())?;
        Ok(Input::behind_line(next))
    }

    /// Where the input ends behind a line without a newline, by what it leads to with one.
    fn behind_line(next: Behind<'static>) -> InputEnd
        ensures { (open_bytes : List ℕ)
            → (open_bytes ≡ [] → ⊥)
            → LeadsTo (open_bytes ++ (newline ∷ [])) next.entry
            → IsEnding open_bytes result }
    {
        match next {
            Behind::Open(frame) => InputEnd::Unfinished(frame.number()),
            Behind::Ended(received) => InputEnd::Last(received),
        }
    }

    /// Where the input ends behind the whole lines of a frame, if one is open.
    fn without_line(frame: Option<OpenFrame>) -> InputEnd
        ensures { (front : List ℕ) → IsFront frame front → IsEnding front result }
    {
        match frame {
            Some(frame) => InputEnd::Unfinished(frame.number()),
            None => InputEnd::Done,
        }
    }

    /// How many bytes of the frame that hasn't ended came behind its first line.
    fn frame_size(&self) -> usize
        ensures { result ≡ frame_size self.now.frame }
    {
        match &self.frame {
            Some(frame) => frame.size(),
            None => 0,
        }
    }

    /// `TooLong` where so many bytes more of the line, and so many of its newline, pass a limit.
    fn check(&self, more: usize, ending: usize) -> Result<(), InputStop>
        requires { ending ≤ 1 }
        ensures ok { OnOk result (HasRoom self.now more ending) }
        ensures err { IfErr result (λ e. (e ≡ InputStop.TooLong) × (HasRoom self.now more ending → ⊥)) }
    {
        let held = self.held.len();
        let in_line = more <= LINE_LIMIT - held;
        if in_line
            && self.frame_size() + held + more + ending <= FRAME_LIMIT
            && self.total + (more + ending) as u64 <= SESSION_LIMIT
        {
            return Ok(());
        }
        Err(InputStop::TooLong)
    }

    /// Holds bytes of a line that hasn't ended.
    fn hold(&mut self, part: &[u8]) -> Result<(), InputStop>
        requires { HasRoom self.old (length part.now) 0 }
        ensures ok { OnOk result ((before : ℕ) (bytes : List ℕ)
            → Holds before bytes self.old
            → Lacks newline part.now
            → Holds before (bytes ++ part.now) self.new) }
        ensures stopped { IfErr result (λ e. e ≡ InputStop.NoMemory) }
    {
        self.held.extend_from_slice(part)?;
        self.total += part.len() as u64;
        Ok(())
    }

    /// What a line of the frame leads to, where these bytes end it.
    fn next_inside<'a>(&mut self, frame: OpenFrame, line: &[u8]) -> Result<Behind<'a>, InputStop>
        requires some { 0 < length line.now }
        requires room { frame.size + vec_len self.old.held + length line.now < 2 ^ 64 }
        ensures next { IfOk result (λ next. (front : List ℕ)
            → HasFrame front frame
            → IsWholeLine (self.old.held.items ++ line.now)
            → LeadsTo (front ++ (self.old.held.items ++ line.now)) next) }
        ensures size { IfOk result (λ next. next_size next ≤ frame.size + vec_len self.old.held + length line.now) }
        ensures held { OnOk result (self.new.held.items ≡ []) }
        ensures frame { self.new.frame ≡ self.old.frame }
        ensures total { self.new.total ≡ self.old.total }
        ensures stopped { IfErr result (λ e. e ≡ InputStop.NoMemory) }
    {
        if self.held.is_empty() {
            return take_inside(frame, line);
        }
        let mut held = replace(&mut self.held, Vec::new(self.alloc));
        held.extend_from_slice(line)?;
        let next = take_inside(frame, held.as_slice())?;
        held.clear();
        self.held = held;
        Ok(next)
    }

    /// The line outside a frame that these bytes end. It is lent where nothing of it is held.
    fn whole_line<'a>(&mut self, line: &'a [u8]) -> Result<Line<'a>, InputStop>
        requires some { 0 < length line.now }
        ensures text { IfOk result (λ text. (bytes : List ℕ)
            → self.old.held.items ++ line.now ≡ bytes ++ (newline ∷ [])
            → text_of text ≡ line_text bytes) }
        ensures held { OnOk result (self.new.held.items ≡ []) }
        ensures frame { self.new.frame ≡ self.old.frame }
        ensures total { self.new.total ≡ self.old.total }
        ensures stopped { IfErr result (λ e. e ≡ InputStop.NoMemory) }
    {
        let (front, _) = line.split_at(line.len() - 1);
        if self.held.is_empty() {
            return Ok(lent_line(front));
        }
        let mut held = replace(&mut self.held, Vec::new(self.alloc));
        held.extend_from_slice(front)?;
        Ok(held_line(held))
    }

    /// What the line leads to, where these bytes end it.
    fn next<'a>(&mut self, line: &'a [u8]) -> Result<Behind<'a>, InputStop>
        requires some { 0 < length line.now }
        requires room { HasRoom self.old (length line.now - 1) 1 }
        ensures next { IfOk result (λ next. (front : List ℕ)
            → IsFront self.old.frame front
            → IsWholeLine (self.old.held.items ++ line.now)
            → LeadsTo (front ++ (self.old.held.items ++ line.now)) next) }
        ensures size { IfOk result (λ next.
            next_size next ≤ frame_size self.old.frame + vec_len self.old.held + length line.now) }
        ensures held { OnOk result (self.new.held.items ≡ []) }
        ensures frame { self.new.frame ≡ None }
        ensures total { self.new.total ≡ self.old.total }
        ensures stopped { IfErr result (λ e. e ≡ InputStop.NoMemory) }
    {
        match self.frame.take() {
            Some(frame) => self.next_inside(frame, line),
            None => Ok(take_outside(self.alloc, self.whole_line(line)?)),
        }
    }

    /// Ends the line with these bytes, the last of which is the newline.
    fn receive_line<'a>(&mut self, line: &'a [u8]) -> Result<Option<Received<'a>>, InputStop>
        requires whole { IsWholeLine line.now }
        requires some { 0 < length line.now }
        requires room { HasRoom self.old (length line.now - 1) 1 }
        ensures received { IfOk result (λ r. IfSome r (λ received. (before : ℕ) (bytes : List ℕ)
            → Holds before bytes self.old
            → Receives before received (bytes ++ line.now)
            × Holds (before + length (bytes ++ line.now)) [] self.new)) }
        ensures more { IfOk result (λ r. IfNone r ((before : ℕ) (bytes : List ℕ)
            → Holds before bytes self.old
            → Holds before (bytes ++ line.now) self.new)) }
        ensures stopped { IfErr result (λ e. e ≡ InputStop.NoMemory) }
    {
        let next = self.next(line)?;
        self.total += line.len() as u64;
        match next {
            Behind::Open(frame) => {
                self.frame = Some(frame);
                Ok(None)
            }
            Behind::Ended(received) => Ok(Some(received)),
        }
    }
}
