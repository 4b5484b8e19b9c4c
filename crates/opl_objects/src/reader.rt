//! Lines that come in parts.
ghost use Rattle.std.specs.Prelude.{◌≡◌, ◌<◌, ◌≤◌, ◌+◌, ◌^◌, ◌++◌, [], ◌∷◌, ℕ, List, length, vec_len, None, Some, IfOk};
ghost use Rattle.std.specs.Prelude.{IfErr, OnOk};
ghost use Rattle.opl_lexer.specs.Letters.{newline};
ghost use Rattle.opl_lexer.specs.Parts.{Lacks};
ghost use Rattle.opl_lexer.specs.Reading.{ReadAll, ended_fault};

use crate::fault::ReadError;
use crate::lines::{finish_line, first_line, take_line};
use opl_lexer::Mode;
use road_base::Event;
use std::alloc::Global;

/// A reader of OPL text, fed in parts of any size.
#[derive(Drop)]
pub struct Reader {
    mode: Mode,
    /// How many lines have ended.
    lines: u64,
    /// The line that hasn't ended yet.
    held: Vec<u8>,
    events: Vec<Event>,
    /// The refusal that is answered from now on.
    error: Option<ReadError>,
    // The line that is held can be counted too.
    ghost room: { lines + vec_len held < 2 ^ 64 },
}

impl Reader {
    ghost use Rattle.opl_objects.specs.Feeding.{HasRead, EndedBy, RefusedBy, answered, counted};

    /// Has read nothing. Takes no memory.
    pub fn new(alloc: Global, mode: Mode) -> Reader
        ensures read { HasRead mode [] result }
        ensures answered { answered result ≡ None }
        ensures counted { counted result ≡ 0 }
    {
        Reader {
            mode,
            lines: 0,
            held: Vec::new(alloc),
            events: Vec::new(alloc),
            error: None,
        }
    }

    /// Takes the next part of the input; fewer than 2^64 bytes may come in all. A fault comes exactly where a line that
    /// has ended is in fault: the first one. A reader that has answered a fault or `NoMemory` answers it from then on.
    pub fn feed(&mut self, part: &[u8]) -> Result<(), ReadError>
        requires { counted self.old + length part.now < 2 ^ 64 }
        ensures read { (mode : Mode) (fed : List ℕ)
            → HasRead mode fed self.old
            → HasRead mode (fed ++ part.now) self.new }
        ensures ok { OnOk result ((mode : Mode) (fed : List ℕ)
            → HasRead mode fed self.old
            → ended_fault mode (fed ++ part.now) ≡ None) }
        ensures err { IfErr result (λ e. (mode : Mode) (fed : List ℕ)
            → HasRead mode fed self.old
            → EndedBy e mode (fed ++ part.now)) }
        ensures kept { IfErr result (λ e. answered self.new ≡ Some e) }
        ensures going { OnOk result (answered self.new ≡ None) }
        ensures again { (e : ReadError) → answered self.old ≡ Some e → result ≡ Err e }
        ensures counted { counted self.new ≤ counted self.old + length part.now }
    {
        if let Some(error) = self.error {
            return Err(error);
        }
        let mut rest = part;
        while let Some((line, behind)) = first_line(rest) {
            self.end_line(line)?;
            rest = behind;
        }
        self.hold(rest)
    }

    /// The events of all lines, in order, or the first fault, however the input was cut. A last line without a newline
    /// counts where it has a byte.
    pub fn finish(self) -> Result<Vec<Event>, ReadError>
        ensures ok { IfOk result (λ events. (mode : Mode) (fed : List ℕ)
            → HasRead mode fed self
            → ReadAll mode fed events.items) }
        ensures err { IfErr result (λ e. (mode : Mode) (fed : List ℕ)
            → HasRead mode fed self
            → RefusedBy e mode fed) }
        ensures again { (e : ReadError) → answered self ≡ Some e → result ≡ Err e }
    {
        if let Some(error) = self.error {
            return Err(error);
        }
        let mut events = self.events;
        if self.held.is_empty() {
            return Ok(events);
        }
        let number = self.lines + 1;
        take_line(self.mode, number, self.held.as_slice(), &mut events)?;
        Ok(events)
    }

    /// Ends a line with these bytes.
    fn end_line(&mut self, line: &[u8]) -> Result<(), ReadError>
        requires going { answered self.old ≡ None }
        requires room { counted self.old + length line.now + 1 < 2 ^ 64 }
        ensures read { (mode : Mode) (fed : List ℕ)
            → HasRead mode fed self.old
            → Lacks newline line.now
            → HasRead mode (fed ++ (line.now ++ (newline ∷ []))) self.new }
        ensures kept { IfErr result (λ e. answered self.new ≡ Some e) }
        ensures going { OnOk result (answered self.new ≡ None) }
        ensures counted { counted self.new ≤ counted self.old + length line.now + 1 }
    {
        let number = self.lines + 1;
        if let Err(error) = finish_line(self.mode, number, &mut self.held, line, &mut self.events) {
            self.error = Some(error);
            return Err(error);
        }
        self.lines = number;
        Ok(())
    }

    /// Holds bytes of a line that hasn't ended.
    fn hold(&mut self, part: &[u8]) -> Result<(), ReadError>
        requires going { answered self.old ≡ None }
        requires room { counted self.old + length part.now < 2 ^ 64 }
        ensures read { (mode : Mode) (fed : List ℕ)
            → HasRead mode fed self.old
            → Lacks newline part.now
            → HasRead mode (fed ++ part.now) self.new }
        ensures kept { IfErr result (λ e. answered self.new ≡ Some e) }
        ensures going { OnOk result (answered self.new ≡ None) }
        ensures counted { counted self.new ≤ counted self.old + length part.now }
    {
        if self.held.extend_from_slice(part).is_err() {
            self.error = Some(ReadError::NoMemory);
            return Err(ReadError::NoMemory);
        }
        Ok(())
    }
}
