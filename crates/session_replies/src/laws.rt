//! Laws of messages, each the contract of a function that does nothing.
ghost use Rattle.std.specs.Prelude.{◌≡◌, ◌↔◌, ℕ, List, Some};
ghost use Rattle.opl_lexer.specs.Fields.{fields};
ghost use Rattle.road_base.specs.declared.ids.Sequence.{Sequence};
ghost use Rattle.session_input.specs.Messages.{frame_of_words};
ghost use Rattle.drive_queries.specs.declared.messages.Asked.TheVariants.{Seq};
ghost use Rattle.drive_queries.specs.Messages.{asked};

/// A line is a message that begins a frame exactly where it begins one as a session's input is read, with the same
/// number.
pub fn frame_lines()
    ensures { (text : List ℕ) (number : Sequence)
        → asked text ≡ Seq number ↔ frame_of_words (fields text) ≡ Some number.0 }
{}
