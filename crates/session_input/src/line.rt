//! A line outside a frame.
ghost use Rattle.std.specs.Prelude.{◌≡◌, option_copied};
ghost use Rattle.session_input.specs.Texts.{text_of};

/// A line of a session outside a frame: its text, without one carriage return at its end.
#[derive(Drop)]
pub enum Line<'a> {
    /// Lent from the part in which the whole line came.
    Text(&'a str),
    /// Put together from the parts in which the line came.
    Held(String),
    /// The line isn't UTF-8.
    NoText,
}

impl<'a> Line<'a> {
    /// The text. None where the line isn't UTF-8.
    pub fn text(&self) -> Option<&str>
        ensures { option_copied result ≡ text_of self.now }
    {
        match self {
            Line::Text(text) => Some(text),
            Line::Held(text) => Some(text.as_str()),
            Line::NoText => None,
        }
    }
}
