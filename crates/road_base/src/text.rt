//! Text, seen as its bytes.
ghost use Rattle.std.specs.Prelude.{◌≡◌, ◌↔◌, IfOk, IsTrue, string_bytes, IsUtf8};

use crate::NoMemory;
use arrayvec::ArrayString;
use std::alloc::Global;
use std::marker::Model;

/// A text of UTF-8. Contracts see its bytes. Up to 16 of them stand in the value itself and take no memory beside it,
/// as most keys and values of tags do.
#[derive(Drop)]
pub struct Text {
    held: Held,
}

#[derive(Drop)]
enum Held {
    Short(ArrayString<16>),
    Long(String),
}

impl Model for Text {
    ghost use Rattle.std.specs.Prelude.{List, ℕ};
    ghost use Rattle.road_base.specs.Texts.{held_bytes};

    ghost Value = { List ℕ };

    ghost view = { λ t. held_bytes t.held };
}

impl Text {
    /// A copy of the text.
    pub fn of(alloc: Global, text: &str) -> Result<Text, NoMemory>
        ensures { IfOk result (λ t. t ≡ text.now) }
    {
        let held = match ArrayString::from(text) {
            Ok(short) => Held::Short(short),
            Err(_) => Held::Long(String::from_str(alloc, text)?),
        };
        Ok(Text { held })
    }

    /// Takes no memory.
    pub fn from_string(text: String) -> Text
        ensures { result ≡ string_bytes text }
    {
        let held = match ArrayString::from(text.as_str()) {
            Ok(short) => Held::Short(short),
            Err(_) => Held::Long(text),
        };
        Text { held }
    }

    /// Lends the text.
    pub fn as_str(&self) -> &str
        ensures bytes { result.now ≡ self.now }
        ensures utf8 { IsUtf8 self.now }
    {
        match &self.held {
            Held::Short(text) => text.as_str(),
            Held::Long(text) => text.as_str(),
        }
    }

    /// Whether the two are equal.
    pub fn same(&self, other: &Text) -> bool
        ensures { IsTrue result ↔ (self.now ≡ other.now) }
    {
        self.as_str() == other.as_str()
    }

    /// An equal value.
    pub fn copy(&self) -> Result<Text, NoMemory>
        ensures { IfOk result (λ t. t ≡ self.now) }
    {
        let held = match &self.held {
            Held::Short(text) => Held::Short(*text),
            Held::Long(text) => Held::Long(text.clone()?),
        };
        Ok(Text { held })
    }
}
