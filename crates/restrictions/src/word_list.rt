//! Words of restrictions, and lists of them.
ghost use Rattle.std.specs.Prelude.{◌≡◌, IfOk};

use road_base::{Drive, NoMemory, RelationId};
use std::marker::Model;

/// A list of steps that a restriction forbids, or of which it demands each next step once `binding` of the steps
/// before it were driven.
#[derive(Drop)]
pub struct Word {
    pub relation: RelationId,
    pub only: bool,
    pub binding: u32,
    pub steps: Drive,
}

impl Word {
    /// An equal value.
    pub fn copy(&self) -> Result<Word, NoMemory>
        ensures { IfOk result (λ w. w ≡ self.now) }
    {
        let steps = self.steps.copy()?;
        Ok(Word {
            relation: self.relation,
            only: self.only,
            binding: self.binding,
            steps,
        })
    }
}

/// Words.
#[derive(Drop)]
pub struct WordList {
    list: Vec<Word>,
}

impl Model for WordList {
    ghost use Rattle.std.specs.Prelude.{List};
    ghost use Rattle.restrictions.specs.declared.word_list.Word.{Word};

    ghost Value = { List Word };

    ghost view = { λ l. l.list.items };
}

impl WordList {
    /// Takes no memory.
    pub fn from_list(list: Vec<Word>) -> WordList
        ensures { result ≡ list.items }
    {
        WordList { list }
    }

    /// In the order in which they were listed.
    pub fn items(&self) -> &[Word]
        ensures { result.now ≡ self.now }
    {
        self.list.as_slice()
    }

    /// The same words. Takes no memory.
    pub fn into_list(self) -> Vec<Word>
        ensures { result.items ≡ self }
    {
        self.list
    }

    /// An equal value.
    pub fn copy(&self) -> Result<WordList, NoMemory>
        ensures { IfOk result (λ l. l ≡ self.now) }
    {
        let from = self.list.as_slice();
        let mut list = Vec::with_capacity(*self.list.allocator(), from.len())?;
        for item in from {
            list.push(item.copy()?)?;
        }
        Ok(WordList { list })
    }
}
