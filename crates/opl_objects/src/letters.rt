//! The letters that fields begin with.
ghost use Rattle.std.specs.Prelude.{◌≡◌, ◌==◌, codes, false, true, is_some, replicate, slice_index_or, slice_set};
ghost use Rattle.std.specs.Prelude.{IfSome};
ghost use Rattle.std.specs.List.{list_any};
ghost use Rattle.opl_lexer.specs.Faults.{letters_of};
ghost use Rattle.opl_objects.specs.LineLetters.{byte_of, letter_number};

use road_base::Key;

/// What a field tells, by its letter. (OPL File Format Manual.)
#[derive(Clone, Copy)]
pub enum Letter {
    Version,
    Deletion,
    Changeset,
    Timestamp,
    UserId,
    User,
    Tags,
    Lon,
    Lat,
    Refs,
    Members,
}

/// How many letters there are.
const LETTERS: usize = 11;

/// The letters that every object's fields may have.
#[inline]
fn common_letter(byte: u8) -> Option<Letter>
    ensures byte { IfSome result (λ letter. byte_of letter ≡ byte) }
    ensures known { is_some result ≡ list_any (λ b. b == byte) (codes "vdctiuT") }
{
    match byte {
        b'v' => Some(Letter::Version),
        b'd' => Some(Letter::Deletion),
        b'c' => Some(Letter::Changeset),
        b't' => Some(Letter::Timestamp),
        b'i' => Some(Letter::UserId),
        b'u' => Some(Letter::User),
        b'T' => Some(Letter::Tags),
        _ => None,
    }
}

/// The letters that a node's fields may have.
#[inline]
fn node_letter(byte: u8) -> Option<Letter>
    ensures byte { IfSome result (λ letter. byte_of letter ≡ byte) }
    ensures known { is_some result ≡ list_any (λ b. b == byte) (codes "vdctiuTxy") }
{
    match byte {
        b'x' => Some(Letter::Lon),
        b'y' => Some(Letter::Lat),
        _ => common_letter(byte),
    }
}

/// The letters that a way's fields may have.
#[inline]
fn way_letter(byte: u8) -> Option<Letter>
    ensures byte { IfSome result (λ letter. byte_of letter ≡ byte) }
    ensures known { is_some result ≡ list_any (λ b. b == byte) (codes "vdctiuTN") }
{
    match byte {
        b'N' => Some(Letter::Refs),
        _ => common_letter(byte),
    }
}

/// The letters that a relation's fields may have.
#[inline]
fn relation_letter(byte: u8) -> Option<Letter>
    ensures byte { IfSome result (λ letter. byte_of letter ≡ byte) }
    ensures known { is_some result ≡ list_any (λ b. b == byte) (codes "vdctiuTM") }
{
    match byte {
        b'M' => Some(Letter::Members),
        _ => common_letter(byte),
    }
}

/// The letter that the byte is, None where the fields of such an object have no such letter.
#[inline]
pub fn letter_of(key: Key, byte: u8) -> Option<Letter>
    ensures byte { IfSome result (λ letter. byte_of letter ≡ byte) }
    ensures known { is_some result ≡ list_any (λ b. b == byte) (letters_of key) }
{
    match key {
        Key::Node(_) => node_letter(byte),
        Key::Way(_) => way_letter(byte),
        Key::Relation(_) => relation_letter(byte),
    }
}

impl Letter {
    /// Where the letter is marked.
    #[inline]
    fn place(self) -> usize
        ensures { result ≡ letter_number self }
    {
        match self {
            Letter::Version => 0,
            Letter::Deletion => 1,
            Letter::Changeset => 2,
            Letter::Timestamp => 3,
            Letter::UserId => 4,
            Letter::User => 5,
            Letter::Tags => 6,
            Letter::Lon => 7,
            Letter::Lat => 8,
            Letter::Refs => 9,
            Letter::Members => 10,
        }
    }
}

/// The letters that stood in a line.
#[derive(Clone, Copy)]
pub struct Seen {
    marks: [bool; LETTERS],
}

impl Seen {
    /// No letter.
    #[inline]
    pub fn new() -> Seen
        ensures { result.marks ≡ replicate 11 false }
    {
        Seen {
            marks: [false; LETTERS],
        }
    }

    /// Whether the letter stood.
    #[inline]
    pub fn has(&self, letter: Letter) -> bool
        ensures { result ≡ slice_index_or self.now.marks (letter_number letter) false }
    {
        self.marks[letter.place()]
    }

    /// The letter stands.
    #[inline]
    pub fn add(&mut self, letter: Letter)
        ensures { self.new.marks ≡ slice_set self.old.marks (letter_number letter) true }
    {
        self.marks[letter.place()] = true;
    }
}
