//! What the words of a run ask.
ghost use Rattle.std.specs.Prelude.{◌≡◌, map};
ghost use Rattle.moment_rules.specs.MomentTexts.{moment_of};
ghost use Rattle.osmroad.specs.Commands.{asked, asks_session, asked_command};
ghost use Rattle.osmroad.specs.Commands.{asked_by_two, asked_by_three, asked_graph, asked_without, asked_alone};
ghost use Rattle.osmroad.specs.Commands.{asked_sample, asked_numbered, asked_base, is_store};
ghost use Rattle.osmroad.specs.Commands.{asked_without_numbered, asked_profile};

use moment_rules::{Moment, one_moment, parse_moment};
use opl_lexer::long_number;
use road_base::Sequence;

/// What a run is asked for.
#[derive(Clone, Copy, PartialEq, Eq, Debug)]
pub enum Request {
    /// A session: the messages on the source are answered in turn, over the store.
    Session,
    /// One thing, which is done once.
    Command(Command),
}

/// The profile of the base that a store gets in its other file.
#[derive(Clone, Copy, PartialEq, Eq, Debug)]
pub enum BaseProfile {
    /// That of the store.
    Kept,
    /// Profile 2, of which the store then is for good.
    Raised,
}

/// What is done once.
#[derive(Clone, Copy, PartialEq, Eq, Debug)]
pub enum Command {
    /// The graph of the extract on the source, of the profile of this number.
    Compile(u32),
    /// How large the graph is whose file is on the source.
    Inspect,
    /// How large the graphs of a town and of its ten changes are, which are made from this number.
    Sample(u64),
    /// A store where there is none: its base is the extract on the source, under this number.
    Create(Sequence),
    /// One more change of the store, on the source and under this number.
    Apply(Sequence),
    /// The graph of what the store holds; at a moment, with the access keys that hold at certain times.
    Graph(Option<Moment>),
    /// What becomes of each restriction that the store holds.
    Audit,
    /// The store's other file with all that the store holds as a base, and no change.
    Checkpoint(BaseProfile),
}

/// What the words ask: `- compile`, `- compile 2`, `- inspect`, `- sample N`, `STORE create N`, `STORE apply N`,
/// `STORE session`, `STORE graph`, `STORE graph MOMENT`, `STORE audit`, `STORE checkpoint` or `STORE raise`. STORE
/// isn't empty and doesn't begin with `-`; N is digits, a value of 64 bits, and for `create` not the last one; MOMENT
/// is a moment's text, as `2024-05-06T23:00`.
pub fn request_of(words: &[&str]) -> Option<Request>
    ensures { result ≡ asked (map (λ w. w.now) words.now) }
{
    if asks_session(words) {
        return Some(Request::Session);
    }
    match command_of(words) {
        Some(command) => Some(Request::Command(command)),
        None => None,
    }
}

fn asks_session(words: &[&str]) -> bool
    ensures { result ≡ asks_session (map (λ w. w.now) words.now) }
{
    match words {
        [store, name] => is_store(store) && *name == "session",
        _ => false,
    }
}

fn command_of(words: &[&str]) -> Option<Command>
    ensures { result ≡ asked_command (map (λ w. w.now) words.now) }
{
    match words {
        [store, name] => asked_by_two(store, name),
        [store, name, word] => asked_by_three(store, name, word),
        _ => None,
    }
}

fn asked_by_two(store: &str, name: &str) -> Option<Command>
    ensures { result ≡ asked_by_two store.now name.now }
{
    if store == "-" {
        return asked_without(name);
    }
    if is_store(store) {
        asked_alone(name)
    } else {
        None
    }
}

fn asked_without(name: &str) -> Option<Command>
    ensures { result ≡ asked_without name.now }
{
    if name == "compile" {
        return Some(Command::Compile(1));
    }
    if name == "inspect" {
        Some(Command::Inspect)
    } else {
        None
    }
}

fn asked_by_three(store: &str, name: &str, word: &str) -> Option<Command>
    ensures { result ≡ asked_by_three store.now name.now word.now }
{
    if store == "-" {
        return asked_without_numbered(name, word);
    }
    if !is_store(store) {
        return None;
    }
    if name == "graph" {
        return asked_graph(word);
    }
    asked_numbered(name, long_number(word)?)
}

fn asked_graph(word: &str) -> Option<Command>
    ensures { result ≡ asked_graph word.now }
{
    match moment_of(word) {
        Some(at) => Some(Command::Graph(Some(at))),
        None => None,
    }
}

/// The moment that the word is.
fn moment_of(word: &str) -> Option<Moment>
    ensures { result ≡ moment_of word.now }
{
    one_moment();
    parse_moment(word)
}

fn asked_without_numbered(name: &str, number: &str) -> Option<Command>
    ensures { result ≡ asked_without_numbered name.now number.now }
{
    if name == "compile" {
        return asked_profile(number);
    }
    asked_sample(name, long_number(number)?)
}

fn asked_profile(word: &str) -> Option<Command>
    ensures { result ≡ asked_profile word.now }
{
    if word == "2" {
        Some(Command::Compile(2))
    } else {
        None
    }
}

fn asked_sample(name: &str, number: u64) -> Option<Command>
    ensures { result ≡ asked_sample name.now number }
{
    if name == "sample" {
        Some(Command::Sample(number))
    } else {
        None
    }
}

fn asked_alone(name: &str) -> Option<Command>
    ensures { result ≡ asked_alone name.now }
{
    if name == "graph" {
        return Some(Command::Graph(None));
    }
    if name == "audit" {
        return Some(Command::Audit);
    }
    if name == "checkpoint" {
        return Some(Command::Checkpoint(BaseProfile::Kept));
    }
    if name == "raise" {
        Some(Command::Checkpoint(BaseProfile::Raised))
    } else {
        None
    }
}

fn asked_numbered(name: &str, number: u64) -> Option<Command>
    ensures { result ≡ asked_numbered name.now number }
{
    if name == "create" {
        return asked_base(number);
    }
    if name == "apply" {
        Some(Command::Apply(Sequence(number)))
    } else {
        None
    }
}

/// No change could follow the last number.
fn asked_base(number: u64) -> Option<Command>
    ensures { result ≡ asked_base number }
{
    if number < u64::MAX {
        Some(Command::Create(Sequence(number)))
    } else {
        None
    }
}

fn is_store(word: &str) -> bool
    ensures { result ≡ is_store word.now }
{
    match word.as_bytes() {
        [] | [b'-', ..] => false,
        _ => true,
    }
}
