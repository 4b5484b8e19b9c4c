//! A session asks a profile little for a small change: what it is asked is counted.
ghost use Rattle.std.specs.Prelude.{◌≡◌, ◌<◌};
ghost use Rattle.access_profile.specs.Motorcar.{motorcar_rules};
ghost use Rattle.access_profile.specs.NeedsHighway.{highway_of_free};

use crate::serve::serve;
use crate::session_tests::{empty_site, run_on};
use crate::tests::compiled;
use access_profile::Motorcar;
use bounded_input::read_events;
use change_apply::Engine;
use last_words::Status;
use opl_lexer::Mode;
use road_base::{Dir, Event, NoMemory, Steps, Tags};
use road_io::{MemorySite, MemorySource};
use road_model::{Access, Profile, RuleKind};
use std::alloc::Global;
use std::cell::Cell;
use std::marker::Brand;
use std::process::Abort;
use std::sync::ledger::{Blank, Ledger};
use std::test::Fail;
use store_switch::load_store;

/// A motorcar that counts how often it is asked for a direction.
#[derive(Clone, Copy)]
struct Counting<'a> {
    asked: &'a Cell<u64>,
}

impl<'a> Profile for Counting<'a> {
    ghost rules = { λ _. motorcar_rules };

    fn number(&self) -> u32 {
        Motorcar.number()
    }

    fn direction(&self, tags: &Tags, dir: Dir) -> Access {
        self.asked.set(self.asked.get().saturating_add(1));
        Motorcar.direction(tags, dir)
    }

    fn node_open(&self, tags: &Tags) -> bool {
        Motorcar.node_open(tags)
    }

    fn turns(&self, tags: &Tags) -> bool {
        Motorcar.turns(tags)
    }

    fn rule(&self, tags: &Tags) -> RuleKind {
        Motorcar.rule(tags)
    }

    fn reverses(&self) -> bool {
        Motorcar.reverses()
    }

    fn zone(&self, tags: &Tags, dir: Dir) -> bool {
        Motorcar.zone(tags, dir)
    }

    ghost free_needs_highway = { λ p tags dir free. highway_of_free tags dir free };
}

/// A node of the first street is moved.
const CHANGE: &[u8] = b"n1 v2 x1 y0\n";

/// A thousand streets of two nodes each, apart from each other.
fn streets(alloc: Global) -> Result<Vec<u8>, NoMemory> {
    let mut text = Vec::new(alloc);
    for node in 1u32..2001 {
        let line = format!(in alloc; "n{node} v1 x0.{node:07} y0\n")?;
        text.extend_from_slice(line.as_bytes())?;
    }
    for way in 1u32..1001 {
        let (from, to) = (2 * way - 1, 2 * way);
        let line = format!(in alloc; "w{way} v1 Thighway=residential Nn{from},n{to}\n")?;
        text.extend_from_slice(line.as_bytes())?;
    }
    Ok(text)
}

/// How often the profile is asked for a direction in a session over the store on the site. `None` where it isn't done.
fn asked_by<L: Ledger>(
    alloc: Global,
    source: &mut MemorySource,
    site: &mut MemorySite,
    steps: &mut Steps<L>,
) -> Option<u64> {
    let asked = Cell::new(0);
    let profile = Counting { asked: &asked };
    let Ok(loaded) = load_store(alloc, site) else {
        return None;
    };
    if loaded.journal.profile() != 1 {
        return None;
    }
    match serve(alloc, profile, loaded, source, site, steps) {
        Status::Done => Some(asked.get()),
        _ => None,
    }
}

/// The same where the session has this input.
fn asked_in<L: Ledger>(
    alloc: Global,
    input: &[u8],
    site: &mut MemorySite,
    blank: Blank,
) -> Result<Option<u64>, NoMemory>
    requires name { blank.name ≡ L.name }
    requires parts { blank.parts ≡ L.parts }
    requires some { 0 < L.parts }
{
    let mut source = MemorySource::new(input.to_vec(alloc)?, Vec::new(alloc));
    let mut steps = Steps::<L>::new(blank);
    Ok(asked_by(alloc, &mut source, site, &mut steps))
}

/// The same over the store of an extract, which is made on the site, and all that was put.
fn asked_on(
    alloc: Global,
    extract: &[u8],
    input: &[u8],
    site: &mut MemorySite,
) -> Result<(Option<u64>, Vec<u8>), NoMemory> {
    run_on(alloc, &["town", "create", "4"], extract, site)?;
    let count = asked_in::<Brand>(alloc, input, site, Blank::new(1))?;
    Ok((count, site.output().to_vec(alloc)?))
}

/// The same on a new site.
fn asked(alloc: Global, extract: &[u8], input: &[u8]) -> Result<(Option<u64>, Vec<u8>), NoMemory> {
    let mut site = empty_site(alloc);
    asked_on(alloc, extract, input, &mut site)
}

/// The graph of the extract, behind a line that says so and tells its length.
fn shown(alloc: Global, extract: &[u8]) -> Result<Vec<u8>, Fail> {
    let graph = compiled::<Brand>(alloc, extract, Blank::new(1))?;
    let mut text = Vec::new(alloc);
    let line = format!(in alloc; "graph {}\n", graph.len())?;
    text.extend_from_slice(line.as_bytes())?;
    text.extend_from_slice(&graph)?;
    Ok(text)
}

/// What `create` and a session put that asks for the graph of the extract.
fn shown_once(alloc: Global, extract: &[u8]) -> Result<Vec<u8>, Fail> {
    let mut text = b"created 4\n".to_vec(alloc)?;
    text.append(&mut shown(alloc, extract)?)?;
    Ok(text)
}

/// The same where the session then follows the change, and asks again.
fn shown_twice(alloc: Global, extract: &[u8]) -> Result<Vec<u8>, Fail> {
    let mut changed = extract.to_vec(alloc)?;
    changed.extend_from_slice(CHANGE)?;
    let mut text = shown_once(alloc, extract)?;
    text.extend_from_slice(b"applied 5\n")?;
    text.append(&mut shown(alloc, &changed)?)?;
    Ok(text)
}

/// Beside a session that asks so often for all streets, one with the change of a street doesn't ask for the others
/// again; and it shows the graph behind the change.
fn check_asked(
    rt: &impl Abort,
    alloc: Global,
    extract: &[u8],
    all: Option<u64>,
) -> Result<(), Fail> {
    let (more, output) = asked(alloc, extract, b"graph\n#seq 5\nn1 v2 x1 y0\n#end\ngraph\n")?;
    assert!(rt;
        matches!((all, more), (Some(all), Some(more)) if all >= 1000 && more.abs_diff(all) < 1000)
    );
    assert_eq!(rt; output, shown_twice(alloc, extract)?);
    Ok(())
}

/// After a change of one street a session doesn't ask the profile for the others again.
#[test]
fn a_small_change_asks_little(rt: HostRuntime) -> Result<(), Fail> {
    let extract = streets(rt.alloc())?;
    let (all, output) = asked(rt.alloc(), &extract, b"graph\n")?;
    assert_eq!(rt; output, shown_once(rt.alloc(), &extract)?);
    check_asked(&rt, rt.alloc(), &extract, all)
}

/// How many ways the change touches where these events came before, and how often the profile is then asked for a
/// direction.
fn asked_to_apply<L: Ledger>(
    alloc: Global,
    before: Vec<Event>,
    change: &[Event],
    steps: &mut Steps<L>,
) -> Result<(u64, u64), NoMemory> {
    let asked = Cell::new(0);
    let profile = Counting { asked: &asked };
    let mut engine = Engine::load(alloc, profile, before, steps)?;
    let first = asked.get();
    let report = engine.apply(change, steps)?;
    Ok((report.touched, asked.get().abs_diff(first)))
}

/// The events of these lines.
fn read(alloc: Global, mode: Mode, lines: &[u8]) -> Result<Vec<Event>, Fail> {
    let mut source = MemorySource::new(lines.to_vec(alloc)?, Vec::new(alloc));
    match read_events(alloc, mode, &mut source) {
        Ok(events) => Ok(events),
        Err(_) => Err(Fail::from("the lines aren't read")),
    }
}

/// The same for the streets, with a ledger of its own.
fn asked_for_a_street<L: Ledger>(alloc: Global, blank: Blank) -> Result<(u64, u64), Fail>
    requires name { blank.name ≡ L.name }
    requires parts { blank.parts ≡ L.parts }
    requires some { 0 < L.parts }
{
    let before = read(alloc, Mode::Extract, &streets(alloc)?)?;
    let change = read(alloc, Mode::Change, CHANGE)?;
    let mut steps = Steps::<L>::new(blank);
    Ok(asked_to_apply(alloc, before, &change, &mut steps)?)
}

/// Where one street changes, the profile isn't asked for the others.
#[test]
fn to_apply_a_small_change_asks_little(rt: HostRuntime) -> Result<(), Fail> {
    let (touched, asked) = asked_for_a_street::<Brand>(rt.alloc(), Blank::new(1))?;
    assert_eq!(rt; touched, 1);
    assert!(rt; asked < 1000);
    Ok(())
}
