//! cells compiles a map cell by cell, and merges what comes of it to the graph that the whole map has.
//!
//! `run` is the one call that does all that the program does, over any source and site; `main` hands it standard input
//! and standard output. `command` says what the words ask; `plan`, `made` and `graphs` each prepare last words, which
//! are then put once. `laws` says what all of it comes to: the merge of all parts is the map's graph, byte for byte.
//!
//! `plan` costs n log n in the nodes and keeps no text: its memory is bounded (`cell_plan`). `part`, `rest` and `ways`
//! cost n log n in their text and their graph, and hold the objects, what is searched among them, and the graph once.
//! `range` and `merge` cost n log n in their bytes, and hold a small multiple of them (`graph_merge`).
#![tactic(auto)]

ghost use Rattle.std.specs.Prelude.{◌≡◌, ◌<◌};

mod areas;
mod command;
mod graphs;
mod laws;
mod made;
mod plan;
mod run;
mod texts;
mod ways;

use crate::run::run;
use last_words::Status;
use road_base::{NoMemory, Steps};
use road_io::{RealSite, RealSource};
use std::alloc::Global;
use std::env;
use std::io::ErrorKind;
use std::marker::Brand;
use std::process::ExitCode;
use std::rt::Env;
use std::sync::ledger::{Blank, Ledger};

/// The words behind the program's name. Where one isn't UTF-8 they are one empty word, which no command has.
fn words_of(rt: &(impl Env + AllocGlobal)) -> Result<Vec<String>, NoMemory> {
    match env::args(rt) {
        Ok(args) => Ok(args.skip(1).collect(rt.alloc())?),
        Err(error) if error.kind() == ErrorKind::OutOfMemory => Err(NoMemory),
        Err(_) => Ok(vec![in rt.alloc(); String::new(rt.alloc())]?),
    }
}

fn start<L: Ledger>(rt: &HostRuntime, words: &[String], blank: Blank) -> Result<Status, NoMemory>
    requires name { blank.name ≡ L.name }
    requires parts { blank.parts ≡ L.parts }
    requires some { 0 < L.parts }
{
    let alloc = rt.alloc();
    let mut texts = Vec::with_capacity(alloc, words.len())?;
    for word in words {
        texts.push(word.as_str())?;
    }
    let mut source = RealSource::new(rt.stdin());
    // The site's files have no names, and are never opened.
    let mut site = RealSite::new(rt, rt.stdout(), String::new(alloc), String::new(alloc));
    let mut steps = Steps::<L>::new(blank);
    Ok(run(alloc, &texts, &mut source, &mut site, &mut steps))
}

fn main(rt: HostRuntime) -> ExitCode {
    let status = match words_of(&rt) {
        Ok(words) => start::<Brand>(&rt, &words, Blank::new(1)).unwrap_or(Status::NoMemory),
        Err(NoMemory) => Status::NoMemory,
    };
    ExitCode::from(status.code())
}

#[cfg(test)]
mod tests;
