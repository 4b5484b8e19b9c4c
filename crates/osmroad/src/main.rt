//! osmroad compiles what a car may drive in OpenStreetMap data to a turn-expanded graph, and keeps a map and its
//! changes in a store.
//!
//! `run` is the one call that does all that the program does, over any source and site; `main` hands it standard input,
//! standard output and the two files of the store. `command` says what the words ask; `compile`, `inspect`, `sample`,
//! `create`, `apply`, `stored` and `checkpoint` each prepare last words (`last_words`), which are then put once.
//!
//! A graph is built so: the input is read part by part into events (`bounded_input`), of each object the first event of
//! the greatest version stands, and for each visible way with the key `highway` its block is built, written if it has
//! pieces, and let go (`compiled_graph`). Time grows as n log n with the input, the graph, and the words that are
//! looked at for each way (`expanded_graph`); memory stays a small multiple of the input and the words, and holds the
//! graph's bytes once. The graph of a town is about as large as its extract; that of a node with very many ways grows
//! with the square of their number. `create` costs its input, and holds what it writes once; `apply` costs the live
//! file and its input, and so do `graph` and `audit`, with the graph, or the words of each restriction; at a moment
//! `graph` reads the values of conditional access keys besides. `checkpoint` and `raise` cost the live file and what
//! they write, and hold the objects, a copy of them, and their bytes. `inspect` costs its input, and holds it and the
//! graph; `sample` costs eleven graphs of 7,080 ways, one after another.
#![tactic(auto)]

ghost use Rattle.std.specs.Prelude.{◌≡◌, ◌<◌};

mod apply;
mod audit;
mod checkpoint;
mod command;
mod compile;
mod create;
mod findings;
mod inspect;
mod laws;
mod profiles;
mod run;
mod sample;
mod serve;
mod store_refusals;
mod stored;
mod texts;

use crate::run::run;
use last_words::Status;
use road_base::{NoMemory, Steps};
use road_io::{RealSite, RealSource};
use std::alloc::Global;
use std::env;
use std::fs::{File, OpenOptions};
use std::io::ErrorKind;
use std::marker::Brand;
use std::process::ExitCode;
use std::rt::Env;
use std::sync::ledger::{Blank, Ledger};

/// The words behind the program's name. Where one isn't UTF-8 they are one empty word, which no command has.
fn words_of(rt: &(impl Env + AllocGlobal)) -> Result<Vec<String>, NoMemory> {
    match env::args(rt) {
        Ok(args) => Ok(args.skip(1).collect(rt.alloc())?),
        Err(error) if error.kind() == ErrorKind::OutOfMemory => Err(NoMemory),
        Err(_) => Ok(vec![in rt.alloc(); String::new(rt.alloc())]?),
    }
}

/// The name of a file of the store: the first word, and this ending.
fn file_name(alloc: Global, words: &[String], ending: &str) -> Result<String, NoMemory> {
    let mut name = String::new(alloc);
    if let Some(store) = words.first() {
        name.push_str(store.as_str())?;
    }
    name.push_str(ending)?;
    Ok(name)
}

/// A folder, opened.
fn folder(rt: &HostRuntime) -> Option<File> {
    OpenOptions::new().read(true).open(rt, "/").ok()
}

fn start<L: Ledger>(rt: &HostRuntime, words: &[String], blank: Blank) -> Result<Status, NoMemory>
    requires name { blank.name ≡ L.name }
    requires parts { blank.parts ≡ L.parts }
    requires some { 0 < L.parts }
{
    let alloc = rt.alloc();
    let mut texts = Vec::with_capacity(alloc, words.len())?;
    for word in words {
        texts.push(word.as_str())?;
    }
    // Where a standard stream is closed, the next file that is opened takes its number. It is to be none of the
    // store's: a folder can be neither read nor written, so that reading and putting fail as they have to.
    let taken = [folder(rt), folder(rt), folder(rt)];
    let mut source = RealSource::new(rt.stdin());
    let name_a = file_name(alloc, words, ".a")?;
    let name_b = file_name(alloc, words, ".b")?;
    let mut site = RealSite::new(rt, rt.stdout(), name_a, name_b);
    let mut steps = Steps::<L>::new(blank);
    let status = run(alloc, &texts, &mut source, &mut site, &mut steps);
    drop(taken);
    Ok(status)
}

fn main(rt: HostRuntime) -> ExitCode {
    let status = match words_of(&rt) {
        Ok(words) => start::<Brand>(&rt, &words, Blank::new(1)).unwrap_or(Status::NoMemory),
        Err(NoMemory) => Status::NoMemory,
    };
    ExitCode::from(status.code())
}

#[cfg(test)]
mod counting_tests;
#[cfg(test)]
mod failure_tests;
#[cfg(test)]
mod limit_tests;
#[cfg(test)]
mod moment_tests;
#[cfg(test)]
mod older_store_tests;
#[cfg(test)]
mod pin_tests;
#[cfg(test)]
mod raise_tests;
#[cfg(test)]
mod route_tests;
#[cfg(test)]
mod session_tests;
#[cfg(test)]
mod store_tests;
#[cfg(test)]
mod tests;
#[cfg(test)]
mod zone_tests;
