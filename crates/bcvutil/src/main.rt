//! The program `bcvutil STORE CLIENT COMMAND ..`: runs a command of `bcv_top` over standard input and standard output.
//!
//! STORE and CLIENT are folders that exist, `-` an empty one in memory: a store in a folder (`bcv_dirstore`) or in memory
//! (`bcv_memstore`), and a disk over the file `journal` (`bcv_host`) or in memory (`bcv_disk`). The clock and the names are the
//! system's, and a dead block goes once its retention has passed. The program ends with the status's code, and where that isn't 0
//! it prints one line to standard error, which names the fault. Its contracts say no more: what a terminal or a file takes is
//! outside of any proof.
#![tactic(auto)]

mod fault;
mod help;

use bcv_base::{Outside, StdSink, StdSource};
use bcv_dirstore::DirStore;
use bcv_disk::{Disk, MemDisk};
use bcv_host::{FileDisk, RandNames, RandomWords, SysClock};
use bcv_keeprule::{KeepRule, retention_passed};
use bcv_memstore::MemStore;
use bcv_store::Store;
use bcv_top::bcv_top;
use fault::{Fault, Folder};
use help::{HELP, VERSION};
use std::env;
use std::io::{self, ErrorKind, Write};
use std::process::ExitCode;

fn main(rt: HostRuntime) -> ExitCode {
    let ended = match words(&rt) {
        Ok(words) => run(&rt, &words),
        Err(fault) => Err(fault),
    };
    match ended {
        Ok(()) => ExitCode::from(0),
        Err(fault) => {
            let _ = eprintln!(rt; "bcvutil: {fault}");
            ExitCode::from(fault.code())
        }
    }
}

// The words, of which the first is the program's name.
fn words(rt: &HostRuntime) -> Result<Vec<String>, Fault> {
    match env::args(rt) {
        Ok(words) => words.collect(rt.alloc()).map_err(|_| Fault::NoMemory),
        Err(error) => Err(unread(error.kind())),
    }
}

// Runs the command of the words, of which the first is the program's name. Too few words are handed on as none.
fn run(rt: &HostRuntime, words: &[String]) -> Result<(), Fault> {
    let alloc = rt.alloc();
    match words {
        [_, word] if word.as_str() == "--help" => print(rt, HELP),
        [_, word] if word.as_str() == "--version" => print(rt, VERSION),
        [_, store, client, _, ..] => over_store(rt, store, client, &words[3..]),
        _ => command(rt, MemStore::new(alloc), MemDisk::new(alloc), &[]),
    }
}

// Runs a command over the store that a word names.
fn over_store(
    rt: &HostRuntime,
    store: &String,
    client: &String,
    words: &[String],
) -> Result<(), Fault> {
    if store.as_str() == "-" {
        return over_disk(rt, MemStore::new(rt.alloc()), client, words);
    }
    match DirStore::on(*rt, store) {
        Ok(opened) => over_disk(rt, opened, client, words),
        Err(fault) => Err(fault::unusable(Folder::Store, fault, copied(store)?)),
    }
}

// Runs a command over a store and the disk that a word names.
fn over_disk<S: Store + Drop>(
    rt: &HostRuntime,
    store: S,
    client: &String,
    words: &[String],
) -> Result<(), Fault> {
    if client.as_str() == "-" {
        return command(rt, store, MemDisk::new(rt.alloc()), words);
    }
    match FileDisk::on(rt, client) {
        Ok(disk) => command(rt, store, disk, words),
        Err(fault) => Err(fault::unusable(Folder::Client, fault, copied(client)?)),
    }
}

// Runs a command over standard input and standard output. What was written is flushed before the program ends.
fn command<S: Store + Drop, D: Disk + Drop>(
    rt: &HostRuntime,
    store: S,
    disk: D,
    words: &[String],
) -> Result<(), Fault> {
    let mut outside = Outside {
        store,
        clock: SysClock::new(*rt),
        names: RandNames::new(RandomWords::new(*rt)),
    };
    let mut input = StdSource::new(rt.reader());
    let mut output = StdSink::new(io::writer(rt));
    let rule = KeepRule::new(retention_passed);
    let ended = bcv_top(
        rt.alloc(),
        words,
        disk,
        &mut outside,
        &rule,
        &mut input,
        &mut output,
    );
    let flushed = output.inner.flush().is_ok();
    fault::ended(ended.status, flushed)
}

fn print(rt: &HostRuntime, text: &str) -> Result<(), Fault> {
    let mut output = io::writer(rt);
    output
        .write_all(text.as_bytes())
        .map_err(|_| Fault::WriteFault)?;
    output.flush().map_err(|_| Fault::WriteFault)
}

fn copied(word: &String) -> Result<String, Fault> {
    word.clone().map_err(|_| Fault::NoMemory)
}

// Words that can't be read are bad words, but for want of memory.
fn unread(kind: ErrorKind) -> Fault {
    match kind {
        ErrorKind::OutOfMemory => Fault::NoMemory,
        _ => Fault::BadWords,
    }
}
