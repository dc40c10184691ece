//! The program `bcvd STORE CLIENT ADDRESS`: serves a client of a container to connections, one after the other.
//!
//! STORE and CLIENT are folders that exist, `-` an empty one in memory: a store in a folder (`bcv_dirstore`) or in memory
//! (`bcv_memstore`), and a disk over the file `journal` (`bcv_host`) or in memory (`bcv_disk`). The connections are served by
//! `bcv_daemon`. Where the program doesn't end with status 0 it prints one line to standard error, which names the fault. Its
//! contracts say no more: what a peer sends and takes is outside of any proof.
#![tactic(auto)]

ghost use Rattle.bcv_client.specs.InForm.{IsClient};

mod fault;
mod help;

use bcv_base::{Clock, Names, Outside};
use bcv_client::{Client, Up};
use bcv_daemon::{Daemon, serve_connections};
use bcv_dirstore::DirStore;
use bcv_disk::{Disk, MemDisk};
use bcv_host::{FileDisk, RandNames, RandomWords, SysClock};
use bcv_memstore::MemStore;
use bcv_store::Store;
use fault::Fault;
use help::{HELP, VERSION};
use std::env;
use std::io::{self, ErrorKind, Write};
use std::net::TcpListener;
use std::process::ExitCode;

// How many blocks the client's cache has room for.
const SLOTS: u16 = 64;

// What is printed once connections are taken.
const READY: &str = "bcvd ready\n";

fn main(rt: HostRuntime) -> ExitCode {
    let ended = match words(&rt) {
        Ok(words) => run(&rt, &words),
        Err(fault) => Err(fault),
    };
    match ended {
        Ok(()) => ExitCode::from(0),
        Err(fault) => {
            let _ = eprintln!(rt; "bcvd: {fault}");
            ExitCode::from(fault.code())
        }
    }
}

// The words, of which the first is the program's name.
fn words(rt: &HostRuntime) -> Result<Vec<String>, Fault> {
    match env::args(rt) {
        Ok(words) => words.collect(rt.alloc()).map_err(|_| Fault::NoMemory),
        Err(error) => Err(unread(error.kind())),
    }
}

// Words that can't be read are bad words, but for want of memory.
fn unread(kind: ErrorKind) -> Fault {
    match kind {
        ErrorKind::OutOfMemory => Fault::NoMemory,
        _ => Fault::BadWords,
    }
}

// Does what the words say, of which the first is the program's name.
fn run(rt: &HostRuntime, words: &[String]) -> Result<(), Fault> {
    match words {
        [_, word] if word.as_str() == "--help" => print(rt, HELP),
        [_, word] if word.as_str() == "--version" => print(rt, VERSION),
        [_, store, client, address] => over_store(rt, store, client, address),
        _ => Err(Fault::BadWords),
    }
}

// Serves over the store that a word names.
fn over_store(
    rt: &HostRuntime,
    store: &String,
    client: &String,
    address: &String,
) -> Result<(), Fault> {
    if store.as_str() == "-" {
        return over_disk(rt, MemStore::new(rt.alloc()), client, address);
    }
    match DirStore::on(*rt, store) {
        Ok(opened) => over_disk(rt, opened, client, address),
        Err(fault) => Err(fault::of_store(fault, copied(store)?)),
    }
}

// Serves over a store and the disk that a word names.
fn over_disk<S: Store + Drop>(
    rt: &HostRuntime,
    store: S,
    client: &String,
    address: &String,
) -> Result<(), Fault> {
    if client.as_str() == "-" {
        return serve(rt, store, MemDisk::new(rt.alloc()), address);
    }
    match FileDisk::on(rt, client) {
        Ok(disk) => serve(rt, store, disk, address),
        Err(fault) => Err(fault::of_client(fault, copied(client)?)),
    }
}

// Brings the client up, and serves it.
fn serve<S: Store + Drop, D: Disk + Drop>(
    rt: &HostRuntime,
    store: S,
    disk: D,
    address: &String,
) -> Result<(), Fault> {
    let mut outside = Outside {
        store,
        clock: SysClock::new(*rt),
        names: RandNames::new(RandomWords::new(*rt)),
    };
    match Client::up(rt.alloc(), disk, &mut outside.names, SLOTS) {
        Up::Ready(client) => {
            let mut daemon = Daemon::new(client);
            listen(rt, &mut daemon, &mut outside, address)
        }
        Up::Refused(_, fault) => Err(fault::of_rising(fault)),
    }
}

// Listens at the address, says so, and serves one connection after the other until one cannot be accepted.
fn listen<S: Store, D: Disk, C: Clock, N: Names>(
    rt: &HostRuntime,
    daemon: &mut Daemon<D>,
    outside: &mut Outside<S, C, N>,
    address: &String,
) -> Result<(), Fault>
    requires client { IsClient daemon.old.client }
{
    let Ok(listener) = TcpListener::bind(rt, address.as_str()) else {
        return Err(Fault::Address(copied(address)?));
    };
    print(rt, READY)?;
    let served = serve_connections(rt.alloc(), daemon, outside, &listener, u64::MAX);
    if served == u64::MAX {
        Ok(())
    } else {
        Err(Fault::Address(copied(address)?))
    }
}

// Writes a text to standard output at once.
fn print(rt: &HostRuntime, text: &str) -> Result<(), Fault> {
    let mut output = io::writer(rt);
    output
        .write_all(text.as_bytes())
        .map_err(|_| Fault::WriteFault)?;
    output.flush().map_err(|_| Fault::WriteFault)
}

fn copied(word: &String) -> Result<String, Fault> {
    word.clone().map_err(|_| Fault::NoMemory)
}
