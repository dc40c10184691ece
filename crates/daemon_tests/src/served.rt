//! A daemon in memory, and connections that it serves.
ghost use Rattle.std.specs.Prelude.{◌≤◌, IfOk};
ghost use Rattle.bcv_client.specs.InForm.{IsClient};

use crate::container::put_container;
use bcv_base::{CountNames, MemSink, MemSource, Outside, SetClock};
use bcv_client::{Client, Up};
use bcv_daemon::{Daemon, ServeEnd, serve_top};
use bcv_disk::MemDisk;
use bcv_memstore::MemStore;
use std::alloc::{AllocError, Global};

/// A daemon over a container, with what it asks.
#[derive(Drop)]
pub(crate) struct Served {
    pub daemon: Daemon<MemDisk>,
    pub outside: Outside<MemStore, SetClock, CountNames>,
}

/// What a peer sends, in pieces of at most so many bytes, and the take of the source and the give of the sink that fail, 0
/// for none.
#[derive(Drop)]
pub(crate) struct Sent {
    pub bytes: Vec<u8>,
    pub piece: usize,
    pub failing_take: u64,
    pub failing_give: u64,
}

/// A daemon over an empty store. Its client has two slots.
pub(crate) fn empty(alloc: Global) -> Result<Served, AllocError>
    ensures { IfOk result (λ served. IsClient served.daemon.client) }
{
    let mut outside = Outside {
        store: MemStore::new(alloc),
        clock: SetClock::new(0),
        names: CountNames::new(),
    };
    match Client::up(alloc, MemDisk::new(alloc), &mut outside.names, 2) {
        Up::Ready(client) => Ok(Served {
            daemon: Daemon::new(client),
            outside,
        }),
        Up::Refused(_, _) => Err(AllocError),
    }
}

/// A daemon over a container of one manifest, in hex, and pages that are zeros after these first bytes.
pub(crate) fn made(alloc: Global, manifest: &str, pages: &[u8]) -> Result<Served, AllocError>
    ensures { IfOk result (λ served. IsClient served.daemon.client) }
{
    let mut served = empty(alloc)?;
    put_container(alloc, &mut served.outside.store, manifest, pages)?;
    Ok(served)
}

/// Serves a connection, and returns what was written and how it ended.
pub(crate) fn serve(
    alloc: Global,
    served: &mut Served,
    sent: Sent,
) -> Result<(Vec<u8>, ServeEnd), AllocError>
    requires client { IsClient served.old.daemon.client }
    requires piece { 1 ≤ sent.piece }
    ensures client { IsClient served.new.daemon.client }
{
    let takes = [sent.failing_take].to_vec(alloc)?;
    let gives = [sent.failing_give].to_vec(alloc)?;
    let mut input = MemSource::new(sent.bytes, sent.piece, takes);
    let mut output = MemSink::new(alloc, gives);
    let end = serve_top(
        alloc,
        &mut served.daemon,
        &mut served.outside,
        &mut input,
        &mut output,
    );
    Ok((output.bytes().to_vec(alloc)?, end))
}

/// Whether a connection that sends these bytes in one piece ends so after these answers.
pub(crate) fn is_answered(
    alloc: Global,
    served: &mut Served,
    bytes: Vec<u8>,
    answers: &[u8],
    end: ServeEnd,
) -> Result<bool, AllocError>
    requires client { IsClient served.old.daemon.client }
    ensures client { IsClient served.new.daemon.client }
{
    let sent = Sent {
        bytes,
        piece: 65536,
        failing_take: 0,
        failing_give: 0,
    };
    let (written, ended) = serve(alloc, served, sent)?;
    Ok(ended == end && written.as_slice() == answers)
}
