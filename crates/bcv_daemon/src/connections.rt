//! Connections served one after the other.
ghost use Rattle.std.specs.Prelude.{◌≤◌};
ghost use Rattle.bcv_client.specs.InForm.{IsClient};
ghost use Rattle.bcv_client.specs.RangeReads.{point};
ghost use Rattle.bcv_daemon.specs.Served.{ServedOn, ServedOne};

use crate::daemon::Daemon;
use crate::serving::serve_top;
use bcv_base::{Clock, Names, Outside, StdSink, StdSource};
use bcv_disk::Disk;
use bcv_store::Store;
use std::alloc::Global;
use std::net::{TcpListener, TcpStream};

/// Serves connections, each after the one before it has ended, until so many were served or one cannot be accepted. It returns
/// how many were served.
pub fn serve_connections<S: Store, D: Disk, C: Clock, N: Names>(
    alloc: Global,
    daemon: &mut Daemon<D>,
    outside: &mut Outside<S, C, N>,
    listener: &TcpListener,
    most: u64,
) -> u64
    requires client { IsClient daemon.old.client }
    ensures client { IsClient daemon.new.client }
    ensures most { result ≤ most }
    ensures served { ServedOn D.told D.shown S.told
        (point daemon.old.client (S.shown outside.old.store) (N.shown outside.old.names)
        (C.shown outside.old.clock))
        result
        (point daemon.new.client (S.shown outside.new.store) (N.shown outside.new.names)
        (C.shown outside.new.clock)) }
{
    for served in 0..most {
        match listener.accept() {
            Ok((stream, _)) => serve_stream(alloc, daemon, outside, &stream),
            Err(_) => return served,
        }
    }
    most
}

// Serves the connection of a stream.
fn serve_stream<S: Store, D: Disk, C: Clock, N: Names>(
    alloc: Global,
    daemon: &mut Daemon<D>,
    outside: &mut Outside<S, C, N>,
    stream: &TcpStream,
)
    requires client { IsClient daemon.old.client }
    ensures client { IsClient daemon.new.client }
    ensures served { ServedOne D.told D.shown S.told
        (point daemon.old.client (S.shown outside.old.store) (N.shown outside.old.names)
        (C.shown outside.old.clock))
        (point daemon.new.client (S.shown outside.new.store) (N.shown outside.new.names)
        (C.shown outside.new.clock)) }
{
    let _ = stream.set_nodelay(true);
    let mut input = StdSource::new(stream);
    let mut out = StdSink::new(stream);
    let _ = serve_top(alloc, daemon, outside, &mut input, &mut out);
}
