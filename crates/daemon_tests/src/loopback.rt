ghost use Rattle.bcv_client.specs.InForm.{IsClient};

use crate::served::{Served, empty};
use bcv_daemon::serve_connections;
use std::io::{self, Read, Write};
use std::net::{SocketAddr, TcpListener, TcpStream};
use std::test::Fail;

// A poll, and then bytes that no message begins with.
const POLL: [u8; 13] = [0, 0, 0, 5, 1, 0, 0, 0, 0, 0, 0, 0, 4];

// The poll is refused: `no-container`.
const REFUSED: &[u8] = b"\0\0\0\x11\x40\0\0\0\0no-container";

// A peer that polls.
fn polls(rt: &HostRuntime, address: SocketAddr) -> io::Result<TcpStream> {
    let mut peer = TcpStream::connect(rt, address)?;
    peer.write_all(&POLL)?;
    Ok(peer)
}

// Whether the peer's poll was refused and its connection ended.
fn is_refused(rt: &HostRuntime, mut peer: TcpStream) -> io::Result<bool> {
    let mut answer = Vec::new(rt.alloc());
    peer.read_to_end(&mut answer)?;
    Ok(answer.as_slice() == REFUSED)
}

// Serves so many connections.
fn serve(rt: &HostRuntime, served: &mut Served, listener: &TcpListener, most: u64) -> u64
    requires client { IsClient served.old.daemon.client }
    ensures client { IsClient served.new.daemon.client }
{
    let Served { daemon, outside } = served;
    serve_connections(rt.alloc(), daemon, outside, listener, most)
}

#[test]
fn two_connections_one_after_the_other(rt: HostRuntime) -> Result<(), Fail> {
    let mut served = empty(rt.alloc())?;
    let listener = TcpListener::bind(&rt, "127.0.0.1:0")?;
    let address = listener.local_addr()?;
    let first = polls(&rt, address)?;
    let second = polls(&rt, address)?;
    assert!(rt; serve(&rt, &mut served, &listener, 2) == 2);
    assert!(rt; is_refused(&rt, first)? && is_refused(&rt, second)?);
    Ok(())
}
