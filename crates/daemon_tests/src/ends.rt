use crate::container::{ONE_PAGE, bytes_of};
use crate::served::{Sent, is_answered, made, serve};
use bcv_daemon::ServeEnd;
use std::test::Fail;

// A poll, a begin and a hold, whose transaction is left open.
const HOLD: &str = "00000005 01 00000000 00000006 02 00000001 61 00000009 06 00000001 00000001";

const HELD: &str = "0000000d 01 00000000 0000000000000002
    00000015 02 00000001 0000000000000002 00000200 00000001 00000005 00 00000001";

#[test]
fn a_thousand_connections(rt: HostRuntime) -> Result<(), Fail> {
    let alloc = rt.alloc();
    let mut served = made(alloc, ONE_PAGE, &[0xaa])?;
    let held = bytes_of(alloc, HELD)?;
    for number in 0..1000u16 {
        let hold = bytes_of(alloc, HOLD)?;
        let is_so = is_answered(alloc, &mut served, hold, held.as_slice(), ServeEnd::Closed)?;
        assert!(rt; is_so, "{number}");
    }
    let look = bytes_of(alloc, "00000009 07 00000001 00000001")?;
    let refused = bytes_of(alloc, "0000000b 40 00000001 6e6f2d74786e")?;
    assert!(rt;
        is_answered(
            alloc,
            &mut served,
            look,
            refused.as_slice(),
            ServeEnd::Closed
        )?
    );
    assert!(rt; served.daemon.client.opened(1).is_none());
    Ok(())
}

#[test]
fn faults_end_a_connection(rt: HostRuntime) -> Result<(), Fail> {
    let alloc = rt.alloc();
    let mut served = made(alloc, ONE_PAGE, &[0xaa])?;
    let held = bytes_of(alloc, HELD)?;
    'rows: for (failing_take, failing_give, end, count) in [
        (2, 0, ServeEnd::ReadFault, 51),
        (0, 1, ServeEnd::WriteFault, 0),
        (1, 0, ServeEnd::ReadFault, 0),
        (3, 2, ServeEnd::Closed, 51),
    ] {
        let sent = Sent {
            bytes: bytes_of(alloc, HOLD)?,
            piece: 65536,
            failing_take,
            failing_give,
        };
        let (written, ended) = serve(alloc, &mut served, sent)?;
        assert!(rt; ended == end, "{failing_take} {failing_give}");
        assert!(rt; held.starts_with(written.as_slice()) && written.len() == count);
        assert!(rt; served.daemon.client.opened(1).is_none());
    }
    Ok(())
}
