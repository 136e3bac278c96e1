use crate::{Acceptor, MemoryAcceptor, SureAcceptor, TcpAcceptor};
use desk_outside::{Sink, Source, read_up_to, write_all};
use std::alloc::{AllocError, Global};
use std::io::{Read, Write};
use std::net::{IpAddr, Ipv4Addr, SocketAddr, TcpStream};
use std::process;
use std::test::Fail;

fn two_connections(alloc: Global) -> Result<Vec<Vec<u8>>, AllocError> {
    let mut connections = Vec::new(alloc);
    for bytes in [b"one", b"two"] {
        connections.push(Vec::from_slice(alloc, bytes)?)?;
    }
    Ok(connections)
}

/// Whether all that is left are these bytes.
fn gives<S: Source>(alloc: Global, source: &mut S, bytes: &[u8]) -> bool {
    match read_up_to(alloc, source, 100) {
        Ok(found) => found.as_slice() == bytes,
        Err(_) => false,
    }
}

fn moves_on<A: Acceptor>(net: &mut A, expected: bool) -> bool {
    match net.accept() {
        Ok(more) => more == expected,
        Err(_) => false,
    }
}

#[test]
fn each_connection_has_its_own_bytes(rt: HostRuntime) -> Result<(), Fail> {
    let alloc = rt.alloc();
    let none = || Vec::new(alloc);
    let mut net = MemoryAcceptor::new(alloc, two_connections(alloc)?, none(), none())?;
    assert!(rt; gives(alloc, &mut net, b""));
    assert!(rt; write_all(&mut net, b"lost").is_ok());
    assert!(rt; moves_on(&mut net, true));
    assert!(rt; gives(alloc, &mut net, b"one"));
    assert!(rt; write_all(&mut net, b"first").is_ok());
    assert!(rt; moves_on(&mut net, true));
    assert!(rt; write_all(&mut net, b"second").is_ok());
    assert!(rt; moves_on(&mut net, false));
    assert!(rt; gives(alloc, &mut net, b"two"));
    Ok(())
}

#[test]
fn reads_and_writes_are_numbered_together_and_accepts_by_themselves(
    rt: HostRuntime,
) -> Result<(), Fail> {
    let alloc = rt.alloc();
    for number in [1, 2, 3] {
        let failing = Vec::from_slice(alloc, &[number])?;
        let refusing = Vec::from_slice(alloc, &[number])?;
        let mut net = MemoryAcceptor::new(alloc, two_connections(alloc)?, failing, refusing)?;
        let accepts = [
            net.accept().is_ok(),
            net.accept().is_ok(),
            net.accept().is_ok(),
        ];
        assert!(rt; accepts == [number != 1, number != 2, number != 3]);
        let mut room = [0; 2];
        let calls = [
            net.read(&mut room).is_ok(),
            net.write(b"piece").is_ok(),
            net.read(&mut room).is_ok(),
        ];
        assert!(rt; calls == [number != 1, number != 2, number != 3]);
    }
    Ok(())
}

#[test]
fn a_sure_acceptor_goes_through_its_connections(rt: HostRuntime) -> Result<(), Fail> {
    let alloc = rt.alloc();
    let mut net = SureAcceptor::new(alloc, two_connections(alloc)?)?;
    assert!(rt; moves_on(&mut net, true));
    assert!(rt; write_all(&mut net, b"first").is_ok());
    assert!(rt; moves_on(&mut net, true));
    assert!(rt; gives(alloc, &mut net, b"two"));
    assert!(rt; moves_on(&mut net, false));
    Ok(())
}

/// The client sends more than is read, and still gets the whole reply and then the end.
#[test]
fn a_connection_over_tcp_keeps_its_reply_though_bytes_are_unread(
    rt: HostRuntime,
) -> Result<(), Fail> {
    let port = 20_000 + (process::id(rt.process()) % 20_000) as u16;
    let address = SocketAddr::new(IpAddr::V4(Ipv4Addr::new(127, 0, 0, 1)), port);
    let mut net = TcpAcceptor::new(rt, address);
    assert!(rt; net.listen().is_ok());
    let mut client = TcpStream::connect(&rt, address)?;
    client.write_all(b"hello and more")?;
    assert!(rt; moves_on(&mut net, true));
    let mut room = [0; 5];
    assert!(rt; net.read(&mut room).is_ok());
    assert_eq!(rt; &room, b"hello");
    assert!(rt; write_all(&mut net, b"reply").is_ok());
    client.shutdown(std::net::Shutdown::Write)?;
    drop(net);
    let mut reply = Vec::new(rt.alloc());
    client.read_to_end(&mut reply)?;
    assert!(rt; reply.as_slice() == b"reply".as_slice());
    Ok(())
}
