//! A server over a UDP socket of this machine.

use crate::server::clocks::clocks;
use crate::server::fixtures::{Looked, NOT_SERVED, PLAN, served};
use facts::expect;
use pools::FixedPool;
use ras_module::Address;
use std::alloc::Global;
use std::net::{IpAddr, Ipv4Addr, Net, SocketAddr, UdpSocket};
use std::rt::Clock;
use std::sync::Wait;
use std::sync::atomic::{AtomicBool, AtomicU64};
use std::thread::Threads;
use std::time::Duration;
use udp_server::{Open, Report};
use udp_socket::{BindFault, BoundSocket, SocketEnd, bind_zone};
use vectors::replies::GCF;
use vectors::requests::GRQ;

/// An address of this machine, with a port that the system chooses.
const LOOPBACK: Address = Address {
    ip: [127, 0, 0, 1],
    port: 0,
};

/// For how many milliseconds a reply is waited for.
const PATIENCE: u64 = 5_000;

/// A socket that has sent the discovery to the gatekeeper.
fn client<R: Net>(rt: &R, gatekeeper: Address) -> Option<UdpSocket> {
    let [a, b, c, d] = gatekeeper.ip;
    let to = SocketAddr::new(IpAddr::V4(Ipv4Addr::new(a, b, c, d)), gatekeeper.port);
    let socket = UdpSocket::bind(rt, "127.0.0.1:0").ok()?;
    socket
        .set_read_timeout(Some(Duration::from_millis(PATIENCE)))
        .ok()?;
    socket.send_to(&GRQ, to).ok()?;
    Some(socket)
}

/// Receives the confirm of the discovery.
fn receive_confirm(client: &UdpSocket) -> Looked {
    let mut buffer = [0u8; 64];
    let Ok((octets, _from)) = client.recv_from(&mut buffer) else {
        return Err("the client receives a datagram");
    };
    expect(
        &buffer[..octets] == GCF.as_slice(),
        "it is the confirm of the discovery",
    )
}

/// Two ends of the socket that receive three times each.
fn ends<'a>(
    alloc: Global,
    socket: &'a BoundSocket,
    is_over: &'a AtomicBool,
) -> Option<Vec<SocketEnd<'a, AtomicBool>>> {
    let (first, second) = (socket.end(Some(3), is_over), socket.end(Some(3), is_over));
    vec![in alloc; first, second].ok()
}

/// Compares a report with that of a server that received one datagram, and sent one.
fn compare(report: Option<&Report<FixedPool>>) -> Looked {
    let report = report.ok_or(NOT_SERVED)?;
    let counts = (report.datagrams, report.sent, report.receive_faults);
    expect(
        counts == (1, 1, 0),
        "one datagram is received, and one reply sent",
    )
}

/// Serves a socket by two ends.
fn serve<R: Threads + Wait + Clock + Sync>(rt: &R, alloc: Global, socket: &BoundSocket) -> Looked {
    let (reads, is_over) = (AtomicU64::new(0), AtomicBool::new(false));
    let receivers = ends(alloc, socket, &is_over);
    let clocks = clocks(alloc, 2, &reads);
    let sender = socket.end(None, &is_over);
    let report = served(rt, alloc, receivers, sender, &Open, clocks, PLAN);
    compare(report.as_ref())
}

/// Answers the discovery of a client over a socket.
fn answer<R: Threads + Wait + Clock + Net + Sync>(rt: &R, alloc: Global) -> Looked {
    let socket = bind_zone(rt, LOOPBACK).ok().ok_or("the socket is bound")?;
    let address = socket.address().ok_or("the socket has an address")?;
    let client = client(rt, address).ok_or("the client sends its discovery")?;
    serve(rt, alloc, &socket)?;
    receive_confirm(&client)
}

/// What is told of an address that is bound already, and of one that no machine has for itself.
fn faults<R: Net>(rt: &R) -> Option<(BindFault, BindFault)> {
    let socket = bind_zone(rt, LOOPBACK).ok()?;
    let in_use = bind_zone(rt, socket.address()?).err()?;
    let elsewhere = Address {
        ip: [192, 0, 2, 1],
        port: 0,
    };
    let not_here = bind_zone(rt, elsewhere).err()?;
    Some((in_use, not_here))
}

#[test]
fn loopback(rt: HostRuntime) -> Looked {
    answer(&rt, rt.alloc())
}

#[test]
fn an_address_that_is_not_to_be_had(rt: HostRuntime) {
    let faults = faults(&rt);
    assert!(rt; faults == Some((BindFault::InUse, BindFault::NotHere)));
}

/// The octets of a receive buffer.
const BUFFER: u64 = 65_536;

#[test]
fn a_receive_buffer(rt: HostRuntime) {
    let granted = match bind_zone(&rt, LOOPBACK) {
        Ok(socket) => socket.reserve_buffer(BUFFER),
        Err(_) => None,
    };
    assert!(rt; granted == Some(BUFFER));
}
