//! Serving a zone over a socket.

ghost use Rattle.std.specs.Prelude.{◌≡◌, ◌≤◌, All, IfErr, IfOk, vec_len};
ghost use Rattle.gatekeeper.specs.Attendants.{attendants_wanted};
ghost use Rattle.gatekeeper.specs.Clocks.{beginning};
ghost use Rattle.gatekeeper.specs.Serves.{IsServerFault, running_fault_of};
ghost use Rattle.udp_server.specs.Plans.{IsPlan};
ghost use Rattle.udp_server.specs.Served.{IsServed};
ghost use Rattle.udp_socket.specs.Limits.{receives_left};

use crate::service::Service;
use crate::stopwatch::Stopwatch;
use log::{Log, warn};
use pools::Pool;
use ras_core::Zone;
use std::alloc::{AllocError, Global};
use std::rt::Clock;
use std::sync::Wait;
use std::thread::Threads;
use std::time::Instant;
use surroundings::RunningFault;
use udp_server::{Open, Report, ServeFault, Watcher, serve_zone_watched};
use udp_socket::{BoundSocket, SocketEnd, Stop};

/// Asks for the buffer that is set, and warns if less is granted.
pub fn ask_for_buffer<R: Log>(rt: &R, socket: &BoundSocket, octets: u64) {
    if octets == 0 {
        return;
    }
    match socket.reserve_buffer(octets) {
        Some(granted) if granted >= octets => {}
        Some(granted) => warn!(rt; target: "serve",
            "the system holds {granted} octets of datagrams, not the {octets} of serve.buffer"),
        None => warn!(rt; target: "serve", "the system holds less than serve.buffer"),
    }
}

/// `count` clocks that began at this moment.
///
/// promise server-has-its-clocks: As many clocks as asked for, each with the given beginning;
/// likewise `ends_of`.
fn clocks_of<'a, R: Clock>(
    rt: &'a R,
    alloc: Global,
    start: Option<Instant>,
    count: usize,
) -> Result<Vec<Stopwatch<'a, R>>, AllocError>
    ensures count { IfOk result (λ clocks. vec_len clocks ≡ count) }
    ensures beginning { IfOk result
        (λ clocks. All (λ clock. beginning clock ≡ start) clocks.items) }
{
    let mut clocks = Vec::with_capacity(alloc, count)?;
    for _clock in 0..count {
        clocks.push_reserved(Stopwatch::new(rt, start));
    }
    Ok(clocks)
}

/// Ends of a socket, as many as the service has receivers, each for as many receives as are set.
fn ends_of<'a, S: Stop>(
    alloc: Global,
    socket: &'a BoundSocket,
    service: Service,
    stop: &'a S,
) -> Result<Vec<SocketEnd<'a, S>>, AllocError>
    ensures count { IfOk result (λ ends. vec_len ends ≡ service.receivers) }
    ensures receives { IfOk result
        (λ ends. All (λ end. receives_left end ≡ service.receives) ends.items) }
{
    let mut ends = Vec::with_capacity(alloc, service.receivers)?;
    for _end in 0..service.receivers {
        ends.push_reserved(socket.end(service.receives, stop));
    }
    Ok(ends)
}

/// Why there is no report, if the server ended with this fault.
fn running_fault(fault: ServeFault) -> RunningFault
    ensures { result ≡ running_fault_of fault }
{
    match fault {
        ServeFault::Memory => RunningFault::Memory,
        ServeFault::WrongCounts | ServeFault::NotFinished => RunningFault::NotFinished,
    }
}

/// Serves a zone over a socket until its ends have stopped, or are told to. Those who look at it
/// meanwhile are waited for at the end: they are as many as the service wants.
pub fn serve_socket<
    P: Pool + Send,
    R: Threads + Wait + Clock + Sync,
    S: Stop + Sync,
    W: Watcher + Send,
>(
    rt: &R,
    alloc: Global,
    zone: Zone<P>,
    socket: &BoundSocket,
    service: Service,
    stop: &S,
    watchers: Vec<W>,
) -> Result<Report<P>, RunningFault>
    requires receivers { service.receivers ≤ 15 }
    requires plan { IsPlan service.plan }
    requires watchers { vec_len watchers
        ≡ attendants_wanted service.has_page service.plan.hands_out }
    ensures served { IfOk result (λ r. IsServed zone.state r.finished r.datagrams r.turns
        r.changes) }
    ensures fault { IfErr result IsServerFault }
{
    let start = Instant::now(rt).ok();
    let ends = ends_of(alloc, socket, service, stop)?;
    let clocks = clocks_of(rt, alloc, start, service.receivers + 1)?;
    let sender = socket.end(None, stop);
    // the program replaces no pool
    let orders = Vec::new(alloc);
    let served = serve_zone_watched(
        rt,
        alloc,
        zone,
        ends,
        sender,
        &Open,
        clocks,
        orders,
        service.plan,
        watchers,
    );
    match served {
        Ok(report) => Ok(report),
        Err(fault) => Err(running_fault(fault)),
    }
}
