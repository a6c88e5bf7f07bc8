//! Serving a zone over UDP.

ghost use Rattle.std.specs.Prelude.{◌≡◌, ◌≤◌, IfErr, IfOk, IfSome, IsSome, OnOk, is_some};
ghost use Rattle.gatekeeper.specs.Reports.{IsRunPrinted, IsServicePrinted};
ghost use Rattle.gatekeeper.specs.Serves.{AreServed, IsAttendedFault, IsPagedFault};
ghost use Rattle.gatekeeper.specs.Serves.{IsPrintFault, IsReportWritten, IsServeFault};
ghost use Rattle.gatekeeper.specs.Serves.{IsServiceWritten};
ghost use Rattle.settings.specs.Settings.{AreSettings};
ghost use Rattle.surroundings.specs.Zones.{zone_set};
ghost use Rattle.udp_server.specs.Plans.{IsPlan};
ghost use Rattle.udp_server.specs.Served.{IsServed};

use crate::attendants::attendants_of;
use crate::over_socket::{ask_for_buffer, serve_socket};
use crate::page_server::watcher_of;
use crate::recorder::planned_recorder;
use crate::report::{print_report, warn_of_faults};
use crate::service::{Service, Task};
use commands::{ReadInput, Serving, pools_of, read_input};
use log::Log;
use pools::Pool;
use ras_core::{Config, Zone};
use ras_module::Address;
use script::Output;
use settings::Settings;
use status_page::About;
use status_server::BoundListener;
use std::alloc::{AllocGlobal, Global};
use std::fs::File;
use std::io::{Read, Write};
use std::net::{Net, TcpListener, TcpStream};
use std::random::RandomSource;
use std::rt::{Clock, Files};
use std::sync::Wait;
use std::thread::Threads;
use surroundings::{
    PlannedRecord, RunningFault, ServingFault, Source, bind_page, planned_record, set_zone,
    tell_cause, tell_place, tell_zone, warn_of,
};
use udp_server::Report;
use udp_socket::{BoundSocket, Stop, bind_zone};

/// Serves a zone over a socket, its status page if there is a listener for it, and writes its
/// record if one is planned: entries are handed out for it alone. The record is begun once socket
/// and page are bound.
fn serve_attended<
    P: Pool + Send,
    R: Threads
        + Wait
        + Clock
        + Files<File = File>
        + Net<Listener = TcpListener, Stream = TcpStream>
        + RandomSource
        + AllocGlobal
        + Log
        + Sync,
    S: Stop + Sync,
>(
    rt: &R,
    alloc: Global,
    zone: Zone<P>,
    socket: &BoundSocket,
    service: Service,
    stop: &S,
    listener: Option<&BoundListener>,
    about: &About,
    planned: Option<PlannedRecord<'_>>,
) -> Result<Report<P>, RunningFault>
    requires receivers { service.receivers ≤ 15 }
    requires plan { IsPlan service.plan }
    requires page { service.has_page ≡ is_some listener }
    requires record { service.plan.hands_out ≡ is_some planned }
    ensures served { IfOk result (λ r. IsServed zone.state r.finished r.datagrams r.turns
        r.changes) }
    ensures fault { IfErr result (IsAttendedFault (is_some planned.entry)) }
{
    let page = watcher_of(rt, listener, about);
    let recorder = planned_recorder(rt, alloc, planned)?;
    let attendants = attendants_of(alloc, page, recorder)?;
    ask_for_buffer(rt, socket, service.buffer);
    tell_zone(rt, &about.name, about.address, service.receivers);
    serve_socket(rt, alloc, zone, socket, service, stop, attendants)
}

/// Binds the address of the status page, if it has one, and serves the zone over a socket.
fn serve_paged<
    P: Pool + Send,
    R: Threads
        + Wait
        + Clock
        + Files<File = File>
        + Net<Listener = TcpListener, Stream = TcpStream>
        + RandomSource
        + AllocGlobal
        + Log
        + Sync,
    S: Stop + Sync,
>(
    rt: &R,
    alloc: Global,
    zone: Zone<P>,
    socket: &BoundSocket,
    service: Service,
    stop: &S,
    page: Option<Address>,
    about: &About,
    planned: Option<PlannedRecord<'_>>,
) -> Result<Report<P>, RunningFault>
    requires receivers { service.receivers ≤ 15 }
    requires plan { IsPlan service.plan }
    requires page { service.has_page ≡ is_some page }
    requires record { service.plan.hands_out ≡ is_some planned }
    ensures served { IfOk result (λ r. IsServed zone.state r.finished r.datagrams r.turns
        r.changes) }
    ensures fault { IfErr result (IsPagedFault (is_some page) (is_some planned.entry)) }
{
    let listener = bind_page(rt, page)?;
    let listener = listener.as_ref();
    serve_attended(
        rt, alloc, zone, socket, service, stop, listener, about, planned,
    )
}

/// Serves the zone that is set with the pools that were made for it, once it is seen that they are
/// its pools.
///
/// promise served-zone-is-the-set-one: What the server leaves is a history of the set zone
/// (`IsServed`, `zone_set`).
fn serve_pools<
    P: Pool + Send,
    R: Threads
        + Wait
        + Clock
        + Files<File = File>
        + Net<Listener = TcpListener, Stream = TcpStream>
        + RandomSource
        + AllocGlobal
        + Log
        + Sync,
    S: Stop + Sync,
>(
    rt: &R,
    alloc: Global,
    settings: Settings,
    pools: Vec<P>,
    task: Task<'_, S>,
) -> Result<Report<P>, RunningFault>
    requires { AreSettings settings }
    ensures served { IfOk result
        (λ r. IsServed (zone_set settings).state r.finished r.datagrams r.turns
        r.changes) }
    ensures fault { IfErr result
        (IsServeFault (is_some settings.status) (is_some task.entry.record)) }
{
    let service = Service::of(&settings, task.receives, task.record.is_some());
    let zone = set_zone(alloc, &settings, pools)?;
    let Settings {
        config,
        pools: specs,
        status,
        ..
    } = settings;
    let planned = planned_record(rt, &config, specs, task.record)?;
    let about = about_of(&config);
    let address = about.address;
    let socket = match bind_zone(rt, address) {
        Ok(socket) => socket,
        Err(fault) => {
            tell_cause(rt, address, fault.cause());
            return Err(RunningFault::Bind);
        }
    };
    let report = serve_paged(
        rt, alloc, zone, &socket, service, task.stop, status, &about, planned,
    )?;
    warn_of_faults(rt, &report);
    Ok(report)
}

/// What a page tells of the zone that is set so: its identifier, and the address at which it is
/// served.
fn about_of(config: &Config) -> About
    ensures name { result.name ≡ config.now.identifier }
    ensures address { result.address ≡ config.now.address }
{
    let parts = config.parts();
    About {
        name: parts.identifier,
        address: parts.address,
    }
}

/// The same, and prints the report.
fn serve_and_print<
    P: Pool + Send,
    R: Threads
        + Wait
        + Clock
        + Files<File = File>
        + Net<Listener = TcpListener, Stream = TcpStream>
        + RandomSource
        + AllocGlobal
        + Log
        + Sync,
    S: Stop + Sync,
    W: Write + Drop,
>(
    rt: &R,
    alloc: Global,
    settings: Settings,
    pools: Vec<P>,
    task: Task<'_, S>,
    out: &mut Output<W>,
) -> Result<(), RunningFault>
    requires { AreSettings settings }
    ensures printed { OnOk result (IsRunPrinted settings out.old.contents out.new.contents) }
    ensures written { IsReportWritten out.old out.new result }
    ensures fault { IfErr result
        (IsPrintFault (is_some settings.status) (is_some task.entry.record)) }
{
    let report = match serve_pools(rt, alloc, settings, pools, task) {
        Ok(report) => report,
        Err(fault) => return Err(fault),
    };
    match print_report(&report, out) {
        Ok(()) => Ok(()),
        Err(_) => Err(RunningFault::Stream),
    }
}

/// Makes the pools of the settings, each in a box, serves their zone, and prints the report.
fn serve_settings<
    R: Threads
        + Wait
        + Clock
        + Files<File = File>
        + Net<Listener = TcpListener, Stream = TcpStream>
        + RandomSource
        + AllocGlobal
        + Log
        + Sync,
    S: Stop + Sync,
    W: Write + Drop,
>(
    rt: &R,
    alloc: Global,
    settings: Settings,
    task: Task<'_, S>,
    out: &mut Output<W>,
) -> Result<(), RunningFault>
    requires { AreSettings settings }
    ensures printed { OnOk result (IsRunPrinted settings out.old.contents out.new.contents) }
    ensures written { IsReportWritten out.old out.new result }
    ensures fault { IfErr result
        (IsPrintFault (is_some settings.status) (is_some task.entry.record)) }
{
    // A function that hands out a box hides what is in it, so the boxes are made here.
    let mut boxes: Vec<Box<dyn Pool + Send>> = Vec::new(alloc);
    let Ok(made) = pools_of(alloc, settings.pools.as_slice()) else {
        return Err(RunningFault::Memory);
    };
    for pool in made {
        let Ok(boxed) = Box::new(alloc, pool) else {
            return Err(RunningFault::Memory);
        };
        let boxed: Box<dyn Pool + Send> = boxed;
        if boxes.push(boxed).is_err() {
            return Err(RunningFault::Memory);
        }
    }
    serve_and_print(rt, alloc, settings, boxes, task, out)
}

/// Reads settings from this input, and serves their zone as it is asked for, until it is told to
/// stop. Then the report is printed. If there is none, nothing is written, and the log tells what a
/// person has to know besides the fault.
///
/// promise refused-settings-serve-nothing: Only settings that pass are served, and without a report
/// nothing is written (`AreServed`, `IsServiceWritten`).
/// promise report-is-of-the-served-run: What is printed is one report, of a run of the zone that
/// the input sets: its datagrams and turns are those of the run (`IsServicePrinted`,
/// `IsRunPrinted`).
pub fn serve<
    I: Read + Drop,
    R: Threads
        + Wait
        + Clock
        + Files<File = File>
        + Net<Listener = TcpListener, Stream = TcpStream>
        + RandomSource
        + AllocGlobal
        + Log
        + Sync,
    S: Stop + Sync,
    W: Write + Drop,
>(
    rt: &R,
    alloc: Global,
    input: I,
    serving: Serving<'_>,
    stop: &S,
    out: &mut Output<W>,
) -> Result<(), ServingFault>
    ensures settings { IfSome (I.remaining input) (λ octets. AreServed octets result) }
    ensures printed { OnOk result
        (IsServicePrinted (I.remaining input) out.old.contents out.new.contents) }
    ensures written { IsServiceWritten out.old out.new result }
    ensures unasked { IfErr result (λ fault.
        fault ≡ ServingFault.Running RunningFault.Record → IsSome serving.entry.record) }
{
    let source = Source { file: serving.file };
    let ReadInput {
        settings,
        passed_over,
    } = match read_input(alloc, input) {
        Ok(read) => read,
        Err(fault) => {
            tell_place(rt, source, &fault);
            return Err(ServingFault::Settings(fault));
        }
    };
    warn_of(rt, source, &passed_over);
    let task = Task {
        receives: serving.receives,
        record: serving.record,
        stop,
    };
    match serve_settings(rt, alloc, settings, task, out) {
        Ok(()) => Ok(()),
        Err(fault) => Err(ServingFault::Running(fault)),
    }
}
