//! The gatekeeper's program.
//!
//! proved: nothing is written of refused settings; what is printed is one report, of a run of the
//! set zone (`serve`); a report is its counts (`print_report`); the exit status once it has served
//! (`served_status`)
//! tested: the built program
#![tactic(auto)]

mod attendants;
mod ending;
mod over_socket;
mod page_server;
mod recorder;
mod report;
mod serve;
mod service;
mod stopping;
mod stopwatch;

use commands::{Choice, Serving, chosen};
use ending::served_status;
use log::Log;
use script::Output;
use serve::serve;
use std::alloc::{AllocError, AllocGlobal, Global};
use std::fs::File;
use std::io::{BufWriter, Read};
use std::net::{Net, TcpListener, TcpStream};
use std::process::ExitCode;
use std::random::RandomSource;
use std::rt::{Clock, Env, Files};
use std::sync::Wait;
use std::thread::Threads;
use std::{env, io};
use stopping::SignalStop;
use surroundings::{
    SETTINGS, StopSignal, ThisProgram, audit_source, check_source, explain_input, open_file,
    out_of_memory, probe_gatekeeper, replay_input, stream_failed,
};
use udp_socket::Stop;

fn main(rt: HostRuntime) -> ExitCode {
    let alloc = rt.alloc();
    // It reads a file of the system's, which only what has the whole runtime may hand to threads.
    let stop = SignalStop(StopSignal::new(ThisProgram::new(&rt, alloc)));
    let status = match words(&rt, alloc) {
        Ok(words) => run(&rt, alloc, &stop, words.as_slice()),
        Err(AllocError) => out_of_memory(&rt),
    };
    ExitCode::from(status)
}

/// The words of the command line.
fn words<R: Env + AllocGlobal>(rt: &R, alloc: Global) -> Result<Vec<String>, AllocError> {
    let Ok(words) = env::args(rt) else {
        return Err(AllocError);
    };
    words.collect(alloc)
}

fn run<
    R: Input
        + Files<File = File>
        + Print
        + Eprint
        + Threads
        + Wait
        + Clock
        + Net<Listener = TcpListener, Stream = TcpStream>
        + RandomSource
        + AllocGlobal
        + Log
        + Sync,
    S: Stop + Sync,
>(rt: &R, alloc: Global, stop: &S, words: &[String]) -> u8 {
    match chosen(rt, alloc, words) {
        Ok(Choice::Replay) => replay_input(rt, alloc),
        Ok(Choice::CheckSettings(file)) => check_source(rt, alloc, file),
        Ok(Choice::Serve(serving)) => serve_source(rt, alloc, serving, stop),
        Ok(Choice::Probe(probe)) => probe_gatekeeper(rt, alloc, probe),
        Ok(Choice::Explain) => explain_input(rt, alloc),
        Ok(Choice::Audit(file)) => audit_source(rt, alloc, file),
        Ok(Choice::Done(status)) => status,
        Err(AllocError) => out_of_memory(rt),
    }
}

/// Serves with the settings of a file, or with those on standard input.
fn serve_source<
    R: Input
        + Files<File = File>
        + Print
        + Eprint
        + Threads
        + Wait
        + Clock
        + Net<Listener = TcpListener, Stream = TcpStream>
        + RandomSource
        + AllocGlobal
        + Log
        + Sync,
    S: Stop + Sync,
>(rt: &R, alloc: Global, serving: Serving<'_>, stop: &S) -> u8 {
    let Some(name) = serving.file else {
        return serve_input(rt, alloc, rt.reader(), serving, stop);
    };
    match open_file(rt, SETTINGS, name) {
        Some(input) => serve_input(rt, alloc, input, serving, stop),
        None => stream_failed(rt),
    }
}

/// Serves with the settings of an input.
fn serve_input<
    R: Files<File = File>
        + Print
        + Eprint
        + Threads
        + Wait
        + Clock
        + Net<Listener = TcpListener, Stream = TcpStream>
        + RandomSource
        + AllocGlobal
        + Log
        + Sync,
    S: Stop + Sync,
    I: Read + Drop,
>(rt: &R, alloc: Global, input: I, serving: Serving<'_>, stop: &S) -> u8 {
    let Ok(buffer) = BufWriter::new(alloc, io::writer(rt)) else {
        return out_of_memory(rt);
    };
    let mut out = Output::new(buffer);
    let receives = serving.receives;
    let served = serve(rt, alloc, input, serving, stop, &mut out);
    served_status(rt, served, receives, stop)
}
