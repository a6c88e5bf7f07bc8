//! Scripts that are run with wrong pools, and streams that fail.

use crate::scripts::fixtures::{Answer, run_with, script_of};
use facts::all_hold;
use pools::{FixedPool, Lend, Pool, StepPool};
use script::{Input, Output, RunFault, ScriptFault, read_script, run_script};
use std::alloc::Global;
use std::io;
use std::test::Fail;

/// A script of one event.
const ONE_EVENT: &[u8] = b"zone gk 10.0.0.1:1719\nat 0 from 10.0.0.5:1719 80\n";

/// What a run of one event with these pools returns.
fn answer_with<P: Pool>(alloc: Global, pools: Vec<P>) -> Result<Answer, ScriptFault> {
    let script = script_of(alloc, ONE_EVENT)?;
    Ok(run_with(alloc, script, pools, Vec::new(alloc)).counted())
}

/// What it returns with this many boxes of fixed pools.
fn answer_with_boxes(alloc: Global, count: usize) -> Result<Answer, Fail> {
    let mut pools: Vec<Box<dyn Pool + Send>> = Vec::new(alloc);
    for _ in 0..count {
        pools.push(Box::new(alloc, FixedPool::new(1))?)?;
    }
    Ok(answer_with(alloc, pools)?)
}

/// A pool that has lent one unit. None: it lends nothing.
fn busy_pool() -> Option<FixedPool> {
    let mut busy = FixedPool::new(10);
    if busy.lend(1) == Lend::Lent(1) {
        Some(busy)
    } else {
        None
    }
}

/// What it returns with the box of such a pool.
fn answer_with_busy_box(alloc: Global) -> Result<Answer, Fail> {
    let busy = busy_pool().ok_or("the pool lends a unit")?;
    let mut pools: Vec<Box<dyn Pool + Send>> = Vec::new(alloc);
    pools.push(Box::new(alloc, busy)?)?;
    Ok(answer_with(alloc, pools)?)
}

/// What it returns with the box of a pool that lends in steps.
fn answer_with_step_box(alloc: Global) -> Result<Answer, Fail> {
    let mut pools: Vec<Box<dyn Pool + Send>> = Vec::new(alloc);
    pools.push(Box::new(alloc, StepPool::new(10, 2))?)?;
    Ok(answer_with(alloc, pools)?)
}

/// What a run returns whose pools are wrong. It writes nothing.
const REFUSED: Answer = (Err(RunFault::WrongPools), 0);

#[test]
fn wrong_pools_are_refused_before_anything_is_written(rt: HostRuntime) -> Result<(), Fail> {
    let alloc = rt.alloc();
    let none = answer_with_boxes(alloc, 0)? == REFUSED;
    let two = answer_with_boxes(alloc, 2)? == REFUSED;
    let busy = answer_with_busy_box(alloc)? == REFUSED;
    let idle = answer_with_step_box(alloc)? == (Ok(()), 21);
    all_hold(&[
        (none, "a run without a pool is refused"),
        (two, "a run with two pools is refused"),
        (busy, "a run with a pool that has lent is refused"),
        (idle, "a run with one idle pool is made"),
    ])
}

/// Gives seven octets at a time; its second read fails, and later ones go on.
#[derive(Drop)]
struct Faltering<'a> {
    text: &'a [u8],
    reads: usize,
}

impl io::Read for Faltering<'_> {
    fn read(&mut self, buf: &mut [u8]) -> io::Result<usize> {
        self.reads = self.reads.saturating_add(1);
        if self.reads == 2 {
            return Err(io::Error::from(io::ErrorKind::TimedOut));
        }
        let count = self.text.len().min(buf.len()).min(7);
        buf[..count].copy_from_slice(&self.text[..count]);
        self.text = &self.text[count..];
        Ok(count)
    }
}

/// Takes five octets at a time; its third write, or its flush, fails, and later ones go on.
#[derive(Drop)]
struct Full {
    writes: usize,
    flushes: bool,
}

impl Full {
    fn new(flushes: bool) -> Self {
        Full { writes: 0, flushes }
    }
}

impl io::Write for Full {
    fn write(&mut self, buf: &[u8]) -> io::Result<usize> {
        self.writes = self.writes.saturating_add(1);
        if self.writes == 3 && self.flushes {
            return Err(io::Error::from(io::ErrorKind::StorageFull));
        }
        Ok(buf.len().min(5))
    }

    fn flush(&mut self) -> io::Result<()> {
        if self.flushes {
            Ok(())
        } else {
            Err(io::Error::from(io::ErrorKind::StorageFull))
        }
    }
}

/// A script of two events.
const TWO_EVENTS: &[u8] =
    b"zone gk 10.0.0.1:1719\nat 0 from 10.0.0.5:1719\nat 1 from 10.0.0.5:1719\n";

/// Why a script isn't read from a stream whose second read fails, if it isn't. So many reads were
/// made before.
fn fault_behind(alloc: Global, reads: usize) -> Option<ScriptFault> {
    let text = TWO_EVENTS;
    let mut input = Input::new(Faltering { text, reads });
    read_script(alloc, &mut input).err()
}

/// What a run returns that writes to a stream which fails.
fn answer_to(alloc: Global, stream: Full) -> Result<Result<(), RunFault>, Fail> {
    let script = script_of(alloc, TWO_EVENTS)?;
    let mut pools = Vec::new(alloc);
    pools.push(FixedPool::new(100_000))?;
    let mut out = Output::new(stream);
    Ok(run_script(alloc, script, pools, Vec::new(alloc), &mut out))
}

/// Whether a run tells that the stream to which it writes has failed.
fn tells_of(alloc: Global, stream: Full) -> Result<bool, Fail> {
    Ok(answer_to(alloc, stream)? == Err(RunFault::Stream))
}

#[test]
fn a_stream_that_fails_is_told(rt: HostRuntime) -> Result<(), Fail> {
    let alloc = rt.alloc();
    let read = fault_behind(alloc, 0) == Some(ScriptFault::Stream);
    let later = fault_behind(alloc, 2).is_none();
    let written = tells_of(alloc, Full::new(true))?;
    let flushed = tells_of(alloc, Full::new(false))?;
    all_hold(&[
        (read, "a read that fails is told"),
        (later, "a stream that doesn't fail any more is read"),
        (written, "a write that fails is told"),
        (flushed, "a flush that fails is told"),
    ])
}
