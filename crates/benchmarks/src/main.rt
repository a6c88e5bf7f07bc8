//! Measurements of a zone's work, one by each word of the command line.
#![tactic(auto)]

mod days;
mod deeds;
mod replays;
mod requests;
mod servers;
mod snapshots;
mod steps;
mod storms;
mod zones;

use anyhow::{Result, bail};
use snapshots::Sizes;
use std::alloc::Global;
use std::env;
use std::rt::{Env, Files};
use std::sync::Wait;
use std::thread::Threads;
use std::time::Clock;

const USAGE: &str = "usage: benchmarks days DAYS | replays [ENDPOINTS STEPS] | serve DATAGRAMS | \
    snapshot ENDPOINTS CALLS REPLIES | steps ENDPOINTS CALLS REPLIES | storm ENDPOINTS";

/// Measures what the command line names, and prints what it finds. Without a word it does nothing.
fn main(rt: HostRuntime) -> Result<()> {
    let alloc = rt.alloc();
    let words: Vec<String> = env::args(&rt)?.collect(alloc)?;
    chosen(&rt, alloc, words.as_slice())
}

/// A measurement, with its sizes.
#[derive(Clone, Copy)]
enum Measurement {
    Days(u64),
    Replays { endpoints: usize, steps: usize },
    Serve(u64),
    Snapshot(Sizes),
    Steps(Sizes),
    Storm(u64),
}

fn chosen<R: Threads + Wait + Clock + Files + Print + Sync>(
    rt: &R,
    alloc: Global,
    words: &[String],
) -> Result<()> {
    let Some(name) = words.get(1) else {
        return Ok(());
    };
    let numbers = numbers_of(alloc, &words[2..])?;
    match named(name, numbers.as_slice()) {
        Some(measurement) => measure(rt, alloc, measurement),
        None => bail!("{USAGE}"),
    }
}

/// The numbers that these words write.
fn numbers_of(alloc: Global, words: &[String]) -> Result<Vec<u64>> {
    let mut numbers = Vec::new(alloc);
    for word in words {
        let Ok(number) = word.parse::<u64>() else {
            bail!("{word} is no number");
        };
        numbers.push(number)?;
    }
    Ok(numbers)
}

/// The measurement of this name with these numbers, if there is one.
fn named(name: &str, numbers: &[u64]) -> Option<Measurement> {
    match numbers {
        [days] if name == "days" => Some(Measurement::Days(*days)),
        [] if name == "replays" => Some(Measurement::Replays {
            endpoints: 1_000,
            steps: 100_000,
        }),
        [endpoints, steps] if name == "replays" => Some(Measurement::Replays {
            endpoints: *endpoints as usize,
            steps: *steps as usize,
        }),
        [datagrams] if name == "serve" => Some(Measurement::Serve(*datagrams)),
        [endpoints, calls, replies] => named_of_sizes(
            name,
            Sizes {
                endpoints: *endpoints as usize,
                calls: *calls as usize,
                replies: *replies as usize,
            },
        ),
        [endpoints] if name == "storm" => Some(Measurement::Storm(*endpoints)),
        _ => None,
    }
}

/// The measurement of this name of a zone with these sizes, if there is one.
fn named_of_sizes(name: &str, sizes: Sizes) -> Option<Measurement> {
    match name {
        "snapshot" => Some(Measurement::Snapshot(sizes)),
        "steps" => Some(Measurement::Steps(sizes)),
        _ => None,
    }
}

fn measure<R: Threads + Wait + Clock + Files + Print + Sync>(
    rt: &R,
    alloc: Global,
    measurement: Measurement,
) -> Result<()> {
    match measurement {
        Measurement::Days(days) => days::measure(rt, alloc, days),
        Measurement::Replays { endpoints, steps } => replays::measure(rt, alloc, endpoints, steps),
        Measurement::Serve(datagrams) => servers::measure(rt, alloc, datagrams),
        Measurement::Snapshot(sizes) => snapshots::measure(rt, alloc, sizes),
        Measurement::Steps(sizes) => steps::measure(rt, alloc, sizes),
        Measurement::Storm(endpoints) => storms::measure(rt, alloc, endpoints),
    }
}
