//! Days in the life of a small zone, whose moments are handed in. Endpoints keep their
//! registrations alive and call one another each minute, and each of them vanishes in its turn, in
//! mid-call.

use crate::requests::{Endpoint, admission, disengage, keep_alive};
use crate::servers::print_memory;
use crate::zones::{datagram, register, register_all, zone_with};
use anyhow::{Context, Result, bail, ensure};
use pools::FixedPool;
use ras_core::{DueItem, Event, Moment, Note, Zone};
use ras_module::Octets;
use std::alloc::Global;
use std::rt::Files;

/// How many endpoints there are. Those with an even number call the one behind them.
const ENDPOINTS: u16 = 20;

/// For how long a registration lives, and how often it is kept alive, in seconds.
const TIME_TO_LIVE: u64 = 60;

const KEEP_ALIVE_EACH: u64 = 20;

/// How many replies are kept at most.
const KEPT: u64 = 4_096;

const SECONDS_A_DAY: u64 = 86_400;

const SECONDS_AN_HOUR: u64 = 3_600;

/// When in a minute a call is opened, and when it ends.
const OPENED_AT: u64 = 5;

const ENDED_AT: u64 = 50;

/// When in its hour an endpoint vanishes, and when it is back.
const GONE_FROM: u64 = 610;

const BACK_AT: u64 = 1_200;

/// How many turns a moment may have at most.
const MOST_TURNS: u32 = 1_000;

/// How often something was done.
#[derive(Clone, Copy)]
struct Tally {
    requests: u64,
    turns: u64,
    interrogations: u64,
    silent: u64,
    registrations_over: u64,
}

impl Tally {
    fn none() -> Self {
        Tally {
            requests: 0,
            turns: 0,
            interrogations: 0,
            silent: 0,
            registrations_over: 0,
        }
    }

    fn count(&mut self, item: &DueItem) {
        self.turns = self.turns.saturating_add(1);
        match item {
            DueItem::Interrogate(_) => self.interrogations = self.interrogations.saturating_add(1),
            DueItem::Silent(_) => self.silent = self.silent.saturating_add(1),
            DueItem::RegistrationOver(_) => {
                self.registrations_over = self.registrations_over.saturating_add(1);
            }
            _ => {}
        }
    }
}

/// Whether it is this endpoint's hour, and how many seconds of it are over.
fn own_hour(number: u16, second: u64) -> Option<u64> {
    let hour = second / SECONDS_AN_HOUR % u64::from(ENDPOINTS);
    if u64::from(number) == hour {
        Some(second % SECONDS_AN_HOUR)
    } else {
        None
    }
}

fn is_gone(number: u16, second: u64) -> bool {
    match own_hour(number, second) {
        Some(rest) => rest >= GONE_FROM && rest < BACK_AT,
        None => false,
    }
}

fn is_back(number: u16, second: u64) -> bool {
    own_hour(number, second) == Some(BACK_AT)
}

/// The number of the call that this endpoint opens in this minute.
fn call_of(number: u16, second: u64) -> u64 {
    (second / 60) << 16 | u64::from(number)
}

/// What an endpoint sends at this second, if anything.
fn request_of(alloc: Global, endpoint: &Endpoint, second: u64) -> Result<Option<Octets>> {
    let number = endpoint.number;
    let seq = (second % 60_000) as u16;
    let call = call_of(number, second);
    let is_caller = number % 2 == 0;
    if is_caller && second % 60 == OPENED_AT {
        let called = number.saturating_add(1);
        return Ok(Some(admission(alloc, endpoint, seq, called, call)?));
    }
    if is_caller && second % 60 == ENDED_AT {
        return Ok(Some(disengage(alloc, endpoint, seq, call)?));
    }
    if second % KEEP_ALIVE_EACH == u64::from(number) % KEEP_ALIVE_EACH {
        return Ok(Some(keep_alive(alloc, endpoint, seq)?));
    }
    Ok(None)
}

/// What an endpoint does at this second: whether it sent a request, which was served.
fn act(
    alloc: Global,
    zone: &mut Zone<FixedPool>,
    endpoint: &mut Endpoint,
    second: u64,
    moment: Moment,
) -> Result<bool> {
    let number = endpoint.number;
    if is_gone(number, second) {
        return Ok(false);
    }
    if is_back(number, second) {
        *endpoint = register(alloc, zone, number, moment)?;
        return Ok(true);
    }
    let Some(octets) = request_of(alloc, endpoint, second)? else {
        return Ok(false);
    };
    let outcome = zone.step(datagram(number, octets, moment))?;
    ensure!(outcome.note == Note::Served, "a request isn't served");
    Ok(true)
}

/// Makes turns until nothing is due.
fn make_turns(zone: &mut Zone<FixedPool>, moment: Moment, tally: &mut Tally) -> Result<()> {
    for _turn in 0..MOST_TURNS {
        let outcome = zone.step(Event::Turn(moment))?;
        match &outcome.note {
            Note::Done(item) => tally.count(item),
            _ => return Ok(()),
        }
    }
    bail!("the turns of a moment don't end")
}

/// One second: what is due, and then what each endpoint does.
fn live_a_second(
    alloc: Global,
    zone: &mut Zone<FixedPool>,
    endpoints: &mut [Endpoint],
    second: u64,
    tally: &mut Tally,
) -> Result<()> {
    let moment = Moment::new(second.saturating_mul(1_000)).context("too many days")?;
    make_turns(zone, moment, tally)?;
    for endpoint in endpoints {
        if act(alloc, zone, endpoint, second, moment)? {
            tally.requests = tally.requests.saturating_add(1);
        }
    }
    Ok(())
}

fn live_a_day(
    alloc: Global,
    zone: &mut Zone<FixedPool>,
    endpoints: &mut [Endpoint],
    day: u64,
    tally: &mut Tally,
) -> Result<()> {
    let first = day.saturating_mul(SECONDS_A_DAY);
    for second in 0..SECONDS_A_DAY {
        live_a_second(alloc, zone, endpoints, first.saturating_add(second), tally)?;
    }
    ensure!(
        zone.in_use() == 0,
        "all calls are over, and bandwidth is in use"
    );
    Ok(())
}

fn print_day(rt: &(impl Files + Print), alloc: Global, day: u64, tally: &Tally) -> Result<()> {
    println!(rt;
        "after day {}: {} requests, {} turns, {} interrogations, {} endpoints silent, \
            {} registrations over",
        day.saturating_add(1),
        tally.requests,
        tally.turns,
        tally.interrogations,
        tally.silent,
        tally.registrations_over
    )?;
    print_memory(rt, alloc)
}

fn live(
    rt: &(impl Files + Print),
    alloc: Global,
    zone: &mut Zone<FixedPool>,
    days: u64,
) -> Result<()> {
    let mut endpoints = register_all(alloc, zone, usize::from(ENDPOINTS))?;
    let mut tally = Tally::none();
    for day in 0..days {
        live_a_day(alloc, zone, &mut endpoints, day, &mut tally)?;
        print_day(rt, alloc, day, &tally)?;
    }
    Ok(())
}

/// Lives this many days, and prints for each what was done until then, and how much memory the
/// program had at most and has.
pub fn measure(rt: &(impl Files + Print), alloc: Global, days: u64) -> Result<()> {
    let mut zone = zone_with(alloc, KEPT, TIME_TO_LIVE)?;
    let lived = live(rt, alloc, &mut zone, days);
    drop(zone);
    lived
}
