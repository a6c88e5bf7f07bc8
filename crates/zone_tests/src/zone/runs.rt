//! Runs of a zone over two pools that count for themselves what is called of them. The first one
//! serves 10.1.0.0/16, where nobody is, and the second one all other addresses.
//!
//! Behind each step the second pool was asked once by each step that tells its answer, and by no
//! other; what came back to it came in one call; and each pool had its turn once by each step that
//! tells of it. What is sent, the scripts of examples/ and tests/scripts/ show octet for octet.

use crate::counting::{CountingPool, Counts, Met, NOTHING};
use crate::fixtures::{CALL, POOL, all_hold_in, event_from, parts, pool_of, source, zone_over};
use crate::zone::standing::{Holder, Leg, find_calls, find_endpoints};
use facts::ensure_of;
use pools::{Figures, Lend, Pool, StandardPool};
use ras_core::{DueItem, Event, Moment, Network, Networks, Note, Zone, figures_of};
use std::alloc::Global;
use std::sync::Arc;
use std::test::Fail;
use vectors::requests::{ARQ, RRQ_101, RRQ_102};
use zone_config::Key;

/// What is noted of a step.
#[derive(Clone, Copy, PartialEq, Eq)]
pub enum Kind {
    Served,
    Kept,
    Ignored,
    Idle,
    RegistrationOver,
    Interrogate,
    Silent,
    Retry,
    KeptOver,
    PoolTurn,
}

/// What is noted, if it is noted of a datagram or a turn.
fn kind_of(note: Note) -> Option<Kind> {
    match note {
        Note::Served => Some(Kind::Served),
        Note::Kept => Some(Kind::Kept),
        Note::Ignored(_) => Some(Kind::Ignored),
        Note::Idle => Some(Kind::Idle),
        Note::Done(DueItem::RegistrationOver(_)) => Some(Kind::RegistrationOver),
        Note::Done(DueItem::Interrogate(_)) => Some(Kind::Interrogate),
        Note::Done(DueItem::Silent(_)) => Some(Kind::Silent),
        Note::Done(DueItem::Retry(_)) => Some(Kind::Retry),
        Note::Done(DueItem::KeptOver(_)) => Some(Kind::KeptOver),
        Note::Done(DueItem::PoolTurn) => Some(Kind::PoolTurn),
        Note::Replaced(_) => None,
    }
}

/// A step by its name: its moment; the last number of the address from which a datagram comes, and
/// its octets, or 0 and none for a turn; what is noted; for how many units the pool is asked, if it
/// is asked, and its answer; and how many units are in use then, and how many endpoints registered.
pub type Line<'a> = (
    &'a str,
    u64,
    u8,
    &'a [u8],
    Kind,
    Option<(u64, Lend)>,
    u64,
    usize,
);

/// The settings of a run's zone, the units of each pool, and its burst, which is 0 for a pool that
/// never makes wait; how it opens, its further steps, and what stands in the zone at the end.
#[derive(Clone, Copy)]
pub struct Run<'a> {
    pub name: &'a str,
    pub set: &'a [(Key, u64)],
    pub pool: u64,
    pub burst: u32,
    pub opening: &'a [Line<'a>],
    pub lines: &'a [Line<'a>],
    pub endpoints: &'a [Holder],
    pub legs: &'a [Leg],
}

/// What a pool is asked for the first call, and answers.
pub const LENT: Option<(u64, Lend)> = Some((CALL, Lend::Lent(CALL)));

/// Two endpoints register.
pub const REGISTERED: [Line<'static>; 2] = [
    ("0001", 0, 5, &RRQ_101, Kind::Served, None, 0, 1),
    ("0002", 0, 6, &RRQ_102, Kind::Served, None, 0, 2),
];

/// The first of two endpoints calls the second one.
pub const OPENED: [Line<'static>; 3] = [
    ("0001", 0, 5, &RRQ_101, Kind::Served, None, 0, 1),
    ("0002", 0, 6, &RRQ_102, Kind::Served, None, 0, 2),
    ("call", 0, 5, &ARQ, Kind::Served, LENT, CALL, 2),
];

/// A run behind an open call, over pools of 2,500 units.
pub fn behind_a_call<'a>(
    name: &'a str,
    set: &'a [(Key, u64)],
    lines: &'a [Line<'a>],
    endpoints: &'a [Holder],
    legs: &'a [Leg],
) -> Run<'a> {
    Run {
        name,
        set,
        pool: POOL,
        burst: 0,
        opening: &OPENED,
        lines,
        endpoints,
        legs,
    }
}

/// What the second pool has met, and what the zone shows of it.
#[derive(Clone, Copy, PartialEq, Eq)]
struct Seen {
    counts: Counts,
    figures: Figures,
    last: Option<(u64, Lend)>,
}

impl Seen {
    /// What is to be seen behind a further step.
    fn behind(self, line: &Line<'_>) -> Seen {
        let Seen {
            mut counts,
            mut figures,
            mut last,
        } = self;
        let (_, _, _, _, kind, answer, in_use, _) = *line;
        if let Some((asked, answer)) = answer {
            last = Some((asked, answer));
            counts.lends = counts.lends.saturating_add(1);
            counts.asked = counts.asked.saturating_add(asked);
            counts.asked_last = asked;
            match answer {
                Lend::Lent(units) => counts.lent = counts.lent.saturating_add(units),
                Lend::Refused => figures.refusals = figures.refusals.saturating_add(1),
                Lend::Wait => figures.waits = figures.waits.saturating_add(1),
            }
        }
        if counts.lent > in_use {
            counts.returns = counts.returns.saturating_add(1);
        }
        if kind == Kind::PoolTurn {
            counts.turns = counts.turns.saturating_add(1);
        }
        counts.lent = in_use;
        figures.lent = in_use;
        Seen {
            counts,
            figures,
            last,
        }
    }
}

/// A zone over two pools, with what these have met.
#[derive(Drop)]
struct Counted {
    zone: Zone<CountingPool<StandardPool>>,
    first: Arc<Met>,
    second: Arc<Met>,
}

/// A pool of a run, which counts there.
fn counting(run: &Run<'_>, met: &Arc<Met>) -> Result<CountingPool<StandardPool>, Fail> {
    CountingPool::new(pool_of(run.pool, 0, run.burst), met)
}

/// The zone of a run, in which nothing has happened.
fn begin(alloc: Global, run: &Run<'_>) -> Result<Counted, Fail> {
    let first = Arc::new(alloc, Met::new())?;
    let second = Arc::new(alloc, Met::new())?;
    let office = Network {
        ip: [10, 1, 0, 0],
        bits: 16,
    };
    let mut parts = parts(alloc)?;
    parts.networks = Networks::from_vec([Some(office), None].to_vec(alloc)?);
    for (key, number) in run.set {
        key.set(&mut parts, *number);
    }
    let mut pools = Vec::new(alloc);
    pools.push(counting(run, &first)?)?;
    pools.push(counting(run, &second)?)?;
    let zone = zone_over(alloc, parts, pools)?;
    Ok(Counted {
        zone,
        first,
        second,
    })
}

fn event_of(alloc: Global, line: &Line<'_>) -> Result<Event, Fail> {
    let (_, at, last, octets, ..) = *line;
    if last == 0 {
        Ok(Event::Turn(Moment::new(at).ok_or("a moment")?))
    } else {
        event_from(alloc, source(last), octets, at)
    }
}

/// What the zone shows of its second pool, if it has two.
fn shown(zone: &Zone<CountingPool<StandardPool>>) -> Option<Figures> {
    let pools = zone.machine().pools();
    if pools.len() == 2 {
        Some(pools.get(1))
    } else {
        None
    }
}

/// Looks at the zone and its pools behind this step.
fn look(counted: &Counted, run: &str, line: &Line<'_>, seen: Seen) -> Result<(), Fail> {
    let (name, _, _, _, _, _, in_use, endpoints) = *line;
    let registered = counted.zone.endpoints()?.as_slice().len();
    let first = Counts {
        turns: seen.counts.turns,
        ..NOTHING
    };
    all_hold_in(
        run,
        name,
        &[
            (counted.zone.in_use() == in_use, "so many units are in use"),
            (registered == endpoints, "so many endpoints are registered"),
            (
                counted.first.counts() == first,
                "the first pool has had its turns alone",
            ),
            (
                counted.second.counts() == seen.counts,
                "the second pool was called as it should be",
            ),
            (
                shown(&counted.zone) == Some(seen.figures),
                "the zone shows the second pool as it is",
            ),
        ],
    )
}

/// Makes this step. An identifier is given in it exactly if there are more endpoints then.
fn make_step(alloc: Global, counted: &mut Counted, run: &str, line: &Line<'_>) -> Result<(), Fail> {
    let (name, _, _, _, kind, answer, _, endpoints) = *line;
    let before = counted.zone.endpoints()?.as_slice().len();
    let outcome = counted.zone.step(event_of(alloc, line)?)?;
    let is_noted = kind_of(outcome.note) == Some(kind);
    let told = match answer {
        Some((_, answer)) => Some(answer),
        None => None,
    };
    let is_answered = outcome.answer == told;
    let is_given = outcome.given.is_some() == (endpoints > before);
    drop(outcome);
    all_hold_in(
        run,
        name,
        &[
            (is_noted, "it is noted as it should be"),
            (is_answered, "the pool answers so, if it is asked"),
            (is_given, "an identifier is given to who is new alone"),
        ],
    )
}

/// Makes the steps of a run, and looks behind each, and at the end at what stands in the zone. What
/// is seen behind the last step.
fn make_steps(alloc: Global, counted: &mut Counted, run: &Run<'_>) -> Result<Seen, Fail> {
    let mut seen = Seen {
        counts: NOTHING,
        figures: Figures {
            limit: run.pool,
            lent: 0,
            refusals: 0,
            waits: 0,
        },
        last: None,
    };
    for lines in [run.opening, run.lines] {
        for line in lines {
            make_step(alloc, counted, run.name, line)?;
            seen = seen.behind(line);
            look(counted, run.name, line, seen)?;
        }
    }
    find_endpoints(alloc, &counted.zone, run.name, run.endpoints)?;
    find_calls(alloc, &counted.zone, run.name, run.legs)?;
    Ok(seen)
}

/// Ends the zone. Its second pool comes back: what it shows, and its last request with its answer.
fn close(counted: Counted) -> Option<(Figures, Option<(u64, Lend)>)> {
    let Counted { zone, .. } = counted;
    let pools = zone.close();
    match pools.as_slice() {
        [_, second] => Some((figures_of(second), second.last())),
        _ => None,
    }
}

/// Makes a run in a zone of its own. The second pool then comes back as it was shown, with nothing
/// lent.
fn try_run(alloc: Global, run: &Run<'_>) -> Result<(), Fail> {
    let mut counted = begin(alloc, run)?;
    let made = make_steps(alloc, &mut counted, run);
    let back = close(counted);
    let Seen {
        mut figures,
        last,
        ..
    } = made?;
    figures.lent = 0;
    ensure_of(
        run.name,
        back == Some((figures, last)),
        "the second pool comes back with nothing lent",
    )
}

/// Makes these runs.
pub fn try_runs(alloc: Global, runs: &[Run<'_>]) -> Result<(), Fail> {
    for run in runs {
        try_run(alloc, run)?;
    }
    Ok(())
}
