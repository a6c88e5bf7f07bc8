//! Those who look at a zone while it is served, each in a thread of its own.

ghost use Rattle.std.specs.Prelude.{◌≡◌, ◌≤◌, ◌<◌, ◌+◌, IfOk, is_some, vec_capacity, vec_len};
ghost use Rattle.gatekeeper.specs.Attendants.{attendants_wanted, count_if};

use crate::page_server::PageServer;
use crate::recorder::Recorder;
use log::Log;
use std::alloc::{AllocError, AllocGlobal, Global};
use std::io::Write;
use std::net::Net;
use std::random::RandomSource;
use std::rt::Clock;
use std::sync::Wait;
use udp_server::{RunningHistory, Watcher};
use zone_view::RunningZone;

/// One who looks at a zone while it is served.
#[derive(Drop)]
pub enum Attendant<'a, R, W: Write + Drop> {
    /// Shows it on the status page.
    Page(PageServer<'a, R>),
    /// Writes down what it does.
    Record(Recorder<'a, R, W>),
}

impl<R: Wait + Clock + Net + RandomSource + AllocGlobal + Log, W: Write + Drop> Watcher
    for Attendant<'_, R, W> {
    fn watch<Z: RunningZone + RunningHistory>(self, zone: &Z) {
        match self {
            Attendant::Page(page) => page.watch(zone),
            Attendant::Record(recorder) => recorder.watch(zone),
        }
    }
}

/// Adds the one who serves the page, if there is one, behind the others.
fn add_page<'a, R, W: Write + Drop>(
    page: Option<PageServer<'a, R>>,
    attendants: &mut Vec<Attendant<'a, R, W>>,
)
    requires { vec_len attendants.old < vec_capacity attendants.old }
    ensures added { vec_len attendants.new
        ≡ vec_len attendants.old + count_if (is_some page.entry) }
    ensures one { vec_len attendants.new ≤ vec_len attendants.old + 1 }
    ensures room { vec_capacity attendants.new ≡ vec_capacity attendants.old }
{
    if let Some(page) = page {
        attendants.push_reserved(Attendant::Page(page));
    }
}

/// Adds the one who writes the record, if there is one, behind the others.
fn add_recorder<'a, R, W: Write + Drop>(
    recorder: Option<Recorder<'a, R, W>>,
    attendants: &mut Vec<Attendant<'a, R, W>>,
)
    requires { vec_len attendants.old < vec_capacity attendants.old }
    ensures added { vec_len attendants.new
        ≡ vec_len attendants.old + count_if (is_some recorder.entry) }
{
    if let Some(recorder) = recorder {
        attendants.push_reserved(Attendant::Record(recorder));
    }
}

/// Those who are wanted.
pub fn attendants_of<'a, R, W: Write + Drop>(
    alloc: Global,
    page: Option<PageServer<'a, R>>,
    recorder: Option<Recorder<'a, R, W>>,
) -> Result<Vec<Attendant<'a, R, W>>, AllocError>
    ensures { IfOk result (λ attendants. vec_len attendants
        ≡ attendants_wanted (is_some page.entry) (is_some recorder.entry)) }
{
    let mut attendants = Vec::with_capacity(alloc, 2)?;
    add_page(page, &mut attendants);
    add_recorder(recorder, &mut attendants);
    Ok(attendants)
}
