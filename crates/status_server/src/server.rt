//! Serving the pages, several connections at a time.

ghost use Rattle.std.specs.Prelude.{ℕ, ◌≡◌, ◌<◌, ◌↔◌, IfOk, IfSome, IsFalse, IsTrue, Some, true};
ghost use Rattle.status_server.specs.Arrivals.{IsFound, IsNext};
ghost use Rattle.status_server.specs.Pace.{IsPaceAfter};

use crate::bound::BoundListener;
use crate::entrance::{Entrance, TURN};
use crate::host::{Host, MOST_CONNECTIONS, PageHost};
use crate::pace::Pace;
use crate::shown::Shown;
use crate::site::Site;
use crate::view::View;
use futures::Future;
use hyper::server::conn::http1::Builder;
use status_page::About;
use std::alloc::AllocGlobal;
use std::hash::RandomState;
use std::io;
use std::marker::Brand;
use std::net::Net;
use std::random::RandomSource;
use std::rc::Rc;
use std::sync::Wait;
use std::time::{Clock, Duration, Instant};
use tokio::net::{TcpListener, TcpStream};
use tokio::runtime::LocalRuntime;
use tokio::task::LocalSet;
use tokio::time::{Handle, Sleep};
use zone_view::RunningZone;

/// The most octets of a request's head.
const MOST_HEAD: usize = 8192;

/// Serves the pages of a zone until it has ended, in this thread. Connections that are open then
/// are let go. Errors are those of the system; none of them is a connection's.
///
/// promise page-is-served-until-the-zone-ends: Serving the page ends without an error only if the
/// zone has ended.
pub fn serve<R, Z>(rt: &R, listener: &BoundListener, about: About, zone: &Z) -> io::Result<()>
where
    R: Wait + Clock + Net + RandomSource + AllocGlobal,
    Z: RunningZone,
    ensures { IfOk result (λ _. Z.is_ended zone.now true) }
{
    serve_site::<R, Z, Brand>(rt, listener, about, zone)
}

/// The site is the caller's to pick.
fn serve_site<R, Z, S>(rt: &R, listener: &BoundListener, about: About, zone: &Z) -> io::Result<()>
where
    R: Wait + Clock + Net + RandomSource + AllocGlobal,
    Z: RunningZone,
    S: Site<Z>,
    requires { S.site ≡ Some (about, zone.now) }
    ensures { IfOk result (λ _. Z.is_ended zone.now true) }
{
    let view = Shown::<R, Z, S>::new(rt, rt.alloc(), about, zone);
    serve_view(rt, listener, view)
}

/// Serves the pages of a view until it has ended.
fn serve_view<R, V>(rt: &R, listener: &BoundListener, view: V) -> io::Result<()>
where
    R: Wait + Clock + Net + RandomSource + AllocGlobal,
    V: View,
    ensures { IfOk result (λ _. V.is_ended view true) }
{
    let alloc = rt.alloc();
    let mut runtime = LocalRuntime::new(rt)?;
    let host = PageHost {
        rt,
        alloc,
        timers: runtime.handle().time().clone()?,
        http: one_request(rt)?,
        view: Rc::new(alloc, view)?,
        connections: Rc::new(alloc, ())?,
    };
    let listener = listener_in(&runtime, listener)?;
    serve_all(rt, &mut runtime, listener, host)
}

/// How a connection is served: it has one request, with a head that isn't long.
fn one_request<R: RandomSource + AllocGlobal>(rt: &R) -> io::Result<Builder>
    ensures one { IfOk result (λ http. IsFalse http.options.keep_alive) }
    ensures head { IfOk result (λ http. http.config.max_buf_size ≡ MOST_HEAD) }
{
    let mut http = Builder::new(rt.alloc(), RandomState::new(rt)?);
    http.keep_alive(false).max_buf_size(MOST_HEAD);
    Ok(http)
}

/// A listener in this runtime, at the bound address.
fn listener_in(runtime: &LocalRuntime, listener: &BoundListener) -> io::Result<TcpListener> {
    let own = listener.listener.try_clone()?;
    TcpListener::from_std(own, runtime.handle().reactor())
}

/// Serves the connections that come, until the host has ended.
fn serve_all<R, H>(
    rt: &R,
    runtime: &mut LocalRuntime,
    listener: TcpListener,
    host: H,
) -> io::Result<()>
where
    R: Wait + Clock + Net + RandomSource + AllocGlobal,
    H: Host,
    ensures { IfOk result (λ _. H.is_ended host true) }
{
    let mut listener = listener;
    let timers = runtime.handle().time().clone()?;
    let works = LocalSet::new(rt.alloc())?;
    let mut pace = Pace::new(Instant::now(rt)?);
    for _ in rt.forever() {
        if host.has_ended() {
            return Ok(());
        }
        let next = next_connection(
            rt,
            runtime,
            &works,
            &timers,
            &mut listener,
            &host,
            &mut pace,
        )?;
        let Some(socket) = next else {
            continue;
        };
        if let Ok(work) = host.work(socket) {
            let _ = works.spawn_local(work);
        }
    }
    unreachable!()
}

/// Whether there is room for another connection beside this many.
fn has_room(count: usize) -> bool
    ensures { IsTrue result ↔ (count < MOST_CONNECTIONS) }
{
    count < MOST_CONNECTIONS
}

/// The next connection, behind a pause if the pace asks for one; None if there is no room for it,
/// or if none comes before the next turn. It is counted.
///
/// promise connections-that-come-are-taken: A connection that a look for one comes to is the next
/// one; there is none only if there was no room, none came before the next turn, or the listener
/// failed (`IsNext`).
fn next_connection<R, H, W, L>(
    rt: &R,
    runtime: &mut LocalRuntime,
    works: &LocalSet<W>,
    timers: &Handle,
    entrance: &mut L,
    host: &H,
    pace: &mut Pace,
) -> io::Result<Option<TcpStream>>
where
    R: Wait + Clock + RandomSource + AllocGlobal,
    H: Host,
    W: Future<Output = ()>,
    L: Entrance,
    ensures room { IfOk result (λ next. IfSome next (λ _.
        (count : ℕ) × H.serves host.now count × (count < MOST_CONNECTIONS))) }
    ensures counted { IfOk result (λ next. IsPaceAfter next pace.old pace.new) }
    ensures told { IfOk result (IsNext (H.serves host.now) (L.finds entrance.old)) }
{
    if let Some(moment) = pace.pause() {
        rest(rt, runtime, works, timers.sleep_until(moment)?)?;
    }
    if !has_room(host.open()) {
        let turn = Duration::from_millis(TURN);
        rest(rt, runtime, works, timers.sleep(rt, turn)?)?;
        return Ok(None);
    }
    let Some(socket) = accepted(rt, runtime, works, timers, entrance)? else {
        return Ok(None);
    };
    pace.count(Instant::now(rt)?);
    Ok(Some(socket))
}

/// Serves the connections that are open, until a pause is over.
fn rest<R, W>(
    rt: &R,
    runtime: &mut LocalRuntime,
    works: &LocalSet<W>,
    pause: Sleep,
) -> io::Result<()>
where
    R: Wait + Clock + RandomSource + AllocGlobal,
    W: Future<Output = ()>,
{
    let _ = works.block_on_local(rt, runtime, pause)?;
    Ok(())
}

/// A connection that comes before the next turn, if one does. Meanwhile those that are open are
/// served, also if the listener fails.
fn accepted<R, W, L>(
    rt: &R,
    runtime: &mut LocalRuntime,
    works: &LocalSet<W>,
    timers: &Handle,
    entrance: &mut L,
) -> io::Result<Option<TcpStream>>
where
    R: Wait + Clock + RandomSource + AllocGlobal,
    W: Future<Output = ()>,
    L: Entrance,
    ensures { IfOk result (IsFound (L.finds entrance.old)) }
{
    let Ok(accepted) = entrance.look(rt, runtime, works, timers)? else {
        return Ok(None);
    };
    match accepted {
        Ok((socket, _)) => Ok(Some(socket)),
        Err(_) => {
            let turn = Duration::from_millis(TURN);
            rest(rt, runtime, works, timers.sleep(rt, turn)?)?;
            Ok(None)
        }
    }
}
