//! Who serves a connection.

ghost use Rattle.std.specs.Prelude.{ℕ, ◌≡◌, ◌*◌, ◌<◌, IfOk};
ghost use Rattle.std.specs.Duration.{as_nanos};
ghost use Rattle.std.specs.declared.time.Duration.{Duration};
ghost use Rattle.hyper.specs.ServerDispatch.{GivesBodies, IsNewFor, Runs};
ghost use Rattle.tokio.specs.Timers.{IsDelayedBy, sleep_deadline, timeout_delay, timeout_future};

use crate::pages::Pages;
use crate::view::View;
use bytes::Bytes;
use futures::Future;
use http_body_util::Full;
use hyper::body::{Body, Incoming};
use hyper::server::conn::http1::{Builder, Connection};
use hyper::service::Service;
use hyper::{Request, Response};
use std::alloc::Global;
use std::io;
use std::rc::Rc;
use std::time::{Clock, Duration};
use tokio::io::{AsyncRead, AsyncWrite};
use tokio::net::TcpStream;
use tokio::time::{Handle, Timeout};

/// The most connections at a time.
pub(crate) const MOST_CONNECTIONS: usize = 16;

/// How many seconds a connection may take, with its one request.
const MOST_SECONDS: u64 = 10;

/// Serves one request on a connection, in as much time as there is.
fn serve_one<R, I, S, B>(
    rt: &R,
    timers: &Handle,
    http: &Builder,
    io: I,
    service: S,
) -> io::Result<Timeout<Connection<I, S, B>>>
where
    R: Clock,
    I: AsyncRead + AsyncWrite,
    S: Service<Request<Incoming<I>>, Response = Response<B>>,
    S::Error: Into<anyhow::Error>,
    B: Body,
    B::Data: Into<Bytes>,
    B::Error: Into<anyhow::Error>,
    requires can_call { S.can_call service }
    requires bodies { (req : _) (future : _) → S.calls service req future
        → GivesBodies S.Future.gives B.can_poll future }
    ensures runs { IfOk result (λ t. Runs I.AsyncRead I.AsyncWrite S.Service S.Future.Future B.Body
        B.Data.Into (timeout_future t).conn) }
    ensures service { IfOk result (λ t. IsNewFor (timeout_future t).conn io service) }
    ensures options { IfOk result (λ t.
        (timeout_future t).conn.options ≡ http.now.options) }
    ensures limit { IfOk result (λ t. (limit : Duration)
        × (as_nanos limit ≡ MOST_SECONDS * 1000000000)
        × IsDelayedBy limit (sleep_deadline (timeout_delay t))) }
{
    let limit = Duration::from_secs(MOST_SECONDS);
    timers.timeout(rt, limit, http.serve_connection(io, service))
}

/// Who serves connections.
pub(crate) trait Host: Drop {
    ghost use Rattle.std.specs.Prelude.{Bool, ℕ};

    /// At some moment so many connections were being served.
    ghost serves: { Self → ℕ → Type 0 } = { λ _ _. Unit {0} };

    /// At some moment no more connections are to be served, or there still are.
    ghost is_ended: { Self → Bool → Type 0 };

    type Outcome: Drop;

    type Work: Future<Output = Self::Outcome>;

    /// The work of serving a connection, if there was room for it.
    fn work(&self, socket: TcpStream) -> io::Result<Self::Work>
        requires { (count : ℕ) × serves self.now count × (count < MOST_CONNECTIONS) }
        ensures { IfOk result Self.Work.can_poll };

    /// How many connections are being served.
    fn open(&self) -> usize
        ensures told { serves self.now result };

    /// Whether no more connections are to be served.
    fn has_ended(&self) -> bool
        ensures told { is_ended self.now result };
}

/// Serves the pages of a view.
#[derive(Drop)]
pub(crate) struct PageHost<'a, R, V> {
    pub(crate) rt: &'a R,
    pub(crate) alloc: Global,
    pub(crate) timers: Handle,
    pub(crate) http: Builder,
    pub(crate) view: Rc<V>,
    /// One more than there are connections.
    pub(crate) connections: Rc<()>,
}

impl<R: Clock, V: View> Host for PageHost<'_, R, V> {
    /// Nothing more is to be shown, or there still is.
    ghost is_ended = { λ host. V.View.is_ended host.view.value };

    type Outcome = Result<Result<(), hyper::Error>, tokio::time::error::Elapsed>;

    type Work = Timeout<Connection<TcpStream, Pages<V>, Full<Bytes>>>;

    fn work(&self, socket: TcpStream) -> io::Result<Self::Work> {
        let pages = Pages {
            alloc: self.alloc,
            timers: self.timers.clone()?,
            view: self.view.clone()?,
            connection: self.connections.clone()?,
        };
        serve_one(self.rt, &self.timers, &self.http, socket, pages)
    }

    fn open(&self) -> usize {
        Rc::strong_count(&self.connections).saturating_sub(1)
    }

    fn has_ended(&self) -> bool {
        self.view.has_ended()
    }
}
