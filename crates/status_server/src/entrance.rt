//! Where connections come in.

ghost use Rattle.std.specs.Prelude.{IfOk};

use futures::Future;
use std::alloc::AllocGlobal;
use std::io;
use std::net::SocketAddr;
use std::random::RandomSource;
use std::sync::Wait;
use std::time::{Clock, Duration};
use tokio::net::{TcpListener, TcpStream};
use tokio::runtime::LocalRuntime;
use tokio::task::LocalSet;
use tokio::time::Handle;
use tokio::time::error::Elapsed;

/// After how many milliseconds it is looked whether the zone has ended, and a listener that failed
/// is asked again.
pub(crate) const TURN: u64 = 100;

/// Where connections come in.
pub(crate) trait Entrance {
    ghost use Rattle.std.specs.Prelude.{Result};
    ghost use Rattle.std.specs.declared.io.Error.{Error};
    ghost use Rattle.std.specs.declared.net.SocketAddr.{SocketAddr};
    ghost use Rattle.tokio.specs.declared.net.TcpStream.{TcpStream};
    ghost use Rattle.tokio.specs.declared.time.error.Elapsed.{Elapsed};

    /// A look for a connection comes to this.
    ghost finds: { Self → Result (Result (TcpStream × SocketAddr) Error) Elapsed → Type 0 };

    /// Looks for a connection. What comes of it before the next turn is told; Err if nothing does.
    /// Meanwhile the connections that are open are served.
    fn look<R, W>(
        &mut self,
        rt: &R,
        runtime: &mut LocalRuntime,
        works: &LocalSet<W>,
        timers: &Handle,
    ) -> io::Result<Result<io::Result<(TcpStream, SocketAddr)>, Elapsed>>
    where
        R: Wait + Clock + RandomSource + AllocGlobal,
        W: Future<Output = ()>,
        ensures { IfOk result (finds self.old) };
}

impl Entrance for TcpListener {
    // (the toolchain's contracts don't tell what a listener accepts)
    ghost finds = { λ _ _. Unit {0} };

    fn look<R, W>(
        &mut self,
        rt: &R,
        runtime: &mut LocalRuntime,
        works: &LocalSet<W>,
        timers: &Handle,
    ) -> io::Result<Result<io::Result<(TcpStream, SocketAddr)>, Elapsed>>
    where
        R: Wait + Clock + RandomSource + AllocGlobal,
        W: Future<Output = ()>,
    {
        let accepting = timers.timeout(rt, Duration::from_millis(TURN), self.accept())?;
        works.block_on_local(rt, runtime, accepting)
    }
}
