//! The address of the status page.

ghost use Rattle.std.specs.Prelude.{◌≡◌, ◌↔◌, IfErr, IfOk, IsSome, OnErr, is_some};

use crate::notices::{tell_cause, tell_page};
use crate::serving_fault::RunningFault;
use log::Log;
use ras_module::Address;
use status_server::{BoundListener, bind_status};
use std::net::{Net, TcpListener, TcpStream};

/// Binds the address of the page, if there is to be one, and tells where it is served, or why it
/// can't be bound.
pub fn bind_page<R: Net<Listener = TcpListener, Stream = TcpStream> + Log>(
    rt: &R,
    address: Option<Address>,
) -> Result<Option<BoundListener>, RunningFault>
    ensures bound { IfOk result (λ listener. IsSome listener ↔ IsSome address) }
    ensures wanted { IfOk result (λ listener. is_some listener ≡ is_some address) }
    ensures asked { OnErr result (IsSome address) }
    ensures fault { IfErr result (λ fault. fault ≡ RunningFault.BindPage) }
{
    let Some(address) = address else {
        return Ok(None);
    };
    match bind_status(rt, address) {
        Ok(listener) => {
            // (for port 0 the system has chosen one)
            tell_page(rt, listener.address().unwrap_or(address));
            Ok(Some(listener))
        }
        Err(fault) => {
            tell_cause(rt, address, fault.cause());
            Err(RunningFault::BindPage)
        }
    }
}
