//! How the program ends once it has served.

ghost use Rattle.std.specs.Prelude.{◌≡◌, Bool, IfErr, OnOk};
ghost use Rattle.gatekeeper.specs.Endings.{end_status};
ghost use Rattle.surroundings.specs.Faults.{serve_status};

use log::Log;
use surroundings::{ServingFault, end_status};
use udp_socket::Stop;

/// The exit status. A fault is told on standard error. If there is none, the server was asked to
/// end if it was to stop after a number of receives, or if it is told to stop.
pub fn served_status<R: Eprint + Log, S: Stop>(
    rt: &R,
    served: Result<(), ServingFault>,
    receives: Option<u64>,
    stop: &S,
) -> u8
    ensures ended { OnOk served ((is_over : Bool) × S.told stop.now is_over
        × (result ≡ end_status receives is_over)) }
    ensures fault { IfErr served (λ fault. result ≡ serve_status fault) }
{
    match served {
        Ok(()) => {
            let is_over = stop.is_over();
            end_status(rt, receives.is_some() || is_over)
        }
        Err(fault) => {
            let _ = eprintln!(rt; "{fault}");
            fault.status()
        }
    }
}
