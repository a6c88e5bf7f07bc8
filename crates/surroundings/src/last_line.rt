//! How the program ends: a line on standard error or in the log, with the exit status.

ghost use Rattle.std.specs.Prelude.{◌≡◌, if◌then◌else◌};

use crate::notices::tell_end;
use log::Log;

/// The exit status if there is no memory.
const NO_MEMORY: u8 = 3;

/// The exit status if a file or a stream can't be read.
const STREAM_FAILED: u8 = 4;

/// The exit status if each receiver gave up.
const GAVE_UP: u8 = 4;

/// Tells that there is no memory.
pub fn out_of_memory(rt: &impl Eprint) -> u8
    ensures { result ≡ 3 }
{
    let _ = rt.eprintln("out of memory");
    NO_MEMORY
}

/// Tells that a file or a stream failed.
pub fn stream_failed(rt: &impl Eprint) -> u8
    ensures { result ≡ 4 }
{
    let _ = rt.eprintln("stream failed");
    STREAM_FAILED
}

/// The exit status once the report of a server is printed. If the server wasn't asked to end, each
/// receiver gave up, and a line of the log tells so.
pub fn end_status(rt: &impl Log, was_asked: bool) -> u8
    ensures { result ≡ (if was_asked then 0 else 4) }
{
    if was_asked {
        return 0;
    }
    tell_end(rt);
    GAVE_UP
}
