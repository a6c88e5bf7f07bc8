//! Telling what the datagrams of an input are.

ghost use Rattle.std.specs.Prelude.{IfSome, IsTrue, OnOk};
ghost use Rattle.std.specs.Io.KnownBytes.{Appends};
ghost use Rattle.explaining.specs.Lines.{explained};
ghost use Rattle.commands.specs.Checks.{IsWritten};

use crate::settings_input::{InputFault, read_octets};
use explaining::explained;
use script::Output;
use std::alloc::Global;
use std::io::{self, Read, Write};

/// Writes a text.
fn write_text<W: Write + Drop>(text: &str, out: &mut Output<W>) -> io::Result<()>
    ensures written { OnOk result (Appends out.old.contents out.new.contents text.now) }
    ensures flushed { OnOk result (IsTrue out.new.flushed) }
{
    out.write_all(text.as_bytes())?;
    out.flush()
}

/// Reads an input whole, and writes what its datagrams are. Of an input that isn't read nothing is
/// written.
pub fn explain<I: Read + Drop, W: Write + Drop>(
    alloc: Global,
    input: I,
    out: &mut Output<W>,
) -> Result<(), InputFault>
    ensures told { IfSome (I.remaining input) (λ octets.
        OnOk result (Appends out.old.contents out.new.contents (explained octets))) }
    ensures written { IsWritten out.old out.new result }
{
    let octets = match read_octets(alloc, input) {
        Ok(octets) => octets,
        Err(fault) => return Err(fault),
    };
    let Ok(words) = explained(alloc, &octets) else {
        return Err(InputFault::Memory);
    };
    match write_text(words.as_str(), out) {
        Ok(()) => Ok(()),
        Err(_) => Err(InputFault::Stream),
    }
}
