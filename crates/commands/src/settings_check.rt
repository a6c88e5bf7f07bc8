//! Checking settings: they are written as the server would take them.

ghost use Rattle.std.specs.Prelude.{IfOk, IfSome, IsTrue, OnOk};
ghost use Rattle.std.specs.Io.KnownBytes.{Appends};
ghost use Rattle.commands.specs.Checks.{AreChecked, IsWritten, WritesSettings, checked_text};
ghost use Rattle.commands.specs.Inputs.{ArePassedOver};

use crate::settings_input::{InputFault, PassedOver, ReadInput, read_input};
use script::Output;
use settings::{Settings, write_settings};
use std::alloc::Global;
use std::io::{self, Read, Write};

/// Reads settings, and writes that they are well-formed, with the value of each key and whether
/// that is its default. Returns the keys that are passed over. Of settings that are refused nothing
/// is written.
///
/// promise refused-settings-print-nothing: Of refused settings nothing is written; of others the
/// listing is, once, and it is flushed; told are the keys that are passed over.
pub fn check_settings<I: Read + Drop, W: Write + Drop>(
    alloc: Global,
    input: I,
    out: &mut Output<W>,
) -> Result<Vec<PassedOver>, InputFault>
    ensures settings { IfSome (I.remaining input) (λ octets. AreChecked octets result) }
    ensures listed { OnOk result (
        WritesSettings (I.remaining input) out.old.contents out.new.contents) }
    ensures passed { IfSome (I.remaining input) (λ octets.
        IfOk result (λ passed. ArePassedOver octets passed.items)) }
    ensures written { IsWritten out.old out.new result }
{
    let ReadInput {
        settings,
        passed_over,
    } = match read_input(alloc, input) {
        Ok(read) => read,
        Err(fault) => return Err(fault),
    };
    match write_checked(&settings, out) {
        Ok(()) => Ok(passed_over),
        Err(_) => Err(InputFault::Stream),
    }
}

/// Writes that settings are well-formed, and each key with its value and whether that is its
/// default.
fn write_checked<W: Write + Drop>(settings: &Settings, out: &mut Output<W>) -> io::Result<()>
    ensures written { OnOk result (Appends out.old.contents out.new.contents
        (checked_text settings.now)) }
    ensures flushed { OnOk result (IsTrue out.new.flushed) }
{
    out.write_all(b"settings: ok\n")?;
    write_settings(settings, out)?;
    out.flush()
}
