//! What is printed of a server's run.

ghost use Rattle.std.specs.Prelude.{◌↔◌, IsTrue, OnOk};
ghost use Rattle.std.specs.Io.KnownBytes.{Appends};
ghost use Rattle.gatekeeper.specs.Reports.{HasFaults, count_line, report_text};

use log::{Log, warn};
use pools::Pool;
use script::Output;
use std::io::{self, Write};
use udp_server::Report;

/// Writes each count of a report on a line of its own.
///
/// promise report-is-its-counts: The report is seven lines, each a count behind its name, if
/// nothing failed (`report_text`).
pub fn print_report<P: Pool, W: Write + Drop>(
    report: &Report<P>,
    out: &mut Output<W>,
) -> io::Result<()>
    ensures written { OnOk result (Appends out.old.contents out.new.contents
        (report_text report.now)) }
    ensures flushed { OnOk result (IsTrue out.new.flushed) }
{
    write_count("datagrams", report.datagrams, out)?;
    write_count("turns", report.turns, out)?;
    write_count("sent", report.sent, out)?;
    write_count("dropped", report.dropped, out)?;
    write_count("refused", report.refused, out)?;
    write_count("receive faults", report.receive_faults, out)?;
    write_count("send faults", report.send_faults, out)?;
    out.flush()
}

/// Writes a count on a line of its own, behind its name.
fn write_count<W: Write + Drop>(name: &str, count: u64, out: &mut Output<W>) -> io::Result<()>
    ensures { OnOk result (Appends out.old.contents out.new.contents (count_line name.now count)) }
{
    writeln!(out, "{name} {count}")
}

/// Whether anything that should have been done wasn't.
///
/// promise report-tells-of-faults: It tells whether replies were dropped, steps refused, or
/// receives or sends failed (`HasFaults`).
pub fn has_faults<P: Pool>(report: &Report<P>) -> bool
    ensures { IsTrue result ↔ HasFaults report.now }
{
    report.dropped != 0
        || report.refused != 0
        || report.receive_faults != 0
        || report.send_faults != 0
}

/// Warns if anything that should have been done wasn't.
pub fn warn_of_faults<P: Pool, R: Log>(rt: &R, report: &Report<P>) {
    if has_faults(report) {
        warn!(rt; target: "serve", dropped = report.dropped, refused = report.refused,
            receive_faults = report.receive_faults, send_faults = report.send_faults;
            "not everything was done");
    }
}
