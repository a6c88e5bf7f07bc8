//! Writing a record, step after step.

ghost use Rattle.std.specs.Prelude.{◌≡◌, ◌≤◌, ◌*◌, ◌+◌, ◌^◌, ◌<◌, [], IfOk, IsTrue, OnErr, OnOk};
ghost use Rattle.std.specs.Prelude.{false};
ghost use Rattle.std.specs.Io.KnownBytes.{Appends, Keeps};
ghost use Rattle.recording.specs.Records.{IsAnswer, IsBegun, IsEndAnswer, end_text, last_line};
ghost use Rattle.recording.specs.Records.{step_lines};
ghost use Rattle.recording.specs.Zones.{zone_lines};

use crate::recorded_zone::RecordedZone;
use crate::zone_lines::write_zone_lines;
use script::{Output, ScriptEvent, write_event, write_outcome};
use std::alloc::Global;
use std::io::{self, Write};
use std::marker::Model;
use zone_events::Outcome;

/// Why a record goes no further, as its last line says.
#[derive(Clone, Copy, Debug, PartialEq, Eq)]
pub enum End {
    /// The lines of another step would pass its bound.
    Full,
    /// The next step replaces a pool by one of which only the figures are known, not the kind that
    /// a line shows.
    PoolReplaced,
    /// The next steps are lost: too many of them waited to be written.
    Overrun,
}

/// What became of a step that was to be recorded.
#[derive(Clone, Copy, Debug, PartialEq, Eq)]
pub enum Recorded {
    /// Its two lines were written.
    Written,
    /// In their place a last line was written, which says why, and the record is closed.
    Ended(End),
    /// The record was closed before, and nothing was written.
    Closed,
}

/// A record that is being written: how many steps and octets it has, how many octets it may have,
/// and whether it is open. Contracts see these beside the output. Octets of the last line of a
/// record that ended aren't counted.
#[derive(Drop)]
pub struct RecordWriter<W: Write + Drop> {
    out: Output<W>,
    // the lines of one step, which are put together before they are written
    lines: Vec<u8>,
    steps: u64,
    octets: u64,
    most: u64,
    is_open: bool,
}

impl<W: Write + Drop> Model for RecordWriter<W> {
    ghost use Rattle.recording.specs.Standings.{IsCounted, Standing};

    ghost Value = { Standing };

    ghost view = { λ w. record {
      output = w.out;
      steps = w.steps;
      octets = w.octets;
      most = w.most;
      is_open = w.is_open;
    } };

    ghost invariant = { λ w. IsCounted w.steps w.octets w.most };
}

/// Puts the lines of a step with this number together.
fn put_step(
    number: usize,
    event: &ScriptEvent,
    outcome: &Outcome,
    lines: &mut Vec<u8>,
) -> io::Result<()>
    requires { lines.old.items ≡ [] }
    ensures { OnOk result (lines.new.items ≡ step_lines number (event.now, outcome.now)) }
{
    write_event(event, lines)?;
    write_outcome(number, outcome, lines)
}

/// Puts the lines of a zone together.
fn put_zone(zone: &RecordedZone, lines: &mut Vec<u8>) -> io::Result<()>
    requires { lines.old.items ≡ [] }
    ensures { OnOk result (lines.new.items ≡ zone_lines zone.now) }
{
    write_zone_lines(zone, lines)
}

/// Writes why a record with this bound ends.
fn write_end<W: Write>(why: End, most: u64, out: &mut W) -> io::Result<()>
    ensures { OnOk result (Appends (W.contents out.old) (W.contents out.new)
        (end_text why most)) }
{
    match why {
        End::Full => writeln!(out, "another would pass its bound of {most} octets"),
        End::PoolReplaced => out.write_all(b"the next one replaces a pool\n"),
        End::Overrun => out.write_all(b"too many others waited to be written\n"),
    }
}

/// Writes the last line of a record that ends.
fn write_last_line<W: Write>(why: End, steps: u64, most: u64, out: &mut W) -> io::Result<()>
    ensures { OnOk result (Appends (W.contents out.old) (W.contents out.new)
        (last_line why steps most)) }
{
    write!(out, "# the record ends here: it has {steps} steps, and ")?;
    write_end(why, most, out)
}

impl<W: Write + Drop> RecordWriter<W> {
    /// Begins a record of this zone, which has at most `most` octets, but for its last line. If
    /// the zone's lines are more, the record is full. The octets that a step's lines take are held
    /// until they are written.
    pub fn begin(
        alloc: Global,
        mut out: Output<W>,
        zone: &RecordedZone,
        most: u64,
    ) -> io::Result<Self>
        ensures { IfOk result (IsBegun out.contents zone.now most) }
    {
        let mut lines = Vec::new(alloc);
        put_zone(zone, &mut lines)?;
        let octets = lines.len() as u64;
        if octets > most {
            write_last_line(End::Full, 0, most, &mut out)?;
            return Ok(RecordWriter {
                out,
                lines,
                steps: 0,
                octets: 0,
                most,
                is_open: false,
            });
        }
        out.write_all(&lines)?;
        Ok(RecordWriter {
            out,
            lines,
            steps: 0,
            octets,
            most,
            is_open: true,
        })
    }

    /// Writes the line of an event, and below it the line of the outcome that the event had, with
    /// the number of this step. If the record would have more octets than it may, it is ended. A
    /// write that fails closes the record, so that no step stands behind a part of another one.
    ///
    /// promise steps-are-recorded: A step's numbered lines are written exactly, or a last line says
    /// why not; then, and behind a failed write, nothing more is (`IsAnswer`).
    pub fn write(&mut self, event: &ScriptEvent, outcome: &Outcome) -> io::Result<Recorded>
        ensures { IsAnswer self.old (event.now, outcome.now) result self.new }
    {
        if !self.is_open {
            return Ok(Recorded::Closed);
        }
        self.is_open = false;
        self.lines.clear();
        put_step(self.steps as usize + 1, event, outcome, &mut self.lines)?;
        let octets = self.lines.len() as u64;
        if octets > self.most - self.octets {
            write_last_line(End::Full, self.steps, self.most, &mut self.out)?;
            return Ok(Recorded::Ended(End::Full));
        }
        self.out.write_all(&self.lines)?;
        self.steps += 1;
        self.octets += octets;
        self.is_open = true;
        Ok(Recorded::Written)
    }

    /// Ends the record, for this reason. If the last line isn't written as a whole, the record is
    /// closed all the same.
    ///
    /// promise record-says-why-it-ends: An open record ends with a line that says why
    /// (`IsEndAnswer`, `last_line`).
    pub fn end(&mut self, why: End) -> io::Result<Recorded>
        ensures { IsEndAnswer why self.old result self.new }
    {
        if self.is_open {
            self.is_open = false;
            write_last_line(why, self.steps, self.most, &mut self.out)?;
            return Ok(Recorded::Ended(why));
        }
        Ok(Recorded::Closed)
    }

    /// How many steps were written.
    pub fn steps(&self) -> u64
        ensures { result ≡ self.now.steps }
    {
        self.steps
    }

    /// Whether a further step may be written.
    pub fn is_open(&self) -> bool
        ensures { result ≡ self.now.is_open }
    {
        self.is_open
    }

    /// Flushes the output. If that fails, the record is closed.
    pub fn flush(&mut self) -> io::Result<()>
        ensures same { self.new
            ≡ record self.old { output = self.new.output; is_open = self.new.is_open } }
        ensures text { Keeps self.old.output.contents self.new.output.contents }
        ensures flushed { OnOk result (IsTrue self.new.output.flushed) }
        ensures open { OnOk result (self.new.is_open ≡ self.old.is_open) }
        ensures closed { OnErr result (self.new.is_open ≡ false) }
    {
        let flush = self.out.flush();
        if flush.is_err() {
            self.is_open = false;
        }
        flush
    }

    /// The output, with what was written.
    pub fn into_output(self) -> Output<W>
        ensures { result ≡ self.output }
    {
        let RecordWriter { out, .. } = self;
        out
    }
}
