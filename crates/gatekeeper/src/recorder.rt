//! The record that is written while a zone is served.

ghost use Rattle.std.specs.Prelude.{◌≡◌, [], IfErr, IfOk, IsTrue, is_some};
ghost use Rattle.gatekeeper.specs.Recorders.{AreTaken, ArePut, IsFlushed, IsPutDown};
ghost use Rattle.surroundings.specs.Faults.{IsBeginFault};

use books::Entry;
use log::Log;
use recording::{End, RecordWriter, Recorded};
use std::alloc::Global;
use std::fs::File;
use std::io::{self, Write};
use std::rt::{Clock, Files};
use std::sync::Wait;
use std::thread;
use std::time::Duration;
use surroundings::{
    PlannedRecord, RecordFile, RunningFault, begin_record, warn_of_end, warn_of_lost_record,
};
use udp_server::{HandedOut, RunningHistory, Watcher};
use zone_view::RunningZone;

/// How many milliseconds pass from one look at a zone to the next.
const PAUSE: u64 = 5;

/// If this many steps were made meanwhile, the next look follows at once.
const MANY: usize = 4_096;

/// Writes down each step of a zone for as long as the zone is served.
#[derive(Drop)]
pub struct Recorder<'a, R, W: Write + Drop> {
    rt: &'a R,
    alloc: Global,
    name: &'a str,
    record: RecordWriter<W>,
}

/// Begins a record, and returns who is to write down what comes then.
pub fn recorder_of<'a, R: Files<File = File> + Clock + Log>(
    rt: &'a R,
    alloc: Global,
    planned: &PlannedRecord<'a>,
) -> Result<Recorder<'a, R, RecordFile>, RunningFault>
    ensures bound { IfOk result (λ recorder. recorder.record.most ≡ planned.now.recording.most) }
    ensures fault { IfErr result IsBeginFault }
{
    let record = begin_record(rt, alloc, planned)?;
    Ok(Recorder {
        rt,
        alloc,
        name: planned.recording.file,
        record,
    })
}

/// Who is to write down what comes, if a record is planned: it is begun.
pub fn planned_recorder<'a, R: Files<File = File> + Clock + Log>(
    rt: &'a R,
    alloc: Global,
    planned: Option<PlannedRecord<'a>>,
) -> Result<Option<Recorder<'a, R, RecordFile>>, RunningFault>
    ensures planned { IfOk result (λ recorder. is_some recorder ≡ is_some planned.entry) }
    ensures fault { IfErr result IsBeginFault }
    ensures asked { IfErr result (λ fault. IsTrue (is_some planned.entry)) }
{
    let Some(planned) = planned else {
        return Ok(None);
    };
    match recorder_of(rt, alloc, &planned) {
        Ok(recorder) => Ok(Some(recorder)),
        Err(fault) => Err(fault),
    }
}

/// Writes down entries that left a zone's history, if they follow those that are written and more
/// may come. Otherwise steps were lost, and the record ends.
///
/// promise record-has-no-gap: Entries are written only if they follow those that the record has;
/// else it ends (`IsPutDown`).
fn put_down<W: Write + Drop>(
    writer: &mut RecordWriter<W>,
    handed: &mut HandedOut,
) -> io::Result<Recorded>
    ensures put { IsPutDown writer.old handed.old result writer.new }
    ensures taken { handed.new.entries.items ≡ [] }
{
    if handed.is_recorded && handed.first as u64 == writer.steps() {
        return writer.write_entries(&mut handed.entries);
    }
    handed.entries.clear();
    writer.end(End::Overrun)
}

impl<R: Log, W: Write + Drop> Recorder<'_, R, W> {
    /// Writes down what was handed out. A warning tells if the record goes no further.
    fn put(&mut self, handed: &mut HandedOut)
        ensures put { ArePut self.old.record handed.old self.new.record }
        ensures taken { handed.new.entries.items ≡ [] }
    {
        match put_down(&mut self.record, handed) {
            Ok(Recorded::Written) | Ok(Recorded::Closed) => {}
            Ok(Recorded::Ended(why)) => {
                warn_of_end(self.rt, self.name, why, self.record.steps());
                self.flush();
            }
            Err(_) => {
                warn_of_lost_record(self.rt, self.name);
                // What was held before may still find its way.
                let _ = self.record.flush();
            }
        }
    }

    /// Takes the entries so far out of a zone's history, and writes them down. Those that come next
    /// stand in `room`, which has none yet. Returned is how many they were, and room for others.
    ///
    /// promise handed-out-entries-are-written: All entries that are taken out of a zone's history
    /// are written down, unless the record ends (`AreTaken`).
    fn write_next<Z: RunningHistory>(&mut self, zone: &Z, room: Vec<Entry>) -> (usize, Vec<Entry>)
        requires { room.items ≡ [] }
        ensures taken { AreTaken (Z.gives zone.now) self.old.record self.new.record result.0 }
        ensures room { result.1.items ≡ [] }
    {
        let mut handed = zone.hand_out(room);
        let count = handed.entries.len();
        self.put(&mut handed);
        (count, handed.entries)
    }

    /// Hands what is held to the system. If that fails, a warning tells it, and the record is
    /// closed.
    fn flush(&mut self)
        ensures { IsFlushed self.old.record self.new.record }
    {
        if self.record.flush().is_err() {
            warn_of_lost_record(self.rt, self.name);
        }
    }
}

impl<R: Wait + Clock + Log, W: Write + Drop> Watcher for Recorder<'_, R, W> {
    fn watch<Z: RunningZone + RunningHistory>(self, zone: &Z) {
        let mut recorder = self;
        let rt = recorder.rt;
        let mut room = Vec::new(recorder.alloc);
        for _ in rt.forever() {
            // What is handed out of a zone that has ended is all that was left.
            let is_last = zone.has_ended();
            let (count, left) = recorder.write_next(zone, room);
            room = left;
            if !recorder.record.is_open() {
                zone.stop(room);
                break;
            }
            if count >= MANY {
                continue;
            }
            recorder.flush();
            if is_last {
                break;
            }
            thread::sleep(rt, Duration::from_millis(PAUSE));
        }
    }
}
