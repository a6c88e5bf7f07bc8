//! What the program tells by its log.

use crate::source::{SETTINGS, Source};
use commands::{InputFault, PassedOver};
use log::{Log, error, info, warn};
use ras_module::{Address, Name};
use recording::{End, ZoneFault};
use settings::SettingsFault;
use std::fmt;

/// A name as people read it.
#[derive(Drop)]
struct Shown<'a>(&'a Name);

impl fmt::Display for Shown<'_> {
    fn fmt<W: fmt::Write>(&self, f: &mut fmt::Formatter<W>) -> fmt::Result {
        for code in self.0.as_slice() {
            let character = char::from_u32(u32::from(*code));
            write!(f, "{}", character.unwrap_or(char::REPLACEMENT_CHARACTER))?;
        }
        Ok(())
    }
}

/// Warns of the keys that are passed over.
pub fn warn_of<R: Log>(rt: &R, source: Source<'_>, passed_over: &[PassedOver]) {
    for key in passed_over {
        warn!(rt; target: SETTINGS, "{source}{key}");
    }
}

/// Tells why a file can't be read, under the name of what is read.
pub fn tell_unreadable<R: Log>(rt: &R, target: &str, name: &str, cause: &str) {
    error!(rt; target: target, "{name} can't be read: {cause}");
}

/// Tells where settings aren't read, and why, if they are no text or no TOML document, or if a read
/// of a file failed. Any other fault is told in full by the line that ends the program.
pub fn tell_place<R: Log>(rt: &R, source: Source<'_>, fault: &InputFault) {
    match fault {
        InputFault::NotText(line) => {
            error!(rt; target: SETTINGS, "{source}line {line}: no UTF-8");
        }
        InputFault::Refused(SettingsFault::Syntax(place)) => {
            error!(rt; target: SETTINGS, "{source}{place}");
        }
        InputFault::Stream => {
            if let Some(name) = source.file {
                tell_unreadable(rt, SETTINGS, name, "a read of it failed");
            }
        }
        _ => {}
    }
}

/// Tells why an address isn't bound.
pub fn tell_cause<R: Log>(rt: &R, address: Address, cause: &str) {
    let [a, b, c, d] = address.ip;
    let port = address.port;
    error!(rt; target: "serve", "{a}.{b}.{c}.{d}:{port} can't be bound: {cause}");
}

/// Tells which zone is served, where, and by how many receivers.
pub fn tell_zone<R: Log>(rt: &R, name: &Name, address: Address, receivers: usize) {
    let [a, b, c, d] = address.ip;
    let port = address.port;
    info!(rt; target: "serve", "serving zone {} on {a}.{b}.{c}.{d}:{port}, {receivers} receivers",
        Shown(name));
}

/// Tells that nothing is served any more.
pub fn tell_end<R: Log>(rt: &R) {
    error!(rt; target: "serve", "each receiver gave up: too many receives in a row failed");
}

/// Tells where the status page is served.
pub fn tell_page<R: Log>(rt: &R, address: Address) {
    let [a, b, c, d] = address.ip;
    let port = address.port;
    info!(rt; target: "serve", "the status page is at http://{a}.{b}.{c}.{d}:{port}/");
}

/// Under which name the log tells of a record that is written.
const RECORD: &str = "record";

/// Tells why a zone can't be recorded.
pub fn tell_unrecordable<R: Log>(rt: &R, fault: ZoneFault) {
    error!(rt; target: RECORD, "the zone can't be recorded: {fault}");
}

/// Tells why no record is begun in a file.
pub fn tell_no_record<R: Log>(rt: &R, name: &str, cause: &str) {
    error!(rt; target: RECORD, "{name} can't be made: {cause}");
}

/// Tells where a record is written.
pub fn tell_record<R: Log>(rt: &R, name: &str) {
    info!(rt; target: RECORD, "each step is recorded in {name}");
}

/// Warns that a record with `steps` steps goes no further.
pub fn warn_of_end<R: Log>(rt: &R, name: &str, why: End, steps: u64) {
    let cause = match why {
        End::Full => "another would pass its bound",
        End::PoolReplaced => "the next one replaces a pool",
        End::Overrun => "too many others waited to be written",
    };
    warn!(rt; target: RECORD, "{name} ends: it has {steps} steps, and {cause}");
}

/// Warns that a record goes no further since it can't be written.
pub fn warn_of_lost_record<R: Log>(rt: &R, name: &str) {
    warn!(rt; target: RECORD, "{name} ends: a write of it failed");
}
