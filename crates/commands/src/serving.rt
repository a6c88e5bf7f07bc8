//! The words of `serve`.

use crate::cli::{file_of, settings_file};
use clap::{Arg, ArgMatches, Command, value_parser};
use std::alloc::{AllocError, Global};

/// What is to be served, and how.
#[derive(Clone, Copy)]
pub struct Serving<'a> {
    /// The file of settings; None: standard input.
    pub file: Option<&'a str>,
    /// How often each thread receives, if that is limited.
    pub receives: Option<u64>,
    /// What is done besides, if anything is.
    pub record: Option<Recording<'a>>,
}

/// A record that is to be written while a zone is served.
#[derive(Clone, Copy)]
pub struct Recording<'a> {
    /// The file that is made for it.
    pub file: &'a str,
    /// How many octets its zone and its steps may have: 1 to 2^53.
    pub most: u64,
}

/// The option that limits how often a thread receives, and how often at most.
const RECEIVES: &str = "receives";

const MOST_RECEIVES: i64 = 1_000_000;

/// The options of a record, how many octets it may have at most, and how many if no number is
/// given.
const RECORD: &str = "record";

const RECORD_MOST: &str = "record-most";

const MOST_OCTETS: i64 = 1 << 53;

const USUAL_OCTETS: u64 = 1 << 30;

const SERVE_ABOUT: &str = "Serves a zone over UDP";

const SERVE_LONG_ABOUT: &str = "\
Reads settings, binds the zone's address and answers the datagrams that
arrive there, until it is asked to end. A line on standard error tells that it serves.
docs/OPERATING.md leads from the settings to a first call:
  gatekeeper serve examples/gatekeeper.toml";

const SERVE_HELP: &str = "\
Settings are UTF-8, of at most 1,048,576 octets. They are refused as a whole, with a last line on
standard error, if they are no TOML document (`settings: 1 Syntax`, behind a line of the log with
the line, the column and the reason), or by the first key that fails:
  settings: 2 Missing KEY      the key is required, and isn't there
  settings: 3 WrongKind KEY    it is of another kind, as a text in place of a number
  settings: 4 OutOfRange KEY   it is out of its range, or is no address, network or kind of pool
  settings: 5 NoDefaultPool    there is no pool, or the last one has a network

If the key serve.status has an address, as in status = \"127.0.0.1:8719\", it also serves a page
there, over HTTP, that tells what it does: endpoints, calls, bandwidth, counts; with metrics under
/metrics, and the same for programs under /zone.json, /endpoints.json and /calls.json.

With --record FILE it writes down what it does, as lines that `gatekeeper audit FILE` does again,
also while it serves: the zone that is set, then each datagram and each turn of the timers with what
came of it. FILE is made for that: one that is there already is refused. It begins with the time
from which moments are counted. It ends before the server if the next step has no room in OCTETS, if
a write fails, or if 65,536 steps wait to be written: a warning says so, and the server goes on.

It ends in good order at SIGTERM or SIGINT, if it was started with these blocked, as
`./gatekeeper` starts it, or once each receiving thread has received N times. Then it prints
how many datagrams and turns of the timers there were; how many replies were sent, and how many
were dropped, since too many of them waited; how many steps were refused for want of memory;
and how many receives and sends failed.

Exit status: 0 done, with --receives however the receivers ended, 1 the settings were refused, 2
wrong words on the command line, 3 out of memory, 4 an address can't be bound (`bind failed`), the
record can't be begun (`record failed`), the settings can't be read, or each receiver gave up after
too many failed receives (each behind a line of the log with the cause), or a standard stream
failed.";

/// The arguments that ask for a record.
fn record_options<'a>(alloc: Global) -> Result<(Arg<'a>, Arg<'a>), AllocError> {
    let record = Arg::new(alloc, RECORD)
        .long(RECORD)
        .value_name("FILE")
        .help("a file to be made, in which each step is written down");
    let most = Arg::new(alloc, RECORD_MOST)
        .long(RECORD_MOST)
        .value_name("OCTETS")
        .value_parser(value_parser!(u64).range(1..=MOST_OCTETS))
        .help("octets of zone and steps in it, 1 to 9007199254740992; 1073741824 if not given")
        .requires_arg(RECORD)?;
    Ok((record, most))
}

pub(crate) fn serve_command<'a>(alloc: Global) -> Result<Command<'a>, AllocError> {
    let receives = Arg::new(alloc, RECEIVES)
        .long(RECEIVES)
        .value_name("N")
        .value_parser(value_parser!(u64).range(1..=MOST_RECEIVES))
        .help("how often each thread receives before the program ends, 1 to 1000000");
    let (record, most) = record_options(alloc)?;
    Command::new(alloc, "serve")
        .about(SERVE_ABOUT)
        .long_about(SERVE_LONG_ABOUT)
        .after_help(SERVE_HELP)
        .arg(receives)?
        .arg(record)?
        .arg(most)?
        .arg(settings_file(alloc))
}

/// What is to be served.
pub(crate) fn serving_of<'a>(found: &ArgMatches<'a>) -> Serving<'a> {
    let record = match found.get_str(RECORD) {
        Some(file) => Some(Recording {
            file,
            most: found.get_one::<u64>(RECORD_MOST).unwrap_or(USUAL_OCTETS),
        }),
        None => None,
    };
    Serving {
        file: file_of(found),
        receives: found.get_one::<u64>(RECEIVES),
        record,
    }
}
