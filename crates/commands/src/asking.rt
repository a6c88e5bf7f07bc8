//! The commands that ask a gatekeeper, and explain datagrams.

use clap::{Arg, ArgMatches, Command, value_parser};
use probing::Probe;
use std::alloc::{AllocError, Global};
use value_texts::address_of;

const ADDRESS: &str = "ADDRESS";

const FROM: &str = "from";

const TIMEOUT: &str = "timeout";

/// For how many milliseconds it waits if nothing else is asked for, and for how many at most.
const USUAL_TIMEOUT: &str = "2000";

const MOST_TIMEOUT: i64 = 60_000;

const PROBE_ABOUT: &str = "Asks a gatekeeper whether it is there";

const PROBE_LONG_ABOUT: &str = "\
Sends a GatekeeperRequest (a discovery) to a gatekeeper, waits for its answer, and prints who it is,
where, and how long it took. An address is A.B.C.D:PORT; a gatekeeper mostly has the port 1719.
  gatekeeper probe 127.0.0.1:1719";

const PROBE_HELP: &str = "\
It prints `gk at 127.0.0.1:1719 answers after 0.3 ms`, or tells on standard error why it can't:
  no answer                    none came in time; nothing receives there; it can't be sent
  rejected: REASON             the gatekeeper doesn't want it, as terminalExcluded
  not a confirm                something else came back

Exit status: 0 the gatekeeper confirms, 1 it doesn't, 2 wrong words on the command line, 3 out of
memory, 4 the address of --from can't be bound (`bind failed`), or a standard stream failed.";

const EXPLAIN_ABOUT: &str = "Tells what datagrams are";

const EXPLAIN_LONG_ABOUT: &str = "\
Reads lines with datagrams on standard input, and prints for each what it is: the request with its
fields, or why it isn't read. It reads them as `serve` does.
  gatekeeper explain < examples/call.script";

const EXPLAIN_HELP: &str = "\
A line has the octets of one datagram, each as two digits of base 16; spaces, tabs and colons are
passed over. Or it is a line of a script (at MS from ADDRESS HEX), or one that `replay` printed
(.. > ADDRESS HEX). Blank lines are passed over but counted. Each line that is printed begins with
the number of its line. Behind it stands one of these:
  NAME: requestSeqNum ..       a request, with the fields that a gatekeeper looks at, under their
                               names in H.225.0; bandWidth is in units of 100 bit/s
  not served: NAME             another message
  unreadable: octet N: ..      why it isn't read, and up to which octet, from 1, that shows
  unreadable: ..               the same of octets that end too early
  too long: N octets           at most 4,096 are read
  no datagram                  the line has no octets

There are at most 1,048,576 octets of input. Exit status: 0 done, 1 the input is too long, 2 wrong
words on the command line, 3 out of memory, 4 a standard stream failed.";

pub(crate) fn probe_command<'a>(alloc: Global) -> Result<Command<'a>, AllocError> {
    let address = Arg::new(alloc, ADDRESS)
        .required(true)
        .help("where it is asked, A.B.C.D:PORT");
    let from = Arg::new(alloc, FROM)
        .long(FROM)
        .value_name("ADDRESS")
        .help("from where, A.B.C.D:PORT; PORT 0 is any");
    let timeout = Arg::new(alloc, TIMEOUT)
        .long(TIMEOUT)
        .value_name("MS")
        .default_value(USUAL_TIMEOUT)
        .value_parser(value_parser!(u64).range(1..=MOST_TIMEOUT))
        .help("for how many milliseconds it waits, 1 to 60000");
    Command::new(alloc, "probe")
        .about(PROBE_ABOUT)
        .long_about(PROBE_LONG_ABOUT)
        .after_help(PROBE_HELP)
        .arg(address)?
        .arg(from)?
        .arg(timeout)
}

pub(crate) fn explain_command<'a>(alloc: Global) -> Command<'a> {
    Command::new(alloc, "explain")
        .about(EXPLAIN_ABOUT)
        .long_about(EXPLAIN_LONG_ABOUT)
        .after_help(EXPLAIN_HELP)
}

/// What is asked; a word that is no address is handed back.
pub(crate) fn probe_of<'a>(found: &ArgMatches<'a>) -> Result<Probe, &'a str> {
    // (clap sees to it that the address is there)
    let word = found.get_str(ADDRESS).unwrap_or("");
    let Some(target) = address_of(word.as_bytes()) else {
        return Err(word);
    };
    let from = match found.get_str(FROM) {
        Some(word) => match address_of(word.as_bytes()) {
            Some(address) => Some(address),
            None => return Err(word),
        },
        None => None,
    };
    let timeout = found.get_one::<u64>(TIMEOUT).unwrap_or(2_000);
    Ok(Probe {
        target,
        from,
        timeout,
    })
}

/// Tells that a word is no address.
pub(crate) fn tell_no_address<R: Eprint>(rt: &R, word: &str) {
    let _ = eprintln!(rt; "error: '{word}' is no address A.B.C.D:PORT");
    let _ = eprintln!(rt; "For more information, try '--help'.");
}
