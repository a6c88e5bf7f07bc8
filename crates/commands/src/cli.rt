//! The command line.

use crate::asking::{explain_command, probe_command, probe_of, tell_no_address};
use crate::auditing::audit_command;
use crate::serving::{Serving, serve_command, serving_of};
use clap::error::ErrorKind;
use clap::{Arg, ArgMatches, Command, Error};
use probing::Probe;
use std::alloc::{AllocError, Global};

/// What the words of the command line ask for. Settings are those of the file with this name, or on
/// standard input.
#[derive(Clone, Copy)]
pub enum Choice<'a> {
    /// A replay of the script on standard input.
    Replay,
    /// A check of settings.
    CheckSettings(Option<&'a str>),
    /// Serving with settings.
    Serve(Serving<'a>),
    /// Asking a gatekeeper whether it is there.
    Probe(Probe),
    /// Telling what the datagrams on standard input are.
    Explain,
    /// An audit of the record in the file with this name, or on standard input.
    Audit(Option<&'a str>),
    /// Nothing more: help or a fault in the words was printed, and this is the exit status.
    Done(u8),
}

/// The file of settings, or of a record.
pub(crate) const FILE: &str = "FILE";

const ABOUT: &str = "\
A gatekeeper for one H.323 zone. H.323 is the ITU's standard for calls over packet networks:
before a phone, a gateway or a conference bridge may call, it asks the gatekeeper of its zone, in
short datagrams (the RAS messages of H.225.0), who the gatekeeper is, whether it may register, and
how much bandwidth a call may take. This program answers them.";

const REPLAY_ABOUT: &str = "Answers the datagrams of a script, and prints the answers";

const REPLAY_LONG_ABOUT: &str = "\
Reads a script on standard input, gives its datagrams and the turns of its timers to a gatekeeper
one after the other, and prints a line for each on standard output. The script may replace a pool
of bandwidth while calls live. Nothing goes over a network, and time is what the script says.";

const REPLAY_HELP: &str = "\
The script (at most 1,048,576 octets; words are parted by spaces, blank lines are passed over):
  zone NAME ADDRESS            the zone's name, and the gatekeeper's address as A.B.C.D:PORT
  set KEY NUMBER               a setting of the zone, of those below
  pool fixed LIMIT             a pool of bandwidth for calls; LIMIT and all other amounts are in
                               units of 100 bit/s
  pool step LIMIT STEP         a pool that lends whole steps of STEP units
  pool paced LIMIT BURST       a pool that lends at most BURST units between two turns of the
                               pools, and makes requests wait for the next turn
  pool .. for A.B.C.D/BITS     a pool for calls that endpoints of this network open
  at MS from ADDRESS HEX       at millisecond MS a datagram comes from ADDRESS, with these octets
  turn MS                      at millisecond MS one thing is done that is due, if anything is
  replace MS I KIND ..         at millisecond MS a fresh pool, of a KIND with its numbers as in a
                               line of pool, takes the place of pool I, whose loans it takes over
                               and whose network it serves; the first pool is 0

Settings, with their ranges and what they are if no line sets them (ms is milliseconds):
  limit         1 to 1000000000000  100000  units of all calls together
  call_limit    1 to 4294967295      20000  units of one call
  time_to_live  1 to 4294967295         60  seconds that a registration is granted, at most
  endpoints     1 to 20000            1000  how many may be registered
  calls         1 to 20000            1000  how many may be open
  kept          1 to 65536            4096  how many replies may be kept
  window        1 to 3600000         10000  ms for which a reply is kept
  silence       1 to 3600000         30000  ms after which a silent endpoint in a call is asked
  delay         1 to 65535             500  ms after which a request that waits is served again
  retries       1 to 16                  3  how often it is served again
  asks          1 to 16                  3  how often a silent endpoint is asked for a sign of life
  ask_wait      1 to 3600000          5000  ms that it has for each answer
  pool_turn     1 to 86400000         1000  ms from one turn of the pools to the next
  least_grant   0 to 4294967295          0  least units of a call with a loan, if it wants as many

NAME has 1 to 128 characters. LIMIT is at most 1000000000000; STEP and BURST are 1 to 4294967295;
MS is below 9007199254740992, and one that is below an earlier one counts as that. I may be any
number below 18446744073709551616. HEX has two digits for each octet, and may be left out. There
are no comments, and no tabs.

Lines of zone, set and pool stand before the first of at, turn or replace; of repeated lines of
zone, or of set with one key, the last counts. There are at most 16 pools. A call has its
bandwidth from the first pool whose network holds the call signal address of the endpoint that
opens it. A pool without a network holds every address, and the last pool has none. Without a
pool line there is one fixed pool of the zone's limit.
For example, a terminal at 10.0.0.5 asks who its gatekeeper is (a GRQ, GatekeeperRequest):
  zone gk 10.0.0.1:1719
  at 0 from 10.0.0.5:1719 00000000060008914A0002000A00000506B70200

The line that is printed says that datagram 1 was served, and what is sent to whom (a GCF,
GatekeeperConfirm: the gatekeeper is \"gk\" at 10.0.0.1:1719):
  1 served > 10.0.0.5:1719 04800000060008914A0002020067006B000A00000106B7

Behind its number a line says what happened:
  served                       the request was served, or an endpoint's sign of life was heard
  kept                         the datagram came before, and its kept reply was sent again
  ignored CAUSE                nothing was done; CAUSE is too-long, unreadable, not-served, busy (as
                               many replies are kept as may be) or unknown-endpoint
  done registration-over ID    the time to live of this endpoint's registration was over
  done interrogate ID          this endpoint in a call was asked for a sign of life
  done silent ID               this endpoint in a call gave none, and its calls ended
  done retry B                 a request that a pool made wait was served again
  done kept-over B             a kept reply was over, and went
  done pool-turn               the pools made their turn
  idle                         nothing was due
  replaced I                   a fresh pool took the place of pool I: no call lost bandwidth
  not replaced K               a fresh pool was refused, and nothing has changed: K is 2 if there is
                               no pool I, and 4 if the fresh one doesn't lend what pool I has lent

B counts the lines before that of the datagram whose reply is kept. If a pool was asked, the line
goes on with ` lent K`, ` refused` or ` wait`; if a reply that was over went, to make room for this
one, with ` dropped B`; and if something is sent, with ` > ADDRESS HEX`. A loan that leaves a call
less than least_grant and less than it wants goes back at once: the line has ` lent K`, and what
is sent is a reject.

Exit status: 0 done, 1 the script was refused, 2 wrong words on the command line, 3 out of
memory, 4 a standard stream failed. Status 1, 3 and 4 come with one line on standard error:
`line N: not understood` names the first line that is none of the above, stands in the wrong
place, or has a number out of its range.";

const CHECK_ABOUT: &str = "Checks settings, and prints them or what is wrong with them";

const CHECK_LONG_ABOUT: &str = "\
Reads settings, as `serve` reads them: a TOML document of the tables [zone],
[serve] and [[pool]]. If they can be used as they stand, each key is printed with its value,
and whether that is its default. A key that isn't known is passed over, with a warning on
standard error that tells its line and the known key that it most resembles.
examples/gatekeeper.toml has every key, with its meaning, its range and its default:
  gatekeeper check-settings examples/gatekeeper.toml";

const CHECK_HELP: &str = "\
Settings are UTF-8, of at most 1,048,576 octets. They are refused as a whole, with a last line on
standard error, if they are no TOML document (`settings: 1 Syntax`, behind a line of the log with
the line, the column and the reason), or by the first key that fails:
  settings: 2 Missing KEY      the key is required, and isn't there
  settings: 3 WrongKind KEY    it is of another kind, as a text in place of a number
  settings: 4 OutOfRange KEY   it is out of its range, or is no address, network or kind of pool
  settings: 5 NoDefaultPool    there is no pool, or the last one has a network

Exit status: 0 well-formed, with warnings or without, 1 the settings were refused, 2 wrong words on
the command line, 3 out of memory, 4 the file can't be read (behind a line of the log with the
cause), or a standard stream failed.";

fn replay_command<'a>(alloc: Global) -> Command<'a> {
    Command::new(alloc, "replay")
        .about(REPLAY_ABOUT)
        .long_about(REPLAY_LONG_ABOUT)
        .after_help(REPLAY_HELP)
}

/// The argument that names a file of settings.
pub(crate) fn settings_file<'a>(alloc: Global) -> Arg<'a> {
    Arg::new(alloc, FILE).help("the settings; none or `-`: those on standard input")
}

fn check_command<'a>(alloc: Global) -> Result<Command<'a>, AllocError> {
    Command::new(alloc, "check-settings")
        .about(CHECK_ABOUT)
        .long_about(CHECK_LONG_ABOUT)
        .after_help(CHECK_HELP)
        .arg(settings_file(alloc))
}

fn matched<'a>(alloc: Global, words: &'a [String]) -> Result<ArgMatches<'a>, Error> {
    let command = Command::new(alloc, "gatekeeper")
        .version("0.1.0")
        .about(ABOUT)
        .after_help("`gatekeeper replay --help` shows what a script looks like.")
        .subcommand_required(true)
        .subcommand(replay_command(alloc))?
        .subcommand(check_command(alloc)?)?
        .subcommand(serve_command(alloc)?)?
        .subcommand(probe_command(alloc)?)?
        .subcommand(explain_command(alloc))?
        .subcommand(audit_command(alloc)?)?;
    command.try_get_matches_from(words)
}

/// The file that is named; None, also for `-`, is standard input.
pub(crate) fn file_of<'a>(found: &ArgMatches<'a>) -> Option<&'a str> {
    match found.get_str(FILE) {
        Some("-") | None => None,
        Some(name) => Some(name),
    }
}

/// What was chosen. A word that is no address is told.
fn choice_of<'a, R: Eprint>(rt: &R, matches: &ArgMatches<'a>) -> Choice<'a> {
    match matches.subcommand() {
        Some(("check-settings", found)) => Choice::CheckSettings(file_of(found)),
        Some(("serve", found)) => Choice::Serve(serving_of(found)),
        Some(("probe", found)) => match probe_of(found) {
            Ok(probe) => Choice::Probe(probe),
            Err(word) => {
                tell_no_address(rt, word);
                Choice::Done(2)
            }
        },
        Some(("explain", _)) => Choice::Explain,
        Some(("audit", found)) => Choice::Audit(file_of(found)),
        _ => Choice::Replay,
    }
}

/// Reads the words of the command line. If they ask for help or can't be followed, `clap`'s text is
/// printed.
pub fn chosen<'a, R: Print + Eprint>(
    rt: &R,
    alloc: Global,
    words: &'a [String],
) -> Result<Choice<'a>, AllocError> {
    match matched(alloc, words) {
        Ok(matches) => Ok(choice_of(rt, &matches)),
        Err(error) => {
            if matches!(error.kind(), ErrorKind::OutOfMemory) {
                return Err(AllocError);
            }
            match error.print(rt) {
                Ok(()) => Ok(Choice::Done(if error.use_stderr() { 2 } else { 0 })),
                Err(_) => {
                    let _ = rt.eprintln("stream failed");
                    Ok(Choice::Done(4))
                }
            }
        }
    }
}
