//! The command that audits a record.

use crate::cli::FILE;
use clap::{Arg, Command};
use std::alloc::{AllocError, Global};

const AUDIT_ABOUT: &str = "Tells whether a record is a run of the zone that it describes";

const AUDIT_LONG_ABOUT: &str = "\
Reads a record line by line: a zone, then what came to it and what it did, step after step. Each
step is done again, with the choices and the pools' answers that its line shows. It tells how many
steps there are, or the first line that isn't right:
  gatekeeper audit examples/call.record";

const AUDIT_HELP: &str = "\
A record has the lines of a script (`gatekeeper replay --help` shows them), first those of zone, set
and pool. Below each line of at, turn or replace stands the line that `replay` prints for it. A
replacement that is refused is no step, and has no lines. Lines that begin with # are passed over,
and so are blank ones, but for one in the place of a step's second line. A line has at most 131,072
octets.

It prints
  N steps are a run of the zone
and, if the end of the last line or the second line of the last step is missing,
  the record is cut off behind line N
What stands behind that line isn't read. Or it tells on standard error the first line that isn't
right:
  line N: not understood       it is no such line, or stands in the wrong place
  line N: not a step           the zone can't have done this, as it stood
  line N: no zone              the first step comes, and no line names the zone
  line N: no default pool      the first step comes, and the last pool has a network

Exit status: 0 the steps are a run, 1 a line isn't right, 2 wrong words on the command line, 3 out
of memory, 4 the file can't be read (behind a line of the log with the cause), or a standard stream
failed.";

pub(crate) fn audit_command<'a>(alloc: Global) -> Result<Command<'a>, AllocError> {
    let file = Arg::new(alloc, FILE).help("the record; none or `-`: that on standard input");
    Command::new(alloc, "audit")
        .about(AUDIT_ABOUT)
        .long_about(AUDIT_LONG_ABOUT)
        .after_help(AUDIT_HELP)
        .arg(file)
}
