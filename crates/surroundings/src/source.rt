//! Where settings and records come from.

ghost use Rattle.std.specs.Prelude.{◌≡◌};
ghost use Rattle.surroundings.specs.Causes.{opening_cause};

use crate::notices::tell_unreadable;
use log::Log;
use std::io::ErrorKind;
use std::rt::Files;
use std::{fmt, fs};

/// Under which name the log tells of settings.
pub const SETTINGS: &str = "settings";

/// A file of settings by its name, or standard input. It is shown before what is told of a line:
/// as `FILE: `, or as nothing.
#[derive(Clone, Copy)]
pub struct Source<'a> {
    pub file: Option<&'a str>,
}

impl fmt::Display for Source<'_> {
    fn fmt<W: fmt::Write>(&self, f: &mut fmt::Formatter<W>) -> fmt::Result {
        match self.file {
            Some(file) => write!(f, "{file}: "),
            None => Ok(()),
        }
    }
}

/// Why a file can't be opened, as a person is told it.
fn cause_of(kind: ErrorKind) -> &'static str
    ensures { result.now ≡ opening_cause kind }
{
    match kind {
        ErrorKind::NotFound => "there is no such file",
        ErrorKind::PermissionDenied => "not permitted",
        _ => "the system refuses it",
    }
}

/// Opens a file by its name. If it can't be opened, the log tells why, under the name of what is
/// read.
pub fn open_file<R: Files + Log>(rt: &R, target: &str, name: &str) -> Option<R::File> {
    match fs::open(rt, name) {
        Ok(file) => Some(file),
        Err(error) => {
            tell_unreadable(rt, target, name, cause_of(error.kind()));
            None
        }
    }
}
