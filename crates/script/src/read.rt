//! Reading a script.

ghost use Rattle.std.specs.Prelude.{◌≡◌, ◌≤◌, length};
ghost use Rattle.script.specs.Scripts.{script_of, GivesUnlessMemory};
ghost use Rattle.script.specs.Reads.{ReadsScript};

use crate::draft::Draft;
use crate::event::Events;
use crate::fault::ScriptFault;
use crate::input::{Input, read_whole};
use crate::line::line_of;
use crate::long_parts::long_parted;
use pools::PoolSpecs;
use ras_core::Config;
use std::alloc::Global;
use std::io::Read;

/// The octets that the line of an event mostly has at least. There is room for the events of such
/// lines before the first is read.
const OCTETS_OF_AN_EVENT: usize = 64;

/// A script: the configuration of its zone, the pools that it is to have, one for each network of
/// the configuration, and its events, some of which may replace a pool.
#[derive(Drop)]
pub struct Script {
    pub config: Config,
    pub pools: PoolSpecs,
    pub events: Events,
}

impl Script {
    /// The octets that a script has at most.
    pub const MOST: usize = 1_048_576;
}

/// The script that a text is.
fn script_of(alloc: Global, text: &[u8]) -> Result<Script, ScriptFault>
    requires { length text.now ≤ Script.MOST }
    ensures { GivesUnlessMemory (script_of text.now) result }
{
    let mut draft = Draft::with_room(alloc, text.len() / OCTETS_OF_AN_EVENT)?;
    let mut rest = text;
    let mut number = 0;
    while !rest.is_empty() {
        let (line, others) = long_parted(rest, b'\n');
        rest = others;
        number += 1;
        let Some(line) = line_of(alloc, line)? else {
            return Err(ScriptFault::BadLine(number));
        };
        if !draft.takes(&line) {
            return Err(ScriptFault::BadLine(number));
        }
        draft.add(line)?;
    }
    draft.into_script(alloc)
}

/// Reads the script that an input is, to the input's end. Lines are counted from 1, the blank ones
/// too. At most one octet past the greatest size is read.
///
/// promise scripts-mean-their-lines: Settings, pools and events are those of the lines; else the
/// first line that isn't understood, a missing zone or a last pool with a network is told
/// (`ReadsScript`).
/// promise script-input-is-bounded: A script has at most 1,048,576 octets, and at most one octet
/// more is read; a failed stream is told if and only if the last read failed (`ReadsScript`).
pub fn read_script<R: Read + Drop>(
    alloc: Global,
    input: &mut Input<R>,
) -> Result<Script, ScriptFault>
    ensures { ReadsScript input.old input.new result }
{
    match read_whole(alloc, input) {
        Ok(text) => script_of(alloc, &text),
        Err(fault) => Err(fault),
    }
}
