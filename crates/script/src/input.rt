//! Input of a limited size.

ghost use Rattle.std.specs.Prelude.{◌≡◌, ◌↔◌, ◌+◌, ◌++◌, ◌≤◌, false, IfErr, IfOk, OnOk, IsTrue};
ghost use Rattle.std.specs.Prelude.{IsErr, MatchResult, length, vec_len};
ghost use Rattle.std.specs.Io.{ReadsAtMost};
ghost use Rattle.std.specs.Io.KnownBytes.{Consumes, IsAtEnd, ReadConsumes};
ghost use Rattle.script.specs.Reads.{ConsumesAtMost, ConsumesExactly, IsInputFault};
ghost use Rattle.script.specs.declared.fault.ScriptFault.TheVariants.{TooLong, Stream};

use crate::fault::ScriptFault;
use crate::read::Script;
use std::alloc::{AllocError, Global};
use std::io;
use std::io::Read;
use std::marker::Model;

/// The octets that are asked for at a time.
const CHUNK: usize = 4096;

/// The octets for which there is room behind the first ones, so that few of them are moved as more
/// are read.
const ROOM: usize = 131_072;

/// A reader that remembers whether its last read failed. Contracts see that beside the octets that
/// it has left, if these are known.
#[derive(Drop)]
pub struct Input<R: Read + Drop> {
    reader: R,
    failed: bool,
}

impl<R: Read + Drop> Model for Input<R> {
    ghost use Rattle.script.specs.Streams.{InputState};

    ghost Value = { InputState };

    ghost view = { λ i. record { left = R.remaining i.reader; failed = i.failed } };
}

impl<R: Read + Drop> Input<R> {
    /// A reader of which nothing was read yet.
    pub fn new(reader: R) -> Self
        ensures { result ≡ record { left = R.remaining reader; failed = false } }
    {
        Input {
            reader,
            failed: false,
        }
    }

    /// The reader, with what is left of it.
    pub fn into_reader(self) -> R
        ensures { R.remaining result ≡ self.left }
    {
        let Input { reader, .. } = self;
        reader
    }
}

impl<R: Read + Drop> Read for Input<R> {
    ghost remaining = { λ i. i.left };

    fn read(&mut self, buf: &mut [u8]) -> io::Result<usize>
        ensures bound { ReadsAtMost result buf.new }
        ensures bytes { ReadConsumes self.old.left self.new.left result buf.new }
        ensures failed { IsTrue self.new.failed ↔ IsErr result }
    {
        let read = self.reader.read(buf);
        self.failed = read.is_err();
        read
    }
}

/// Appends octets.
fn append(all: &mut Vec<u8>, octets: &[u8]) -> Result<(), AllocError>
    ensures items { OnOk result (all.new.items ≡ all.old.items ++ octets.now) }
    ensures len { OnOk result (vec_len all.new ≡ vec_len all.old + length octets.now) }
{
    if all.is_empty() {
        all.reserve(ROOM)?;
    }
    all.extend_from_slice(octets)
}

/// Reads an input to its end. At most one octet past the greatest size is read.
pub fn read_whole<R: Read + Drop>(
    alloc: Global,
    input: &mut Input<R>,
) -> Result<Vec<u8>, ScriptFault>
    ensures whole { IfOk result (λ v. Consumes input.old.left input.new.left v.items) }
    ensures end { IfOk result (λ v. IsAtEnd input.new.left) }
    ensures len { IfOk result (λ v. vec_len v ≤ Script.MOST) }
    ensures long { IfErr result (λ e. e ≡ TooLong
        → ConsumesExactly (Script.MOST + 1) input.old.left input.new.left) }
    ensures most { ConsumesAtMost (Script.MOST + 1) input.old.left input.new.left }
    ensures kinds { IfErr result IsInputFault }
    ensures stream { MatchResult result (λ _. input.new.failed ≡ false)
        (λ e. (e ≡ Stream) ↔ IsTrue input.new.failed) }
{
    let mut all = Vec::new(alloc);
    let mut chunk = [0u8; CHUNK];
    for _ in 0..Script::MOST + 2 {
        let room = (Script::MOST + 1 - all.len()).min(CHUNK);
        if room == 0 {
            return Err(ScriptFault::TooLong);
        }
        match input.read(&mut chunk[..room]) {
            Ok(0) => return Ok(all),
            Ok(n) => append(&mut all, &chunk[..n])?,
            Err(_) => return Err(ScriptFault::Stream),
        }
    }
    unreachable!()
}
