//! Output that is flushed.

ghost use Rattle.std.specs.Prelude.{◌≡◌, false, OnOk, IsTrue};
ghost use Rattle.std.specs.Io.{WritesAtMost};
ghost use Rattle.std.specs.Io.KnownBytes.{Appends, Keeps, WriteAppends};

use std::io;
use std::io::Write;
use std::marker::Model;

/// A writer that remembers whether it was flushed since the last write. Contracts see that beside
/// the octets that it holds, if these are known.
#[derive(Drop)]
pub struct Output<W: Write + Drop> {
    writer: W,
    flushed: bool,
}

impl<W: Write + Drop> Model for Output<W> {
    ghost use Rattle.script.specs.Streams.{OutputState};

    ghost Value = { OutputState };

    ghost view = { λ o. record { contents = W.contents o.writer; flushed = o.flushed } };
}

impl<W: Write + Drop> Output<W> {
    /// A writer that wasn't flushed yet.
    pub fn new(writer: W) -> Self
        ensures { result ≡ record { contents = W.contents writer; flushed = false } }
    {
        Output {
            writer,
            flushed: false,
        }
    }

    /// The writer, with what it holds.
    pub fn into_writer(self) -> W
        ensures { W.contents result ≡ self.contents }
    {
        let Output { writer, .. } = self;
        writer
    }
}

impl<W: Write + Drop> Write for Output<W> {
    ghost contents = { λ o. o.contents };

    fn write(&mut self, buf: &[u8]) -> io::Result<usize>
        ensures bound { WritesAtMost result buf.now }
        ensures bytes { WriteAppends self.old.contents self.new.contents result buf.now }
        ensures flushed { self.new.flushed ≡ false }
    {
        self.flushed = false;
        self.writer.write(buf)
    }

    // A writer with a buffer takes all in one step, which the loop over `write` would not see.
    #[inline(always)]
    fn write_all(&mut self, buf: &[u8]) -> io::Result<()>
        ensures bytes { OnOk result (Appends self.old.contents self.new.contents buf.now) }
        ensures flushed { self.new.flushed ≡ false }
    {
        self.flushed = false;
        self.writer.write_all(buf)
    }

    fn flush(&mut self) -> io::Result<()>
        ensures bytes { Keeps self.old.contents self.new.contents }
        ensures flushed { OnOk result (IsTrue self.new.flushed) }
    {
        let flush = self.writer.flush();
        self.flushed = flush.is_ok();
        flush
    }
}
