// A sink that writes to a writer, such as standard output.
ghost use Rattle.std.specs.Prelude.{◌≡◌, OnOk, OnErr};
ghost use Rattle.std.specs.Io.{WritesAtMost};
ghost use Rattle.std.specs.Io.KnownBytes.{Appends, WriteAppends};
ghost use Rattle.diva_outside.specs.Lent.{lent};
ghost use Rattle.diva_outside.specs.Sink.{AppendsPart, PutsTo};
ghost use Rattle.diva_outside.specs.StdSink.{account_of, writer_account, CountsPut};

use crate::{Sink, SinkFailed};
use std::io::{ErrorKind, Write};
use std::marker::Model;

/// A sink that writes each piece through to a writer. As a sink its contents are not known. Each error of the writer
/// is a fault, and so is a write that takes nothing of what is left.
#[derive(Drop)]
pub struct StdSink<W: Write> {
    out: W,
    faults: u64,
}

impl<W: Write> Model for StdSink<W> {
    ghost use Rattle.diva_outside.specs.StdSink.{StdSink};

    ghost Value = { StdSink };

    ghost view = { λ sink. record { bytes = W.contents sink.out; faults = sink.faults } };
}

impl<W: Write> StdSink<W> {
    /// A sink over the writer, with no fault so far.
    pub fn new(out: W) -> Self
        ensures { result ≡ record { bytes = W.contents out; faults = 0 } }
    {
        StdSink { out, faults: 0 }
    }
}

impl<W: Write> Sink for StdSink<W> {
    ghost account = { account_of };

    fn put(&mut self, piece: &[u8]) -> Result<(), SinkFailed>
        ensures puts { PutsTo (lent account_of self.old self.new) piece.now result }

        // The writer took what was put, where its contents are known.
        ensures written { PutsTo (lent writer_account self.old self.new) piece.now result }

        // A fault is counted exactly where the put answers that it failed.
        ensures counts { CountsPut self.old.faults self.new.faults result }
    {
        let answer = write_whole(&mut self.out, piece);
        if answer.is_err() {
            self.faults = self.faults.saturating_add(1);
        }
        answer
    }
}

/// Writes until the whole piece is taken. A write that takes nothing, or fails, has failed.
fn write_whole<W: Write>(out: &mut W, piece: &[u8]) -> Result<(), SinkFailed>
    ensures ok { OnOk result (Appends (W.contents out.old) (W.contents out.new) piece.now) }
    ensures err { OnErr result (AppendsPart (W.contents out.old) (W.contents out.new) piece.now) }
{
    let mut taken = 0;
    while taken < piece.len() {
        match write_some(out, &piece[taken..]) {
            Ok(count) if count > 0 => taken += count,
            _ => return Err(SinkFailed),
        }
    }
    Ok(())
}

/// Writes bytes that come first. A write that a signal interrupted is tried again.
fn write_some<W: Write>(out: &mut W, piece: &[u8]) -> Result<usize, SinkFailed>
    ensures bound { WritesAtMost result piece.now }
    ensures bytes { WriteAppends (W.contents out.old) (W.contents out.new) result piece.now }
{
    for _ in 0..u64::MAX {
        match out.write(piece) {
            Ok(count) => return Ok(count),
            Err(error) if error.kind() == ErrorKind::Interrupted => {}
            Err(_) => return Err(SinkFailed),
        }
    }
    Err(SinkFailed)
}
