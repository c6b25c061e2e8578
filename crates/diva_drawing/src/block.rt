// A text of some lines.
ghost use Rattle.std.specs.Prelude.{◌≡◌, ◌≤◌, ◌<◌, ◌+◌, ◌++◌, length, [], OnOk};
ghost use Rattle.diva_outside.specs.Lent.{lent};
ghost use Rattle.diva_outside.specs.Sink.{PutsTo};
ghost use Rattle.diva_drawing.specs.Pieces.{Passes};

use arrayvec::ArrayVec;
use diva_outside::{Line, Sink, SinkFailed};
use std::marker::Model;

/// How many bytes are put at once, where a text is longer.
const PIECE: usize = 4096;

/// Lines on their way to a sink, which takes them in pieces of at most 4,096 bytes, each one put. It has room for a line more. What is
/// appended has to fit.
#[derive(Drop)]
pub struct Block {
    text: ArrayVec<u8, 4224>,
}

impl Model for Block {
    ghost use Rattle.std.specs.Prelude.{List, ℕ, length, ◌≤◌};

    ghost Value = { List ℕ };

    ghost view = { λ block. block.text.items };

    ghost invariant = { λ block. length block.text.items ≤ 4224 };
}

impl Block {
    /// No line.
    pub fn new() -> Self
        ensures { result ≡ [] }
    {
        Block {
            text: ArrayVec::new(),
        }
    }

    /// Appends a line.
    pub(crate) fn line(&mut self, line: &Line)
        requires { length self.old + 128 ≤ 4224 }
        ensures bytes { self.new ≡ self.old ++ line.now }
        ensures len { length self.new ≤ length self.old + 128 }
    {
        self.text.try_extend_from_slice(line.bytes()).unwrap();
    }

    /// Appends a line; if a piece has no room for it, the others are put first. Where that fails, a prefix of them was appended.
    pub(crate) fn push<S: Sink>(&mut self, line: &Line, sink: &mut S) -> Result<(), SinkFailed>
        ensures { Passes (lent S.account sink.old sink.new) line.now self.old self.new result }
    {
        self.make_room(line.bytes().len(), sink)?;
        self.line(line);
        Ok(())
    }

    /// Makes room for so many bytes: if a piece has none for them, those that are held are put, and dropped. Where that fails, a prefix
    /// of them was appended.
    pub(crate) fn make_room<S: Sink>(
        &mut self,
        bytes: usize,
        sink: &mut S,
    ) -> Result<(), SinkFailed>
        requires { bytes ≤ 4096 }
        ensures room { OnOk result (length self.new + bytes ≤ 4096) }
        ensures passes { Passes (lent S.account sink.old sink.new) [] self.old self.new result }
    {
        if self.text.len() + bytes > PIECE {
            self.put(sink)?;
            self.clear();
        }
        Ok(())
    }

    /// Drops all lines.
    pub(crate) fn clear(&mut self)
        ensures { self.new ≡ [] }
    {
        self.text.clear();
    }

    /// Puts all lines at once. Where that fails, a prefix of them was appended.
    pub(crate) fn put<S: Sink>(&self, sink: &mut S) -> Result<(), SinkFailed>
        ensures { PutsTo (lent S.account sink.old sink.new) self.now result }
    {
        sink.put(self.text.as_slice())
    }
}
