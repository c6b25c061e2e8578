// A piece of a text, of which a source was read.
ghost use Rattle.std.specs.Prelude.{◌≡◌, ◌==◌, [], length};
ghost use Rattle.std.specs.List.{after_first, before_first, list_any};
ghost use Rattle.diva_outside.specs.Lent.{lent};
ghost use Rattle.diva_outside.specs.Lines.{is_feed};
ghost use Rattle.diva_source.specs.Scanned.{after_bytes};
ghost use Rattle.diva_source.specs.Pieces.{Refills};

use crate::line_scan::{Place, take_part};
use crate::{FewWords, Source, SourceFailed};
use std::marker::Model;

/// How many bytes are read at once, at most.
const PIECE_BYTES: usize = 16_384;

/// The bytes of a piece that are yet to come.
#[derive(Drop)]
pub(crate) struct Piece {
    bytes: [u8; PIECE_BYTES],
    from: usize,
    to: usize,
}

impl Model for Piece {
    ghost use Rattle.std.specs.Prelude.{◌≤◌, ◌-◌, drop, take};
    ghost use Rattle.diva_outside.specs.Text.{Text};

    ghost Value = { Text };

    ghost view = { λ piece. take (piece.to - piece.from) (drop piece.from piece.bytes) };

    ghost invariant = { λ piece. (piece.from ≤ piece.to) × (piece.to ≤ 16384) };
}

impl Piece {
    /// No bytes.
    pub fn new() -> Self
        ensures { result ≡ [] }
    {
        Piece {
            bytes: [0; PIECE_BYTES],
            from: 0,
            to: 0,
        }
    }

    /// Whether there are none.
    pub fn is_empty(&self) -> bool
        ensures { result ≡ (length self.now == 0) }
    {
        self.from == self.to
    }

    /// Reads the bytes that come next of the source, in the place of those that are left.
    pub fn refill<D: Source>(&mut self, source: &mut D) -> Result<(), SourceFailed>
        ensures { Refills (lent D.account source.old source.new) self.new result }
    {
        self.from = 0;
        self.to = 0;
        self.to = source.read(&mut self.bytes)?;
        Ok(())
    }

    /// Takes the bytes up to the first line feed, and that too, or all of them; answers whether there was one.
    pub fn take_line(&mut self, words: &mut FewWords, place: &mut Place) -> bool
        ensures answer { result ≡ list_any is_feed self.old }
        ensures rest { self.new ≡ after_first is_feed self.old }
        ensures after { record { words = words.new; place = place.new } ≡ after_bytes (record { words = words.old; place = place.old }) (before_first is_feed self.old) }
    {
        let count = take_part(words, place, &self.bytes[self.from..self.to]);
        self.from += count;
        if self.from == self.to {
            return false;
        }
        self.from += 1;
        true
    }
}
