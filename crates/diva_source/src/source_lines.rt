// The lines of a text that is read piece by piece.
ghost use Rattle.std.specs.Prelude.{◌≡◌, []};
ghost use Rattle.diva_outside.specs.Lent.{lent};

use crate::line_scan::Place;
use crate::piece::Piece;
use crate::{FewWords, Source, SourceFailed};

/// The lines that are yet to come of the text that a source has open. It takes no memory but for one piece of the text, however long
/// that or one of its lines may be.
#[derive(Drop)]
pub struct SourceLines<'a, D> {
    source: &'a mut D,
    piece: Piece,
}

impl<'a, D: Source> SourceLines<'a, D> {
    ghost use Rattle.diva_source.specs.SourceLines.{lent_name, lines_account, source_of, ReadsLine};
    ghost use Rattle.diva_source.specs.Pieces.{HasMore};

    /// The lines of what is yet to be read of the source.
    pub fn new(source: &'a mut D) -> SourceLines<'a, D>
        ensures source { source_of result ≡ source.old }
        ensures same_source { lent_name result ≡ source.entry.ghost_name }
        ensures all { lines_account D.account result ≡ D.account source.old }
    {
        SourceLines {
            source,
            piece: Piece::new(),
        }
    }

    /// Reads the next line to its words, as far as they are kept, and answers whether there was one. A fault of the source is passed on,
    /// and what was read of the line is lost.
    pub fn next(&mut self, words: &mut FewWords) -> Result<bool, SourceFailed>
        ensures reads { ReadsLine (lent (lines_account D.account) self.old self.new) words.new result }
        ensures same_source { lent_name self.new ≡ lent_name self.old }
    {
        words.clear();
        if !self.has_more()? {
            return Ok(false);
        }
        let mut place = Place::Gap;
        loop {
            if self.piece.take_line(words, &mut place) || !self.has_more()? {
                return Ok(true);
            }
        }
    }

    /// Whether bytes are left, which are then at hand.
    fn has_more(&mut self) -> Result<bool, SourceFailed>
        ensures more { HasMore (lent (lines_account D.account) self.old self.new) self.new.piece result }
        ensures same_source { lent_name self.new ≡ lent_name self.old }
    {
        if self.piece.is_empty() {
            self.piece.refill(self.source)?;
        }
        Ok(!self.piece.is_empty())
    }
}
