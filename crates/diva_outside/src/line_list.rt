// Lines that are made one at a time, and how they are put.
ghost use Rattle.std.specs.Prelude.{◌≡◌, ◌<◌, ℕ, List, [], length};
ghost use Rattle.std.specs.List.{concat, slice_index_or};
ghost use Rattle.diva_outside.specs.Lent.{lent};
ghost use Rattle.diva_outside.specs.Sink.{PutsTo};

use crate::{Line, Sink, SinkFailed};

/// Lines, each made when it is asked for, so that they take no memory.
pub trait LineList {
    /// The lines, in order.
    ghost lines: { Self → List (List ℕ) };

    /// How many lines there are.
    fn count(&self) -> usize
        ensures { result ≡ length (lines self.now) };

    /// The line at a place below that number, from 0 on.
    fn line(&self, at: usize) -> Line
        requires { at < length (lines self.now) }
        ensures { result ≡ slice_index_or (lines self.now) at [] };
}

/// Lines that are made already.
impl<const N: usize> LineList for [Line; N] {
    ghost lines = { λ lines. lines };

    fn count(&self) -> usize {
        N
    }

    fn line(&self, at: usize) -> Line {
        let mut line = Line::new();
        line.text(self[at].bytes());
        line
    }
}

/// Puts the lines, one after the other. Where one fails, a prefix of their text was appended, and no line after it is put.
pub fn put_lines<L: LineList, S: Sink>(list: &L, sink: &mut S) -> Result<(), SinkFailed>
    ensures { PutsTo (lent S.account sink.old sink.new) (concat (L.lines list.now)) result }
{
    for at in 0..list.count() {
        put_line(&list.line(at), sink)?;
    }
    Ok(())
}

/// Puts a line. Where that fails, a prefix of it was appended.
pub fn put_line<S: Sink>(line: &Line, sink: &mut S) -> Result<(), SinkFailed>
    ensures { PutsTo (lent S.account sink.old sink.new) line.now result }
{
    sink.put(line.bytes())
}
