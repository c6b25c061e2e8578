// How a text is read, line by line.
ghost use Rattle.std.specs.Prelude.{Result};
ghost use Rattle.diva_outside.specs.Lines.{fold_lines};
ghost use Rattle.diva_outside.specs.Text.{Text};
ghost use Rattle.diva_outside.specs.TextFaults.{GivesLine, GivesText};

use crate::text_fault::{FaultKind, LineStop, TextFault};
use crate::text_lines::lines;

/// How the lines of a text are read: what each makes of what is kept of those before it.
pub trait LineReader<'a> {
    /// What is kept of the lines so far.
    type Kept: Drop;

    /// The kinds of the faults of a line.
    type Kind: FaultKind;

    /// What one more line makes of it, or the kind of the line's fault.
    ghost step: { Self → Self.Kept → Text → Result Self.Kept Self.Kind };

    /// Takes one more line.
    fn line(&self, kept: Self::Kept, line: &'a [u8]) -> Result<Self::Kept, LineStop<Self::Kind>>
        ensures { GivesLine (step self.now kept line.now) result };
}

/// Reads all lines of a text, in order, to the first fault: what they make of what is kept at first. The error is that fault, or
/// that memory ran out where a line took some.
pub fn fold_lines<'a, R: LineReader<'a>>(
    reader: &R,
    kept: R::Kept,
    text: &'a [u8],
) -> Result<R::Kept, TextFault>
    ensures { GivesText (fold_lines R.Kind.number (R.step reader.now) kept text.now) result }
{
    let mut kept = kept;
    let mut number = 0;
    for line in lines(text) {
        number += 1;
        kept = match reader.line(kept, line) {
            Ok(kept) => kept,
            Err(LineStop::Fault(kind)) => return Err(TextFault::at(number, kind)),
            Err(LineStop::Memory) => return Err(TextFault::Memory),
        };
    }
    Ok(kept)
}
