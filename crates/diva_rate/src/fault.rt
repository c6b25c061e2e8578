// Why lines of injections were not read.
use diva_outside::FaultKind;

/// Why a text of injections was not read: its first line with a fault, counted from 1, and the first fault of that line.
///
/// The kinds of faults have numbers:
///
/// 1. the line has other than 14 cells;
/// 2. a cell that has to be a number is none, or one out of its range;
/// 3. a cell that has to be a word of a few is another one: the model, the field, yes or no, how the open run ended;
/// 4. the line is one too many behind 4,294,967,294.
///
/// The number of cells is tested first, then the cells from the left, and the number of lines last.
pub use diva_outside::TextFault as RateFault;

/// The kinds of faults of a line.
#[derive(Clone, Copy, Debug, PartialEq, Eq)]
pub(crate) enum Kind {
    /// There are not 14 cells.
    CellCount = 1,
    /// A number is none, or out of its range.
    Number = 2,
    /// A word is unknown.
    Word = 3,
    /// There are too many lines.
    LineCount = 4,
}

impl FaultKind for Kind {
    ghost use Rattle.diva_rate.specs.Kinds.{rate_kind_number};

    ghost number = { rate_kind_number };

    fn number(self) -> u8 {
        self as u8
    }
}
