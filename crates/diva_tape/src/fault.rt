// Why a text is no tape.
use diva_outside::FaultKind;

/// Why a tape was not read: its first line with a fault, and the first of these kinds that it has.
///
/// The kinds of faults have numbers:
///
/// 1. a word is no hex number;
/// 2. a claim has other than eight numbers;
/// 3. there are more than eight claims.
pub use diva_outside::TextFault as TapeFault;

/// The kinds of faults of a line.
#[derive(Clone, Copy, Debug, PartialEq, Eq)]
pub(crate) enum Kind {
    /// A word is no hex number.
    Word = 1,
    /// A claim has other than eight numbers.
    NumberCount = 2,
    /// There are more than eight claims.
    ClaimCount = 3,
}

impl FaultKind for Kind {
    ghost use Rattle.diva_tape.specs.Kinds.{tape_kind_number};

    ghost number = { tape_kind_number };

    fn number(self) -> u8 {
        self as u8
    }
}
