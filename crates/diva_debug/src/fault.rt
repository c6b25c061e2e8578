// Why a text has no commands.
ghost use Rattle.std.specs.Prelude.{◌≡◌};
ghost use Rattle.diva_debug.specs.Kinds.{kind_of};

use diva_outside::{FaultKind, WordFault};

/// Why commands were not read: the first line with a fault, and the first fault of its words, from the left.
///
/// The kinds of faults have numbers:
///
/// 1. the command is unknown;
/// 2. a number is unreadable or out of range;
/// 3. a word is missing or left over.
pub use diva_outside::TextFault as CommandFault;

/// The kinds of faults of a line.
#[derive(Clone, Copy, Debug, PartialEq, Eq)]
pub(crate) enum Kind {
    /// The command is unknown.
    Unknown = 1,
    /// A number is unreadable or out of range.
    Number = 2,
    /// A word is missing or left over.
    WordCount = 3,
}

impl FaultKind for Kind {
    ghost use Rattle.diva_debug.specs.Kinds.{command_kind_number};

    ghost number = { command_kind_number };

    fn number(self) -> u8 {
        self as u8
    }
}

impl From<WordFault> for Kind {
    ghost from_gives = { λ fault kind. kind ≡ kind_of fault };

    fn from(fault: WordFault) -> Self {
        match fault {
            WordFault::Count => Kind::WordCount,
            WordFault::Unreadable => Kind::Number,
        }
    }
}
