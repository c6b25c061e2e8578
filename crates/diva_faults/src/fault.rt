// Why a text is no script.
ghost use Rattle.std.specs.Prelude.{◌≡◌};
ghost use Rattle.diva_faults.specs.Kinds.{kind_of};

use diva_outside::{FaultKind, WordFault};

/// Why a script was not read: its first line with a fault, and the first fault of that line's words, from the left.
///
/// The kinds of faults have numbers:
///
/// 1. a word that has to be `at`, `lane`, `hush`, `flip`, `set`, `lose` or `double` is another one;
/// 2. a number is unreadable or out of range;
/// 3. the field is unknown;
/// 4. a word is missing or left over;
/// 5. the row is one more than 4,096.
pub use diva_outside::TextFault as ScriptFault;

/// The kinds of faults of a line.
#[derive(Clone, Copy, Debug, PartialEq, Eq)]
pub(crate) enum Kind {
    /// A word that has to be one of the script's own words is another one.
    Keyword = 1,
    /// A number is unreadable or out of range.
    Number = 2,
    /// A field is unknown.
    FieldName = 3,
    /// A word is missing or left over.
    WordCount = 4,
    /// There are too many rows.
    RowCount = 5,
}

impl FaultKind for Kind {
    ghost use Rattle.diva_faults.specs.Kinds.{script_kind_number};

    ghost number = { script_kind_number };

    fn number(self) -> u8 {
        self as u8
    }
}

impl From<WordFault> for Kind {
    ghost from_gives = { λ fault kind. kind ≡ kind_of fault };

    fn from(fault: WordFault) -> Self {
        match fault {
            WordFault::Count => Kind::WordCount,
            WordFault::Unreadable => Kind::Number,
        }
    }
}
