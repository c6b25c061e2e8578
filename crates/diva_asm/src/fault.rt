// Why a text is no source of an image.
use diva_outside::{FaultKind, LineStop};

/// Why a source was not assembled: the first line with a fault of the first pass, else the first with one of the second. The
/// line is 0 for the source as a whole.
///
/// The kinds of faults have numbers. The first pass tests a line's labels, its mnemonic, its operands as a whole, each of them
/// from the left, its directive, where it stands, and how much there is so far:
///
/// 1. an unknown mnemonic or directive;
/// 2. the operands have another number or shape, or the line is none of the forms;
/// 3. no register where one must stand;
/// 4. a number is unreadable or out of range;
/// 6. a label that an earlier place defines;
/// 8. an instruction or `.word` at an address that is no multiple of 4;
/// 9. a directive repeated, or `.base` behind a label or a byte;
/// 10. more than 16,777,216 bytes.
///
/// The second pass tests what a place needs all labels for:
///
/// 5. a name that no label defines;
/// 7. an offset that is odd, or that a branch or a jump can't reach.
///
/// Last comes the source as a whole:
///
/// 11. base, size and entry break the rules of an image, or the bytes exceed the size.
pub use diva_outside::TextFault as AsmFault;

/// The kinds of faults.
#[derive(Clone, Copy, Debug, PartialEq, Eq)]
pub(crate) enum Kind {
    UnknownMnemonic = 1,
    /// The operands have another number or shape, or the line is none of the forms.
    WrongShape = 2,
    NoRegister = 3,
    /// A number is unreadable or out of range.
    BadNumber = 4,
    UndefinedName = 5,
    RepeatedLabel = 6,
    /// An offset is odd or out of range.
    BadOffset = 7,
    /// An instruction or `.word` stands at an address that is no multiple of 4.
    Misaligned = 8,
    /// A directive is repeated, or `.base` stands behind a label or a byte.
    BadDirective = 9,
    TooManyBytes = 10,
    /// The rules of an image are broken.
    NoImage = 11,
}

impl FaultKind for Kind {
    ghost use Rattle.diva_asm.specs.Kinds.{source_kind_number};

    ghost number = { source_kind_number };

    fn number(self) -> u8 {
        self as u8
    }
}

/// Why a line was not taken.
pub(crate) type Stop = LineStop<Kind>;
