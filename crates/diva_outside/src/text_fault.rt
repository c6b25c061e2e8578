// Why a text was not read, and why a line of it was not taken.
ghost use Rattle.std.specs.Prelude.{◌≡◌, ℕ};
ghost use Rattle.diva_outside.specs.declared.text_fault.TextFault.TheVariants.{Bad};

use std::alloc::{AllocError, AllocFailed};

/// Why a text was not read. Each format of texts has kinds of its own, and a name of its own for this type.
#[derive(Clone, Copy, Debug, PartialEq, Eq)]
pub enum TextFault {
    /// A line has a fault: the first such line, and the first fault that it has.
    Bad {
        /// The line, from 1; 0 for the text as a whole.
        line: u64,
        /// The kind of the fault, by its number.
        kind: u8,
    },
    /// Memory ran out.
    Memory,
}

impl TextFault {
    /// A fault of this line and kind.
    pub fn at<K: FaultKind>(line: u64, kind: K) -> Self
        ensures { result ≡ Bad line (K.number kind) }
    {
        TextFault::Bad {
            line,
            kind: kind.number(),
        }
    }
}

impl From<AllocError> for TextFault {
    ghost use Rattle.diva_outside.specs.declared.text_fault.TextFault.TheVariants.{Memory};

    ghost from_gives = { λ _ fault. fault ≡ Memory };

    fn from(_: AllocError) -> Self {
        TextFault::Memory
    }
}

/// The kinds of the faults of a format, each of which has a number.
pub trait FaultKind: Copy {
    ghost number: { Self → ℕ };

    /// The number of the kind.
    fn number(self) -> u8
        ensures { result ≡ number self };
}

/// Why a line was not taken.
#[derive(Clone, Copy, Debug)]
pub enum LineStop<K> {
    /// It has a fault of this kind.
    Fault(K),
    /// Memory ran out.
    Memory,
}

impl<K: FaultKind> From<K> for LineStop<K> {
    ghost use Rattle.diva_outside.specs.declared.text_fault.LineStop.TheVariants.{Fault};

    ghost from_gives = { λ kind stop. stop ≡ Fault kind };

    fn from(kind: K) -> Self {
        LineStop::Fault(kind)
    }
}

impl<K> From<AllocError> for LineStop<K> {
    ghost use Rattle.diva_outside.specs.declared.text_fault.LineStop.TheVariants.{Memory};

    ghost from_gives = { λ _ stop. stop ≡ Memory };

    fn from(_: AllocError) -> Self {
        LineStop::Memory
    }
}

impl<K, T: Drop> From<AllocFailed<T>> for LineStop<K> {
    ghost use Rattle.diva_outside.specs.declared.text_fault.LineStop.TheVariants.{Memory};

    ghost from_gives = { λ _ stop. stop ≡ Memory };

    fn from(_: AllocFailed<T>) -> Self {
        LineStop::Memory
    }
}
