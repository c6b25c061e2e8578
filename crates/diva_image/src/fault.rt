// Why bytes are not an image.
ghost use Rattle.std.specs.Prelude.{◌≡◌};
ghost use Rattle.diva_image.specs.declared.fault.ImageFault.TheVariants.{Bad, Memory};

use std::alloc::{AllocError, AllocFailed};

/// What is wrong with the bytes. The numbers are those of `ImageFault::Bad`.
#[derive(Clone, Copy, Debug)]
pub(crate) enum Kind {
    ShortHeader = 1,
    Magic = 2,
    Version = 3,
    Base = 4,
    Size = 5,
    Entry = 6,
    Length = 7,
    CutShort = 8,
    TrailingBytes = 9,
    ManySegments = 10,
    ShortTable = 11,
    Segment = 12,
    ShortElf = 20,
    ElfIdentity = 21,
    ElfType = 22,
    ElfMachine = 23,
    ProgramHeaderSize = 24,
    ProgramHeaders = 25,
    Dynamic = 26,
    Load = 27,
    NoLoad = 28,
    ElfSize = 29,
    ElfEntry = 30,
}

/// A fault of the bytes: the number of its kind, and its place in the file.
#[derive(Clone, Copy, Debug)]
pub(crate) struct Fault {
    /// The number of its kind, 1 to 12 and 20 to 30.
    pub kind: u8,
    /// Where it is, in bytes from the start of the file.
    pub place: u32,
}

impl Fault {
    ghost use Rattle.diva_image.specs.Inner.{number_of_kind};

    /// The fault of a kind at a place.
    pub fn new(kind: Kind, place: u32) -> Self
        ensures { result ≡ record { kind = number_of_kind kind; place = place } }
    {
        Fault {
            kind: kind as u8,
            place,
        }
    }
}

/// Why bytes are not an image.
#[derive(Clone, Copy, Debug, PartialEq, Eq)]
pub enum ImageFault {
    /// Their first fault, tested in the order 1 to 6, and then 7, 8, 9 in version 1, and 10, 11, 12, 8, 9 in version 2.
    /// Places count bytes from the start of the file.
    ///
    /// | kind | where | place |
    /// |---|---|---|
    /// | 1 | fewer than 24 bytes | length of the file |
    /// | 2 | the first four bytes are not "DIVA" | 0 |
    /// | 3 | the version is neither 1 nor 2 | 4 |
    /// | 4 | base is not a multiple of 4 | 8 |
    /// | 5 | size is not a multiple of 4, not in 4 to 2^24, or base + size is past 2^32 | 12 |
    /// | 6 | entry is not a multiple of 4, or not in memory | 16 |
    /// | 7 | the payload is longer than memory | 20 |
    /// | 8 | the bytes that are loaded are cut short | length of the file |
    /// | 9 | bytes follow them | where they begin |
    /// | 10 | there are more than 16 segments | 20 |
    /// | 11 | the table of segments is cut short | length of the file |
    /// | 12 | the first segment that has no bytes, begins below base or below the end of the one before it, or ends past memory | its place in the table |
    ///
    /// Those of an executable are tested in this order, those of program headers header by header.
    ///
    /// | kind | where | place |
    /// |---|---|---|
    /// | 20 | fewer than 52 bytes | length of the file |
    /// | 21 | the file is not of 32 bits, its numbers are not lowest byte first, or its version is not 1 | the first such byte, 4, 5 or 6 |
    /// | 22 | `e_type` is not 2 | 16 |
    /// | 23 | `e_machine` is not 243 | 18 |
    /// | 24 | there are program headers, and `e_phentsize` is not 32 | 42 |
    /// | 25 | the program headers reach past the file's end | 28 |
    /// | 26 | a program header is for a dynamic linker (type 2 or 3) | that of the header |
    /// | 27 | a load has more bytes of the file than of memory, or bytes past the file's end, ends past 2^32, or begins below the end of an earlier one | that of its header |
    /// | 28 | there is no load | 44 |
    /// | 29 | memory has more than 2^24 bytes, or ends past 2^32 | 0 |
    /// | 30 | the entry is not a multiple of 4, or not in memory | 24 |
    Bad {
        /// Which fault it is, 1 to 12 or 20 to 30.
        kind: u8,
        /// Where it is.
        place: u32,
    },
    /// Out of memory. It is answered only where the bytes have no fault.
    Memory,
}

impl From<Fault> for ImageFault {
    ghost from_gives = { λ fault e. e ≡ Bad fault.kind fault.place };

    fn from(fault: Fault) -> Self {
        ImageFault::Bad {
            kind: fault.kind,
            place: fault.place,
        }
    }
}

impl From<AllocError> for ImageFault {
    ghost from_gives = { λ _ e. e ≡ Memory };

    fn from(_: AllocError) -> Self {
        ImageFault::Memory
    }
}

impl<T: Drop> From<AllocFailed<T>> for ImageFault {
    ghost from_gives = { λ _ e. e ≡ Memory };

    fn from(_: AllocFailed<T>) -> Self {
        ImageFault::Memory
    }
}
