// Why the words give no job.
ghost use Rattle.std.specs.Prelude.{◌≡◌};
ghost use Rattle.clap.specs.Words.{kind_of};
ghost use Rattle.diva_args.specs.Fault.{fault_from};

use clap::error::ErrorKind;
use std::alloc::AllocError;

/// Why the words give no job.
#[derive(Clone, Copy, Debug, PartialEq, Eq)]
pub enum ArgsFault {
    /// The words are not a valid command line of this program.
    Usage,
    /// The words could not be read: out of memory.
    Memory,
}

impl From<AllocError> for ArgsFault {
    ghost use Rattle.diva_args.specs.declared.fault.ArgsFault.TheVariants.{Memory};

    ghost from_gives = { λ _ fault. fault ≡ Memory };

    fn from(_error: AllocError) -> ArgsFault {
        ArgsFault::Memory
    }
}

impl From<clap::Error> for ArgsFault {
    ghost from_gives = { λ error fault. fault ≡ fault_from (kind_of error) };

    fn from(error: clap::Error) -> ArgsFault {
        match error.kind() {
            ErrorKind::OutOfMemory => ArgsFault::Memory,
            _ => ArgsFault::Usage,
        }
    }
}
