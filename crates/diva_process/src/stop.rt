// Why a job is not done, and why there is no whole answer.
ghost use Rattle.std.specs.Prelude.{◌≡◌};

use diva_outside::{SinkFailed, What};
use std::alloc::AllocError;

/// Why the files of a job can't all be used. Nothing was written yet, and nothing that the program has in its hands was used.
#[derive(Clone, Copy, Debug)]
pub enum Stop {
    /// Memory ran out.
    Memory,
    /// The file that this is for can't be read.
    Unread(What),
    /// The file that this is for is refused.
    Refused {
        what: What,
        /// The number of its first fault, and 0 where it is too long.
        kind: u8,
        /// The place of the fault, which in a text is the line.
        place: u64,
    },
}

impl Stop {
    /// The file that this is for is refused, by the number of its first fault and the place of it.
    pub fn refused(what: What, kind: u8, place: u64) -> Stop
        ensures { result ≡ Stop.Refused what kind place }
    {
        Stop::Refused { what, kind, place }
    }
}

impl From<AllocError> for Stop {
    ghost use Rattle.diva_process.specs.declared.stop.Stop.TheVariants.{Memory};

    ghost from_gives = { λ _ stop. stop ≡ Memory };

    fn from(_: AllocError) -> Self {
        Stop::Memory
    }
}

/// Why there is no whole answer.
#[derive(Clone, Copy, Debug)]
pub enum Failure {
    /// The sink failed.
    Cut,
    /// Memory ran out, and nothing was written.
    Memory,
}

impl From<AllocError> for Failure {
    ghost use Rattle.diva_process.specs.declared.stop.Failure.TheVariants.{Memory};

    ghost from_gives = { λ _ failure. failure ≡ Memory };

    fn from(_: AllocError) -> Self {
        Failure::Memory
    }
}

impl From<SinkFailed> for Failure {
    ghost use Rattle.diva_process.specs.declared.stop.Failure.TheVariants.{Cut};

    ghost from_gives = { λ _ failure. failure ≡ Cut };

    fn from(_: SinkFailed) -> Self {
        Failure::Cut
    }
}
