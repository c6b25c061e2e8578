// How an open machine has ended.
ghost use Rattle.std.specs.Prelude.{◌≡◌, ◌≤◌};
ghost use Rattle.diva_open.specs.Ends.{open_end, open_end_number, open_end_of};
ghost use Rattle.diva_open.specs.Open.{stray};

use diva_isa::End;

/// The end of a state that was handed a record which cannot be applied, as a number. No record may have it.
pub(crate) const STRAY: u32 = 512;

/// How an open machine has ended, if it has.
#[derive(Clone, Copy, Debug, PartialEq, Eq)]
pub enum OpenEnd {
    /// It goes on.
    GoesOn,
    /// The program halted with this status, or a claim said so.
    Halt(u8),
    /// The program trapped, or a claim said so: the trap's number, 0 to 9.
    Trap(u8),
    /// It was handed a record that cannot be applied.
    Stray,
}

impl OpenEnd {
    /// What a number says: 0 where a machine goes on, 1 + a trap's number, 256 + the status of a halt, or 512.
    pub(crate) fn of(number: u32) -> OpenEnd
        ensures value { result ≡ open_end_of number }
        ensures number { number ≤ stray → open_end_number result ≡ number }
    {
        if number == STRAY {
            OpenEnd::Stray
        } else {
            OpenEnd::from(End::of(number))
        }
    }
}

impl From<End> for OpenEnd {
    ghost from_gives = { λ end result. result ≡ open_end end };

    fn from(end: End) -> Self {
        match end {
            End::GoesOn => OpenEnd::GoesOn,
            End::Halt(status) => OpenEnd::Halt(status),
            End::Trap(number) => OpenEnd::Trap(number),
        }
    }
}
