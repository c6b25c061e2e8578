// How a state has ended, and the number that says so.
ghost use Rattle.std.specs.Prelude.{◌≡◌};
ghost use Rattle.diva_isa.specs.End.{end_number, end_of, IsEnd};

/// How a state has ended, if it has.
#[derive(Clone, Copy, Debug, PartialEq, Eq)]
pub enum End {
    /// It goes on.
    GoesOn,
    /// The program halted with this status.
    Halt(u8),
    /// The program trapped: 0 to 7 are the causes of the RISC-V Privileged ISA, 8 is an environment
    /// call that is not served, 9 an output that is full.
    Trap(u8),
}

impl End {
    /// What a number says: 0 where a state goes on, 1 + a trap's number, or 256 + the status of a
    /// halt. Of a number above these the low byte counts as the status.
    pub fn of(number: u32) -> End
        ensures value { result ≡ end_of number }
        ensures number { IsEnd number → end_number result ≡ number }
    {
        match number {
            0 => End::GoesOn,
            1..=255 => End::Trap((number - 1) as u8),
            _ => End::Halt((number % 256) as u8),
        }
    }

    /// The number that says so.
    pub fn number(self) -> u32
        ensures { result ≡ end_number self }
    {
        match self {
            End::GoesOn => 0,
            End::Trap(trap) => 1 + u32::from(trap),
            End::Halt(status) => 256 + u32::from(status),
        }
    }
}
