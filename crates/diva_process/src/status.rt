// What a program ends with.
ghost use Rattle.std.specs.Prelude.{◌≡◌};
ghost use Rattle.diva_process.specs.Statuses.{number_of};

/// What a program ends with. A process tells it by its number.
#[derive(Clone, Copy, Debug, PartialEq, Eq)]
pub enum Status {
    /// 0: the run halted, or the job runs nothing to its end; the whole text was written.
    Halted,
    /// 2: the words are not a valid command line; the usage line was written.
    Misused,
    /// 3: the run trapped; the whole text was written.
    Trapped,
    /// 4: exactly the cycles asked for were run, and the machine goes on; the whole text was written.
    GoesOn,
    /// 5: the first file that can't be used has a fault, or is too long; a line says so. Or so it is with a text that the job reads as it
    /// goes.
    Refused,
    /// 6: the job judges a text, and something of it is wrong; the whole text was written.
    Wrong,
    /// 8: the first file that can't be used can't be read; a line says so. Or so it is with a text that the job reads as it goes.
    Unread,
    /// 9: the sink failed; a prefix of the text was written.
    Cut,
    /// 10: memory ran out; nothing was written.
    NoMemory,
}

impl Status {
    /// The number by which a process tells it.
    pub fn number(self) -> u8
        ensures { result ≡ number_of self }
    {
        match self {
            Status::Halted => 0,
            Status::Misused => 2,
            Status::Trapped => 3,
            Status::GoesOn => 4,
            Status::Refused => 5,
            Status::Wrong => 6,
            Status::Unread => 8,
            Status::Cut => 9,
            Status::NoMemory => 10,
        }
    }
}
