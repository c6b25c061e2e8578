// Why the machine flushed.
use crate::differences::Diff;

/// The cause of a flush.
#[derive(Clone, Copy, Debug, PartialEq, Eq)]
pub enum Cause {
    /// A claim differed from the due record.
    Differs(Diff),
    /// As many cycles as the watchdog's limit, which this is, passed without a commit.
    Silent(u32),
}

/// A row of the log: one flush.
#[derive(Clone, Copy, Debug, PartialEq, Eq)]
pub struct FlushRow {
    /// The cycle in which it came, from 1.
    pub cycle: u64,
    /// The instructions committed by then.
    pub at: u64,
    /// Why it came.
    pub cause: Cause,
}
