// What a run's text is made of, and those of two harts, of two runs and of a campaign.
use diva_core::{FlushRow, View};
use diva_isa::End;

/// A part of memory that is to be shown.
#[derive(Clone, Copy, Debug, PartialEq, Eq)]
pub struct Dump {
    /// The address of the first byte.
    pub addr: u32,
    /// The number of bytes.
    pub len: u32,
}

/// What a run's text is made of: what the machine shows once it has run.
#[derive(Clone, Copy)]
pub struct Report<'a> {
    /// The flushes that are kept, in order.
    pub rows: &'a [FlushRow],
    /// How the machine ended, if it has.
    pub end: End,
    /// The instructions committed.
    pub count: u64,
    /// The cycles run.
    pub cycles: u64,
    /// All flushes, also those that are not kept.
    pub flushes: u64,
    /// The silent flushes among them: those where the watchdog's limit was reached without a commit.
    pub silent: u64,
    /// The bytes that the program put out.
    pub output: &'a [u8],
    /// The registers, the pc and memory.
    pub view: &'a View<'a>,
    /// The part of memory to show at the end; `None` where none is asked for.
    pub dump: Option<Dump>,
}

/// What the lines of one of two harts are made of: what its machine shows once both have run.
#[derive(Clone, Copy)]
pub struct HartReport<'a> {
    /// How the hart ended, if it has.
    pub end: End,
    /// The instructions committed.
    pub count: u64,
    /// All flushes.
    pub flushes: u64,
    /// The silent flushes among them: those where the watchdog's limit was reached without a commit.
    pub silent: u64,
    /// The bytes that the program put out on this hart.
    pub output: &'a [u8],
    /// The registers and the pc.
    pub view: &'a View<'a>,
}

/// What is counted of the runs of a campaign, each of which has one bit flipped.
#[derive(Clone, Copy, Debug, Default, PartialEq, Eq)]
pub struct Tally {
    /// The runs.
    pub runs: u32,
    /// Those that left what the first run left, in which no bit is flipped.
    pub same: u32,
    /// Those with a flush.
    pub flushed: u32,
    /// Those with a silent one.
    pub silent: u32,
}

/// The cores under which `soak` runs its image.
#[derive(Clone, Copy, Debug, PartialEq, Eq)]
pub enum SoakCore {
    /// The core `scalar`, in the first run.
    Scalar,
    /// The core that the program is handed, in the second run.
    Own,
}
