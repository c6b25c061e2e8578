// The numbers that words can give, a row for each, and the types that keep their ranges.
use crate::ranged::Ranged;

/// A number from `LEAST` to `MOST` that words can give.
#[derive(Drop)]
pub struct NumberRow<const LEAST: u32, const MOST: u32> {
    /// The name of its option, or the id of its positional.
    pub word: &'static str,
    /// What it is if the words do not give it; `None` if they have to.
    pub default: Option<u32>,
}

/// The most cycles that a run can be given.
pub const MOST_CYCLES: u32 = 1_000_000_000;

/// The cycles to run at most: 1 to 1,000,000,000.
pub type Cycles = Ranged<1, MOST_CYCLES>;

/// `--cycles` of what runs an image.
pub static CYCLES: NumberRow<1, MOST_CYCLES> = NumberRow {
    word: "cycles",
    default: Some(1_000_000),
};

/// The most cycles that each run of a campaign can be given.
const MOST_CAMPAIGN_CYCLES: u32 = 100_000;

/// The cycles of each run of a campaign at most: 1 to 100,000.
pub type CampaignCycles = Ranged<1, MOST_CAMPAIGN_CYCLES>;

/// `--cycles` of `campaign`.
pub(crate) static CAMPAIGN_CYCLES: NumberRow<1, MOST_CAMPAIGN_CYCLES> = NumberRow {
    word: "cycles",
    default: Some(10_000),
};

/// The latest cycle in which a campaign flips a bit.
const LATEST_FLIP: u32 = 32;

/// The last cycle in which a campaign flips a bit: 1 to 32.
pub type LastCycle = Ranged<1, LATEST_FLIP>;

/// `LAST`
pub(crate) static LAST: NumberRow<1, LATEST_FLIP> = NumberRow {
    word: "LAST",
    default: None,
};

/// The most instructions that are drawn for `soak`.
const LONGEST_SOAK: u32 = 65_536;

/// How many instructions are drawn for `soak`: 1 to 65,536.
pub type SoakLength = Ranged<1, LONGEST_SOAK>;

/// `LENGTH`
pub(crate) static LENGTH: NumberRow<1, LONGEST_SOAK> = NumberRow {
    word: "LENGTH",
    default: None,
};

/// `SEED`: any number.
pub static SEED: NumberRow<0, { u32::MAX }> = NumberRow {
    word: "SEED",
    default: None,
};

/// `--room`: the bytes of memory that follow those that an executable loads.
pub(crate) static ROOM: NumberRow<0, 16_777_212> = NumberRow {
    word: "room",
    default: Some(0),
};
