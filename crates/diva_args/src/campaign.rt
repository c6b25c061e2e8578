// The options of `campaign`, each number of which keeps its range.
use crate::file_name::FileName;
use crate::rows::{CampaignCycles, LastCycle};

/// `campaign IMAGE LAST` with its option.
#[derive(Debug, Drop)]
pub struct CampaignOptions {
    /// `IMAGE`: the name of the image's file. It is the word as it is. No memory follows what an executable loads.
    pub image: FileName,
    /// `LAST`: the last cycle in which a bit is flipped.
    pub last: LastCycle,
    /// `--cycles`: the cycles of each run at most; 10,000 by default.
    pub cycles: CampaignCycles,
}
