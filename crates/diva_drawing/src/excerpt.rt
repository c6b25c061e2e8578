// The cycles of a run that are drawn.

/// The cycles of a run that are drawn: those from one to another, both of them too. Cycles count from 1.
#[derive(Clone, Copy, Debug, PartialEq, Eq)]
pub struct Excerpt {
    /// The first of them.
    pub from: u64,
    /// The last of them, which may be later than the last cycle of the run.
    pub to: u64,
}
