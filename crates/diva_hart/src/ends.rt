// How drives stop.

/// How a drive stopped.
#[derive(Clone, Copy, Debug, PartialEq, Eq)]
pub enum Drive {
    /// What was driven has ended: the machine, or both harts, and of these every store is in memory.
    Ended,
    /// The budget's cycles were all run, and it goes on.
    Budget,
}
