// Whether the machine recovers from a flush.

/// What the machine runs.
#[derive(Clone, Copy, Debug, PartialEq, Eq)]
pub enum Recover {
    /// The instructions that the core hands over.
    Running,
    /// One instruction, which runs solo, on the checker's own values, since the cycle of this number.
    Solo(u64),
}
