// How a log is judged.

/// How a log is judged.
#[derive(Clone, Copy, Debug, Default, PartialEq, Eq)]
pub struct Terms {
    /// After so many wrong lines no further one is judged.
    pub stop: Option<u32>,
    /// Whether each line is answered, in place of the rows of those that are wrong.
    pub answers: bool,
}
