// What a session is asked.
use crate::numbers::{MemRange, RegisterNumber, StepCount};

/// A command of a session.
#[derive(Clone, Copy, Debug, PartialEq, Eq)]
pub enum Command {
    /// `step K`: K instructions more, or as many as there are until the end.
    Step(StepCount),
    /// `until PC`: one instruction at least, until the pc is PC or the end is reached, and 100,000 at most.
    Until(u32),
    /// `back K`: K instructions back, where so many undos are kept, and else none.
    Back(StepCount),
    /// `reg N`: a register.
    Reg(RegisterNumber),
    /// `mem ADDR LEN`: a part of memory.
    Mem(MemRange),
    /// `why`: the newest flush.
    Why,
}
