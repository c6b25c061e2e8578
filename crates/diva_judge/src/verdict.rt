// What a log comes to.

/// What a log comes to.
#[derive(Clone, Copy, Debug, PartialEq, Eq)]
pub enum Verdict {
    /// The program halts, and each of its instructions has its line, of which all is due; there are no other lines.
    Halted,
    /// The same, but the program traps.
    Trapped,
    /// No line is wrong, and the log ends before the program does.
    Short,
    /// A line is wrong, or lines are left over after the program's end.
    Wrong,
    /// A line of the log has a fault; a row says so.
    Refused,
    /// The log can't be read, or not to its end; a row says so.
    Unread,
}
