// What the rows of a script do.
ghost use Rattle.std.specs.Prelude.{◌≡◌, ◌<◌, ◌≤◌};
ghost use Rattle.diva_faults.specs.Rows.{row_cycle, IsCycle, IsRow};
ghost use Rattle.diva_faults.specs.Touched.{end_of};
ghost use Rattle.diva_faults.specs.Inner.{hush_end};

use diva_core::Field;

/// What is done to the claim in a lane.
#[derive(Clone, Copy, Debug, PartialEq, Eq)]
pub enum Change {
    /// One bit of a field is inverted.
    Flip {
        /// The field.
        field: Field,
        /// The bit: 0 to 31, 0 being the lowest.
        bit: u8,
    },
    /// A field gets a value.
    Set {
        /// The field.
        field: Field,
        /// The value.
        value: u32,
    },
    /// The claim is removed, and those after it close up.
    Lose,
    /// A copy stands directly after the claim, but in a list of eight.
    Double,
    /// One bit of a field is forced to 1, or to 0.
    Force {
        /// The field.
        field: Field,
        /// The bit: 0 to 31, 0 being the lowest.
        bit: u8,
        /// Whether it is forced to 1.
        high: bool,
    },
}

/// One row of a script, or a row that lasts, which is laid by itself: the text of a script has no words for it, nor for a bit that is forced.
#[derive(Clone, Copy, Debug, PartialEq, Eq)]
pub enum Row {
    /// The claim in a lane of one cycle's list is changed. A lane at or past the list's end has none.
    Lane {
        /// The cycle: 1 to 1,000,000,000.
        cycle: u32,
        /// The lane: 0 to 7, 0 being the first claim of the list.
        lane: u8,
        /// What is done to the claim.
        change: Change,
    },
    /// Nothing is handed over in some cycles: their lists are emptied.
    Hush {
        /// The first of these cycles: 1 to 1,000,000,000.
        cycle: u32,
        /// How many there are: 1 to 1,000,000,000.
        cycles: u32,
    },
    /// The claim in a lane is changed in each of some cycles. No script has such a row.
    Lasting {
        /// The first of these cycles: 1 to 1,000,000,000.
        cycle: u32,
        /// How many there are: 1 to 1,000,000,000.
        cycles: u32,
        /// The lane: 0 to 7, 0 being the first claim of the list.
        lane: u8,
        /// What is done to the claim.
        change: Change,
    },
}

impl Row {
    /// The cycle that the row names, which is the first that it touches: 1 to 1,000,000,000.
    pub fn cycle(&self) -> u32
        ensures value { result ≡ row_cycle self.now }
        ensures range { IsRow self.now → IsCycle result }
    {
        match *self {
            Row::Lane { cycle, .. } | Row::Hush { cycle, .. } | Row::Lasting { cycle, .. } => cycle,
        }
    }

    /// The cycle after the last one that the row touches: at most 2,000,000,000.
    pub fn end(&self) -> u32
        requires { IsRow self.now }
        ensures value { result ≡ end_of self.now }
        ensures later { row_cycle self.now < result }
        ensures most { result ≤ 2000000000 }
    {
        match *self {
            Row::Lane { cycle, .. } => cycle + 1,
            Row::Hush { cycle, cycles } | Row::Lasting { cycle, cycles, .. } => cycle + cycles,
        }
    }

    /// The cycle after the last one of a hush, 0 for another row.
    pub(crate) fn hush_end(&self) -> u32
        requires { IsRow self.now }
        ensures { result ≡ hush_end self.now }
    {
        match self {
            Row::Hush { .. } => self.end(),
            Row::Lane { .. } | Row::Lasting { .. } => 0,
        }
    }
}
