// Cores over `Lockstep`.
use diva_tape::Lockstep;
use diva_test_programs::{Counting, Misled};

/// Hands over what `Lockstep` does, but for the lowest bit of `value` in the first cycle.
pub(crate) fn flipped() -> Misled<Lockstep> {
    Misled {
        cycle: 1,
        core: Lockstep,
    }
}

/// Counts its calls, and hands over what `Lockstep` does.
pub(crate) fn counting() -> Counting<Lockstep> {
    Counting {
        calls: 0,
        core: Lockstep,
    }
}
