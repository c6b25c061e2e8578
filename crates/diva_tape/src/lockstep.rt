// A core that does one instruction at a time.
use diva_core::{Claims, CopyCore, Core, Told, View};
use diva_isa::record_of;
use std::alloc::{AllocError, Global};

/// A core that waits until nothing is pending and there is room, and then hands over the due record:
/// that of the next instruction of the committed state, read through the view. It is always right.
#[derive(Clone, Copy, Debug)]
pub struct Lockstep;

impl Core for Lockstep {
    ghost use Rattle.diva_tape.specs.Lists.{IsLockstepCall};

    ghost gives = { IsLockstepCall };

    #[inline(always)]
    fn cycle(&mut self, told: &Told, view: &View<'_>, out: &mut Claims) {
        if told.pending == 0 && told.room > 0 {
            out.push(record_of(view));
        }
    }
}

impl CopyCore for Lockstep {
    fn copied(&self, _alloc: Global) -> Result<Self, AllocError> {
        Ok(*self)
    }

    fn copy_from(&mut self, other: &Self) {
        *self = *other;
    }
}
