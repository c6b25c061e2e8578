// A core that says the same again while it waits.
use diva_core::{Claims, CopyCore, Core, Told, View};
use diva_isa::record_of;
use std::alloc::{AllocError, Global};

/// A core that hands over the due record of the committed state in each call with room for it, also where that
/// instruction is pending already. So its first claim is right, and those behind it are the same one again.
#[derive(Clone, Copy, Debug)]
pub struct Echo;

impl Core for Echo {
    ghost use Rattle.diva_tape.specs.Lists.{IsEchoCall};

    ghost gives = { IsEchoCall };

    fn cycle(&mut self, told: &Told, view: &View<'_>, out: &mut Claims) {
        if told.room > 0 {
            out.push(record_of(view));
        }
    }
}

impl CopyCore for Echo {
    fn copied(&self, _alloc: Global) -> Result<Self, AllocError> {
        Ok(*self)
    }

    fn copy_from(&mut self, other: &Self) {
        *self = *other;
    }
}
