// A core that hands over as much as a call can take.
use crate::tape_core::hand_over;
use diva_core::{Claim, Claims, CopyCore, Core, Told, View};
use std::alloc::{AllocError, Global};

/// A core that hands over eight claims of zeros in every call, whatever it is told. Where a zero is due in one field it is
/// right in that one: none of its claims has an instruction's word.
#[derive(Clone, Copy, Debug)]
pub struct Flood;

/// A claim whose fields are all 0.
const ZEROS: Claim = Claim {
    pc: 0,
    word: 0,
    src1: 0,
    src2: 0,
    addr: 0,
    value: 0,
    next: 0,
    end: 0,
};

impl Core for Flood {
    ghost use Rattle.diva_tape.specs.Lists.{IsFloodCall};

    ghost gives = { IsFloodCall };

    fn cycle(&mut self, _told: &Told, _view: &View<'_>, out: &mut Claims) {
        hand_over(&[ZEROS; Claims::MOST], out);
    }
}

impl CopyCore for Flood {
    fn copied(&self, _alloc: Global) -> Result<Self, AllocError> {
        Ok(*self)
    }

    fn copy_from(&mut self, other: &Self) {
        *self = *other;
    }
}
