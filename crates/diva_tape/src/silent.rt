// A core that hands over nothing.
use diva_core::{Claims, CopyCore, Core, Told, View};
use std::alloc::{AllocError, Global};

/// A core that hands over nothing, ever.
#[derive(Clone, Copy, Debug)]
pub struct Silent;

impl Core for Silent {
    ghost use Rattle.std.specs.Prelude.{◌≡◌, []};

    ghost gives = { λ before told state list after. list ≡ [] };

    fn cycle(&mut self, _told: &Told, _view: &View<'_>, _out: &mut Claims) {}
}

impl CopyCore for Silent {
    fn copied(&self, _alloc: Global) -> Result<Self, AllocError> {
        Ok(*self)
    }

    fn copy_from(&mut self, other: &Self) {
        *self = *other;
    }
}
