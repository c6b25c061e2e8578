// Cores over others, one that counts and one that misleads, and one of given lists.
use diva_core::{Claim, Claims, CopyCore, Core, Told, View};
use diva_isa::Record;
use std::alloc::{AllocError, Global};

/// Counts its calls, and hands over what another core does.
#[derive(Clone, Copy, Debug, Drop)]
pub struct Counting<C> {
    pub calls: u64,
    pub core: C,
}

impl<C: Core> Core for Counting<C> {
    ghost use Rattle.std.specs.Prelude.{⊤};

    ghost gives = { λ before told state list after. ⊤ };

    fn cycle(&mut self, told: &Told, view: &View<'_>, out: &mut Claims) {
        self.calls = self.calls.saturating_add(1);
        self.core.cycle(told, view, out);
    }
}

impl<C: CopyCore> CopyCore for Counting<C> {
    fn copied(&self, alloc: Global) -> Result<Self, AllocError> {
        Ok(Counting {
            calls: self.calls,
            core: self.core.copied(alloc)?,
        })
    }

    fn copy_from(&mut self, other: &Self) {
        self.calls = other.calls;
        self.core.copy_from(&other.core);
    }
}

/// Hands over what another core does, but in one cycle its first claim alone, with the lowest bit of `value` flipped.
#[derive(Clone, Copy, Debug, Drop)]
pub struct Misled<C> {
    pub cycle: u64,
    pub core: C,
}

impl<C: Core> Core for Misled<C> {
    ghost use Rattle.std.specs.Prelude.{⊤};

    ghost gives = { λ before told state list after. ⊤ };

    fn cycle(&mut self, told: &Told, view: &View<'_>, out: &mut Claims) {
        self.core.cycle(told, view, out);
        if told.cycle != self.cycle {
            return;
        }
        if let Some(claim) = out.as_slice().first().copied() {
            out.clear();
            out.push(Record {
                value: claim.value ^ 1,
                ..claim
            });
        }
    }
}

impl<C: CopyCore> CopyCore for Misled<C> {
    fn copied(&self, alloc: Global) -> Result<Self, AllocError> {
        Ok(Misled {
            cycle: self.cycle,
            core: self.core.copied(alloc)?,
        })
    }

    fn copy_from(&mut self, other: &Self) {
        self.cycle = other.cycle;
        self.core.copy_from(&other.core);
    }
}

/// Hands over given lists, whatever they claim: each of them in its cycle and in those that follow, up
/// to the next one's. The cycles rise.
#[derive(Clone, Copy, Debug, Drop)]
pub struct Lists<'a> {
    pub lists: &'a [(u64, &'a [Claim])],
}

impl Lists<'_> {
    fn list(&self, cycle: u64) -> &[Claim] {
        match self.lists.iter().rev().find(|(first, _)| *first <= cycle) {
            Some((_, list)) => list,
            None => &[],
        }
    }
}

impl Core for Lists<'_> {
    ghost use Rattle.std.specs.Prelude.{⊤};

    ghost gives = { λ before told state list after. ⊤ };

    fn cycle(&mut self, told: &Told, _view: &View<'_>, out: &mut Claims) {
        for &claim in self.list(told.cycle) {
            if out.len() < Claims::MOST {
                out.push(claim);
            }
        }
    }
}

impl CopyCore for Lists<'_> {
    fn copied(&self, _alloc: Global) -> Result<Self, AllocError> {
        Ok(Lists { lists: self.lists })
    }

    fn copy_from(&mut self, other: &Self) {
        self.lists = other.lists;
    }
}
