// A core that runs one instruction a cycle ahead of the machine.
ghost use Rattle.std.specs.Prelude.{◌≡◌, ◌<◌, [], length, IfOk};
ghost use Rattle.diva_tape.specs.Scalar.{new_scalar, next_call};

use diva_ahead::Ahead;
use diva_core::{Claims, CopyCore, Core, Told, View};
use std::alloc::{AllocError, Global};
use std::marker::Model;

/// A core that hands over one claim in each cycle: the record of its own state, which is ahead of the committed one by
/// what it handed over. It is right from its making until a flush, and again once the solo instruction has committed.
#[derive(Drop)]
pub struct Scalar {
    ahead: Ahead,
}

impl Model for Scalar {
    ghost use Rattle.diva_ahead.specs.Ahead.{Ahead};

    ghost Value = { Ahead };

    ghost view = { λ c. c.ahead };
}

impl Scalar {
    /// A core that has not taken the machine's state yet. The one error is that memory runs out, and no later call takes
    /// any.
    pub fn new(alloc: Global) -> Result<Self, AllocError>
        ensures { IfOk result (λ c. c ≡ new_scalar) }
    {
        Ok(Scalar {
            ahead: Ahead::new(alloc)?,
        })
    }

    /// Hands over the record of its own state, unless it has handed over one that ends.
    #[inline(always)]
    fn hand_over(&mut self, view: &View<'_>, out: &mut Claims)
        requires list { out.old ≡ [] }
        requires room { length self.old.ring < 64 }
        ensures list { out.new ≡ (next_call self.old view.now).list }
        ensures core { self.new ≡ (next_call self.old view.now).core }
    {
        if self.ahead.stopped() {
            return;
        }
        self.ahead.advance(view, out);
    }
}

impl Core for Scalar {
    ghost use Rattle.diva_tape.specs.Scalar.{IsScalarCall};

    ghost gives = { IsScalarCall };

    #[inline(always)]
    #[tactic(auto, unfolding(crate::specs::Scalar::scalar_call))]
    fn cycle(&mut self, told: &Told, view: &View<'_>, out: &mut Claims) {
        if told.room == 0 {
            return;
        }
        self.ahead.sync(told, view);
        self.ahead.trim(told);
        self.hand_over(view, out);
    }
}

impl CopyCore for Scalar {
    fn copied(&self, alloc: Global) -> Result<Self, AllocError> {
        Ok(Scalar {
            ahead: self.ahead.copied(alloc)?,
        })
    }

    fn copy_from(&mut self, other: &Self) {
        self.ahead.copy_from(&other.ahead);
    }
}
