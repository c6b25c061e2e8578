// The trait of the cores that hand over claims.
ghost use Rattle.std.specs.Prelude.{◌≡◌, [], IfOk};

use crate::claims::Claims;
use crate::told::Told;
use crate::view::View;
use std::alloc::{AllocError, Global};

/// A core: what hands over claims, asked once before each cycle (after Austin, MICRO-32, 1999,
/// where a complex core feeds a simple checker).
///
/// Nothing is assumed of a core but that each call returns. Its one meaning is `gives`; a core
/// whose `gives` always holds is the adversary.
pub trait Core {
    ghost use Rattle.std.specs.Prelude.{List};
    ghost use Rattle.diva_isa.specs.State.{State};
    ghost use Rattle.diva_isa.specs.declared.record.Record.{Record};
    ghost use Rattle.diva_core.specs.Told.{Told};

    /// Relates the core before a call, what it is told, the state that it is shown, the list that
    /// it leaves, and the core after.
    ghost gives: { Self → Told → State → List Record → Self → Type 0 };

    /// Puts the claims of one cycle into `out`, in program order.
    fn cycle(&mut self, told: &Told, view: &View<'_>, out: &mut Claims)
        requires { out.old ≡ [] }
        ensures { gives self.old told.now view.now out.new self.new };
}

/// A core that can be copied, so that runs can begin where another one stands.
pub trait CopyCore: Core {
    /// A copy of the core. The one error is that memory runs out.
    fn copied(&self, alloc: Global) -> Result<Self, AllocError>
    where
        Self: Sized,
        ensures { IfOk result (λ core. core ≡ self.now) };

    /// Becomes a copy of a core that was copied from it, or from which it was copied. It takes no memory.
    fn copy_from(&mut self, other: &Self)
        ensures { self.new ≡ other.now };
}

impl<C: Core> Core for &mut C {
    ghost use Rattle.std.specs.Prelude.{◌≡◌};

    ghost gives = { λ before told state list after.
        C.gives before.now told state list after.now × (after.ghost_name ≡ before.ghost_name) };

    fn cycle(&mut self, told: &Told, view: &View<'_>, out: &mut Claims) {
        (**self).cycle(told, view, out)
    }
}
