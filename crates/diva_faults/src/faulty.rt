// A core whose lists a script spoils.
ghost use Rattle.std.specs.Prelude.{◌≡◌};

use crate::script::Script;
use diva_core::{Claims, Core, Told, View};

/// A core over another one: it asks that one in every cycle, and lays a script over the list that it hands over.
#[derive(Drop)]
pub struct Faulty<'a, C> {
    inner: &'a mut C,
    script: &'a Script,
}

impl<'a, C: Core> Faulty<'a, C> {
    ghost use Rattle.diva_faults.specs.Spoiled.{inside, lent_name, rows_in};

    /// The core that is lent, under a script.
    pub fn new(inner: &'a mut C, script: &'a Script) -> Faulty<'a, C>
        ensures inner { inside result ≡ inner.old }
        ensures same_core { lent_name result ≡ inner.entry.ghost_name }
        ensures script { rows_in result ≡ script.now }
    {
        Faulty { inner, script }
    }
}

impl<'a, C: Core> Core for Faulty<'a, C> {
    ghost use Rattle.diva_faults.specs.Spoiled.{spoiled_call};

    ghost gives = { spoiled_call C.gives };

    #[inline(always)]
    fn cycle(&mut self, told: &Told, view: &View<'_>, out: &mut Claims) {
        self.inner.cycle(told, view, out);
        self.script.lay(told.cycle, out);
    }
}
