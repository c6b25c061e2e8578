// A core that hands over what one line of a log says.
ghost use Rattle.std.specs.Prelude.{◌≡◌};

use crate::said::Said;
use diva_core::{Claims, Core, Told, View};
use diva_isa::record_of;
use std::marker::Model;

/// A core that has the line of the next instruction alone: it waits until nothing is pending and there is room, and then hands over
/// what the line says. What the line leaves out is as it is due.
///
/// It would say the same of the instruction after, so it drives a machine until one is counted.
#[derive(Debug, Drop)]
pub struct LineCore {
    said: Said,
}

impl Model for LineCore {
    ghost use Rattle.diva_claims.specs.declared.said.Said.{Said};

    ghost Value = { Said };

    ghost view = { λ c. c.said };
}

impl LineCore {
    /// A core with this line.
    pub fn new(said: Said) -> Self
        ensures { result ≡ said }
    {
        LineCore { said }
    }
}

impl Core for LineCore {
    ghost use Rattle.diva_claims.specs.Judged.{IsLineCall};

    ghost gives = { IsLineCall };

    fn cycle(&mut self, told: &Told, view: &View<'_>, out: &mut Claims) {
        if told.pending == 0 && told.room > 0 {
            out.push(self.said.filled(record_of(view)));
        }
    }
}
