// A core that hands over what the lines of a log say.
ghost use Rattle.std.specs.Prelude.{◌≡◌};

use crate::said::Said;
use diva_core::{Claims, Core, Told, View};
use diva_isa::record_of;
use std::marker::Model;

/// A core that waits until nothing is pending and there is room, and then hands over what its lines say of the next instruction: the
/// line at the place `told.count`. What the line leaves out is as it is due. Past the last line it hands over nothing.
///
/// It keeps nothing but its lines: after a flush the next line is that of the next instruction, and after an undo that of the
/// instruction that was taken back. No call takes memory.
#[derive(Debug, Drop)]
pub struct ClaimsCore {
    lines: Vec<Said>,
}

impl Model for ClaimsCore {
    ghost use Rattle.std.specs.Prelude.{List};
    ghost use Rattle.diva_claims.specs.declared.said.Said.{Said};

    ghost Value = { List Said };

    ghost view = { λ c. c.lines.items };
}

impl ClaimsCore {
    /// A core with these lines, the n-th of which is that of the n-th instruction, from 0 on.
    pub fn new(lines: Vec<Said>) -> Self
        ensures { result ≡ lines.items }
    {
        ClaimsCore { lines }
    }
}

impl Core for ClaimsCore {
    ghost use Rattle.diva_claims.specs.Calls.{IsClaimsCall};

    ghost gives = { IsClaimsCall };

    fn cycle(&mut self, told: &Told, view: &View<'_>, out: &mut Claims) {
        if told.pending == 0 && told.room > 0 {
            if let Some(said) = self.lines.get(told.count as usize) {
                out.push(said.filled(record_of(view)));
            }
        }
    }
}
