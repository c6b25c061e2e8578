// Cores of the tests' own.
use diva_core::{Claims, Core, Told, View};
use diva_isa::record_of;
use diva_tape::Lockstep;

/// Hands over nothing before this cycle, and then what `Lockstep` does.
#[derive(Clone, Copy, Debug)]
pub(super) struct Late {
    pub first: u64,
}

impl Core for Late {
    ghost use Rattle.std.specs.Prelude.{⊤};

    ghost gives = { λ before told state list after. ⊤ };

    fn cycle(&mut self, told: &Told, view: &View<'_>, out: &mut Claims) {
        if told.cycle >= self.first {
            Lockstep.cycle(told, view, out);
        }
    }
}

/// Hands over the due record where a claim is due, or so many calls later.
#[derive(Clone, Copy, Debug)]
pub(super) struct Prompted {
    pub late: u32,
    /// How many calls in a row a claim was due in, and none was handed over.
    pub missed: u32,
}

impl Core for Prompted {
    ghost use Rattle.std.specs.Prelude.{⊤};

    ghost gives = { λ before told state list after. ⊤ };

    fn cycle(&mut self, told: &Told, view: &View<'_>, out: &mut Claims) {
        if !told.due {
            self.missed = 0;
        } else if self.missed < self.late {
            self.missed += 1;
        } else {
            out.push(record_of(view));
            self.missed = 0;
        }
    }
}
