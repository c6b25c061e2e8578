// Cores of the tests' own.
use diva_core::{Claim, Claims, Core, Told, View};
use diva_tape::Scalar;

/// Hands over what `Scalar` would in some calls, as many as its plan has for the cycle. Of the first loads, until a flush, it
/// claims the values that are foretold.
#[derive(Drop)]
pub(super) struct Planned<'a> {
    /// For each cycle, how many claims are handed over at most: past the end as many as for the last.
    pub plan: &'a [u8],
    /// The values of the first loads; of those behind them it claims what it sees.
    pub values: &'a [u32],
    /// How many loads were handed over before a flush.
    pub loads: usize,
    pub scalar: Scalar,
}

impl Planned<'_> {
    /// How many claims the plan has for a cycle.
    fn most(&self, cycle: u64) -> u32 {
        let planned = cycle
            .checked_sub(1)
            .and_then(|place| self.plan.get(place as usize));
        match planned.or(self.plan.last()) {
            Some(most) => u32::from(*most),
            None => 0,
        }
    }

    /// Puts the next claim behind those of a list.
    fn hand_over_next(&mut self, told: &Told, view: &View<'_>, out: &mut Claims) {
        let mut next = Claims::new();
        self.scalar.cycle(told, view, &mut next);
        for &claim in next.as_slice() {
            if out.len() < Claims::MOST {
                out.push(self.foretold(claim, told.epoch));
            }
        }
    }

    /// A claim, with the value that is foretold where it is a load's before a flush.
    fn foretold(&mut self, claim: Claim, epoch: u64) -> Claim {
        if claim.word % 128 != LOADS || epoch != 0 {
            return claim;
        }
        let value = self.values.get(self.loads).copied().unwrap_or(claim.value);
        self.loads = self.loads.saturating_add(1);
        Claim { value, ..claim }
    }
}

/// The lowest seven bits of a load's word.
const LOADS: u32 = 0x03;

impl Core for Planned<'_> {
    ghost use Rattle.std.specs.Prelude.{⊤};

    ghost gives = { λ before told state list after. ⊤ };

    fn cycle(&mut self, told: &Told, view: &View<'_>, out: &mut Claims) {
        let told = *told;
        for handed in 0..self.most(told.cycle) {
            if handed < told.room {
                let meanwhile = Told {
                    pending: told.pending + handed,
                    room: told.room - handed,
                    ..told
                };
                self.hand_over_next(&meanwhile, view, out);
            }
        }
    }
}
