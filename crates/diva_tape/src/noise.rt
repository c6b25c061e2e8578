// A core that hands over numbers without a meaning.
ghost use Rattle.std.specs.Prelude.{◌≡◌};
ghost use Rattle.diva_seed.specs.Generator.{next_number};
ghost use Rattle.diva_tape.specs.Noise.{noise_claim, number_after};

use diva_core::{Claim, Claims, CopyCore, Core, Told, View};
use diva_seed::next_number;
use std::alloc::{AllocError, Global};
use std::marker::Model;

/// A core that hands over one claim in every call, whatever it is told: its eight fields are the next eight numbers of a
/// linear congruential generator, which a seed begins. What it hands over depends on the seed and on how many calls came
/// before alone.
///
/// No call takes memory.
#[derive(Debug, Drop)]
pub struct Noise {
    /// The number that came last; the seed before the first.
    last: u32,
}

impl Model for Noise {
    ghost use Rattle.std.specs.Prelude.{ℕ};

    ghost Value = { ℕ };

    ghost view = { λ n. n.last };
}

impl Noise {
    /// A core whose numbers are those after `seed`.
    pub fn new(seed: u32) -> Self
        ensures { result ≡ seed }
    {
        Noise { last: seed }
    }

    /// The next number.
    fn number(&mut self) -> u32
        ensures number { result ≡ next_number self.old }
        ensures last { self.new ≡ next_number self.old }
    {
        self.last = next_number(self.last);
        self.last
    }

    /// The claim of the next eight numbers.
    #[tactic(auto, unfolding(crate::specs::Noise::noise_claim))]
    fn claim(&mut self) -> Claim
        ensures claim { result ≡ noise_claim self.old }
        ensures last { self.new ≡ number_after 8 self.old }
    {
        Claim {
            pc: self.number(),
            word: self.number(),
            src1: self.number(),
            src2: self.number(),
            addr: self.number(),
            value: self.number(),
            next: self.number(),
            end: self.number(),
        }
    }
}

impl Core for Noise {
    ghost use Rattle.diva_tape.specs.Noise.{noise_call};

    ghost gives = { noise_call };

    fn cycle(&mut self, _told: &Told, _view: &View<'_>, out: &mut Claims) {
        out.push(self.claim());
    }
}

impl CopyCore for Noise {
    fn copied(&self, _alloc: Global) -> Result<Self, AllocError> {
        Ok(Noise { last: self.last })
    }

    fn copy_from(&mut self, other: &Self) {
        self.last = other.last;
    }
}
