// A core that plays a tape.
ghost use Rattle.std.specs.Prelude.{◌≡◌, ◌≤◌, [], length};

use crate::tape::Tape;
use diva_core::{Claim, Claims, CopyCore, Core, Told, View};
use std::alloc::{AllocError, Global};
use std::marker::Model;

/// A core that hands over the lists of a tape, one in each call, and nothing past the last, whatever it is told.
///
/// It borrows the tape, so neither a call nor a copy of it takes memory.
#[derive(Debug, Drop)]
pub struct TapeCore<'t> {
    /// The claims of the lists that are left, one after another.
    claims: &'t [Claim],
    /// How many claims each of these lists has.
    counts: &'t [u8],
}

impl<'t> Model for TapeCore<'t> {
    ghost use Rattle.std.specs.Prelude.{List};
    ghost use Rattle.diva_isa.specs.declared.record.Record.{Record};
    ghost use Rattle.diva_tape.specs.TapeParts.{parted, IsParted};

    ghost Value = { List (List Record) };

    ghost view = { λ c. parted c.counts.now c.claims.now };

    ghost invariant = { λ c. IsParted c.counts.now c.claims.now };
}

impl<'t> TapeCore<'t> {
    /// A core that is to play the whole tape.
    pub fn new(tape: &'t Tape) -> Self
        ensures { result ≡ tape.now }
    {
        TapeCore {
            claims: &tape.claims,
            counts: &tape.counts,
        }
    }
}

impl Core for TapeCore<'_> {
    ghost use Rattle.diva_tape.specs.TapeCalls.{tape_call};

    ghost gives = { tape_call };

    fn cycle(&mut self, _told: &Told, _view: &View<'_>, out: &mut Claims) {
        if let Some((count, counts)) = self.counts.split_first() {
            let (list, claims) = self.claims.split_at(usize::from(*count));
            hand_over(list, out);
            self.claims = claims;
            self.counts = counts;
        }
    }
}

impl CopyCore for TapeCore<'_> {
    fn copied(&self, _alloc: Global) -> Result<Self, AllocError> {
        Ok(TapeCore {
            claims: self.claims,
            counts: self.counts,
        })
    }

    fn copy_from(&mut self, other: &Self) {
        self.claims = other.claims;
        self.counts = other.counts;
    }
}

/// Hands over some claims.
pub(crate) fn hand_over(list: &[Claim], out: &mut Claims)
    requires empty { out.old ≡ [] }
    requires most { length list.now ≤ 8 }
    ensures { out.new ≡ list.now }
{
    for claim in list {
        out.push(*claim);
    }
}
