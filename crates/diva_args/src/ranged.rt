// Numbers that keep a range.
ghost use Rattle.std.specs.Prelude.{◌≡◌, ◌↔◌, IsSome, IfSome};
ghost use Rattle.diva_outside.specs.NextWords.{IsInRange, ranged};

use std::marker::Model;

/// A number from `LEAST` to `MOST`.
#[derive(Clone, Copy, Debug, PartialEq, Eq)]
pub struct Ranged<const LEAST: u32, const MOST: u32> {
    number: u32,
}

impl<const LEAST: u32, const MOST: u32> Model for Ranged<LEAST, MOST> {
    ghost use Rattle.std.specs.Prelude.{ℕ};
    ghost use Rattle.diva_outside.specs.NextWords.{IsInRange};

    ghost Value = { ℕ };

    ghost view = { λ r. r.number };

    ghost invariant = { λ r. IsInRange LEAST MOST r.number };

    ghost inverse = { λ n. record { number = n } };
}

impl<const LEAST: u32, const MOST: u32> Ranged<LEAST, MOST> {
    /// The number, `None` exactly if it is out of the range.
    pub fn new(number: u64) -> Option<Self>
        ensures in_range { IsSome result ↔ IsInRange LEAST MOST number }
        ensures value { IfSome result (λ r. r ≡ number) }
        ensures checked { result ≡ ranged LEAST MOST number }
    {
        if u64::from(LEAST) <= number && number <= u64::from(MOST) {
            Some(Ranged {
                number: number as u32,
            })
        } else {
            None
        }
    }

    /// The number.
    pub fn get(self) -> u32
        ensures value { result ≡ self.entry }
        ensures in_range { IsInRange LEAST MOST result }
    {
        self.number
    }
}
