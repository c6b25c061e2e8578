// What a core hands over.
ghost use Rattle.std.specs.Prelude.{◌≡◌, ◌<◌, ◌≤◌, [], ◌∷◌, ◌++◌, length, take, IsTrue, ◌↔◌};

use crate::records::Records;
use diva_isa::Record;
use std::marker::Model;

/// What a core says of one finished instruction: the eight fields of its record.
pub type Claim = Record;

/// The claims of one cycle, in program order: at most eight.
#[derive(Drop)]
pub struct Claims {
    records: Records<8>,
}

impl Model for Claims {
    ghost use Rattle.std.specs.Prelude.{List, length, ◌≤◌};
    ghost use Rattle.diva_isa.specs.declared.record.Record.{Record};

    ghost Value = { List Record };

    ghost view = { λ c. c.records };

    ghost invariant = { λ c. length c.records ≤ 8 };
}

impl Claims {
    /// The most claims that a list holds.
    pub const MOST: usize = 8;

    /// No claims.
    pub fn new() -> Self
        ensures { result ≡ [] }
    {
        Claims {
            records: Records::new(),
        }
    }

    /// How many claims there are: at most eight.
    pub fn len(&self) -> usize
        ensures value { result ≡ length self.now }
        ensures most { result ≤ 8 }
    {
        self.records.len()
    }

    /// Whether there is no claim.
    pub fn is_empty(&self) -> bool
        ensures { IsTrue result ↔ (self.now ≡ []) }
    {
        self.records.is_empty()
    }

    /// Whether there is no room for a further claim.
    pub fn is_full(&self) -> bool
        ensures { IsTrue result ↔ (length self.now ≡ 8) }
    {
        self.records.len() == Claims::MOST
    }

    /// Puts a claim behind the others.
    pub fn push(&mut self, claim: Claim)
        requires { length self.old < 8 }
        ensures { self.new ≡ self.old ++ claim ∷ [] }
    {
        self.records.push(claim);
    }

    /// Drops all claims.
    pub fn clear(&mut self)
        ensures { self.new ≡ [] }
    {
        self.records.clear();
    }

    /// The claims, in order.
    pub fn as_slice(&self) -> &[Claim]
        ensures value { result.now ≡ self.now }
        ensures most { length result.now ≤ 8 }
    {
        self.records.as_slice()
    }
}
