// The records of one cycle.
ghost use Rattle.std.specs.Prelude.{◌≡◌, ◌<◌, ◌≤◌, [], ◌∷◌, ◌++◌, length, ◌==◌};

use arrayvec::ArrayVec;
use diva_isa::Record;
use std::marker::Model;

/// The records of one cycle, in order: at most `N`.
///
/// They make way for those of the next cycle. So the places stay filled, and are written over: to drop the records is to
/// count them no longer.
#[derive(Drop)]
pub struct Records<const N: usize> {
    /// All of the `N` places.
    places: ArrayVec<Record, N>,
    /// How many of the places, the first, hold a record of this cycle.
    len: usize,
}

impl<const N: usize> Model for Records<N> {
    ghost use Rattle.std.specs.Prelude.{List, length, take, ◌≡◌, ◌≤◌};
    ghost use Rattle.diva_isa.specs.declared.record.Record.{Record};

    ghost Value = { List Record };

    ghost view = { λ r. take r.len r.places.items };

    ghost invariant = { λ r. (r.len ≤ N) × (length r.places.items ≡ N) };
}

impl<const N: usize> Records<N> {
    /// No records.
    pub fn new() -> Self
        ensures { result ≡ [] }
    {
        Records {
            places: ArrayVec::from([Record::default(); N]),
            len: 0,
        }
    }

    /// How many records there are.
    #[inline]
    pub fn len(&self) -> usize
        ensures value { result ≡ length self.now }
        ensures most { result ≤ N }
    {
        self.len
    }

    /// Whether there is no record.
    #[inline]
    pub fn is_empty(&self) -> bool
        ensures { result ≡ (length self.now == 0) }
    {
        self.len == 0
    }

    /// Puts a record behind the others.
    #[inline]
    pub fn push(&mut self, r: Record)
        requires { length self.old < N }
        ensures { self.new ≡ self.old ++ r ∷ [] }
    {
        self.places.as_mut_slice()[self.len] = r;
        self.len += 1;
    }

    /// Drops all records.
    #[inline]
    pub fn clear(&mut self)
        ensures { self.new ≡ [] }
    {
        self.len = 0;
    }

    /// Becomes a copy of some records.
    pub fn copy_from(&mut self, other: &Records<N>)
        ensures { self.new ≡ other.now }
    {
        self.places
            .as_mut_slice()
            .copy_from_slice(other.places.as_slice());
        self.len = other.len;
    }

    /// The records, in order.
    #[inline]
    pub fn as_slice(&self) -> &[Record]
        ensures value { result.now ≡ self.now }
        ensures most { length result.now ≤ N }
    {
        &self.places.as_slice()[..self.len]
    }
}
