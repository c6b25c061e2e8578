// Where the stores are that a list has among its items.
ghost use Rattle.std.specs.Prelude.{ℕ, ◌≡◌, ◌↔◌, ◌⊎◌, ◌+◌, ◌-◌, ◌<◌, ◌^◌, IsTrue};
ghost use Rattle.diva_memory.specs.Interval.{AreApart, IsApart};
ghost use Rattle.diva_memory.specs.Span.{Spans};

use crate::interval::Interval;

/// Where the stores are that a list has among its items, the oldest first: up to which item they go, and between which addresses.
///
/// So of most reads it is known without a look at the list that they meet none of them. Where no store is left, nothing is said by
/// the interval, which the next store makes anew.
#[derive(Clone, Copy, Debug)]
pub struct Span {
    /// How many items there are, from the oldest on, up to the youngest that may be a store.
    count: usize,
    /// All that they store lies in it.
    interval: Interval,
}

impl Span {
    /// The span of a list without stores.
    #[inline(always)]
    pub fn none() -> Self
        ensures { result.count ≡ 0 }
    {
        Span {
            count: 0,
            interval: Interval::empty(),
        }
    }

    /// Extends it to the item at a place, the youngest of the list, which may store the `n` bytes from an address on.
    #[inline(always)]
    pub fn extend(&mut self, place: usize, addr: u32, n: u32)
        requires { place + 1 < 2 ^ 64 }
        ensures youngest { Spans self.new place addr n }
        ensures older { (p a k : ℕ) → p < place → Spans self.old p a k → Spans self.new p a k }
    {
        if self.count == 0 {
            self.interval = Interval::empty();
        }
        self.count = place + 1;
        self.interval.widen(addr, n);
    }

    /// Drops the `n` oldest items.
    #[inline(always)]
    pub fn drop_oldest(&mut self, n: usize)
        ensures left { (p a k : ℕ) → Spans self.old (n + p) a k → Spans self.new p a k }
        ensures count { self.new.count ≡ self.old.count - n }
    {
        self.count = self.count.saturating_sub(n);
    }

    /// Whether no item can store one of the `n` bytes from an address on. It may say no where none can.
    #[inline(always)]
    pub fn is_apart(&self, addr: u32, n: u32) -> bool
        ensures value { IsTrue result ↔ ((self.now.count ≡ 0) ⊎ IsApart self.now.interval addr n) }
        ensures apart { IsTrue result → (p a k : ℕ) → Spans self.now p a k → AreApart a k addr n }
    {
        self.count == 0 || self.interval.is_apart(addr, n)
    }
}
