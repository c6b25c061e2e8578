// An interval of addresses in which stores lie.
ghost use Rattle.std.specs.Prelude.{ℕ, ◌↔◌, IsTrue};
ghost use Rattle.diva_memory.specs.Interval.{AreApart, IsApart, LiesIn};

/// An interval of addresses, in which all bytes lie by which it was widened.
///
/// Most reads of memory meet no store that is not there yet. Who keeps the interval of such stores knows it of a read outside,
/// without a look at them.
#[derive(Clone, Copy, Debug)]
pub struct Interval {
    /// The first address, and the first behind the interval. Where nothing lies in it, it begins behind all addresses and ends
    /// before them, so that any bytes are apart from it, and the first by which it is widened make it anew.
    first: u64,
    end: u64,
}

impl Interval {
    /// The one in which nothing lies.
    #[inline(always)]
    pub fn empty() -> Self
        ensures { (addr n : ℕ) → IsApart result addr n }
    {
        Interval {
            first: u64::MAX,
            end: 0,
        }
    }

    /// Widens it, so that the `n` bytes from an address on lie in it too.
    #[inline(always)]
    pub fn widen(&mut self, addr: u32, n: u32)
        ensures wide { LiesIn self.new addr n }
        ensures kept { (a k : ℕ) → LiesIn self.old a k → LiesIn self.new a k }
    {
        let from = u64::from(addr);
        self.first = self.first.min(from);
        self.end = self.end.max(from + u64::from(n));
    }

    /// Whether none of the `n` bytes from an address on is in it.
    #[inline(always)]
    pub fn is_apart(&self, addr: u32, n: u32) -> bool
        ensures value { IsTrue result ↔ IsApart self.now addr n }
        ensures apart { IsTrue result → (a k : ℕ) → LiesIn self.now a k → AreApart a k addr n }
    {
        let from = u64::from(addr);
        // Code stands before data in most images, so fetches pass at once.
        from + u64::from(n) <= self.first || self.end <= from
    }
}
