// Sets of entries.
ghost use Rattle.std.specs.Prelude.{◌≡◌, ◌==◌, ◌&&◌, ◌||◌, ◌<◌, ◌≤◌, ◌+◌, ℕ, nat_le, nat_lt, not, false, true, IfSome, IsNone, if◌then◌else◌};
ghost use Rattle.std.specs.Int.{bit_at};
ghost use Rattle.diva_ooo.specs.MarkSets.{IsLast, IsNext, has};

/// A set of marks, each of them a number below 64, as the bits of a number.
#[derive(Clone, Copy, Debug, PartialEq, Eq)]
pub(crate) struct MarkSet {
    pub bits: u64,
}

impl MarkSet {
    /// How many marks there are: one for each bit.
    const MARKS: usize = 64;

    /// No mark.
    pub(crate) const NONE: MarkSet = MarkSet { bits: 0 };

    /// Whether a mark is in the set.
    pub(crate) fn has(self, mark: usize) -> bool
        requires { mark < 64 }
        ensures { result ≡ has self mark }
    {
        self.bits >> mark & 1 == 1
    }

    /// Puts a mark into the set, if it is to be a member.
    pub(crate) fn put(&mut self, mark: usize, member: bool)
        requires { mark < 64 }
        ensures { (i : ℕ) → has self.new i ≡ (if i == mark then member || has self.old mark else has self.old i) }
    {
        self.bits |= u64::from(member) << mark;
    }

    /// Takes a mark out of the set.
    pub(crate) fn remove(&mut self, mark: usize)
        requires { mark < 64 }
        ensures { (i : ℕ) → has self.new i ≡ (if i == mark then false else has self.old i) }
    {
        self.bits = without(self.bits, mark);
    }

    /// Puts all marks of a set into this one.
    pub(crate) fn put_all(&mut self, others: MarkSet)
        ensures { (i : ℕ) → has self.new i ≡ (has self.old i || has others i) }
    {
        self.bits |= others.bits;
    }

    /// The marks that are in both sets.
    pub(crate) fn both(self, other: MarkSet) -> MarkSet
        ensures { (i : ℕ) → has result i ≡ (has self i && has other i) }
    {
        MarkSet {
            bits: self.bits & other.bits,
        }
    }

    /// The marks but for those of another set from a mark on.
    pub(crate) fn except(self, others: MarkSet, from: usize) -> MarkSet
        requires { from < 64 }
        ensures { (i : ℕ) → has result i ≡ (has self i && not (has others i && nat_le from i)) }
    {
        MarkSet {
            bits: without_all(self.bits, high_bits(others.bits, from)),
        }
    }

    /// The marks below one.
    pub(crate) fn below(self, end: usize) -> MarkSet
        requires { end < 64 }
        ensures { (i : ℕ) → has result i ≡ (if nat_lt i end then has self i else false) }
    {
        MarkSet {
            bits: self.bits & ((1 << end) - 1),
        }
    }

    /// The marks from one on.
    pub(crate) fn from(self, start: usize) -> MarkSet
        requires { start < 64 }
        ensures { (i : ℕ) → has result i ≡ (has self i && nat_le start i) }
    {
        MarkSet {
            bits: high_bits(self.bits, start),
        }
    }

    /// The marks up to the lowest of another set from a mark on, and that one; all where it has none from there on.
    pub(crate) fn up_to_next(self, others: MarkSet, from: usize) -> MarkSet
        requires { from < 64 }
        ensures some { (n : ℕ) → IsNext others from n
            → (i : ℕ) → has result i ≡ (if nat_lt i (n + 1) then has self i else false) }
        ensures none { ((i : ℕ) → from ≤ i → has others i ≡ false) → (i : ℕ) → has result i ≡ has self i }
    {
        let behind = high_bits(others.bits, from);
        MarkSet {
            bits: self.bits & (behind ^ behind.wrapping_sub(1)),
        }
    }

    /// The marks from one on, each of them lower by that one.
    pub(crate) fn lowered(self, by: usize) -> MarkSet
        requires { by < 64 }
        ensures { (i : ℕ) → has result i ≡ has self (by + i) }
    {
        MarkSet {
            bits: self.bits >> by,
        }
    }

    /// The lowest mark, 64 where there is none.
    pub(crate) fn first(self) -> usize
        ensures there { result < 64 → has self result ≡ true }
        ensures lower { (i : ℕ) → i < result → has self i ≡ false }
    {
        match self.next(0) {
            Some(mark) => mark,
            None => Self::MARKS,
        }
    }

    /// The lowest mark from one on, if there is any.
    pub(crate) fn next(self, from: usize) -> Option<usize>
        requires { from < 64 }
        ensures some { IfSome result (IsNext self from) }
        ensures below { IfSome result (λ n. n < 64) }
        ensures none { IsNone result → (i : ℕ) → from ≤ i → has self i ≡ false }
    {
        next_bit(self.bits, from)
    }

    /// The highest mark below one, if there is any.
    pub(crate) fn last(self, end: usize) -> Option<usize>
        requires { end < 64 }
        ensures some { IfSome result (IsLast self end) }
        ensures none { IsNone result → (i : ℕ) → i < end → has self i ≡ false }
    {
        let below = self.bits & ((1 << end) - 1);
        match below.checked_ilog2() {
            Some(mark) => Some(mark as usize),
            None => None,
        }
    }

    /// The highest mark, if there is any.
    pub(crate) fn highest(self) -> Option<usize>
        ensures some { IfSome result (IsLast self 64) }
        ensures none { IsNone result → (i : ℕ) → has self i ≡ false }
    {
        match self.bits.checked_ilog2() {
            Some(mark) => Some(mark as usize),
            None => None,
        }
    }
}

/// A number without one of its bits.
fn without(bits: u64, at: usize) -> u64
    requires { at < 64 }
    ensures { (i : ℕ) → (bit_at result i == 1) ≡ (if i == at then false else (bit_at bits i == 1)) }
{
    bits & !(1 << at)
}

/// A number without the bits of another.
fn without_all(bits: u64, others: u64) -> u64
    ensures { (i : ℕ) → (bit_at result i == 1) ≡ ((bit_at bits i == 1) && not (bit_at others i == 1)) }
{
    bits & !others
}

/// The bits of a number from a place on.
fn high_bits(bits: u64, from: usize) -> u64
    requires { from < 64 }
    ensures { (i : ℕ) → (bit_at result i == 1) ≡ ((bit_at bits i == 1) && nat_le from i) }
{
    bits & (u64::MAX << from)
}

/// The place of the lowest bit from one on, if there is any.
fn next_bit(bits: u64, from: usize) -> Option<usize>
    requires { from < 64 }
    ensures some { IfSome result (IsNext (record { bits = bits }) from) }
    ensures below { IfSome result (λ n. n < 64) }
    ensures none { IsNone result → (i : ℕ) → from ≤ i → (bit_at bits i == 1) ≡ false }
{
    let rest = bits >> from;
    if rest == 0 {
        None
    } else {
        Some(from + rest.trailing_zeros() as usize)
    }
}
