// Memory's port.
ghost use Rattle.std.specs.Prelude.{◌≡◌, ◌≤◌, ◌==◌, ◌%◌};

use std::marker::Model;

/// Memory's port: it opens, and takes a store, in those cycles alone whose number its period divides.
#[derive(Drop)]
pub struct Port {
    /// How many cycles there are from one opening to the next.
    period: u32,
    /// A cycle in which it opens. While it is asked cycle by cycle this is the newest, and no cycle is divided by the
    /// period.
    opened: u64,
}

impl Model for Port {
    ghost use Rattle.std.specs.Prelude.{ℕ, ◌≡◌, ◌≤◌, ◌%◌};

    // How many cycles there are from one opening to the next.
    ghost Value = { ℕ };

    ghost view = { λ p. p.period };

    ghost invariant = { λ p. (1 ≤ p.period) × (p.opened % p.period ≡ 0) };
}

impl Port {
    /// A port that opens in each `period`-th cycle.
    pub fn new(period: u32) -> Self
        requires { 1 ≤ period }
        ensures { result ≡ period }
    {
        Port { period, opened: 0 }
    }

    /// Becomes a copy of a port.
    pub fn copy_from(&mut self, other: &Port)
        ensures { self.new ≡ other.now }
    {
        self.period = other.period;
        self.opened = other.opened;
    }

    /// How many cycles there are from one opening to the next.
    #[inline(always)]
    pub fn period(&self) -> u32
        ensures { result ≡ self.now }
    {
        self.period
    }

    /// Whether it opens in each cycle.
    #[inline(always)]
    pub fn is_always_open(&self) -> bool
        ensures { result ≡ (self.now == 1) }
    {
        self.period == 1
    }

    /// Whether it opens in a cycle.
    #[tactic(auto, using(crate::proofs::Ports::behind, crate::proofs::Ports::next, crate::proofs::Ports::newest))]
    pub fn opens(&mut self, cycle: u64) -> bool
        ensures value { result ≡ (cycle % self.old == 0) }
        ensures same { self.new ≡ self.old }
    {
        let period = u64::from(self.period);
        let since = cycle.saturating_sub(self.opened);
        if self.opened <= cycle && since < period {
            return since == 0;
        }
        if self.opened <= cycle && since == period {
            self.opened = cycle;
            return true;
        }
        let since = cycle % period;
        self.opened = cycle - since;
        since == 0
    }
}
