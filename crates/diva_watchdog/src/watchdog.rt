// The count of cycles without a commit.
ghost use Rattle.std.specs.Prelude.{◌≡◌, ◌≤◌, ◌<◌, ◌+◌, ◌-◌, ◌^◌, ◌↔◌, IsTrue, nat_le, false, true};

use std::marker::Model;

/// A count of the cycles without a commit, and the limit at which it calls for a flush, in cycles.
///
/// It is kept as what is left of it: whether the limit is reached is then told by the top bit of a number that falls, and no limit
/// is looked up.
#[derive(Clone, Copy, Debug)]
pub struct Watchdog {
    /// What is left where no cycle has passed without a commit.
    all: u64,
    /// `REACHED` and the cycles that are left until the limit is reached, less one: below `REACHED` where it is.
    left: u64,
}

/// What is left of a count lies below this exactly where its limit is reached.
const REACHED: u64 = 1 << 63;

impl Model for Watchdog {
    ghost use Rattle.std.specs.Prelude.{◌≤◌, ◌<◌, ◌+◌, ◌-◌, ◌^◌};
    ghost use Rattle.diva_watchdog.specs.Watchdog.{Watchdog};

    ghost Value = { Watchdog };

    ghost view = { λ w. record { limit = w.all + 1 - 2 ^ 63; idle = w.all - w.left } };

    ghost inverse = { λ w. record { all = 2 ^ 63 + w.limit - 1; left = 2 ^ 63 + w.limit - 1 - w.idle } };

    ghost invariant = { λ w. ((2 ^ 63 ≤ w.all + 1) × (w.all < 2 ^ 63 + 2 ^ 32 - 1)) × ((w.left ≤ w.all) × (w.all < w.left + 2 ^ 32)) };
}

impl Watchdog {
    ghost use Rattle.diva_watchdog.specs.Watchdog.{barks, ticked};

    /// A watchdog that calls for a flush after `w` cycles without a commit. None have passed so far.
    pub fn new(w: u32) -> Self
        ensures { result ≡ record { limit = w; idle = 0 } }
    {
        let all = REACHED - 1 + u64::from(w);
        Watchdog { all, left: all }
    }

    /// After how many cycles without a commit it calls for a flush.
    pub fn limit(&self) -> u32
        ensures { result ≡ self.now.limit }
    {
        (self.all + 1 - REACHED) as u32
    }

    /// How many cycles have passed without a commit.
    pub fn idle(&self) -> u32
        ensures { result ≡ self.now.idle }
    {
        (self.all - self.left) as u32
    }

    /// Ends a cycle in which an instruction committed: no cycle has passed without one.
    pub fn rest(&mut self)
        ensures { self.new ≡ ticked self.old true }
    {
        self.left = self.all;
    }

    /// Ends a cycle in which no instruction committed, where the count is not at its last value: as [`tick`](Self::tick) does, but
    /// the answer is whether the count has reached the limit.
    pub fn wait(&mut self) -> bool
        requires { self.old.idle < 2 ^ 32 - 1 }
        ensures ticked { self.new ≡ ticked self.old false }
        ensures value { result ≡ nat_le self.new.limit self.new.idle }
    {
        self.left -= 1;
        self.left < REACHED
    }

    /// Ends a cycle: `committed` says whether an instruction committed in it, and `solo` whether one
    /// runs solo. The answer is whether the machine must flush, which it must where the count has
    /// reached the limit and no instruction runs solo. The count stays at its last value, `u32::MAX`.
    pub fn tick(&mut self, committed: bool, solo: bool) -> bool
        ensures ticked { self.new ≡ ticked self.old committed }
        ensures value { result ≡ barks self.new solo }
        ensures flush { IsTrue result ↔ ((self.old.limit ≤ self.new.idle) × (solo ≡ false)) }
    {
        if committed {
            self.rest();
        } else if self.idle() < u32::MAX {
            let _ = self.wait();
        }
        self.left < REACHED && !solo
    }
}
