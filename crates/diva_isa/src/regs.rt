// The 32 registers.

ghost use Rattle.std.specs.Prelude.{◌≡◌, ℕ, ◌<◌, List, slice_index, replicate, length};
ghost use Rattle.diva_isa.specs.Regs.{with_reg};

use std::marker::Model;

/// The 32 registers. The first, x0, is always 0. (RISC-V Unprivileged ISA, RV32I 2.1, "Programmers' Model for Base
/// Integer ISA".)
#[derive(Clone, Copy, Debug, PartialEq, Eq)]
pub struct Regs {
    words: [u32; 32],
}

impl Model for Regs {
    ghost Value = { List ℕ };

    ghost view = { λ r. r.words };

    ghost invariant = { λ r. (slice_index r.words 0 ≡ 0) × (length r.words ≡ 32) };

    ghost inverse = { λ words. record { words = words } };
}

impl Regs {
    /// Registers that are all 0.
    pub fn new() -> Self
        ensures { result ≡ replicate 32 0 }
    {
        Regs { words: [0; 32] }
    }

    /// Recalls for a proof how many registers there are. It does nothing.
    #[inline(always)]
    pub fn recall(&self)
        ensures { length self.now ≡ 32 }
    {
        let _ = &self.words;
    }

    /// The word in register `n`, which is below 32.
    pub fn get(&self, n: u8) -> u32
        requires { n < 32 }
        ensures value { result ≡ slice_index self.now n }
        ensures zero { n ≡ 0 → result ≡ 0 }
        ensures count { length self.now ≡ 32 }
    {
        self.words[usize::from(n)]
    }

    /// Puts a word into register `n`, which is below 32. The first ignores it.
    pub fn set(&mut self, n: u8, v: u32)
        requires { n < 32 }
        ensures { self.new ≡ with_reg self.old n v }
    {
        if n != 0 {
            self.words[usize::from(n)] = v;
        }
    }
}

impl Default for Regs {
    ghost is_default = { λ regs. regs ≡ replicate 32 0 };

    fn default() -> Self {
        Self::new()
    }
}
