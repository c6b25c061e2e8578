// The state in which a pending claim stands.
ghost use Rattle.std.specs.Prelude.{◌≡◌, ◌≤◌, ◌%◌, length};
ghost use Rattle.diva_isa.specs.Kind.{size};
ghost use Rattle.diva_isa.specs.State.{number_of};
ghost use Rattle.diva_core.specs.Older.{before_entry, bypassed, older};

use crate::pending::Pending;
use crate::view::View;
use diva_isa::{Look, Operands, Width};

/// The state in which the claim at a place stands: the committed one after the older claims, right ones and wrong ones, as if
/// none of them ended the machine.
///
/// It is never built. What the older claims say that they wrote, stored and put bypasses the committed state: each of these is
/// looked for in them, in one walk, and there is no walk where there are none. How many they are is added to how many have
/// committed.
#[derive(Drop)]
pub struct Bypass<'a> {
    pending: &'a Pending,
    at: usize,
    view: &'a View<'a>,
    ghost within: { at ≤ length pending.now.items },
}

impl<'a> Bypass<'a> {
    /// The state in which the claim at a place stands, the oldest being at 0.
    #[inline(always)]
    #[tactic(auto, using(crate::proofs::Bypassing::before_is))]
    pub fn new(pending: &'a Pending, at: usize, view: &'a View<'a>) -> Bypass<'a>
        requires { at ≤ length pending.now.items }
        ensures { (before_entry view.now pending.now.items at).end ≡ 0
            → bypassed result.view.now (older result.pending.now.items result.at) ≡ before_entry view.now pending.now.items at }
    {
        Bypass { pending, at, view }
    }
}

impl Look for Bypass<'_> {
    ghost shows = { λ b. bypassed b.view.now (older b.pending.now.items b.at) };

    #[inline(always)]
    #[tactic(auto, using(crate::proofs::Bypassing::led_last))]
    fn pc(&self) -> u32 {
        if self.at == 0 {
            return self.view.pc();
        }
        self.pending.at(self.at - 1).claim.next
    }

    #[inline(always)]
    fn reg(&self, n: u8) -> u32 {
        let word = self.view.regs().get(n);
        if self.at == 0 {
            return word;
        }
        self.pending.reg_after(self.at, n, word)
    }

    #[inline(always)]
    fn operands(&self, first: u8, second: u8) -> Operands {
        let regs = self.view.regs();
        let operands = Operands {
            first: regs.get(first),
            second: regs.get(second),
        };
        if self.at == 0 {
            return operands;
        }
        self.pending
            .operands_after(self.at, first, second, operands)
    }

    #[inline(always)]
    #[tactic(auto, using(crate::proofs::Laying::effects_none, crate::proofs::Clear::clear_byte))]
    fn byte(&self, addr: u32) -> Option<u8> {
        let byte = self.view.byte(addr)?;
        if self.at == 0 || self.pending.is_clear(addr, 1) {
            return Some(byte);
        }
        Some(self.pending.byte_after(self.at, addr, byte))
    }

    #[inline(always)]
    #[tactic(auto, using(crate::proofs::Laying::effects_word_none, crate::proofs::Clear::clear_word))]
    fn word(&self, addr: u32) -> Option<u32> {
        if self.at == 0 || self.pending.is_clear(addr, 4) {
            return self.view.word(addr);
        }
        self.view.word_behind(self.pending, self.at, addr)
    }

    #[inline(always)]
    fn number(&self, addr: u32, width: Width) -> Option<u32> {
        if self.at == 0 || self.pending.is_clear(addr, width.size()) {
            return self.view.number(addr, width);
        }
        self.view.number_behind(self.pending, self.at, addr, width)
    }

    #[tactic(auto, using(crate::proofs::Laying::effects_there))]
    fn has(&self, addr: u32, width: Width) -> bool {
        self.view.has(addr, width)
    }

    #[inline(always)]
    #[tactic(auto, using(crate::proofs::Bypassing::older_length))]
    fn instret(&self) -> u64 {
        self.pending.recall();
        self.view.instret() + self.at as u64
    }

    #[inline(always)]
    fn out_len(&self) -> u32 {
        let len = self.view.out_len();
        if self.at == 0 {
            return len;
        }
        self.pending.out_len_after(self.at, len)
    }
}
