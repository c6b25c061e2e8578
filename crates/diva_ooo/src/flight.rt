// The state that an instruction reads.
ghost use Rattle.std.specs.Prelude.{◌≡◌, ◌≤◌, ◌<◌, ◌++◌, length, map, take, IsSome, IsTrue, Some, slice_get, true};
ghost use Rattle.std.specs.List.{list_all};
ghost use Rattle.diva_isa.specs.State.{State, byte_of, word_of};
ghost use Rattle.diva_ooo.specs.WindowEntry.{WindowEntry};
ghost use Rattle.diva_ahead.specs.Effects.{done_by};
ghost use Rattle.diva_core.specs.Effects.{is_apart, with_effects};

use crate::window::Window;
use diva_ahead::Ahead;
use diva_core::{View, byte_in, is_apart};
use diva_isa::{Effect, Look, Width};

/// The state that the entry at a place reads: registers with what the older ones wrote, and the machine's memory with what
/// the core handed over and then what the older entries store laid over it.
#[derive(Drop)]
pub(crate) struct Flight<'a> {
    pub pc: u32,
    pub ahead: &'a Ahead,
    pub window: &'a Window,
    pub at: usize,
    pub view: &'a View<'a>,
    pub ghost within: { at < length window.now },
}

impl<'a> Flight<'a> {
    /// The state that the entry at a place reads.
    #[inline(always)]
    pub(crate) fn of(window: &'a Window, at: usize, ahead: &'a Ahead, view: &'a View<'a>) -> Self
        requires { at < length window.now }
        ensures pc { (e : WindowEntry) → slice_get window.now at ≡ Some e → result.pc ≡ e.pc }
        ensures ahead { result.ahead.now ≡ ahead.now }
        ensures window { result.window.now ≡ window.now }
        ensures place { result.at ≡ at }
        ensures view { result.view.now ≡ view.now }
    {
        let entry = window.entry(at);
        Flight {
            pc: entry.pc,
            ahead,
            window,
            at,
            view,
        }
    }
}

impl Flight<'_> {
    #[inline]
    fn find_word(&self, addr: u32) -> Option<u32>
        ensures { result ≡ word_of (with_effects self.now.view.now (self.now.ahead.now.ring ++ map (λ x. done_by x.result) (take self.now.at self.now.window.now))) addr }
    {
        let mut latest = self.ahead.ring().word(self.view, addr)?;
        let mut from = 0;
        while let Some(place) = self.window.next_store(from, self.at) {
            let entry = self.window.entry(place);
            let effect = &entry.effect;
            match *effect {
                Effect::Stores {
                    width: Width::Word,
                    addr: start,
                    value,
                } if start == addr => latest = value,
                _ if is_apart(effect, addr, 4) => {}
                _ => return self.overlaid(addr),
            }
            from = place + 1;
        }
        Some(latest)
    }

    /// The same, byte by byte: few reads meet a part of a store in flight.
    #[cold]
    fn overlaid(&self, addr: u32) -> Option<u32>
        requires { IsSome (word_of (with_effects self.now.view.now self.now.ahead.now.ring) addr) }
        ensures { result ≡ word_of (with_effects self.now.view.now (self.now.ahead.now.ring ++ map (λ x. done_by x.result) (take self.now.at self.now.window.now))) addr }
    {
        Some(u32::from_le_bytes([
            self.byte(addr)?,
            self.byte(addr + 1)?,
            self.byte(addr + 2)?,
            self.byte(addr + 3)?,
        ]))
    }
}

impl Look for Flight<'_> {
    ghost use Rattle.std.specs.Prelude.{◌++◌, map, take};
    ghost use Rattle.diva_ahead.specs.Ahead.{seen};
    ghost use Rattle.diva_ahead.specs.Effects.{done_by};
    ghost use Rattle.diva_ooo.specs.Issue.{written};

    ghost shows = { λ x. seen (record x.ahead.now { regs = written x.ahead.now.regs (take x.at x.window.now); pc = x.pc; ring = x.ahead.now.ring ++ map (λ e. done_by e.result) (take x.at x.window.now) }) x.view.now };

    fn pc(&self) -> u32 {
        self.pc
    }

    fn reg(&self, n: u8) -> u32 {
        self.window.reg(self.at, n, self.ahead.regs())
    }

    fn byte(&self, addr: u32) -> Option<u8> {
        let mut byte = self.ahead.ring().byte(self.view, addr)?;
        let mut from = 0;
        while let Some(place) = self.window.next_store(from, self.at) {
            let entry = self.window.entry(place);
            byte = byte_in(&entry.effect, addr).unwrap_or(byte);
            from = place + 1;
        }
        Some(byte)
    }

    fn word(&self, addr: u32) -> Option<u32> {
        self.find_word(addr)
    }

    #[tactic(auto, using(diva_core::proofs::Laying::effects_there))]
    fn has(&self, addr: u32, width: Width) -> bool {
        self.view.has(addr, width)
    }

    // The core's own number: an instruction that reads it has no older one in the window.
    fn instret(&self) -> u64 {
        self.ahead.instret()
    }

    fn out_len(&self) -> u32 {
        self.ahead.out_len()
    }
}
