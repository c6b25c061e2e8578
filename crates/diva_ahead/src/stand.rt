// The core's own state, to read.
ghost use Rattle.std.specs.Prelude.{◌≡◌, ◌%◌};
ghost use Rattle.diva_isa.specs.Kind.{size};
ghost use Rattle.diva_isa.specs.State.{number_of};
ghost use Rattle.diva_ahead.specs.Ahead.{seen};

use crate::ahead::Ahead;
use diva_core::View;
use diva_isa::{Look, Width};

/// The core's own registers, pc, output length and number of instructions, over the machine's memory with what the core did laid over it.
#[derive(Drop)]
pub struct Stand<'a> {
    pub ahead: &'a Ahead,
    pub view: &'a View<'a>,
}

impl Look for Stand<'_> {
    ghost use Rattle.diva_ahead.specs.Ahead.{seen};

    ghost shows = { λ x. seen x.ahead.now x.view.now };

    fn pc(&self) -> u32 {
        self.ahead.pc()
    }

    fn reg(&self, n: u8) -> u32 {
        self.ahead.regs().get(n)
    }

    fn byte(&self, addr: u32) -> Option<u8> {
        self.ahead.ring().byte(self.view, addr)
    }

    #[inline(always)]
    fn word(&self, addr: u32) -> Option<u32> {
        self.ahead.ring().word(self.view, addr)
    }

    #[inline(always)]
    fn number(&self, addr: u32, width: Width) -> Option<u32> {
        read_number(self.ahead, &self.view.copied(), addr, width)
    }

    #[inline(always)]
    #[tactic(auto, using(diva_core::proofs::Laying::effects_there))]
    fn has(&self, addr: u32, width: Width) -> bool {
        self.view.has(addr, width)
    }

    fn instret(&self) -> u64 {
        self.ahead.instret()
    }

    fn out_len(&self) -> u32 {
        self.ahead.out_len()
    }
}

/// The number that the bytes of a width from an address on are, as the core sees them. Loads alone ask for it, so it is read by a
/// call, which is made on a copy of the view: the view itself can then stay in registers.
#[inline(never)]
#[tactic(auto, using(diva_storeq::proofs::Laying::half_none, diva_storeq::proofs::Laying::half_high_none))]
fn read_number(ahead: &Ahead, view: &View<'_>, addr: u32, width: Width) -> Option<u32>
    requires { addr % size width ≡ 0 }
    ensures { result ≡ number_of (seen ahead.now view.now) (size width) addr }
{
    let stand = Stand { ahead, view };
    match width {
        Width::Byte => Some(u32::from(stand.byte(addr)?)),
        Width::Half => Some(u32::from(u16::from_le_bytes([
            stand.byte(addr)?,
            stand.byte(addr + 1)?,
        ]))),
        Width::Word => stand.word(addr),
    }
}
