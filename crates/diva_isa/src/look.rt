// A state that can be read.

ghost use Rattle.std.specs.Prelude.{◌≡◌, ◌<◌, ◌%◌, length};
ghost use Rattle.std.specs.Option.{is_some};
ghost use Rattle.diva_isa.specs.Kind.{size};
ghost use Rattle.diva_isa.specs.State.{State, byte_of, number_of, reg_of, word_of};

use crate::kind::Width;
use crate::record::Operands;

/// A state that can be read: its pc, registers and memory, the number of instructions that led to it, and of its output the
/// length.
pub trait Look {
    /// The state that is seen.
    ghost shows: { Self → State };

    /// The address of the next instruction.
    fn pc(&self) -> u32
        ensures { result ≡ (shows self.now).pc };

    /// The word in register `n`, which is below 32.
    fn reg(&self, n: u8) -> u32
        requires { n < 32 }
        ensures { result ≡ reg_of (shows self.now) n };

    /// The words in two registers, both of them below 32.
    ///
    /// They are read one after the other, unless an implementation has a shorter way.
    fn operands(&self, first: u8, second: u8) -> Operands
        requires first { first < 32 }
        requires second { second < 32 }
        ensures { result ≡ record { first = reg_of (shows self.now) first; second = reg_of (shows self.now) second } }
    {
        Operands {
            first: self.reg(first),
            second: self.reg(second),
        }
    }

    /// The byte at an address, `None` exactly outside memory.
    fn byte(&self, addr: u32) -> Option<u8>
        ensures { result ≡ byte_of (shows self.now) addr };

    /// The word at an address, `None` exactly where the address is no multiple of 4 or a byte is outside memory.
    ///
    /// It is read byte by byte, unless an implementation has a shorter way.
    fn word(&self, addr: u32) -> Option<u32>
        ensures { result ≡ word_of (shows self.now) addr }
    {
        if addr % 4 != 0 {
            return None;
        }
        Some(u32::from_le_bytes([
            self.byte(addr)?,
            self.byte(addr + 1)?,
            self.byte(addr + 2)?,
            self.byte(addr + 3)?,
        ]))
    }

    /// The number that the bytes of this width from an address on are, the lowest first, `None` exactly where one of them is
    /// outside memory. The address is a multiple of the width.
    ///
    /// It is read byte by byte, unless an implementation has a shorter way.
    #[inline(always)]
    fn number(&self, addr: u32, width: Width) -> Option<u32>
        requires { addr % size width ≡ 0 }
        ensures { result ≡ number_of (shows self.now) (size width) addr }
    {
        match width {
            Width::Byte => {
                let low = self.byte(addr)?;
                Some(u32::from(low))
            }
            Width::Half => {
                let low = self.byte(addr)?;
                let high = self.byte(addr + 1)?;
                Some(u32::from(u16::from_le_bytes([low, high])))
            }
            Width::Word => self.word(addr),
        }
    }

    /// Whether all bytes of this width from an address on are inside memory. The address is a multiple of the width.
    ///
    /// They are read, unless an implementation has a shorter way.
    #[inline(always)]
    fn has(&self, addr: u32, width: Width) -> bool
        requires { addr % size width ≡ 0 }
        ensures { result ≡ is_some (number_of (shows self.now) (size width) addr) }
    {
        match width {
            Width::Byte => self.byte(addr).is_some(),
            Width::Half => self.byte(addr).is_some() && self.byte(addr + 1).is_some(),
            Width::Word => self.word(addr).is_some(),
        }
    }

    /// How many instructions led to the state.
    fn instret(&self) -> u64
        ensures { result ≡ (shows self.now).instret };

    /// How many bytes the output holds.
    fn out_len(&self) -> u32
        ensures { result ≡ length (shows self.now).output };
}
