// A store that is not in memory yet.
ghost use Rattle.std.specs.Prelude.{◌≡◌, ◌%◌, IsTrue};
ghost use Rattle.diva_storeq.specs.Width.{is_width};

use crate::Masked;

/// A store: it writes the lowest `width` bytes of `value` from `addr` on, the lowest first.
///
/// It has one, two or four bytes (RISC-V Unprivileged ISA, RV32I 2.1, chapter 'Load and Store
/// Instructions').
#[derive(Clone, Copy, Debug, PartialEq, Eq)]
pub struct Store {
    /// The address of its lowest byte.
    pub addr: u32,
    /// How many bytes it writes: 1, 2 or 4.
    pub width: u8,
    /// The word whose lowest bytes it writes.
    pub value: u32,
    /// The width is 1, 2 or 4.
    pub ghost sized: { IsTrue (is_width width) },
}

impl Store {
    ghost use Rattle.diva_storeq.specs.Stores.{masked};

    /// What it writes to the word in which its bytes lie. Its address is a multiple of its width, so they lie in one.
    #[tactic(auto, unfolding(crate::specs::Stores::masked))]
    pub(crate) fn masked(&self) -> Masked
        requires { self.now.addr % self.now.width ≡ 0 }
        ensures { result ≡ masked self.now }
    {
        let place = self.addr % 4;
        let unused = 32 - 8 * u32::from(self.width);
        // The bytes that it does not write are shifted out, and the others to their place.
        Masked {
            addr: self.addr - place,
            mask: ((1 << self.width) - 1) << place,
            bytes: self.value << unused >> (unused - 8 * place),
        }
    }
}
