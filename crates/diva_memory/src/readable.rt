// Bytes that are read one at a time.
ghost use Rattle.std.specs.Prelude.{◌≡◌};
ghost use Rattle.diva_memory.specs.Bytes.{Bytes, byte_at};

use crate::memory::Memory;

/// What can be read byte by byte.
pub trait Readable {
    /// The bytes that are read.
    ghost shows: { Self → Bytes };

    /// The byte at an address, `None` exactly where it is outside.
    fn byte(&self, addr: u32) -> Option<u8>
        ensures { result ≡ byte_at (shows self.now) addr };
}

impl Readable for Memory {
    ghost shows = { λ m. m };

    fn byte(&self, addr: u32) -> Option<u8> {
        Memory::byte(self, addr)
    }
}
