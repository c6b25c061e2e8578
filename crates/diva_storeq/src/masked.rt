// What a store writes to one word of memory.
ghost use Rattle.std.specs.Prelude.{◌≡◌, ◌<◌, ◌+◌, ◌%◌, ◌==◌, ℕ, if◌then◌else◌};
ghost use Rattle.std.specs.Int.{bit_at};
ghost use Rattle.std.specs.Option.{unwrap_or};
ghost use Rattle.diva_memory.specs.Bytes.{word_byte};

use diva_memory::Memory;

/// The mask of an entry that writes all four bytes of its word.
const WHOLE_WORD: u8 = 0xf;

/// What a store writes to one word of memory: some of its four bytes.
#[derive(Clone, Copy, Debug, PartialEq, Eq)]
pub struct Masked {
    /// The address of the word, a multiple of 4.
    pub addr: u32,
    /// Bit i, 0 to 3, is set where the byte at `addr + i` is written. The bits above are 0.
    pub mask: u8,
    /// The bytes that are written, the lowest first, each at its place in the word. The others are 0.
    pub bytes: u32,
}

impl Masked {
    ghost use Rattle.diva_storeq.specs.Masked.{byte_in, put_byte_lane, merge, IsMasked, WritesInside};

    /// The byte that it writes at an address, `None` where it writes none there.
    pub(crate) fn byte(&self, addr: u32) -> Option<u8>
        ensures { result ≡ byte_in self.now addr }
    {
        let place = addr.checked_sub(self.addr)?;
        if place < 4 && self.writes(place) {
            Some(self.byte_lane(place))
        } else {
            None
        }
    }

    /// The word at an address that is a multiple of 4, with the bytes that are written there laid over it.
    #[inline]
    pub(crate) fn over(&self, addr: u32, word: u32) -> u32
        requires masked { IsMasked self.now }
        requires aligned { addr % 4 ≡ 0 }
        ensures { (i : ℕ) → i < 4
            → word_byte result i ≡ unwrap_or (byte_in self.now (addr + i)) (word_byte word i) }
    {
        if self.addr == addr {
            (word & !self.byte_lanes()) | self.bytes
        } else {
            word
        }
    }

    /// Writes its bytes to memory, where all of them are inside.
    #[tactic(auto, using(crate::proofs::Merging::lane_within, crate::proofs::Placing::whole_word, crate::proofs::Placing::whole_inside), unfolding(crate::specs::Masked::merge))]
    pub(crate) fn put_to(&self, memory: &mut Memory)
        requires masked { IsMasked self.now }
        requires within { WritesInside memory.old self.now }
        ensures { memory.new ≡ merge memory.old self.now }
    {
        if self.mask == WHOLE_WORD {
            memory.put_all(self.addr, &self.bytes.to_le_bytes());
            return;
        }
        self.put_byte_lane(memory, 0);
        self.put_byte_lane(memory, 1);
        self.put_byte_lane(memory, 2);
        self.put_byte_lane(memory, 3);
    }

    /// Writes one byte lane of the word, if it is to be written.
    fn put_byte_lane(&self, memory: &mut Memory, place: u32)
        requires place { place < 4 }
        requires masked { IsMasked self.now }
        requires within { WritesInside memory.old self.now }
        ensures { memory.new ≡ put_byte_lane self.now place memory.old }
    {
        if self.writes(place) {
            memory.put(self.addr + place, self.byte_lane(place));
        }
    }

    /// Whether a byte lane of the word is written: place 0 is that of the lowest byte.
    fn writes(&self, place: u32) -> bool
        requires { place < 4 }
        ensures { result ≡ (bit_at self.now.mask place == 1) }
    {
        (self.mask >> place) & 1 == 1
    }

    /// The byte in a byte lane of the word.
    fn byte_lane(&self, place: u32) -> u8
        requires { place < 4 }
        ensures { result ≡ word_byte self.now.bytes place }
    {
        ((self.bytes >> (8 * place)) & 0xff) as u8
    }

    /// The word in which all bits of the byte lanes that are written are set.
    #[inline]
    fn byte_lanes(&self) -> u32
        requires { self.now.mask < 16 }
        ensures { (i : ℕ) → i < 4
            → word_byte result i ≡ (if bit_at self.now.mask i == 1 then 255 else 0) }
    {
        // Bit i of the mask goes to bit 8 i, and from there to all bits of byte i.
        ((u32::from(self.mask) * 0x0020_4081) & 0x0101_0101) * 0xff
    }
}
