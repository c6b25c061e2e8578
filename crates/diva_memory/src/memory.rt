// Memory as bytes from an address on.
ghost use Rattle.std.specs.Prelude.{◌≡◌, ◌≢◌, ◌≤◌, ◌<◌, ◌+◌, ◌-◌, ◌%◌, ◌^◌, ◌↔◌, ◌++◌, ℕ, IfOk, IfSome, IsTrue, IsSome, Some, ◌⊎◌, length, replicate, slice_get};
ghost use Rattle.diva_memory.specs.Bytes.{number_at, word_byte};

use byteorder::{ByteOrder, LittleEndian};
use std::alloc::{AllocError, Global};
use std::marker::Model;

/// A range of bytes that begins at an address and ends at 2^32 at the latest.
///
/// Words are little-endian, and an access of n bytes is inside where all n of them are (RISC-V
/// Unprivileged ISA, RV32I 2.1, chapter 'Load and Store Instructions').
#[derive(Drop)]
pub struct Memory {
    base: u32,
    bytes: Vec<u8>,
}

impl Model for Memory {
    ghost use Rattle.diva_memory.specs.Bytes.{Bytes};

    ghost Value = { Bytes };

    ghost use Rattle.std.specs.Prelude.{◌≤◌, ◌<◌, ◌+◌, ◌^◌, length};

    ghost view = { λ m. record { base = m.base; items = m.bytes.items } };

    ghost invariant = { λ m. (m.base + length m.bytes.items ≤ 2 ^ 32) × (length m.bytes.items < 2 ^ 32) };
}

impl Memory {
    ghost use Rattle.diva_memory.specs.Bytes.{IsInside, is_inside, byte_at, word_at, put, put_all, HasWord};

    /// Memory of `size` bytes from `base` on: the payload, and zeros behind it. It ends at 2^32 at
    /// the latest, and the payload fits into it. The error: out of memory.
    pub fn new(alloc: Global, base: u32, size: u32, payload: &[u8]) -> Result<Self, AllocError>
        requires range { base + size ≤ 2 ^ 32 }
        requires fits { length payload.now ≤ size }
        ensures { IfOk result (λ m.
            m ≡ record { base = base; items = payload.now ++ replicate (size - length payload.now) 0 }) }
    {
        let mut bytes = Vec::with_capacity(alloc, size as usize)?;
        bytes.extend_from_slice(payload)?;
        bytes.resize(size as usize, 0)?;
        Ok(Memory { base, bytes })
    }

    /// Becomes a copy of a memory of the same size. It takes no memory.
    pub fn copy_from(&mut self, other: &Memory)
        requires { length self.old.items ≡ length other.now.items }
        ensures { self.new ≡ other.now }
    {
        self.base = other.base;
        self.bytes.copy_from_slice(&other.bytes);
    }

    /// Recalls for a proof where the bytes end at the latest. It does nothing.
    #[inline(always)]
    pub fn recall(&self)
        ensures { self.now.base + length self.now.items ≤ 2 ^ 32 }
    {
        let _ = &self.base;
    }

    /// The first address.
    pub fn base(&self) -> u32
        ensures base { result ≡ self.now.base }
        ensures range { self.now.base + length self.now.items ≤ 2 ^ 32 }
    {
        self.base
    }

    /// How many bytes there are.
    pub fn size(&self) -> u32
        ensures size { result ≡ length self.now.items }
        ensures range { self.now.base + length self.now.items ≤ 2 ^ 32 }
    {
        self.bytes.len() as u32
    }

    /// The bytes, from the first address on.
    #[inline]
    pub fn bytes(&self) -> &[u8]
        ensures { result.now ≡ self.now.items }
    {
        &self.bytes
    }

    /// Whether the `n` bytes from `addr` on are inside.
    pub fn inside(&self, addr: u32, n: u32) -> bool
        ensures value { result ≡ is_inside self.now addr n }
        ensures inside { IsTrue result ↔ IsInside self.now addr n }
    {
        self.base <= addr
            && u64::from(addr) + u64::from(n) <= u64::from(self.base) + self.bytes.len() as u64
    }

    /// The byte at `addr`, `None` exactly where `addr` is outside.
    pub fn byte(&self, addr: u32) -> Option<u8>
        ensures value { result ≡ byte_at self.now addr }
        ensures inside { IsSome result ↔ IsInside self.now addr 1 }
    {
        self.bytes.get(self.place(addr)).copied()
    }

    /// The word at `addr`, `None` exactly where `addr` is not a multiple of 4 or the word is not
    /// inside.
    pub fn word(&self, addr: u32) -> Option<u32>
        ensures value { result ≡ word_at self.now addr }
        ensures inside { IsSome result ↔ ((addr % 4 ≡ 0) × IsInside self.now addr 4) }
        ensures bytes { IfSome result (λ w. HasWord self.now addr w) }
    {
        if addr % 4 != 0 {
            return None;
        }
        let at = self.place(addr);
        let bytes = self.bytes.get(at..at + 4)?;
        Some(word_of(bytes))
    }

    /// The half word at `addr`, `None` exactly where one of its two bytes is outside.
    pub fn half(&self, addr: u32) -> Option<u16>
        ensures { result ≡ number_at self.now 2 addr }
    {
        let at = self.place(addr);
        let bytes = self.bytes.get(at..at + 2)?;
        Some(half_of(bytes))
    }

    /// Where an address stands among the bytes. One before the first address wraps round to behind the last byte, since
    /// memory ends at 2^32 at the latest: so one comparison tells what is outside.
    #[inline(always)]
    fn place(&self, addr: u32) -> usize
        ensures inside { self.now.base ≤ addr → result ≡ addr - self.now.base }
        ensures before { addr < self.now.base → length self.now.items ≤ result }
        ensures small { result < 2 ^ 32 }
    {
        addr.wrapping_sub(self.base) as usize
    }

    /// Writes one byte, at an address that is inside.
    pub fn put(&mut self, addr: u32, b: u8)
        requires { IsInside self.old addr 1 }
        ensures value { self.new ≡ put self.old addr b }
        ensures written { byte_at self.new addr ≡ Some b }
        ensures others { (a : ℕ) → a ≢ addr → byte_at self.new a ≡ byte_at self.old a }
    {
        let at = (addr - self.base) as usize;
        self.bytes[at] = b;
    }

    /// Writes bytes one after the other, from `addr` on. All of these addresses are inside.
    pub fn put_all(&mut self, addr: u32, bytes: &[u8])
        requires { IsInside self.old addr (length bytes.now) }
        ensures value { self.new ≡ put_all self.old addr bytes.now }
        ensures written { (i : ℕ) → i < length bytes.now
            → byte_at self.new (addr + i) ≡ slice_get bytes.now i }
        ensures others { (a : ℕ) → (a < addr) ⊎ (addr + length bytes.now ≤ a)
            → byte_at self.new a ≡ byte_at self.old a }
    {
        let at = (addr - self.base) as usize;
        self.bytes[at..at + bytes.len()].copy_from_slice(bytes);
    }
}

/// The word that four bytes are, the lowest first.
#[inline]
fn word_of(bytes: &[u8]) -> u32
    requires { length bytes.now ≡ 4 }
    ensures value { number_at (record { base = 0; items = bytes.now }) 4 0 ≡ Some result }
    ensures bytes { (i : ℕ) → i < 4 → slice_get bytes.now i ≡ Some (word_byte result i) }
{
    LittleEndian::read_u32(bytes)
}

/// The half word that two bytes are, the lowest first.
#[inline]
fn half_of(bytes: &[u8]) -> u16
    requires { length bytes.now ≡ 2 }
    ensures { number_at (record { base = 0; items = bytes.now }) 2 0 ≡ Some result }
{
    LittleEndian::read_u16(bytes)
}
