// The stores that are not in memory yet, the oldest first.
ghost use Rattle.std.specs.Prelude.{◌≡◌, ◌≤◌, ◌<◌, ℕ, ◌+◌, ◌-◌, ◌%◌, ◌^◌, ◌==◌, ◌⊎◌, ◌↔◌, [], ◌∷◌, ◌++◌, drop, take, length, slice_get, IfOk, IsSome, IsTrue};
ghost use Rattle.std.specs.Option.{ForSome};
ghost use Rattle.circular_buffer.specs.Buffer.{Buffer, buffer};
ghost use Rattle.diva_memory.specs.Bytes.{Bytes, IsInside, byte_at, number_at, word_at};

use crate::{Masked, Store};
use circular_buffer::HeapCircularBuffer;
use diva_memory::{Interval, Memory};
use std::alloc::{AllocError, Global};
use std::marker::Model;

/// The stores that have committed and are not in memory yet, in order. Each is kept as the word in which it lies, with a
/// mask of the bytes that it writes.
///
/// A reader of memory sees them laid over it, so that a load gets what the stores before it wrote.
///
/// Most reads are of words to which no store goes. So the queue knows an interval of addresses in which the words of its
/// stores lie: a word outside of that is memory's.
#[derive(Drop)]
pub struct StoreQueue {
    entries: HeapCircularBuffer<Masked>,
    interval: Interval,
}

impl Model for StoreQueue {
    ghost use Rattle.circular_buffer.specs.Buffer.{Buffer};
    ghost use Rattle.diva_storeq.specs.declared.masked.Masked.{Masked};

    ghost Value = { Buffer Masked };

    ghost use Rattle.std.specs.List.{All};
    ghost use Rattle.diva_memory.specs.Interval.{LiesIn};
    ghost use Rattle.diva_storeq.specs.Masked.{IsMasked};

    ghost view = { λ q. q.entries };

    ghost invariant = { λ q. All IsMasked q.entries.items × All (λ e. LiesIn q.interval e.addr 4) q.entries.items };
}

impl StoreQueue {
    ghost use Rattle.diva_storeq.specs.Masked.{IsMasked, WritesInside};
    ghost use Rattle.diva_storeq.specs.Stores.{placed_bytes, lay, laid, masked};

    /// An empty queue for at most `cap` stores. The error: out of memory. No later call takes memory.
    pub fn new(alloc: Global, cap: usize) -> Result<Self, AllocError>
        ensures { IfOk result (λ q. q ≡ buffer [] cap) }
    {
        Ok(StoreQueue {
            entries: HeapCircularBuffer::with_capacity(alloc, cap)?,
            interval: Interval::empty(),
        })
    }

    /// Becomes a copy of a queue for as many stores. It takes no memory.
    pub fn copy_from(&mut self, other: &StoreQueue)
        requires { self.old.capacity ≡ other.now.capacity }
        ensures { self.new ≡ other.now }
    {
        copy_entries(&mut self.entries, &other.entries);
        self.interval = other.interval;
    }

    /// Whether there is no room for another store.
    pub fn full(&self) -> bool
        ensures value { result ≡ (length self.now.items == self.now.capacity) }
        ensures within { length self.now.items ≤ self.now.capacity }
    {
        self.owed() == self.entries.capacity()
    }

    /// How many stores are not in memory yet.
    pub fn owed(&self) -> usize
        ensures value { result ≡ length self.now.items }
        ensures within { result ≤ self.now.capacity }
    {
        self.entries.len()
    }

    /// The store at a place, the oldest being at 0: the word in which it lies, and what it writes there.
    pub fn entry(&self, at: usize) -> Masked
        requires { at < length self.now.items }
        ensures value { slice_get self.now.items at ≡ Some result }
        ensures masked { IsMasked result }
    {
        *self.entries.get(at).unwrap()
    }

    /// Whether two queues hold the same stores, in the same order.
    pub fn has_stores_of(&self, other: &StoreQueue) -> bool
        ensures { IsTrue result ↔ (self.now.items ≡ other.now.items) }
    {
        if self.owed() != other.owed() {
            return false;
        }
        for at in 0..self.owed() {
            if self.entry(at) != other.entry(at) {
                return false;
            }
        }
        true
    }

    /// Adds the youngest store. There is room for it, its address is a multiple of its width, and it ends at 2^32 at the
    /// latest.
    pub fn push(&mut self, s: Store)
        requires room { length self.old.items < self.old.capacity }
        requires range { s.addr + s.width ≤ 2 ^ 32 }
        requires aligned { s.addr % s.width ≡ 0 }
        ensures entries { self.new ≡ buffer (self.old.items ++ masked s ∷ []) self.old.capacity }
        ensures laid { (m : Bytes) → laid m self.new.items ≡ lay (laid m self.old.items) s }

        // Exactly the bytes that it covers are changed.
        ensures covered { (m : Bytes) (a : ℕ) → IsInside m a 1 → IsInside (placed_bytes s) a 1
            → byte_at (laid m self.new.items) a ≡ byte_at (placed_bytes s) a }
        ensures others { (m : Bytes) (a : ℕ) → ¬ IsInside (placed_bytes s) a 1
            → byte_at (laid m self.new.items) a ≡ byte_at (laid m self.old.items) a }
    {
        let entry = s.masked();
        if self.entries.is_empty() {
            self.interval = Interval::empty();
        }
        self.interval.widen(entry.addr, 4);
        let _ = self.entries.try_push_back(entry);
    }

    /// Writes the oldest store to memory, where all its bytes are inside. Where there is no store,
    /// nothing changes.
    #[tactic(auto, using(crate::proofs::Merging::merge_base, crate::proofs::Merging::merge_length))]
    pub fn drain(&mut self, memory: &mut Memory)
        requires { ForSome (slice_get self.old.items 0) (λ e. WritesInside memory.old e) }
        ensures oldest { memory.new ≡ laid memory.old (take 1 self.old.items) }
        ensures rest { self.new ≡ buffer (drop 1 self.old.items) self.old.capacity }
        ensures owed { length self.new.items ≡ length self.old.items - 1 }
        ensures laid { laid memory.new self.new.items ≡ laid memory.old self.old.items }
        ensures range { (memory.new.base ≡ memory.old.base) × (length memory.new.items ≡ length memory.old.items) }
        ensures empty { self.old.items ≡ [] → (memory.new ≡ memory.old) × (self.new ≡ self.old) }
    {
        if let Some(entry) = self.entries.pop_front() {
            entry.put_to(memory);
        }
    }

    /// The byte at `addr` as it is once all stores are in memory, `None` exactly where `addr` is
    /// outside.
    #[inline(always)]
    pub fn byte(&self, memory: &Memory, addr: u32) -> Option<u8>
        ensures value { result ≡ byte_at (laid memory.now self.now.items) addr }
        ensures inside { IsSome result ↔ IsInside memory.now addr 1 }
    {
        if self.is_clear(addr, 1) {
            return memory.byte(addr);
        }
        self.byte_over(memory, addr)
    }

    /// The same, with the entries laid over it one after the other.
    #[cold]
    #[inline(never)]
    fn byte_over(&self, memory: &Memory, addr: u32) -> Option<u8>
        ensures value { result ≡ byte_at (laid memory.now self.now.items) addr }
        ensures inside { IsSome result ↔ IsInside memory.now addr 1 }
    {
        let mut byte = memory.byte(addr)?;
        for entry in self.entries.iter() {
            byte = entry.byte(addr).unwrap_or(byte);
        }
        Some(byte)
    }

    /// The half word at `addr`, a multiple of 2, as it is once all stores are in memory, `None` exactly where a byte of it is
    /// outside.
    #[inline(always)]
    pub fn half(&self, memory: &Memory, addr: u32) -> Option<u16>
        requires { addr % 2 ≡ 0 }
        ensures { result ≡ number_at (laid memory.now self.now.items) 2 addr }
    {
        if self.is_clear(addr, 2) {
            return memory.half(addr);
        }
        self.half_over(memory, addr)
    }

    /// The same, with the entries laid over its bytes one after the other.
    #[cold]
    #[inline(never)]
    fn half_over(&self, memory: &Memory, addr: u32) -> Option<u16>
        requires { addr % 2 ≡ 0 }
        ensures { result ≡ number_at (laid memory.now self.now.items) 2 addr }
    {
        let mut low = memory.byte(addr)?;
        let mut high = memory.byte(addr + 1)?;
        for entry in &self.entries {
            low = entry.byte(addr).unwrap_or(low);
            high = entry.byte(addr + 1).unwrap_or(high);
        }
        Some(u16::from_le_bytes([low, high]))
    }

    /// The word at `addr` as it is once all stores are in memory, `None` exactly where `addr` is not
    /// a multiple of 4 or the word is not inside.
    #[inline(always)]
    pub fn word(&self, memory: &Memory, addr: u32) -> Option<u32>
        ensures value { result ≡ word_at (laid memory.now self.now.items) addr }
        ensures inside { IsSome result ↔ ((addr % 4 ≡ 0) × IsInside memory.now addr 4) }
    {
        if self.is_clear(addr, 4) {
            return memory.word(addr);
        }
        self.merged(memory, addr)
    }

    /// Whether the `n` bytes from an address on are apart from the words that the stores go to, and so are memory's.
    #[inline(always)]
    fn is_clear(&self, addr: u32, n: u32) -> bool
        ensures byte { IsTrue result → 1 ≤ n → (m : Bytes) → byte_at (laid m self.now.items) addr ≡ byte_at m addr }
        ensures half { IsTrue result → 2 ≤ n → (m : Bytes) → number_at (laid m self.now.items) 2 addr ≡ number_at m 2 addr }
        ensures word { IsTrue result → 4 ≤ n → (m : Bytes) → word_at (laid m self.now.items) addr ≡ word_at m addr }
    {
        self.entries.is_empty() || self.interval.is_apart(addr, n)
    }

    /// The word, with the entries laid over it one after the other.
    #[tactic(auto, using(crate::proofs::Laying::laid_word_none))]
    fn merged(&self, memory: &Memory, addr: u32) -> Option<u32>
        ensures value { result ≡ word_at (laid memory.now self.now.items) addr }
        ensures inside { IsSome result ↔ ((addr % 4 ≡ 0) × IsInside memory.now addr 4) }
    {
        let mut word = memory.word(addr)?;
        for entry in &self.entries {
            word = entry.over(addr, word);
        }
        Some(word)
    }
}

/// Makes entries a copy of others for which there is as much room.
fn copy_entries(entries: &mut HeapCircularBuffer<Masked>, others: &HeapCircularBuffer<Masked>)
    requires { entries.old.capacity ≡ others.now.capacity }
    ensures { entries.new ≡ others.now }
{
    let (front, back) = others.as_slices();
    prove!(others.len() <= others.capacity());
    entries.clear();
    entries.extend_from_slice(front);
    entries.extend_from_slice(back);
}
