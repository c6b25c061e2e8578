// The committed state as a core sees it.
ghost use Rattle.std.specs.Prelude.{◌≡◌, ◌<◌, ◌≤◌, ◌%◌, ◌^◌, ◌↔◌, IsTrue, length};
ghost use Rattle.diva_isa.specs.Kind.{size};
ghost use Rattle.diva_memory.specs.Bytes.{number_at};
ghost use Rattle.diva_isa.specs.State.{State, memory_of, reg_of, byte_of, number_of, word_of, output_limit};
ghost use Rattle.diva_core.specs.Older.{older, with_claims};
ghost use Rattle.diva_storeq.specs.Stores.{laid};

use crate::output::Output;
use crate::pending::Pending;
use diva_isa::{Look, Regs, Width};
use diva_memory::{Memory, Readable};
use diva_storeq::StoreQueue;
use std::marker::Model;

/// The committed state, to read only: memory with the owed stores laid over it.
#[derive(Drop)]
pub struct View<'a> {
    regs: &'a Regs,
    pc: u32,
    memory: &'a Memory,
    queue: &'a StoreQueue,
    output: &'a Output,
    instret: u64,
}

impl<'a> Model for View<'a> {
    ghost use Rattle.diva_isa.specs.State.{State};
    ghost use Rattle.diva_storeq.specs.Stores.{laid};

    ghost Value = { State };

    ghost view = { λ v. record {
      regs = v.regs.now;
      pc = v.pc;
      base = (laid v.memory.now v.queue.now.items).base;
      bytes = (laid v.memory.now v.queue.now.items).items;
      output = v.output.now;
      instret = v.instret;
      end = 0;
    } };

    ghost use Rattle.std.specs.Prelude.{◌≤◌, ◌^◌};

    ghost invariant = { λ v. v.instret ≤ 2 ^ 62 };
}

impl<'a> View<'a> {
    /// The state that these parts show, one that goes on. So many instructions led to it, 2^62 at most.
    pub fn new(
        regs: &'a Regs,
        pc: u32,
        memory: &'a Memory,
        queue: &'a StoreQueue,
        output: &'a Output,
        instret: u64,
    ) -> View<'a>
        requires { instret ≤ 2 ^ 62 }
        ensures { result ≡ record {
          regs = regs.now;
          pc = pc;
          base = (laid memory.now queue.now.items).base;
          bytes = (laid memory.now queue.now.items).items;
          output = output.now;
          instret = instret;
          end = 0;
        } }
    {
        View {
            regs,
            pc,
            memory,
            queue,
            output,
            instret,
        }
    }

    /// A view of the same parts: what a seldom path is handed, so that the view itself can stay in registers.
    #[inline(always)]
    pub fn copied(&self) -> View<'a>
        ensures { result ≡ self.now }
    {
        View {
            regs: self.regs,
            pc: self.pc,
            memory: self.memory,
            queue: self.queue,
            output: self.output,
            instret: self.instret,
        }
    }
}

impl View<'_> {
    /// The committed pc.
    #[inline(always)]
    pub fn pc(&self) -> u32
        ensures { result ≡ self.now.pc }
    {
        self.pc
    }

    /// The word in the register `n`, 0 to 31. x0 reads 0.
    #[inline(always)]
    pub fn reg(&self, n: u8) -> u32
        requires { n < 32 }
        ensures { result ≡ reg_of self.now n }
    {
        self.regs.get(n)
    }

    /// The registers.
    #[inline(always)]
    pub fn regs(&self) -> &Regs
        ensures value { result.now ≡ self.now.regs }
        ensures count { length result.now ≡ 32 }
    {
        self.regs.recall();
        self.regs
    }

    /// The byte at an address, `None` exactly outside memory.
    #[inline(always)]
    pub fn byte(&self, addr: u32) -> Option<u8>
        ensures { result ≡ byte_of self.now addr }
    {
        self.queue.byte(self.memory, addr)
    }

    /// The word at an address, `None` exactly where the address is no multiple of 4 or a byte is outside
    /// memory. The lowest byte comes first.
    #[inline(always)]
    pub fn word(&self, addr: u32) -> Option<u32>
        ensures { result ≡ word_of self.now addr }
    {
        self.queue.word(self.memory, addr)
    }

    /// The word at an address after the oldest `count` claims, `None` exactly where the address is no multiple of 4 or a byte is
    /// outside memory. The call is handed memory and the queue alone: the view itself can then stay in registers.
    #[inline(always)]
    pub(crate) fn word_behind(&self, pending: &Pending, count: usize, addr: u32) -> Option<u32>
        requires { count ≤ length pending.now.items }
        ensures { result ≡ word_of (with_claims self.now (older pending.now.items count)) addr }
    {
        pending.word_behind(count, self.memory, self.queue, addr)
    }

    /// The number that the bytes of a width from an address on are after the oldest `count` claims, `None` exactly where one of
    /// them is outside memory. The address is a multiple of the width. It is called as [`word_behind`](Self::word_behind) is.
    #[inline(always)]
    pub(crate) fn number_behind(
        &self,
        pending: &Pending,
        count: usize,
        addr: u32,
        width: Width,
    ) -> Option<u32>
        requires count { count ≤ length pending.now.items }
        requires addr { addr % size width ≡ 0 }
        ensures { result ≡ number_of (with_claims self.now (older pending.now.items count)) (size width) addr }
    {
        pending.number_behind(count, self.memory, self.queue, addr, width)
    }

    /// Whether two states have the same memory, as a program reads it: the same first address, and the same bytes from there on.
    ///
    /// Where no store is owed, or the same ones over the same bytes, that is one comparison of slices.
    pub fn has_bytes_of(&self, other: &View<'_>) -> bool
        ensures { IsTrue result ↔ (memory_of self.now ≡ memory_of other.now) }
    {
        are_same(self.memory, self.queue, other.memory, other.queue)
    }

    /// How many instructions have committed: at most 2^62.
    #[inline(always)]
    pub fn instret(&self) -> u64
        ensures value { result ≡ self.now.instret }
        ensures most { result ≤ 2 ^ 62 }
    {
        self.instret
    }

    /// How many bytes were put: at most 65,536.
    #[inline(always)]
    pub fn out_len(&self) -> u32
        ensures len { result ≡ length self.now.output }
        ensures most { result ≤ output_limit }
    {
        self.output.len()
    }
}

impl Readable for View<'_> {
    ghost use Rattle.diva_isa.specs.State.{memory_of};

    ghost shows = { λ v. memory_of v };

    #[inline(always)]
    fn byte(&self, addr: u32) -> Option<u8> {
        View::byte(self, addr)
    }
}

impl Look for View<'_> {
    ghost shows = { λ v. v };

    #[inline(always)]
    fn pc(&self) -> u32 {
        View::pc(self)
    }

    #[inline(always)]
    fn reg(&self, n: u8) -> u32 {
        View::reg(self, n)
    }

    #[inline(always)]
    fn byte(&self, addr: u32) -> Option<u8> {
        View::byte(self, addr)
    }

    #[inline(always)]
    fn word(&self, addr: u32) -> Option<u32> {
        View::word(self, addr)
    }

    /// Each width is read in its own way, and of what is read by a call, the call is handed memory and the queue alone: a view can
    /// then stay in registers.
    #[inline(always)]
    fn number(&self, addr: u32, width: Width) -> Option<u32> {
        match width {
            Width::Byte => byte_number(self.memory, self.queue, addr),
            Width::Half => half_number(self.memory, self.queue, addr),
            Width::Word => View::word(self, addr),
        }
    }

    #[inline(always)]
    fn has(&self, addr: u32, width: Width) -> bool {
        self.memory.inside(addr, width.size())
    }

    #[inline(always)]
    fn instret(&self) -> u64 {
        View::instret(self)
    }

    #[inline(always)]
    fn out_len(&self) -> u32 {
        View::out_len(self)
    }
}

/// The byte at an address, as it is once all stores are in memory, as a number.
#[inline(never)]
fn byte_number(memory: &Memory, queue: &StoreQueue, addr: u32) -> Option<u32>
    ensures { result ≡ number_at (laid memory.now queue.now.items) 1 addr }
{
    Some(u32::from(queue.byte(memory, addr)?))
}

/// The number that the half word at an address is, once all stores are in memory. The address is a multiple of 2.
#[inline(never)]
fn half_number(memory: &Memory, queue: &StoreQueue, addr: u32) -> Option<u32>
    requires { addr % 2 ≡ 0 }
    ensures { result ≡ number_at (laid memory.now queue.now.items) 2 addr }
{
    Some(u32::from(queue.half(memory, addr)?))
}

/// Whether two memories are the same once all stores are in them.
fn are_same(
    memory: &Memory,
    queue: &StoreQueue,
    other_memory: &Memory,
    other_queue: &StoreQueue,
) -> bool
    ensures { IsTrue result ↔ (laid memory.now queue.now.items ≡ laid other_memory.now other_queue.now.items) }
{
    if memory.base() != other_memory.base() || memory.size() != other_memory.size() {
        return false;
    }
    let same = are_same_bytes(memory.bytes(), other_memory.bytes());
    if queue.owed() == 0 && other_queue.owed() == 0 {
        return same;
    }
    same && queue.has_stores_of(other_queue)
        || are_same_by_bytes(memory, queue, other_memory, other_queue)
}

/// Whether two lists of bytes are the same.
#[inline]
fn are_same_bytes(bytes: &[u8], others: &[u8]) -> bool
    ensures { IsTrue result ↔ (bytes.now ≡ others.now) }
{
    bytes == others
}

/// The same as `are_same`, byte by byte. Both memories have the same addresses.
#[cold]
#[inline(never)]
fn are_same_by_bytes(
    memory: &Memory,
    queue: &StoreQueue,
    other_memory: &Memory,
    other_queue: &StoreQueue,
) -> bool
    requires base { memory.now.base ≡ other_memory.now.base }
    requires size { length memory.now.items ≡ length other_memory.now.items }
    ensures { IsTrue result ↔ (laid memory.now queue.now.items ≡ laid other_memory.now other_queue.now.items) }
{
    let base = memory.base();
    for place in 0..memory.size() {
        let addr = base + place;
        if queue.byte(memory, addr) != other_queue.byte(other_memory, addr) {
            return false;
        }
    }
    true
}
