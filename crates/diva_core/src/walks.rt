// Walks over the oldest pending claims: what they say that they wrote, stored and put.
//
// Each begins with what the state has before them, and tells what it has after them.
ghost use Rattle.std.specs.Prelude.{◌≡◌, ◌+◌, ◌<◌, ◌≤◌, ◌%◌, ℕ, length, None, Some, IfSome};
ghost use Rattle.diva_isa.specs.Kind.{size};
ghost use Rattle.diva_isa.specs.State.{State, byte_of, memory_of, number_of, reg_of, word_of, output_limit};
ghost use Rattle.diva_isa.specs.Step.{effect_of, with_effect};
ghost use Rattle.diva_core.specs.Entries.{IsDecoded};
ghost use Rattle.diva_core.specs.Older.{older, with_claims};
ghost use Rattle.diva_core.specs.Inner.{HasBytes};
ghost use Rattle.diva_storeq.specs.Stores.{laid};

use crate::effects::{byte_in, is_apart};
use crate::pending::{Entry, Pending};
use diva_isa::{Effect, Operands, Width};
use diva_memory::Memory;
use diva_storeq::StoreQueue;

impl Pending {
    /// The claim at a place, as the next one to walk over.
    #[inline(always)]
    #[tactic(auto, using(crate::proofs::Bypassing::claims_more))]
    fn next(&self, place: usize) -> &Entry
        requires { place < length self.now.items }
        ensures decoded { IsDecoded result.now }
        ensures more { (s : State) → with_claims s (older self.now.items (place + 1))
            ≡ with_effect (with_claims s (older self.now.items place)) (effect_of result.now.claim) }
    {
        self.at(place)
    }

    /// What the claim at a place does.
    #[inline]
    fn next_effect(&self, place: usize) -> Effect
        requires { place < length self.now.items }
        ensures { (s : State) → with_claims s (older self.now.items (place + 1))
            ≡ with_effect (with_claims s (older self.now.items place)) result }
    {
        self.next(place).effect()
    }

    /// The word in register `n` after the oldest `count` claims.
    #[inline(never)]
    #[tactic(auto, using(crate::proofs::Bypassing::claims_regs))]
    pub(crate) fn reg_after(&self, count: usize, n: u8, word: u32) -> u32
        requires { count ≤ length self.now.items }
        ensures { (s : State) → n < length s.regs → reg_of s n ≡ word
            → reg_of (with_claims s (older self.now.items count)) n ≡ result }
    {
        let mut latest = word;
        for place in 0..count {
            latest = self.next(place).written(n, latest);
        }
        latest
    }

    /// The words in two registers after the oldest `count` claims.
    #[inline(never)]
    #[tactic(auto, using(crate::proofs::Bypassing::claims_regs))]
    pub(crate) fn operands_after(
        &self,
        count: usize,
        first: u8,
        second: u8,
        operands: Operands,
    ) -> Operands
        requires { count ≤ length self.now.items }
        ensures { (s : State) → first < length s.regs → second < length s.regs
            → reg_of s first ≡ operands.first → reg_of s second ≡ operands.second
            → (reg_of (with_claims s (older self.now.items count)) first ≡ result.first)
            × (reg_of (with_claims s (older self.now.items count)) second ≡ result.second) }
    {
        let mut latest = operands;
        for place in 0..count {
            let claim = self.next(place);
            latest.first = claim.written(first, latest.first);
            latest.second = claim.written(second, latest.second);
        }
        latest
    }

    /// The byte at an address after the oldest `count` claims.
    #[inline(never)]
    pub(crate) fn byte_after(&self, count: usize, addr: u32, byte: u8) -> u8
        requires { count ≤ length self.now.items }
        ensures { (s : State) → byte_of s addr ≡ Some byte
            → byte_of (with_claims s (older self.now.items count)) addr ≡ Some result }
    {
        let mut latest = byte;
        for place in 0..count {
            latest = byte_in(&self.next_effect(place), addr).unwrap_or(latest);
        }
        latest
    }

    /// The number that the bytes of a width from an address on are after the oldest `count` claims, over memory with the stores of
    /// the queue laid over it; `None` exactly where one of them is outside. The address is a multiple of the width. Few reads meet
    /// a claim's store, so it is a call.
    #[inline(never)]
    pub(crate) fn number_behind(
        &self,
        count: usize,
        memory: &Memory,
        queue: &StoreQueue,
        addr: u32,
        width: Width,
    ) -> Option<u32>
        requires count { count ≤ length self.now.items }
        requires addr { addr % size width ≡ 0 }
        ensures { (s : State) → memory_of s ≡ laid memory.now queue.now.items
            → result ≡ number_of (with_claims s (older self.now.items count)) (size width) addr }
    {
        match width {
            Width::Byte => {
                let byte = self.byte_after(count, addr, queue.byte(memory, addr)?);
                Some(u32::from(byte))
            }
            Width::Half => {
                let low = self.byte_after(count, addr, queue.byte(memory, addr)?);
                let high = self.byte_after(count, addr + 1, queue.byte(memory, addr + 1)?);
                Some(u32::from(u16::from_le_bytes([low, high])))
            }
            Width::Word => self.word_behind(count, memory, queue, addr),
        }
    }

    /// The word at an address, in the same way; `None` also where the address is no multiple of 4.
    #[inline(never)]
    pub(crate) fn word_behind(
        &self,
        count: usize,
        memory: &Memory,
        queue: &StoreQueue,
        addr: u32,
    ) -> Option<u32>
        requires { count ≤ length self.now.items }
        ensures { (s : State) → memory_of s ≡ laid memory.now queue.now.items
            → result ≡ word_of (with_claims s (older self.now.items count)) addr }
    {
        let word = queue.word(memory, addr)?;
        let Some(from) = self.first_into(count, addr) else {
            return Some(word);
        };
        let bytes = [
            queue.byte(memory, addr)?,
            queue.byte(memory, addr + 1)?,
            queue.byte(memory, addr + 2)?,
            queue.byte(memory, addr + 3)?,
        ];
        Some(self.word_after(from, count, addr, bytes))
    }

    /// The first of the oldest `count` claims that stores into the word at an address.
    #[inline(never)]
    pub(crate) fn first_into(&self, count: usize, addr: u32) -> Option<usize>
        requires { count ≤ length self.now.items }
        ensures none { result ≡ None → (s : State) → word_of (with_claims s (older self.now.items count)) addr ≡ word_of s addr }
        ensures some { IfSome result (λ place. (place < count) × ((s : State) (i : ℕ) → i < 4
            → byte_of (with_claims s (older self.now.items place)) (addr + i) ≡ byte_of s (addr + i))) }
    {
        for place in 0..count {
            if !is_apart(&self.next_effect(place), addr, 4) {
                return Some(place);
            }
        }
        None
    }

    /// The word whose bytes the claims from `from` on, up to the oldest `count`, lay over these bytes: few reads meet a
    /// pending store.
    #[cold]
    #[inline(never)]
    pub(crate) fn word_after(&self, from: usize, count: usize, addr: u32, bytes: [u8; 4]) -> u32
        requires from { from ≤ count }
        requires count { count ≤ length self.now.items }
        requires aligned { addr % 4 ≡ 0 }
        ensures { (s : State) → HasBytes (with_claims s (older self.now.items from)) addr bytes
            → word_of (with_claims s (older self.now.items count)) addr ≡ Some result }
    {
        let [mut byte0, mut byte1, mut byte2, mut byte3] = bytes;
        for place in from..count {
            let effect = self.next_effect(place);
            byte0 = byte_in(&effect, addr).unwrap_or(byte0);
            byte1 = byte_in(&effect, addr + 1).unwrap_or(byte1);
            byte2 = byte_in(&effect, addr + 2).unwrap_or(byte2);
            byte3 = byte_in(&effect, addr + 3).unwrap_or(byte3);
        }
        u32::from_le_bytes([byte0, byte1, byte2, byte3])
    }

    /// How many bytes the output holds after the oldest `count` claims.
    #[inline(never)]
    pub(crate) fn out_len_after(&self, count: usize, len: u32) -> u32
        requires count { count ≤ length self.now.items }
        requires most { len ≤ output_limit }
        ensures { (s : State) → length s.output ≡ len
            → length (with_claims s (older self.now.items count)).output ≡ result }
    {
        self.recall();
        let mut latest = len;
        for place in 0..count {
            latest += put(&self.next_effect(place));
        }
        latest
    }
}

/// How many bytes an effect puts to the output.
#[tactic(auto, using(crate::proofs::Bypassing::put_length))]
fn put(effect: &Effect) -> u32
    ensures count { (s : State) → length (with_effect s effect.now).output ≡ length s.output + result }
    ensures one { result ≤ 1 }
{
    match *effect {
        Effect::Puts(_) => 1,
        _ => 0,
    }
}
