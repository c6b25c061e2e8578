// The claims that wait to be judged, the oldest first.
ghost use Rattle.std.specs.Prelude.{ℕ, ◌≡◌, ◌≤◌, ◌<◌, ◌+◌, ◌^◌, [], ◌∷◌, ◌++◌, length, map, IfOk, IfSome, IsTrue, None, Some, slice_get, slice_set, true};
ghost use Rattle.std.specs.List.{list_all};
ghost use Rattle.std.specs.Option.{option_copied};
ghost use Rattle.circular_buffer.specs.Buffer.{Buffer, buffer};
ghost use Rattle.diva_isa.specs.Step.{effect_of};
ghost use Rattle.diva_memory.specs.Span.{Spans};
ghost use Rattle.diva_core.specs.Effects.{is_apart};
ghost use Rattle.diva_core.specs.Cycle.{accepted_in};
ghost use Rattle.diva_core.specs.Entries.{fresh, has_store_opcode, pending_claim_of};

use crate::claims::Claim;
use crate::differences::Diff;
use circular_buffer::HeapCircularBuffer;
use diva_decode::{Instr, decode, decode_here};
use diva_isa::{Effect, effect_by};
use diva_memory::Span;
use std::alloc::{AllocError, Global};
use std::marker::Model;

/// A pending claim.
#[derive(Clone, Copy, Debug, PartialEq, Eq)]
pub struct Entry {
    /// What the core claims.
    pub claim: Claim,
    /// The cycle in which it was accepted.
    pub cycle: u64,
    /// What its word says, once it is decoded. `None` until then.
    pub decoded: Option<Instr>,
    /// The first field in which it differs from what is due, as far as it is checked.
    pub verdict: Option<Diff>,
}

impl Entry {
    ghost use Rattle.diva_decode.specs.Table.{row_of, HasRegisters, IsValid};
    ghost use Rattle.diva_isa.specs.State.{State, reg_of};
    ghost use Rattle.diva_isa.specs.Step.{effect_of, with_effect};
    ghost use Rattle.diva_core.specs.Entries.{IsDecoded};

    /// What the claim's word says, `None` where it says nothing. It is decoded here only where that was not noted.
    #[inline(always)]
    #[tactic(auto, using(diva_decode::proofs::Unique::registers_by, diva_decode::proofs::Unique::valid_if))]
    pub fn decoded(&self) -> Option<Instr>
        requires { IsDecoded self.now }
        ensures row { result ≡ row_of self.now.claim.word }
        ensures registers { IfSome result HasRegisters }
        ensures valid { IfSome result IsValid }
    {
        let word = self.claim.word;
        match self.decoded {
            Some(decoded) => Some(decoded),
            None => decode(word),
        }
    }

    /// The word in register `n` after the claim, `word` being the one before.
    #[inline(always)]
    #[tactic(auto, using(crate::proofs::Bypassing::target_reads))]
    pub(crate) fn written(&self, n: u8, word: u32) -> u32
        requires { IsDecoded self.now }
        ensures { (s : State) → n < length s.regs → reg_of s n ≡ word
            → reg_of (with_effect s (effect_of self.now.claim)) n ≡ result }
    {
        // An instruction that writes no register has x0 for it.
        match self.decoded {
            Some(decoded) if decoded.rd == n && n != 0 => self.claim.value,
            Some(_) => word,
            None => self.written_anew(n, word),
        }
    }

    /// The same, where what the word says was not noted.
    #[cold]
    #[inline(never)]
    #[tactic(auto, using(crate::proofs::Bypassing::target_reads))]
    fn written_anew(&self, n: u8, word: u32) -> u32
        ensures { (s : State) → n < length s.regs → reg_of s n ≡ word
            → reg_of (with_effect s (effect_of self.now.claim)) n ≡ result }
    {
        match decode(self.claim.word) {
            Some(decoded) if decoded.rd == n && n != 0 => self.claim.value,
            Some(_) | None => word,
        }
    }

    /// What the claim does besides moving the pc and being counted, as if it went on.
    #[inline(always)]
    pub(crate) fn effect(&self) -> Effect
        requires { IsDecoded self.now }
        ensures { result ≡ effect_of self.now.claim }
    {
        effect_by(self.decoded(), &self.claim)
    }
}

/// The pending claims, the oldest first: 64 at most. It takes no memory after its making.
///
/// Most reads of memory meet no pending store. So it knows the span of the claims that may be stores: a read that is apart from
/// that looks through no claim.
#[derive(Drop)]
pub struct Pending {
    entries: HeapCircularBuffer<Entry>,
    /// The span of those that may be stores.
    span: Span,
}

impl Model for Pending {
    ghost use Rattle.circular_buffer.specs.Buffer.{Buffer};
    ghost use Rattle.diva_core.specs.declared.pending.Entry.{Entry};

    ghost Value = { Buffer Entry };

    ghost use Rattle.std.specs.Prelude.{◌≤◌};
    ghost use Rattle.std.specs.List.{All};
    ghost use Rattle.diva_memory.specs.Span.{IsSpan};
    ghost use Rattle.diva_core.specs.Entries.{IsDecoded, MayStore};

    ghost view = { λ p. p.entries };

    ghost invariant = { λ p.
        All IsDecoded p.entries.items × (p.entries.capacity ≤ 64) × IsSpan MayStore p.span p.entries.items };
}

impl Pending {
    ghost use Rattle.diva_decode.specs.Table.{row_of};
    ghost use Rattle.diva_core.specs.Entries.{IsDecoded};
    ghost use Rattle.diva_core.specs.declared.pending.Entry.{Entry};

    /// No pending claim, with room for `q`, 64 at most. The one error is that memory runs out.
    pub fn new(alloc: Global, q: usize) -> Result<Self, AllocError>
        requires { q ≤ 64 }
        ensures { IfOk result (λ p. p ≡ buffer [] q) }
    {
        Ok(Pending {
            entries: HeapCircularBuffer::with_capacity(alloc, q)?,
            span: Span::none(),
        })
    }

    /// Becomes a copy of pending claims for which there is as much room. It takes no memory.
    pub fn copy_from(&mut self, other: &Pending)
        requires { self.old.capacity ≡ other.now.capacity }
        ensures { self.new ≡ other.now }
    {
        copy_entries(&mut self.entries, &other.entries);
        self.span = other.span;
    }

    /// Recalls for a proof how many claims are pending at most. It does nothing.
    #[inline(always)]
    pub fn recall(&self)
        ensures { length self.now.items ≤ 64 }
    {
        let _ = self.entries.len();
    }

    /// How many claims are pending.
    pub fn len(&self) -> usize
        ensures len { result ≡ length self.now.items }
        ensures within { result ≤ self.now.capacity }
        ensures few { result ≤ 64 }
    {
        self.entries.len()
    }

    /// How many claims there is room for.
    pub fn capacity(&self) -> usize
        ensures value { result ≡ self.now.capacity }
        ensures most { result ≤ 64 }
    {
        self.entries.capacity()
    }

    /// The oldest claim, `None` exactly where nothing is pending.
    pub fn front(&self) -> Option<&Entry>
        ensures { option_copied result ≡ slice_get self.now.items 0 }
    {
        self.entries.front()
    }

    /// The claim at a place, the oldest being at 0.
    pub fn entry(&self, at: usize) -> Entry
        requires { at < length self.now.items }
        ensures value { slice_get self.now.items at ≡ Some result }
        ensures decoded { IsDecoded result }
    {
        *self.at(at)
    }

    /// A reference to the claim at a place, the oldest being at 0, where [`entry`](Self::entry) gives a copy.
    #[inline(always)]
    pub fn at(&self, at: usize) -> &Entry
        requires { at < length self.now.items }
        ensures value { slice_get self.now.items at ≡ Some result.now }
        ensures decoded { IsDecoded result.now }
    {
        self.entries.get(at).unwrap()
    }

    /// Notes of the claim at a place (the oldest is at 0) what its word says, and in what it differs. A decoded form has to be
    /// the one that the table has for the claim's word.
    pub fn set(&mut self, at: usize, decoded: Option<Instr>, verdict: Option<Diff>)
        requires place { at < length self.old.items }
        requires decoded { (e : Entry) → slice_get self.old.items at ≡ Some e
            → IsDecoded (record e { decoded = decoded }) }
        ensures { (e : Entry) → slice_get self.old.items at ≡ Some e
            → self.new ≡ buffer
            (slice_set self.old.items at (record e { decoded = decoded; verdict = verdict }))
            self.old.capacity }
    {
        let entry = self.entries.get_mut(at).unwrap();
        entry.decoded = decoded;
        entry.verdict = verdict;
    }

    /// Notes of the claim at a place (the oldest is at 0) what its word says.
    #[inline(always)]
    pub fn note_decoded(&mut self, at: usize)
        requires { at < length self.old.items }
        ensures items { (e : Entry) → slice_get self.old.items at ≡ Some e
            → self.new.items ≡ slice_set self.old.items at (record e { decoded = row_of e.claim.word }) }
        ensures capacity { self.new.capacity ≡ self.old.capacity }
    {
        let noted = self.entries.get_mut(at).unwrap();
        noted.decoded = decode_here(noted.claim.word);
    }

    /// Puts a claim behind the others, neither decoded nor checked yet.
    pub fn push(&mut self, claim: Claim, cycle: u64)
        requires { length self.old.items < self.old.capacity }
        ensures { self.new ≡ buffer
            (self.old.items ++ record { claim = claim; cycle = cycle; decoded = None; verdict = None } ∷ [])
            self.old.capacity }
    {
        self.accept(&claim, cycle);
    }

    /// Puts a claim behind the others, neither decoded nor checked yet, as [`push`](Self::push) does, but copies it from where
    /// it stands: it is moved whole, and not field by field.
    #[inline(always)]
    pub fn accept(&mut self, claim: &Claim, cycle: u64)
        requires { length self.old.items < self.old.capacity }
        ensures { self.new ≡ buffer
            (self.old.items ++ record { claim = claim.now; cycle = cycle; decoded = None; verdict = None } ∷ [])
            self.old.capacity }
    {
        if has_store_opcode(claim.word) {
            extend(&mut self.span, self.entries.len(), claim.addr);
        }
        let _ = self.entries.try_push_back(Entry {
            claim: *claim,
            cycle,
            decoded: None,
            verdict: None,
        });
    }

    /// Puts claims that are accepted in a cycle behind the others, in order, neither decoded nor checked yet.
    pub fn accept_all(&mut self, claims: &[Claim], cycle: u64)
        requires { length self.old.items + length claims.now ≤ self.old.capacity }
        ensures entries { self.new ≡ buffer (self.old.items ++ map (fresh cycle) claims.now) self.old.capacity }
        ensures claims { map pending_claim_of self.new.items
            ≡ map pending_claim_of self.old.items ++ map (accepted_in cycle) claims.now }
        ensures capacity { self.new.capacity ≡ self.old.capacity }
    {
        for claim in claims {
            self.accept(claim, cycle);
        }
    }

    /// Takes out the oldest claim.
    #[inline(always)]
    pub fn pop(&mut self) -> Entry
        requires { 0 < length self.old.items }
        ensures { self.old ≡ buffer (result ∷ self.new.items) self.new.capacity }
    {
        self.span.drop_oldest(1);
        self.entries.pop_front().unwrap()
    }

    /// Drops all claims.
    pub fn clear(&mut self)
        ensures { self.new ≡ buffer [] self.old.capacity }
    {
        self.entries.clear();
        self.span = Span::none();
    }

    /// Whether no claim can store one of the `n` bytes from an address on. Some that no claim stores are not told.
    #[inline(always)]
    pub(crate) fn is_clear(&self, addr: u32, n: u32) -> bool
        ensures { IsTrue result → list_all (λ e. is_apart (effect_of e.claim) addr n) self.now.items ≡ true }
    {
        self.span.is_apart(addr, n)
    }
}

/// Makes entries a copy of others for which there is as much room.
fn copy_entries(entries: &mut HeapCircularBuffer<Entry>, others: &HeapCircularBuffer<Entry>)
    requires { entries.old.capacity ≡ others.now.capacity }
    ensures { entries.new ≡ others.now }
{
    let (front, back) = others.as_slices();
    prove!(others.len() <= others.capacity());
    entries.clear();
    entries.extend_from_slice(front);
    entries.extend_from_slice(back);
}

/// Whether a word has the opcode of stores. (RISC-V Unprivileged ISA, chapter "RV32/64G Instruction Set Listings".)
#[inline]
fn has_store_opcode(word: u32) -> bool
    ensures { result ≡ has_store_opcode word }
{
    word & 0x7f == 0b0100011
}

/// Extends a span to the claim at a place, which may store in the word at an address. It stands out of line: most claims are no
/// stores, and what accepts one is short without it.
#[inline(never)]
fn extend(span: &mut Span, place: usize, addr: u32)
    requires { place + 1 < 2 ^ 64 }
    ensures youngest { Spans span.new place addr 4 }
    ensures older { (p a k : ℕ) → p < place → Spans span.old p a k → Spans span.new p a k }
{
    span.extend(place, addr, 4);
}
