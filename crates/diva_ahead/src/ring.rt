// What the records that a core handed over did, the oldest first.
ghost use Rattle.std.specs.Prelude.{◌≡◌, ◌≤◌, ◌<◌, ◌+◌, ◌-◌, ◌%◌, [], ◌∷◌, ◌++◌, length, drop, IfOk, IfSome, IsSome, IsTrue, Some, true};
ghost use Rattle.std.specs.List.{list_all};
ghost use Rattle.diva_isa.specs.State.{State, byte_of, word_of};
ghost use Rattle.diva_core.specs.Effects.{is_apart, with_effects};

use crate::buffers::copy_buffer;
use crate::effects::is_store;
use circular_buffer::HeapCircularBuffer;
use diva_core::{View, byte_in, is_apart};
use diva_isa::{Effect, Width};
use diva_memory::Span;
use std::alloc::{AllocError, Global};
use std::marker::Model;

/// What the records did that were handed over, the oldest first: at most 64.
///
/// Most reads of memory meet none of its stores. So the ring knows their span: a read that is apart from that looks through no
/// effect.
#[derive(Drop)]
pub struct Ring {
    effects: HeapCircularBuffer<Effect>,
    /// The span of the stores.
    span: Span,
}

impl Model for Ring {
    ghost use Rattle.std.specs.Prelude.{List, ◌≡◌};
    ghost use Rattle.diva_memory.specs.Span.{IsSpan};
    ghost use Rattle.diva_isa.specs.declared.effect.Effect.{Effect};
    ghost use Rattle.diva_ahead.specs.Inner.{StoresAt};

    ghost Value = { List Effect };

    ghost view = { λ r. r.effects.items };

    ghost invariant = { λ r. (r.effects.capacity ≡ 64) × IsSpan StoresAt r.span r.effects.items };
}

impl Ring {
    /// The most effects that a ring holds.
    pub const MOST: usize = 64;

    /// An empty ring. The one error is that memory runs out, and no later call takes any.
    pub fn new(alloc: Global) -> Result<Self, AllocError>
        ensures { IfOk result (λ r. r ≡ []) }
    {
        Ok(Ring {
            effects: HeapCircularBuffer::with_capacity(alloc, Self::MOST)?,
            span: Span::none(),
        })
    }

    /// A copy of the ring. The one error is that memory runs out.
    pub fn copied(&self, alloc: Global) -> Result<Self, AllocError>
        ensures { IfOk result (λ r. r ≡ self.now) }
    {
        let mut copy = Ring::new(alloc)?;
        copy.copy_from(self);
        Ok(copy)
    }

    /// Becomes a copy of another ring. It takes no memory.
    pub fn copy_from(&mut self, other: &Ring)
        ensures { self.new ≡ other.now }
    {
        copy_buffer(&mut self.effects, &other.effects);
        self.span = other.span;
    }

    /// Keeps the youngest `most`.
    #[inline(always)]
    pub fn trim(&mut self, most: usize)
        ensures { self.new ≡ drop (length self.old - most) self.old }
    {
        let len = self.effects.len();
        if most < len {
            self.span.drop_oldest(len - most);
            self.effects.truncate_front(most);
        }
    }

    /// Drops all.
    pub fn clear(&mut self)
        ensures { self.new ≡ [] }
    {
        self.effects.clear();
        self.span = Span::none();
    }

    /// Adds the youngest. There is room for it.
    pub fn push(&mut self, effect: Effect)
        requires { length self.old < 64 }
        ensures { self.new ≡ self.old ++ effect ∷ [] }
    {
        if let Effect::Stores { width, addr, .. } = effect {
            self.span.extend(self.effects.len(), addr, width.size());
        }
        let _ = self.effects.try_push_back(effect);
    }

    /// The byte at an address of the view's memory with all effects laid over it, `None` exactly outside.
    #[tactic(auto, using(diva_core::proofs::Laying::effects_none, diva_core::proofs::Laying::effects_byte))]
    pub fn byte(&self, view: &View<'_>, addr: u32) -> Option<u8>
        ensures { result ≡ byte_of (with_effects view.now self.now) addr }
    {
        let byte = view.byte(addr)?;
        if self.is_clear(addr, 1) {
            return Some(byte);
        }
        Some(self.youngest(addr, byte))
    }

    /// The byte that the youngest store has for an address, or else the one that memory has.
    fn youngest(&self, addr: u32, byte: u8) -> u8
        ensures { (s : State) → byte_of s addr ≡ Some byte → byte_of (with_effects s self.now) addr ≡ Some result }
    {
        let mut youngest = byte;
        for effect in self.effects.iter() {
            youngest = byte_in(effect, addr).unwrap_or(youngest);
        }
        youngest
    }

    /// The word at an address of the view's memory with all effects laid over it, `None` where the address is no multiple
    /// of 4 or outside.
    #[inline(always)]
    #[tactic(auto, using(diva_core::proofs::Laying::effects_word_none, diva_core::proofs::Laying::effects_word))]
    pub fn word(&self, view: &View<'_>, addr: u32) -> Option<u32>
        ensures { result ≡ word_of (with_effects view.now self.now) addr }
    {
        let word = view.word(addr)?;
        if self.is_clear(addr, 4) {
            return Some(word);
        }
        match self.latest(addr, word) {
            Some(latest) => Some(latest),
            None => self.overlaid(view, addr),
        }
    }

    /// The same, where `word` is the one in the view: most stores near a word are apart from it, or cover it whole. `None` where
    /// one of them does neither.
    #[inline(never)]
    fn latest(&self, addr: u32, word: u32) -> Option<u32>
        ensures { IfSome result (λ latest. (s : State) → word_of s addr ≡ Some word
            → word_of (with_effects s self.now) addr ≡ Some latest) }
    {
        let mut latest = word;
        for effect in self.effects.iter() {
            match *effect {
                Effect::Stores {
                    width: Width::Word,
                    addr: from,
                    value,
                } if from == addr => latest = value,
                _ if is_apart(effect, addr, 4) => {}
                _ => return None,
            }
        }
        Some(latest)
    }

    /// The same, byte by byte: few reads meet a store in flight.
    #[cold]
    fn overlaid(&self, view: &View<'_>, addr: u32) -> Option<u32>
        requires { IsSome (word_of view.now addr) }
        ensures { result ≡ word_of (with_effects view.now self.now) addr }
    {
        let mut byte0 = view.byte(addr)?;
        let mut byte1 = view.byte(addr + 1)?;
        let mut byte2 = view.byte(addr + 2)?;
        let mut byte3 = view.byte(addr + 3)?;
        for effect in self.effects.iter() {
            byte0 = byte_in(effect, addr).unwrap_or(byte0);
            byte1 = byte_in(effect, addr + 1).unwrap_or(byte1);
            byte2 = byte_in(effect, addr + 2).unwrap_or(byte2);
            byte3 = byte_in(effect, addr + 3).unwrap_or(byte3);
        }
        Some(u32::from_le_bytes([byte0, byte1, byte2, byte3]))
    }

    /// Whether the `n` bytes from an address on are apart from the span of the stores.
    fn is_clear(&self, addr: u32, n: u32) -> bool
        ensures { IsTrue result → list_all (λ e. is_apart e addr n) self.now ≡ true }
    {
        self.span.is_apart(addr, n)
    }
}
