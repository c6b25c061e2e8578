// The undos of the newest instructions.
ghost use Rattle.std.specs.Prelude.{◌≡◌, ◌≤◌, [], ◌∷◌, take, drop, length, slice_get, IfOk};

use circular_buffer::HeapCircularBuffer;
use diva_isa::Undo;
use std::alloc::{AllocError, Global};
use std::marker::Model;

/// The undos of the newest instructions, the newest first. There is room for so many: the oldest makes room for a newer one.
#[derive(Drop)]
pub struct Undos {
    ring: Option<HeapCircularBuffer<Undo>>,
}

impl Model for Undos {
    ghost use Rattle.diva_debug.specs.Undos.{Undos, undos_in};

    ghost Value = { Undos };

    ghost view = { λ u. undos_in u.ring };
}

impl Undos {
    /// No undos, with room for so many. The one error is that memory runs out.
    pub fn new(alloc: Global, keep: usize) -> Result<Self, AllocError>
        ensures { IfOk result (λ u. u ≡ record { items = []; keep = keep }) }
    {
        let ring = HeapCircularBuffer::with_capacity(alloc, keep)?;
        Ok(Undos { ring: Some(ring) })
    }

    /// No undos, and room for none, which takes no memory.
    pub fn none() -> Self
        ensures { result ≡ record { items = []; keep = 0 } }
    {
        Undos { ring: None }
    }

    /// How many there are.
    pub(crate) fn len(&self) -> usize
        ensures len { result ≡ length self.now.items }
        ensures room { result ≤ self.now.keep }
    {
        match &self.ring {
            Some(ring) => ring.len(),
            None => 0,
        }
    }

    /// Keeps the undo of an instruction that follows.
    pub(crate) fn keep(&mut self, u: Undo)
        ensures items { self.new ≡ record { items = take self.old.keep (u ∷ self.old.items); keep = self.old.keep } }
    {
        if let Some(ring) = &mut self.ring {
            let _ = ring.push_front(u);
        }
    }

    /// Takes the newest one out.
    pub(crate) fn pop(&mut self) -> Option<Undo>
        ensures value { result ≡ slice_get self.old.items 0 }
        ensures rest { self.new ≡ record { items = drop 1 self.old.items; keep = self.old.keep } }
    {
        match &mut self.ring {
            Some(ring) => ring.pop_front(),
            None => None,
        }
    }
}
