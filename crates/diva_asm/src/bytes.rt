// Bytes that are put together.
ghost use Rattle.std.specs.Prelude.{◌≡◌, ◌++◌, ◌∷◌, [], length, replicate, IfOk, OnOk};
ghost use Rattle.std.specs.Int.{to_le_bytes, w32};

use std::alloc::{AllocError, Global};
use std::marker::Model;

/// Bytes that are put together, seen as their list.
#[derive(Drop)]
pub(crate) struct Bytes {
    bytes: Vec<u8>,
}

impl Model for Bytes {
    ghost use Rattle.std.specs.Prelude.{List, ℕ};

    ghost Value = { List ℕ };

    ghost view = { λ b. b.bytes.items };
}

impl Bytes {
    /// No bytes yet, with room for so many.
    pub fn with_capacity(alloc: Global, capacity: usize) -> Result<Self, AllocError>
        ensures { IfOk result (λ bytes. bytes ≡ []) }
    {
        let bytes = Vec::with_capacity(alloc, capacity)?;
        Ok(Bytes { bytes })
    }

    pub fn len(&self) -> usize
        ensures { result ≡ length self.now }
    {
        self.bytes.len()
    }

    pub fn push(&mut self, byte: u8) -> Result<(), AllocError>
        ensures { OnOk result (self.new ≡ self.old ++ byte ∷ []) }
    {
        self.bytes.push(byte)?;
        Ok(())
    }

    /// Four bytes, the lowest first.
    pub fn push_word(&mut self, word: u32) -> Result<(), AllocError>
        ensures { OnOk result (self.new ≡ self.old ++ to_le_bytes w32 word) }
    {
        self.bytes.extend_from_slice(&word.to_le_bytes())
    }

    pub fn push_zeros(&mut self, count: u32) -> Result<(), AllocError>
        ensures { OnOk result (self.new ≡ self.old ++ replicate count 0) }
    {
        let len = self.bytes.len();
        self.bytes.resize(len + count as usize, 0)
    }

    pub fn into_vec(self) -> Vec<u8>
        ensures { result.items ≡ self }
    {
        self.bytes
    }
}
