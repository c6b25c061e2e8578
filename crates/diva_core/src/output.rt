// The bytes that the program put.
ghost use Rattle.std.specs.Prelude.{◌≡◌, ◌<◌, ◌≤◌, [], ◌∷◌, ◌++◌, length, take, IfOk};
ghost use Rattle.diva_isa.specs.State.{output_limit};

use diva_isa::OUTPUT_LIMIT;
use std::alloc::{AllocError, Global};
use std::marker::Model;

/// The output: at most 65,536 bytes, for which room is reserved from the start.
#[derive(Drop)]
pub struct Output {
    bytes: Vec<u8>,
}

impl Model for Output {
    ghost use Rattle.std.specs.Prelude.{ℕ, List, ◌≤◌, length, vec_capacity};
    ghost use Rattle.diva_isa.specs.State.{output_limit};

    ghost Value = { List ℕ };

    ghost view = { λ o. o.bytes.items };

    ghost invariant = { λ o. (output_limit ≤ vec_capacity o.bytes) × (length o.bytes.items ≤ output_limit) };
}

impl Output {
    /// An empty output. The one error is that memory runs out.
    pub fn new(alloc: Global) -> Result<Self, AllocError>
        ensures { IfOk result (λ o. o ≡ []) }
    {
        Ok(Output {
            bytes: Vec::with_capacity(alloc, OUTPUT_LIMIT as usize)?,
        })
    }

    /// How many bytes were put: at most 65,536.
    pub fn len(&self) -> u32
        ensures len { result ≡ length self.now }
        ensures most { result ≤ output_limit }
    {
        self.bytes.len() as u32
    }

    /// The bytes, in order.
    pub fn bytes(&self) -> &[u8]
        ensures value { result.now ≡ self.now }
        ensures most { length result.now ≤ output_limit }
    {
        &self.bytes
    }

    /// Puts a byte behind the others.
    pub fn push(&mut self, byte: u8)
        requires { length self.old < output_limit }
        ensures { self.new ≡ self.old ++ byte ∷ [] }
    {
        let _ = self.bytes.push(byte);
    }

    /// Becomes a copy of an output. It takes no memory.
    pub fn copy_from(&mut self, other: &Output)
        ensures { self.new ≡ other.now }
    {
        self.bytes.clear();
        let _ = self.bytes.extend_from_slice(&other.bytes);
    }

    /// Drops the bytes behind the first `len`.
    pub fn cut(&mut self, len: u32)
        requires { len ≤ length self.old }
        ensures { self.new ≡ take len self.old }
    {
        self.bytes.truncate(len as usize);
    }
}
