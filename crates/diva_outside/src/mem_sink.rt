// A sink in memory, where puts fail as a test asks for it.
ghost use Rattle.std.specs.Prelude.{◌≡◌, ◌≤◌, ◌↔◌, ◌==◌, [], IfOk, IsErr, IsTrue, length, vec_len, vec_capacity, min, find};
ghost use Rattle.diva_outside.specs.Lent.{lent};
ghost use Rattle.diva_outside.specs.Sink.{PutsTo};
ghost use Rattle.diva_outside.specs.MemSink.{takes_of};

use crate::{Sink, SinkFailed};
use std::alloc::{AllocError, Global};
use std::marker::Model;

/// A call of `put` that is to fail.
#[derive(Clone, Copy, Debug)]
pub struct Fail {
    /// The number of the call, from 1 on.
    pub call: u64,
    /// How many bytes of its piece it takes at most.
    pub takes: usize,
}

/// A sink in memory whose contents are known, for tests of what a program does when a put fails.
///
/// It has room for a fixed number of bytes. A piece that does not fit is cut, and that is a fault too.
#[derive(Drop)]
pub struct MemSink {
    bytes: Vec<u8>,
    room: usize,
    fails: Vec<Fail>,
    calls: u64,
    faults: u64,
}

impl Model for MemSink {
    ghost use Rattle.std.specs.Prelude.{◌≤◌, vec_len, vec_capacity};
    ghost use Rattle.diva_outside.specs.MemSink.{MemSink};

    ghost Value = { MemSink };

    ghost view = { λ s. record { bytes = s.bytes.items; room = s.room; fails = s.fails.items; calls = s.calls; faults = s.faults } };

    ghost invariant = { λ s. (vec_len s.bytes ≤ s.room) × (s.room ≤ vec_capacity s.bytes) };
}

impl MemSink {
    /// An empty sink with room for `room` bytes, and the calls that are to fail. Of two rows for one call the first
    /// counts. The error: out of memory.
    pub fn new(alloc: Global, room: usize, fails: Vec<Fail>) -> Result<Self, AllocError>
        ensures { IfOk result (λ s. s ≡ record { bytes = []; room = room; fails = fails.items; calls = 0; faults = 0 }) }
    {
        Ok(MemSink {
            bytes: Vec::with_capacity(alloc, room)?,
            room,
            fails,
            calls: 0,
            faults: 0,
        })
    }

    /// The bytes that were taken.
    pub fn bytes(&self) -> &[u8]
        ensures { result.now ≡ self.now.bytes }
    {
        &self.bytes
    }
}

impl Sink for MemSink {
    ghost use Rattle.diva_outside.specs.MemSink.{account_of, is_fault, after_put};

    ghost account = { account_of };

    fn put(&mut self, piece: &[u8]) -> Result<(), SinkFailed>
        ensures puts { PutsTo (lent account_of self.old self.new) piece.now result }
        ensures fails { IsErr result ↔ IsTrue (is_fault self.old piece.now) }
        ensures after { self.new ≡ after_put self.old piece.now }
    {
        self.calls = self.calls.saturating_add(1);
        let takes = takes_of(&self.fails, self.calls);
        let left = self.room - self.bytes.len();
        let count = takes.unwrap_or(piece.len()).min(piece.len()).min(left);
        self.bytes.extend_from_slice(&piece[..count]).unwrap();
        if takes.is_some() || count < piece.len() {
            self.faults = self.faults.saturating_add(1);
            return Err(SinkFailed);
        }
        Ok(())
    }
}

/// How many bytes the call takes at most, `None` where it is not to fail.
fn takes_of(fails: &[Fail], call: u64) -> Option<usize>
    ensures { result ≡ takes_of fails.now call }
{
    for fail in fails {
        if fail.call == call {
            return Some(fail.takes);
        }
    }
    None
}
