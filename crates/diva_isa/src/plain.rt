// The machine that does one instruction after another.

ghost use Rattle.std.specs.Prelude.{◌≡◌, ◌+◌, ◌-◌, ◌<◌, ◌≤◌, ◌^◌, [], ◌++◌, IsSome, ◌↔◌, IfSome, IfOk, length, replicate, if◌then◌else◌};
ghost use Rattle.diva_memory.specs.Bytes.{IsInside};
ghost use Rattle.diva_isa.specs.Kind.{size};
ghost use Rattle.diva_isa.specs.Plain.{done};
ghost use Rattle.diva_isa.specs.State.{GoesOn, byte_of, goes_on, memory_of, reg_of, output_limit};
ghost use Rattle.diva_isa.specs.Step.{apply, effect_of, record_of, step, steps, with_bytes, with_effect};
ghost use Rattle.diva_isa.specs.Inner.{HasRoom};

use crate::due::record_of;
use crate::effect::{Effect, effect_of};
use crate::kind::Width;
use crate::look::Look;
use crate::record::{OUTPUT_LIMIT, Record};
use crate::regs::Regs;
use diva_memory::Memory;
use std::alloc::{AllocError, Global};
use std::marker::Model;

/// The machine that does one instruction after another, with no stages and nobody to check.
#[derive(Drop)]
pub struct Plain {
    regs: Regs,
    pc: u32,
    memory: Memory,
    output: Vec<u8>,
    end: u32,
    count: u64,
}

impl Model for Plain {
    ghost use Rattle.std.specs.Prelude.{◌≤◌, length, vec_capacity};
    ghost use Rattle.diva_isa.specs.Plain.{Plain};
    ghost use Rattle.diva_isa.specs.State.{output_limit};

    ghost Value = { Plain };

    ghost view = { λ p. record {
      state = record { regs = p.regs; pc = p.pc; base = p.memory.base; bytes = p.memory.items; output = p.output.items; instret = p.count; end = p.end };
      count = p.count;
    } };

    ghost invariant = { λ p. (output_limit ≤ vec_capacity p.output) × (length p.output.items ≤ output_limit) };
}

impl Look for Plain {
    ghost shows = { λ p. p.state };

    fn pc(&self) -> u32 {
        self.pc
    }

    fn reg(&self, n: u8) -> u32 {
        self.regs.get(n)
    }

    fn byte(&self, addr: u32) -> Option<u8> {
        self.memory.byte(addr)
    }

    fn word(&self, addr: u32) -> Option<u32> {
        self.memory.word(addr)
    }

    fn instret(&self) -> u64 {
        self.count
    }

    fn out_len(&self) -> u32 {
        self.output.len() as u32
    }
}

impl Plain {
    /// A machine at reset: every register is 0, the output is empty, `pc` is the entry, and memory is the payload with
    /// zeros behind it, `size` bytes from `base` on. Memory ends at 2^32 or before, and the payload is no longer than
    /// it.
    ///
    /// It takes all memory that its other calls fill, and answers `AllocError` where that runs out.
    pub fn new(
        alloc: Global,
        base: u32,
        size: u32,
        entry: u32,
        payload: &[u8],
    ) -> Result<Self, AllocError>
        requires range { base + size ≤ 2 ^ 32 }
        requires payload { length payload.now ≤ size }
        ensures { IfOk result (λ p. p ≡ record {
          state = record { regs = replicate 32 0; pc = entry; base = base; bytes = payload.now ++ replicate (size - length payload.now) 0; output = []; instret = 0; end = 0 };
          count = 0;
        }) }
    {
        Ok(Plain {
            regs: Regs::new(),
            pc: entry,
            memory: Memory::new(alloc, base, size, payload)?,
            output: Vec::with_capacity(alloc, OUTPUT_LIMIT as usize)?,
            end: 0,
            count: 0,
        })
    }

    /// The record of the next instruction, `None` exactly after the end.
    pub fn record(&self) -> Option<Record>
        ensures some { IsSome result ↔ GoesOn self.now.state }
        ensures value { IfSome result (λ r. r ≡ record_of self.now.state) }
    {
        if self.end == 0 {
            Some(record_of(self))
        } else {
            None
        }
    }

    /// Does the next instruction; the ending one counts too. An ended machine stays. The count has to be below 2^60,
    /// unless the machine has ended.
    #[tactic(auto, using(crate::proofs::Room::room, crate::proofs::Steps::step_ended), unfolding(crate::specs::Step::step))]
    pub fn step(&mut self)
        requires { GoesOn self.old.state → self.old.count < 2 ^ 60 }
        ensures state { self.new.state ≡ step self.old.state }
        ensures count { self.new.count ≡ self.old.count + (if goes_on self.old.state then 1 else 0) }
    {
        if let Some(r) = self.record() {
            self.apply(&r);
        }
    }

    /// Does so many instructions, or fewer where the machine ends before. Count and limit have to come to 2^60 at most.
    pub fn run(&mut self, limit: u64)
        requires { self.old.count + limit ≤ 2 ^ 60 }
        ensures state { self.new.state ≡ steps limit self.old.state }
        ensures count { self.new.count ≡ self.old.count + done limit self.old.state }
    {
        for _ in 0..limit {
            self.step();
        }
    }

    /// 0 where the machine goes on, 1 + a trap's number, or 256 + the status of a halt.
    pub fn ended(&self) -> u32
        ensures { result ≡ self.now.state.end }
    {
        self.end
    }

    /// How many instructions were done, the ending one among them.
    pub fn count(&self) -> u64
        ensures { result ≡ self.now.count }
    {
        self.count
    }

    /// The word in register `n`, which is below 32.
    pub fn reg(&self, n: u8) -> u32
        requires { n < 32 }
        ensures { result ≡ reg_of self.now.state n }
    {
        self.regs.get(n)
    }

    /// The byte at an address, `None` exactly outside memory.
    pub fn byte(&self, addr: u32) -> Option<u8>
        ensures { result ≡ byte_of self.now.state addr }
    {
        self.memory.byte(addr)
    }

    /// What was put, at most 65,536 bytes.
    pub fn output(&self) -> &[u8]
        ensures bytes { result.now ≡ self.now.state.output }
        ensures few { length result.now ≤ output_limit }
    {
        &self.output
    }

    #[tactic(auto, unfolding(crate::specs::Step::apply))]
    fn apply(&mut self, r: &Record)
        requires goes_on { GoesOn self.old.state }
        requires room { r.now.end ≡ 0 → HasRoom self.old.state (effect_of r.now) }
        requires count { self.old.count < 2 ^ 60 }
        ensures state { self.new.state ≡ apply self.old.state r.now }
        ensures count { self.new.count ≡ self.old.count + 1 }
    {
        self.count += 1;
        if r.end != 0 {
            self.end = r.end;
            return;
        }
        match effect_of(r) {
            Effect::Nothing => {}
            Effect::Writes { rd, value } => self.regs.set(rd, value),
            Effect::Stores { width, addr, value } => self.store(width, addr, value),
            Effect::Puts(byte) => self.put(byte),
        }
        self.pc = r.next;
    }

    #[tactic(auto, using(diva_memory::proofs::Writing::put_all_base, crate::proofs::Stored::length_low_bytes))]
    fn store(&mut self, width: Width, addr: u32, value: u32)
        requires { IsInside (memory_of self.old.state) addr (size width) }
        ensures state { self.new.state ≡ with_bytes self.old.state (size width) addr value }
        ensures count { self.new.count ≡ self.old.count }
    {
        let bytes = value.to_le_bytes();
        self.memory.put_all(addr, &bytes[..width.size() as usize]);
    }

    fn put(&mut self, byte: u8)
        requires { length self.old.state.output < output_limit }
        ensures state { self.new.state ≡ with_effect self.old.state (Effect.Puts byte) }
        ensures count { self.new.count ≡ self.old.count }
    {
        // The room was taken when the machine was made.
        let _ = self.output.push(byte);
    }
}
