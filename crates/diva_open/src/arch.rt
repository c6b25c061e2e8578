// The committed state.
ghost use Rattle.std.specs.Prelude.{◌≡◌, ◌≤◌, ◌<◌, ◌+◌, ◌^◌, ◌==◌, ◌&&◌, length, true, IfOk, if◌then◌else◌};
ghost use Rattle.diva_decode.specs.Table.{row_of};
ghost use Rattle.diva_isa.specs.State.{goes_on, GoesOn, output_limit};
ghost use Rattle.diva_isa.specs.Step.{apply, effect_of, with_effect, HasRegister};
ghost use Rattle.diva_image.specs.ImageLayout.{layout};
ghost use Rattle.diva_core.specs.Cycle.{is_store, puts_store};
ghost use Rattle.diva_hart.specs.Start.{start_of};
ghost use Rattle.diva_open.specs.Ends.{open_end_number, open_end_of};
ghost use Rattle.diva_open.specs.Open.{can_apply, can_go_on, finds_place, is_end, stray};

use crate::ends::{OpenEnd, STRAY};
use diva_core::{Output, View};
use diva_decode::Instr;
use diva_image::Image;
use diva_isa::{Effect, OUTPUT_LIMIT, Record, Regs, effect_by};
use diva_memory::Memory;
use diva_storeq::StoreQueue;
use std::alloc::{AllocError, Global};
use std::marker::Model;

/// The committed state of an open machine. Nobody sees where a byte lies, so stores go straight to memory.
///
/// It takes all its memory when it is made.
#[derive(Drop)]
pub(crate) struct OpenArch {
    regs: Regs,
    pc: u32,
    memory: Memory,
    /// It stays empty.
    queue: StoreQueue,
    output: Output,
    /// How many instructions have committed.
    count: u64,
    end: u32,
}

impl Model for OpenArch {
    ghost use Rattle.std.specs.Prelude.{◌≡◌, ◌≤◌, ◌^◌, []};
    ghost use Rattle.diva_isa.specs.State.{State};
    ghost use Rattle.diva_open.specs.Open.{stray};

    ghost Value = { State };

    ghost view = { λ a. record { regs = a.regs; pc = a.pc; base = a.memory.base; bytes = a.memory.items; output = a.output; instret = a.count; end = a.end } };

    ghost invariant = { λ a. (a.queue.items ≡ []) × (a.count ≤ 2 ^ 62) × (a.end ≤ stray) };
}

impl OpenArch {
    /// The state that an image starts. The one error is that memory runs out.
    pub fn new(alloc: Global, image: &Image) -> Result<Self, AllocError>
        ensures { IfOk result (λ a. a ≡ start_of (layout image.now)) }
    {
        Ok(OpenArch {
            regs: Regs::new(),
            pc: image.entry,
            memory: Memory::new(alloc, image.base, image.size, image.payload.bytes())?,
            queue: StoreQueue::new(alloc, 1)?,
            output: Output::new(alloc)?,
            count: 0,
            end: 0,
        })
    }

    /// Becomes a copy of a state with a memory of the same size. It takes no memory.
    pub fn copy_from(&mut self, other: &OpenArch)
        requires { length self.old.bytes ≡ length other.now.bytes }
        ensures { self.new ≡ other.now }
    {
        // Neither queue holds a store.
        self.regs = other.regs;
        self.pc = other.pc;
        self.memory.copy_from(&other.memory);
        self.output.copy_from(&other.output);
        self.count = other.count;
        self.end = other.end;
    }

    /// The state as a core reads it.
    #[inline(always)]
    pub fn view(&self) -> View<'_>
        ensures { result ≡ record self.now { end = 0 } }
    {
        View::new(
            &self.regs,
            self.pc,
            &self.memory,
            &self.queue,
            &self.output,
            self.count,
        )
    }

    /// The pc.
    #[inline(always)]
    pub fn pc(&self) -> u32
        ensures { result ≡ self.now.pc }
    {
        self.pc
    }

    /// How many instructions have committed.
    #[inline(always)]
    pub fn count(&self) -> u64
        ensures { result ≡ self.now.instret }
    {
        self.count
    }

    /// What was put: at most 65,536 bytes.
    pub fn output(&self) -> &[u8]
        ensures bytes { result.now ≡ self.now.output }
        ensures most { length result.now ≤ output_limit }
    {
        self.output.bytes()
    }

    /// Whether the state has not ended.
    #[inline(always)]
    pub fn goes_on(&self) -> bool
        ensures { result ≡ goes_on self.now }
    {
        self.end == 0
    }

    /// How the state has ended, if it has.
    pub fn ended(&self) -> OpenEnd
        ensures value { result ≡ open_end_of self.now.end }
        ensures number { open_end_number result ≡ self.now.end }
    {
        OpenEnd::of(self.end)
    }

    /// Commits a record as it stands, or ends the state where it cannot be applied: `decoded` is what its word says. Answers whether
    /// a store committed.
    #[inline(always)]
    #[tactic(auto, using(diva_decode::proofs::Unique::registers_by), unfolding(crate::specs::Open::can_apply, diva_core::specs::Cycle::puts_store, diva_isa::specs::Step::apply))]
    pub fn obey(&mut self, decoded: Option<Instr>, r: &Record) -> bool
        requires goes_on { GoesOn self.old }
        requires count { self.old.instret < 2 ^ 62 }
        requires decoded { decoded ≡ row_of r.now.word }
        ensures state { self.new ≡ (if can_apply self.old r.now then apply self.old r.now else record self.old { end = stray }) }
        ensures counted { can_apply self.old r.now ≡ true → self.new.instret ≡ self.old.instret + 1 }
        ensures store { result ≡ (can_apply self.old r.now && puts_store r.now) }
    {
        if r.end != 0 {
            self.end_by(r.end);
            return false;
        }
        let effect = effect_by(decoded, r);
        if decoded.is_none() || !self.finds_place(effect) {
            self.end = STRAY;
            return false;
        }
        self.perform(effect);
        self.pc = r.next;
        self.count += 1;
        matches!(effect, Effect::Stores { .. })
    }

    /// Ends the state as a record says that does not go on, and counts that; or ends it otherwise, if there is no such end.
    #[cold]
    fn end_by(&mut self, end: u32)
        requires { self.old.instret < 2 ^ 62 }
        ensures { self.new ≡ (if is_end end then record self.old { end = end; instret = self.old.instret + 1 } else record self.old { end = stray }) }
    {
        if end < 512 && (end <= 10 || end >= 256) {
            self.end = end;
            self.count += 1;
        } else {
            self.end = STRAY;
        }
    }

    /// Whether there is a place for an effect.
    #[inline(always)]
    fn finds_place(&self, effect: Effect) -> bool
        ensures { result ≡ finds_place self.now effect }
    {
        match effect {
            Effect::Nothing | Effect::Writes { .. } => true,
            Effect::Stores { width, addr, .. } => self.memory.inside(addr, width.size()),
            Effect::Puts(_) => self.output.len() < OUTPUT_LIMIT,
        }
    }

    /// Does what an effect says, for which there is a place.
    #[inline(always)]
    #[tactic(auto, using(diva_memory::proofs::Writing::put_all_base, diva_isa::proofs::Stored::length_low_bytes))]
    fn perform(&mut self, effect: Effect)
        requires place { finds_place self.old effect ≡ true }
        requires register { HasRegister effect }
        ensures { self.new ≡ with_effect self.old effect }
    {
        match effect {
            Effect::Nothing => {}
            Effect::Writes { rd, value } => self.regs.set(rd, value),
            Effect::Stores { width, addr, value } => {
                let bytes = value.to_le_bytes();
                self.memory.put_all(addr, &bytes[..width.size() as usize]);
            }
            Effect::Puts(byte) => self.output.push(byte),
        }
    }
}
