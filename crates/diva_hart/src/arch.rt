// The committed state of a hart but memory.
ghost use Rattle.std.specs.Prelude.{◌≡◌, ◌≤◌, ◌<◌, ◌+◌, ◌^◌, ◌==◌, [], true, false, not, length, take, drop, None, IfOk};
ghost use Rattle.diva_decode.specs.Table.{row_of};
ghost use Rattle.diva_storeq.specs.Stores.{laid};
ghost use Rattle.diva_isa.specs.State.{output_limit};
ghost use Rattle.diva_isa.specs.Regs.{with_reg};
ghost use Rattle.diva_isa.specs.End.{end_of, end_number};
ghost use Rattle.diva_isa.specs.Step.{apply, record_of};
ghost use Rattle.diva_isa.specs.Undo.{IsUndo, restore};
ghost use Rattle.diva_core.specs.Cycle.{number, puts_store};
ghost use Rattle.diva_commit.specs.Committing.{answer, is_committed, AreInside};
ghost use Rattle.diva_hart.specs.HartArch.{new_state, seen, went};

use diva_commit::{Committed, commit_by};
use diva_core::{Diff, Output, View};
use diva_decode::Instr;
use diva_isa::{End, Record, Regs, Undo};
use diva_memory::Memory;
use diva_storeq::StoreQueue;
use std::alloc::{AllocError, Global};
use std::marker::Model;

/// What a hart has for itself of the committed state: registers, pc, output, the number of its instructions, how it ended, and
/// the stores that are not in memory yet. Memory is lent to each call.
///
/// It takes all its memory when it is made.
#[derive(Drop)]
pub struct HartArch {
    regs: Regs,
    pc: u32,
    queue: StoreQueue,
    output: Output,
    /// How many instructions have committed.
    count: u64,
    end: u32,
}

impl Model for HartArch {
    ghost use Rattle.std.specs.Prelude.{◌≤◌, ◌^◌};
    ghost use Rattle.diva_isa.specs.End.{IsEnd};
    ghost use Rattle.diva_hart.specs.HartArch.{HartArch};

    ghost Value = { HartArch };

    ghost view = { λ h. record {
      state = record { regs = h.regs; pc = h.pc; output = h.output; instret = h.count; end = h.end; buffer = h.queue.items };
      stores = h.queue.capacity;
    } };

    ghost invariant = { λ h. (h.count ≤ 2 ^ 62) × IsEnd h.end };
}

impl HartArch {
    /// A hart that begins at this pc, with a queue for so many stores: all registers are 0. The one error is that memory runs out.
    pub fn new(alloc: Global, pc: u32, stores: usize) -> Result<Self, AllocError>
        ensures { IfOk result (λ h. h ≡ record { state = new_state pc; stores = stores }) }
    {
        Ok(HartArch {
            regs: Regs::new(),
            pc,
            queue: StoreQueue::new(alloc, stores)?,
            output: Output::new(alloc)?,
            count: 0,
            end: 0,
        })
    }

    /// Becomes a copy of a hart with a queue for as many stores. It takes no memory.
    pub fn copy_from(&mut self, other: &HartArch)
        requires { self.old.stores ≡ other.now.stores }
        ensures { self.new ≡ other.now }
    {
        self.regs = other.regs;
        self.pc = other.pc;
        self.queue.copy_from(&other.queue);
        self.output.copy_from(&other.output);
        self.count = other.count;
        self.end = other.end;
    }

    /// Puts a word into the register `n`, 0 to 31, with which the hart begins. x0 stays 0.
    pub fn set_reg(&mut self, n: u8, word: u32)
        requires { n < 32 }
        ensures { self.new ≡ record self.old { state = record self.old.state { regs = with_reg self.old.state.regs n word } } }
    {
        self.regs.set(n, word);
    }

    /// The state that the hart sees, as a core reads it.
    #[inline(always)]
    pub fn view<'a>(&'a self, memory: &'a Memory) -> View<'a>
        ensures { result ≡ record (seen memory.now self.now.state) { end = 0 } }
    {
        View::new(
            &self.regs,
            self.pc,
            memory,
            &self.queue,
            &self.output,
            self.count,
        )
    }

    /// The registers.
    #[inline(always)]
    pub fn regs(&self) -> &Regs
        ensures { result.now ≡ self.now.state.regs }
    {
        &self.regs
    }

    /// The pc.
    #[inline(always)]
    pub fn pc(&self) -> u32
        ensures { result ≡ self.now.state.pc }
    {
        self.pc
    }

    /// How many instructions have committed: at most 2^62.
    #[inline(always)]
    pub fn count(&self) -> u64
        ensures value { result ≡ self.now.state.instret }
        ensures most { result ≤ 2 ^ 62 }
    {
        self.count
    }

    /// What the program put: at most 65,536 bytes.
    pub fn output(&self) -> &[u8]
        ensures bytes { result.now ≡ self.now.state.output }
        ensures most { length result.now ≤ output_limit }
    {
        self.output.bytes()
    }

    /// Whether the hart has not ended.
    #[inline(always)]
    pub fn goes_on(&self) -> bool
        ensures { result ≡ (self.now.state.end == 0) }
    {
        self.end == 0
    }

    /// How the hart has ended, if it has.
    pub fn ended(&self) -> End
        ensures value { result ≡ end_of self.now.state.end }
        ensures number { end_number result ≡ self.now.state.end }
    {
        End::of(self.end)
    }

    /// How many stores are not in memory yet.
    #[inline(always)]
    pub fn owed(&self) -> usize
        ensures { result ≡ length self.now.state.buffer }
    {
        self.queue.owed()
    }

    /// Puts the oldest store to memory, if there is one.
    #[inline(always)]
    pub fn drain(&mut self, memory: &mut Memory)
        requires inside { AreInside memory.old self.old.state.buffer }
        ensures memory { memory.new ≡ laid memory.old (take 1 self.old.state.buffer) }
        ensures rest { self.new ≡ record self.old { state = record self.old.state { buffer = drop 1 self.old.state.buffer } } }
        ensures same { seen memory.new self.new.state ≡ seen memory.old self.old.state }
    {
        self.queue.drain(memory);
    }

    /// Puts all stores to memory that are not there yet.
    fn drain_all(&mut self, memory: &mut Memory)
        requires inside { AreInside memory.old self.old.state.buffer }
        ensures memory { memory.new ≡ laid memory.old self.old.state.buffer }
        ensures rest { self.new ≡ record self.old { state = record self.old.state { buffer = [] } } }
    {
        for _ in 0..self.owed() {
            self.drain(memory);
        }
    }

    /// Puts back what the last instruction overwrote. All stores that are not in memory yet are put there before.
    #[tactic(auto, using(diva_isa::proofs::Undoing::last_bounds, diva_isa::proofs::Undoing::last_counted, diva_isa::proofs::Undoing::last_output, crate::proofs::Undoing::restored_size, crate::proofs::Undoing::restored_state))]
    pub fn restore(&mut self, memory: &mut Memory, u: &Undo)
        requires inside { AreInside memory.old self.old.state.buffer }
        requires last { IsUndo (seen memory.old self.old.state) u.now }
        ensures seen { seen memory.new self.new.state ≡ restore (seen memory.old self.old.state) u.now }
        ensures empty { self.new.state.buffer ≡ [] }
        ensures stores { self.new.stores ≡ self.old.stores }
        ensures base { memory.new.base ≡ memory.old.base }
        ensures size { length memory.new.items ≡ length memory.old.items }
    {
        self.drain_all(memory);
        u.put_bytes(memory);
        self.regs.set(u.reg, u.old);
        self.pc = u.pc;
        self.output.cut(u.out_len);
        self.count -= 1;
        self.end = 0;
    }

    /// Judges a record by its verdict, and commits it where there is none and its store has a place: `decoded` is what its
    /// word says.
    #[inline(always)]
    #[tactic(auto, using(diva_decode::proofs::Unique::registers_by))]
    pub fn commit(
        &mut self,
        memory: &Memory,
        decoded: Option<Instr>,
        r: &Record,
        verdict: Option<Diff>,
    ) -> Committed
        requires goes_on { self.old.state.end ≡ 0 }
        requires count { self.old.state.instret < 2 ^ 62 }
        requires due { verdict ≡ None → r.now ≡ record_of (seen memory.now self.old.state) }
        requires decoded { decoded ≡ row_of r.now.word }
        ensures answer { result ≡ answer verdict r.now (length self.old.state.buffer == self.old.stores) }
        ensures stays { is_committed result ≡ false → self.new ≡ self.old }
        ensures went { is_committed result ≡ true
            → self.new.state ≡ went (seen memory.now self.old.state) r.now self.old.state.buffer }
        ensures seen { is_committed result ≡ true
            → seen memory.now self.new.state ≡ apply (seen memory.now self.old.state) r.now }
        ensures count { is_committed result ≡ true → self.new.state.instret ≡ self.old.state.instret + 1 }
        ensures owed { is_committed result ≡ true
            → length self.new.state.buffer ≡ length self.old.state.buffer + number (puts_store r.now) }
        ensures stores { self.new.stores ≡ self.old.stores }
        ensures inside { AreInside memory.now self.old.state.buffer → AreInside memory.now self.new.state.buffer }
    {
        let answer = commit_by(
            &mut self.regs,
            &mut self.pc,
            memory,
            &mut self.queue,
            &mut self.output,
            decoded,
            r,
            verdict,
        );
        if answer.is_committed() {
            self.count += 1;
            self.end = r.end;
        }
        answer
    }
}
