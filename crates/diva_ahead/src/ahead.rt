// Where a core stands that runs ahead of the machine.
ghost use Rattle.std.specs.Prelude.{◌≡◌, ◌<◌, ◌≤◌, ◌++◌, ◌∷◌, [], length, IfOk};
ghost use Rattle.diva_isa.specs.State.{State};
ghost use Rattle.diva_isa.specs.Step.{HasRegister, effect_of, record_of};
ghost use Rattle.diva_ahead.specs.Ahead.{taken_over, with_record, is_epoch, new_ahead, seen, synced, trimmed};

use crate::ring::Ring;
use crate::stand::Stand;
use diva_core::{Claims, Told, View};
use diva_isa::{Due, Effect, Record, Regs, decoded_of, due_by, fetch};
use std::alloc::{AllocError, Global};
use std::marker::Model;

/// What a core keeps that runs ahead of the machine: its registers, pc, output length and number of instructions, and what it
/// handed over.
#[derive(Drop)]
pub struct Ahead {
    epoch: Option<u64>,
    regs: Regs,
    pc: u32,
    out_len: u32,
    instret: u64,
    ring: Ring,
    stopped: bool,
}

impl Model for Ahead {
    ghost use Rattle.diva_ahead.specs.Ahead.{Ahead};

    ghost Value = { Ahead };

    ghost view = { λ a. record {
      epoch = a.epoch;
      regs = a.regs;
      pc = a.pc;
      out_len = a.out_len;
      instret = a.instret;
      ring = a.ring;
      stopped = a.stopped;
    } };

    ghost use Rattle.std.specs.Prelude.{◌<◌, ◌^◌};

    ghost invariant = { λ a. a.out_len < 2 ^ 32 };
}

impl Ahead {
    /// A core that has not taken the machine's state yet. The one error is that memory runs out, and no later call takes
    /// any.
    pub fn new(alloc: Global) -> Result<Self, AllocError>
        ensures { IfOk result (λ a. a ≡ new_ahead) }
    {
        Ok(Ahead {
            epoch: None,
            regs: Regs::new(),
            pc: 0,
            out_len: 0,
            instret: 0,
            ring: Ring::new(alloc)?,
            stopped: false,
        })
    }

    /// A copy of it. The one error is that memory runs out.
    pub fn copied(&self, alloc: Global) -> Result<Self, AllocError>
        ensures { IfOk result (λ a. a ≡ self.now) }
    {
        Ok(Ahead {
            epoch: self.epoch,
            regs: self.regs,
            pc: self.pc,
            out_len: self.out_len,
            instret: self.instret,
            ring: self.ring.copied(alloc)?,
            stopped: self.stopped,
        })
    }

    /// Becomes a copy of another. It takes no memory.
    pub fn copy_from(&mut self, other: &Ahead)
        ensures { self.new ≡ other.now }
    {
        self.epoch = other.epoch;
        self.regs = other.regs;
        self.pc = other.pc;
        self.out_len = other.out_len;
        self.instret = other.instret;
        self.ring.copy_from(&other.ring);
        self.stopped = other.stopped;
    }

    /// Whether the core's state is of this epoch.
    #[inline(always)]
    pub fn is_of(&self, epoch: u64) -> bool
        ensures { result ≡ is_epoch self.now.epoch epoch }
    {
        match self.epoch {
            Some(own) => own == epoch,
            None => false,
        }
    }

    /// The core's registers.
    pub fn regs(&self) -> &Regs
        ensures { result.now ≡ self.now.regs }
    {
        &self.regs
    }

    /// The address of the core's next instruction.
    pub fn pc(&self) -> u32
        ensures { result ≡ self.now.pc }
    {
        self.pc
    }

    /// How many bytes were put, by what was handed over too.
    pub fn out_len(&self) -> u32
        ensures { result ≡ self.now.out_len }
    {
        self.out_len
    }

    /// How many instructions led to where the core stands: the count that it was told when it took the machine's state, and
    /// one for each record that it handed over since.
    pub fn instret(&self) -> u64
        ensures { result ≡ self.now.instret }
    {
        self.instret
    }

    /// What the records did that were handed over.
    pub fn ring(&self) -> &Ring
        ensures { result.now ≡ self.now.ring }
    {
        &self.ring
    }

    /// Whether a record that ends was handed over.
    pub fn stopped(&self) -> bool
        ensures { result ≡ self.now.stopped }
    {
        self.stopped
    }

    /// Takes the machine's state where the epoch that is told differs from the core's own.
    #[inline(always)]
    pub fn sync(&mut self, told: &Told, view: &View<'_>)
        ensures { self.new ≡ synced self.old told.now view.now }
    {
        if !self.is_of(told.epoch) {
            self.begin(
                told.epoch,
                told.count,
                view.regs(),
                view.pc(),
                view.out_len(),
            );
        }
    }

    /// Takes the machine's state: where the machine has flushed, and at first. It gets the parts that it takes, so that the view
    /// can stay in registers.
    #[cold]
    #[inline(never)]
    #[tactic(auto, unfolding(crate::specs::Ahead::taken_over))]
    fn begin(&mut self, epoch: u64, count: u64, regs: &Regs, pc: u32, out_len: u32)
        ensures { (told : Told) (s : State) → told.epoch ≡ epoch → told.count ≡ count → s.regs ≡ regs.now → s.pc ≡ pc → length s.output ≡ out_len
            → self.new ≡ taken_over told s }
    {
        self.epoch = Some(epoch);
        self.regs = *regs;
        self.pc = pc;
        self.out_len = out_len;
        self.instret = count;
        self.ring.clear();
        self.stopped = false;
    }

    /// Drops what is no longer pending.
    #[inline(always)]
    #[tactic(auto, unfolding(crate::specs::Ahead::trimmed))]
    pub fn trim(&mut self, told: &Told)
        ensures trimmed { self.new ≡ trimmed self.old told.now }
        ensures few { length self.new.ring ≤ told.now.pending }
    {
        self.ring.trim(told.pending as usize);
    }

    /// Hands over the record of the core's own state: puts it behind the claims of a list, and stands behind it. There is
    /// room in the ring and in the list.
    #[inline(always)]
    pub fn advance(&mut self, view: &View<'_>, out: &mut Claims)
        requires ring { length self.old.ring < 64 }
        requires list { length out.old < 8 }
        ensures list { out.new ≡ out.old ++ record_of (seen self.old view.now) ∷ [] }
        ensures core { (s : State) → self.new ≡ with_record self.old s (record_of (seen self.old view.now)) }
    {
        let stand = Stand { ahead: self, view };
        let fetched = fetch(&stand);
        let decoded = decoded_of(fetched);
        let Due { record, effect } = due_by(&stand, fetched, decoded);
        // What is handed over is written first: then it needs no registers while the effect is kept.
        out.push(record);
        self.hand_over(&record, effect);
    }

    /// Stands behind a record that is handed over, by its effect. There is room in the ring.
    #[inline(always)]
    #[tactic(auto, using(crate::proofs::Handing::handed_is), unfolding(crate::specs::Effects::done_by))]
    pub fn hand_over(&mut self, r: &Record, effect: Effect)
        requires room { length self.old.ring < 64 }
        requires effect { effect ≡ effect_of r.now }
        requires register { HasRegister effect }
        ensures { (s : State) → self.new ≡ with_record self.old s r.now }
    {
        self.instret = self.instret.wrapping_add(1);
        self.stopped = r.end != 0;
        if r.end != 0 {
            self.ring.push(Effect::Nothing);
            return;
        }
        self.ring.push(effect);
        self.pc = r.next;
        if let Effect::Writes { rd, value } = effect {
            self.regs.set(rd, value);
        } else if let Effect::Puts(_) = effect {
            self.out_len = self.out_len.saturating_add(1);
        }
    }
}
