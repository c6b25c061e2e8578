// One hart: what it has for itself of the committed state, and what is under way. Memory is lent to it, and it changes memory
// only where a store drains.
ghost use Rattle.std.specs.Prelude.{◌≡◌, ◌+◌, ◌-◌, ◌<◌, ◌≤◌, ◌^◌, ◌++◌, [], ℕ, length, IfOk, None, Some, true, false, not, ◌==◌, ◌&&◌, if◌then◌else◌};
ghost use Rattle.diva_decode.specs.Table.{row_of};
ghost use Rattle.diva_isa.specs.End.{end_of, end_number};
ghost use Rattle.diva_isa.specs.State.{output_limit};
ghost use Rattle.diva_isa.specs.Step.{record_of};
ghost use Rattle.diva_memory.specs.Bytes.{Bytes};
ghost use Rattle.diva_image.specs.ImageLayout.{layout};
ghost use Rattle.diva_core.specs.Timed.{Timed};
ghost use Rattle.diva_core.specs.Told.{told_of};
ghost use Rattle.diva_core.specs.Cycle.{commits_under, committed, flushed, watched};
ghost use Rattle.diva_commit.specs.Committing.{AreInside, answer, buffered, is_committed};
ghost use Rattle.diva_hart.specs.HartArch.{seen};
ghost use Rattle.diva_hart.specs.Inner.{JudgesFront, JudgesReady, KeepsBounds, Tells};
ghost use Rattle.diva_hart.specs.Start.{start_of};
ghost use Rattle.diva_duo.specs.Rules.{fences_wait, is_fence_by};
ghost use Rattle.diva_duo.specs.Harts.{memory_drained};
ghost use Rattle.diva_duo.specs.Duo.{drained_hart, hart_cycle, is_hart_over, new_hart, timed};
ghost use Rattle.diva_duo.specs.Inner.{CanCycle, Puts};

use diva_commit::Committed;
use diva_core::{Cause, Claims, Config, FlushRow, Told, View, first_difference};
use diva_decode::Instr;
use diva_hart::{DEPTH, HartArch, Port, UnderWay};
use diva_image::Image;
use diva_isa::{End, Kind, Record, decoded_of, fetch, kind_of, record_by};
use diva_memory::Memory;
use diva_watchdog::Recover;
use std::alloc::{AllocError, Global};
use std::marker::Model;

#[derive(Drop)]
pub(crate) struct Hart {
    arch: HartArch,
    under: UnderWay,
}

impl Model for Hart {
    ghost use Rattle.diva_hart.specs.UnderWay.{config_of, under_of};
    ghost use Rattle.diva_duo.specs.Duo.{Hart};

    ghost Value = { Hart };

    ghost view = { λ h. record { config = config_of h.arch.stores 1 h.under; state = h.arch.state; under = under_of h.under } };
}

impl Hart {
    /// The hart of a number, 0 or 1, that begins with an image. The one error is that memory runs out.
    pub fn new(alloc: Global, image: &Image, config: Config, number: u8) -> Result<Self, AllocError>
        requires { config.port ≡ 1 }
        ensures { IfOk result (λ h. h ≡ new_hart config (start_of (layout image.now)) number) }
    {
        let mut arch = HartArch::new(alloc, image.entry, config.stores() as usize)?;
        arch.set_reg(10, u32::from(number));
        Ok(Hart {
            arch,
            under: UnderWay::new(alloc, config)?,
        })
    }

    /// The state that the hart sees.
    pub fn view<'a>(&'a self, memory: &'a Memory) -> View<'a>
        ensures { result ≡ record (seen memory.now self.now.state) { end = 0 } }
    {
        self.arch.view(memory)
    }

    /// Whether the hart has not ended.
    pub fn goes_on(&self) -> bool
        ensures { result ≡ (self.now.state.end == 0) }
    {
        self.arch.goes_on()
    }

    /// How the hart has ended, if it has.
    pub fn end(&self) -> End
        ensures value { result ≡ end_of self.now.state.end }
        ensures number { end_number result ≡ self.now.state.end }
    {
        self.arch.ended()
    }

    /// How many instructions have committed.
    pub fn count(&self) -> u64
        ensures { result ≡ self.now.state.instret }
    {
        self.arch.count()
    }

    /// What the program put.
    pub fn output(&self) -> &[u8]
        ensures bytes { result.now ≡ self.now.state.output }
        ensures most { length result.now ≤ output_limit }
    {
        self.arch.output()
    }

    /// How many flushes came.
    pub fn flushes(&self) -> u64
        ensures { result ≡ self.now.under.log.flushes }
    {
        self.under.log.flushes()
    }

    /// How many of the flushes were silent.
    pub fn silent(&self) -> u64
        ensures { result ≡ self.now.under.log.silent }
    {
        self.under.log.silent()
    }

    /// The rows of the flushes that are kept.
    pub fn log(&self) -> &[FlushRow]
        ensures { result.now ≡ self.now.under.log.rows }
    {
        self.under.log.rows()
    }

    /// Whether the hart has ended, and its buffer is empty.
    pub fn is_over(&self) -> bool
        ensures { result ≡ is_hart_over self.now }
    {
        !self.arch.goes_on() && self.arch.owed() == 0
    }

    /// What the hart's core is told before the coming cycle, where so many have run.
    pub fn told(&self, cycles: u64) -> Told
        requires width { self.now.config.width ≤ 4 }
        requires cycles { cycles < 2 ^ 63 }
        requires epoch { self.now.under.log.flushes + self.now.under.undos < 2 ^ 63 }
        ensures { result ≡ told_of (timed cycles (record { base = 0; items = [] }) self.now) }
    {
        let always_open = Port::new(1);
        self.under.told(&self.arch, &always_open, cycles)
    }

    /// Phase 1: the oldest store of the buffer goes to memory. Whether there was one.
    pub fn drain(&mut self, memory: &mut Memory) -> bool
        requires { AreInside memory.old self.old.state.buffer }
        ensures memory { memory.new ≡ memory_drained memory.old self.old.state }
        ensures rest { self.new ≡ drained_hart self.old }
        ensures value { result ≡ not (length self.old.state.buffer == 0) }
    {
        let some = self.arch.owed() != 0;
        self.arch.drain(memory);
        some
    }

    /// Drops what is pending, and starts the next instruction on the checker alone.
    #[cold]
    #[tactic(auto, unfolding(diva_core::specs::Cycle::flushed))]
    fn flush(&mut self, cycles: u64, cause: Cause)
        requires flushes { self.old.under.log.flushes < 2 ^ 63 }
        requires silent { self.old.under.log.silent < 2 ^ 63 }
        ensures timed { (memory : Bytes) → timed cycles memory self.new ≡ flushed (timed cycles memory self.old) cause }
        ensures state { self.new.state ≡ self.old.state }
    {
        let count = self.arch.count();
        self.under.flush(cycles, count, cause);
    }

    /// Whether an equal claim waits by the rule that two harts alone have: it is a FENCE, and the buffer is not empty. `decoded` is what
    /// its word says.
    fn fence_waits(&self, decoded: Option<Instr>) -> bool
        ensures { result ≡ (is_fence_by decoded && not (length self.now.state.buffer == 0)) }
    {
        let is_fence = match decoded {
            Some(i) => matches!(kind_of(i.op), Kind::Fence),
            None => false,
        };
        is_fence && self.arch.owed() != 0
    }

    /// The next instruction commits by its due record, unless it is a store for which the buffer has no room.
    #[tactic(auto, unfolding(diva_core::specs::Cycle::committed))]
    fn settle(&mut self, memory: &Memory, decoded: Option<Instr>, due: &Record) -> Committed
        requires goes_on { self.old.state.end ≡ 0 }
        requires decoded { decoded ≡ row_of due.now.word }
        requires due { due.now ≡ record_of (seen memory.now self.old.state) }
        requires count { self.old.state.instret < 2 ^ 62 }
        ensures answer { result ≡ answer None due.now (length self.old.state.buffer == self.old.config.stores) }
        ensures room { length self.old.state.buffer < self.old.config.stores → is_committed result ≡ true }
        ensures stays { is_committed result ≡ false → self.new ≡ self.old }
        ensures timed { (cycles : ℕ) → is_committed result ≡ true
            → timed cycles memory.now self.new ≡ committed (timed cycles memory.now self.old) due.now }
        ensures buffer { is_committed result ≡ true → self.new.state.buffer ≡ self.old.state.buffer ++ buffered due.now }
        ensures count { is_committed result ≡ true → self.new.state.instret ≡ self.old.state.instret + 1 }
        ensures under { self.new.under ≡ self.old.under }
    {
        self.arch.commit(memory, decoded, due, None)
    }

    /// Judges the front claim, if it is ready: whether it committed and the hart goes on, so that another may be judged. It is judged by
    /// the state as it now stands, word and loaded value included, since the other hart's stores have changed memory meanwhile.
    #[tactic(auto, using(crate::proofs::Growing::puts_none))]
    fn judge_front(&mut self, memory: &Memory, cycles: u64) -> bool
        requires goes_on { self.old.state.end ≡ 0 }
        requires running { self.old.under.solo ≡ None }
        requires owed { length self.old.state.buffer ≤ self.old.config.stores }
        requires count { self.old.state.instret < 2 ^ 62 }
        requires flushes { self.old.under.log.flushes < 2 ^ 63 }
        requires silent { self.old.under.log.silent < 2 ^ 63 }
        ensures judges { JudgesFront fences_wait (timed cycles memory.now self.old) (timed cycles memory.now self.new) result }
        ensures buffer { Puts memory.now self.old self.new }
    {
        let Some(front) = self.under.pending.front() else {
            return false;
        };
        if cycles.saturating_sub(front.cycle) < DEPTH {
            return false;
        }
        let claim = front.claim;
        let (due, decoded) = due_of(&self.view(memory));
        if let Some(diff) = first_difference(&claim, &due) {
            self.flush(cycles, Cause::Differs(diff));
            return false;
        }
        if self.fence_waits(decoded) {
            return false;
        }
        if !self.settle(memory, decoded, &due).is_committed() {
            return false;
        }
        self.under.leave_front(&self.arch);
        self.arch.goes_on()
    }

    /// Judges at most `n` ready claims, oldest first.
    fn judge(&mut self, memory: &Memory, cycles: u64, n: u32)
        requires width { n ≤ 4 }
        requires goes_on { self.old.state.end ≡ 0 }
        requires running { self.old.under.solo ≡ None }
        requires owed { length self.old.state.buffer ≤ self.old.config.stores }
        requires count { self.old.state.instret + 4 ≤ 2 ^ 62 }
        requires flushes { self.old.under.log.flushes < 2 ^ 62 }
        requires silent { self.old.under.log.silent < 2 ^ 62 }
        ensures judges { JudgesReady fences_wait n (timed cycles memory.now self.old) (timed cycles memory.now self.new) }
        ensures buffer { Puts memory.now self.old self.new }
    {
        for i in 0..n {
            if !self.judge_front(memory, cycles) {
                return;
            }
        }
    }

    /// Phase 2: what is ready commits, at most `width` claims or the solo instruction.
    #[tactic(auto, unfolding(diva_core::specs::Cycle::commits_under), using(crate::proofs::Growing::puts_none))]
    fn commits(&mut self, memory: &Memory, cycles: u64)
        requires width { self.old.config.width ≤ 4 }
        requires goes_on { self.old.state.end ≡ 0 }
        requires owed { length self.old.state.buffer < self.old.config.stores }
        requires count { self.old.state.instret + 4 ≤ 2 ^ 62 }
        requires flushes { self.old.under.log.flushes < 2 ^ 62 }
        requires silent { self.old.under.log.silent < 2 ^ 62 }
        ensures commits { timed cycles memory.now self.new ≡ commits_under fences_wait (timed cycles memory.now self.old) }
        ensures tells { self.old.under.solo ≡ None → Tells (timed cycles memory.now self.old) (timed cycles memory.now self.new) }
        ensures counted { self.old.state.instret ≤ self.new.state.instret }
        ensures few { self.new.state.instret ≤ self.old.state.instret + 4 }
        ensures buffer { Puts memory.now self.old self.new }
        ensures bounds { KeepsBounds (timed cycles memory.now self.old) (timed cycles memory.now self.new) }
    {
        match self.under.recover {
            Recover::Running => self.judge(memory, cycles, self.under.width),
            Recover::Solo(start) => {
                if cycles >= DEPTH && cycles - DEPTH == start {
                    let (due, decoded) = due_of(&self.view(memory));
                    self.under.recover = Recover::Running;
                    self.settle(memory, decoded, &due);
                }
            }
        }
    }

    /// Phase 5: the watchdog. `count` instructions were counted before the cycle.
    #[tactic(auto, unfolding(diva_core::specs::Cycle::watched))]
    fn watch(&mut self, cycles: u64, count: u64)
        requires limit { 1 ≤ self.old.config.limit }
        requires idle { self.old.under.idle < 2 ^ 31 }
        requires flushes { self.old.under.log.flushes < 2 ^ 63 }
        requires silent { self.old.under.log.silent < 2 ^ 63 }
        ensures watched { (memory : Bytes) (before : Timed) → before.count ≡ count
            → timed cycles memory self.new ≡ watched before (timed cycles memory self.old) }
        ensures state { self.new.state ≡ self.old.state }
    {
        if self.under.tick(&self.arch, self.arch.count() != count) {
            let limit = self.under.watchdog.limit();
            self.flush(cycles, Cause::Silent(limit));
        }
    }

    /// Phases 2 to 5.
    pub fn cycle(&mut self, memory: &Memory, cycles: u64, list: &Claims)
        requires { CanCycle self.old }
        ensures cycled { self.new ≡ hart_cycle cycles memory.now list.now self.old }
        ensures counted { self.old.state.instret ≤ self.new.state.instret }
        ensures few { self.new.state.instret ≤ self.old.state.instret + 4 }
    {
        if !self.arch.goes_on() {
            return;
        }
        let room = self.under.room(&self.arch);
        let count = self.arch.count();
        self.commits(memory, cycles);
        self.under.accept(&self.arch, list, room, cycles);
        self.watch(cycles, count);
    }
}

/// The record that is due in a state, and what its word says: it is decoded once.
#[inline(always)]
fn due_of(view: &View<'_>) -> (Record, Option<Instr>)
    ensures record { result.0 ≡ record_of view.now }
    ensures decoded { result.1 ≡ row_of result.0.word }
{
    let fetched = fetch(view);
    let decoded = decoded_of(fetched);
    (record_by(view, fetched, decoded), decoded)
}
