// The parts of the machine, and the phases of a cycle over them. What holds between two cycles need
// not hold between two phases, so the bounds are asked for where they are needed.
//
// In most cycles nothing is ready. So what each cycle does stands in the loop that drives the
// machine (`inline(always)`), and what few cycles do is called (`inline(never)`, `cold`).
ghost use Rattle.std.specs.Prelude.{◌≡◌, ◌+◌, ◌-◌, ◌<◌, ◌≤◌, ◌^◌, ◌++◌, [], ◌∷◌, ℕ, List, length, map, min, take, slice_get, None, Some, IfOk, true, false, not, ◌==◌, ◌&&◌, if◌then◌else◌};
ghost use Rattle.diva_isa.specs.declared.record.Record.{Record};
ghost use Rattle.diva_isa.specs.State.{goes_on, GoesOn};
ghost use Rattle.diva_isa.specs.Step.{apply, record_of, steps};
ghost use Rattle.diva_image.specs.ImageLayout.{layout};
ghost use Rattle.diva_decode.specs.Table.{row_of};
ghost use Rattle.diva_core.specs.Timed.{Timed, depth, epoch_of, new_timed, room_of};
ghost use Rattle.diva_core.specs.Told.{told_of};
ghost use Rattle.diva_core.specs.Undone.{CanUndo, undone};
ghost use Rattle.diva_core.specs.declared.pending.Entry.{Entry};
ghost use Rattle.diva_core.specs.Entries.{pending_claim_of};
ghost use Rattle.diva_core.specs.Future.{IsFuture, committed_file};
ghost use Rattle.diva_core.specs.Older.{before_entry};
ghost use Rattle.diva_core.specs.Machine.{IsMachine, IsConfig};
ghost use Rattle.diva_core.specs.Headline.{dues};
ghost use Rattle.diva_core.specs.Cycle.{Commit, accepted_in, accepts, commits_under, committed, cycle_of, drained, flushed, number, port_opens, stores_wait, watched, with_pending, without_solo};
ghost use Rattle.diva_core.specs.declared.flushes.Cause.TheVariants.{Silent};
ghost use Rattle.diva_commit.specs.Committing.{answer, is_committed};
ghost use Rattle.diva_hart.specs.Start.{start_of};
ghost use Rattle.diva_hart.specs.UnderWay.{takes_claims};
ghost use Rattle.diva_hart.specs.Inner.{JudgesFront, JudgesReady, KeepsBounds, Tells};
ghost use Rattle.diva_vote.specs.Questions.{Question};
ghost use Rattle.diva_machine.specs.Asked.{asked_at, asked_in, asked_of};
ghost use Rattle.diva_machine.specs.Staged.{last_stage, IsFilled, IsSoloFilled, IsStaged};
ghost use Rattle.diva_machine.specs.Inner.{left, IsAdvanced};

use crate::arch::Arch;
use crate::stages::{LAST_STAGE, Stages, fill};
use diva_commit::Committed;
use diva_core::{Cause, Claims, Config, Entry, FutureFile, Records, Told};
use diva_decode::decode;
use diva_hart::{DEPTH, Port, UnderWay};
use diva_image::Image;
use diva_isa::{Record, Undo};
use diva_watchdog::Recover;
use std::alloc::{AllocError, Global};
use std::marker::Model;

#[derive(Drop)]
pub(crate) struct Parts {
    pub(crate) arch: Arch,
    port: Port,
    pub(crate) cycles: u64,
    /// The pending claims, the solo instruction, the watchdog, the log, and the number of undos.
    pub(crate) under: UnderWay,
    /// How many of the pending claims, the oldest, are past the last stage.
    passed: usize,
    future: FutureFile,
    /// The record of the solo instruction, as far as the stages have filled it.
    filled: Record,
    /// What the last cycle committed.
    pub(crate) last: Records<4>,
}

impl Model for Parts {
    ghost use Rattle.diva_hart.specs.UnderWay.{timed_of};
    ghost use Rattle.diva_machine.specs.Staged.{Parts};

    ghost Value = { Parts };

    ghost view = { λ m. record {
      timed = timed_of m.arch.state m.arch.owed m.arch.stores m.port m.cycles m.under;
      last = m.last;
      entries = m.under.pending.items;
      passed = m.passed;
      future = m.future;
      filled = m.filled;
    } };
}

impl Parts {
    /// The parts of a new machine. All memory is taken here.
    pub fn new(alloc: Global, image: &Image, config: Config) -> Result<Self, AllocError>
        ensures timed { IfOk result (λ m. m.timed ≡ new_timed config (start_of (layout image.now))) }
        ensures config { IfOk result (λ m. IsConfig m.timed.config) }
        ensures last { IfOk result (λ m. m.last ≡ []) }
        ensures entries { IfOk result (λ m. m.entries ≡ []) }
        ensures passed { IfOk result (λ m. m.passed ≡ 0) }
        ensures future { IfOk result (λ m. m.future ≡ committed_file (start_of (layout image.now)).regs) }
    {
        Ok(Parts {
            arch: Arch::new(alloc, image, config.stores() as usize)?,
            port: Port::new(config.port()),
            cycles: 0,
            under: UnderWay::new(alloc, config)?,
            passed: 0,
            future: FutureFile::new(),
            filled: Record::default(),
            last: Records::new(),
        })
    }

    /// Become a copy of the parts of a machine with the same numbers, and memory of the same size. It takes no memory.
    pub fn copy_from(&mut self, other: &Parts)
        requires config { self.old.timed.config ≡ other.now.timed.config }
        requires size { length self.old.timed.arch.bytes ≡ length other.now.timed.arch.bytes }
        ensures { self.new ≡ other.now }
    {
        self.arch.copy_from(&other.arch);
        self.port.copy_from(&other.port);
        self.cycles = other.cycles;
        self.under.copy_from(&other.under);
        self.passed = other.passed;
        self.future.copy_from(&other.future);
        self.filled = other.filled;
        self.last.copy_from(&other.last);
    }

    /// How many claims the coming cycle accepts at most.
    pub fn room(&self) -> usize
        ensures { result ≡ room_of self.now.timed }
    {
        self.under.room(self.arch.own())
    }

    /// What a core is told before the coming cycle.
    #[inline(always)]
    pub fn told(&self) -> Told
        requires width { self.now.timed.config.width ≤ 4 }
        requires cycles { self.now.timed.cycles < 2 ^ 63 }
        requires epoch { epoch_of self.now.timed < 2 ^ 63 }
        ensures { result ≡ told_of self.now.timed }
    {
        self.under.told(self.arch.own(), &self.port, self.cycles)
    }

    /// The same of a machine that goes on.
    #[inline(always)]
    pub fn told_going_on(&self) -> Told
        requires goes_on { goes_on self.now.timed.arch ≡ true }
        requires width { self.now.timed.config.width ≤ 4 }
        requires cycles { self.now.timed.cycles < 2 ^ 63 }
        requires epoch { epoch_of self.now.timed < 2 ^ 63 }
        ensures { result ≡ told_of self.now.timed }
    {
        self.under
            .told_where(self.arch.own(), true, &self.port, self.cycles)
    }

    /// Takes the last instruction back, which overwrote `u`.
    #[tactic(auto, unfolding(diva_core::specs::Undone::undone, diva_isa::specs::Undo::restore))]
    pub fn undo(&mut self, u: &Undo)
        requires last { CanUndo self.old.timed u.now }
        requires undos { self.old.timed.under.undos < 2 ^ 63 }
        ensures { self.new ≡ record self.old {
          timed = undone self.old.timed u.now;
          entries = [];
          passed = 0;
          future = committed_file (undone self.old.timed u.now).arch.regs;
        } }
    {
        self.arch.restore(u);
        self.under.undo();
        self.passed = 0;
        self.future.reset(self.arch.regs());
    }

    /// The pending claim at a place, the oldest being at 0.
    pub fn entry(&self, at: usize) -> Entry
        requires { at < length self.now.timed.under.pending }
        ensures entry { slice_get self.now.entries at ≡ Some result }
        ensures waits { slice_get self.now.timed.under.pending at ≡ Some (pending_claim_of result) }
    {
        self.under.pending.entry(at)
    }

    /// Whether the machine has not ended.
    pub fn goes_on(&self) -> bool
        ensures { result ≡ goes_on self.now.timed.arch }
    {
        self.arch.goes_on()
    }

    /// Forgets what the last cycle committed.
    pub fn forget_last(&mut self)
        ensures { self.new ≡ record self.old { last = [] } }
    {
        self.last.clear();
    }

    /// Recalls for a proof that nothing is pending in as many places as there is room for. It does nothing.
    #[inline(always)]
    fn recall_room(&self, count: usize)
        requires { count ≤ room_of self.now.timed }
        ensures { count ≤ self.now.timed.config.window - length self.now.timed.under.pending }
    {
        let _ = count;
    }

    /// Phase 1: where the port opens, the oldest owed store goes to memory.
    #[inline(always)]
    #[tactic(auto, unfolding(diva_core::specs::Cycle::drained))]
    fn drain(&mut self)
        ensures { self.new ≡ record self.old { timed = drained self.old.timed } }
    {
        if self.arch.owes() && (self.port.is_always_open() || self.port_opens()) {
            self.arch.drain();
        }
    }

    /// Whether the port opens in this cycle, where it does not in each.
    #[cold]
    #[inline(never)]
    fn port_opens(&mut self) -> bool
        ensures opens { result ≡ port_opens self.old.timed }
        ensures same { self.new ≡ self.old }
    {
        self.port.opens(self.cycles)
    }

    /// Drops what is pending, and starts the next instruction on the checker alone.
    #[cold]
    #[tactic(auto, unfolding(diva_core::specs::Cycle::flushed))]
    fn flush(&mut self, cause: Cause)
        requires flushes { self.old.timed.under.log.flushes < 2 ^ 63 }
        requires silent { self.old.timed.under.log.silent < 2 ^ 63 }
        ensures { self.new ≡ record self.old {
          timed = flushed self.old.timed cause;
          entries = [];
          passed = 0;
          future = committed_file self.old.timed.arch.regs;
        } }
    {
        self.passed = 0;
        self.future.reset(self.arch.regs());
        self.under.flush(self.cycles, self.arch.count(), cause);
    }

    /// Judges the front claim by its verdict, and commits it where there is none. It stays at the front.
    #[inline(always)]
    #[tactic(auto, unfolding(diva_core::specs::Cycle::committed))]
    fn settle_front(&mut self) -> Committed
        requires there { 0 < length self.old.entries }
        requires goes_on { GoesOn self.old.timed.arch }
        requires due { (e : Entry) → slice_get self.old.entries 0 ≡ Some e → e.verdict ≡ None
            → e.claim ≡ record_of self.old.timed.arch }
        requires decoded { (e : Entry) → slice_get self.old.entries 0 ≡ Some e
            → e.decoded ≡ row_of e.claim.word }
        requires count { self.old.timed.count < 2 ^ 62 }
        requires last { length self.old.last < 4 }
        ensures answer { (e : Entry) → slice_get self.old.entries 0 ≡ Some e
            → result ≡ answer e.verdict e.claim (self.old.timed.owed == self.old.timed.config.stores) }
        ensures stays { is_committed result ≡ false → self.new ≡ self.old }
        ensures commits { (e : Entry) → slice_get self.old.entries 0 ≡ Some e → is_committed result ≡ true
            → self.new ≡ record self.old {
              timed = committed self.old.timed e.claim;
              last = self.old.last ++ e.claim ∷ [];
            } }
    {
        let front = self.under.pending.at(0);
        let answer = self.arch.commit(front.decoded, &front.claim, front.verdict);
        if answer.is_committed() {
            self.last.push(front.claim);
        }
        answer
    }

    /// Takes out the front claim, which has committed, and all others where that ended the machine. Whether the machine goes on.
    #[inline(always)]
    fn leave_front(&mut self) -> bool
        requires there { 0 < length self.old.entries }
        requires passed { 0 < self.old.passed }
        ensures answer { result ≡ goes_on self.old.timed.arch }
        ensures left { self.new ≡ left (goes_on self.old.timed.arch) self.old }
    {
        self.under.leave_front(self.arch.own());
        if !self.arch.goes_on() {
            self.passed = 0;
            self.future.reset(self.arch.regs());
            return false;
        }
        self.passed -= 1;
        self.future.leave(self.arch.regs());
        true
    }

    /// Judges the front claim, which is ready: whether it committed and the machine goes on, so that another may be judged.
    #[inline(always)]
    #[tactic(auto, using(crate::proofs::Staging::filled_young), unfolding(diva_core::specs::Cycle::committed, diva_core::specs::Cycle::flushed))]
    fn judge_front(&mut self) -> bool
        requires ready { 0 < self.old.passed }
        requires goes_on { GoesOn self.old.timed.arch }
        requires owed { self.old.timed.owed ≤ self.old.timed.config.stores }
        requires count { self.old.timed.count < 2 ^ 62 }
        requires flushes { self.old.timed.under.log.flushes < 2 ^ 63 }
        requires silent { self.old.timed.under.log.silent < 2 ^ 63 }
        requires last { length self.old.last < 4 }
        requires cycles { 1 ≤ self.old.timed.cycles }
        requires running { self.old.timed.under.solo ≡ None }
        requires staged { IsStaged (self.old.timed.cycles - 1) self.old }
        ensures judges { JudgesFront stores_wait self.old.timed self.new.timed result }
        ensures last { self.new.last
            ≡ self.old.last ++ dues (self.new.timed.count - self.old.timed.count) self.old.timed.arch }
        ensures staged { IsStaged (self.new.timed.cycles - 1) self.new }
        ensures solo { IsSoloFilled self.new.timed.cycles self.new }
    {
        if let Some(diff) = self.under.pending.at(0).verdict {
            self.flush(Cause::Differs(diff));
            return false;
        }
        if !self.settle_front().is_committed() {
            return false;
        }
        self.leave_front()
    }

    /// Judges at most `n` ready claims, oldest first.
    #[inline(always)]
    fn judge(&mut self, n: u32)
        requires width { n ≤ 4 }
        requires goes_on { GoesOn self.old.timed.arch }
        requires owed { self.old.timed.owed ≤ self.old.timed.config.stores }
        requires count { self.old.timed.count + 4 ≤ 2 ^ 62 }
        requires flushes { self.old.timed.under.log.flushes < 2 ^ 62 }
        requires silent { self.old.timed.under.log.silent < 2 ^ 62 }
        requires last { self.old.last ≡ [] }
        requires cycles { 1 ≤ self.old.timed.cycles }
        requires running { self.old.timed.under.solo ≡ None }
        requires staged { IsStaged (self.old.timed.cycles - 1) self.old }
        ensures judges { JudgesReady stores_wait n self.old.timed self.new.timed }
        ensures last { self.new.last
            ≡ dues (self.new.timed.count - self.old.timed.count) self.old.timed.arch }
        ensures staged { IsStaged (self.new.timed.cycles - 1) self.new }
        ensures solo { IsSoloFilled self.new.timed.cycles self.new }
    {
        let mut at = 0;
        while self.passed > 0 && at < n {
            if !self.judge_front() {
                return;
            }
            at += 1;
        }
    }

    /// Phase 2: what is ready commits, at most `width` claims or the solo instruction.
    #[inline(always)]
    #[tactic(auto, using(crate::proofs::Verdicts::filled_whole), unfolding(diva_core::specs::Cycle::commits_under, diva_core::specs::Cycle::committed))]
    fn commits(&mut self)
        requires width { self.old.timed.config.width ≤ 4 }
        requires goes_on { GoesOn self.old.timed.arch }
        requires owed { self.old.timed.owed ≤ self.old.timed.config.stores }
        requires count { self.old.timed.count + 4 ≤ 2 ^ 62 }
        requires flushes { self.old.timed.under.log.flushes < 2 ^ 62 }
        requires silent { self.old.timed.under.log.silent < 2 ^ 62 }
        requires last { self.old.last ≡ [] }
        requires cycles { 1 ≤ self.old.timed.cycles }
        requires alone { (start : ℕ) → self.old.timed.under.solo ≡ Some start
            → (self.old.timed.under.pending ≡ []) × (start < self.old.timed.cycles) }
        requires passes { (start : ℕ) → self.old.timed.under.solo ≡ Some start → self.old.timed.cycles ≡ start + depth
            → stores_wait self.old.timed.config.stores self.old.timed.owed (record_of self.old.timed.arch) ≡ false }
        requires staged { IsStaged (self.old.timed.cycles - 1) self.old }
        requires solo { IsSoloFilled (self.old.timed.cycles - 1) self.old }
        ensures timed { self.new.timed ≡ commits_under stores_wait self.old.timed }
        ensures tells { self.old.timed.under.solo ≡ None → Tells self.old.timed self.new.timed }
        ensures counted { self.old.timed.count ≤ self.new.timed.count }
        ensures last { self.new.last
            ≡ dues (self.new.timed.count - self.old.timed.count) self.old.timed.arch }
        ensures bounds { KeepsBounds self.old.timed self.new.timed }
        ensures staged { IsStaged (self.new.timed.cycles - 1) self.new }
        ensures solo { IsSoloFilled self.new.timed.cycles self.new }
    {
        match self.under.recover {
            Recover::Running if self.passed > 0 => self.judge(self.under.width),
            Recover::Running => {}
            Recover::Solo(start) => {
                let age = self.cycles.saturating_sub(start);
                if age == DEPTH {
                    self.commit_solo();
                } else {
                    self.fill_solo(age);
                }
            }
        }
    }

    /// The record of the solo instruction gets the fields of its age.
    #[cold]
    fn fill_solo(&mut self, age: u64)
        requires { 1 ≤ age }
        ensures rest { self.new ≡ record self.old { filled = self.new.filled } }
        ensures filled { GoesOn self.old.timed.arch → IsFilled self.old.timed.arch (age - 1) self.old.filled
            → IsFilled self.old.timed.arch age self.new.filled }
    {
        fill(&mut self.filled, &self.arch.view(), age);
    }

    /// The solo instruction commits.
    #[cold]
    #[tactic(auto, unfolding(diva_core::specs::Cycle::committed))]
    fn commit_solo(&mut self)
        requires goes_on { GoesOn self.old.timed.arch }
        requires due { self.old.filled ≡ record_of self.old.timed.arch }
        requires passes { stores_wait self.old.timed.config.stores self.old.timed.owed (record_of self.old.timed.arch) ≡ false }
        requires count { self.old.timed.count < 2 ^ 62 }
        requires last { length self.old.last < 4 }
        ensures { self.new ≡ record self.old {
          timed = committed (without_solo self.old.timed) self.old.filled;
          last = self.old.last ++ self.old.filled ∷ [];
          future = committed_file (apply self.old.timed.arch self.old.filled).regs;
        } }
    {
        self.arch
            .commit(decode(self.filled.word), &self.filled, None);
        self.future.reset(self.arch.regs());
        self.under.recover = Recover::Running;
        self.last.push(self.filled);
    }

    /// Phase 3: each claim that is not past the last stage passes through the one of its age.
    #[inline(always)]
    fn advance<S: Stages>(&mut self, stages: &mut S)
        requires cycles { 1 ≤ self.old.timed.cycles }
        requires staged { IsStaged (self.old.timed.cycles - 1) self.old }
        requires stages_sound { S.sound stages.old }
        ensures stages_sound { S.sound stages.new }
        ensures led { (first : S) (before : List Question) → S.led first before stages.old
            → S.led first (before ++ asked_in self.old.timed.cycles (record self.old.timed.arch { end = 0 }) self.old.timed.under.pending) stages.new }
        ensures rest { self.new ≡ record self.old { entries = self.new.entries; passed = self.new.passed; future = self.new.future } }
        ensures staged { IsStaged self.new.timed.cycles self.new }
    {
        if self.passed < self.under.pending.len() {
            self.pass_stages(stages);
        }
    }

    #[inline(always)]
    fn pass_stages<S: Stages>(&mut self, stages: &mut S)
        requires cycles { 1 ≤ self.old.timed.cycles }
        requires staged { IsStaged (self.old.timed.cycles - 1) self.old }
        requires some { self.old.passed < length self.old.entries }
        requires stages_sound { S.sound stages.old }
        ensures stages_sound { S.sound stages.new }
        ensures led { (first : S) (before : List Question) → S.led first before stages.old
            → S.led first (before ++ asked_in self.old.timed.cycles (record self.old.timed.arch { end = 0 }) self.old.timed.under.pending) stages.new }
        ensures rest { self.new ≡ record self.old { entries = self.new.entries; passed = self.new.passed; future = self.new.future } }
        ensures staged { IsStaged self.new.timed.cycles self.new }
    {
        // The buffer asks for its length at each look-up: this test serves both.
        let mut at = self.passed;
        while at < self.under.pending.len() {
            self.pass_stage(at, stages);
            at += 1;
        }
    }

    /// The claim at a place passes through the stage of its age.
    #[inline(always)]
    fn pass_stage<S: Stages>(&mut self, at: usize, stages: &mut S)
        requires place { at < length self.old.entries }
        requires few { at < 64 }
        requires passed { self.old.passed ≤ at }
        requires aged { (e : Entry) → slice_get self.old.entries at ≡ Some e → e.cycle < self.old.timed.cycles }
        requires young { (e : Entry) → slice_get self.old.entries at ≡ Some e → self.old.timed.cycles ≤ e.cycle + last_stage }
        requires future { IsFuture self.old.timed.arch self.old.entries self.old.future }
        requires stages_sound { S.sound stages.old }
        ensures stages_sound { S.sound stages.new }
        ensures led { (e : Entry) (first : S) (before : List Question) → slice_get self.old.entries at ≡ Some e
            → S.led first before stages.old
            → S.led first
            (before ++ asked_at (self.old.timed.cycles - e.cycle)
            (before_entry (record self.old.timed.arch { end = 0 }) self.old.entries at) e.claim) stages.new }
        ensures rest { self.new ≡ record self.old { entries = self.new.entries; passed = self.new.passed; future = self.new.future } }
        ensures waits { map pending_claim_of self.new.entries ≡ map pending_claim_of self.old.entries }
        ensures passed { (e : Entry) → slice_get self.old.entries at ≡ Some e → self.new.passed
            ≡ self.old.passed + number (self.old.timed.cycles == e.cycle + last_stage) }
        ensures future { IsFuture self.new.timed.arch self.new.entries self.new.future }
        ensures advanced { (now : ℕ)
            → self.old.timed.cycles ≡ now + 1
            → IsAdvanced self.old.timed.arch now at self.old.entries
            → IsAdvanced self.old.timed.arch now (at + 1) self.new.entries }
    {
        let age = age_in(self.cycles, self.under.pending.at(at).cycle);
        stages.pass(
            &mut self.under.pending,
            &mut self.future,
            at,
            &self.arch,
            age,
        );
        if age == LAST_STAGE {
            self.passed += 1;
        }
    }

    /// Phase 4: the first claims of a list, so many at most, become pending, where any may.
    #[inline(always)]
    fn accept(&mut self, list: &Claims, most: usize)
        requires room { length self.old.timed.under.pending + min most (length list.now) ≤ self.old.timed.config.window }
        ensures timed { self.new.timed ≡ with_pending self.old.timed (self.old.timed.under.pending
            ++ map (accepted_in self.old.timed.cycles) (if takes_claims self.old.timed then take (min most (length list.now)) list.now else [])) }
        ensures rest { self.new ≡ record self.old { timed = self.new.timed; entries = self.new.entries } }
        ensures staged { IsStaged self.old.timed.cycles self.old → IsStaged self.new.timed.cycles self.new }
        ensures solo { IsSoloFilled self.old.timed.cycles self.old → IsSoloFilled self.new.timed.cycles self.new }
    {
        self.under.accept(self.arch.own(), list, most, self.cycles);
    }

    /// Phase 5: the watchdog. `committed` tells whether the cycle counted an instruction.
    #[tactic(auto, unfolding(diva_core::specs::Cycle::watched))]
    fn watch(&mut self, committed: bool)
        requires limit { 1 ≤ self.old.timed.config.limit }
        requires idle { self.old.timed.under.idle < 2 ^ 31 }
        requires flushes { self.old.timed.under.log.flushes < 2 ^ 63 }
        requires silent { self.old.timed.under.log.silent < 2 ^ 63 }
        ensures timed { (before : Timed)
            → (self.old.timed.count == before.count) ≡ not committed
            → self.new.timed ≡ watched before self.old.timed }
        ensures last { self.new.last ≡ self.old.last }
        ensures staged { IsStaged self.old.timed.cycles self.old → IsStaged self.new.timed.cycles self.new }
        ensures solo { IsSoloFilled self.old.timed.cycles self.old → IsSoloFilled self.new.timed.cycles self.new }
    {
        if self.under.tick(self.arch.own(), committed) {
            self.bark();
        }
    }

    /// Flushes since nothing has committed for too long.
    #[cold]
    #[inline(never)]
    fn bark(&mut self)
        requires flushes { self.old.timed.under.log.flushes < 2 ^ 63 }
        requires silent { self.old.timed.under.log.silent < 2 ^ 63 }
        ensures { self.new ≡ record self.old {
          timed = flushed self.old.timed (Silent self.old.timed.config.limit);
          entries = [];
          passed = 0;
          future = committed_file self.old.timed.arch.regs;
        } }
    {
        let limit = self.under.watchdog.limit();
        self.flush(Cause::Silent(limit));
    }

    /// One cycle of a machine that goes on, and has room for as many claims of the list as there are up to `most`. Answers whether
    /// an instruction may have committed: `false` only where none did.
    #[inline(always)]
    #[tactic(auto, unfolding(diva_core::specs::Cycle::cycle_under, diva_core::specs::Cycle::drained, diva_core::specs::Cycle::accepts))]
    pub fn cycle<S: Stages>(&mut self, list: &Claims, most: usize, stages: &mut S) -> bool
        requires goes_on { GoesOn self.old.timed.arch }
        requires count { min most (length list.now) ≡ min (room_of self.old.timed) (length list.now) }
        requires machine { IsMachine self.old.timed }
        requires cycles { self.old.timed.cycles < 2 ^ 60 }
        requires staged { IsStaged self.old.timed.cycles self.old }
        requires solo { IsSoloFilled self.old.timed.cycles self.old }
        requires stages_sound { S.sound stages.old }
        ensures stages_sound { S.sound stages.new }
        ensures led { (first : S) (before : List Question) → S.led first before stages.old
            → S.led first (before ++ asked_of self.old.timed) stages.new }
        ensures timed { self.new.timed ≡ cycle_of self.old.timed list.now }
        ensures last { self.new.last
            ≡ dues (self.new.timed.count - self.old.timed.count) self.old.timed.arch }
        ensures none { result ≡ false → self.new.last ≡ [] }
        ensures staged { IsStaged self.new.timed.cycles self.new }
        ensures solo { IsSoloFilled self.new.timed.cycles self.new }
    {
        self.recall_room(list.len().min(most));
        self.forget_last();
        self.cycles += 1;
        self.drain();
        self.commits();
        self.advance(stages);
        self.accept(list, most);
        let committed = !self.last.is_empty();
        self.watch(committed);
        committed
    }
}

/// The age, in a cycle, of a claim that was accepted in an earlier one, and is not past the last stage. It is below 8 for the
/// compiler too, which then looks a stage up by it without a test.
#[inline(always)]
fn age_in(cycle: u64, accepted: u64) -> u64
    requires earlier { accepted < cycle }
    requires young { cycle ≤ accepted + last_stage }
    ensures { result + accepted ≡ cycle }
{
    (cycle - accepted) % 8
}
