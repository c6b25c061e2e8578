// The machine between cycles.
ghost use Rattle.std.specs.Prelude.{◌≡◌, ◌↔◌, ◌-◌, ◌<◌, ◌≤◌, ◌^◌, ◌++◌, [], List, length, map, not, slice_get, None, Some, IsNone, IfOk, IsTrue, true, false};
ghost use Rattle.diva_isa.specs.State.{goes_on, output_limit};
ghost use Rattle.diva_isa.specs.End.{end_of, end_number};
ghost use Rattle.diva_image.specs.ImageLayout.{layout};
ghost use Rattle.diva_core.specs.Entries.{pending_claim_of};
ghost use Rattle.diva_core.specs.Older.{before_entry};
ghost use Rattle.diva_core.specs.Timed.{new_timed, room_of};
ghost use Rattle.diva_core.specs.Told.{told_of};
ghost use Rattle.diva_core.specs.Undone.{CanUndo, undone};
ghost use Rattle.diva_core.specs.Cycle.{cycle_of};
ghost use Rattle.diva_core.specs.Machine.{IsMachine};
ghost use Rattle.diva_core.specs.Headline.{HasPace, WillCount, dues};
ghost use Rattle.diva_core.specs.Right.{IsCalm};
ghost use Rattle.diva_hart.specs.Start.{start_of};
ghost use Rattle.diva_vote.specs.Polls.{AlwaysTwoAreRight, ArePolledAndCounted};
ghost use Rattle.diva_vote.specs.Questions.{Question};
ghost use Rattle.diva_machine.specs.Asked.{asked_of};
ghost use Rattle.diva_machine.specs.Cycles.{IsCycle};
ghost use Rattle.diva_machine.specs.Staged.{AreChecked, IsChecked};

use crate::panel::Panel;
use crate::parts::Parts;
use crate::stages::{Checks, Stages};
use diva_core::{Claims, Config, Entry, FlushRow, Told, View};
use diva_image::Image;
use diva_isa::{End, Record, Undo};
use diva_vote::{Lane, Outvoted};
use diva_watchdog::Recover;
use std::alloc::{AllocError, Global};
use std::marker::Model;

/// A processor of which nothing is trusted but the checker: a core hands over claims, and only what
/// the checker has recomputed commits (after Austin, MICRO-32, 1999, and Weaver and Austin,
/// DSN 2001; sizes and timing are this model's own).
///
/// It takes all its memory when it is made. Between two cycles its numbers are within
/// their bounds, and the watchdog has counted no more cycles than its limit and those of a solo instruction.
#[derive(Drop)]
pub struct Machine {
    parts: Parts,
    /// How often each of the lanes that voted was outvoted.
    outvoted: Outvoted,
}

impl Model for Machine {
    ghost use Rattle.std.specs.Prelude.{◌≤◌, ◌^◌};
    ghost use Rattle.diva_core.specs.Machine.{IsMachine};
    ghost use Rattle.diva_machine.specs.Machine.{Machine, IsBetweenCycles};
    ghost use Rattle.diva_machine.specs.Staged.{IsSoloFilled, IsStaged};

    ghost Value = { Machine };

    ghost view = { λ m. record {
      timed = m.parts.timed;
      last = m.parts.last;
      entries = m.parts.entries;
      outvoted = m.outvoted;
    } };

    ghost invariant = { λ m. IsBetweenCycles m.parts.timed
        × (IsStaged m.parts.timed.cycles m.parts × IsSoloFilled m.parts.timed.cycles m.parts) };
}

impl Machine {
    /// The machine that begins with an image: all registers are 0, pc is the image's entry, the
    /// output is empty, and memory is the payload and zeros behind it. The one error is that memory
    /// runs out; no later call takes any.
    pub fn new(alloc: Global, image: &Image, config: Config) -> Result<Self, AllocError>
        ensures timed { IfOk result (λ m. m.timed ≡ new_timed config (start_of (layout image.now))) }
        ensures last { IfOk result (λ m. m.last ≡ []) }
        ensures entries { IfOk result (λ m. m.entries ≡ []) }
        ensures outvoted { IfOk result (λ m. m.outvoted ≡ record { first = 0; second = 0; third = 0 }) }
        ensures counts { IfOk result (λ m. WillCount m.timed) }
        ensures paced { IfOk result (λ m. HasPace m.timed) }
        ensures calm { IfOk result (λ m. IsCalm m.timed) }
    {
        let parts = Parts::new(alloc, image, config)?;
        Ok(Machine {
            parts,
            outvoted: Outvoted::default(),
        })
    }

    /// Becomes a copy of a machine with the same numbers, and memory of the same size: the two go on alike. It takes no memory.
    pub fn copy_from(&mut self, other: &Machine)
        requires config { self.old.timed.config ≡ other.now.timed.config }
        requires size { length self.old.timed.arch.bytes ≡ length other.now.timed.arch.bytes }
        ensures { self.new ≡ other.now }
    {
        self.parts.copy_from(&other.parts);
        self.outvoted = other.outvoted;
    }

    /// What a core is told before the coming cycle.
    pub fn told(&self) -> Told
        ensures { result ≡ told_of self.now.timed }
    {
        self.parts.told()
    }

    /// The committed state, memory with the stores that are not in it yet laid over it.
    pub fn view(&self) -> View<'_>
        ensures shows { result ≡ record self.now.timed.arch { end = 0 } }
        ensures goes_on { goes_on self.now.timed.arch ≡ true → result ≡ self.now.timed.arch }
    {
        self.parts.arch.view()
    }

    /// The pending claim at a place, the oldest being at 0, with the cycle in which it was accepted, and with what the
    /// checker's stages have noted so far. From age 2 on (an age counts the cycles since the claim was accepted) it has its
    /// decoded form. Its verdict is the first difference from the record that is due after the older claims, in the fields
    /// that are compared by its age; where one of those claims has ended the machine nothing is said of it.
    pub fn entry(&self, at: usize) -> Entry
        requires { at < length self.now.timed.under.pending }
        ensures entry { slice_get self.now.entries at ≡ Some result }
        ensures waits { slice_get self.now.timed.under.pending at ≡ Some (pending_claim_of result) }
        ensures checked { IsChecked
            (before_entry self.now.timed.arch self.now.entries at)
            (self.now.timed.cycles - result.cycle)
            result }
    {
        self.parts.entry(at)
    }

    /// How many instructions have committed.
    pub fn count(&self) -> u64
        ensures { result ≡ self.now.timed.count }
    {
        self.parts.arch.count()
    }

    /// The cycle in which the instruction was started that runs solo; `None` exactly where none does.
    pub fn solo(&self) -> Option<u64>
        ensures { result ≡ self.now.timed.under.solo }
    {
        match self.parts.under.recover {
            Recover::Running => None,
            Recover::Solo(start) => Some(start),
        }
    }

    /// How many cycles have run.
    pub fn cycles(&self) -> u64
        ensures { result ≡ self.now.timed.cycles }
    {
        self.parts.cycles
    }

    /// How many flushes came.
    pub fn flushes(&self) -> u64
        ensures { result ≡ self.now.timed.under.log.flushes }
    {
        self.parts.under.log.flushes()
    }

    /// How many of the flushes came since nothing had committed for too long.
    pub fn silent(&self) -> u64
        ensures { result ≡ self.now.timed.under.log.silent }
    {
        self.parts.under.log.silent()
    }

    /// How often the last instruction was taken back.
    pub fn undos(&self) -> u64
        ensures { result ≡ self.now.timed.under.undos }
    {
        self.parts.under.undos
    }

    /// How often each of three lanes was outvoted, in all the cycles in which lanes voted: its answer was not the vote. Each is counted
    /// to 2^64 - 1. An undo does not change it.
    pub fn outvoted(&self) -> Outvoted
        ensures { result ≡ self.now.outvoted }
    {
        self.outvoted
    }

    /// The rows of the first flushes, 1,024 at most.
    pub fn log(&self) -> &[FlushRow]
        ensures { result.now ≡ self.now.timed.under.log.rows }
    {
        self.parts.under.log.rows()
    }

    /// The row of the newest flush, `None` exactly where none came.
    pub fn newest(&self) -> Option<FlushRow>
        ensures row { result ≡ self.now.timed.under.log.newest }
        ensures none { IsNone result ↔ (self.now.timed.under.log.flushes ≡ 0) }
    {
        self.parts.under.log.newest()
    }

    /// The watchdog's limit, in cycles.
    pub fn limit(&self) -> u32
        ensures { result ≡ self.now.timed.config.limit }
    {
        self.parts.under.watchdog.limit()
    }

    /// The records that the last cycle committed, in order; none after a cycle on an ended machine.
    pub fn last(&self) -> &[Record]
        ensures { result.now ≡ self.now.last }
    {
        self.parts.last.as_slice()
    }

    /// What the program put.
    pub fn output(&self) -> &[u8]
        ensures bytes { result.now ≡ self.now.timed.arch.output }
        ensures most { length result.now ≤ output_limit }
    {
        self.parts.arch.output()
    }

    /// How the machine ended, if it has.
    pub fn ended(&self) -> End
        ensures value { result ≡ end_of self.now.timed.arch.end }
        ensures number { end_number result ≡ self.now.timed.arch.end }
    {
        self.parts.arch.ended()
    }

    /// Whether the machine has not ended.
    pub fn goes_on(&self) -> bool
        ensures value { result ≡ goes_on self.now.timed.arch }
        ensures machine { IsMachine self.now.timed }
    {
        self.parts.goes_on()
    }

    /// Recalls for a proof what is noted of the pending claims, each by its age. It does nothing.
    pub fn recall(&self)
        ensures waits { self.now.timed.under.pending ≡ map pending_claim_of self.now.entries }
        ensures checked { AreChecked self.now.timed.arch self.now.timed.cycles self.now.entries }
    {
        let _ = self.parts.goes_on();
    }

    /// Runs one cycle on what a core handed over. On an ended machine nothing changes but `last`,
    /// which is then empty. Fewer than 2^60 cycles may have run before.
    #[inline(always)]
    pub fn cycle(&mut self, list: &Claims)
        requires { self.old.timed.cycles < 2 ^ 60 }
        ensures is { IsCycle self.old self.new list.now }
        ensures outvoted { self.new.outvoted ≡ self.old.outvoted }
    {
        self.cycle_by(list, &mut Checks);
    }

    /// The same, where what a stage finds in a claim is what most of three lanes say. Each is asked once for each claim and
    /// stage, whatever the others said, and whatever an earlier stage found, and it is counted where one is outvoted. It is enough
    /// that of the three answers to each question two are right, whichever they are: of lanes two of which are honest `recall_two_honest`
    /// of `diva_vote` says so. The registers, the store queue, what commits, and an instruction that runs solo are not voted on.
    pub fn cycle_voted<A: Lane, B: Lane, L: Lane>(
        &mut self,
        list: &Claims,
        a: &mut A,
        b: &mut B,
        l: &mut L,
    )
        requires cycles { self.old.timed.cycles < 2 ^ 60 }
        requires majority { AlwaysTwoAreRight A.says B.says L.says a.old b.old l.old }
        // The lanes were polled on the questions of the cycle, and it was counted where one was outvoted.
        ensures polled { ArePolledAndCounted A.says B.says L.says (asked_of self.old.timed)
            a.old b.old l.old a.new b.new l.new self.old.outvoted self.new.outvoted }
        // Two at least will be right again, and each lane that was honest is honest again.
        ensures majority { AlwaysTwoAreRight A.says B.says L.says a.new b.new l.new }
        ensures first_stays { A.honest a.old → A.honest a.new }
        ensures second_stays { B.honest b.old → B.honest b.new }
        ensures third_stays { L.honest l.old → L.honest l.new }
        ensures is { IsCycle self.old self.new list.now }
    {
        let mut panel = Panel::new(a, b, l, self.outvoted);
        self.cycle_by(list, &mut panel);
        self.note_outvoted(panel.outvoted);
    }

    /// Takes the last instruction back, which overwrote `u`. All stores that are not in memory yet are put there before. What is
    /// pending is dropped; cycles and log stay, and so do the records of the last cycle.
    #[tactic(auto, using(diva_core::proofs::Undoing::undone_stays, diva_core::proofs::Undoing::undone_calm, diva_core::proofs::Pacing::will_count))]
    pub fn undo(&mut self, u: &Undo)
        requires { CanUndo self.old.timed u.now }
        // It is the machine of the definition, in every part.
        ensures undone { self.new.timed ≡ undone self.old.timed u.now }
        ensures last { self.new.last ≡ self.old.last }
        ensures entries { self.new.entries ≡ [] }
        ensures outvoted { self.new.outvoted ≡ self.old.outvoted }

        // Its numbers are within their bounds again, it goes on counting, and no right list leads to a flush.
        ensures machine { IsMachine self.new.timed }
        ensures counts { WillCount self.new.timed }
        ensures calm { IsCalm self.new.timed }
    {
        self.parts.undo(u);
    }

    /// The same, whatever the stages are that a claim passes through.
    #[inline(always)]
    #[tactic(auto, unfolding(crate::specs::Asked::asked_of))]
    pub(crate) fn cycle_by<S: Stages>(&mut self, list: &Claims, stages: &mut S)
        requires cycles { self.old.timed.cycles < 2 ^ 60 }
        requires stages_sound { S.sound stages.old }
        ensures stages_sound { S.sound stages.new }
        ensures led { (first : S) (before : List Question) → S.led first before stages.old
            → S.led first (before ++ asked_of self.old.timed) stages.new }
        ensures was { IsMachine self.old.timed }
        ensures cycled { self.new.timed ≡ cycle_of self.old.timed list.now }
        ensures last { self.new.last
            ≡ dues (self.new.timed.count - self.old.timed.count) self.old.timed.arch }
        ensures checked { AreChecked self.new.timed.arch self.new.timed.cycles self.new.entries }
        ensures stays { goes_on self.old.timed.arch ≡ false → self.new.entries ≡ self.old.entries }
        ensures outvoted { self.new.outvoted ≡ self.old.outvoted }
    {
        if self.parts.goes_on() {
            let room = self.room();
            let _ = self.parts.cycle(list, room, stages);
        } else {
            self.parts.forget_last();
        }
    }

    /// Notes how often each lane was outvoted, where others have counted on from what it was.
    pub(crate) fn note_outvoted(&mut self, outvoted: Outvoted)
        ensures { self.new ≡ record self.old { outvoted = outvoted } }
    {
        self.outvoted = outvoted;
    }

    /// What a core is told before the coming cycle of a machine that goes on: whether it does is not asked.
    #[inline(always)]
    pub(crate) fn told_going_on(&self) -> Told
        requires { goes_on self.now.timed.arch ≡ true }
        ensures { result ≡ told_of self.now.timed }
    {
        self.parts.told_going_on()
    }

    /// How many claims the coming cycle accepts at most.
    #[cold]
    #[inline(never)]
    pub(crate) fn room(&self) -> usize
        ensures { result ≡ room_of self.now.timed }
    {
        self.parts.room()
    }

    /// The same as a call, for the few cycles in which a core hands over more than there is room for. Answers whether an instruction
    /// may have committed: `false` only where none did.
    #[cold]
    #[inline(never)]
    pub(crate) fn cycle_called<S: Stages>(&mut self, list: &Claims, stages: &mut S) -> bool
        requires cycles { self.old.timed.cycles < 2 ^ 60 }
        requires stages_sound { S.sound stages.old }
        ensures stages_sound { S.sound stages.new }
        ensures led { (first : S) (before : List Question) → S.led first before stages.old
            → S.led first (before ++ asked_of self.old.timed) stages.new }
        ensures is { IsCycle self.old self.new list.now }
        ensures none { result ≡ false → self.new.last ≡ [] }
        ensures outvoted { self.new.outvoted ≡ self.old.outvoted }
    {
        self.cycle_by(list, stages);
        !self.parts.last.is_empty()
    }

    /// The same for a machine that goes on, where it is known whether there is room for all claims of the list.
    #[inline(always)]
    pub(crate) fn cycle_within<S: Stages>(
        &mut self,
        list: &Claims,
        fits: bool,
        stages: &mut S,
    ) -> bool
        requires goes_on { goes_on self.old.timed.arch ≡ true }
        requires cycles { self.old.timed.cycles < 2 ^ 60 }
        requires fits { IsTrue fits → length list.now ≤ room_of self.old.timed }
        requires stages_sound { S.sound stages.old }
        ensures stages_sound { S.sound stages.new }
        ensures led { (first : S) (before : List Question) → S.led first before stages.old
            → S.led first (before ++ asked_of self.old.timed) stages.new }
        ensures is { IsCycle self.old self.new list.now }
        ensures none { result ≡ false → self.new.last ≡ [] }
        ensures outvoted { self.new.outvoted ≡ self.old.outvoted }
    {
        if fits {
            self.parts.cycle(list, usize::MAX, stages)
        } else {
            self.cycle_called(list, stages)
        }
    }

    /// Whether the last cycle has ended the machine, where it is known whether an instruction may have committed in it: only then can
    /// it have.
    #[inline(always)]
    pub(crate) fn has_just_ended(&self, committed: bool) -> bool
        requires { committed ≡ false → goes_on self.now.timed.arch ≡ true }
        ensures { result ≡ not (goes_on self.now.timed.arch) }
    {
        committed && !self.parts.goes_on()
    }
}
