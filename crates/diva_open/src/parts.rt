// The parts of the machine, and the phases of a cycle over them. What holds between two cycles need not hold between two
// phases, so the bounds are asked for where they are needed.
//
// What each cycle does stands in the loop that drives the machine (`inline(always)`).
ghost use Rattle.std.specs.Prelude.{◌≡◌, ◌≤◌, ◌<◌, ◌+◌, ◌-◌, ◌^◌, ◌++◌, ◌==◌, ◌&&◌, ℕ, [], length, map, min, take, not, None, Some, IfOk, IfSome, nat_le, true, false, if◌then◌else◌};
ghost use Rattle.diva_decode.specs.Table.{row_of, HasRegisters};
ghost use Rattle.diva_isa.specs.State.{goes_on, GoesOn, State};
ghost use Rattle.diva_isa.specs.Step.{record_of};
ghost use Rattle.diva_image.specs.ImageLayout.{layout};
ghost use Rattle.diva_core.specs.Difference.{first_difference};
ghost use Rattle.diva_core.specs.Entries.{IsDecoded};
ghost use Rattle.diva_core.specs.Timed.{Timed, depth, room_of};
ghost use Rattle.diva_core.specs.Told.{told_of};
ghost use Rattle.diva_core.specs.Cycle.{accepted_in, drained, port_opens, puts_store, stores_wait, with_pending};
ghost use Rattle.diva_hart.specs.Start.{start_of};
ghost use Rattle.diva_open.specs.Inner.{KeepsOpenBounds};
ghost use Rattle.diva_open.specs.Machine.{IsOpenBetweenCycles};
ghost use Rattle.diva_open.specs.Open.{idled, leave, leaves, left, new_open, open_cycle_of, place_behind};

use crate::arch::OpenArch;
use diva_core::{Claims, Config, Entry, Pending, Told, View};
use diva_decode::Instr;
use diva_hart::{DEPTH, Port};
use diva_image::Image;
use diva_isa::{Effect, Record, decoded_of, effect_by, fetch, record_by};
use std::alloc::{AllocError, Global};
use std::marker::Model;

#[derive(Drop)]
pub(crate) struct Parts {
    pub(crate) arch: OpenArch,
    pending: Pending,
    port: Port,
    width: u32,
    stores: u32,
    limit: u32,
    pub(crate) cycles: u64,
    /// How many stores would not be in memory yet, if memory's port had to take them.
    owed: u32,
    /// The cycles since the last commit, counted as far as the limit.
    idle: u32,
    /// For which instruction, from 0, the first record left that was not due.
    pub(crate) place: Option<u64>,
}

impl Model for Parts {
    ghost use Rattle.std.specs.Prelude.{map};
    ghost use Rattle.diva_core.specs.Entries.{pending_claim_of};
    ghost use Rattle.diva_open.specs.Inner.{open_under};
    ghost use Rattle.diva_open.specs.Open.{Open};

    ghost Value = { Open };

    ghost view = { λ m. record {
      timed = record {
        config = record { width = m.width; window = m.pending.capacity; stores = m.stores; limit = m.limit; port = m.port };
        cycles = m.cycles;
        arch = m.arch;
        count = m.arch.instret;
        owed = m.owed;
        under = open_under (map pending_claim_of m.pending.items) m.idle;
      };
      place = m.place;
    } };
}

impl Parts {
    /// The parts of a new machine. All memory is taken here, and the one error is that it runs out.
    pub fn new(alloc: Global, image: &Image, config: Config) -> Result<Self, AllocError>
        ensures value { IfOk result (λ m. m ≡ new_open config (start_of (layout image.now))) }
        ensures between { IfOk result IsOpenBetweenCycles }
    {
        Ok(Parts {
            arch: OpenArch::new(alloc, image)?,
            pending: Pending::new(alloc, config.window() as usize)?,
            port: Port::new(config.port()),
            width: config.width(),
            stores: config.stores(),
            limit: config.limit(),
            cycles: 0,
            owed: 0,
            idle: 0,
            place: None,
        })
    }

    /// Become a copy of the parts of a machine with room for as many claims, and memory of the same size. It takes no memory.
    pub fn copy_from(&mut self, other: &Parts)
        requires window { self.old.timed.config.window ≡ other.now.timed.config.window }
        requires size { length self.old.timed.arch.bytes ≡ length other.now.timed.arch.bytes }
        ensures { self.new ≡ other.now }
    {
        self.arch.copy_from(&other.arch);
        self.pending.copy_from(&other.pending);
        self.port.copy_from(&other.port);
        self.width = other.width;
        self.stores = other.stores;
        self.limit = other.limit;
        self.cycles = other.cycles;
        self.owed = other.owed;
        self.idle = other.idle;
        self.place = other.place;
    }

    /// Whether the machine has not ended.
    #[inline(always)]
    pub fn goes_on(&self) -> bool
        ensures { result ≡ goes_on self.now.timed.arch }
    {
        self.arch.goes_on()
    }

    /// How many claims the coming cycle accepts at most.
    #[inline(always)]
    fn room(&self) -> usize
        ensures value { result ≡ room_of self.now.timed }
        ensures fits { length self.now.timed.under.pending + result ≤ self.now.timed.config.window }
        ensures width { result ≤ self.now.timed.config.width }
        ensures total { length self.now.timed.under.pending + result ≤ 64 }
    {
        if self.goes_on() {
            let free = self.pending.capacity() - self.pending.len();
            free.min(self.width as usize)
        } else {
            let _ = self.pending.len();
            0
        }
    }

    /// What a core is told before the coming cycle.
    #[inline(always)]
    pub fn told(&self) -> Told
        requires width { self.now.timed.config.width ≤ 4 }
        requires port { self.now.timed.config.port ≤ 6 }
        requires cycles { self.now.timed.cycles < 2 ^ 63 }
        requires idle { self.now.timed.under.idle ≤ 1024 }
        ensures { result ≡ told_of self.now.timed }
    {
        let pending = self.pending.len() as u32;
        let room = self.room() as u32;
        let by_then = u64::from(self.idle) + DEPTH + u64::from(self.port.period());
        Told {
            cycle: self.cycles + 1,
            count: self.arch.count(),
            pc: self.arch.pc(),
            epoch: 0,
            pending,
            room,
            idle: self.idle,
            due: pending == 0 && room > 0 && by_then >= u64::from(self.limit),
            ended: !self.goes_on(),
        }
    }

    /// Phase 1: where the port opens, one store less is owed.
    #[inline(always)]
    #[tactic(auto, unfolding(diva_core::specs::Cycle::drained))]
    fn drain(&mut self)
        ensures { self.new ≡ record self.old { timed = drained self.old.timed } }
    {
        if self.owed > 0 && (self.port.is_always_open() || self.port.opens(self.cycles)) {
            self.owed -= 1;
        }
    }

    /// Whether a claim, if it is the front one, leaves in this cycle.
    #[inline(always)]
    fn leaves_as(&self, front: &Entry) -> bool
        requires { IsDecoded front.now }
        ensures { result ≡ (nat_le (front.now.cycle + depth) self.now.timed.cycles
            && not (stores_wait self.now.timed.config.stores self.now.timed.owed front.now.claim)) }
    {
        let age = self.cycles.saturating_sub(front.cycle);
        age >= DEPTH && (self.owed != self.stores || !puts_store(front))
    }

    /// Whether the front claim leaves in this cycle.
    #[inline(always)]
    #[tactic(auto, using(crate::proofs::Fronts::front_leaves, crate::proofs::Fronts::none_leaves))]
    fn front_leaves(&self) -> bool
        ensures { result ≡ leaves self.now.timed self.now.timed.under.pending }
    {
        self.pending.len() > 0 && self.leaves_as(self.pending.at(0))
    }

    /// The front claim leaves: it commits as it stands, or ends the machine.
    #[inline(always)]
    #[tactic(auto, unfolding(crate::specs::Open::obeyed, diva_core::specs::Cycle::committed))]
    fn leave_front(&mut self)
        requires leaves { leaves self.old.timed self.old.timed.under.pending ≡ true }
        requires goes_on { GoesOn self.old.timed.arch }
        requires count { self.old.timed.count < 2 ^ 62 }
        requires owed { self.old.timed.owed < 2 ^ 32 - 1 }
        requires there { 0 < length self.old.timed.under.pending }
        ensures { self.new ≡ left self.old self.old.timed.under.pending }
    {
        let front = self.pending.at(0);
        let decoded = front.decoded();
        self.place = place_behind(self.place, &self.arch, &front.claim, decoded);
        if self.arch.obey(decoded, &front.claim) {
            self.owed += 1;
        }
        self.pending.pop();
        if !self.arch.goes_on() {
            self.pending.clear();
        }
    }

    /// Phase 2: at most `width` ready claims leave, oldest first.
    #[inline(always)]
    fn leave(&mut self)
        requires width { self.old.timed.config.width ≤ 4 }
        requires goes_on { GoesOn self.old.timed.arch }
        requires count { self.old.timed.count + 4 ≤ 2 ^ 62 }
        requires owed { self.old.timed.owed ≤ self.old.timed.config.stores }
        requires stores { self.old.timed.config.stores ≤ 6 }
        ensures value { self.new ≡ leave self.old.timed.config.width self.old }
        ensures bounds { KeepsOpenBounds self.old.timed.config.width self.old self.new }
    {
        let mut left = 0;
        while left < self.width && self.front_leaves() {
            self.leave_front();
            left += 1;
        }
    }

    /// Phase 4: the first claims of a list, so many at most, become pending, if the machine goes on.
    #[inline(always)]
    fn accept(&mut self, list: &Claims, most: usize)
        requires { length self.old.timed.under.pending + min most (length list.now) ≤ self.old.timed.config.window }
        ensures { self.new ≡ record self.old {
          timed = with_pending self.old.timed (self.old.timed.under.pending
              ++ map (accepted_in self.old.timed.cycles) (if goes_on self.old.timed.arch then take (min most (length list.now)) list.now else []));
        } }
    {
        if !list.is_empty() && self.goes_on() {
            let count = list.len().min(most);
            self.pending
                .accept_all(&list.as_slice()[..count], self.cycles);
        }
    }

    /// Phase 5: the cycles since the last commit are counted, as far as the limit.
    #[inline(always)]
    fn wait(&mut self, committed: bool)
        requires { self.old.timed.under.idle < 2 ^ 32 - 1 }
        ensures { (before : Timed)
            → (self.old.timed.count == before.count) ≡ not committed
            → self.new ≡ record self.old { timed = idled before self.old.timed } }
    {
        self.idle = if committed {
            0
        } else {
            self.limit.min(self.idle + 1)
        };
    }

    /// One cycle of a machine that goes on.
    #[inline(always)]
    #[tactic(auto, unfolding(crate::specs::Open::open_cycle_of, diva_core::specs::Cycle::drained, diva_core::specs::Cycle::accepts))]
    pub fn cycle(&mut self, list: &Claims)
        requires goes_on { GoesOn self.old.timed.arch }
        requires between { IsOpenBetweenCycles self.old }
        requires cycles { self.old.timed.cycles < 2 ^ 60 }
        ensures value { self.new ≡ open_cycle_of self.old list.now }
        ensures between { IsOpenBetweenCycles self.new }
    {
        let room = self.room();
        let count = self.arch.count();
        self.cycles += 1;
        self.drain();
        self.leave();
        self.accept(list, room);
        let committed = self.arch.count() != count;
        self.wait(committed);
    }
}

/// Whether a claim is a store that does not trap.
#[inline(always)]
#[tactic(auto, unfolding(diva_core::specs::Cycle::puts_store))]
fn puts_store(front: &Entry) -> bool
    requires { IsDecoded front.now }
    ensures { result ≡ puts_store front.now.claim }
{
    front.claim.end == 0
        && matches!(
            effect_by(front.decoded(), &front.claim),
            Effect::Stores { .. }
        )
}

/// The place where a claim leaves, `decoded` being what its word says. It is compared with what is due only where there is no
/// place yet.
#[inline(always)]
fn place_behind(
    place: Option<u64>,
    arch: &OpenArch,
    claim: &Record,
    decoded: Option<Instr>,
) -> Option<u64>
    requires goes_on { GoesOn arch.now }
    requires decoded { decoded ≡ row_of claim.now.word }
    requires registers { IfSome decoded HasRegisters }
    ensures { result ≡ place_behind place arch.now.instret (first_difference claim.now (record_of arch.now)) }
{
    if place.is_some() {
        return place;
    }
    let due = due_as(&arch.view(), claim.word, decoded);
    if is_due(claim, &due) {
        None
    } else {
        Some(arch.count())
    }
}

/// Whether a claim is the record that is due: then it leaves without a place, if there is none yet.
#[inline(always)]
#[tactic(auto, using(crate::proofs::Placing::place_of_due, crate::proofs::Placing::place_of_other))]
fn is_due(claim: &Record, due: &Record) -> bool
    ensures { (count : ℕ) → place_behind None count (first_difference claim.now due.now) ≡ (if result then None else Some count) }
{
    claim == due
}

/// The record that is due, where `decoded` is what a claimed word says. Mostly that word is the one that is due, and then none is decoded.
#[inline(always)]
fn due_as(view: &View<'_>, claimed: u32, decoded: Option<Instr>) -> Record
    requires decoded { decoded ≡ row_of claimed }
    requires registers { IfSome decoded HasRegisters }
    ensures { result ≡ record_of view.now }
{
    let fetched = fetch(view);
    let due = if fetched == Some(claimed) {
        decoded
    } else {
        decoded_of(fetched)
    };
    record_by(view, fetched, due)
}
