// A machine that can go back.
ghost use Rattle.std.specs.Prelude.{◌≡◌, ◌+◌, ◌≤◌, ◌^◌, [], IfOk, true};
ghost use Rattle.diva_isa.specs.State.{goes_on};
ghost use Rattle.diva_core.specs.Machine.{IsMachine};
ghost use Rattle.diva_core.specs.Timed.{depth};
ghost use Rattle.diva_machine.specs.Counts.{StopsAtOnce};
ghost use Rattle.diva_machine.specs.Inner.{TakesTurns};
ghost use Rattle.diva_debug.specs.Inner.{Advances};
ghost use Rattle.diva_debug.specs.Moves.{Moves};
ghost use Rattle.diva_debug.specs.Rewindable.{GoesBack, IsRewindable, kept_of};

use crate::undos::Undos;
use diva_core::Core;
use diva_isa::undo_of;
use diva_machine::{DEPTH, Machine, drive_to};
use std::alloc::{AllocError, Global};
use std::marker::Model;

/// A machine of width 1 with the undos of its newest instructions, by which these can be taken back.
#[derive(Drop)]
pub struct Rewindable {
    machine: Machine,
    undos: Undos,
}

impl Model for Rewindable {
    ghost use Rattle.diva_debug.specs.Rewindable.{IsRewindable, Rewindable};

    ghost Value = { Rewindable };

    ghost view = { λ r. record { machine = r.machine; undos = r.undos.items; keep = r.undos.keep } };

    ghost invariant = { λ r. IsRewindable (record { machine = r.machine; undos = r.undos.items; keep = r.undos.keep }) };
}

impl Rewindable {
    /// A machine of width 1, none of whose instructions can be taken back yet.
    pub fn new(machine: Machine, undos: Undos) -> Self
        requires width { machine.timed.config.width ≡ 1 }
        requires none { undos.items ≡ [] }
        ensures { result ≡ record { machine = machine; undos = []; keep = undos.keep } }
    {
        Rewindable { machine, undos }
    }

    /// A machine of width 1, none of whose instructions can be taken back yet, with room for the undos of `keep`. The one error
    /// is that memory runs out.
    pub(crate) fn with_room(alloc: Global, machine: Machine, keep: u32) -> Result<Self, AllocError>
        requires { machine.timed.config.width ≡ 1 }
        ensures { IfOk result (λ r. r ≡ record { machine = machine; undos = []; keep = keep }) }
    {
        let undos = Undos::new(alloc, keep as usize)?;
        Ok(Rewindable::new(machine, undos))
    }

    /// The machine.
    pub fn machine(&self) -> &Machine
        ensures machine { result.now ≡ self.now.machine }
        ensures sound { IsRewindable self.now }
    {
        &self.machine
    }

    /// The machine, and no undos any more.
    pub fn into_machine(self) -> Machine
        ensures { result ≡ self.machine }
    {
        self.machine
    }

    /// How many of its newest instructions can be taken back.
    pub fn kept(&self) -> u64
        ensures { result ≡ kept_of self.now }
    {
        self.undos.len() as u64
    }

    /// Whether the machine has not ended.
    pub(crate) fn goes_on(&self) -> bool
        ensures value { result ≡ goes_on self.now.machine.timed.arch }
        ensures machine { IsMachine self.now.machine.timed }
    {
        self.machine.goes_on()
    }

    /// Recalls for a proof what the types keep. It does nothing.
    pub(crate) fn recall(&self)
        ensures sound { IsRewindable self.now }
        ensures machine { IsMachine self.now.machine.timed }
    {
        let _ = self.machine.goes_on();
    }

    /// Does the next instruction of a machine that goes on, and keeps its undo.
    pub(crate) fn step_one<C: Core>(&mut self, core: &mut C)
        requires machine { IsMachine self.old.machine.timed }
        requires on { goes_on self.old.machine.timed.arch ≡ true }
        requires cycles { self.old.machine.timed.cycles + (self.old.machine.timed.config.limit + depth) ≤ 2 ^ 60 }
        ensures { Advances C.gives 1 self.old core.old self.new core.new }
    {
        let undo = undo_of(&self.machine.view());
        drive_one(&mut self.machine, core);
        self.undos.keep(undo);
    }

    /// Takes its newest instructions back, as many as `count`, which are kept.
    pub(crate) fn back(&mut self, count: u64)
        requires sound { IsRewindable self.old }
        requires few { count ≤ kept_of self.old }
        ensures back { GoesBack count self.old self.new }
        ensures keep { self.new.keep ≡ self.old.keep }
    {
        for _ in 0..count {
            self.undo();
        }
    }

    /// Takes its newest instruction back.
    fn undo(&mut self)
        requires { 1 ≤ kept_of self.old }
        ensures back { GoesBack 1 self.old self.new }
        ensures keep { self.new.keep ≡ self.old.keep }
    {
        if let Some(undo) = self.undos.pop() {
            self.machine.undo(&undo);
        }
    }
}

/// One instruction more of a machine of width 1 that goes on.
fn drive_one<C: Core>(m: &mut Machine, core: &mut C)
    requires machine { IsMachine m.old.timed }
    requires width { m.old.timed.config.width ≡ 1 }
    requires on { goes_on m.old.timed.arch ≡ true }
    requires cycles { m.old.timed.cycles + (m.old.timed.config.limit + depth) ≤ 2 ^ 60 }
    ensures turns { TakesTurns C.gives m.old core.old m.new core.new }
    ensures within { m.new.timed.cycles ≤ m.old.timed.cycles + (m.old.timed.config.limit + depth) }
    ensures config { m.new.timed.config ≡ m.old.timed.config }
    ensures moved { Moves 1 m.old.timed m.new.timed }
    ensures at_once { StopsAtOnce m.old.timed m.new.timed }
{
    let target = m.count() + 1;
    let budget = u64::from(m.limit()) + DEPTH;
    drive_to(m, core, target, budget);
}
