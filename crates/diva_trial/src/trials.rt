// Runs of an image under one fault each.
ghost use Rattle.std.specs.Prelude.{◌≡◌, ◌≤◌, IfOk};
ghost use Rattle.diva_isa.specs.State.{State};
ghost use Rattle.diva_image.specs.ImageLayout.{layout};
ghost use Rattle.diva_core.specs.Timed.{Config as Numbers};
ghost use Rattle.diva_hart.specs.Start.{start_of};
ghost use Rattle.diva_faults.specs.Rows.{IsRow};
ghost use Rattle.diva_faults.specs.declared.rows.Row.{Row as Fault};
ghost use Rattle.diva_trial.specs.Begun.{AreReady, AreTrials};
ghost use Rattle.diva_trial.specs.Trials.{HasTrial};
ghost use Rattle.std.specs.Prelude.{List, ℕ};

use crate::kept::{Kept, Stand};
use crate::outcomes::outcome_of;
use crate::running::run_plain;
use diva_core::{Config, CopyCore};
use diva_faults::{Row, Script};
use diva_image::Image;
use diva_inject::Outcome;
use diva_machine::Machine;
use diva_open::OpenMachine;
use std::alloc::{AllocError, Global};

/// The runs of an image, each under one fault, with the checker and without it; beside the run without a fault, of which some machines are
/// kept, so that a run under a fault begins shortly before it.
#[derive(Drop)]
pub struct Trials<'s, C> {
    script: &'s Script,
    /// How many cycles each run has at most.
    until: u32,
    /// The machine of the run without a fault, at its end.
    free: Machine,
    checked: Kept<Machine, C>,
    unchecked: Kept<OpenMachine, C>,
}

impl<'s, C: CopyCore + Drop> Trials<'s, C> {
    /// Makes the run without a fault: of an image, on a machine with these numbers, under copies of a core and a script, for so many cycles at
    /// most. The one error is that memory runs out; no later call takes any.
    pub fn new(
        alloc: Global,
        image: &Image,
        config: Config,
        core: &C,
        script: &'s Script,
        until: u32,
    ) -> Result<Self, AllocError>
        ensures are { IfOk result (AreTrials C.gives config (start_of (layout image.now)) core.now) }
        ensures script { IfOk result (λ trials. trials.script.now ≡ script.now) }
        ensures until { IfOk result (λ trials. trials.until ≡ until) }
        ensures ready { IfOk result AreReady }
    {
        let mut free: Stand<Machine, C> = Stand::new(alloc, image, config, core)?;
        run_plain(&mut free.machine, &mut free.core, script, u64::from(until));
        let more = kept_beside(image);
        let gap = (free.machine.cycles() / (u64::from(more) + 1)) as u32;
        Ok(Trials {
            script,
            until,
            checked: Kept::new(alloc, image, config, core, script, more, gap)?,
            unchecked: Kept::new(alloc, image, config, core, script, more, gap)?,
            free: free.machine,
        })
    }

    /// The machine of the run without a fault, at its end.
    pub fn free(&self) -> &Machine
        ensures { result.now ≡ self.now.free }
    {
        &self.free
    }

    /// Makes both runs under a fault, and tells what became of them.
    pub fn run(&mut self, number: u32, fault: &Row) -> Outcome
        requires fault { IsRow fault.now }
        requires ready { AreReady self.old }
        ensures trial { (config : Numbers) (start : State) (core : C) → AreTrials C.gives config start core self.old
            → HasTrial C.gives config start core self.old.script.now self.old.until self.old.free.timed number fault.now result }
        ensures stays { (config : Numbers) (start : State) (core : C) → AreTrials C.gives config start core self.old
            → AreTrials C.gives config start core self.new }
        ensures ready { AreReady self.new }
        ensures free { self.new.free ≡ self.old.free }
        ensures script { self.new.script.now ≡ self.old.script.now }
        ensures until { self.new.until ≡ self.old.until }
    {
        let until = u64::from(self.until);
        let hit = self.checked.strike(self.script, fault, until);
        let _ = self.unchecked.strike(self.script, fault, until);
        outcome_of(
            number,
            fault,
            hit,
            &self.free,
            &self.checked.work.machine,
            &self.unchecked.work.machine,
        )
    }
}

/// The most memory of machines that are kept, in bytes.
const MOST_BYTES: usize = 64 << 20;

/// The most machines that are kept beside a new one.
const MOST_KEPT: usize = 63;

/// How many machines are kept beside a new one: as many as fit, each with its open one.
fn kept_beside(image: &Image) -> u32
    ensures { result ≤ 64 }
{
    MOST_KEPT.min(MOST_BYTES / (2 * (image.size as usize + 1))) as u32
}
