// A run without a fault, of which some machines are kept, each with its core: runs under a fault begin there.
ghost use Rattle.std.specs.Prelude.{◌≡◌, ◌≤◌, ◌<◌, ◌^◌, IfOk};
ghost use Rattle.std.specs.List.{All};
ghost use Rattle.diva_image.specs.ImageLayout.{layout};
ghost use Rattle.diva_hart.specs.Start.{start_of};
ghost use Rattle.diva_faults.specs.Rows.{IsRow};
ghost use Rattle.diva_open.specs.Open.{new_open};
ghost use Rattle.diva_open.specs.Open.{Open};
ghost use Rattle.diva_trial.specs.Inner.{AreAlike, IsOver, Struck};
ghost use Rattle.diva_trial.specs.Kept.{BeginsNew, CanBegin, IsPlaceBefore, IsStand};

use crate::driven::Driven;
use crate::running::{run_plain, run_struck};
use diva_core::{Config, CopyCore};
use diva_faults::{Row, Script};
use diva_image::Image;
use std::alloc::{AllocError, Global};

/// A machine and the core that drives it.
#[derive(Drop)]
pub(crate) struct Stand<M, C> {
    pub machine: M,
    pub core: C,
}

impl<M: Driven + Drop, C: CopyCore + Drop> Stand<M, C> {
    /// A new machine that begins with an image, and a core as it is handed in. The one error is that memory runs out.
    pub(crate) fn new(
        alloc: Global,
        image: &Image,
        config: Config,
        core: &C,
    ) -> Result<Self, AllocError>
        ensures machine { IfOk result (λ stand. M.seen stand.machine ≡ new_open config (start_of (layout image.now))) }
        ensures core { IfOk result (λ stand. stand.core ≡ core.now) }
    {
        Ok(Stand {
            machine: M::begin(alloc, image, config)?,
            core: core.copied(alloc)?,
        })
    }

    /// Becomes a copy of another one. It takes no memory.
    fn copy_from(&mut self, other: &Stand<M, C>)
        requires { AreAlike (M.seen self.old.machine) (M.seen other.now.machine) }
        ensures machine { M.seen self.new.machine ≡ M.seen other.now.machine }
        ensures core { self.new.core ≡ other.now.core }
    {
        self.machine.copy_from(&other.machine);
        self.core.copy_from(&other.core);
    }
}

/// A run without a fault, of which some machines are kept, each with its core.
#[derive(Drop)]
pub(crate) struct Kept<M, C> {
    /// Those that are kept: the first is new, and the others have run some cycles, more and more.
    pub stands: Vec<Stand<M, C>>,
    /// What a run under a fault is made on.
    pub work: Stand<M, C>,
}

impl<M: Driven + Drop, C: CopyCore + Drop> Kept<M, C> {
    /// The run that begins with an image, under a core as it is handed in and a script: a new machine is kept, and `more` others, each `gap`
    /// cycles after the one before. The one error is that memory runs out.
    pub(crate) fn new(
        alloc: Global,
        image: &Image,
        config: Config,
        core: &C,
        script: &Script,
        more: u32,
        gap: u32,
    ) -> Result<Self, AllocError>
        requires { more ≤ 64 }
        ensures stands { IfOk result (λ kept. All (IsStand M.seen M.step C.gives script.now (new_open config (start_of (layout image.now))) core.now) kept.stands.items) }
        ensures begins { IfOk result (CanBegin M.seen) }
    {
        let work = Stand::new(alloc, image, config, core)?;
        let first = Stand::new(alloc, image, config, core)?;
        let mut last = Stand::new(alloc, image, config, core)?;
        let mut stands = Vec::new(alloc);
        stands.push(first)?;
        for place in 0..more {
            let until = (u64::from(place) + 1) * u64::from(gap);
            run_plain(&mut last.machine, &mut last.core, script, until);
            let mut stand = Stand::new(alloc, image, config, core)?;
            stand.copy_from(&last);
            stands.push(stand)?;
        }
        Ok(Kept { stands, work })
    }

    /// Makes the run under a fault: from the latest of the machines that are kept before it, until so many cycles have run since the image
    /// began, or to the end. Whether the fault hit. No memory is taken.
    pub(crate) fn strike(&mut self, script: &Script, fault: &Row, until: u64) -> bool
        requires fault { IsRow fault.now }
        requires most { until ≤ 2 ^ 60 }
        requires begins { CanBegin M.seen self.old }
        ensures struck { (o : Open) (first : C) → All (IsStand M.seen M.step C.gives script.now o first) self.old.stands.items
            → Struck M.step C.gives script.now fault.now o first (M.seen self.new.work.machine) self.new.work.core result }
        ensures over { IsOver until (M.seen self.new.work.machine) }
        ensures begins { CanBegin M.seen self.new }
        ensures stands { self.new.stands.items ≡ self.old.stands.items }
    {
        let at = latest_before(&self.stands, u64::from(fault.cycle()), until);
        self.work.copy_from(&self.stands[at]);
        run_struck(
            &mut self.work.machine,
            &mut self.work.core,
            script,
            fault,
            until,
        )
    }
}

/// The place of the latest machine that has not run the cycle `cycle` yet, nor more than `until`.
fn latest_before<M: Driven, C>(stands: &[Stand<M, C>], cycle: u64, until: u64) -> usize
    requires new { BeginsNew M.seen stands.now }
    requires cycle { 0 < cycle }
    ensures { IsPlaceBefore M.seen cycle until stands.now result }
{
    let mut latest = 0;
    for (place, stand) in stands.iter().enumerate() {
        let run = stand.machine.cycles();
        if run < cycle && run <= until {
            latest = place;
        }
    }
    latest
}
