// A machine that a core drives, with its checker or without.
ghost use Rattle.std.specs.Prelude.{◌≡◌, ◌+◌, ◌<◌, ◌≤◌, ◌^◌, length, true, IfOk};
ghost use Rattle.diva_isa.specs.State.{goes_on};
ghost use Rattle.diva_image.specs.ImageLayout.{layout};
ghost use Rattle.diva_core.specs.Told.{told_of};
ghost use Rattle.diva_hart.specs.Start.{start_of};
ghost use Rattle.diva_open.specs.Open.{new_open};

use diva_core::{Claims, Config, Told, View};
use diva_image::Image;
use diva_machine::Machine;
use diva_open::OpenMachine;
use std::alloc::{AllocError, Global};

/// A machine that a core drives, with its checker or without. Contracts see it as an open one, with what it comes to in a cycle beside it.
pub(crate) trait Driven {
    ghost use Rattle.diva_open.specs.Open.{Open};
    ghost use Rattle.diva_trial.specs.Paths.{Cycling};

    /// The machine as it is seen.
    ghost seen: { Self → Open };

    /// What it comes to in a cycle.
    ghost step: { Cycling };

    /// A new machine that begins with an image. The one error is that memory runs out.
    fn begin(alloc: Global, image: &Image, config: Config) -> Result<Self, AllocError>
        ensures { IfOk result (λ m. seen m ≡ new_open config (start_of (layout image.now))) };

    /// What a core is told before the coming cycle.
    fn told(&self) -> Told
        ensures { result ≡ told_of (seen self.now).timed };

    /// The committed state.
    fn view(&self) -> View<'_>
        ensures { goes_on (seen self.now).timed.arch ≡ true → result ≡ (seen self.now).timed.arch };

    /// Whether the machine has not ended.
    fn goes_on(&self) -> bool
        ensures { result ≡ goes_on (seen self.now).timed.arch };

    /// How many cycles have run.
    fn cycles(&self) -> u64
        ensures { result ≡ (seen self.now).timed.cycles };

    /// Runs one cycle on what is handed over.
    fn cycle(&mut self, list: &Claims)
        requires few { (seen self.old).timed.cycles < 2 ^ 60 }
        requires on { goes_on (seen self.old).timed.arch ≡ true }
        ensures cycled { seen self.new ≡ step (seen self.old) list.now }
        ensures raised { (seen self.new).timed.cycles ≡ (seen self.old).timed.cycles + 1 }
        ensures config { (seen self.new).timed.config ≡ (seen self.old).timed.config }
        ensures size { length (seen self.new).timed.arch.bytes ≡ length (seen self.old).timed.arch.bytes };

    /// Becomes a copy of another machine. It takes no memory.
    fn copy_from(&mut self, other: &Self)
        requires config { (seen self.old).timed.config ≡ (seen other.now).timed.config }
        requires size { length (seen self.old).timed.arch.bytes ≡ length (seen other.now).timed.arch.bytes }
        ensures { seen self.new ≡ seen other.now };
}

impl Driven for Machine {
    ghost use Rattle.diva_open.specs.Laws.{opened};
    ghost use Rattle.diva_trial.specs.Paths.{checked_cycle};

    ghost seen = { λ m. opened m.timed };

    ghost step = { checked_cycle };

    fn begin(alloc: Global, image: &Image, config: Config) -> Result<Self, AllocError> {
        Machine::new(alloc, image, config)
    }

    #[inline(always)]
    fn told(&self) -> Told {
        self.told()
    }

    #[inline(always)]
    fn view(&self) -> View<'_> {
        self.view()
    }

    #[inline(always)]
    fn goes_on(&self) -> bool {
        self.goes_on()
    }

    #[inline(always)]
    fn cycles(&self) -> u64 {
        self.cycles()
    }

    #[inline(always)]
    fn cycle(&mut self, list: &Claims) {
        let _ = self.goes_on();
        self.cycle(list);
    }

    fn copy_from(&mut self, other: &Self) {
        self.copy_from(other);
    }
}

impl Driven for OpenMachine {
    ghost use Rattle.diva_open.specs.Open.{open_cycle_of};

    ghost seen = { λ m. m };

    ghost step = { open_cycle_of };

    fn begin(alloc: Global, image: &Image, config: Config) -> Result<Self, AllocError> {
        OpenMachine::new(alloc, image, config)
    }

    #[inline(always)]
    fn told(&self) -> Told {
        self.told()
    }

    #[inline(always)]
    fn view(&self) -> View<'_> {
        self.view()
    }

    #[inline(always)]
    fn goes_on(&self) -> bool {
        self.goes_on()
    }

    #[inline(always)]
    fn cycles(&self) -> u64 {
        self.cycles()
    }

    #[inline(always)]
    fn cycle(&mut self, list: &Claims) {
        self.cycle(list);
    }

    fn copy_from(&mut self, other: &Self) {
        self.copy_from(other);
    }
}
