// The machine between cycles.
ghost use Rattle.std.specs.Prelude.{◌≡◌, ◌≤◌, ◌<◌, ◌^◌, length, true, IfOk};
ghost use Rattle.diva_isa.specs.State.{goes_on, output_limit};
ghost use Rattle.diva_image.specs.ImageLayout.{layout};
ghost use Rattle.diva_core.specs.Told.{told_of};
ghost use Rattle.diva_hart.specs.Start.{start_of};
ghost use Rattle.diva_open.specs.Ends.{open_end_number, open_end_of};
ghost use Rattle.diva_open.specs.Open.{new_open, open_cycle_of};

use crate::ends::OpenEnd;
use crate::parts::Parts;
use diva_core::{Claims, Config, Told, View};
use diva_image::Image;
use std::alloc::{AllocError, Global};
use std::marker::Model;

/// The timed machine without its checker: what a core claims commits as it stands, whatever is due.
///
/// It takes all its memory when it is made.
#[derive(Drop)]
pub struct OpenMachine {
    parts: Parts,
}

impl Model for OpenMachine {
    ghost use Rattle.diva_open.specs.Machine.{IsOpenBetweenCycles};
    ghost use Rattle.diva_open.specs.Open.{Open};

    ghost Value = { Open };

    ghost view = { λ m. m.parts };

    ghost invariant = { λ m. IsOpenBetweenCycles m.parts };
}

impl OpenMachine {
    /// The open machine that begins with an image: all registers are 0, pc is the image's entry, the output is empty, and memory is the
    /// payload and zeros behind it. The one error is that memory runs out; no later call takes any.
    pub fn new(alloc: Global, image: &Image, config: Config) -> Result<Self, AllocError>
        ensures { IfOk result (λ m. m ≡ new_open config (start_of (layout image.now))) }
    {
        Ok(OpenMachine {
            parts: Parts::new(alloc, image, config)?,
        })
    }

    /// Becomes a copy of an open machine with the same numbers, and memory of the same size: the two go on alike. It takes no memory.
    pub fn copy_from(&mut self, other: &OpenMachine)
        requires config { self.old.timed.config ≡ other.now.timed.config }
        requires size { length self.old.timed.arch.bytes ≡ length other.now.timed.arch.bytes }
        ensures { self.new ≡ other.now }
    {
        self.parts.copy_from(&other.parts);
    }

    /// What a core is told before the coming cycle.
    #[inline(always)]
    pub fn told(&self) -> Told
        ensures { result ≡ told_of self.now.timed }
    {
        self.parts.told()
    }

    /// The committed state.
    #[inline(always)]
    pub fn view(&self) -> View<'_>
        ensures shows { result ≡ record self.now.timed.arch { end = 0 } }
        ensures goes_on { goes_on self.now.timed.arch ≡ true → result ≡ self.now.timed.arch }
    {
        self.parts.arch.view()
    }

    /// How many instructions have committed. A record that cannot be applied is not counted.
    pub fn count(&self) -> u64
        ensures { result ≡ self.now.timed.count }
    {
        self.parts.arch.count()
    }

    /// How many cycles have run.
    #[inline(always)]
    pub fn cycles(&self) -> u64
        ensures { result ≡ self.now.timed.cycles }
    {
        self.parts.cycles
    }

    /// What was put.
    pub fn output(&self) -> &[u8]
        ensures bytes { result.now ≡ self.now.timed.arch.output }
        ensures most { length result.now ≤ output_limit }
    {
        self.parts.arch.output()
    }

    /// For which instruction, from 0, the first record left that was not due: it committed, or ended the machine since it cannot be
    /// applied. `None` exactly where each was due.
    pub fn place(&self) -> Option<u64>
        ensures { result ≡ self.now.place }
    {
        self.parts.place
    }

    /// Whether the machine has not ended.
    #[inline(always)]
    pub fn goes_on(&self) -> bool
        ensures { result ≡ goes_on self.now.timed.arch }
    {
        self.parts.goes_on()
    }

    /// How the machine has ended, if it has.
    pub fn ended(&self) -> OpenEnd
        ensures value { result ≡ open_end_of self.now.timed.arch.end }
        ensures number { open_end_number result ≡ self.now.timed.arch.end }
    {
        self.parts.arch.ended()
    }

    /// Runs one cycle on what a core handed over. On an ended machine nothing changes. Fewer than 2^60 cycles may have run before.
    #[inline(always)]
    #[tactic(auto, using(crate::proofs::Turning::ended_stays))]
    pub fn cycle(&mut self, list: &Claims)
        requires { self.old.timed.cycles < 2 ^ 60 }
        ensures { self.new ≡ open_cycle_of self.old list.now }
    {
        if self.parts.goes_on() {
            self.parts.cycle(list);
        }
    }
}
