// Two harts over one memory, between cycles.
ghost use Rattle.std.specs.Prelude.{◌≡◌, ◌+◌, ◌<◌, ◌≤◌, ◌^◌, ◌++◌, ◌==◌, ◌↔◌, [], length, replicate, Some, IfOk, true, false};
ghost use Rattle.diva_memory.specs.Bytes.{byte_at};
ghost use Rattle.diva_image.specs.ImageLayout.{layout};
ghost use Rattle.diva_isa.specs.End.{end_of, end_number};
ghost use Rattle.diva_isa.specs.State.{output_limit};
ghost use Rattle.diva_core.specs.Told.{told_of};
ghost use Rattle.diva_commit.specs.Committing.{AreInside};
ghost use Rattle.diva_hart.specs.Start.{start_of};
ghost use Rattle.diva_duo.specs.Harts.{memory_drained, replay};
ghost use Rattle.diva_duo.specs.Duo.{actions, drained_hart, drains, duo_cycle_of, goes, hart_cycle, harts_of, is_over, new_duo};
ghost use Rattle.diva_duo.specs.Which.{First, Second, Which, hart_at, machine_at, which};
ghost use Rattle.diva_duo.specs.Between.{CountsFew, IsDuo, WillGo, HasGone};
ghost use Rattle.diva_duo.specs.Headline.{CyclesAt};
ghost use Rattle.diva_duo.specs.Inner.{CanCycle};

use crate::action::Action;
use crate::hart::Hart;
use arrayvec::ArrayVec;
use diva_core::{Claims, Config, FlushRow, Told, View};
use diva_image::Image;
use diva_isa::End;
use diva_memory::{Memory, Readable};
use std::alloc::{AllocError, Global};
use std::marker::Model;

/// The most actions of a cycle: a drain of each hart, and as many instructions as a machine of the greatest width commits.
const MOST_ACTIONS: usize = 10;

/// The actions of a cycle.
type Actions = ArrayVec<Action, MOST_ACTIONS>;

/// The parts of the two harts, within a cycle too.
#[derive(Drop)]
struct Parts {
    memory: Memory,
    cycles: u64,
    first: Hart,
    second: Hart,
    /// What the last cycle did.
    last: Actions,
}

impl Model for Parts {
    ghost use Rattle.diva_duo.specs.Shown.{Shown};

    ghost Value = { Shown };

    ghost view = { λ p. record {
      duo = record { memory = p.memory; cycles = p.cycles; first = p.first; second = p.second };
      last = p.last.items;
    } };
}

impl Parts {
    /// The hart of a number, 0 or 1.
    fn hart(&self, h: u8) -> &Hart
        requires { h < 2 }
        ensures { result.now ≡ hart_at (which h) self.now.duo }
    {
        if h == 0 { &self.first } else { &self.second }
    }

    /// Whether both harts have ended, and both buffers are empty.
    fn is_over(&self) -> bool
        ensures { result ≡ is_over self.now.duo }
    {
        self.first.is_over() && self.second.is_over()
    }

    /// One cycle of harts that are not over.
    #[tactic(auto, unfolding(crate::specs::Duo::duo_cycle_of, crate::specs::Duo::duo_drained, crate::specs::Duo::actions), using(crate::proofs::Readying::inside_drained))]
    fn cycle(&mut self, a: &Claims, b: &Claims)
        requires goes_on { is_over self.old.duo ≡ false }
        requires duo { IsDuo self.old.duo }
        requires cycles { self.old.duo.cycles < 2 ^ 60 }
        requires last { self.old.last ≡ [] }
        ensures duo { self.new.duo ≡ duo_cycle_of self.old.duo a.now b.now }
        ensures last { self.new.last ≡ actions self.old.duo self.new.duo }
    {
        self.cycles += 1;
        let cycles = self.cycles;
        drain(0, &mut self.first, &mut self.memory, &mut self.last);
        drain(1, &mut self.second, &mut self.memory, &mut self.last);
        run(0, &mut self.first, &self.memory, cycles, a, &mut self.last);
        run(1, &mut self.second, &self.memory, cycles, b, &mut self.last);
    }
}

/// Phase 1 of the hart of a number.
fn drain(number: u8, hart: &mut Hart, memory: &mut Memory, last: &mut Actions)
    requires inside { AreInside memory.old hart.old.state.buffer }
    requires room { length last.old.items < 10 }
    ensures memory { memory.new ≡ memory_drained memory.old hart.old.state }
    ensures hart { hart.new ≡ drained_hart hart.old }
    ensures last { last.new.items ≡ last.old.items ++ drains number hart.old.state }
    ensures few { length last.new.items ≤ length last.old.items + 1 }
{
    if hart.drain(memory) {
        last.push(Action::Drain(number));
    }
}

/// Phases 2 to 5 of the hart of a number.
fn run(number: u8, hart: &mut Hart, memory: &Memory, cycles: u64, list: &Claims, last: &mut Actions)
    requires ready { CanCycle hart.old }
    requires room { length last.old.items ≤ 6 }
    ensures hart { hart.new ≡ hart_cycle cycles memory.now list.now hart.old }
    ensures last { last.new.items ≡ last.old.items ++ goes number hart.old.state hart.new.state }
    ensures few { length last.new.items ≤ length last.old.items + 4 }
{
    let before = hart.count();
    hart.cycle(memory, cycles, list);
    let times = hart.count() - before;
    note(last, Action::Go(number), times);
}

/// Puts an action behind the others, so many times.
fn note(last: &mut Actions, action: Action, times: u64)
    requires { length last.old.items + times ≤ 10 }
    ensures items { last.new.items ≡ last.old.items ++ replicate times action }
    ensures len { length last.new.items ≡ length last.old.items + times }
{
    for _ in 0..times {
        last.push(action);
    }
}

/// Two harts over one memory, 0 and 1. Each has a store queue, its buffer, through which it sees memory, and a checker of its
/// own. A claim is judged at its commit alone, and whole, since the other hart's stores change memory meanwhile.
///
/// It takes all its memory when it is made.
#[derive(Drop)]
pub struct Duo {
    parts: Parts,
}

impl Model for Duo {
    ghost use Rattle.std.specs.Prelude.{◌≤◌, ◌^◌};
    ghost use Rattle.diva_duo.specs.Shown.{Shown};
    ghost use Rattle.diva_duo.specs.Between.{IsDuo};

    ghost Value = { Shown };

    ghost view = { λ d. d.parts };

    ghost invariant = { λ d. IsDuo d.parts.duo × (d.parts.duo.cycles ≤ 2 ^ 60) };
}

impl Duo {
    /// Two harts that begin with an image, each with its number in x10: pc is the image's entry, all other registers are 0, and
    /// the outputs are empty. Memory takes a store of each hart in each cycle, so the port has to be 1. The one error is that
    /// memory runs out; no later call takes any.
    #[tactic(auto, using(crate::proofs::Readying::new_holds))]
    pub fn new(alloc: Global, image: &Image, config: Config) -> Result<Self, AllocError>
        requires { config.port ≡ 1 }
        ensures duo { IfOk result (λ d. d.duo ≡ new_duo config (start_of (layout image.now))) }
        ensures last { IfOk result (λ d. d.last ≡ []) }
    {
        let _ = config.width();
        let memory = Memory::new(alloc, image.base, image.size, image.payload.bytes())?;
        memory.recall();
        let first = Hart::new(alloc, image, config, 0)?;
        let second = Hart::new(alloc, image, config, 1)?;
        Ok(Duo {
            parts: Parts {
                memory,
                cycles: 0,
                first,
                second,
                last: ArrayVec::new(),
            },
        })
    }

    /// How many cycles have run.
    pub fn cycles(&self) -> u64
        ensures { result ≡ self.now.duo.cycles }
    {
        self.parts.cycles
    }

    /// Whether both harts have ended, and both buffers are empty.
    pub fn ended(&self) -> bool
        ensures value { result ≡ is_over self.now.duo }
        ensures duo { IsDuo self.now.duo }
    {
        self.parts.is_over()
    }

    /// What the last cycle did to the harts, in order: the drains, and then the instructions that each hart committed; at most
    /// ten actions.
    pub fn last(&self) -> &[Action]
        ensures value { result.now ≡ self.now.last }
        ensures few { length result.now ≤ 10 }
    {
        self.parts.last.as_slice()
    }

    /// The byte of the shared memory at an address, with no buffer laid over it; `None` exactly outside.
    pub fn byte(&self, addr: u32) -> Option<u8>
        ensures { result ≡ byte_at self.now.duo.memory addr }
    {
        self.parts.memory.byte(addr)
    }

    /// Whether a hart, 0 or 1, has not ended.
    pub fn goes_on(&self, h: u8) -> bool
        requires { h < 2 }
        ensures { result ≡ ((hart_at (which h) self.now.duo).state.end == 0) }
    {
        self.parts.hart(h).goes_on()
    }

    /// What the core of a hart, 0 or 1, is told before the coming cycle, whose number is that of both.
    #[tactic(auto, using(crate::proofs::Readying::tells, crate::proofs::Readying::tells_epoch))]
    pub fn told(&self, h: u8) -> Told
        requires { h < 2 }
        ensures { result ≡ told_of (machine_at (which h) self.now.duo) }
    {
        let cycles = self.parts.cycles;
        self.parts.hart(h).told(cycles)
    }

    /// What a hart, 0 or 1, sees: the shared memory with its own buffer laid over it.
    pub fn view(&self, h: u8) -> View<'_>
        requires { h < 2 }
        ensures shows { result ≡ record (machine_at (which h) self.now.duo).arch { end = 0 } }
        ensures goes_on { (hart_at (which h) self.now.duo).state.end ≡ 0 → result ≡ (machine_at (which h) self.now.duo).arch }
    {
        self.parts.hart(h).view(&self.parts.memory)
    }

    /// How many instructions a hart, 0 or 1, has committed.
    pub fn count(&self, h: u8) -> u64
        requires { h < 2 }
        ensures { result ≡ (machine_at (which h) self.now.duo).count }
    {
        self.parts.hart(h).count()
    }

    /// How many flushes of a hart, 0 or 1, came.
    pub fn flushes(&self, h: u8) -> u64
        requires { h < 2 }
        ensures { result ≡ (hart_at (which h) self.now.duo).under.log.flushes }
    {
        self.parts.hart(h).flushes()
    }

    /// How many flushes of a hart, 0 or 1, came since nothing had committed for too long.
    pub fn silent(&self, h: u8) -> u64
        requires { h < 2 }
        ensures { result ≡ (hart_at (which h) self.now.duo).under.log.silent }
    {
        self.parts.hart(h).silent()
    }

    /// The rows of the first flushes of a hart, 0 or 1: 1,024 at most.
    pub fn log(&self, h: u8) -> &[FlushRow]
        requires { h < 2 }
        ensures { result.now ≡ (hart_at (which h) self.now.duo).under.log.rows }
    {
        self.parts.hart(h).log()
    }

    /// What the program of a hart, 0 or 1, put: at most 65,536 bytes.
    pub fn output(&self, h: u8) -> &[u8]
        requires { h < 2 }
        ensures bytes { result.now ≡ (hart_at (which h) self.now.duo).state.output }
        ensures most { length result.now ≤ output_limit }
    {
        self.parts.hart(h).output()
    }

    /// How a hart, 0 or 1, has ended, if it has.
    pub fn end(&self, h: u8) -> End
        requires { h < 2 }
        ensures value { result ≡ end_of (hart_at (which h) self.now.duo).state.end }
        ensures number { end_number result ≡ (hart_at (which h) self.now.duo).state.end }
    {
        self.parts.hart(h).end()
    }

    /// Runs one cycle, each hart on its list. Where they are over, nothing changes but `last`, which is then empty. Fewer than
    /// 2^60 cycles may have run before.
    #[tactic(auto, using(crate::proofs::Cycles::replays_actions, crate::proofs::Cycles::stays, crate::proofs::Cycles::counts_few, crate::proofs::Cycles::cycles_at, crate::proofs::Cycles::over_cycle, crate::proofs::Progress::will_go, crate::proofs::Progress::has_gone, crate::proofs::Cycles::cycle_over))]
    pub fn cycle(&mut self, a: &Claims, b: &Claims)
        requires { self.old.duo.cycles < 2 ^ 60 }
        // It is the cycle of the definition, in every part.
        ensures cycled { self.new.duo ≡ duo_cycle_of self.old.duo a.now b.now }

        // What it did are actions of the store-buffer machine, each of which was possible: they lead from the old harts to the new.
        ensures last { self.new.last ≡ actions self.old.duo self.new.duo }
        ensures replayed { replay self.new.last (harts_of self.old.duo) ≡ Some (harts_of self.new.duo) }
        ensures first_few { CountsFew First self.old.duo self.new.duo }
        ensures second_few { CountsFew Second self.old.duo self.new.duo }

        // It is the cycle of each hart: the hart commits equal claims that had waited, or the one instruction that ran solo for six
        // cycles, and its log says why it was flushed.
        ensures harts { (w : Which) → CyclesAt w self.old.duo self.new.duo }

        // Each hart goes on within the watchdog's limit and six cycles, whatever is handed over, and has done so until now.
        ensures first_will_go { WillGo First self.new.duo }
        ensures second_will_go { WillGo Second self.new.duo }
        ensures first_has_gone { HasGone First self.new.duo }
        ensures second_has_gone { HasGone Second self.new.duo }
        ensures duo { IsDuo self.new.duo }
    {
        self.parts.last.clear();
        if !self.parts.is_over() {
            self.parts.cycle(a, b);
        }
    }
}

/// The shared memory, with no buffer laid over it.
impl Readable for Duo {
    ghost shows = { λ d. d.duo.memory };

    fn byte(&self, addr: u32) -> Option<u8> {
        Duo::byte(self, addr)
    }
}
