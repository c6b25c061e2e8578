// What is under way between two commits.
ghost use Rattle.std.specs.Prelude.{◌≡◌, ◌≤◌, ◌<◌, ◌+◌, ◌-◌, ◌^◌, ◌&&◌, ◌==◌, ◌++◌, [], length, map, min, take, drop, IfOk, nat_le, not, true, if◌then◌else◌};
ghost use Rattle.circular_buffer.specs.Buffer.{buffer};
ghost use Rattle.diva_core.specs.Timed.{room_of};
ghost use Rattle.diva_core.specs.Told.{told_of};
ghost use Rattle.diva_core.specs.Cycle.{logged};
ghost use Rattle.diva_core.specs.Entries.{fresh};
ghost use Rattle.diva_watchdog.specs.Watchdog.{ticked};
ghost use Rattle.diva_watchdog.specs.declared.recover.Recover.TheVariants.{Running, Solo};
ghost use Rattle.diva_hart.specs.UnderWay.{new_under_way, takes_claims, told_machine};

use crate::arch::HartArch;
use crate::log::Log;
use crate::port::Port;
use diva_core::{Cause, Claim, Claims, Config, FlushRow, Pending, Told};
use diva_watchdog::{Recover, Watchdog};
use std::alloc::{AllocError, Global};

/// The checker's depth, in cycles: a claim that is accepted in one cycle is judged six cycles later at
/// the earliest, and a solo instruction commits six cycles after the flush that started it.
pub const DEPTH: u64 = 6;

/// What is under way beside a committed state.
#[derive(Drop)]
pub struct UnderWay {
    /// The claims that are accepted and judged in a cycle at most.
    pub width: u32,
    /// The claims that wait to be judged.
    pub pending: Pending,
    /// Whether an instruction runs solo, and since when.
    pub recover: Recover,
    /// The cycles since the last commit, and their limit.
    pub watchdog: Watchdog,
    /// The flushes that came.
    pub log: Log,
    /// How often the last instruction was taken back.
    pub undos: u64,
}

impl UnderWay {
    /// Nothing is under way yet. All memory is taken here, and the one error is that it runs out.
    pub fn new(alloc: Global, config: Config) -> Result<Self, AllocError>
        ensures { IfOk result (λ u. u ≡ new_under_way config) }
    {
        Ok(UnderWay {
            width: config.width(),
            pending: Pending::new(alloc, config.window() as usize)?,
            recover: Recover::Running,
            watchdog: Watchdog::new(config.limit()),
            log: Log::new(alloc)?,
            undos: 0,
        })
    }

    /// Becomes a copy of what is under way in a machine with room for as many claims. It takes no memory.
    pub fn copy_from(&mut self, other: &UnderWay)
        requires { self.old.pending.capacity ≡ other.now.pending.capacity }
        ensures { self.new ≡ other.now }
    {
        self.width = other.width;
        self.pending.copy_from(&other.pending);
        self.recover = other.recover;
        self.watchdog = other.watchdog;
        self.log.copy_from(&other.log);
        self.undos = other.undos;
    }

    /// How many claims the coming cycle of a hart accepts at most.
    #[inline(always)]
    pub fn room(&self, hart: &HartArch) -> usize
        ensures value { result ≡ room_of (told_machine hart.now.state 1 0 self.now) }
        ensures fits { result ≤ self.now.pending.capacity - length self.now.pending.items }
        ensures width { result ≤ self.now.width }
        ensures total { result ≤ 64 - length self.now.pending.items }
    {
        self.room_where(hart, hart.goes_on(), self.pending.len())
    }

    /// The same, where it is known whether the hart goes on, and how many claims are pending.
    #[inline(always)]
    fn room_where(&self, hart: &HartArch, goes_on: bool, pending: usize) -> usize
        requires goes_on { goes_on ≡ (hart.now.state.end == 0) }
        requires pending { pending ≡ length self.now.pending.items }
        ensures value { result ≡ room_of (told_machine hart.now.state 1 0 self.now) }
        ensures fits { result ≤ self.now.pending.capacity - length self.now.pending.items }
        ensures width { result ≤ self.now.width }
        ensures total { result ≤ 64 - length self.now.pending.items }
    {
        let _ = hart;
        // Asked for the proof alone: no more claims are pending than there is room for.
        let _ = self.pending.len();
        let free = self.pending.capacity() - pending;
        let most = free.min(self.width as usize);
        match self.recover {
            Recover::Running if goes_on => most,
            _ => 0,
        }
    }

    /// The number of flushes and undos so far.
    #[inline(always)]
    pub fn epoch(&self) -> u64
        requires { self.now.log.flushes + self.now.undos < 2 ^ 63 }
        ensures { result ≡ self.now.log.flushes + self.now.undos }
    {
        self.log.flushes() + self.undos
    }

    /// What a hart's core is told before the coming cycle, where so many have run, and memory has this port.
    #[inline(always)]
    pub fn told(&self, hart: &HartArch, port: &Port, cycles: u64) -> Told
        requires width { self.now.width ≤ 4 }
        requires cycles { cycles < 2 ^ 63 }
        requires epoch { self.now.log.flushes + self.now.undos < 2 ^ 63 }
        ensures { result ≡ told_of (told_machine hart.now.state port.now cycles self.now) }
    {
        self.told_where(hart, hart.goes_on(), port, cycles)
    }

    /// The same, where it is known whether the hart goes on.
    #[inline(always)]
    pub fn told_where(&self, hart: &HartArch, goes_on: bool, port: &Port, cycles: u64) -> Told
        requires goes_on { goes_on ≡ (hart.now.state.end == 0) }
        requires width { self.now.width ≤ 4 }
        requires cycles { cycles < 2 ^ 63 }
        requires epoch { self.now.log.flushes + self.now.undos < 2 ^ 63 }
        ensures { result ≡ told_of (told_machine hart.now.state port.now cycles self.now) }
    {
        let pending = self.pending.len() as u32;
        // Worked out apart where nothing is pending: a core that waits for that asks for no room elsewhere, and then none is.
        let room = if pending == 0 {
            self.room_where(hart, goes_on, 0)
        } else {
            self.room_where(hart, goes_on, self.pending.len())
        } as u32;
        let idle = self.watchdog.idle();
        let by_then = u64::from(idle) + DEPTH + u64::from(port.period());
        Told {
            cycle: cycles + 1,
            count: hart.count(),
            pc: hart.pc(),
            epoch: self.epoch(),
            pending,
            room,
            idle,
            due: pending == 0 && room > 0 && by_then >= u64::from(self.watchdog.limit()),
            ended: !goes_on,
        }
    }

    /// Whether claims may be accepted behind the commit phase, if there was room before it.
    #[inline(always)]
    fn takes_claims(&self, hart: &HartArch) -> bool
        ensures { result ≡ takes_claims (told_machine hart.now.state 1 0 self.now) }
    {
        hart.goes_on() && matches!(self.recover, Recover::Running)
    }

    /// Takes out the front claim, which has committed, and all others if that ended the hart.
    #[inline(always)]
    pub fn leave_front(&mut self, hart: &HartArch)
        requires { 0 < length self.old.pending.items }
        ensures { self.new ≡ record self.old {
          pending = buffer (if hart.now.state.end == 0 then drop 1 self.old.pending.items else []) self.old.pending.capacity;
        } }
    {
        self.pending.pop();
        if !hart.goes_on() {
            self.pending.clear();
        }
    }

    /// Phase 4 of a cycle: the first claims of a list, so many at most, become pending, where any may. In most cycles there is none,
    /// which is asked of the list here: so nothing of it has to be at hand till now.
    #[inline(always)]
    pub fn accept(&mut self, hart: &HartArch, list: &Claims, most: usize, cycle: u64)
        requires room { length self.old.pending.items + min most (length list.now) ≤ self.old.pending.capacity }
        ensures { self.new ≡ record self.old {
          pending = buffer (self.old.pending.items ++ map (fresh cycle)
              (if takes_claims (told_machine hart.now.state 1 0 self.old) then take (min most (length list.now)) list.now else []))
              self.old.pending.capacity;
        } }
    {
        if !list.is_empty() && self.takes_claims(hart) {
            let count = list.len().min(most);
            self.accept_all(&list.as_slice()[..count], cycle);
        }
    }

    /// The same, where it is known which.
    fn accept_all(&mut self, claims: &[Claim], cycle: u64)
        requires { length self.old.pending.items + length claims.now ≤ self.old.pending.capacity }
        ensures { self.new ≡ record self.old {
          pending = buffer (self.old.pending.items ++ map (fresh cycle) claims.now) self.old.pending.capacity;
        } }
    {
        if !claims.is_empty() {
            self.pending.accept_all(claims, cycle);
        }
    }

    /// Phase 5 of a cycle in which an instruction committed, or none did: whether the watchdog barks.
    #[inline(always)]
    pub fn tick(&mut self, hart: &HartArch, committed: bool) -> bool
        requires { self.old.watchdog.idle < 2 ^ 32 - 1 }
        ensures rest { self.new ≡ record self.old { watchdog = ticked self.old.watchdog committed } }
        ensures barks { result ≡ (not committed
            && (nat_le self.new.watchdog.limit self.new.watchdog.idle && takes_claims (told_machine hart.now.state 1 0 self.old))) }
    {
        if committed {
            self.watchdog.rest();
            return false;
        }
        self.watchdog.wait() && self.takes_claims(hart)
    }

    /// Drops what is pending, and goes on so.
    fn restart(&mut self, recover: Recover)
        ensures { self.new ≡ record self.old { pending = buffer [] self.old.pending.capacity; recover = recover } }
    {
        self.pending.clear();
        self.recover = recover;
    }

    /// Drops what is pending, and starts the next instruction on the checker alone: the flush comes in a cycle, so many
    /// instructions having committed by then.
    pub fn flush(&mut self, cycle: u64, at: u64, cause: Cause)
        requires flushes { self.old.log.flushes < 2 ^ 63 }
        requires silent { self.old.log.silent < 2 ^ 63 }
        ensures { self.new ≡ record self.old {
          pending = buffer [] self.old.pending.capacity;
          recover = Solo cycle;
          log = logged self.old.log (record { cycle = cycle; at = at; cause = cause });
        } }
    {
        self.restart(Recover::Solo(cycle));
        self.log.add(FlushRow { cycle, at, cause });
    }

    /// Drops what is pending, since the last instruction is taken back: no instruction runs solo, and the watchdog counts anew.
    pub fn undo(&mut self)
        requires { self.old.undos < 2 ^ 63 }
        ensures { self.new ≡ record self.old {
          pending = buffer [] self.old.pending.capacity;
          recover = Running;
          watchdog = ticked self.old.watchdog true;
          undos = self.old.undos + 1;
        } }
    {
        self.restart(Recover::Running);
        self.watchdog.rest();
        self.undos += 1;
    }
}
