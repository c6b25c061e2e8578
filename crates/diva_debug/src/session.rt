// A machine and a core that reply to commands.
ghost use Rattle.std.specs.Borrow.{RestsIfErr, sem};
ghost use Rattle.std.specs.Prelude.{◌≡◌, ◌↔◌, ◌+◌, ◌-◌, ◌*◌, ◌≤◌, ◌<◌, ◌^◌, ℕ, [], IfOk, false};
ghost use Rattle.diva_isa.specs.Step.{steps};
ghost use Rattle.diva_core.specs.Timed.{depth};
ghost use Rattle.diva_core.specs.Machine.{IsMachine};
ghost use Rattle.diva_machine.specs.Counts.{StopsAtOnce};
ghost use Rattle.diva_debug.specs.declared.command.Command.TheVariants.{Back, Until, Why};
ghost use Rattle.diva_debug.specs.Moves.{IsFar, Moves, goes_back, most_cycles, standing_after, steps_by};
ghost use Rattle.diva_debug.specs.Replies.{far_line, kept_line, no_flush, reply_at};
ghost use Rattle.diva_debug.specs.Rewindable.{IsLed, session_origin, kept_of, standing_of};

use crate::command::Command;
use crate::moving::move_by;
use crate::replies::reply_at;
use crate::rewindable::Rewindable;
use crate::undos::Undos;
use diva_core::Core;
use diva_machine::Machine;
use diva_outside::Line;
use std::alloc::{AllocError, Global};

/// Does a command with a machine of width 1 and a core, and replies to it. The machine runs W + 6 cycles for each step at
/// most, W being the watchdog's limit, and 2^60 cycles in all.
///
/// The place is the number of committed instructions, less those that were taken back. `step` and `until` move it along the
/// table's steps, and `back` to an earlier one, where the undos of all instructions between are kept; `reg` and `mem` show the
/// state there, and `why` shows the newest flush. So every reply but that to `why` is the same for all cores.
pub fn reply_to<C: Core>(m: &mut Rewindable, core: &mut C, command: &Command) -> Line
    requires cycles { m.old.machine.timed.cycles + most_cycles command.now m.old.machine.timed ≤ 2 ^ 60 }
    // The reply is that of the place behind the command, of the state there, and of how many undos were kept before; the core
    // has a part in the newest flush alone.
    ensures reply { result ≡ reply_at command.now (kept_of m.old)
        m.new.machine.timed.count m.new.machine.timed.arch m.new.machine.timed.under.log.newest }
    ensures far { (pc : ℕ) → command.now ≡ Until pc
        → (result ≡ far_line m.new.machine.timed.count m.new.machine.timed.arch.pc)
        ↔ IsFar pc m.old.machine.timed m.new.machine.timed }
    ensures no_flush { command.now ≡ Why → (result ≡ no_flush) ↔ (m.new.machine.timed.under.log.flushes ≡ 0) }
    ensures too_few { (k : ℕ) → command.now ≡ Back k → (result ≡ kept_line (kept_of m.old)) ↔ (kept_of m.old < k) }

    // The session stands where the command leads, and keeps as many undos as there is room for. As many steps as undos are
    // kept lead from the state that these restore to the one where it stands.
    ensures stands { standing_of m.new ≡ standing_after m.old.keep command.now (standing_of m.old) m.old.machine.timed.arch }
    ensures stood { m.old.machine.timed.arch ≡ steps (kept_of m.old) (session_origin m.old) }
    ensures stands_on { m.new.machine.timed.arch ≡ steps (kept_of m.new) (session_origin m.new) }
    ensures keep { m.new.keep ≡ m.old.keep }

    // The machine has moved as far as the command says, and ran no cycle that this did not take. What all undos restore stays,
    // or is a step later for each that there was no room for.
    ensures moved { goes_back command.now ≡ false
        → Moves (steps_by command.now m.old.machine.timed.arch) m.old.machine.timed m.new.machine.timed }
    ensures origin { goes_back command.now ≡ false
        → session_origin m.new
        ≡ steps (kept_of m.old + steps_by command.now m.old.machine.timed.arch - kept_of m.new) (session_origin m.old) }
    ensures at_once { goes_back command.now ≡ false → StopsAtOnce m.old.machine.timed m.new.machine.timed }
    ensures within { m.new.machine.timed.cycles
        ≤ m.old.machine.timed.cycles + most_cycles command.now m.old.machine.timed }
    ensures million { m.new.machine.timed.cycles
        ≤ m.old.machine.timed.cycles + 1000000 * (m.old.machine.timed.config.limit + depth) }

    // Or back, where so many undos are kept, and what all of them restore stays; else nothing is changed.
    ensures back { (k : ℕ) → command.now ≡ Back k → k ≤ kept_of m.old
        → (m.new.machine.timed.arch ≡ steps (kept_of m.old - k) (session_origin m.old))
        × (session_origin m.new ≡ session_origin m.old)
        × (m.new.machine.timed.count + k ≡ m.old.machine.timed.count) }
    ensures stays { (k : ℕ) → command.now ≡ Back k → kept_of m.old < k → (m.new ≡ m.old) × (core.new ≡ core.old) }

    // Machine and core are reached by turns, one for each cycle, of which the same holds as in a drive; or by the undos that
    // are kept, and the core stays.
    ensures led { IsLed C.gives command.now m.old core.old m.new core.new }
    ensures config { m.new.machine.timed.config ≡ m.old.machine.timed.config }
    ensures machine { IsMachine m.new.machine.timed }
{
    m.recall();
    let kept = m.kept();
    move_by(m, core, command);
    reply_at(command, kept, m.machine())
}

/// A machine of width 1, with the undos of its newest instructions, and the core that it borrows.
#[derive(Drop)]
pub struct Session<'a, C> {
    rewindable: Rewindable,
    core: &'a mut C,
}

impl<'a, C: Core> Session<'a, C> {
    ghost use Rattle.diva_debug.specs.Sessions.{core_of, lent_name, machine_of, rewindable_of};

    /// A session of a machine of width 1, which cannot go back.
    pub fn new(machine: Machine, core: &'a mut C) -> Session<'a, C>
        requires { machine.timed.config.width ≡ 1 }
        ensures machine { rewindable_of result ≡ record { machine = machine; undos = []; keep = 0 } }
        ensures core { core_of result ≡ core.old }
        ensures same_core { lent_name result ≡ core.entry.ghost_name }
    {
        let rewindable = Rewindable::new(machine, Undos::none());
        Session { rewindable, core }
    }

    /// A session of a machine of width 1 that has done nothing, which keeps the undos of the newest instructions, `keep` at
    /// most: 1 to 4,096. The one error is that memory runs out; the machine is then dropped, and the core is as it was.
    pub fn with_back(
        alloc: Global,
        machine: Machine,
        core: &'a mut C,
        keep: u32,
    ) -> Result<Session<'a, C>, AllocError>
        requires width { machine.timed.config.width ≡ 1 }
        requires unused { machine.timed.count ≡ 0 }
        requires some { 1 ≤ keep }
        requires few { keep ≤ 4096 }
        ensures* rests { sem 𝓛 (RestsIfErr C.row core.entry (λ s. lent_name s) result (λ left. left ≡ core.old)) }
        ensures machine { IfOk result (λ s. rewindable_of s ≡ record { machine = machine; undos = []; keep = keep }) }
        ensures core { IfOk result (λ s. core_of s ≡ core.old) }
        ensures same_core { IfOk result (λ s. lent_name s ≡ core.entry.ghost_name) }
    {
        match Rewindable::with_room(alloc, machine, keep) {
            Ok(rewindable) => Ok(Session { rewindable, core }),
            Err(e) => Err(e),
        }
    }

    /// Does a command, and replies to it, as `reply_to` does.
    pub fn reply(&mut self, command: &Command) -> Line
        requires { (machine_of self.old).timed.cycles + most_cycles command.now (machine_of self.old).timed ≤ 2 ^ 60 }
        ensures reply { result ≡ reply_at command.now (kept_of (rewindable_of self.old))
            (machine_of self.new).timed.count (machine_of self.new).timed.arch (machine_of self.new).timed.under.log.newest }
        ensures far { (pc : ℕ) → command.now ≡ Until pc
            → (result ≡ far_line (machine_of self.new).timed.count (machine_of self.new).timed.arch.pc)
            ↔ IsFar pc (machine_of self.old).timed (machine_of self.new).timed }
        ensures no_flush { command.now ≡ Why
            → (result ≡ no_flush) ↔ ((machine_of self.new).timed.under.log.flushes ≡ 0) }
        ensures too_few { (k : ℕ) → command.now ≡ Back k
            → (result ≡ kept_line (kept_of (rewindable_of self.old))) ↔ (kept_of (rewindable_of self.old) < k) }
        ensures stands { standing_of (rewindable_of self.new)
            ≡ standing_after (rewindable_of self.old).keep command.now (standing_of (rewindable_of self.old))
            (machine_of self.old).timed.arch }
        ensures stood { (machine_of self.old).timed.arch
            ≡ steps (kept_of (rewindable_of self.old)) (session_origin (rewindable_of self.old)) }
        ensures stands_on { (machine_of self.new).timed.arch
            ≡ steps (kept_of (rewindable_of self.new)) (session_origin (rewindable_of self.new)) }
        ensures keep { (rewindable_of self.new).keep ≡ (rewindable_of self.old).keep }
        ensures moved { goes_back command.now ≡ false
            → Moves (steps_by command.now (machine_of self.old).timed.arch)
            (machine_of self.old).timed (machine_of self.new).timed }
        ensures origin { goes_back command.now ≡ false
            → session_origin (rewindable_of self.new)
            ≡ steps (kept_of (rewindable_of self.old) + steps_by command.now (machine_of self.old).timed.arch
            - kept_of (rewindable_of self.new)) (session_origin (rewindable_of self.old)) }
        ensures at_once { goes_back command.now ≡ false
            → StopsAtOnce (machine_of self.old).timed (machine_of self.new).timed }
        ensures within { (machine_of self.new).timed.cycles
            ≤ (machine_of self.old).timed.cycles + most_cycles command.now (machine_of self.old).timed }
        ensures million { (machine_of self.new).timed.cycles
            ≤ (machine_of self.old).timed.cycles + 1000000 * ((machine_of self.old).timed.config.limit + depth) }
        ensures back { (k : ℕ) → command.now ≡ Back k → k ≤ kept_of (rewindable_of self.old)
            → ((machine_of self.new).timed.arch
            ≡ steps (kept_of (rewindable_of self.old) - k) (session_origin (rewindable_of self.old)))
            × (session_origin (rewindable_of self.new) ≡ session_origin (rewindable_of self.old))
            × ((machine_of self.new).timed.count + k ≡ (machine_of self.old).timed.count) }
        ensures stays { (k : ℕ) → command.now ≡ Back k → kept_of (rewindable_of self.old) < k
            → (rewindable_of self.new ≡ rewindable_of self.old) × (core_of self.new ≡ core_of self.old) }
        ensures led { IsLed C.gives command.now (rewindable_of self.old) (core_of self.old)
            (rewindable_of self.new) (core_of self.new) }
        ensures config { (machine_of self.new).timed.config ≡ (machine_of self.old).timed.config }
        ensures machine { IsMachine (machine_of self.new).timed }
        ensures same_core { lent_name self.new ≡ lent_name self.old }
    {
        reply_to(&mut self.rewindable, self.core, command)
    }

    /// How many cycles the machine has run.
    pub fn cycles(&self) -> u64
        ensures { result ≡ (machine_of self.now).timed.cycles }
    {
        self.rewindable.machine().cycles()
    }

    /// The machine and the core, as the last reply left them.
    pub fn into_parts(self) -> (Machine, &'a mut C)
        ensures machine { result.0 ≡ machine_of self.entry }
        ensures core { result.1.now ≡ core_of self.entry }
        ensures same_core { result.1.ghost_name ≡ lent_name self.entry }
    {
        (self.rewindable.into_machine(), self.core)
    }
}
