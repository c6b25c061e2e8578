// A machine and a core, moved by instructions.
ghost use Rattle.std.specs.Prelude.{◌≡◌, ◌+◌, ◌*◌, ◌≤◌, ◌^◌, ℕ, false};
ghost use Rattle.diva_core.specs.Timed.{depth};
ghost use Rattle.diva_debug.specs.declared.command.Command.TheVariants.{Back};
ghost use Rattle.diva_debug.specs.Inner.{Advances, IsBack};
ghost use Rattle.diva_debug.specs.Moves.{IsShort, goes_back, most_cycles, stands_at, steps_by, steps_in, steps_until};
ghost use Rattle.diva_debug.specs.Rewindable.{IsRewindable};

use crate::command::Command;
use crate::rewindable::Rewindable;
use diva_core::Core;

/// The instructions that `until` steps at most.
const FAR: u32 = 100_000;

/// Moves a machine as a command says: on until it has ended, or back where so many undos are kept.
#[tactic(auto, unfolding(crate::specs::Moves::steps_by))]
pub(crate) fn move_by<C: Core>(m: &mut Rewindable, core: &mut C, command: &Command)
    requires sound { IsRewindable m.old }
    requires cycles { m.old.machine.timed.cycles + most_cycles command.now m.old.machine.timed ≤ 2 ^ 60 }
    ensures short { IsShort command.now }
    ensures on { goes_back command.now ≡ false
        → Advances C.gives (steps_by command.now m.old.machine.timed.arch) m.old core.old m.new core.new }
    ensures back { (k : ℕ) → command.now ≡ Back k → IsBack k m.old m.new × (core.new ≡ core.old) }
{
    match command {
        Command::Step(count) => advance(m, core, count.get()),
        Command::Until(pc) => seek(m, core, *pc, FAR),
        Command::Back(count) => go_back(m, count.get()),
        Command::Reg(_) => {}
        Command::Mem(_) => {}
        Command::Why => {}
    }
}

/// So many instructions more, or as many as there are.
fn advance<C: Core>(m: &mut Rewindable, core: &mut C, count: u32)
    requires sound { IsRewindable m.old }
    requires cycles { m.old.machine.timed.cycles + count * (m.old.machine.timed.config.limit + depth) ≤ 2 ^ 60 }
    ensures { Advances C.gives (steps_in count m.old.machine.timed.arch) m.old core.old m.new core.new }
{
    for _ in 0..count {
        if !m.goes_on() {
            return;
        }
        m.step_one(core);
    }
}

/// One instruction at least, until the machine stands at a pc: at most so many, or as many as there are.
fn seek<C: Core>(m: &mut Rewindable, core: &mut C, pc: u32, most: u32)
    requires sound { IsRewindable m.old }
    requires cycles { m.old.machine.timed.cycles + most * (m.old.machine.timed.config.limit + depth) ≤ 2 ^ 60 }
    ensures { Advances C.gives (steps_until most pc m.old.machine.timed.arch) m.old core.old m.new core.new }
{
    for _ in 0..most {
        if !m.goes_on() {
            return;
        }
        m.step_one(core);
        if stands_at(m, pc) {
            return;
        }
    }
}

/// So many instructions back, where they are kept.
fn go_back(m: &mut Rewindable, count: u32)
    requires { IsRewindable m.old }
    ensures { IsBack count m.old m.new }
{
    let count = u64::from(count);
    if count <= m.kept() {
        m.back(count);
    }
}

/// Whether the machine goes on, with this pc. The end is looked at first.
fn stands_at(m: &Rewindable, pc: u32) -> bool
    ensures { result ≡ stands_at pc m.now.machine.timed.arch }
{
    m.goes_on() && m.machine().view().pc() == pc
}
