// A machine and a core, turn by turn.
ghost use Rattle.std.specs.Prelude.{◌≡◌, ◌+◌, ◌≤◌, ◌<◌, ◌^◌, ◌↔◌, ◌++◌, IsTrue, List, length, true, false};
ghost use Rattle.diva_isa.specs.State.{goes_on};
ghost use Rattle.diva_core.specs.Told.{told_of};
ghost use Rattle.diva_core.specs.Timed.{room_of};
ghost use Rattle.diva_core.specs.Machine.{IsMachine};
ghost use Rattle.diva_vote.specs.Questions.{Question};
ghost use Rattle.diva_machine.specs.Asked.{asked_of};
ghost use Rattle.diva_machine.specs.Cycles.{IsTurn};
ghost use Rattle.diva_machine.specs.Drives.{IsDrive};
ghost use Rattle.diva_machine.specs.Inner.{LedTurns};

use crate::machine::Machine;
use crate::stages::{Checks, Stages};
use diva_core::{Claims, Core};
use diva_hart::Drive;

/// Asks the core once and runs one cycle; the list is then what was handed over. On an ended
/// machine the core is not asked, and the list is empty. Fewer than 2^60 cycles may have run before.
pub fn turn<C: Core>(m: &mut Machine, core: &mut C, list: &mut Claims)
    requires { m.old.timed.cycles < 2 ^ 60 }
    ensures is { IsTurn C.gives m.old core.old list.new m.new core.new }
    ensures outvoted { m.new.outvoted ≡ m.old.outvoted }
{
    turn_by(m, core, list, &mut Checks);
}

/// The same, whatever the stages are that a claim passes through.
#[inline(always)]
pub(crate) fn turn_by<C: Core, S: Stages>(
    m: &mut Machine,
    core: &mut C,
    list: &mut Claims,
    stages: &mut S,
)
    requires cycles { m.old.timed.cycles < 2 ^ 60 }
    requires stages_sound { S.sound stages.old }
    ensures stages_sound { S.sound stages.new }
    ensures led { (first : S) (before : List Question) → S.led first before stages.old
        → S.led first (before ++ asked_of m.old.timed) stages.new }
    ensures is { IsTurn C.gives m.old core.old list.new m.new core.new }
    ensures outvoted { m.new.outvoted ≡ m.old.outvoted }
{
    if m.goes_on() {
        let fits = ask(m, core, list);
        let _ = m.cycle_within(list, fits, stages);
    } else {
        list.clear();
        let _ = m.cycle_called(list, stages);
    }
}

/// The first half of a turn of a machine that goes on: the core is asked. Whether there is room for all claims of the list in the
/// cycle that follows.
#[inline(always)]
fn ask<C: Core>(m: &Machine, core: &mut C, list: &mut Claims) -> bool
    requires { goes_on m.now.timed.arch ≡ true }
    ensures asked { C.gives core.old (told_of m.now.timed) m.now.timed.arch list.new core.new }
    ensures fits { IsTrue result → length list.new ≤ room_of m.now.timed }
{
    list.clear();
    let told = m.told_going_on();
    core.cycle(&told, &m.view(), list);
    // Few lists have more claims than there is room for. A core that waits asks for no room, and then none is worked out.
    list.len() <= told.room as usize
}

/// Takes turns until the machine ends or the budget's cycles are run. On an ended machine nothing
/// changes, and the core is not asked. The cycles that have run and the budget may come to 2^60 at most.
pub fn drive<C: Core>(m: &mut Machine, core: &mut C, budget: u64) -> Drive
    requires { m.old.timed.cycles + budget ≤ 2 ^ 60 }
    ensures is { IsDrive C.gives budget m.old core.old m.new core.new result }
    ensures outvoted { m.new.outvoted ≡ m.old.outvoted }
{
    drive_by(m, core, &mut Checks, budget)
}

/// The same, whatever the stages are that a claim passes through. It is a function of its own, which is called once for a drive:
/// so its loop is made for its core and its stages, and for nothing else.
#[inline(never)]
pub(crate) fn drive_by<C: Core, S: Stages>(
    m: &mut Machine,
    core: &mut C,
    stages: &mut S,
    budget: u64,
) -> Drive
    requires cycles { m.old.timed.cycles + budget ≤ 2 ^ 60 }
    requires stages_sound { S.sound stages.old }
    ensures stages_sound { S.sound stages.new }
    ensures was { IsMachine m.old.timed }
    ensures led { LedTurns C.gives m.old core.old m.new core.new S.led stages.old stages.new }
    ensures ended { (result ≡ Drive.Ended) ↔ (goes_on m.new.timed.arch ≡ false) }
    ensures budget { (result ≡ Drive.Budget)
        ↔ ((m.new.timed.cycles ≡ m.old.timed.cycles + budget) × (goes_on m.new.timed.arch ≡ true)) }
    ensures within { m.new.timed.cycles ≤ m.old.timed.cycles + budget }
    ensures stays { goes_on m.old.timed.arch ≡ false
        → (m.new ≡ m.old) × (core.new ≡ core.old) × (stages.new ≡ stages.old) }
    ensures outvoted { m.new.outvoted ≡ m.old.outvoted }
{
    if !m.goes_on() {
        return Drive::Ended;
    }
    let mut list = Claims::new();
    let last = m.cycles() + budget;
    // Each half of a turn is made part of the loop: as one function they would be too large for that.
    while m.cycles() < last {
        let fits = ask(m, core, &mut list);
        let committed = m.cycle_within(&list, fits, stages);
        if m.has_just_ended(committed) {
            return Drive::Ended;
        }
    }
    Drive::Budget
}
