// Turns of a machine whose claims are checked by three lanes that vote.
ghost use Rattle.std.specs.Prelude.{◌+◌, ◌≤◌, ◌<◌, ◌^◌};
ghost use Rattle.diva_vote.specs.Polls.{AlwaysTwoAreRight, ArePolledAndCounted};
ghost use Rattle.diva_machine.specs.Asked.{DrivesAsking, asked_of};
ghost use Rattle.diva_machine.specs.Cycles.{IsTurn};
ghost use Rattle.diva_machine.specs.Drives.{IsDrive};

use crate::machine::Machine;
use crate::panel::Panel;
use crate::turns::{drive_by, turn_by};
use diva_core::{Claims, Core};
use diva_hart::Drive;
use diva_vote::Lane;

/// Asks the core once and runs one cycle, as `turn`, where what a stage finds in a claim is what most of three lanes say. It is enough
/// that of the three answers to each question two are right, whichever they are.
pub fn turn_voted<C: Core, A: Lane, B: Lane, L: Lane>(
    m: &mut Machine,
    core: &mut C,
    list: &mut Claims,
    a: &mut A,
    b: &mut B,
    l: &mut L,
)
    requires cycles { m.old.timed.cycles < 2 ^ 60 }
    requires majority { AlwaysTwoAreRight A.says B.says L.says a.old b.old l.old }
    // The lanes were polled on the questions of the cycle, and it was counted where one was outvoted.
    ensures polled { ArePolledAndCounted A.says B.says L.says (asked_of m.old.timed)
        a.old b.old l.old a.new b.new l.new m.old.outvoted m.new.outvoted }
    // Two at least will be right again, and each lane that was honest is honest again.
    ensures majority { AlwaysTwoAreRight A.says B.says L.says a.new b.new l.new }
    ensures first_stays { A.honest a.old → A.honest a.new }
    ensures second_stays { B.honest b.old → B.honest b.new }
    ensures third_stays { L.honest l.old → L.honest l.new }
    ensures is { IsTurn C.gives m.old core.old list.new m.new core.new }
{
    let mut panel = Panel::new(a, b, l, m.outvoted());
    turn_by(m, core, list, &mut panel);
    m.note_outvoted(panel.outvoted);
}

/// Takes turns until the machine ends or the budget's cycles are run, as `drive`, where what a stage finds in a claim is what
/// most of three lanes say. It is enough that of the three answers to each question two are right, whichever they are. On an ended
/// machine nothing changes, and neither the core nor a lane is asked.
pub fn drive_voted<C: Core, A: Lane, B: Lane, L: Lane>(
    m: &mut Machine,
    core: &mut C,
    a: &mut A,
    b: &mut B,
    l: &mut L,
    budget: u64,
) -> Drive
    requires cycles { m.old.timed.cycles + budget ≤ 2 ^ 60 }
    requires majority { AlwaysTwoAreRight A.says B.says L.says a.old b.old l.old }
    // The lanes were polled on the questions of the drive's turns, and it was counted where one was outvoted.
    ensures polled { DrivesAsking C.gives m.old core.old m.new core.new (λ asked. ArePolledAndCounted A.says B.says L.says asked
        a.old b.old l.old a.new b.new l.new m.old.outvoted m.new.outvoted) }
    // Two at least will be right again, and each lane that was honest is honest again.
    ensures majority { AlwaysTwoAreRight A.says B.says L.says a.new b.new l.new }
    ensures first_stays { A.honest a.old → A.honest a.new }
    ensures second_stays { B.honest b.old → B.honest b.new }
    ensures third_stays { L.honest l.old → L.honest l.new }
    ensures is { IsDrive C.gives budget m.old core.old m.new core.new result }
{
    let mut panel = Panel::new(a, b, l, m.outvoted());
    let driven = drive_by(m, core, &mut panel, budget);
    m.note_outvoted(panel.outvoted);
    driven
}
