// An open machine and a core, turn by turn.
ghost use Rattle.std.specs.Prelude.{◌≡◌, ◌+◌, ◌≤◌, ◌^◌};
ghost use Rattle.diva_open.specs.Turns.{IsOpenDrive};

use crate::machine::OpenMachine;
use diva_core::{Claims, Core};
use diva_hart::Drive;

/// Takes turns until the machine ends or the budget's cycles are run: in each the core is asked once, and one cycle runs. On an ended
/// machine nothing changes, and the core is not asked. The cycles that have run and the budget may come to 2^60 at most.
#[inline(never)]
pub fn drive_open<C: Core>(m: &mut OpenMachine, core: &mut C, budget: u64) -> Drive
    requires { m.old.timed.cycles + budget ≤ 2 ^ 60 }
    ensures { IsOpenDrive C.gives budget m.old core.old m.new core.new result }
{
    let mut list = Claims::new();
    let last = m.cycles() + budget;
    while m.goes_on() {
        if m.cycles() >= last {
            return Drive::Budget;
        }
        list.clear();
        core.cycle(&m.told(), &m.view(), &mut list);
        m.cycle(&list);
    }
    Drive::Ended
}
