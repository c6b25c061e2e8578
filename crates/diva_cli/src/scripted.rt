// A machine that is driven under a script, which is asked in the cycles from the first to the last that a row touches, and in no other.
ghost use Rattle.std.specs.Prelude.{◌≡◌, ◌+◌, ◌-◌, ◌≤◌, ◌^◌, min};
ghost use Rattle.diva_faults.specs.Spoiled.{spoiled};
ghost use Rattle.diva_cli.specs.Changes.{change};
ghost use Rattle.diva_cli.specs.Lanes.{AreHonest, are_asked};
ghost use Rattle.diva_cli.specs.Tasks.{DrivesFor};

use crate::checking::drive_checked;
use crate::lanes::Lanes;
use diva_args::LanePlace;
use diva_core::Core;
use diva_faults::{Faulty, Script};
use diva_machine::Machine;
use diva_vote::Lane;

/// Drives a machine by a core under a script, for so many cycles at most. Where a place is given, three lanes vote, and the one in
/// that place is the liar.
///
/// In the cycles before the first that a row touches, and in those behind the last, the core is asked by itself, so that the script
/// costs nothing there. Between these parts the machine is asked whether it has ended, and not the drive, whose loop would have to
/// keep the answer in each cycle.
pub(crate) fn drive_scripted<C: Core, L: Lane>(
    m: &mut Machine,
    core: &mut C,
    script: &Script,
    budget: u64,
    liar: Option<LanePlace>,
    lanes: &mut Lanes<L>,
)
    requires cycles { m.old.timed.cycles + budget ≤ 2 ^ 60 }
    requires honest { AreHonest L.honest lanes.old }
    ensures honest { AreHonest L.honest lanes.new }
    ensures drives { DrivesFor (spoiled script.now C.gives) budget (change m.old.timed m.new.timed) (change core.old core.new)
        (are_asked L.says lanes.old lanes.new liar) }
{
    if !m.goes_on() {
        return;
    }
    let last = m.cycles() + budget;
    let before = cycles_before(script.first_cycle(), m.cycles(), last);
    drive_checked(m, core, before, liar, lanes);
    if !m.goes_on() {
        return;
    }
    let touched = cycles_before(script.end_cycle(), m.cycles(), last);
    drive_touched(m, core, script, touched, liar, lanes);
    if !m.goes_on() {
        return;
    }
    drive_checked(m, core, last - m.cycles(), liar, lanes);
}

/// The same, where the core is under the script in each cycle.
fn drive_touched<C: Core, L: Lane>(
    m: &mut Machine,
    core: &mut C,
    script: &Script,
    budget: u64,
    liar: Option<LanePlace>,
    lanes: &mut Lanes<L>,
)
    requires cycles { m.old.timed.cycles + budget ≤ 2 ^ 60 }
    requires honest { AreHonest L.honest lanes.old }
    ensures honest { AreHonest L.honest lanes.new }
    ensures drives { DrivesFor (spoiled script.now C.gives) budget (change m.old.timed m.new.timed) (change core.old core.new)
        (are_asked L.says lanes.old lanes.new liar) }
{
    let mut faulty = Faulty::new(core, script);
    drive_checked(m, &mut faulty, budget, liar, lanes);
}

/// How many of the cycles behind `run` come before `cycle`, and are no later than `last`.
fn cycles_before(cycle: u64, run: u64, last: u64) -> u64
    ensures { result ≡ min last (cycle - 1) - run }
{
    last.min(cycle.saturating_sub(1)).saturating_sub(run)
}
