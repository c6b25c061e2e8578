// How the claims of a machine are checked: by the checks alone, or by three lanes that vote, of which one may lie. Nothing that is
// promised of the machine of a turn or a drive depends on it.
ghost use Rattle.std.specs.Prelude.{◌+◌, ◌≤◌, ◌<◌, ◌^◌, None, Some};
ghost use Rattle.diva_machine.specs.Asked.{DrivesAsking, asked_of};
ghost use Rattle.diva_machine.specs.Cycles.{IsTurn};
ghost use Rattle.diva_machine.specs.Drives.{IsDrive};
ghost use Rattle.diva_cli.specs.Lanes.{AreHonest, are_asked};

use crate::lanes::Lanes;
use diva_args::LanePlace;
use diva_core::{Claims, Core};
use diva_machine::{Drive, Machine, drive, drive_voted, turn, turn_voted};
use diva_vote::{Lane, recall_two_honest};

/// Calls this with these values, then the three lanes that vote where the liar has this place, and then those values.
macro_rules! vote_with_liar {
    ($lanes:expr, $place:expr, $vote:ident, ($($before:expr),+), ($($behind:expr),*)) => {{
        let Lanes {
            first,
            second,
            third,
        } = $lanes;
        match $place {
            LanePlace::First => {
                recall_two_honest(&first.liar, &second.honest, &third.honest);
                $vote($($before,)+ &mut first.liar, &mut second.honest, &mut third.honest $(, $behind)*)
            }
            LanePlace::Second => {
                recall_two_honest(&first.honest, &second.liar, &third.honest);
                $vote($($before,)+ &mut first.honest, &mut second.liar, &mut third.honest $(, $behind)*)
            }
            LanePlace::Third => {
                recall_two_honest(&first.honest, &second.honest, &third.liar);
                $vote($($before,)+ &mut first.honest, &mut second.honest, &mut third.liar $(, $behind)*)
            }
        }
    }};
}

/// Drives a machine for so many cycles at most. Where a place is given, three lanes vote, and the one in that place is the liar.
#[inline(always)]
pub(crate) fn drive_checked<C: Core, L: Lane>(
    m: &mut Machine,
    core: &mut C,
    budget: u64,
    liar: Option<LanePlace>,
    lanes: &mut Lanes<L>,
) -> Drive
    requires cycles { m.old.timed.cycles + budget ≤ 2 ^ 60 }
    requires honest { AreHonest L.honest lanes.old }
    ensures honest { AreHonest L.honest lanes.new }
    ensures drives { DrivesAsking C.gives m.old core.old m.new core.new (are_asked L.says lanes.old lanes.new liar) }
    ensures is { IsDrive C.gives budget m.old core.old m.new core.new result }
{
    match liar {
        None => drive(m, core, budget),
        Some(place) => drive_with_liar(m, core, budget, place, lanes),
    }
}

/// Drives a machine for so many cycles at most, where three lanes vote, and the one in this place is the liar. It is called, so that
/// the loop in which nothing is voted on is what it is without it.
#[cold]
#[inline(never)]
fn drive_with_liar<C: Core, L: Lane>(
    m: &mut Machine,
    core: &mut C,
    budget: u64,
    place: LanePlace,
    lanes: &mut Lanes<L>,
) -> Drive
    requires cycles { m.old.timed.cycles + budget ≤ 2 ^ 60 }
    requires honest { AreHonest L.honest lanes.old }
    ensures honest { AreHonest L.honest lanes.new }
    ensures drives { DrivesAsking C.gives m.old core.old m.new core.new (are_asked L.says lanes.old lanes.new (Some place)) }
    ensures is { IsDrive C.gives budget m.old core.old m.new core.new result }
{
    vote_with_liar!(lanes, place, drive_voted, (m, core), (budget))
}

/// Takes a turn. Where a place is given, three lanes vote, and the one in that place is the liar.
#[inline(always)]
pub(crate) fn turn_checked<C: Core, L: Lane>(
    m: &mut Machine,
    core: &mut C,
    list: &mut Claims,
    liar: Option<LanePlace>,
    lanes: &mut Lanes<L>,
)
    requires cycles { m.old.timed.cycles < 2 ^ 60 }
    requires honest { AreHonest L.honest lanes.old }
    ensures honest { AreHonest L.honest lanes.new }
    ensures lanes { are_asked L.says lanes.old lanes.new liar (asked_of m.old.timed) }
    ensures is { IsTurn C.gives m.old core.old list.new m.new core.new }
{
    match liar {
        None => turn(m, core, list),
        Some(place) => turn_with_liar(m, core, list, place, lanes),
    }
}

/// Takes a turn, where three lanes vote, and the one in this place is the liar.
#[cold]
#[inline(never)]
fn turn_with_liar<C: Core, L: Lane>(
    m: &mut Machine,
    core: &mut C,
    list: &mut Claims,
    place: LanePlace,
    lanes: &mut Lanes<L>,
)
    requires cycles { m.old.timed.cycles < 2 ^ 60 }
    requires honest { AreHonest L.honest lanes.old }
    ensures honest { AreHonest L.honest lanes.new }
    ensures lanes { are_asked L.says lanes.old lanes.new (Some place) (asked_of m.old.timed) }
    ensures is { IsTurn C.gives m.old core.old list.new m.new core.new }
{
    vote_with_liar!(lanes, place, turn_voted, (m, core, list), ())
}
