// Two harts and their cores, turn by turn.
ghost use Rattle.std.specs.Prelude.{◌≡◌, ◌+◌, ◌<◌, ◌≤◌, ◌^◌, ◌↔◌, true, false};
ghost use Rattle.diva_duo.specs.Duo.{is_over};
ghost use Rattle.diva_duo.specs.Which.{First, Second, which};
ghost use Rattle.diva_duo.specs.Between.{HasGone, IsDuo, WillGo};
ghost use Rattle.diva_duo.specs.Turns.{HandsOver, DrivesDuo};

use crate::duo::Duo;
use diva_core::{Claims, Core};
use diva_hart::Drive;

/// Takes turns until both harts have ended and both buffers are empty, or the budget's cycles are run. In each turn the core of a
/// hart that goes on is asked; that of an ended hart is not. The cycles that have run and the budget may come to 2^60 at most.
pub fn drive2<A: Core, B: Core>(duo: &mut Duo, a: &mut A, b: &mut B, budget: u64) -> Drive
    requires { duo.old.duo.cycles + budget ≤ 2 ^ 60 }
    // Harts and cores are reached by turns, one for each cycle. The actions of all cycles, replayed, lead from the old harts to the
    // new; the duo shows those of the last one.
    ensures drives { DrivesDuo A.gives B.gives duo.old a.old b.old duo.new a.new b.new }
    ensures ended { (result ≡ Drive.Ended) ↔ (is_over duo.new.duo ≡ true) }
    ensures budget { (result ≡ Drive.Budget)
        ↔ ((duo.new.duo.cycles ≡ duo.old.duo.cycles + budget) × (is_over duo.new.duo ≡ false)) }
    ensures within { duo.new.duo.cycles ≤ duo.old.duo.cycles + budget }
    ensures stays { is_over duo.old.duo ≡ true → (duo.new ≡ duo.old) × (a.new ≡ a.old) × (b.new ≡ b.old) }
    // Each hart goes on within the watchdog's limit and six cycles, whatever is handed over, and has done so until now.
    ensures first_will_go { WillGo First duo.new.duo }
    ensures second_will_go { WillGo Second duo.new.duo }
    ensures first_has_gone { HasGone First duo.new.duo }
    ensures second_has_gone { HasGone Second duo.new.duo }
    ensures duo { IsDuo duo.new.duo }
{
    if duo.ended() {
        return Drive::Ended;
    }
    let mut first = Claims::new();
    let mut second = Claims::new();
    for _ in 0..budget {
        ask(duo, 0, a, &mut first);
        ask(duo, 1, b, &mut second);
        duo.cycle(&first, &second);
        if duo.ended() {
            return Drive::Ended;
        }
    }
    Drive::Budget
}

/// The core of a hart, 0 or 1, is asked, where the hart goes on.
fn ask<C: Core>(duo: &Duo, h: u8, core: &mut C, list: &mut Claims)
    requires { h < 2 }
    ensures { HandsOver C.gives (which h) duo.now.duo core.old list.new core.new }
{
    list.clear();
    if duo.goes_on(h) {
        let told = duo.told(h);
        core.cycle(&told, &duo.view(h), list);
    }
}
