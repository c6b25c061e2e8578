// The lines of the runs under some faults, each put as its runs end.
ghost use Rattle.std.specs.Prelude.{◌≡◌};
ghost use Rattle.diva_isa.specs.State.{State};
ghost use Rattle.diva_core.specs.Timed.{Config as Numbers};
ghost use Rattle.diva_outside.specs.Lent.{lent};
ghost use Rattle.diva_trial.specs.Begun.{AreReady, AreTrials};
ghost use Rattle.diva_trial.specs.Putting.{AreOfOneRun, PutsOutcome};
ghost use Rattle.diva_trial.specs.Lines.{IsOutcome, PutsTrials, numbers_in};

use crate::trials::Trials;
use diva_core::CopyCore;
use diva_inject::{Part, Plan, fault_at, header_line, outcome_line};
use diva_outside::{Sink, SinkFailed, put_line};

/// Faults by number: of those of a plan the ones of a part, from the first number on and below the count.
#[derive(Drop)]
pub struct Faults {
    /// What the faults are drawn of.
    pub plan: Plan,
    /// The part that is run.
    pub part: Part,
    /// The least number of a fault that is run.
    pub first: u32,
    /// How many faults there are in all parts. Their numbers count from 0.
    pub count: u32,
}

/// Puts a header, makes the runs under each fault, and puts a line of each as its runs end. No memory is taken.
pub fn put_trials<C: CopyCore + Drop, S: Sink>(
    trials: &mut Trials<'_, C>,
    faults: &Faults,
    sink: &mut S,
) -> Result<(), SinkFailed>
    requires ready { AreReady trials.old }
    ensures { (config : Numbers) (start : State) (core : C) → AreTrials C.gives config start core trials.old
        → PutsTrials (IsOutcome C.gives config start core trials.old faults.now.plan) (numbers_in faults.now) (lent S.account sink.old sink.new) result }
{
    put_line(&header_line(), sink)?;
    let count = u64::from(faults.count);
    let mut number = faults.part.next(u64::from(faults.first));
    while number < count {
        put_trial(trials, &faults.plan, number as u32, sink)?;
        number = faults.part.next(number + 1);
    }
    Ok(())
}

/// Makes the runs under the fault of a number, and puts a line of it.
fn put_trial<C: CopyCore + Drop, S: Sink>(
    trials: &mut Trials<'_, C>,
    plan: &Plan,
    number: u32,
    sink: &mut S,
) -> Result<(), SinkFailed>
    requires ready { AreReady trials.old }
    ensures line { (config : Numbers) (start : State) (core : C) → AreTrials C.gives config start core trials.old
        → PutsOutcome (IsOutcome C.gives config start core trials.old plan.now number) (lent S.account sink.old sink.new) result }
    ensures stays { AreOfOneRun C.gives trials.old trials.new }
    ensures ready { AreReady trials.new }
{
    let outcome = trials.run(number, &fault_at(plan, u64::from(number)));
    put_line(&outcome_line(&outcome), sink)
}
