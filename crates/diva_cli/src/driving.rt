// The core that drives a machine, and what is done with them.
ghost use Rattle.diva_faults.specs.Spoiled.{spoiled};
ghost use Rattle.diva_cli.specs.Changes.{change};
ghost use Rattle.diva_outside.specs.Lent.{lent};
ghost use Rattle.diva_cli.specs.Lanes.{AreHonest, are_asked};
ghost use Rattle.diva_cli.specs.Tasks.{Plays};
ghost use Rattle.diva_cli.specs.Ready.{PlaysBy};

use crate::lanes::Lanes;
use crate::tasks::Task;
use diva_core::Core;
use diva_faults::Script;
use diva_outside::{Sink, SinkFailed};
use diva_tape::{Echo, Flood, Lockstep, Noise, Scalar, Silent, Tape, TapeCore};
use diva_vote::Lane;

/// The core that drives a machine, with all memory that it ever needs.
#[derive(Drop)]
pub enum CoreInUse {
    /// The core that the program is handed.
    Own,
    Lockstep,
    Scalar(Scalar),
    Silent,
    Flood,
    Echo,
    Noise(Noise),
    /// A core that plays this tape from its first list on.
    Tape(Tape),
}

/// Does a task with the core in use, under a script; `own` is the core handed in, and `lanes` are those that may vote.
pub(crate) fn perform_by<T: Task, C: Core, S: Sink, L: Lane>(
    task: &mut T,
    on: &mut T::On,
    used: &mut CoreInUse,
    script: &Script,
    own: &mut C,
    lanes: &mut Lanes<L>,
    sink: &mut S,
) -> Result<(), SinkFailed>
    requires allows { T.allows task.old on.old }
    requires honest { AreHonest L.honest lanes.old }
    ensures { PlaysBy C.gives used.old script.now (change (T.timed on.old) (T.timed on.new)) (change own.old own.new)
        (T.does task.old task.new (change (T.timed on.old) (T.timed on.new)) (are_asked L.says lanes.old lanes.new)
        (lent S.account sink.old sink.new) result) }
{
    match used {
        CoreInUse::Own => perform_under(task, on, own, script, lanes, sink),
        CoreInUse::Lockstep => perform_under(task, on, &mut Lockstep, script, lanes, sink),
        CoreInUse::Scalar(scalar) => perform_under(task, on, scalar, script, lanes, sink),
        CoreInUse::Silent => perform_under(task, on, &mut Silent, script, lanes, sink),
        CoreInUse::Flood => perform_under(task, on, &mut Flood, script, lanes, sink),
        CoreInUse::Echo => perform_under(task, on, &mut Echo, script, lanes, sink),
        CoreInUse::Noise(noise) => perform_under(task, on, noise, script, lanes, sink),
        CoreInUse::Tape(tape) => perform_under(
            task,
            on,
            &mut TapeCore::new(tape),
            script,
            lanes,
            sink,
        ),
    }
}

/// Does a task with a core under a script. A script that has no rows costs nothing: it is asked once, and the loop is then the one
/// that any other caller of `drive` has. Where nothing is written, that is also the loop in the cycles before the first that a row
/// touches, and behind the last.
#[inline(always)]
fn perform_under<T: Task, D: Core, S: Sink, L: Lane>(
    task: &mut T,
    on: &mut T::On,
    core: &mut D,
    script: &Script,
    lanes: &mut Lanes<L>,
    sink: &mut S,
) -> Result<(), SinkFailed>
    requires allows { T.allows task.old on.old }
    requires honest { AreHonest L.honest lanes.old }
    ensures { Plays (spoiled script.now D.gives) (change (T.timed on.old) (T.timed on.new)) (change core.old core.new)
        (T.does task.old task.new (change (T.timed on.old) (T.timed on.new)) (are_asked L.says lanes.old lanes.new)
        (lent S.account sink.old sink.new) result) }
{
    if script.rows().is_empty() {
        task.alone(on, core, lanes, sink)
    } else {
        task.scripted(script, on, core, lanes, sink)
    }
}
