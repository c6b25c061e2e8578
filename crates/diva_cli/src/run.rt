// The commands `run` and `tape`: each reads its files with neither core nor sink in its hands, and then drives a machine.
ghost use Rattle.std.specs.Prelude.{◌≡◌, ◌+◌, ◌≤◌, ◌^◌};
ghost use Rattle.diva_args.specs.declared.job.Job.TheVariants.{Run, Tape};
ghost use Rattle.diva_core.specs.Machine.{IsConfig};
ghost use Rattle.diva_machine.specs.Asked.{asked_over};
ghost use Rattle.diva_process.specs.Programs.{FileBytes};
ghost use Rattle.diva_cli.specs.Changes.{asking, change};
ghost use Rattle.diva_outside.specs.Lent.{lent};
ghost use Rattle.diva_cli.specs.Lanes.{AreHonest, are_asked};
ghost use Rattle.diva_cli.specs.Parts.{DoesJob, WritesJob};
ghost use Rattle.diva_cli.specs.Tasks.{IsRun};
ghost use Rattle.diva_cli.specs.Ready.{IsOnePart, IsReady, PlaysBy};

use crate::driving::perform_by;
use crate::lanes::Lanes;
use crate::loading::{Ready, make_ready};
use crate::tasks::{Quiet, Watched};
use crate::watching::{CommitLines, TapeLines};
use crate::writing::{end_status, write_finished};
use diva_args::{LanePlace, RunOptions, TapeOptions};
use diva_core::Core;
use diva_outside::{Files, Sink, SinkFailed};
use diva_process::{Failure, Status, write_stop};
use diva_vote::Lane;
use std::alloc::Global;

/// Runs an image, and writes the text of the run. All memory is taken before the core is asked and
/// before anything is written.
#[inline(never)]
pub(crate) fn run<F: Files, S: Sink, C: Core, L: Lane>(
    alloc: Global,
    options: RunOptions,
    files: &mut F,
    sink: &mut S,
    core: &mut C,
    lanes: &mut Lanes<L>,
) -> Result<Status, Failure>
    requires { AreHonest L.honest lanes.old }
    ensures { DoesJob C.gives (Run options) (asking core.old core.new (are_asked L.says lanes.old lanes.new))
        (lent F.account files.old files.new) (lent S.account sink.old sink.new) result }
{
    match make_ready(alloc, files, &options.setup) {
        Ok(mut ready) => run_ready(&mut ready, options, sink, core, lanes),
        Err(stop) => write_stop(stop, sink),
    }
}

/// Drives a new machine, and writes the text of the run.
fn run_ready<S: Sink, C: Core, L: Lane>(
    ready: &mut Ready,
    options: RunOptions,
    sink: &mut S,
    core: &mut C,
    lanes: &mut Lanes<L>,
) -> Result<Status, Failure>
    requires honest { AreHonest L.honest lanes.old }
    requires new { ready.old.machine.timed.cycles ≡ 0 }
    requires fits { IsConfig options.setup.config }
    ensures { (bytes : FileBytes) → IsReady options.setup bytes ready.old
        → WritesJob C.gives (Run options) (asking core.old core.new (are_asked L.says lanes.old lanes.new)) bytes (lent S.account sink.old sink.new) result }
{
    drive_run(
        ready,
        options.trace,
        u64::from(options.cycles.get()),
        options.liar,
        core,
        lanes,
        sink,
    )?;
    write_finished(&ready.machine, options.dump, sink)?;
    Ok(end_status(&ready.machine))
}

/// Drives a machine for so many cycles at most, and writes its commit lines if they are asked for. Nothing watches the turns of a run
/// without them.
fn drive_run<S: Sink, C: Core, L: Lane>(
    ready: &mut Ready,
    trace: bool,
    cycles: u64,
    liar: Option<LanePlace>,
    core: &mut C,
    lanes: &mut Lanes<L>,
    sink: &mut S,
) -> Result<(), SinkFailed>
    requires cycles { ready.old.machine.timed.cycles + cycles ≤ 2 ^ 60 }
    requires honest { AreHonest L.honest lanes.old }
    ensures { PlaysBy C.gives ready.old.core ready.old.script (change ready.old.machine.timed ready.new.machine.timed)
        (change core.old core.new) (IsOnePart (λ lists. IsRun trace cycles
        (change ready.old.machine.timed ready.new.machine.timed) lists (lent S.account sink.old sink.new) result
        × are_asked L.says lanes.old lanes.new liar (asked_over ready.old.machine.timed lists))) }
{
    if trace {
        let watcher = CommitLines;
        let mut task = Watched {
            cycles,
            liar,
            watcher,
        };
        task.drive(ready, core, lanes, sink)
    } else {
        let Ready {
            machine,
            core: used,
            script,
        } = ready;
        let mut task = Quiet { cycles, liar };
        perform_by(&mut task, machine, used, script, core, lanes, sink)
    }
}

/// Runs an image, and writes what was handed over in each cycle, as it goes. All memory is taken
/// before the core is asked and before anything is written.
#[inline(never)]
pub(crate) fn tape<F: Files, S: Sink, C: Core, L: Lane>(
    alloc: Global,
    options: TapeOptions,
    files: &mut F,
    sink: &mut S,
    core: &mut C,
    lanes: &mut Lanes<L>,
) -> Result<Status, Failure>
    requires { AreHonest L.honest lanes.old }
    ensures { DoesJob C.gives (Tape options) (asking core.old core.new (are_asked L.says lanes.old lanes.new))
        (lent F.account files.old files.new) (lent S.account sink.old sink.new) result }
{
    match make_ready(alloc, files, &options.setup) {
        Ok(mut ready) => tape_ready(&mut ready, options, sink, core, lanes),
        Err(stop) => write_stop(stop, sink),
    }
}

/// Drives a new machine, and writes what is handed over to it.
fn tape_ready<S: Sink, C: Core, L: Lane>(
    ready: &mut Ready,
    options: TapeOptions,
    sink: &mut S,
    core: &mut C,
    lanes: &mut Lanes<L>,
) -> Result<Status, Failure>
    requires honest { AreHonest L.honest lanes.old }
    requires new { ready.old.machine.timed.cycles ≡ 0 }
    requires fits { IsConfig options.setup.config }
    ensures { (bytes : FileBytes) → IsReady options.setup bytes ready.old
        → WritesJob C.gives (Tape options) (asking core.old core.new (are_asked L.says lanes.old lanes.new)) bytes (lent S.account sink.old sink.new) result }
{
    let mut task = Watched {
        cycles: u64::from(options.cycles.get()),
        liar: None,
        watcher: TapeLines,
    };
    task.drive(ready, core, lanes, sink)?;
    Ok(end_status(&ready.machine))
}
