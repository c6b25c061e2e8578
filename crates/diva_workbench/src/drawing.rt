// The commands `log` and `draw`: each reads its files with neither core nor sink in its hands, and then drives a machine, and draws
// what becomes of each claim in each cycle, as it goes.
ghost use Rattle.std.specs.Prelude.{◌≡◌};
ghost use Rattle.diva_lab_args.specs.declared.lab.LabJob.TheVariants.{Draw};
ghost use Rattle.diva_core.specs.Machine.{IsConfig};
ghost use Rattle.diva_process.specs.Programs.{asked_for, FileBytes};
ghost use Rattle.diva_outside.specs.Sink.{PutsTo};
ghost use Rattle.diva_cli.specs.Changes.{asking};
ghost use Rattle.diva_outside.specs.Lent.{lent};
ghost use Rattle.diva_cli.specs.Lanes.{AreHonest, are_asked};
ghost use Rattle.diva_workbench.specs.DrawTexts.{begin_text, end_text};
ghost use Rattle.diva_process.specs.Promises.{KeepsPromises};
ghost use Rattle.diva_cli.specs.Ready.{IsReady};
ghost use Rattle.diva_process.specs.Writing.{WritesText};
ghost use Rattle.diva_workbench.specs.Lab.{lab, lab_work_of, no_source};

use diva_cli::{Lanes, Ready, Watched, Watcher, end_status, make_ready};
use diva_core::{Claims, Core};
use diva_drawing::{Excerpt, Pen, begin_log};
use diva_lab_args::{DrawOptions, Format};
use diva_machine::Machine;
use diva_outside::{Files, Sink, SinkFailed};
use diva_process::{Failure, Status, write_stop};
use diva_vote::Lane;
use std::alloc::Global;

/// Runs an image, and draws the run. All memory is taken before the core is asked and before anything is written.
#[inline(never)]
pub(crate) fn draw<F: Files, S: Sink, C: Core, L: Lane>(
    alloc: Global,
    options: DrawOptions,
    files: &mut F,
    sink: &mut S,
    core: &mut C,
    lanes: &mut Lanes<L>,
) -> Result<Status, Failure>
    requires { AreHonest L.honest lanes.old }
    ensures { KeepsPromises (asked_for lab (Draw options)) (lab_work_of C.gives
        (asking core.old core.new (are_asked L.says lanes.old lanes.new)) no_source) (lent F.account files.old files.new) (lent S.account sink.old sink.new) result }
{
    match make_ready(alloc, files, &options.run.setup) {
        Ok(mut ready) => draw_ready(&mut ready, options, sink, core, lanes),
        Err(stop) => write_stop(stop, sink),
    }
}

/// Drives a new machine, and draws the run.
fn draw_ready<S: Sink, C: Core, L: Lane>(
    ready: &mut Ready,
    options: DrawOptions,
    sink: &mut S,
    core: &mut C,
    lanes: &mut Lanes<L>,
) -> Result<Status, Failure>
    requires honest { AreHonest L.honest lanes.old }
    requires new { ready.old.machine.timed.cycles ≡ 0 }
    requires fits { IsConfig options.run.setup.config }
    ensures { (bytes : FileBytes) → IsReady options.run.setup bytes ready.old
        → WritesText (lab_work_of C.gives
        (asking core.old core.new (are_asked L.says lanes.old lanes.new)) no_source) (Draw options) bytes (lent S.account sink.old sink.new) result }
{
    let DrawOptions { run, format } = options;
    let mut task = Watched {
        cycles: u64::from(run.cycles.get()),
        liar: run.liar,
        watcher: Drawer {
            format,
            pen: Pen::new(&ready.machine),
        },
    };
    begin(format, sink)?;
    task.drive(ready, core, lanes, sink)?;
    task.watcher.end(sink)?;
    Ok(end_status(&ready.machine))
}

/// What draws a run in a format. Its pen is the largest value of the program: no other command has it on its stack.
#[derive(Drop)]
pub(crate) struct Drawer {
    format: Format,
    pen: Pen,
}

impl Watcher for Drawer {
    ghost use Rattle.std.specs.Prelude.{◌+◌, ◌*◌, ◌<◌, ◌^◌, ⊤};
    ghost use Rattle.diva_workbench.specs.Draws.{Draws};

    ghost puts = { Draws };

    ghost says = { λ list. ⊤ };

    // In each turn no more than 65 rows begin.
    ghost can = { λ drawer n. drawer.pen.rows + 65 * n < 2 ^ 62 };

    fn see<S: Sink>(
        &mut self,
        _first: u64,
        m: &Machine,
        list: &Claims,
        sink: &mut S,
    ) -> Result<(), SinkFailed> {
        match self.format {
            Format::Log => self.pen.log_cycle(m, list, sink),
            Format::Drawing { from, to } => self.pen.draw_cycle(m, Excerpt { from, to }, sink),
        }
    }
}

impl Drawer {
    /// Puts what stands after the last cycle.
    fn end<S: Sink>(&mut self, sink: &mut S) -> Result<(), SinkFailed>
        ensures { PutsTo (lent S.account sink.old sink.new) (end_text self.old.format self.old.pen.seen) result }
    {
        match self.format {
            Format::Log => Ok(()),
            Format::Drawing { from, to } => self.pen.end_drawing(Excerpt { from, to }, sink),
        }
    }
}

/// Puts what stands before the first cycle.
fn begin<S: Sink>(format: Format, sink: &mut S) -> Result<(), SinkFailed>
    ensures { PutsTo (lent S.account sink.old sink.new) (begin_text format) result }
{
    match format {
        Format::Log => begin_log(sink),
        Format::Drawing { .. } => Ok(()),
    }
}
