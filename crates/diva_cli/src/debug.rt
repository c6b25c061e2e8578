// The command `debug`: it reads its files with neither core nor sink in its hands, and then replies to the commands.
ghost use Rattle.std.specs.Prelude.{◌≡◌, ◌≤◌, [], length};
ghost use Rattle.std.specs.List.{All};
ghost use Rattle.diva_args.specs.declared.job.Job.TheVariants.{Debug};
ghost use Rattle.diva_core.specs.Machine.{IsConfig};
ghost use Rattle.diva_debug.specs.Moves.{IsShort};
ghost use Rattle.diva_process.specs.Programs.{FileBytes};
ghost use Rattle.diva_cli.specs.Lanes.{AreHonest, are_asked};
ghost use Rattle.diva_cli.specs.Replies.{keep};
ghost use Rattle.diva_cli.specs.Changes.{asking};
ghost use Rattle.diva_outside.specs.Lent.{lent};
ghost use Rattle.diva_cli.specs.Wanted.{file_limit};
ghost use Rattle.diva_cli.specs.Parts.{DoesJob, IsSession, WritesJob};

use crate::driving::perform_by;
use crate::lanes::Lanes;
use crate::loading::{Ready, SessionReady, make_session};
use crate::tasks::Replies;
use diva_args::DebugOptions;
use diva_core::Core;
use diva_debug::Rewindable;
use diva_outside::{Files, Sink};
use diva_process::{Failure, Status, write_stop};
use diva_vote::Lane;
use std::alloc::Global;

/// Replies to commands that step through an image. All memory is taken before the core is asked and
/// before anything is written.
#[inline(never)]
pub(crate) fn debug<F: Files, S: Sink, C: Core, L: Lane>(
    alloc: Global,
    options: DebugOptions,
    files: &mut F,
    sink: &mut S,
    core: &mut C,
    lanes: &mut Lanes<L>,
) -> Result<Status, Failure>
    requires { AreHonest L.honest lanes.old }
    ensures { DoesJob C.gives (Debug options) (asking core.old core.new (are_asked L.says lanes.old lanes.new))
        (lent F.account files.old files.new) (lent S.account sink.old sink.new) result }
{
    match make_session(alloc, files, &options) {
        Ok(session) => debug_ready(session, options, sink, core, lanes),
        Err(stop) => write_stop(stop, sink),
    }
}

/// Moves a new machine by the commands, and writes the replies.
fn debug_ready<S: Sink, C: Core, L: Lane>(
    session: SessionReady,
    options: DebugOptions,
    sink: &mut S,
    core: &mut C,
    lanes: &mut Lanes<L>,
) -> Result<Status, Failure>
    requires honest { AreHonest L.honest lanes.old }
    requires fits { IsConfig options.setup.config }
    requires new { session.ready.machine.timed.cycles ≡ 0 }
    requires none { session.ready.machine.timed.count ≡ 0 }
    requires undos { session.undos ≡ record { items = []; keep = keep } }
    requires narrow { session.ready.machine.timed.config.width ≡ 1 }
    requires few { length session.commands.items ≤ file_limit }
    requires short { All IsShort session.commands.items }
    ensures { (bytes : FileBytes) → IsSession options bytes session
        → WritesJob C.gives (Debug options) (asking core.old core.new (are_asked L.says lanes.old lanes.new)) bytes (lent S.account sink.old sink.new) result }
{
    let SessionReady {
        ready,
        undos,
        commands,
    } = session;
    let Ready {
        machine,
        core: mut in_use,
        script,
    } = ready;
    let mut rewindable = Rewindable::new(machine, undos);
    let mut task = Replies {
        commands: &commands,
    };
    perform_by(
        &mut task,
        &mut rewindable,
        &mut in_use,
        &script,
        core,
        lanes,
        sink,
    )?;
    Ok(Status::Halted)
}
