// Commands that move a machine, forth and back, and the replies to them.
ghost use Rattle.diva_cli.specs.Changes.{change};
ghost use Rattle.diva_outside.specs.Lent.{lent};
ghost use Rattle.diva_cli.specs.Tasks.{CanReply, IsReplied, Plays};

use diva_core::Core;
use diva_debug::{Command, Rewindable, reply_to};
use diva_outside::{Sink, SinkFailed, put_line};

/// Does each of the commands with a machine and a core, and writes the reply to it, until the sink fails.
pub(crate) fn reply_each<D: Core, S: Sink>(
    session: &mut Rewindable,
    core: &mut D,
    commands: &[Command],
    sink: &mut S,
) -> Result<(), SinkFailed>
    requires { CanReply commands.now session.old }
    ensures { Plays D.gives (change session.old.machine.timed session.new.machine.timed) (change core.old core.new)
        (λ parts. IsReplied commands.now session.old.machine.timed parts
        (lent S.account sink.old sink.new) result) }
{
    for command in commands {
        let line = reply_to(session, core, command);
        put_line(&line, sink)?;
    }
    Ok(())
}
