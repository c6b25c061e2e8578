// One line that is written, with its status. No memory is taken.
ghost use Rattle.diva_outside.specs.Lent.{lent};
ghost use Rattle.diva_process.specs.Writing.{WritesLine, WritesStop};

use crate::lines::{refused_line, unreadable_line};
use crate::status::Status;
use crate::stop::{Failure, Stop};
use diva_outside::{Line, Sink, put_line};

/// Writes a line, and answers its status.
pub fn write_line<S: Sink>(line: &Line, status: Status, sink: &mut S) -> Result<Status, Failure>
    ensures { WritesLine line.now status (lent S.account sink.old sink.new) result }
{
    put_line(line, sink)?;
    Ok(status)
}

/// Writes why the files of a job can't be used, and answers the status that goes with it: `Refused`, or `Unread` if one
/// can't be read. If memory ran out nothing is written.
pub fn write_stop<S: Sink>(stop: Stop, sink: &mut S) -> Result<Status, Failure>
    ensures { WritesStop stop (lent S.account sink.old sink.new) result }
{
    match stop {
        Stop::Memory => Err(Failure::Memory),
        Stop::Unread(what) => write_line(&unreadable_line(what), Status::Unread, sink),
        Stop::Refused { what, kind, place } => {
            write_line(&refused_line(what, kind, place), Status::Refused, sink)
        }
    }
}
