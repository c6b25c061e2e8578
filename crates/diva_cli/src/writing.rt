// What is written of machines, and the status that goes with it. No memory is taken.
ghost use Rattle.std.specs.Prelude.{◌≡◌, ◌+◌, ◌≤◌, ◌^◌};
ghost use Rattle.std.specs.Option.{ForSome};
ghost use Rattle.diva_isa.specs.End.{end_of};
ghost use Rattle.diva_trace.specs.Text.{soak_text, text_of};
ghost use Rattle.diva_trace.specs.Lines.{soak_line};
ghost use Rattle.diva_outside.specs.Sink.{PutsTo};
ghost use Rattle.diva_outside.specs.Lent.{lent};
ghost use Rattle.diva_cli.specs.Runs.{end_status, shown_dump};

use diva_args::DumpRange;
use diva_machine::{End, Machine};
use diva_outside::{Line, Sink, SinkFailed, put_lines};
use diva_process::Status;
use diva_trace::{
    Dump, Report, SoakCore, end_line_of, soak_line, write_output, write_registers, write_run,
};

/// Writes what a run left, line by line.
pub(crate) fn write_finished<S: Sink>(
    machine: &Machine,
    dump: Option<DumpRange>,
    sink: &mut S,
) -> Result<(), SinkFailed>
    ensures { PutsTo (lent S.account sink.old sink.new) (text_of machine.now.timed (shown_dump dump)) result }
{
    let report = Report {
        rows: machine.log(),
        end: machine.ended(),
        count: machine.count(),
        cycles: machine.cycles(),
        flushes: machine.flushes(),
        silent: machine.silent(),
        output: machine.output(),
        view: &machine.view(),
        dump: shown_dump(dump),
    };
    write_run(&report, sink)
}

/// The part of memory to show, if any is asked for.
pub(crate) fn shown_dump(asked: Option<DumpRange>) -> Option<Dump>
    ensures shown { result ≡ shown_dump asked }
    ensures range { ForSome result (λ d. d.addr + d.len ≤ 2 ^ 32) }
{
    match asked {
        Some(dump) => Some(Dump {
            addr: dump.addr,
            len: dump.len,
        }),
        None => None,
    }
}

/// Writes what two runs came to, line by line: the counts of both, and what the second one left.
pub(crate) fn write_soaked<S: Sink>(
    first: &Machine,
    second: &Machine,
    sink: &mut S,
) -> Result<(), SinkFailed>
    ensures { PutsTo (lent S.account sink.old sink.new) (soak_text first.now.timed second.now.timed) result }
{
    put_lines(
        &[
            counts_line(SoakCore::Scalar, first),
            counts_line(SoakCore::Own, second),
            end_line_of(second.ended()),
        ],
        sink,
    )?;
    write_output(second.output(), sink)?;
    write_registers(&second.view(), sink)
}

/// The line of a run of `soak`.
fn counts_line(core: SoakCore, machine: &Machine) -> Line
    ensures { result ≡ soak_line core machine.now.timed.count machine.now.timed.cycles machine.now.timed.under.log.flushes }
{
    soak_line(core, machine.count(), machine.cycles(), machine.flushes())
}

/// How a machine ended: it halted, it trapped, or it goes on.
pub fn end_status(machine: &Machine) -> Status
    ensures { result ≡ end_status (end_of machine.now.timed.arch.end) }
{
    match machine.ended() {
        End::Halt(_) => Status::Halted,
        End::Trap(_) => Status::Trapped,
        End::GoesOn => Status::GoesOn,
    }
}
