// The lines of one of two harts, put to a sink.
ghost use Rattle.std.specs.Prelude.{◌++◌};
ghost use Rattle.diva_core.specs.Timed.{Timed};
ghost use Rattle.diva_outside.specs.Lent.{lent};
ghost use Rattle.diva_outside.specs.Sink.{PutsTo};
ghost use Rattle.diva_trace.specs.Lines.{count_line, end_line_of, flushes_line, hart_line};
ghost use Rattle.diva_trace.specs.Text.{hart_text, hart_text_in, IsHartReportOf};

use crate::lines::{count_line, end_line_of, flushes_line, hart_line};
use crate::report::HartReport;
use crate::writers::{write_output, write_registers};
use diva_outside::{Sink, SinkFailed, put_lines};

/// Puts the lines of a hart of this number: how it ended, its counts, its output, and its registers and pc. Where a put fails,
/// a prefix of that text was appended.
pub fn write_hart<S: Sink>(
    number: u8,
    report: &HartReport<'_>,
    sink: &mut S,
) -> Result<(), SinkFailed>
    ensures text { PutsTo (lent S.account sink.old sink.new) (hart_text_in number report.now) result }
    ensures machine { (m : Timed) → IsHartReportOf m report.now → PutsTo (lent S.account sink.old sink.new)
        (hart_text number m) result }
{
    write_hart_parts(number, report, sink)
}

/// The lines of a hart, of what the report says.
fn write_hart_parts<S: Sink>(
    number: u8,
    report: &HartReport<'_>,
    sink: &mut S,
) -> Result<(), SinkFailed>
    ensures { PutsTo (lent S.account sink.old sink.new) (hart_text_in number report.now) result }
{
    write_hart_summary(number, report, sink)?;
    write_output(report.output, sink)?;
    write_registers(report.view, sink)
}

/// Puts a hart's number, how it ended, and its counts. Where a put fails, a prefix of that text was appended.
fn write_hart_summary<S: Sink>(
    number: u8,
    report: &HartReport<'_>,
    sink: &mut S,
) -> Result<(), SinkFailed>
    ensures { PutsTo (lent S.account sink.old sink.new) (hart_line number ++ end_line_of report.now.end
        ++ count_line report.now.count ++ flushes_line report.now.flushes report.now.silent) result }
{
    put_lines(
        &[
            hart_line(number),
            end_line_of(report.end),
            count_line(report.count),
            flushes_line(report.flushes, report.silent),
        ],
        sink,
    )
}
