// The parts of a run's text, and the whole of it, put to a sink line by line.
ghost use Rattle.std.specs.Prelude.{◌≡◌, ◌+◌, ◌^◌, ◌≤◌, ◌<◌, length};
ghost use Rattle.std.specs.Option.{ForSome};
ghost use Rattle.diva_core.specs.Timed.{Timed};
ghost use Rattle.diva_outside.specs.Lent.{lent};
ghost use Rattle.diva_outside.specs.Sink.{PutsTo};
ghost use Rattle.diva_trace.specs.Text.{commits_text, rows_text, summary_text, output_text, registers_text, dump_text, tally_text, text_in, text_of, IsReportOf};

use crate::lines::{
    count_line, cycles_line, end_line_of, fill_commit, flush_line, flushes_line, mem_line,
    number_line, out_line, output_len_line, pc_line, registers_line,
};
use crate::report::{Dump, Report, Tally};
use diva_core::{FlushRow, View};
use diva_isa::Record;
use diva_memory::Readable;
use diva_outside::{Line, LineList, Sink, SinkFailed, put_line, put_lines};

/// The lines of some flushes.
#[derive(Drop)]
struct FlushLines<'a> {
    rows: &'a [FlushRow],
}

impl LineList for FlushLines<'_> {
    ghost use Rattle.diva_trace.specs.Text.{flush_lines};

    ghost lines = { λ s. flush_lines s.rows.now };

    fn count(&self) -> usize {
        self.rows.len()
    }

    fn line(&self, at: usize) -> Line {
        flush_line(&self.rows[at])
    }
}

/// The lines of the bytes that the program put out, 32 bytes a line, the last one shorter.
#[derive(Drop)]
struct OutLines<'a> {
    bytes: &'a [u8],
}

impl LineList for OutLines<'_> {
    ghost use Rattle.diva_trace.specs.Text.{out_lines};

    ghost lines = { λ s. out_lines s.bytes.now };

    #[tactic(auto, using(crate::proofs::Numbered::length_numbered))]
    fn count(&self) -> usize {
        self.bytes.len().div_ceil(32)
    }

    #[tactic(auto, using(crate::proofs::Numbered::length_numbered, crate::proofs::Numbered::line_numbered))]
    fn line(&self, at: usize) -> Line {
        let rest = &self.bytes[32 * at..];
        out_line(&rest[..rest.len().min(32)])
    }
}

/// The lines of a part of memory, 16 bytes a line, the last one shorter.
#[derive(Drop)]
struct DumpLines<'a, R> {
    memory: &'a R,
    dump: Dump,
    ghost in_range: { dump.addr + dump.len ≤ 2 ^ 32 },
}

impl<R: Readable> LineList for DumpLines<'_, R> {
    ghost use Rattle.diva_trace.specs.Text.{dump_lines};

    ghost lines = { λ s. dump_lines (R.shows s.memory.now) s.dump };

    #[tactic(auto, using(crate::proofs::Numbered::length_numbered))]
    fn count(&self) -> usize {
        self.dump.len.div_ceil(16) as usize
    }

    #[tactic(auto, using(crate::proofs::Numbered::length_numbered, crate::proofs::Numbered::line_numbered))]
    fn line(&self, at: usize) -> Line {
        let done = 16 * at as u32;
        mem_line(
            self.memory,
            self.dump.addr + done,
            (self.dump.len - done).min(16),
        )
    }
}

/// Puts what was committed, in order; the first record is that of the instruction of this number, and all numbers are below
/// 2^64. Where a put fails, a prefix of their text was appended.
#[tactic(auto, unfolding(crate::specs::Text::commits_text))]
pub fn write_commits<S: Sink>(
    first: u64,
    records: &[Record],
    sink: &mut S,
) -> Result<(), SinkFailed>
    requires { first + length records.now < 2 ^ 64 }
    ensures { PutsTo (lent S.account sink.old sink.new) (commits_text first records.now) result }
{
    // Not as a list of lines, since a trace has a line for each instruction, and a list would move each of them twice.
    for (place, record) in records.iter().enumerate() {
        let mut line = Line::new();
        fill_commit(&mut line, first + place as u64, record);
        put_line(&line, sink)?;
    }
    Ok(())
}

/// Puts the flushes, in order. Where a put fails, a prefix of their text was appended.
#[tactic(auto, unfolding(crate::specs::Text::rows_text))]
pub fn write_rows<S: Sink>(rows: &[FlushRow], sink: &mut S) -> Result<(), SinkFailed>
    ensures { PutsTo (lent S.account sink.old sink.new) (rows_text rows.now) result }
{
    put_lines(&FlushLines { rows }, sink)
}

/// Puts how the run ended, and its counts. Where a put fails, a prefix of that text was appended.
#[tactic(auto, unfolding(crate::specs::Text::summary_text))]
pub fn write_summary<S: Sink>(report: &Report<'_>, sink: &mut S) -> Result<(), SinkFailed>
    ensures { PutsTo (lent S.account sink.old sink.new)
        (summary_text report.now.end report.now.count report.now.cycles report.now.flushes report.now.silent) result }
{
    put_lines(
        &[
            end_line_of(report.end),
            count_line(report.count),
            cycles_line(report.cycles),
            flushes_line(report.flushes, report.silent),
        ],
        sink,
    )
}

/// Puts what is counted of the runs of a campaign. Where a put fails, a prefix of that text was appended.
#[tactic(auto, unfolding(crate::specs::Lines::runs_line, crate::specs::Lines::same_line, crate::specs::Lines::flushed_line, crate::specs::Lines::silent_line))]
pub fn write_tally<S: Sink>(tally: &Tally, sink: &mut S) -> Result<(), SinkFailed>
    ensures { PutsTo (lent S.account sink.old sink.new) (tally_text tally.now) result }
{
    put_lines(
        &[
            number_line(b"runs ", u64::from(tally.runs)),
            number_line(b"same ", u64::from(tally.same)),
            number_line(b"flushed ", u64::from(tally.flushed)),
            number_line(b"silent ", u64::from(tally.silent)),
        ],
        sink,
    )
}

/// Puts how many bytes the program put out, and the bytes. Where a put fails, a prefix of that text was appended.
#[tactic(auto, unfolding(crate::specs::Text::output_text))]
pub fn write_output<S: Sink>(bytes: &[u8], sink: &mut S) -> Result<(), SinkFailed>
    ensures { PutsTo (lent S.account sink.old sink.new) (output_text bytes.now) result }
{
    put_line(&output_len_line(bytes.len() as u64), sink)?;
    put_lines(&OutLines { bytes }, sink)
}

/// Puts the registers and the pc. Where a put fails, a prefix of that text was appended.
#[tactic(auto, unfolding(crate::specs::Text::registers_text))]
pub fn write_registers<S: Sink>(view: &View<'_>, sink: &mut S) -> Result<(), SinkFailed>
    ensures { PutsTo (lent S.account sink.old sink.new) (registers_text view.now.regs view.now.pc) result }
{
    put_lines(
        &[
            registers_line(view, 0),
            registers_line(view, 4),
            registers_line(view, 8),
            registers_line(view, 12),
            registers_line(view, 16),
            registers_line(view, 20),
            registers_line(view, 24),
            registers_line(view, 28),
            pc_line(view.pc()),
        ],
        sink,
    )
}

/// Puts a part of memory that ends at 2^32 at the latest. Where a put fails, a prefix of that text was appended.
#[tactic(auto, unfolding(crate::specs::Text::dump_text))]
pub fn write_dump<R: Readable, S: Sink>(
    memory: &R,
    dump: Dump,
    sink: &mut S,
) -> Result<(), SinkFailed>
    requires { dump.addr + dump.len ≤ 2 ^ 32 }
    ensures { PutsTo (lent S.account sink.old sink.new) (dump_text (R.shows memory.now) dump) result }
{
    put_lines(&DumpLines { memory, dump }, sink)
}

/// Puts the whole text of a run: the flushes, the summary, the output, the registers and the pc, and, where it is
/// asked for, a part of memory that ends at 2^32 at the latest. Where a put fails, a prefix of that text was appended.
pub fn write_run<S: Sink>(report: &Report<'_>, sink: &mut S) -> Result<(), SinkFailed>
    requires { ForSome report.now.dump (λ d. d.addr + d.len ≤ 2 ^ 32) }
    ensures text { PutsTo (lent S.account sink.old sink.new) (text_in report.now) result }
    ensures machine { (m : Timed) → IsReportOf m report.now → PutsTo (lent S.account sink.old sink.new)
        (text_of m report.now.dump) result }
{
    write_parts(report, sink)
}

/// The whole text, of what the report says.
fn write_parts<S: Sink>(report: &Report<'_>, sink: &mut S) -> Result<(), SinkFailed>
    requires { ForSome report.now.dump (λ d. d.addr + d.len ≤ 2 ^ 32) }
    ensures { PutsTo (lent S.account sink.old sink.new) (text_in report.now) result }
{
    write_rows(report.rows, sink)?;
    write_summary(report, sink)?;
    write_output(report.output, sink)?;
    write_registers(report.view, sink)?;
    match report.dump {
        Some(dump) => write_dump(report.view, dump, sink),
        None => Ok(()),
    }
}
