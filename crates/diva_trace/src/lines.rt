// The lines of the program's text, each with its line feed.
ghost use Rattle.std.specs.Prelude.{◌≡◌, ◌+◌, ◌*◌, ◌%◌, ◌^◌, ◌<◌, ◌≤◌, [], ◌++◌, length, codes};
ghost use Rattle.std.specs.Fmt.{decimal};
ghost use Rattle.diva_trace.specs.Lines.{commit_line, fields_text, cause_text, flush_line, end_line, end_line_of, end_text, count_line, cycles_line, flushes_line, hart_line, soak_line, soak_core_name, output_line, out_line, register_text, registers_line, pc_line, byte_text, mem_line};

use crate::report::SoakCore;
use diva_core::{Cause, Field, FlushRow, View};
use diva_isa::{End, Record};
use diva_memory::Readable;
use diva_outside::Line;

/// A committed instruction: its number, from 0 on, and the eight fields of its record.
pub fn commit_line(index: u64, r: &Record) -> Line
    ensures { result ≡ commit_line index r.now }
{
    let mut line = Line::new();
    fill_commit(&mut line, index, r);
    line
}

/// The same, written to an empty line where that stands: a line is moved at a cost.
#[tactic(auto, unfolding(crate::specs::Lines::commit_line))]
pub(crate) fn fill_commit(line: &mut Line, index: u64, r: &Record)
    requires { line.old ≡ [] }
    ensures { line.new ≡ commit_line index r.now }
{
    line.decimal(index);
    push_fields(line, &Field::ALL, r);
    line.text(b"\n");
}

/// Appends some fields of a record, a blank before each. There has to be room for 9 bytes a field.
pub fn push_fields(line: &mut Line, fields: &[Field], r: &Record)
    requires { length line.old + 9 * length fields.now ≤ 128 }
    ensures bytes { line.new ≡ line.old ++ fields_text fields.now r.now }
    ensures len { length line.new ≡ length line.old + 9 * length fields.now }
{
    for field in fields {
        line.text(b" ");
        line.hex_word(field.of(r));
    }
}

/// A flush: its cycle, the number of instructions committed by then, and its cause.
#[tactic(auto, unfolding(crate::specs::Lines::flush_line))]
pub fn flush_line(row: &FlushRow) -> Line
    ensures { result ≡ flush_line row.now }
{
    let mut line =
        line_of!(text b"flush ", decimal row.cycle, text b" at ", decimal row.at, text b" ");
    push_cause(&mut line, &row.cause);
    line.text(b"\n");
    line
}

/// Appends the field in which a claim differed, with what was claimed and what was due; or the watchdog's limit. There has to be
/// room for 60 bytes.
pub fn push_cause(line: &mut Line, cause: &Cause)
    requires { length line.old + 60 ≤ 128 }
    ensures bytes { line.new ≡ line.old ++ cause_text cause.now }
    ensures len { length line.new ≤ length line.old + 60 }
{
    match cause {
        Cause::Differs(diff) => {
            line.text(diff.field.name());
            line.text(b" claimed ");
            line.hex_word(diff.claimed);
            line.text(b" due ");
            line.hex_word(diff.due);
        }
        Cause::Silent(limit) => {
            line.text(b"silent ");
            line.decimal(u64::from(*limit));
        }
    }
}

/// How the machine ended. `end` is 0 where it goes on, 1 + a trap's number, or 256 + the status of a halt.
pub fn end_line(end: u32) -> Line
    ensures { result ≡ end_line end }
{
    end_line_of(End::of(end))
}

/// How the machine ended, as [`end_line`] writes it, but of the end in words.
#[tactic(auto, unfolding(crate::specs::Lines::end_line_of))]
pub fn end_line_of(end: End) -> Line
    ensures { result ≡ end_line_of end }
{
    let mut line = line_of!(text b"end ");
    push_end(&mut line, end);
    line.text(b"\n");
    line
}

/// Appends how a machine ended, in 25 bytes at most: `none`, `trap NUMBER` or `halt STATUS`.
pub fn push_end(line: &mut Line, end: End)
    requires { length line.old + 25 ≤ 128 }
    ensures bytes { line.new ≡ line.old ++ end_text end }
    ensures len { length line.new ≤ length line.old + 25 }
{
    match end {
        End::GoesOn => line.text(b"none"),
        End::Trap(number) => {
            line.text(b"trap ");
            line.decimal(u64::from(number));
        }
        End::Halt(status) => {
            line.text(b"halt ");
            line.decimal(u64::from(status));
        }
    }
}

/// The number of committed instructions.
#[tactic(auto, unfolding(crate::specs::Lines::count_line))]
pub fn count_line(n: u64) -> Line
    ensures { result ≡ count_line n }
{
    number_line(b"count ", n)
}

/// A hart, by its number.
#[tactic(auto, unfolding(crate::specs::Lines::hart_line))]
pub fn hart_line(number: u8) -> Line
    ensures { result ≡ hart_line number }
{
    number_line(b"hart ", u64::from(number))
}

/// The number of cycles.
#[tactic(auto, unfolding(crate::specs::Lines::cycles_line))]
pub fn cycles_line(n: u64) -> Line
    ensures { result ≡ cycles_line n }
{
    number_line(b"cycles ", n)
}

/// The number of flushes, and how many of them were silent.
#[tactic(auto, unfolding(crate::specs::Lines::flushes_line))]
pub fn flushes_line(n: u64, silent: u64) -> Line
    ensures { result ≡ flushes_line n silent }
{
    line_of!(text b"flushes ", decimal n, text b" silent ", decimal silent, text b"\n")
}

/// A run of `soak`: its core, the number of committed instructions, the number of cycles, and that of flushes.
#[tactic(auto, unfolding(crate::specs::Lines::soak_line))]
pub fn soak_line(core: SoakCore, count: u64, cycles: u64, flushes: u64) -> Line
    ensures { result ≡ soak_line core count cycles flushes }
{
    line_of!(
        text soak_core_name(core).as_bytes(),
        text b" count ", decimal count,
        text b" cycles ", decimal cycles,
        text b" flushes ", decimal flushes,
        text b"\n",
    )
}

/// The name of a core of `soak`.
fn soak_core_name(core: SoakCore) -> &'static str
    ensures name { result.now ≡ soak_core_name core }
    ensures short { length result.now ≤ 6 }
{
    match core {
        SoakCore::Scalar => "scalar",
        SoakCore::Own => "own",
    }
}

/// The number of bytes that the program put out.
pub fn output_line(n: u32) -> Line
    ensures { result ≡ output_line n }
{
    output_len_line(u64::from(n))
}

/// The same, of any number of bytes.
#[tactic(auto, unfolding(crate::specs::Lines::output_line))]
pub(crate) fn output_len_line(n: u64) -> Line
    ensures { result ≡ output_line n }
{
    number_line(b"output ", n)
}

/// A name of at most 80 bytes, and a number.
pub(crate) fn number_line(name: &[u8], n: u64) -> Line
    requires { length name.now ≤ 80 }
    ensures { result ≡ name.now ++ decimal n ++ codes "\n" }
{
    line_of!(text name, decimal n, text b"\n")
}

/// 1 to 32 of the bytes that the program put out.
#[tactic(auto, unfolding(crate::specs::Lines::out_line))]
pub fn out_line(bytes: &[u8]) -> Line
    requires some { 1 ≤ length bytes.now }
    requires few { length bytes.now ≤ 32 }
    ensures { result ≡ out_line bytes.now }
{
    line_of!(text b"out ", hex_bytes bytes, text b"\n")
}

/// The pc.
#[tactic(auto, unfolding(crate::specs::Lines::pc_line))]
pub fn pc_line(pc: u32) -> Line
    ensures { result ≡ pc_line pc }
{
    line_of!(text b"pc ", hex_word pc, text b"\n")
}

/// Four registers, from `first` on, which is a multiple of 4 below 32.
#[tactic(auto, unfolding(crate::specs::Lines::registers_line))]
pub fn registers_line(view: &View<'_>, first: u8) -> Line
    requires in_range { first ≤ 28 }
    requires aligned { first % 4 ≡ 0 }
    ensures { result ≡ registers_line view.now.regs first }
{
    let mut line = Line::new();
    push_register(&mut line, view, first);
    line.text(b" ");
    push_register(&mut line, view, first + 1);
    line.text(b" ");
    push_register(&mut line, view, first + 2);
    line.text(b" ");
    push_register(&mut line, view, first + 3);
    line.text(b"\n");
    line
}

/// A register's name, and the word in it.
fn push_register(line: &mut Line, view: &View<'_>, n: u8)
    requires in_range { n < 32 }
    requires room { length line.old + 30 ≤ 128 }
    ensures bytes { line.new ≡ line.old ++ register_text view.now.regs n }
    ensures len { length line.new ≤ length line.old + 30 }
{
    line.text(b"x");
    line.decimal(u64::from(n));
    line.text(b" ");
    line.hex_word(view.reg(n));
}

/// The `n` bytes from `addr` on: 1 to 32 of them, which end at 2^32 at the latest. A byte outside memory is shown as
/// two dots.
#[tactic(auto, using(crate::proofs::Numbered::flat_map_range_more), unfolding(crate::specs::Lines::mem_line))]
pub fn mem_line<R: Readable>(memory: &R, addr: u32, n: u32) -> Line
    requires some { 1 ≤ n }
    requires few { n ≤ 32 }
    requires in_range { addr + n ≤ 2 ^ 32 }
    ensures { result ≡ mem_line (R.shows memory.now) addr n }
{
    let mut line = line_of!(text b"mem ", hex_word addr, text b" ");
    for i in 0..n {
        push_byte(&mut line, memory.byte(addr + i));
    }
    line.text(b"\n");
    line
}

/// A byte of memory, or two dots.
fn push_byte(line: &mut Line, byte: Option<u8>)
    requires { length line.old + 2 ≤ 128 }
    ensures bytes { line.new ≡ line.old ++ byte_text byte }
    ensures len { length line.new ≡ length line.old + 2 }
{
    match byte {
        Some(byte) => line.hex_byte(byte),
        None => line.text(b".."),
    }
}
