// The lines of a row, by its age.
ghost use Rattle.std.specs.Prelude.{◌≡◌, ◌≤◌, ◌<◌, ◌+◌, ◌*◌, ◌++◌, length};
ghost use Rattle.diva_drawing.specs.Log.{begun_text, cause_line, fields_line, named_fields, note_lead, place_lead, row_line, stage_line, stage_text};

use crate::block::Block;
use diva_asm::list_line;
use diva_core::{Cause, Field};
use diva_isa::Record;
use diva_outside::Line;
use diva_trace::{line_of, push_cause};

/// A row: its number, and the place of its claim or instruction, which is how many instructions committed before it.
#[derive(Clone, Copy, Debug)]
pub(crate) struct Numbers {
    pub row: u64,
    pub place: u64,
}

/// Appends the lines of a row of an age: it begins at age 0, in the stage `first`, and passes through a stage at each age up to 6.
#[tactic(auto, using(crate::proofs::Waiting::text_waits))]
pub(crate) fn push_stage(
    block: &mut Block,
    first: &'static [u8],
    numbers: Numbers,
    claim: &Record,
    age: u64,
)
    requires room { length block.old + 640 ≤ 4096 }
    requires short { length first.now ≤ 8 }
    ensures bytes { block.new ≡ block.old ++ stage_text first.now numbers.row numbers.place claim.now age }
    ensures len { length block.new ≤ length block.old + 640 }
{
    let stage: &'static [u8] = match age {
        0 => {
            push_begun(block, first, numbers, claim);
            return;
        }
        1 => b"fetch",
        2 => b"decode",
        3 => b"operands",
        4 => b"execute",
        5 => b"memory",
        6 => b"ready",
        _ => return,
    };
    block.line(&stage_line(numbers.row, stage));
}

/// Appends the lines with which a row begins.
fn push_begun(block: &mut Block, stage: &'static [u8], numbers: Numbers, claim: &Record)
    requires room { length block.old + 640 ≤ 4096 }
    requires short { length stage.now ≤ 8 }
    ensures bytes { block.new ≡ block.old ++ begun_text stage.now numbers.row numbers.place claim.now }
    ensures len { length block.new ≤ length block.old + 640 }
{
    block.line(&row_line(numbers.row));
    block.line(&place_lead(numbers.row, numbers.place));
    block.line(&list_line(claim.pc, claim.word));
    block.line(&fields_line(numbers.row, claim));
    block.line(&stage_line(numbers.row, stage));
}

/// A row begins.
#[tactic(auto, unfolding(crate::specs::Log::row_line))]
fn row_line(row: u64) -> Line
    ensures { result ≡ row_line row }
{
    line_of!(text b"I\t", decimal row, text b"\t", decimal row, text b"\t0\n")
}

/// The beginning of the line that has the place of a row, and the listing of its word.
#[tactic(auto, unfolding(crate::specs::Log::place_lead))]
fn place_lead(row: u64, place: u64) -> Line
    ensures { result ≡ place_lead row place }
{
    line_of!(text b"L\t", decimal row, text b"\t0\t", decimal place, text b": ")
}

/// The beginning of a line that says more of a row.
#[tactic(auto, unfolding(crate::specs::Log::note_lead))]
pub(crate) fn note_lead(row: u64) -> Line
    ensures text { result ≡ note_lead row }
    ensures len { length result ≤ 25 }
{
    line_of!(text b"L\t", decimal row, text b"\t1\t")
}

/// The fields of a row's record but pc and word.
#[tactic(auto, unfolding(crate::specs::Log::fields_line))]
fn fields_line(row: u64, claim: &Record) -> Line
    ensures { result ≡ fields_line row claim.now }
{
    let mut line = note_lead(row);
    line.text(b"record");
    push_named(&mut line, &Field::ALL[2..], claim);
    line.text(b"\n");
    line
}

/// Appends some fields, each with its name.
fn push_named(line: &mut Line, fields: &[Field], claim: &Record)
    requires { length line.old + 15 * length fields.now ≤ 128 }
    ensures bytes { line.new ≡ line.old ++ named_fields fields.now claim.now }
    ensures len { length line.new ≤ length line.old + 15 * length fields.now }
{
    for field in fields {
        line.text(b" ");
        line.text(field.name());
        line.text(b" ");
        line.hex_word(field.of(claim));
    }
}

/// A stage begins.
#[tactic(auto, unfolding(crate::specs::Log::stage_line))]
fn stage_line(row: u64, stage: &[u8]) -> Line
    requires { length stage.now ≤ 8 }
    ensures { result ≡ stage_line row stage.now }
{
    line_of!(text b"S\t", decimal row, text b"\t0\t", text stage, text b"\n")
}

/// What is said of a row below its fields: the cause of a flush, or that a claim will lead to one.
#[tactic(auto, unfolding(crate::specs::Log::cause_line))]
pub(crate) fn cause_line(row: u64, cause: &Cause) -> Line
    ensures { result ≡ cause_line row cause.now }
{
    let mut line = note_lead(row);
    line.text(b"\\n");
    push_cause(&mut line, cause);
    line.text(b"\n");
    line
}
