// The rows and lines of a judgement.
ghost use Rattle.std.specs.Prelude.{◌≡◌, ◌≤◌, ◌+◌, ◌-◌, ◌*◌, ◌++◌, codes, length, take};
ghost use Rattle.std.specs.Fmt.{decimal};
ghost use Rattle.diva_outside.specs.Lent.{lent};
ghost use Rattle.diva_outside.specs.Sink.{PutsTo};
ghost use Rattle.diva_outside.specs.Text.{hex_word};
ghost use Rattle.diva_judge.specs.Logs.{log_kind_number};
ghost use Rattle.diva_judge.specs.Texts.{due_line, judged_line, late_text, left_line, listed, missing_row, refused_text, text_of_line, answer_of_line, unreadable_text, wrong_row, wrong_text};

use crate::log_line::Kind;
use diva_asm::list_line;
use diva_claims::Wrong;
use diva_core::{Cause, Field};
use diva_isa::Record;
use diva_outside::{FaultKind, Line, Sink, SinkFailed, put_line};
use diva_trace::{line_of, push_cause, push_fields};

/// Puts what is written of a line that is judged: its row if it is wrong, or its answer if answers are asked for.
pub(crate) fn put_judged<S: Sink>(
    answers: bool,
    place: u64,
    due: &Record,
    wrong: Option<Wrong>,
    sink: &mut S,
) -> Result<(), SinkFailed>
    ensures { PutsTo (lent S.account sink.old sink.new) (text_of_line answers place due.now wrong) result }
{
    if answers {
        put_answer(due, wrong, sink)
    } else {
        match wrong {
            None => Ok(()),
            Some(wrong) => put_wrong(place, due, wrong, sink),
        }
    }
}

/// Puts the answer to a line: that it is right, or the record that is due.
fn put_answer<S: Sink>(due: &Record, wrong: Option<Wrong>, sink: &mut S) -> Result<(), SinkFailed>
    ensures { PutsTo (lent S.account sink.old sink.new) (answer_of_line due.now wrong) result }
{
    match wrong {
        None => sink.put(b"ok\n"),
        Some(_) => put_line(&due_line(due), sink),
    }
}

/// The record that is due, as an answer.
#[tactic(auto, unfolding(crate::specs::Texts::due_line))]
fn due_line(due: &Record) -> Line
    ensures { result ≡ due_line due.now }
{
    let mut line = line_of!(text b"due");
    push_fields(&mut line, &Field::ALL, due);
    line.text(b"\n");
    line
}

/// Puts what is written of a line that comes too late to be judged.
pub(crate) fn put_late<S: Sink>(answers: bool, sink: &mut S) -> Result<(), SinkFailed>
    ensures { PutsTo (lent S.account sink.old sink.new) (late_text answers) result }
{
    if answers { sink.put(b"over\n") } else { Ok(()) }
}

/// Puts the row of a wrong line, in pieces. If a put fails, a prefix of it was appended.
fn put_wrong<S: Sink>(
    place: u64,
    due: &Record,
    wrong: Wrong,
    sink: &mut S,
) -> Result<(), SinkFailed>
    ensures { PutsTo (lent S.account sink.old sink.new) (wrong_row place due.now wrong) result }
{
    put_line(&place_line(b"wrong ", place), sink)?;
    put_listed(due, sink)?;
    put_line(&wrong_line(wrong), sink)
}

/// Puts the row of an instruction that has no line, in pieces. If a put fails, a prefix of it was appended.
pub(crate) fn put_missing<S: Sink>(place: u64, due: &Record, sink: &mut S) -> Result<(), SinkFailed>
    ensures { PutsTo (lent S.account sink.old sink.new) (missing_row place due.now) result }
{
    put_line(&place_line(b"missing ", place), sink)?;
    put_line(&list_line(due.pc, due.word), sink)
}

/// How a row begins: what it is of, and the instruction's place.
fn place_line(name: &[u8], place: u64) -> Line
    requires { length name.now ≤ 8 }
    ensures { result ≡ name.now ++ decimal place ++ codes " at " }
{
    line_of!(text name, decimal place, text b" at ")
}

/// Puts an instruction: its pc, its word, and what that is.
fn put_listed<S: Sink>(due: &Record, sink: &mut S) -> Result<(), SinkFailed>
    ensures { PutsTo (lent S.account sink.old sink.new) (listed due.now) result }
{
    let line = list_line(due.pc, due.word);
    sink.put(without_feed(line.bytes()))
}

/// A line without its line feed.
fn without_feed(line: &[u8]) -> &[u8]
    ensures { result.now ≡ take (length line.now - 1) line.now }
{
    &line[..line.len().saturating_sub(1)]
}

/// What is wrong with a line, as the end of its row.
fn wrong_line(wrong: Wrong) -> Line
    ensures { result ≡ codes ": " ++ wrong_text wrong ++ codes "\n" }
{
    let mut line = line_of!(text b": ");
    push_wrong(&mut line, wrong);
    line.text(b"\n");
    line
}

/// Appends what is wrong with a line, in 60 bytes at most.
#[tactic(auto, unfolding(crate::specs::Texts::wrong_text))]
fn push_wrong(line: &mut Line, wrong: Wrong)
    requires { length line.old + 60 ≤ 128 }
    ensures bytes { line.new ≡ line.old ++ wrong_text wrong }
    ensures len { length line.new ≤ length line.old + 60 }
{
    match wrong {
        Wrong::Field(difference) => push_cause(line, &Cause::Differs(difference)),
        Wrong::NoTrap { due } => push_no_trap(line, due),
        Wrong::Register { said, due } => push_claimed(line, b"rd", said, due),
        Wrong::Mask { said, due } => push_claimed(line, b"mask", said, due),
    }
}

/// Appends that some trap was claimed, and which end is due.
fn push_no_trap(line: &mut Line, due: u32)
    requires { length line.old + 40 ≤ 128 }
    ensures bytes { line.new ≡ line.old ++ (codes "end claimed t due " ++ hex_word due) }
    ensures len { length line.new ≤ length line.old + 40 }
{
    line.text(b"end claimed t due ");
    line.hex_word(due);
}

/// Appends what was claimed, and what is due.
fn push_claimed(line: &mut Line, name: &[u8], said: u32, due: u32)
    requires name { length name.now ≤ 8 }
    requires room { length line.old + 40 ≤ 128 }
    ensures bytes { line.new ≡ line.old ++ (name.now ++ codes " claimed " ++ hex_word said ++ codes " due " ++ hex_word due) }
    ensures len { length line.new ≤ length line.old + 40 }
{
    line.text(name);
    line.text(b" claimed ");
    line.hex_word(said);
    line.text(b" due ");
    line.hex_word(due);
}

/// How many lines are left over.
#[tactic(auto, unfolding(crate::specs::Texts::left_line))]
pub(crate) fn left_line(n: u64) -> Line
    ensures { result ≡ left_line n }
{
    line_of!(text b"left over ", decimal n, text b"\n")
}

/// How many lines were judged, how many there are, and how many are wrong.
#[tactic(auto, unfolding(crate::specs::Texts::judged_line))]
pub(crate) fn judged_line(judged: u64, lines: u64, wrong: u64) -> Line
    ensures { result ≡ judged_line judged lines wrong }
{
    line_of!(
        text b"judged ", decimal judged,
        text b" of ", decimal lines,
        text b" wrong ", decimal wrong,
        text b"\n",
    )
}

/// That a line of the log has a fault of this kind.
#[tactic(auto, unfolding(crate::specs::Texts::refused_text))]
pub(crate) fn refused_line(number: u64, kind: Kind) -> Line
    ensures { result ≡ refused_text (record { line = number; kind = log_kind_number kind }) }
{
    line_of!(text b"refused log ", decimal u64::from(kind.number()), text b" at ", decimal number, text b"\n")
}

/// That the log could not be read to its end.
pub fn put_unreadable<S: Sink>(sink: &mut S) -> Result<(), SinkFailed>
    ensures { PutsTo (lent S.account sink.old sink.new) unreadable_text result }
{
    sink.put(b"unreadable log\n")
}
