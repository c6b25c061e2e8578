// The lines that show a machine.
ghost use Rattle.std.specs.Prelude.{◌≡◌, ◌↔◌, ◌≤◌, ◌<◌, ◌++◌, length, codes};
ghost use Rattle.std.specs.Fmt.{decimal};
ghost use Rattle.diva_debug.specs.declared.command.Command.TheVariants.{Why};
ghost use Rattle.diva_debug.specs.Replies.{back_line, ended_line, kept_line, no_flush, place_line, register_line, reply_at, stop_line, until_line, why_line};

use crate::command::Command;
use diva_core::FlushRow;
use diva_machine::{End, Machine};
use diva_outside::Line;
use diva_trace::{flush_line, line_of, mem_line, push_end};

/// What a machine that was moved by a command replies to it; so many undos were kept before.
#[tactic(auto, unfolding(crate::specs::Replies::reply_at))]
pub(crate) fn reply_at(command: &Command, kept: u64, m: &Machine) -> Line
    ensures reply { result
        ≡ reply_at command.now kept m.now.timed.count m.now.timed.arch m.now.timed.under.log.newest }
    ensures no_flush { command.now ≡ Why → (result ≡ no_flush) ↔ (m.now.timed.under.log.flushes ≡ 0) }
{
    match command {
        Command::Step(_) => stop_line(m),
        Command::Until(pc) => until_line(*pc, m),
        Command::Back(count) => back_line(count.get(), kept, m),
        Command::Reg(number) => register_line(number.get(), m),
        Command::Mem(range) => mem_line(&m.view(), range.addr(), range.len()),
        Command::Why => why_line(m.newest()),
    }
}

/// Where the machine stands, or how it ended.
#[tactic(auto, unfolding(crate::specs::Replies::stop_line, crate::specs::Replies::at_line))]
fn stop_line(m: &Machine) -> Line
    ensures { result ≡ stop_line m.now.timed.count m.now.timed.arch }
{
    match m.ended() {
        End::GoesOn => place_line(b"at ", m.count(), m.view().pc()),
        end => ended_line(m.count(), end),
    }
}

/// The same, where it was to stand at a pc.
#[tactic(auto, unfolding(crate::specs::Replies::until_line, crate::specs::Replies::far_line))]
fn until_line(pc: u32, m: &Machine) -> Line
    ensures { result ≡ until_line pc m.now.timed.count m.now.timed.arch }
{
    if m.goes_on() && m.view().pc() != pc {
        place_line(b"far ", m.count(), m.view().pc())
    } else {
        stop_line(m)
    }
}

/// Where the machine stands after so many instructions were taken back; where fewer undos were kept, how many.
#[tactic(auto, unfolding(crate::specs::Replies::back_line, crate::specs::Replies::at_line))]
fn back_line(count: u32, kept: u64, m: &Machine) -> Line
    ensures { result ≡ back_line count kept m.now.timed.count m.now.timed.arch.pc }
{
    if u64::from(count) <= kept {
        place_line(b"at ", m.count(), m.view().pc())
    } else {
        kept_line(kept)
    }
}

/// How many undos are kept.
#[tactic(auto, unfolding(crate::specs::Replies::kept_line))]
fn kept_line(kept: u64) -> Line
    ensures { result ≡ kept_line kept }
{
    line_of!(text b"kept ", decimal kept, text b"\n")
}

/// A word of at most 8 letters, the place and the pc there.
#[tactic(auto, unfolding(crate::specs::Replies::place_line))]
fn place_line(word: &[u8], place: u64, pc: u32) -> Line
    requires { length word.now ≤ 8 }
    ensures { result ≡ place_line word.now place pc }
{
    line_of!(text word, decimal place, text b" pc ", hex_word pc, text b"\n")
}

/// The place and how the machine ended.
#[tactic(auto, unfolding(crate::specs::Replies::ended_line))]
fn ended_line(place: u64, end: End) -> Line
    ensures { result ≡ ended_line place end }
{
    let mut line = line_of!(text b"ended ", decimal place, text b" ");
    push_end(&mut line, end);
    line.text(b"\n");
    line
}

/// One register.
#[tactic(auto, unfolding(crate::specs::Replies::register_line))]
fn register_line(n: u8, m: &Machine) -> Line
    requires { n < 32 }
    ensures { result ≡ register_line m.now.timed.arch.regs n }
{
    line_of!(text b"x", decimal u64::from(n), text b" ", hex_word m.view().reg(n), text b"\n")
}

/// The newest flush, if one came.
fn why_line(newest: Option<FlushRow>) -> Line
    ensures { result ≡ why_line newest }
{
    match newest {
        Some(row) => flush_line(&row),
        None => line_of!(text b"no flush\n"),
    }
}
