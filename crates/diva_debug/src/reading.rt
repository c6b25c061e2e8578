// The commands of a text, or its first fault.
ghost use Rattle.std.specs.Prelude.{◌≡◌, ◌≤◌, length, IfOk, IfErr, Ok};
ghost use Rattle.std.specs.List.{All};
ghost use Rattle.diva_outside.specs.TextFaults.{IsFirstFault};
ghost use Rattle.diva_debug.specs.Moves.{IsShort};
ghost use Rattle.diva_debug.specs.Ranges.{IsStepCount};
ghost use Rattle.diva_debug.specs.Reading.{command_in, commands_of, count_in, mem_in, most_bytes, reg_in, until_in};

use crate::command::Command;
use crate::fault::{CommandFault, Kind};
use crate::numbers::{MemRange, RegisterNumber, StepCount};
use diva_outside::{ItemReader, LineWords, is_word, read_items};
use std::alloc::Global;

/// The commands of a text in their order. The error is its first fault, or `Memory` where memory runs out.
///
/// Lines without words are skipped. Every other line is a command: `step K`, `until PC`, `back K`, `reg N`, `mem ADDR LEN` or
/// `why`. K is 1 to 1,000,000, N is 0 to 31, LEN is 1 to 32, all decimal; PC and ADDR are hex, and ADDR + LEN is 2^32 at most.
#[tactic(auto, unfolding(crate::specs::Reading::commands_of))]
pub fn commands(alloc: Global, text: &[u8]) -> Result<Vec<Command>, CommandFault>
    ensures commands { IfOk result (λ commands. commands_of text.now ≡ Ok commands.items) }
    ensures few { IfOk result (λ commands. length commands.items ≤ length text.now) }
    ensures short { IfOk result (λ commands. All IsShort commands.items) }
    ensures fault { IfErr result (IsFirstFault (commands_of text.now)) }
{
    read_items(alloc, &CommandReader, text)
}

/// Reads the commands of a session.
struct CommandReader;

impl ItemReader for CommandReader {
    ghost use Rattle.diva_debug.specs.Moves.{IsShort};
    ghost use Rattle.diva_debug.specs.Reading.{command_in, surplus_command};

    type Item = Command;

    type Kind = Kind;

    ghost item = { command_in };

    ghost keeps = { IsShort };

    ghost surplus = { surplus_command };

    fn item(&self, word: &[u8], words: &mut LineWords<'_>) -> Result<Command, Kind> {
        command_in(word, words)
    }

    fn surplus(&self, _count: usize) -> Option<Kind> {
        None
    }
}

/// A command by its first word, and the others.
#[tactic(auto, unfolding(crate::specs::Reading::command_in))]
fn command_in(word: &[u8], words: &mut LineWords<'_>) -> Result<Command, Kind>
    ensures command { result ≡ command_in word.now words.old }
    ensures short { IfOk result IsShort }
{
    if is_word(word, b"step") {
        Ok(Command::Step(count_in(words)?))
    } else if is_word(word, b"until") {
        until_in(words)
    } else if is_word(word, b"back") {
        Ok(Command::Back(count_in(words)?))
    } else if is_word(word, b"reg") {
        reg_in(words)
    } else if is_word(word, b"mem") {
        mem_in(words)
    } else if is_word(word, b"why") {
        words.end()?;
        Ok(Command::Why)
    } else {
        Err(Kind::Unknown)
    }
}

/// After `step` or `back`: K.
#[tactic(auto, unfolding(crate::specs::Reading::count_in))]
fn count_in(words: &mut LineWords<'_>) -> Result<StepCount, Kind>
    ensures count { result ≡ count_in words.old }
    ensures range { IfOk result IsStepCount }
{
    let count = words.number(1, 1_000_000)?;
    words.end()?;
    Ok(StepCount::new(count).unwrap())
}

/// After `until`: PC.
#[tactic(auto, unfolding(crate::specs::Reading::until_in))]
fn until_in(words: &mut LineWords<'_>) -> Result<Command, Kind>
    ensures command { result ≡ until_in words.old }
    ensures short { IfOk result IsShort }
{
    let pc = words.hex()?;
    words.end()?;
    Ok(Command::Until(pc))
}

/// After `reg`: N.
#[tactic(auto, unfolding(crate::specs::Reading::reg_in))]
fn reg_in(words: &mut LineWords<'_>) -> Result<Command, Kind>
    ensures command { result ≡ reg_in words.old }
    ensures short { IfOk result IsShort }
{
    let number = words.number(0, 31)? as u8;
    words.end()?;
    Ok(Command::Reg(RegisterNumber::new(number).unwrap()))
}

/// After `mem`: ADDR LEN.
#[tactic(auto, unfolding(crate::specs::Reading::mem_in))]
fn mem_in(words: &mut LineWords<'_>) -> Result<Command, Kind>
    ensures command { result ≡ mem_in words.old }
    ensures short { IfOk result IsShort }
{
    let addr = words.hex()?;
    let len = words.number(1, most_bytes(addr))?;
    words.end()?;
    Ok(Command::Mem(MemRange::new(addr, len).unwrap()))
}

/// How many bytes are shown from an address on at most.
fn most_bytes(addr: u32) -> u32
    ensures { result ≡ most_bytes addr }
{
    let left = (1 << 32) - u64::from(addr);
    left.min(32) as u32
}
