//! A whole program with a watcher of its own, to be copied. It runs an image under the core `Echo`, and says of each mnemonic how
//! often such an instruction was flushed.
#![tactic(auto)]

ghost use Rattle.std.specs.Prelude.{◌≡◌, IfSome};

use arrayvec::ArrayVec;
use diva_asm::list_line;
use diva_cli::{Watcher, watch};
use diva_core::{Claims, Config};
use diva_decode::{Op, decode};
use diva_machine::Machine;
use diva_outside::{DiskFiles, Files, Line, Sink, SinkFailed, StdSink, What, put_line};
use diva_tape::Echo;
use std::process::ExitCode;
use std::{env, io};

/// How many cycles are run at most, each of which may have a flush.
const MOST: usize = 1024;

/// Notes the word of each instruction that is flushed, and writes nothing.
#[derive(Drop)]
struct FlushNotes {
    words: ArrayVec<u32, MOST>,
}

impl Watcher for FlushNotes {
    ghost use Rattle.std.specs.Prelude.{◌≡◌, ◌+◌, ◌≤◌, [], length, ⊤};
    ghost use Rattle.diva_own_watcher.specs.Noted.{noted};

    // It puts nothing, and of a turn with a flush it notes the word.
    ghost puts = { λ before seen after text. (text ≡ []) × (after.words.items ≡ noted before.words.items seen.after) };

    // Nothing is said of the lists that were handed over.
    ghost says = { λ list. ⊤ };

    // It has room for a word of each turn.
    ghost can = { λ watcher n. length watcher.words.items + n ≤ 1024 };

    fn see<S: Sink>(
        &mut self,
        _first: u64,
        m: &Machine,
        _list: &Claims,
        _sink: &mut S,
    ) -> Result<(), SinkFailed> {
        if let Some(row) = m.newest()
            && row.cycle == m.cycles()
        {
            let view = m.view();
            if let Some(word) = view.word(view.pc()) {
                self.words.push(word);
            }
        }
        Ok(())
    }
}

/// Puts a line for each mnemonic among these words, in the order in which they come: how many of the words have it.
fn put_counts<S: Sink>(words: &[u32], sink: &mut S) -> Result<(), SinkFailed> {
    for (place, &word) in words.iter().enumerate() {
        let op = op_of(word);
        if words[..place].iter().any(|&earlier| op_of(earlier) == op) {
            continue;
        }
        let count = words.iter().filter(|&&other| op_of(other) == op).count();
        put_mnemonic(word, sink)?;
        let mut line = Line::new();
        line.push(b' ');
        line.decimal(count as u64);
        line.push(b'\n');
        put_line(&line, sink)?;
    }
    Ok(())
}

/// The operation of a word, if it is an instruction.
fn op_of(word: u32) -> Option<Op> {
    decode(word).map(|i| i.op)
}

/// Puts what stands third in the line of the listing for a word, after an address and the word.
fn put_mnemonic<S: Sink>(word: u32, sink: &mut S) -> Result<(), SinkFailed> {
    let line = list_line(0, word);
    match line.bytes().split(|byte| byte.is_ascii_whitespace()).nth(2) {
        Some(mnemonic) => sink.put(mnemonic),
        None => Ok(()),
    }
}

/// The machine that begins with the image of a file, if that can be loaded and read.
fn machine(rt: &HostRuntime, name: &str) -> Option<Machine>
    ensures { IfSome result (λ m. m.timed.cycles ≡ 0) }
{
    let bytes = DiskFiles::new(rt)
        .load(rt.alloc(), What::Image, name, 1 << 16)
        .ok()?;
    let image = diva_image::read(rt.alloc(), &bytes).ok()?;
    Machine::new(rt.alloc(), &image, Config::new(2, 16, 4, 64)?).ok()
}

/// Runs the image that is named, and puts the counts. The status is 1 if there is no such image, or standard output fails.
fn main(rt: HostRuntime) -> io::Result<ExitCode> {
    let words: Vec<String> = env::args(&rt)?.skip(1).collect(rt.alloc())?;
    let Some(name) = words.first() else {
        return Ok(ExitCode::FAILURE);
    };
    let Some(mut machine) = machine(&rt, name.as_str()) else {
        return Ok(ExitCode::FAILURE);
    };
    let mut notes = FlushNotes {
        words: ArrayVec::new(),
    };
    let mut sink = StdSink::new(io::writer(&rt));
    let watched = watch(&mut machine, &mut Echo, MOST as u64, &mut notes, &mut sink);
    let put = watched.and_then(|()| put_counts(&notes.words, &mut sink));
    Ok(if put.is_ok() {
        ExitCode::SUCCESS
    } else {
        ExitCode::FAILURE
    })
}
