// Command lines over files and a sink in memory, with the status and the text that are due.
mod backwards;
mod campaigns;
mod drawings;
mod executables;
mod failing;
mod harts;
mod hostile;
mod lanes;
mod noting;
mod pipelined;
mod ports;
mod refusals;
mod scripts;
mod segments;
mod sessions;
mod soaks;
mod sources;
mod staged;
mod tables;
mod tapes;
mod texts;
mod traces;
mod watched;

use crate::cores::{counting, flipped};
use diva_cli::{Failure, Lanes, top};
use diva_core::CopyCore;
use diva_isa::Record;
use diva_lab_args::read_lab_words;
use diva_outside::{Fail as SinkFail, MemFile, MemFiles, MemSink, What};
use diva_process::Status;
use diva_source::NoSource;
use diva_test_programs::{ASKS, FIVE_FILE, HALTS, Lists, Program, image_file, registers_text};
use diva_workbench::lab_work;
use noting::{Load, NotingFiles, NotingSink};
use std::alloc::{AllocError, Global};
use std::process::Abort;
use std::test::Fail;
use tables::{CHATTER, DIFFERING, FULL, ROWS, Row, TRAPS};
use texts::text_due;

/// The bytes that a sink takes, more than any of these runs writes.
const ROOM: usize = 1 << 18;

/// The files that are there, an image `a.diva`, a script `a.script`, a tape `a.tape`, a source `a.s` and commands
/// `a.commands`; which of them is not there after all, and how loads of them and the sink fail.
#[derive(Drop)]
struct Outside {
    alloc: Global,
    file: Vec<u8>,
    script: Vec<u8>,
    tape: Vec<u8>,
    source: Vec<u8>,
    commands: Vec<u8>,
    absent: Option<What>,
    load_fails: Vec<u64>,
    room: usize,
    put_fails: Vec<SinkFail>,
}

impl Outside {
    /// An image with these bytes, and an empty file of each other kind, where nothing fails.
    fn sound(alloc: Global, file: Vec<u8>) -> Self {
        Outside {
            alloc,
            file,
            script: Vec::new(alloc),
            tape: Vec::new(alloc),
            source: Vec::new(alloc),
            commands: Vec::new(alloc),
            absent: None,
            load_fails: Vec::new(alloc),
            room: ROOM,
            put_fails: Vec::new(alloc),
        }
    }

    /// The same, where these bytes stand behind those of the file of this kind.
    fn with(mut self, what: What, bytes: &[u8]) -> Result<Self, AllocError> {
        self.file_mut(what).extend_from_slice(bytes)?;
        Ok(self)
    }

    /// The bytes of the file of this kind.
    fn file_mut(&mut self, what: What) -> &mut Vec<u8> {
        match what {
            What::Image => &mut self.file,
            What::Script => &mut self.script,
            What::Tape => &mut self.tape,
            What::Source => &mut self.source,
            What::Commands => &mut self.commands,
        }
    }
}

/// The name of the file of this kind.
fn file_name(what: What) -> &'static str {
    match what {
        What::Image => "a.diva",
        What::Script => "a.script",
        What::Tape => "a.tape",
        What::Source => "a.s",
        What::Commands => "a.commands",
    }
}

/// The image of `FIVE`, and an empty file of each other kind, where nothing fails.
fn five_files(alloc: Global) -> Result<Outside, AllocError> {
    image_files(alloc, &FIVE_FILE)
}

/// An image with these bytes, and an empty file of each other kind, where nothing fails.
fn image_files(alloc: Global, image: &[u8]) -> Result<Outside, AllocError> {
    Ok(Outside::sound(alloc, Vec::from_slice(alloc, image)?))
}

/// Runs the program as `compare_by` does, with `flipped` as its own core.
fn compare(
    rt: &impl Abort,
    line: &str,
    outside: Outside,
    status: u8,
    text: &str,
) -> Result<(), Fail> {
    compare_by(rt, &mut flipped(), line, outside, status, text)
}

/// Compares status and text where nothing is run. Gives the loads.
fn compare_unasked(
    rt: &impl Abort,
    line: &str,
    outside: Outside,
    status: u8,
    text: &str,
) -> Result<Vec<Load>, Fail> {
    let answer = run_unasked(rt, line, outside)?;
    compare_answer(rt, line, &answer, status, text)?;
    Ok(answer.loads)
}

/// What the program answers where nothing is run: its own core is not asked, and all that is written is one put.
fn run_unasked(rt: &impl Abort, line: &str, outside: Outside) -> Result<Answer, Fail> {
    let mut core = counting();
    let answer = run_program(&mut core, line, outside)?;
    assert_eq!(rt; core.calls, 0, "{line}");
    let whole = answer.text.len();
    assert_eq!(rt; answer.puts.as_slice(), [whole].as_slice(), "{line}");
    Ok(answer)
}

/// Runs the program on a command line, over the files of `outside` and with this core as its own, and
/// compares status and text.
fn compare_by<C: CopyCore + Drop>(
    rt: &impl Abort,
    core: &mut C,
    line: &str,
    outside: Outside,
    status: u8,
    text: &str,
) -> Result<(), Fail> {
    let answer = run_program(core, line, outside)?;
    compare_answer(rt, line, &answer, status, text)
}

/// Compares the status and the text of an answer.
fn compare_answer(
    rt: &impl Abort,
    line: &str,
    answer: &Answer,
    status: u8,
    text: &str,
) -> Result<(), Fail> {
    assert_eq!(rt; answer.status, status, "{line}");
    assert_eq!(rt; str::from_utf8(&answer.text)?, text, "{line}");
    Ok(())
}

/// What the program answers, the files that it loaded and the lengths of what it put.
#[derive(Drop)]
struct Answer {
    status: u8,
    text: Vec<u8>,
    loads: Vec<Load>,
    puts: Vec<usize>,
}

/// Runs the program on a command line, in which an empty word is written `''`.
fn run_program<C: CopyCore + Drop>(
    core: &mut C,
    line: &str,
    outside: Outside,
) -> Result<Answer, Fail> {
    let alloc = outside.alloc;
    let words = words_of(alloc, line)?;
    let (mut files, mut sink) = files_and_sink(outside)?;
    let status = run_words(alloc, &words, &mut files, &mut sink, core);
    answer_from(alloc, status, files, &sink)
}

/// The words of a line, in which an empty word is written `''`.
fn words_of(alloc: Global, line: &str) -> Result<Vec<&str>, Fail> {
    let mut words = Vec::new(alloc);
    for word in line.split(' ').filter(|word| !word.is_empty()) {
        words.push(if word == "''" { "" } else { word })?;
    }
    Ok(words)
}

/// The files that are there, and the sink.
fn files_and_sink(outside: Outside) -> Result<(NotingFiles, NotingSink), Fail> {
    let alloc = outside.alloc;
    let absent = outside.absent;
    let mut there = Vec::new(alloc);
    for (what, bytes) in [
        (What::Image, outside.file),
        (What::Script, outside.script),
        (What::Tape, outside.tape),
        (What::Source, outside.source),
        (What::Commands, outside.commands),
    ] {
        if absent != Some(what) {
            there.push(MemFile::new(String::from_str(alloc, file_name(what))?, bytes))?;
        }
    }
    let files = NotingFiles::new(alloc, MemFiles::new(there, outside.load_fails));
    let sink = MemSink::new(alloc, outside.room, outside.put_fails)?;
    Ok((files, NotingSink::new(alloc, sink)?))
}

/// What the program has answered with this status.
fn answer_from(
    alloc: Global,
    status: u8,
    files: NotingFiles,
    sink: &NotingSink,
) -> Result<Answer, Fail> {
    let puts = sink.puts().ok_or("a put was not noted")?;
    Ok(Answer {
        status,
        text: Vec::from_slice(alloc, sink.bytes())?,
        loads: files.into_loads(),
        puts: Vec::from_slice(alloc, puts)?,
    })
}

/// Runs the program whose command these words begin with: the one that draws runs, or the other.
fn run_words<C: CopyCore + Drop>(
    alloc: Global,
    words: &[&str],
    files: &mut NotingFiles,
    sink: &mut NotingSink,
    core: &mut C,
) -> u8 {
    match words {
        ["log" | "draw", ..] => do_lab_job(alloc, words, files, sink, core),
        _ => top(alloc, words, files, sink, core),
    }
}

/// Does the job of the workbench that the words ask for, with no source to read.
fn do_lab_job<C: CopyCore + Drop>(
    alloc: Global,
    words: &[&str],
    files: &mut NotingFiles,
    sink: &mut NotingSink,
    core: &mut C,
) -> u8 {
    let Ok(job) = read_lab_words(alloc, words) else {
        return Status::Misused.number();
    };
    let mut source = NoSource::new();
    match lab_work(
        alloc,
        job,
        files,
        sink,
        core,
        &mut source,
        &mut Lanes::own(),
    ) {
        Ok(status) => status.number(),
        Err(Failure::Cut) => Status::Cut.number(),
        Err(Failure::Memory) => Status::NoMemory.number(),
    }
}

/// What `FIVE` writes where it is claimed one by one, to the letter.
const FIVE_TEXT: &str = "\
end halt 0
count 3
cycles 21
flushes 0 silent 0
output 0
x0 00000000 x1 00000005 x2 00000000 x3 00000000
x4 00000000 x5 00000000 x6 00000000 x7 00000000
x8 00000000 x9 00000000 x10 00000000 x11 00000000
x12 00000000 x13 00000000 x14 00000000 x15 00000000
x16 00000000 x17 0000005d x18 00000000 x19 00000000
x20 00000000 x21 00000000 x22 00000000 x23 00000000
x24 00000000 x25 00000000 x26 00000000 x27 00000000
x28 00000000 x29 00000000 x30 00000000 x31 00000000
pc 00000008
";

#[test]
fn programs_that_run(rt: HostRuntime) -> Result<(), Fail> {
    let alloc = rt.alloc();
    let five = five_files(alloc)?;
    compare(&rt, "run a.diva --core lockstep", five, 0, FIVE_TEXT)?;
    compare_rows(&rt, alloc, &ROWS)
}

/// Runs the program on each row, and compares status and text.
fn compare_rows(rt: &impl Abort, alloc: Global, rows: &[Row]) -> Result<(), Fail> {
    for row in rows {
        compare_row(rt, alloc, &mut flipped(), row)?;
    }
    Ok(())
}

/// Runs the program on a row, with this core as its own, and compares status and text.
fn compare_row<C: CopyCore + Drop>(
    rt: &impl Abort,
    alloc: Global,
    core: &mut C,
    row: &Row,
) -> Result<(), Fail> {
    let outside = Outside::sound(alloc, image_file(alloc, row.program)?)
        .with(What::Script, row.script)?
        .with(What::Tape, row.tape)?;
    let text = text_due(alloc, row)?;
    compare_by(rt, core, row.line, outside, row.status, text.as_str())
}

/// An instruction that traps is counted, and changes nothing.
#[test]
fn programs_that_trap(rt: HostRuntime) -> Result<(), Fail> {
    let alloc = rt.alloc();
    let registers = registers_text(alloc, &[])?;
    for &(trap, words) in &TRAPS {
        let file = image_file(alloc, Program { size: 64, words })?;
        let counts = "count 1\ncycles 7\nflushes 0 silent 0\noutput 0\n";
        let text = format!(in alloc; "end trap {trap}\n{counts}{registers}pc 00000000\n")?;
        let outside = Outside::sound(alloc, file);
        compare(&rt, "run a.diva --core lockstep", outside, 3, text.as_str())?;
    }
    Ok(())
}

/// A put of one byte more than the 65,536 that the output holds: 87,383 instructions come before the trap, and
/// the last of them is a put. In lockstep each takes 7 cycles; in the pipeline one commits in each from cycle 7 on,
/// and that put is pending while the claim behind it is checked. A claim of one more put there overlooks it: it
/// flushes, and the checker's own trap comes 6 cycles later.
#[test]
fn output_that_is_full(rt: HostRuntime) -> Result<(), Fail> {
    let alloc = rt.alloc();
    let line = format!(in alloc; "out {}\n", "41".repeat(alloc, 32)?)?;
    let output = line.as_str().repeat(alloc, 2048)?;
    let registers = registers_text(alloc, &[(10, 0x41), (17, 1)])?;
    for &(options, script, flush, cycles, flushes) in &FULL {
        let counts = format!(in alloc;
            "{flush}end trap 9\ncount 87384\ncycles {cycles}\nflushes {flushes} silent 0\noutput 65536\n"
        )?;
        let text = format!(in alloc; "{counts}{output}{registers}pc 0000000c\n")?;
        let line = format!(in alloc; "run a.diva --core {options}")?;
        let outside = Outside::sound(alloc, image_file(alloc, CHATTER)?).with(
            What::Script,
            script,
        )?;
        compare(&rt, line.as_str(), outside, 3, text.as_str())?;
    }
    Ok(())
}

/// A claim of cycle 1 that differs flushes in cycle 7, and names the first field in which it does.
/// The checker's own instruction commits in cycle 13, and the two claims of cycle 14 in 20.
#[test]
fn fields_that_differ(rt: HostRuntime) -> Result<(), Fail> {
    let alloc = rt.alloc();
    let counts = "end halt 0\ncount 3\ncycles 20\nflushes 1 silent 0\noutput 0\n";
    let registers = registers_text(alloc, &[(1, 5), (17, 0x5d)])?;
    for &(field, claim, due) in &DIFFERING {
        let text = format!(in alloc;
            "flush 7 at 0 {field} {due}\n{counts}{registers}pc 00000008\n"
        )?;
        let lists: [(u64, &[Record]); 4] = [
            (1, &[claim]),
            (2, &[]),
            (14, &[ASKS, HALTS]),
            (15, &[]),
        ];
        let mut core = Lists { lists: &lists };
        let outside = five_files(alloc)?;
        compare_by(&rt, &mut core, "run a.diva", outside, 0, text.as_str())?;
    }
    Ok(())
}
