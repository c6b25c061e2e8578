// The order of loads and of puts, and what follows where each of them in turn fails.
use super::campaigns::{FIRST_CYCLE, ONE_CYCLE, TRAPPED};
use super::drawings::{self, LOGGED};
use super::executables::files::THREE;
use super::executables::{pair_of_three, three_text};
use super::harts::{FIVE_PAIR, PAIRS, pair_text};
use super::noting::Load;
use super::refusals::USAGE;
use super::sessions::{STEPS_COMMANDS, STEPS_TEXT};
use super::soaks::{FLIPPED_LINES, soaked_text};
use super::sources::{FIVE_LISTING, FIVE_SOURCE};
use super::tables::ROWS;
use super::tapes::{FLOODED, IN_LOCKSTEP};
use super::texts::text_due;
use super::traces::FIVE_TRACE;
use super::{Answer, FIVE_TEXT, Outside, compare_unasked, file_name, image_files, run_program};
use crate::cores::{counting, flipped};
use diva_core::CopyCore;
use diva_outside::{Fail as SinkFail, What};
use diva_test_programs::{FIVE_FILE, FIVE_SEGMENTED, image_file, laid};
use std::alloc::Global;
use std::process::Abort;
use std::test::Fail;

/// What is taken for an image, the length to which it is cut where it is to be refused, and its fault then.
type Loaded = (&'static [u8], usize, &'static str);

/// An image, and an executable of the same instructions.
static IMAGES: [Loaded; 2] = [(&FIVE_FILE, 35, "8 at 35"), (&THREE, 84, "27 at 52")];

/// Command lines, and the kinds of the files that they load, in order.
static LOADS: [(&str, &[What]); 17] = laid! {
    ("run a.diva", &[What::Image]),
    ("run a.diva --script a.script", &[What::Image, What::Script]),
    ("run a.diva --liar 1 --core tape --tape a.tape --script a.script", &[What::Image, What::Script, What::Tape]),
    ("log a.diva --core tape --tape a.tape --script a.script", &[What::Image, What::Script, What::Tape]),
    ("draw a.diva --liar 2 --core tape --tape a.tape --script a.script", &[What::Image, What::Script, What::Tape]),
    ("run a.diva --core tape --tape a.tape", &[What::Image, What::Tape]),
    ("run a.diva --core tape --tape a.tape --script a.script", &[What::Image, What::Script, What::Tape]),
    ("tape a.diva", &[What::Image]),
    ("duo a.diva", &[What::Image]),
    ("tape a.diva --core tape --tape a.tape --script a.script", &[What::Image, What::Script, What::Tape]),
    ("debug a.diva a.commands", &[What::Image, What::Commands]),
    ("debug a.diva a.commands --core tape --tape a.tape --script a.script", &[What::Image, What::Script, What::Tape, What::Commands]),
    ("asm a.s", &[What::Source]),
    ("dis a.diva", &[What::Image]),
    ("migrate a.diva", &[What::Image]),
    ("soak 1 1", &[]),
    ("campaign a.diva 1", &[What::Image]),
};

/// Each file is loaded once, in order, and no other.
#[test]
fn loads_in_order(rt: HostRuntime) -> Result<(), Fail> {
    let alloc = rt.alloc();
    for &(image, ..) in &IMAGES {
        for &(line, files) in &LOADS {
            let answer = run_program(&mut flipped(), line, image_files(alloc, image)?)?;
            assert_eq!(rt; answer.status, 0, "{line}");
            compare_loads(&rt, line, &answer.loads, files);
        }
    }
    Ok(())
}

/// Compares the loads with the kinds of files that are due, each by its name.
fn compare_loads(rt: &impl Abort, line: &str, loads: &[Load], files: &[What]) {
    assert_eq!(rt; loads.len(), files.len(), "{line}");
    for (load, &what) in loads.iter().zip(files.iter()) {
        assert_eq!(rt; load.what, what, "{line}");
        assert_eq!(rt; load.name.as_str(), file_name(what), "{line}");
    }
}

/// Each file is one whose load fails, then one that is not there, and then one that is refused: no file behind it is
/// loaded.
#[test]
fn loads_that_stop(rt: HostRuntime) -> Result<(), Fail> {
    for &image in &IMAGES {
        for &(line, files) in &LOADS {
            compare_stops(&rt, rt.alloc(), image, line, files)?;
        }
    }
    Ok(())
}

/// Compares status, text and loads where each of these files in turn stops the program.
fn compare_stops(
    rt: &impl Abort,
    alloc: Global,
    image: Loaded,
    line: &str,
    files: &[What],
) -> Result<(), Fail> {
    for (place, &what) in files.iter().enumerate() {
        let due = files.get(..=place).ok_or("no such place")?;
        for (outside, status, text) in stops_at(alloc, image, place as u64 + 1, what)? {
            let loads = compare_unasked(rt, line, outside, status, text.as_str())?;
            compare_loads(rt, line, &loads, due);
        }
    }
    Ok(())
}

/// Files of which the one of this kind stops the program where this call loads it: the load fails, there is no such
/// file, or it is refused, an image because it is cut and another file for its one byte. With the status and the text that are due.
fn stops_at(
    alloc: Global,
    image: Loaded,
    call: u64,
    what: What,
) -> Result<[(Outside, u8, String); 3], Fail> {
    let (image, cut, fault_when_cut) = image;
    let mut failing = image_files(alloc, image)?;
    failing.load_fails.push(call)?;
    let mut missing = image_files(alloc, image)?;
    missing.absent = Some(what);
    let mut faulty = image_files(alloc, image)?;
    if what == What::Image {
        faulty.file.truncate(cut);
    } else {
        faulty = faulty.with(what, b"?")?;
    }
    let (word, fault) = match what {
        What::Image => ("image", fault_when_cut),
        What::Script => ("script", "1 at 1"),
        What::Tape => ("tape", "1 at 1"),
        What::Source => ("source", "1 at 1"),
        What::Commands => ("commands", "1 at 1"),
    };
    let unreadable = format!(in alloc; "unreadable {word}\n")?;
    let refused = format!(in alloc; "refused {word} {fault}\n")?;
    Ok([
        (failing, 8, unreadable.clone()?),
        (missing, 8, unreadable),
        (faulty, 5, refused),
    ])
}

/// Command lines, with the status and the text that are due where no put fails.
static TEXTS: [(&str, u8, &str); 7] = [
    ("run a.diva --core lockstep", 0, FIVE_TEXT),
    ("run a.diva --core lockstep --liar 1", 0, FIVE_TEXT),
    ("debug a.diva a.commands --core scalar", 0, STEPS_TEXT),
    ("dis a.diva", 0, FIVE_LISTING),
    ("run", 2, USAGE),
    ("run a.script", 5, "refused image 1 at 0\n"),
    ("run b.diva", 8, "unreadable image\n"),
];

#[test]
fn puts_that_fail(rt: HostRuntime) -> Result<(), Fail> {
    let alloc = rt.alloc();
    for &(line, status, text) in &TEXTS {
        compare_lines(&rt, alloc, &FIVE_FILE, line, status, text)?;
    }
    let trace = format!(in alloc; "{FIVE_TRACE}{FIVE_TEXT}")?;
    for line in [
        "run a.diva --core lockstep --trace",
        "run a.diva --core lockstep --trace --liar 2",
    ] {
        compare_lines(&rt, alloc, &FIVE_FILE, line, 0, trace.as_str())?;
    }
    for (line, text) in [
        (FIVE_PAIR.line, pair_text(alloc, &FIVE_PAIR)?),
        (FIRST_CYCLE.line, text_due(alloc, &FIRST_CYCLE)?),
        ("soak 1 1", soaked_text(alloc, FLIPPED_LINES)?),
    ] {
        compare_lines(&rt, alloc, &FIVE_FILE, line, 0, text.as_str())?;
    }
    for (line, status, tape) in [
        ("tape a.diva --core lockstep", 0, IN_LOCKSTEP),
        ("tape a.diva --core flood --cycles 1", 4, FLOODED),
    ] {
        let claims = claims_of(alloc, tape)?;
        compare_puts(&rt, alloc, &FIVE_FILE, line, status, &claims)?;
    }
    for (line, file) in [
        ("asm a.s", FIVE_FILE.as_slice()),
        ("migrate a.diva", &FIVE_SEGMENTED),
    ] {
        let mut image = Vec::new(alloc);
        image.push(Vec::from_slice(alloc, file)?)?;
        compare_puts(&rt, alloc, &FIVE_FILE, line, 0, &image)?;
    }
    Ok(())
}

/// Runs that don't halt have another status only where no put fails: those of `run`, none of which has a script or a tape, two campaigns
/// and those on two harts. The others are of an executable.
#[test]
fn puts_that_fail_over_other_images(rt: HostRuntime) -> Result<(), Fail> {
    let alloc = rt.alloc();
    for row in ROWS.iter().chain(&[ONE_CYCLE, TRAPPED]) {
        if row.status != 0 {
            let image = image_file(alloc, row.program)?;
            let text = text_due(alloc, row)?;
            compare_lines(&rt, alloc, &image, row.line, row.status, text.as_str())?;
        }
    }
    for pair in &PAIRS {
        if pair.status != 0 {
            let image = image_file(alloc, pair.program)?;
            let text = pair_text(alloc, pair)?;
            compare_lines(&rt, alloc, &image, pair.line, pair.status, text.as_str())?;
        }
    }
    for (line, text) in [
        ("run a.diva --core lockstep", three_text(alloc)?),
        ("run a.diva --core lockstep --liar 0", three_text(alloc)?),
        ("duo a.diva --core lockstep", pair_of_three(alloc)?),
    ] {
        compare_lines(&rt, alloc, &THREE, line, 0, text.as_str())?;
    }
    Ok(())
}

/// Runs that are drawn: one that goes on as a log, in which the first claim of the program's own core is wrong, and as a drawing one that
/// halts, also with a liar, and one that goes on.
#[test]
fn puts_that_fail_of_drawn_runs(rt: HostRuntime) -> Result<(), Fail> {
    let alloc = rt.alloc();
    let log = blocks_of(alloc, LOGGED)?;
    compare_puts(&rt, alloc, &FIVE_FILE, "log a.diva --cycles 8", 4, &log)?;
    let (halts, goes_on) = (&drawings::ROWS[0], &drawings::ROWS[2]);
    for (line, drawn) in [
        (halts.line, halts),
        ("draw a.diva --liar 0 --core scalar", halts),
        (goes_on.line, goes_on),
    ] {
        compare_lines(&rt, alloc, &FIVE_FILE, line, drawn.status, drawn.text)?;
    }
    Ok(())
}

/// The puts of a log: its first two lines, of each cycle the lines of what goes on or begins, and each line of what ends.
fn blocks_of(alloc: Global, text: &str) -> Result<Vec<Vec<u8>>, Fail> {
    let mut pieces = Vec::new(alloc);
    let mut piece = Vec::new(alloc);
    for line in text.lines() {
        if line.starts_with("C\t") || line.starts_with("R\t") {
            pieces.push(piece)?;
            piece = Vec::new(alloc);
        }
        piece.extend_from_slice(line.as_bytes())?;
        piece.push(b'\n')?;
    }
    pieces.push(piece)?;
    Ok(pieces)
}

/// The puts of two rows of 3,117 and 6,207 bytes, and of a scale as long: a piece has at most 4,096 bytes, which are a name of 26 and
/// 1,356 cells of three, and the rest is another piece.
static PIECES: [usize; 5] = [3117, 4094, 2113, 4094, 2113];

/// Each piece of long rows is one put. Where one fails, none follows.
#[test]
fn pieces_of_long_rows(rt: HostRuntime) -> Result<(), Fail> {
    let alloc = rt.alloc();
    let line = "draw a.diva --core silent --watchdog 1024 --cycles 2060";
    for (call, status, puts) in [(3, 9, 3), (6, 4, 5)] {
        let answer = run_cut(alloc, &mut flipped(), &FIVE_FILE, line, call, 0)?;
        let due = PIECES.get(..puts).ok_or("too many")?;
        assert_eq!(rt; answer.status, status, "{line}");
        assert_eq!(rt; answer.puts.as_slice(), due, "{line}");
    }
    Ok(())
}

/// Compares the puts of a text, each of whose lines is one.
fn compare_lines(
    rt: &impl Abort,
    alloc: Global,
    image: &[u8],
    line: &str,
    status: u8,
    text: &str,
) -> Result<(), Fail> {
    let pieces = lines_of(alloc, text)?;
    compare_puts(rt, alloc, image, line, status, &pieces)
}

/// The lines of a text, each of which is a put.
fn lines_of(alloc: Global, text: &str) -> Result<Vec<Vec<u8>>, Fail> {
    let mut pieces = Vec::new(alloc);
    for line in text.lines() {
        let mut piece = Vec::from_slice(alloc, line.as_bytes())?;
        piece.push(b'\n')?;
        pieces.push(piece)?;
    }
    Ok(pieces)
}

/// The claims of a tape, each but the first of its line with ` ; ` before it, and the line feeds: each is a put.
fn claims_of(alloc: Global, tape: &str) -> Result<Vec<Vec<u8>>, Fail> {
    let mut pieces = Vec::new(alloc);
    for line in tape.lines() {
        for (place, claim) in line.split(" ; ").enumerate() {
            let before = if place == 0 { "" } else { " ; " };
            let piece = format!(in alloc; "{before}{claim}")?;
            if !piece.is_empty() {
                pieces.push(Vec::from_slice(alloc, piece.as_bytes())?)?;
            }
        }
        pieces.push(Vec::from_slice(alloc, b"\n")?)?;
    }
    Ok(pieces)
}

/// Each put of these pieces fails in turn, and takes no byte, one, or all but one: what is then written are the
/// pieces before it, and what it took, and no put follows. Where none fails, each piece is one put.
fn compare_puts(
    rt: &impl Abort,
    alloc: Global,
    image: &[u8],
    line: &str,
    status: u8,
    pieces: &[Vec<u8>],
) -> Result<(), Fail> {
    let mut written = Vec::new(alloc);
    let mut puts = Vec::new(alloc);
    for piece in pieces {
        let call = puts.len() as u64 + 1;
        puts.push(piece.len())?;
        for takes in [0, 1, piece.len().saturating_sub(1)] {
            let mut due = written.clone()?;
            due.extend_from_slice(piece.get(..takes).ok_or("the piece is empty")?)?;
            let answer = run_cut(alloc, &mut flipped(), image, line, call, takes)?;
            compare_put(rt, line, &answer, 9, &due, &puts);
        }
        written.extend_from_slice(piece)?;
    }
    let call = puts.len() as u64 + 1;
    let answer = run_cut(alloc, &mut flipped(), image, line, call, 0)?;
    compare_put(rt, line, &answer, status, &written, &puts);
    Ok(())
}

/// Compares the status, what was written, and the lengths of the puts.
fn compare_put(
    rt: &impl Abort,
    line: &str,
    answer: &Answer,
    status: u8,
    written: &[u8],
    puts: &[usize],
) {
    let number = puts.len();
    assert_eq!(rt; answer.status, status, "{line}, put {number}");
    assert_eq!(rt; answer.text.as_slice(), written, "{line}, put {number}");
    assert_eq!(rt; answer.puts.as_slice(), puts, "{line}, put {number}");
}

/// What the program answers on sound files with this image, and a sink of which this put fails and takes so many bytes.
fn run_cut<C: CopyCore + Drop>(
    alloc: Global,
    core: &mut C,
    image: &[u8],
    line: &str,
    call: u64,
    takes: usize,
) -> Result<Answer, Fail> {
    let mut outside = image_files(alloc, image)?
        .with(What::Source, FIVE_SOURCE)?
        .with(What::Commands, STEPS_COMMANDS.as_bytes())?;
    outside.put_fails.push(SinkFail { call, takes })?;
    run_program(core, line, outside)
}

/// Command lines under a core that claims in lockstep, and for each of the first puts the cycles that were run before it: each
/// is one call of the core.
///
/// The instructions of `FIVE` commit in the cycles 7, 14 and 21, and the four of the seed's image in 7, 14, 21 and 28. What a
/// machine left is put when it has ended, a commit line in its cycle, and the line of a tape in each cycle: in the cycles 1, 8 and
/// 15 it has a claim and so two puts. `step 2` ends in cycle 14, and `step 5` in 21. A log begins before the first cycle, and has one
/// put in each, and one more where an instruction commits. A drawing has an instruction where it commits, and
/// the scale at the end.
static CALLS: [(&str, &[u64]); 9] = laid! {
    ("run a.diva --core own", &[21, 21]),
    ("run a.diva --core own --liar 1", &[21, 21]),
    ("run a.diva --core own --trace", &[7, 14, 21, 21, 21]),
    ("run a.diva --core own --trace --liar 2", &[7, 14, 21, 21, 21]),
    ("log a.diva --core own", &[0, 1, 2, 3, 4, 5, 6, 7, 7, 8, 9, 10, 11, 12, 13, 14, 14, 15, 16, 17, 18, 19, 20, 21, 21]),
    ("draw a.diva --core own --liar 0", &[7, 14, 21, 21]),
    ("tape a.diva --core own", &[1, 1, 2, 3, 4, 5, 6, 7, 8, 8, 9, 10, 11, 12, 13, 14, 15, 15, 16, 17, 18, 19, 20, 21]),
    ("debug a.diva a.commands --core own", &[14, 14, 14, 21]),
    ("soak 1 1", &[28, 28]),
};

/// A core is not asked behind a put that failed.
#[test]
fn calls_before_a_put_that_fails(rt: HostRuntime) -> Result<(), Fail> {
    let alloc = rt.alloc();
    for &(line, calls) in &CALLS {
        for (place, &due) in calls.iter().enumerate() {
            let call = place as u64 + 1;
            let mut core = counting();
            let answer = run_cut(alloc, &mut core, &FIVE_FILE, line, call, 0)?;
            assert_eq!(rt; (answer.status, core.calls), (9, due), "{line}, put {call}");
        }
    }
    Ok(())
}
