// What is not run.
use super::{Outside, compare_unasked, five_files};
use diva_outside::What;
use diva_test_programs::{FIVE_FILE, altered, laid};
use std::alloc::Global;
use std::process::Abort;
use std::test::Fail;

/// What is written where the words are not a valid command line.
pub(crate) const USAGE: &str = "\
usage: diva run|tape|duo IMAGE, debug IMAGE COMMANDS, asm SRC, dis|migrate IMAGE, soak SEED LENGTH, campaign IMAGE LAST
";

/// Words that are not a valid command line.
static MISUSED: [&str; 41] = laid! {
    "", "run", "run a.diva --width 5", "run a.diva --port 7", "run a.diva --window 1", "run a.diva --liar 3", "tape a.diva --liar 0",
    "walk a.diva", "run a.diva --core tape", "run a.diva --tape a.tape", "tape a.diva --dump 0:4", "tape a.diva --trace", "duo",
    "duo a.diva --core own", "duo a.diva --port 1", "duo a.diva --trace", "duo a.diva --script a.script", "duo a.diva --tape a.tape",
    "debug a.diva", "debug a.diva a.commands --width 2", "asm", "asm a.s --core own", "dis a.diva b.diva", "migrate",
    "migrate a.diva b.diva", "soak", "soak 1", "soak 1 0", "soak 1 65537", "soak 4294967296 1", "soak 1 1 1", "soak 1 1 --core own",
    "soak 1 1 --cycles 9", "campaign", "campaign a.diva", "campaign a.diva 0", "campaign a.diva 33", "campaign a.diva 1 1",
    "campaign a.diva 1 --cycles 0", "campaign a.diva 1 --cycles 100001", "campaign a.diva 1 --core lockstep",
};

/// No file is loaded.
#[test]
fn lines_that_are_misused(rt: HostRuntime) -> Result<(), Fail> {
    let alloc = rt.alloc();
    for &line in &MISUSED {
        let loads = compare_unasked(&rt, line, five_files(alloc)?, 2, USAGE)?;
        assert!(rt; loads.is_empty(), "{line}");
    }
    Ok(())
}

/// Command lines that name files that are not there, with their statuses and texts. A name may be any word: the last four are
/// odd ones.
static NOT_RUN: [(&str, u8, &str); 16] = laid! {
    ("run b.diva", 8, "unreadable image\n"),
    ("run a.diva --script b.script", 8, "unreadable script\n"),
    ("run b.diva --script b.script", 8, "unreadable image\n"),
    ("run a.script --script b.script", 5, "refused image 1 at 0\n"),
    ("run a.diva --core tape --tape b.tape", 8, "unreadable tape\n"),
    ("tape a.diva --core tape --tape b.tape --script b.script", 8, "unreadable script\n"),
    ("migrate b.diva", 8, "unreadable image\n"),
    ("tape b.diva", 8, "unreadable image\n"),
    ("duo b.diva", 8, "unreadable image\n"),
    ("duo a.script", 5, "refused image 1 at 0\n"),
    ("campaign b.diva 1", 8, "unreadable image\n"),
    ("campaign a.script 1", 5, "refused image 1 at 0\n"),
    ("run ''", 8, "unreadable image\n"),
    ("run -", 8, "unreadable image\n"),
    ("run -- -x", 8, "unreadable image\n"),
    ("run --width 2 -- -x", 8, "unreadable image\n"),
};

#[test]
fn lines_that_are_not_run(rt: HostRuntime) -> Result<(), Fail> {
    let alloc = rt.alloc();
    for &(line, status, text) in &NOT_RUN {
        compare_unasked(&rt, line, five_files(alloc)?, status, text)?;
    }
    Ok(())
}

/// Image files with one fault each: their length, and a byte of the header that is changed.
#[test]
fn images_that_are_refused(rt: HostRuntime) -> Result<(), Fail> {
    let alloc = rt.alloc();
    for (len, at, byte, kind, place) in [
        (36, 0, b'd', 2, 0),
        (36, 4, 3, 3, 4),
        (36, 8, 2, 4, 8),
        (36, 12, 0x42, 5, 12),
        (36, 16, 0x40, 6, 16),
        (36, 20, 0x41, 7, 20),
        (37, 0, b'D', 9, 36),
    ] {
        let file = altered(alloc, &FIVE_FILE, len, at, byte)?;
        compare_refused(&rt, alloc, "run a.diva", file, kind, place)?;
    }
    Ok(())
}

/// An image file that ends within its header, or within its payload.
#[test]
fn images_that_are_cut(rt: HostRuntime) -> Result<(), Fail> {
    let alloc = rt.alloc();
    for len in 0..36 {
        let kind = if len < 24 { 1 } else { 8 };
        let file = Vec::from_slice(
            alloc,
            FIVE_FILE.get(..len as usize).ok_or("no such length")?,
        )?;
        compare_refused(&rt, alloc, "run a.diva", file, kind, len)?;
    }
    Ok(())
}

/// Compares status and text where an image with these bytes is refused for a fault of this kind, at this place.
pub(super) fn compare_refused(
    rt: &impl Abort,
    alloc: Global,
    line: &str,
    file: Vec<u8>,
    kind: u8,
    place: u32,
) -> Result<(), Fail> {
    let text = format!(in alloc; "refused image {kind} at {place}\n")?;
    compare_unasked(rt, line, Outside::sound(alloc, file), 5, text.as_str())?;
    Ok(())
}

/// A file of one byte more than a file may have. But for an image its bytes are a comment.
#[test]
fn files_that_are_too_long(rt: HostRuntime) -> Result<(), Fail> {
    let alloc = rt.alloc();
    for (line, what, word) in [
        ("run a.diva", What::Image, "image"),
        ("migrate a.diva", What::Image, "image"),
        ("run a.diva --script a.script", What::Script, "script"),
        ("tape a.diva --core tape --tape a.tape", What::Tape, "tape"),
        ("asm a.s", What::Source, "source"),
        ("debug a.diva a.commands", What::Commands, "commands"),
    ] {
        let mut outside = five_files(alloc)?;
        outside.file_mut(what).resize(16_777_369, b'#')?;
        let text = format!(in alloc; "refused {word} 0 at 16777368\n")?;
        compare_unasked(&rt, line, outside, 5, text.as_str())?;
    }
    Ok(())
}

/// A file of zeros is loaded, though no image in version 1 is as long.
#[test]
fn a_long_file_of_zeros(rt: HostRuntime) -> Result<(), Fail> {
    let zeros = vec![in rt.alloc(); 0; 16_777_241]?;
    let outside = Outside::sound(rt.alloc(), zeros);
    compare_unasked(&rt, "run a.diva", outside, 5, "refused image 2 at 0\n")?;
    Ok(())
}
