// Runs with commit lines.
use super::{FIVE_TEXT, Outside, compare, five_files};
use diva_test_programs::{Program, image_file, registers_text};
use std::test::Fail;

/// The commit lines of `FIVE`, whoever claims it.
pub(super) const FIVE_TRACE: &str = "\
0 00000000 00500093 00000000 00000000 00000000 00000005 00000004 00000000
1 00000004 05d00893 00000000 00000000 00000000 0000005d 00000008 00000000
2 00000008 00000073 0000005d 00000000 00000000 00000000 00000008 00000100
";

/// Those of a word at the end of a memory of four bytes, `addi x0, x0, 0`, and of the fetch behind it.
const LAST_TRACE: &str = "\
0 00000000 00000013 00000000 00000000 00000000 00000000 00000004 00000000
1 00000004 00000000 00000000 00000000 00000000 00000000 00000004 00000002
";

const LINE: &str = "run a.diva --core lockstep --trace";

#[test]
fn runs_with_commit_lines(rt: HostRuntime) -> Result<(), Fail> {
    let alloc = rt.alloc();
    let text = format!(in alloc; "{FIVE_TRACE}{FIVE_TEXT}")?;
    compare(&rt, LINE, five_files(alloc)?, 0, text.as_str())
}

/// A claim that is flushed has no line.
#[test]
fn commit_lines_behind_a_flush(rt: HostRuntime) -> Result<(), Fail> {
    let alloc = rt.alloc();
    let counts = "end halt 0\ncount 3\ncycles 27\nflushes 1 silent 0\noutput 0\n";
    let flush = "flush 7 at 0 value claimed 00000004 due 00000005\n";
    let registers = registers_text(alloc, &[(1, 5), (17, 0x5d)])?;
    let text = format!(in alloc; "{FIVE_TRACE}{flush}{counts}{registers}pc 00000008\n")?;
    compare(
        &rt,
        "run --trace a.diva",
        five_files(alloc)?,
        0,
        text.as_str(),
    )
}

#[test]
fn commit_lines_at_the_end_of_memory(rt: HostRuntime) -> Result<(), Fail> {
    let alloc = rt.alloc();
    let last = Program {
        size: 4,
        words: &[0x13],
    };
    let last = Outside::sound(alloc, image_file(alloc, last)?);
    let counts = "end trap 1\ncount 2\ncycles 14\nflushes 0 silent 0\noutput 0\n";
    let registers = registers_text(alloc, &[])?;
    let text = format!(in alloc; "{LAST_TRACE}{counts}{registers}pc 00000004\n")?;
    compare(&rt, LINE, last, 3, text.as_str())
}
