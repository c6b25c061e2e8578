// Runs of the cores that are wrong by their rule, and what is the same of a run under every core.
use super::tables::{BY_MINUS_ONE, BY_ZERO, BYTE_INTO_WORD, CORES, ONE_BY_ONE, Row};
use super::{Outside, compare_rows, run_program};
use diva_ooo::Ooo;
use diva_outside::What;
use diva_test_programs::{
    FIVE, Program, THREE_READS, file_of, image_file, laid, registers_text, rows,
};
use std::alloc::Global;
use std::fmt::Write;
use std::process::Abort;
use std::test::Fail;

/// `FIVE` under each of them. A claim that is accepted in cycle C is judged in C + 6, and behind a flush in cycle F the
/// checker's own instruction commits in F + 6; the next claim is of cycle F + 7.
static ROWS: [Row; 3] = rows! { Row:
    // Zeros have the pc of the first instruction alone.
    ONE_BY_ONE { line: "run a.diva --core flood",
        counts: "flush 7 at 0 word claimed 00000000 due 00500093\nflush 20 at 1 pc claimed 00000000 due 00000004\n\
            flush 33 at 2 pc claimed 00000000 due 00000008\nend halt 0\ncount 3\ncycles 39\nflushes 3 silent 0\noutput 0\n" }
    // The claims of the cycles 1 to 7 are all of the first instruction. Cycle 7 commits the first of them, and cycle 8
    // judges the second; the claim of cycle 15 commits in 21.
    ONE_BY_ONE { line: "run a.diva --core echo",
        counts: "flush 8 at 1 pc claimed 00000000 due 00000004\nend halt 0\ncount 3\ncycles 21\nflushes 1 silent 0\noutput 0\n" }
    // The claims of the calls 1, 14 and 27 are judged: their pcs are the numbers 1, 105 and 209 of the generator.
    ONE_BY_ONE { line: "run a.diva --core noise",
        counts: "flush 7 at 0 pc claimed 3c6ef35f due 00000000\nflush 20 at 1 pc claimed cb537747 due 00000004\n\
            flush 33 at 2 pc claimed 4571142f due 00000008\nend halt 0\ncount 3\ncycles 39\nflushes 3 silent 0\noutput 0\n" }
};

#[test]
fn programs_under_hostile_cores(rt: HostRuntime) -> Result<(), Fail> {
    compare_rows(&rt, rt.alloc(), &ROWS)
}

/// A core each of whose claims is spoiled.
const SPOILED: &str = "lockstep --script a.script";

/// What a program comes to that halts with status 0, and puts nothing.
pub(super) struct Outcome {
    pub(super) program: Program,
    count: u32,
    /// The registers that are not 0 in the end.
    registers: &'static [(u8, u32)],
    pc: u32,
}

pub(super) static OUTCOMES: [Outcome; 5] = laid! {
    Outcome { program: FIVE, count: 3, registers: &[(1, 5), (17, 0x5d)], pc: 8 },
    Outcome { program: BYTE_INTO_WORD, count: 5, registers: &[(1, 0x55), (2, 0x44335511), (17, 0x5d)], pc: 0x10 },
    Outcome { program: BY_ZERO, count: 4, registers: &[(1, 7), (3, 0xffffffff), (17, 0x5d)], pc: 0xc },
    // Three reads in a row, of which one reads the high word and one writes x0.
    Outcome { program: THREE_READS, count: 6, registers: &[(2, 3), (17, 0x5d)], pc: 0x14 },
    Outcome { program: BY_MINUS_ONE, count: 6, registers: &[(1, 0x80000000), (2, 0xffffffff), (3, 0x80000000), (17, 0x5d)], pc: 0x14 },
};

/// An image that is entered at 2,048, behind its data: sub x8, x2, x1, an instruction that was drawn; addi x0, x0, 0; the halt.
fn drawn_file(alloc: Global) -> Result<Vec<u8>, Fail> {
    let mut bytes = file_of(alloc, [1, 0, 2064, 2048, 2064], &[], &[0; 2048])?;
    for word in [0x40110433_u32, 0x00000013, 0x05d00893, 0x00000073] {
        bytes.extend_from_slice(&word.to_le_bytes())?;
    }
    Ok(bytes)
}

/// The script that flips a bit of the claim of each of the first 512 cycles: the longest of these runs, of six instructions under the
/// silent core, has 420.
pub(super) fn spoiling_script(alloc: Global) -> Result<String, Fail> {
    let mut script = String::new(alloc);
    for cycle in 1..=512 {
        let row = format!(in alloc; "at {cycle} lane 0 flip next 2\n")?;
        script.push_str(row.as_str())?;
    }
    Ok(script)
}

/// The lines of end, count, output, registers and pc.
fn lasting_lines(alloc: Global, text: &str) -> Result<String, Fail> {
    let mut lines = String::new(alloc);
    for line in text.lines() {
        if !line.starts_with("flush") && !line.starts_with("cycles") {
            writeln!(lines, "{line}")?;
        }
    }
    Ok(lines)
}

/// What these lines are due to be of a run that halts with status 0 and puts nothing.
fn lasting_due(
    alloc: Global,
    count: u32,
    registers: &[(u8, u32)],
    pc: u32,
) -> Result<String, Fail> {
    let registers = registers_text(alloc, registers)?;
    Ok(format!(in alloc; "end halt 0\ncount {count}\noutput 0\n{registers}pc {pc:08x}\n")?)
}

/// Runs an image under each core, and compares status and lasting lines.
fn compare_cores(rt: &impl Abort, alloc: Global, file: &[u8], due: &str) -> Result<(), Fail> {
    let script = spoiling_script(alloc)?;
    for &core in CORES.iter().chain(&[SPOILED]) {
        let outside = Outside::sound(alloc, Vec::from_slice(alloc, file)?).with(
            What::Script,
            script.as_bytes(),
        )?;
        let line = format!(in alloc; "run a.diva --core {core}")?;
        let answer = run_program(&mut Ooo::new(alloc)?, line.as_str(), outside)?;
        assert_eq!(rt; answer.status, 0, "{line}");
        let lines = lasting_lines(alloc, str::from_utf8(&answer.text)?)?;
        assert_eq!(rt; lines.as_str(), due, "{line}");
    }
    Ok(())
}

#[test]
fn the_same_under_every_core(rt: HostRuntime) -> Result<(), Fail> {
    let alloc = rt.alloc();
    for row in &OUTCOMES {
        let file = image_file(alloc, row.program)?;
        let due = lasting_due(alloc, row.count, row.registers, row.pc)?;
        compare_cores(&rt, alloc, &file, due.as_str())?;
    }
    let due = lasting_due(alloc, 4, &[(17, 0x5d)], 0x80c)?;
    compare_cores(&rt, alloc, &drawn_file(alloc)?, due.as_str())
}
