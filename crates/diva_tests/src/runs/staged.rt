// Tapes whose claims are checked while older ones are pending.
use super::tables::{ONE_BY_ONE, OVER_THE_NEXT, Row};
use super::texts::text_due;
use super::{Outside, compare, compare_rows};
use diva_test_programs::{Program, image_file, program, rows};
use std::fmt::Write;
use std::test::Fail;

/// The four claims of cycle 1 commit in cycle 7, the last of them of the word that the store before it writes.
const OVERWRITTEN: Row = Row {
    line: "run a.diva --core tape --tape a.tape --width 4",
    tape: b"\
0 7300093 0 0 0 73 4 0 ; 4 5d00893 0 0 0 5d 8 0 ; 8 102623 0 73 c 73 c 0 ; c 73 5d 0 0 0 c 100",
    program: OVER_THE_NEXT,
    counts: "end halt 0\ncount 4\ncycles 7\nflushes 0 silent 0\noutput 0\n",
    registers: &[(1, 0x73), (17, 0x5d)],
    rest: "pc 0000000c\n",
    ..ONE_BY_ONE
};

static ROWS: [Row; 5] = rows! { Row:
    OVERWRITTEN {}
    // The last claim is of the word that was there before: it flushes, and the checker's own ECALL commits in
    // cycle 13.
    OVERWRITTEN { tape: b"0 7300093 0 0 0 73 4 0 ; 4 5d00893 0 0 0 5d 8 0 ; 8 102623 0 73 c 73 c 0 ; c 13 0 0 0 0 10 0",
        counts: "flush 7 at 3 word claimed 00000013 due 00000073\nend halt 0\ncount 4\ncycles 13\nflushes 1 silent 0\noutput 0\n" }
    // Three claims that are wrong stand behind the halt, one in its list and two in the next: it ends the
    // machine in cycle 8, and nobody judges them.
    ONE_BY_ONE { line: "run a.diva --core tape --tape a.tape",
        tape: b"0 500093 0 0 0 5 4 0 ; 4 5d00893 0 0 0 5d 8 0\n8 73 5d 0 0 0 8 100 ; 8 13 0 0 0 0 c 0\nc 13 0 0 0 0 10 0 ; 0 1 2 3 4 5 6 7\n",
        counts: "end halt 0\ncount 3\ncycles 8\nflushes 0 silent 0\noutput 0\n" }
    // addi x1, x0, 5 is claimed to give 6, and addi x2, x1, 1 behind it to read that 6: the first alone
    // flushes, in cycle 7, and commits in 13 by the checker. The claims of cycle 14 and 15 commit in 20 and 21.
    ONE_BY_ONE { line: "run a.diva --core tape --tape a.tape",
        tape: b"0 500093 0 0 0 6 4 0 ; 4 108113 6 0 0 7 8 0\n\n\n\n\n\n\n\n\n\n\n\n\n4 108113 5 0 0 6 8 0 ; 8 5d00893 0 0 0 5d c 0\n\
            c 73 5d 0 0 0 c 100\n",
        program: program![0x00500093, 0x00108113, 0x05d00893, 0x00000073],
        counts: "flush 7 at 0 value claimed 00000006 due 00000005\nend halt 0\ncount 4\ncycles 21\nflushes 1 silent 0\noutput 0\n",
        registers: &[(1, 5), (2, 6), (17, 0x5d)], rest: "pc 0000000c\n" }
    // addi x1, x0, 85; sh x1, 34(x0) over the upper half of 44332211, which lw x2, 32(x0) then loads; the
    // halt. Four claims commit in cycle 7, and the halt in 8.
    ONE_BY_ONE { line: "run a.diva --core tape --tape a.tape --width 4 --dump 20:4",
        tape: b"0 5500093 0 0 0 55 4 0 ; 4 2101123 0 55 22 55 8 0 ; 8 2002103 0 0 20 552211 c 0 ; c 5d00893 0 0 0 5d 10 0\n10 73 5d 0 0 0 10 100\n",
        program: program![0x05500093, 0x02101123, 0x02002103, 0x05d00893, 0x00000073, 0, 0, 0, 0x44332211],
        counts: "end halt 0\ncount 5\ncycles 8\nflushes 0 silent 0\noutput 0\n", registers: &[(1, 0x55), (2, 0x00552211), (17, 0x5d)],
        rest: "pc 00000010\nmem 00000020 11225500\n" }
};

#[test]
fn claims_behind_pending_ones(rt: HostRuntime) -> Result<(), Fail> {
    compare_rows(&rt, rt.alloc(), &ROWS)
}

/// Twelve times sw x0, 68(x0), and then for ever lw x1, 64(x0); addi x1, x1, 1; sw x1, 64(x0); jal x0, -12.
const COUNTER: Program = Program {
    size: 72,
    words: &[
        0x04002223, 0x04002223, 0x04002223, 0x04002223, 0x04002223, 0x04002223, 0x04002223,
        0x04002223, 0x04002223, 0x04002223, 0x04002223, 0x04002223, 0x04002083, 0x00108093,
        0x04102023, 0xff5ff06f,
    ],
};

/// The claims of its twelve stores.
const TWELVE: &str = "\
0 4002223 0 0 44 0 4 0 ; 4 4002223 0 0 44 0 8 0 ; 8 4002223 0 0 44 0 c 0 ; c 4002223 0 0 44 0 10 0
10 4002223 0 0 44 0 14 0 ; 14 4002223 0 0 44 0 18 0 ; 18 4002223 0 0 44 0 1c 0 ; 1c 4002223 0 0 44 0 20 0
20 4002223 0 0 44 0 24 0 ; 24 4002223 0 0 44 0 28 0 ; 28 4002223 0 0 44 0 2c 0 ; 2c 4002223 0 0 44 0 30 0
";

/// Four claims in each of 19 cycles, all right. With one place in the store queue the stores commit one by
/// one, in the cycles 7 to 18, so that 58 claims are pending after cycle 18. That cycle commits a load and an
/// addition too, each cycle from 19 to 33 a store, the jump, and the next load and addition, and cycle 34 the
/// last store and jump: 12 + 4 * 16 in all.
static DEEP: Row = Row {
    line: "run a.diva --core tape --tape a.tape --width 4 --window 64 --stores 1 --cycles 34 --dump 40:4",
    program: COUNTER,
    status: 4,
    counts: "end none\ncount 76\ncycles 34\nflushes 0 silent 0\noutput 0\n",
    registers: &[(1, 16)],
    rest: "pc 00000030\nmem 00000040 10000000\n",
    ..ONE_BY_ONE
};

#[test]
fn a_deep_window(rt: HostRuntime) -> Result<(), Fail> {
    let alloc = rt.alloc();
    let mut tape = String::from_str(alloc, TWELVE)?;
    for old in 0..16 {
        let new = old + 1;
        write!(
            tape,
            "30 4002083 0 0 40 {old:x} 34 0 ; 34 108093 {old:x} 0 0 {new:x} 38 0 ; "
        )?;
        write!(
            tape,
            "38 4102023 0 {new:x} 40 {new:x} 3c 0 ; 3c ff5ff06f 0 0 0 40 30 0\n"
        )?;
    }
    let outside = Outside {
        tape: Vec::from_slice(alloc, tape.as_str().as_bytes())?,
        ..Outside::sound(alloc, image_file(alloc, DEEP.program)?)
    };
    compare(
        &rt,
        DEEP.line,
        outside,
        DEEP.status,
        text_due(alloc, &DEEP)?.as_str(),
    )
}
