// Runs of the cores that keep a pipeline full: `Scalar` hands over one claim in each cycle in which there is room, and the
// out-of-order core, which the program is handed, as many as are done.
use super::tables::{BYTE_INTO_WORD, ONE_BY_ONE, OVER_THE_NEXT, Row, TO_X0};
use super::{compare_row, compare_rows};
use diva_ooo::Ooo;
use diva_test_programs::{LOOP, TWO_READS, program, rows};
use std::test::Fail;

/// `FIVE` in the pipeline: its claims are of the cycles 1, 2 and 3, and commit in 7, 8 and 9.
const IN_LINE: Row = Row {
    line: "run a.diva --core scalar",
    counts: "end halt 0\ncount 3\ncycles 9\nflushes 0 silent 0\noutput 0\n",
    ..ONE_BY_ONE
};

/// The next word is fetched while the store over it is pending.
const OVERWRITES: Row = Row {
    program: OVER_THE_NEXT,
    counts: "end halt 0\ncount 4\ncycles 10\nflushes 0 silent 0\noutput 0\n",
    registers: &[(1, 0x73), (17, 0x5d)],
    rest: "pc 0000000c\n",
    ..IN_LINE
};

/// Four claims, of the cycles 1 to 4, which commit in 7 to 10. While the second read is claimed the first one is pending, and
/// counts.
const READS: Row = Row {
    program: TWO_READS,
    counts: "end halt 0\ncount 4\ncycles 10\nflushes 0 silent 0\noutput 0\n",
    registers: &[(2, 1), (17, 0x5d)],
    rest: "pc 0000000c\n",
    ..IN_LINE
};

/// addi x17, x0, 1; ecall, which puts the byte 0, and counts as any other; rdinstret x1; the halt. The claims are of the cycles
/// 1 to 5.
const READS_BEHIND_A_PUT: Row = Row {
    program: program![0x00100893, 0x00000073, 0xc02020f3, 0x05d00893, 0x00000073],
    counts: "end halt 0\ncount 5\ncycles 11\nflushes 0 silent 0\noutput 1\nout 00\n",
    registers: &[(1, 2), (17, 0x5d)],
    rest: "pc 00000010\n",
    ..IN_LINE
};

/// addi x1, x0, 5, whose claim of cycle 1 is made wrong; rdinstret x2; the halt. Cycle 7 flushes, and drops the claim of the read.
/// The checker's own addition commits in cycle 13, so one instruction has committed when the read is claimed anew, in cycle 14; the
/// claims of the cycles 14 to 16 commit in 20 to 22.
const READS_BEHIND_A_FLUSH: Row = Row {
    line: "run a.diva --core scalar --script a.script",
    script: b"at 1 lane 0 flip value 0",
    program: program![0x00500093, 0xc0202173, 0x05d00893, 0x00000073],
    counts: "\
flush 7 at 0 value claimed 00000004 due 00000005
end halt 0
count 4
cycles 22
flushes 1 silent 0
output 0
",
    registers: &[(1, 5), (2, 1), (17, 0x5d)],
    rest: "pc 0000000c\n",
    ..IN_LINE
};

static ROWS: [Row; 9] = rows! { Row:
    IN_LINE {}
    READS {}
    READS_BEHIND_A_PUT {}
    READS_BEHIND_A_FLUSH {}
    // The claim of cycle 2 comes twice: cycle 8 commits the first copy and judges the second, and the
    // checker's own instruction commits in cycle 14.
    IN_LINE { line: "run a.diva --core scalar --script a.script", script: b"at 2 lane 0 double",
        counts: "flush 8 at 2 pc claimed 00000004 due 00000008\nend halt 0\ncount 3\ncycles 14\nflushes 1 silent 0\noutput 0\n" }
    // The second instruction reads 0 of x0 while the first is pending.
    IN_LINE { program: TO_X0, counts: "end halt 0\ncount 4\ncycles 10\nflushes 0 silent 0\noutput 0\n", registers: &[(17, 0x5d)],
        rest: "pc 0000000c\n" }
    // The word is loaded while the byte's store is pending.
    IN_LINE { program: BYTE_INTO_WORD, counts: "end halt 0\ncount 5\ncycles 11\nflushes 0 silent 0\noutput 0\n",
        registers: &[(1, 0x55), (2, 0x44335511), (17, 0x5d)], rest: "pc 00000010\n" }
    OVERWRITES {}
    // Nothing comes in the cycles 5 to 204. The claims of the first four commit in the cycles 7 to 10; the
    // checker's own instructions commit in 80 and 150, and those claimed from 205 on in 211 to 300.
    IN_LINE { line: "run a.diva --core scalar --script a.script --cycles 300", script: b"at 5 hush 200", program: LOOP, status: 4,
        counts: "flush 74 at 4 silent 64\nflush 144 at 5 silent 64\nend none\ncount 96\ncycles 300\nflushes 2 silent 2\noutput 0\n",
        registers: &[], rest: "pc 00000000\n" }
};

#[test]
fn programs_in_the_pipeline(rt: HostRuntime) -> Result<(), Fail> {
    compare_rows(&rt, rt.alloc(), &ROWS)
}

static OUT_OF_ORDER: [Row; 5] = rows! { Row:
    // Two words are fetched in each cycle. Those of cycle 1 begin in cycle 2 and are claimed in cycle 3, where the ECALL, of
    // cycle 2, is the oldest and begins; it is claimed in cycle 4. So the first two commit in cycle 9, the third in cycle 10.
    ONE_BY_ONE { line: "run a.diva", counts: "end halt 0\ncount 3\ncycles 10\nflushes 0 silent 0\noutput 0\n" }
    // The word behind the store was fetched in cycle 2, before the store was done. The claims of cycle 3 commit in cycle 9. In
    // cycle 10 the store commits, and the claim of the old word is judged; the checker's own ECALL commits in cycle 16.
    OVERWRITES { line: "run a.diva --core own",
        counts: "flush 10 at 3 word claimed 00000013 due 00000073\nend halt 0\ncount 4\ncycles 16\nflushes 1 silent 0\noutput 0\n" }
    // A read begins where it is the oldest: the first one in cycle 2, the second one in cycle 3, in which the first is claimed, and
    // so it is claimed in cycle 4, with the addition behind it. The ECALL begins then, and is claimed in cycle 5. The claims of the
    // cycles 3 to 5 commit in 9 to 11.
    READS { line: "run a.diva", counts: "end halt 0\ncount 4\ncycles 11\nflushes 0 silent 0\noutput 0\n" }
    // The put is the oldest in cycle 3, the read in 4, and the halt, behind the addition, in 5: they are claimed in the cycles 4, 5
    // and 6. The halt commits in cycle 12.
    READS_BEHIND_A_PUT { line: "run a.diva", counts: "end halt 0\ncount 5\ncycles 12\nflushes 0 silent 0\noutput 1\nout 00\n" }
    // The first claim is of cycle 3, and is judged in 9; the checker's own addition commits in cycle 15. The core takes the
    // machine's state in cycle 16, claims the read and the addition behind it in 18, and the ECALL in 19.
    READS_BEHIND_A_FLUSH { line: "run a.diva --script a.script", script: b"at 3 lane 0 flip value 0",
        counts: "flush 9 at 0 value claimed 00000004 due 00000005\nend halt 0\ncount 4\ncycles 25\nflushes 1 silent 0\noutput 0\n" }
};

#[test]
fn programs_out_of_order(rt: HostRuntime) -> Result<(), Fail> {
    let alloc = rt.alloc();
    for row in &OUT_OF_ORDER {
        compare_row(&rt, alloc, &mut Ooo::new(alloc)?, row)?;
    }
    Ok(())
}
