// Campaigns: an image is run once as it is, and once with each flip.
use super::compare_row;
use super::tables::{PUTS, Row};
use crate::cores::counting;
use diva_test_programs::{FIVE, LOOP, Program, program, rows};
use std::test::Fail;

/// `ebreak`, which traps.
const BREAK: Program = program![0x00100073];

/// A campaign of `FIVE` over the first cycle: each flip is of its first claim, which is refused in cycle 7.
pub(super) const FIRST_CYCLE: Row = Row {
    line: "campaign a.diva 1",
    script: b"",
    tape: b"",
    program: FIVE,
    status: 0,
    counts: "runs 256\nsame 256\nflushed 256\nsilent 0\nend halt 0\ncount 3\noutput 0\n",
    registers: &[(1, 5), (17, 0x5d)],
    rest: "pc 00000008\n",
};

/// In one cycle nothing is judged.
pub(super) const ONE_CYCLE: Row = Row {
    line: "campaign a.diva 1 --cycles 1",
    status: 4,
    counts: "runs 256\nsame 256\nflushed 0\nsilent 0\nend none\ncount 0\noutput 0\n",
    registers: &[],
    rest: "pc 00000000\n",
    ..FIRST_CYCLE
};

/// The only instruction traps.
pub(super) const TRAPPED: Row = Row {
    program: BREAK,
    status: 3,
    counts: "runs 256\nsame 256\nflushed 256\nsilent 0\nend trap 3\ncount 1\noutput 0\n",
    registers: &[],
    rest: "pc 00000000\n",
    ..FIRST_CYCLE
};

/// Campaigns with their statuses and texts.
static ROWS: [Row; 11] = rows! { Row:
    FIRST_CYCLE {}
    // While the first claim is pending, in the cycles 2 to 7, nothing is handed over that could be flipped.
    FIRST_CYCLE { line: "campaign a.diva 2", counts: "runs 512\nsame 512\nflushed 256\nsilent 0\nend halt 0\ncount 3\noutput 0\n" }
    // The three claims are of the cycles 1, 8 and 15, and the run ends in cycle 21.
    FIRST_CYCLE { line: "campaign a.diva 32 --cycles 100000",
        counts: "runs 8192\nsame 8192\nflushed 768\nsilent 0\nend halt 0\ncount 3\noutput 0\n" }
    // A flush costs 6 cycles, so those with one end in cycle 27, and not within 26.
    FIRST_CYCLE { line: "campaign a.diva 8 --cycles 27",
        counts: "runs 2048\nsame 2048\nflushed 512\nsilent 0\nend halt 0\ncount 3\noutput 0\n" }
    FIRST_CYCLE { line: "campaign a.diva 8 --cycles 26",
        counts: "runs 2048\nsame 1536\nflushed 512\nsilent 0\nend halt 0\ncount 3\noutput 0\n" }
    FIRST_CYCLE { line: "campaign --cycles 21 a.diva 2",
        counts: "runs 512\nsame 256\nflushed 256\nsilent 0\nend halt 0\ncount 3\noutput 0\n" }
    ONE_CYCLE {}
    // One commits in each 7 cycles; with a flush the first in cycle 13, and the 19th in cycle 139.
    FIRST_CYCLE { line: "campaign a.diva 2 --cycles 140", program: LOOP, status: 4,
        counts: "runs 512\nsame 256\nflushed 256\nsilent 0\nend none\ncount 20\noutput 0\n", registers: &[], rest: "pc 00000000\n" }
    // The first run has counted 2 in cycle 14, and the others have in cycle 20.
    FIRST_CYCLE { line: "campaign a.diva 1 --cycles 14", program: LOOP, status: 4,
        counts: "runs 256\nsame 0\nflushed 256\nsilent 0\nend none\ncount 2\noutput 0\n", registers: &[], rest: "pc 00000000\n" }
    TRAPPED {}
    FIRST_CYCLE { program: PUTS, counts: "runs 256\nsame 256\nflushed 256\nsilent 0\nend halt 65\ncount 5\noutput 1\nout 41\n",
        registers: &[(10, 0x41), (17, 0x5d)], rest: "pc 00000010\n" }
};

/// The program's own core is not asked.
#[test]
fn images_with_flips(rt: HostRuntime) -> Result<(), Fail> {
    for row in &ROWS {
        let mut core = counting();
        compare_row(&rt, rt.alloc(), &mut core, row)?;
        assert_eq!(rt; core.calls, 0, "{}", row.line);
    }
    Ok(())
}
