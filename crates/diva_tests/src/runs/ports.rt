// Runs in which memory takes a store in some cycles only.
use super::tables::{ONE_BY_ONE, Row};
use super::tapes::STORES;
use super::{compare_row, compare_rows};
use crate::cores::flipped;
use diva_test_programs::{FOUR_STORES, laid, rows};
use std::test::Fail;

/// Two stores that are claimed in one cycle.
static TAPES: [Row; 3] = rows! { Row:
    // With one place in the store queue, cycle 7 commits the first store only. It goes to memory in cycle 12, which commits the
    // second store and the third instruction.
    STORES { line: "run a.diva --core tape --tape a.tape --stores 1 --port 6",
        counts: "end halt 0\ncount 4\ncycles 13\nflushes 0 silent 0\noutput 0\n" }
    // With four places nothing waits.
    STORES { line: "run a.diva --core tape --tape a.tape --stores 4 --port 6" }
    // A claim that differs waits for no place: it is judged in cycle 7. The checker's own store commits in cycle 13, behind
    // the opening of cycle 12. The tape has no more claims, so the last two instructions commit in the cycles 83 and 153.
    STORES { line: "run a.diva --core tape --tape a.tape --stores 1 --port 6",
        tape: b"0 2002023 0 0 20 0 4 0 ; 4 2002223 0 0 24 1 8 0\n8 5d00893 0 0 0 5d c 0 ; c 73 5d 0 0 0 c 100\n",
        counts: "flush 7 at 1 value claimed 00000001 due 00000000\nflush 77 at 2 silent 64\nflush 147 at 3 silent 64\nend halt 0\ncount 4\n\
            cycles 153\nflushes 3 silent 2\noutput 0\n" }
};

#[test]
fn two_stores_at_a_slow_port(rt: HostRuntime) -> Result<(), Fail> {
    compare_rows(&rt, rt.alloc(), &TAPES)
}

/// `FOUR_STORES` with one place in the store queue, at each port: the line, and the text before the registers.
///
/// One by one, the claims commit seven cycles apart, and the port opens in between. Run ahead, the first store commits in cycle
/// 7, and each other one in a cycle of its own in which the port opens: from the cycle on in which it is ready, 8, 9 and 10.
/// The fifth instruction, ready in cycle 11, may commit with the last of them, and the halt, ready in cycle 12, not before
/// the cycle behind.
static AT_EACH_PORT: [(&str, &str); 12] = laid! {
    ("run a.diva --core lockstep --stores 1 --port 1", ONE_AT_A_TIME),
    ("run a.diva --core lockstep --stores 1 --port 2", ONE_AT_A_TIME),
    ("run a.diva --core lockstep --stores 1 --port 3", ONE_AT_A_TIME),
    ("run a.diva --core lockstep --stores 1 --port 4", ONE_AT_A_TIME),
    ("run a.diva --core lockstep --stores 1 --port 5", ONE_AT_A_TIME),
    ("run a.diva --core lockstep --stores 1 --port 6", ONE_AT_A_TIME),
    // 7, 8, 9 and 10.
    ("run a.diva --core scalar --stores 1 --port 1", "end halt 0\ncount 6\ncycles 12\nflushes 0 silent 0\noutput 0\n"),
    // 7, 8, 10 and 12.
    ("run a.diva --core scalar --stores 1 --port 2", "end halt 0\ncount 6\ncycles 13\nflushes 0 silent 0\noutput 0\n"),
    // 7, 9, 12 and 15.
    ("run a.diva --core scalar --stores 1 --port 3", "end halt 0\ncount 6\ncycles 16\nflushes 0 silent 0\noutput 0\n"),
    // 7, 8, 12 and 16.
    ("run a.diva --core scalar --stores 1 --port 4", "end halt 0\ncount 6\ncycles 17\nflushes 0 silent 0\noutput 0\n"),
    // 7, 10, 15 and 20.
    ("run a.diva --core scalar --stores 1 --port 5", "end halt 0\ncount 6\ncycles 21\nflushes 0 silent 0\noutput 0\n"),
    // 7, 12, 18 and 24.
    ("run a.diva --core scalar --stores 1 --port 6", "end halt 0\ncount 6\ncycles 25\nflushes 0 silent 0\noutput 0\n"),
};

/// What `FOUR_STORES` comes to one by one.
const ONE_AT_A_TIME: &str = "end halt 0\ncount 6\ncycles 42\nflushes 0 silent 0\noutput 0\n";

#[test]
fn four_stores_at_each_port(rt: HostRuntime) -> Result<(), Fail> {
    for &(line, counts) in &AT_EACH_PORT {
        let row = Row {
            line,
            counts,
            program: FOUR_STORES,
            registers: &[(17, 0x5d)],
            rest: "pc 00000014\n",
            ..ONE_BY_ONE
        };
        compare_row(&rt, rt.alloc(), &mut flipped(), &row)?;
    }
    Ok(())
}
