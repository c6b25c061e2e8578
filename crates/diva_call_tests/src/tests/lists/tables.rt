// Lists of claims, and the cycles in which the machine commits them.
use diva_core::{Cause, Claim, Diff, Field, FlushRow};
use diva_isa::Record;
use diva_machine::End;
use diva_test_programs::{ADDS, ASKS, FIVE, HALTS, LOOP, Program, TWO_STORES, record, rows};

/// A run of one program, each cycle by what is handed over in it.
pub(super) struct Row {
    pub name: &'static str,
    pub program: Program,
    pub width: u32,
    pub window: u32,
    pub stores: u32,
    /// What is handed over from a cycle on.
    pub lists: &'static [(u64, &'static [Claim])],
    /// The cycles that are run.
    pub cycles: u32,
    /// The cycles that commit, and what they commit. No other does.
    pub commits: &'static [(u32, &'static [Record])],
    /// What is pending after a cycle, and when it was accepted.
    pub pending: &'static [(u32, &'static [(Record, u64)])],
    /// What the stages have found after some cycles in the claim at a place.
    pub verdicts: &'static [(u32, usize, Option<Diff>)],
    pub end: End,
    pub count: u64,
    pub flush: Option<FlushRow>,
}

/// `jal x0, 0` of `LOOP`: its value is the address behind it, though x0 takes none.
const JUMPS: Record = record![0, 0x0000006f, 0, 0, 0, 4, 0, 0];

/// The record of the first store of `TWO_STORES`.
const STORES: Record = record![0, 0x02002023, 0, 0, 32, 0, 4, 0];

const STORES_NEXT: Record = record![4, 0x02002223, 0, 0, 36, 0, 8, 0];

const ASKS_THEN: Record = record![8, 0x05d00893, 0, 0, 0, 93, 12, 0];

const HALTS_THEN: Record = record![12, 0x00000073, 93, 0, 0, 0, 12, 256];

/// A claim of cycle c is ready from cycle c + 6 on. So those of cycle 1 are judged in 7, and those
/// of cycle 2 in 8. The second store finds the one place taken in cycle 7 and waits, and nothing
/// behind it is judged. The drain of cycle 8 makes the place free: the store commits there, and
/// the next claim with it. The last of the four is ready too, but two are judged at most, so it
/// commits in cycle 9.
const ONE_PLACE: Row = Row {
    name: "two stores and one place",
    program: TWO_STORES,
    width: 2,
    window: 16,
    stores: 1,
    lists: &[
        (1, &[STORES, STORES_NEXT]),
        (2, &[ASKS_THEN, HALTS_THEN]),
        (3, &[]),
    ],
    cycles: 9,
    commits: &[
        (7, &[STORES]),
        (8, &[STORES_NEXT, ASKS_THEN]),
        (9, &[HALTS_THEN]),
    ],
    pending: &[
        (1, &[(STORES, 1), (STORES_NEXT, 1)]),
        (
            6,
            &[
                (STORES, 1),
                (STORES_NEXT, 1),
                (ASKS_THEN, 2),
                (HALTS_THEN, 2),
            ],
        ),
        (7, &[(STORES_NEXT, 1), (ASKS_THEN, 2), (HALTS_THEN, 2)]),
        (8, &[(HALTS_THEN, 2)]),
        (9, &[]),
    ],
    verdicts: &[],
    end: End::Halt(0),
    count: 4,
    flush: None,
};

/// The claim that is wrong, and the one behind it, which reads the register that it writes.
const WRONG: Diff = Diff {
    field: Field::Value,
    claimed: 94,
    due: 93,
};

const BEHIND_IT: Diff = Diff {
    field: Field::Src1,
    claimed: 93,
    due: 94,
};

pub(super) static ROWS: [Row; 5] = rows! { Row:
    ONE_PLACE {}
    // With four places both stores commit in cycle 7, and the other two in cycle 8.
    ONE_PLACE { name: "two stores and four places", stores: 4, cycles: 8,
        commits: &[(7, &[STORES, STORES_NEXT]), (8, &[ASKS_THEN, HALTS_THEN])],
        pending: &[(7, &[(ASKS_THEN, 2), (HALTS_THEN, 2)]), (8, &[])] }
    // There is room for two in cycle 1 and, with two pending of sixteen, in cycle 2: six of the
    // eight are dropped each time. The second claim of cycle 2 is pending when the first of them
    // ends the machine, and is dropped then.
    ONE_PLACE { name: "more than there is room for", program: FIVE, stores: 4,
        lists: &[(1, &[ADDS, ASKS, ADDS, ADDS, ADDS, ADDS, ADDS, ADDS]), (2, &[HALTS; 8]), (3, &[])], cycles: 8,
        commits: &[(7, &[ADDS, ASKS]), (8, &[HALTS])],
        pending: &[(1, &[(ADDS, 1), (ASKS, 1)]), (6, &[(ADDS, 1), (ASKS, 1), (HALTS, 2), (HALTS, 2)]), (7, &[(HALTS, 2), (HALTS, 2)]), (8, &[])],
        count: 3 }
    // Eight claims in each cycle, of which four at most are accepted: the window of eight is full
    // after cycle 2. Four commit in cycle 7 and four in cycle 8. In cycle 7 nothing is accepted,
    // since there was no room before it; from cycle 8 on there is room for four again. What is
    // accepted in 8 and 9 commits in 14 and 15.
    ONE_PLACE { name: "a full window", program: LOOP, width: 4, window: 8, stores: 4, lists: &[(1, &[JUMPS; 8])], cycles: 15,
        commits: &[(7, &[JUMPS; 4]), (8, &[JUMPS; 4]), (14, &[JUMPS; 4]), (15, &[JUMPS; 4])],
        pending: &[(1, &[(JUMPS, 1); 4]), (7, &[(JUMPS, 2); 4]), (8, &[(JUMPS, 8); 4]), (14, &[(JUMPS, 9); 4]), (15, &[(JUMPS, 15); 4])],
        end: End::GoesOn, count: 16 }
    // The second claim of cycle 1 is wrong, as its stage finds at age 4, in cycle 5. In cycle 7 the first commits, and the second flushes
    // at place 1: the two behind it are dropped, and so is what is handed over in cycle 7. The
    // checker's own instruction commits in cycle 13; while it runs there is no room, and none
    // before cycle 13 either. A claim is accepted in each cycle from 14 on, and the one of cycle 14
    // commits in 20 and ends the machine; those of 15 to 19 are dropped.
    ONE_PLACE { name: "a wrong claim among right ones", program: FIVE, stores: 4,
        lists: &[(1, &[ADDS, Claim { value: 94, ..ASKS }]), (2, &[HALTS, HALTS]), (3, &[]), (7, &[HALTS])], cycles: 20,
        commits: &[(7, &[ADDS]), (13, &[ASKS]), (20, &[HALTS])],
        pending: &[(6, &[(ADDS, 1), (Claim { value: 94, ..ASKS }, 1), (HALTS, 2), (HALTS, 2)]), (7, &[]), (13, &[]),
            (19, &[(HALTS, 14), (HALTS, 15), (HALTS, 16), (HALTS, 17), (HALTS, 18), (HALTS, 19)]), (20, &[])],
        verdicts: &[(4, 1, None), (5, 1, Some(WRONG)), (6, 0, None), (6, 1, Some(WRONG)), (6, 2, Some(BEHIND_IT))], count: 3,
        flush: Some(FlushRow { cycle: 7, at: 1, cause: Cause::Differs(WRONG) }) }
};
