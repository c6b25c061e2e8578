// Lists of claims for two harts, and what each cycle does to them.
use crate::tests::harts::{DRAIN_0, DRAIN_1, Flush, GO_0, GO_1, Numbers, USUAL};
use diva_core::Field;
use diva_duo::Action;
use diva_isa::End;
use diva_test_programs::rows;

/// A run of two harts over 64 bytes of memory, by what is handed over in each cycle.
pub(super) struct Row {
    pub name: &'static str,
    pub words: &'static [u32],
    pub numbers: Numbers,
    /// The tape of each hart.
    pub tapes: [&'static [u8]; 2],
    /// The cycles that do something, and what they do. No other does.
    pub actions: &'static [(u32, &'static [Action])],
    /// The cycle behind which both harts are over.
    pub cycles: u32,
    pub ends: [End; 2],
    /// The flushes of each hart.
    pub flushes: [&'static [Flush]; 2],
    /// Registers of harts: the hart, the register, and its value.
    pub registers: &'static [(u8, u8, u32)],
    /// Words of memory, each with its address.
    pub stored: &'static [(u32, u32)],
}

/// Both harts halt with their number, and are never flushed.
const HALTS: Row = Row {
    name: "",
    words: &[],
    numbers: USUAL,
    tapes: [b"", b""],
    actions: &[],
    cycles: 0,
    ends: [End::Halt(0), End::Halt(1)],
    flushes: [&[], &[]],
    registers: &[],
    stored: &[],
};

/// `addi x1, x0, 1`, `sw x1, 32(x0)`, a fence, `lw x2, 36(x0)`, and the halt.
const FENCED: &[u32] = &[
    0x00100093, 0x02102023, 0x0ff0000f, 0x02402103, 0x05d00893, 0x00000073,
];

/// `sw x0, 32(x0)`, `sw x0, 36(x0)`, and the halt.
const TWO_STORES: &[u32] = &[0x02002023, 0x02002223, 0x05d00893, 0x00000073];

/// Hart 1 branches to `lw x2, 48(x0)`; hart 0 stores 7 there. Both halt.
const PASSED: &[u32] = &[
    0x00051a63, 0x00700093, 0x02102823, 0x05d00893, 0x00000073, 0x03002103, 0x05d00893, 0x00000073,
];

/// Hart 0 stores 1 at 48, and hart 1 stores 2 there. Both halt.
const ONE_WORD: &[u32] = &[0x00150093, 0x02102823, 0x05d00893, 0x00000073];

/// Hart 0 of `PASSED`: its store is claimed in cycle 3, so it commits in cycle 9 and goes to memory in cycle 10.
const PASSES: &[u8] =
    b"0 51a63 0 0 0 0 4 0\n4 700093 0 0 0 7 8 0\n8 2102823 0 7 30 7 c 0\nc 5d00893 0 0 0 5d 10 0\n10 73 5d 0 0 0 10 100";

/// Hart 0 of `ONE_WORD`: its store is claimed in cycle 2.
const STORES_1: &[u8] =
    b"0 150093 0 0 0 1 4 0\n4 2102823 0 1 30 1 8 0\n8 5d00893 0 0 0 5d c 0 ; c 73 5d 0 0 0 c 100";

/// Hart 1 of `ONE_WORD`: its store is claimed in cycle 2 too.
const STORES_2: &[u8] =
    b"0 150093 1 0 0 2 4 0\n4 2102823 0 2 30 2 8 0\n8 5d00893 0 0 0 5d c 0 ; c 73 5d 1 0 0 c 101";

/// Stores and fences that wait, and loads that do not.
pub(super) static WAITS: [Row; 6] = rows! { Row:
    // Each hart stores 1 in its word, 32 or 36, and loads the other one. In cycle 9 both stores commit, and both loads while
    // the stores wait.
    HALTS { name: "neither hart sees the other store",
        words: &[0x00100093, 0x00251293, 0x40500333, 0x00000013, 0x0212a023, 0x02432103, 0x05d00893, 0x00000073],
        tapes: [b"0 100093 0 0 0 1 4 0 ; 4 251293 0 0 0 0 8 0\n8 40500333 0 0 0 0 c 0 ; c 13 0 0 0 0 10 0\n\
            10 212a023 0 1 20 1 14 0 ; 14 2432103 0 0 24 0 18 0\n18 5d00893 0 0 0 5d 1c 0 ; 1c 73 5d 0 0 0 1c 100",
            b"0 100093 0 0 0 1 4 0 ; 4 251293 1 0 0 4 8 0\n8 40500333 0 4 0 fffffffc c 0 ; c 13 0 0 0 0 10 0\n\
            10 212a023 4 1 24 1 14 0 ; 14 2432103 fffffffc 0 20 0 18 0\n18 5d00893 0 0 0 5d 1c 0 ; 1c 73 5d 1 0 0 1c 101"],
        actions: &[(7, &[GO_0, GO_0, GO_1, GO_1]), (8, &[GO_0, GO_0, GO_1, GO_1]), (9, &[GO_0, GO_0, GO_1, GO_1]),
            (10, &[DRAIN_0, DRAIN_1, GO_0, GO_0, GO_1, GO_1])],
        cycles: 10, registers: &[(0, 2, 0x0), (1, 2, 0x0)], stored: &[(0x20, 0x1), (0x24, 0x1)] }
    // The store and the fence behind it are ready in cycle 8. The fence is equal, and waits for the drain of cycle 9.
    HALTS { name: "a fence waits", words: FENCED,
        tapes: [b"0 100093 0 0 0 1 4 0\n4 2102023 0 1 20 1 8 0 ; 8 ff0000f 0 0 0 0 c 0\nc 2402103 0 0 24 0 10 0\n\
            10 5d00893 0 0 0 5d 14 0 ; 14 73 5d 0 0 0 14 100",
            b"0 100093 0 0 0 1 4 0\n4 2102023 0 1 20 1 8 0 ; 8 ff0000f 0 0 0 0 c 0\nc 2402103 0 0 24 0 10 0\n\
            10 5d00893 0 0 0 5d 14 0 ; 14 73 5d 1 0 0 14 101"],
        actions: &[(7, &[GO_0, GO_1]), (8, &[GO_0, GO_1]), (9, &[DRAIN_0, DRAIN_1, GO_0, GO_0, GO_1, GO_1]), (10, &[GO_0, GO_0, GO_1, GO_1])],
        cycles: 10, registers: &[(0, 2, 0x0), (1, 2, 0x0)], stored: &[(0x20, 0x1)] }
    // Three stores and a fence are ready in cycle 7. The fence is held in 7, 8 and 9, and commits in 10. Hart 1 begins two
    // cycles later.
    HALTS { name: "a fence waits for three stores", words: &[0x02002023, 0x02002223, 0x02002423, 0x0ff0000f, 0x05d00893, 0x00000073],
        numbers: [4, 16, 4, 64],
        tapes: [b"0 2002023 0 0 20 0 4 0 ; 4 2002223 0 0 24 0 8 0 ; 8 2002423 0 0 28 0 c 0 ; c ff0000f 0 0 0 0 10 0\n\
            10 5d00893 0 0 0 5d 14 0 ; 14 73 5d 0 0 0 14 100",
            b"\n\n0 2002023 0 0 20 0 4 0 ; 4 2002223 0 0 24 0 8 0 ; 8 2002423 0 0 28 0 c 0 ; c ff0000f 0 0 0 0 10 0\n\
            10 5d00893 0 0 0 5d 14 0 ; 14 73 5d 1 0 0 14 101"],
        actions: &[(7, &[GO_0, GO_0, GO_0]), (8, &[DRAIN_0]), (9, &[DRAIN_0, GO_1, GO_1, GO_1]),
            (10, &[DRAIN_0, DRAIN_1, GO_0, GO_0, GO_0]), (11, &[DRAIN_1]), (12, &[DRAIN_1, GO_1, GO_1, GO_1])],
        cycles: 12 }
    // The claim of hart 0's fence has a value. It is judged in cycle 8, while the store is owed, and flushes.
    HALTS { name: "a wrong fence does not wait", words: FENCED,
        tapes: [b"0 100093 0 0 0 1 4 0\n4 2102023 0 1 20 1 8 0 ; 8 ff0000f 0 0 0 7 c 0\n\n\n\n\n\n\n\n\n\n\n\n\nc 2402103 0 0 24 0 10 0\n\
            10 5d00893 0 0 0 5d 14 0\n14 73 5d 0 0 0 14 100",
            b"\n\n\n\n0 100093 0 0 0 1 4 0\n4 2102023 0 1 20 1 8 0\n\n8 ff0000f 0 0 0 0 c 0\nc 2402103 0 0 24 0 10 0\n\
            10 5d00893 0 0 0 5d 14 0\n14 73 5d 1 0 0 14 101"],
        actions: &[(7, &[GO_0]), (8, &[GO_0]), (9, &[DRAIN_0]), (11, &[GO_1]), (12, &[GO_1]), (13, &[DRAIN_1]), (14, &[GO_0, GO_1]),
            (15, &[GO_1]), (16, &[GO_1]), (17, &[GO_1]), (21, &[GO_0]), (22, &[GO_0]), (23, &[GO_0])],
        cycles: 23, flushes: [&[(8, 2, Some((Field::Value, 0x7, 0x0)))], &[]], registers: &[(0, 2, 0x0), (1, 2, 0x0)] }
    // With one place in a buffer the second of two stores waits for the drain of cycle 8.
    HALTS { name: "a store waits", words: TWO_STORES, numbers: [2, 16, 1, 64],
        tapes: [b"0 2002023 0 0 20 0 4 0 ; 4 2002223 0 0 24 0 8 0\n8 5d00893 0 0 0 5d c 0 ; c 73 5d 0 0 0 c 100",
            b"0 2002023 0 0 20 0 4 0 ; 4 2002223 0 0 24 0 8 0\n8 5d00893 0 0 0 5d c 0 ; c 73 5d 1 0 0 c 101"],
        actions: &[(7, &[GO_0, GO_1]), (8, &[DRAIN_0, DRAIN_1, GO_0, GO_0, GO_1, GO_1]), (9, &[DRAIN_0, DRAIN_1, GO_0, GO_1])], cycles: 9 }
    // With two places in a buffer the third of three stores waits, and what is behind it.
    HALTS { name: "a third store waits", words: &[0x00150093, 0x02102023, 0x02102223, 0x02102423, 0x05d00893, 0x00000073],
        numbers: [4, 16, 2, 64],
        tapes: [b"0 150093 0 0 0 1 4 0\n4 2102023 0 1 20 1 8 0 ; 8 2102223 0 1 24 1 c 0 ; c 2102423 0 1 28 1 10 0 ; 10 5d00893 0 0 0 5d 14 0\n\
            14 73 5d 0 0 0 14 100",
            b"\n0 150093 1 0 0 2 4 0\n4 2102023 0 2 20 2 8 0 ; 8 2102223 0 2 24 2 c 0 ; c 2102423 0 2 28 2 10 0 ; 10 5d00893 0 0 0 5d 14 0\n\
            14 73 5d 1 0 0 14 101"],
        actions: &[(7, &[GO_0]), (8, &[GO_0, GO_0, GO_1]), (9, &[DRAIN_0, GO_0, GO_0, GO_0, GO_1, GO_1]),
            (10, &[DRAIN_0, DRAIN_1, GO_1, GO_1, GO_1]), (11, &[DRAIN_0, DRAIN_1]), (12, &[DRAIN_1])],
        cycles: 12, stored: &[(0x20, 0x2), (0x24, 0x2), (0x28, 0x2)] }
};

/// Harts that end while stores are owed.
pub(super) static ENDS: [Row; 3] = rows! { Row:
    // All four claims commit in cycle 7. Both harts have ended then, and are over once both buffers are empty.
    HALTS { name: "both end with two stores owed", words: TWO_STORES, numbers: [4, 16, 4, 64],
        tapes: [b"0 2002023 0 0 20 0 4 0 ; 4 2002223 0 0 24 0 8 0 ; 8 5d00893 0 0 0 5d c 0 ; c 73 5d 0 0 0 c 100",
            b"0 2002023 0 0 20 0 4 0 ; 4 2002223 0 0 24 0 8 0 ; 8 5d00893 0 0 0 5d c 0 ; c 73 5d 1 0 0 c 101"],
        actions: &[(7, &[GO_0, GO_0, GO_0, GO_0, GO_1, GO_1, GO_1, GO_1]), (8, &[DRAIN_0, DRAIN_1]), (9, &[DRAIN_0, DRAIN_1])], cycles: 9 }
    // Hart 0 ends with three stores owed. Hart 1 loads in cycle 11 what the third of them stores, which goes to memory in
    // that cycle.
    HALTS { name: "one ends with three stores owed",
        words: &[0x00051c63, 0x05d00893, 0x03102c23, 0x03102e23, 0x03102a23, 0x00000073, 0x03402103, 0x05d00893, 0x00000073],
        numbers: [4, 16, 4, 64],
        tapes: [b"0 51c63 0 0 0 0 4 0 ; 4 5d00893 0 0 0 5d 8 0\n\
            8 3102c23 0 5d 38 5d c 0 ; c 3102e23 0 5d 3c 5d 10 0 ; 10 3102a23 0 5d 34 5d 14 0 ; 14 73 5d 0 0 0 14 100",
            b"0 51c63 1 0 0 0 18 0\n\n\n\n18 3402103 0 0 34 5d 1c 0\n1c 5d00893 0 0 0 5d 20 0\n20 73 5d 1 0 0 20 101"],
        actions: &[(7, &[GO_0, GO_0, GO_1]), (8, &[GO_0, GO_0, GO_0, GO_0]), (9, &[DRAIN_0]), (10, &[DRAIN_0]), (11, &[DRAIN_0, GO_1]),
            (12, &[GO_1]), (13, &[GO_1])],
        cycles: 13, registers: &[(1, 2, 0x5d)], stored: &[(0x38, 0x5d), (0x3c, 0x5d), (0x34, 0x5d)] }
    // A store and an EBREAK commit in one cycle. The store still goes to memory.
    HALTS { name: "both trap with a store owed", words: &[0x03102023, 0x00100073],
        tapes: [b"0 3102023 0 0 20 0 4 0 ; 4 100073 0 0 0 0 4 4", b"0 3102023 0 0 20 0 4 0 ; 4 100073 0 0 0 0 4 4"],
        actions: &[(7, &[GO_0, GO_0, GO_1, GO_1]), (8, &[DRAIN_0, DRAIN_1])], cycles: 8, ends: [End::Trap(3), End::Trap(3)] }
};

/// Claims of what the other hart stores, and of what the hart itself stores.
pub(super) static VALUES: [Row; 5] = rows! { Row:
    // Hart 1's load of the old value is claimed in cycle 4 and judged in 10, in which hart 0's store goes to memory.
    HALTS { name: "a value that is old", words: PASSED,
        tapes: [PASSES,
            b"0 51a63 1 0 0 0 14 0\n\n\n14 3002103 0 0 30 0 18 0 ; 18 5d00893 0 0 0 5d 1c 0\n\n\n\n\n\n\n\n\n\n\n\n\n\
            18 5d00893 0 0 0 5d 1c 0 ; 1c 73 5d 1 0 0 1c 101"],
        actions: &[(7, &[GO_0, GO_1]), (8, &[GO_0]), (9, &[GO_0]), (10, &[DRAIN_0, GO_0]), (11, &[GO_0]), (16, &[GO_1]), (23, &[GO_1, GO_1])],
        cycles: 23, flushes: [&[], &[(10, 1, Some((Field::Value, 0x0, 0x7)))]], registers: &[(1, 2, 0x7)], stored: &[(0x30, 0x7)] }
    // The same load is claimed and judged a cycle earlier: the store is still in hart 0's buffer.
    HALTS { name: "a value that is not yet old", words: PASSED,
        tapes: [PASSES, b"0 51a63 1 0 0 0 14 0\n\n14 3002103 0 0 30 0 18 0 ; 18 5d00893 0 0 0 5d 1c 0\n1c 73 5d 1 0 0 1c 101"],
        actions: &[(7, &[GO_0, GO_1]), (8, &[GO_0]), (9, &[GO_0, GO_1, GO_1]), (10, &[DRAIN_0, GO_0, GO_1]), (11, &[GO_0])], cycles: 11,
        registers: &[(1, 2, 0x0)], stored: &[(0x30, 0x7)] }
    // The new value is claimed there: a load does not see the other hart's buffer.
    HALTS { name: "a value that is too new", words: PASSED,
        tapes: [PASSES,
            b"0 51a63 1 0 0 0 14 0\n\n14 3002103 0 0 30 7 18 0 ; 18 5d00893 0 0 0 5d 1c 0\n\n\n\n\n\n\n\n\n\n\n\n\n\
            18 5d00893 0 0 0 5d 1c 0 ; 1c 73 5d 1 0 0 1c 101"],
        actions: &[(7, &[GO_0, GO_1]), (8, &[GO_0]), (9, &[GO_0]), (10, &[DRAIN_0, GO_0]), (11, &[GO_0]), (15, &[GO_1]), (22, &[GO_1, GO_1])],
        cycles: 22, flushes: [&[], &[(9, 1, Some((Field::Value, 0x7, 0x0)))]], registers: &[(1, 2, 0x7)], stored: &[(0x30, 0x7)] }
    // `sb x1, 49(x0)` and loads of its word and of its half commit in one cycle.
    HALTS { name: "what a hart has stored itself", words: &[0x05a00093, 0x021008a3, 0x03002103, 0x03001183, 0x05d00893, 0x00000073],
        numbers: [4, 16, 4, 64],
        tapes: [b"0 5a00093 0 0 0 5a 4 0 ; 4 21008a3 0 5a 31 5a 8 0 ; 8 3002103 0 0 30 5a00 c 0 ; c 3001183 0 0 30 5a00 10 0\n\
            10 5d00893 0 0 0 5d 14 0 ; 14 73 5d 0 0 0 14 100",
            b"0 5a00093 0 0 0 5a 4 0 ; 4 21008a3 0 5a 31 5a 8 0 ; 8 3002103 0 0 30 5a00 c 0 ; c 3001183 0 0 30 5a00 10 0\n\
            10 5d00893 0 0 0 5d 14 0 ; 14 73 5d 1 0 0 14 101"],
        actions: &[(7, &[GO_0, GO_0, GO_0, GO_0, GO_1, GO_1, GO_1, GO_1]), (8, &[DRAIN_0, DRAIN_1, GO_0, GO_0, GO_1, GO_1])], cycles: 8,
        registers: &[(0, 2, 0x5a00), (0, 3, 0x5a00), (1, 2, 0x5a00), (1, 3, 0x5a00)], stored: &[(0x30, 0x5a00)] }
    // Hart 0 stores over the second instruction to which hart 1 branches. Hart 1's claim with the old word is judged a cycle
    // after the drain.
    HALTS { name: "a word that is old",
        words: &[0x00051c63, 0x02002083, 0x00102e23, 0x05d00893, 0x00000073, 0x00000000, 0x00100113, 0x00200113, 0x05d00893, 0x00000073],
        tapes: [b"0 51c63 0 0 0 0 4 0\n4 2002083 0 0 20 5d00893 8 0\n8 102e23 0 5d00893 1c 5d00893 c 0\nc 5d00893 0 0 0 5d 10 0\n\
            10 73 5d 0 0 0 10 100",
            b"0 51c63 1 0 0 0 18 0\n\n\n18 100113 0 0 0 1 1c 0\n1c 200113 0 0 0 2 20 0\n\n\n\n\n\n\n\n\n\n\n\n\n\
            20 5d00893 0 0 0 5d 24 0 ; 24 73 5d 1 0 0 24 101"],
        actions: &[(7, &[GO_0, GO_1]), (8, &[GO_0]), (9, &[GO_0]), (10, &[DRAIN_0, GO_0, GO_1]), (11, &[GO_0]), (17, &[GO_1]),
            (24, &[GO_1, GO_1])],
        cycles: 24, flushes: [&[], &[(11, 2, Some((Field::Word, 0x200113, 0x5d00893)))]], registers: &[(1, 2, 0x1), (1, 17, 0x5d)],
        stored: &[(0x1c, 0x5d00893)] }
};

/// Two harts that store in one word.
pub(super) static ORDERS: [Row; 5] = rows! { Row:
    // Both stores go to memory in cycle 9, hart 0's first.
    HALTS { name: "two stores in one word", words: ONE_WORD, tapes: [STORES_1, STORES_2],
        actions: &[(7, &[GO_0, GO_1]), (8, &[GO_0, GO_1]), (9, &[DRAIN_0, DRAIN_1, GO_0, GO_0, GO_1, GO_1])], cycles: 9,
        stored: &[(0x30, 0x2)] }
    // Hart 0's claims come a cycle later.
    HALTS { name: "two stores in one word, hart 0's later", words: ONE_WORD,
        tapes: [b"\n0 150093 0 0 0 1 4 0\n4 2102823 0 1 30 1 8 0\n8 5d00893 0 0 0 5d c 0 ; c 73 5d 0 0 0 c 100", STORES_2],
        actions: &[(7, &[GO_1]), (8, &[GO_0, GO_1]), (9, &[DRAIN_1, GO_0, GO_1, GO_1]), (10, &[DRAIN_0, GO_0, GO_0])], cycles: 10,
        stored: &[(0x30, 0x1)] }
    // Each of the stores waits behind another one of its hart, and both go to memory in cycle 10.
    HALTS { name: "two stores behind others", words: &[0x00150093, 0x02102a23, 0x02102823, 0x05d00893, 0x00000073],
        tapes: [b"0 150093 0 0 0 1 4 0\n4 2102a23 0 1 34 1 8 0 ; 8 2102823 0 1 30 1 c 0\nc 5d00893 0 0 0 5d 10 0 ; 10 73 5d 0 0 0 10 100",
            b"0 150093 1 0 0 2 4 0\n4 2102a23 0 2 34 2 8 0 ; 8 2102823 0 2 30 2 c 0\nc 5d00893 0 0 0 5d 10 0 ; 10 73 5d 1 0 0 10 101"],
        actions: &[(7, &[GO_0, GO_1]), (8, &[GO_0, GO_0, GO_1, GO_1]), (9, &[DRAIN_0, DRAIN_1, GO_0, GO_0, GO_1, GO_1]),
            (10, &[DRAIN_0, DRAIN_1])],
        cycles: 10, stored: &[(0x30, 0x2), (0x34, 0x2)] }
    // Nothing is handed over for hart 0. Its watchdog flushes in cycles 16, 38, 60 and 82, long after hart 1 has ended.
    HALTS { name: "a silent core", words: ONE_WORD, numbers: [2, 16, 4, 16], tapes: [b"", STORES_2],
        actions: &[(7, &[GO_1]), (8, &[GO_1]), (9, &[DRAIN_1, GO_1, GO_1]), (22, &[GO_0]), (44, &[GO_0]), (45, &[DRAIN_0]), (66, &[GO_0]),
            (88, &[GO_0])],
        cycles: 88, flushes: [&[(16, 0, None), (38, 1, None), (60, 2, None), (82, 3, None)], &[]], registers: &[(0, 1, 0x1), (1, 1, 0x2)],
        stored: &[(0x30, 0x1)] }
    // Of eight claims in a list two are accepted.
    HALTS { name: "more claims than there is room for", words: ONE_WORD,
        tapes: [b"0 150093 0 0 0 1 4 0 ; 4 2102823 0 1 30 1 8 0 ; 0 150093 0 0 0 1 4 0 ; 0 150093 0 0 0 1 4 0 ; 0 150093 0 0 0 1 4 0 ; \
            0 150093 0 0 0 1 4 0 ; 0 150093 0 0 0 1 4 0 ; 0 150093 0 0 0 1 4 0\n\
            8 5d00893 0 0 0 5d c 0 ; c 73 5d 0 0 0 c 100 ; 0 150093 0 0 0 1 4 0 ; 0 150093 0 0 0 1 4 0 ; 0 150093 0 0 0 1 4 0 ; \
            0 150093 0 0 0 1 4 0 ; 0 150093 0 0 0 1 4 0 ; 0 150093 0 0 0 1 4 0",
            b"0 150093 1 0 0 2 4 0\n4 2102823 0 2 30 2 8 0 ; 8 5d00893 0 0 0 5d c 0 ; c 73 5d 1 0 0 c 101 ; 4 2102823 0 2 30 2 8 0 ; \
            8 5d00893 0 0 0 5d c 0 ; c 73 5d 1 0 0 c 101\nc 73 5d 1 0 0 c 101"],
        actions: &[(7, &[GO_0, GO_0, GO_1]), (8, &[DRAIN_0, GO_0, GO_0, GO_1, GO_1]), (9, &[DRAIN_1, GO_1])], cycles: 9,
        registers: &[(0, 1, 0x1), (1, 1, 0x2)], stored: &[(0x30, 0x2)] }
};
