// Moments at which the last instruction is taken back.
use diva_core::{Cause, Diff, Field, FlushRow};
use diva_machine::End;
use diva_test_programs::{FIVE, Program, program, rows};

/// Who hands claims over.
#[derive(Clone, Copy, Debug)]
pub(super) enum Leader {
    Lockstep,
    Scalar,
    /// As `Lockstep`, but for the value of the claim of this cycle.
    Misled(u64),
}

/// What is seen of a machine of width 1 behind an undo, and where it ends when it goes on.
pub(super) struct Row {
    pub name: &'static str,
    pub program: Program,
    pub port: u32,
    pub leader: Leader,
    /// How many turns are taken before the undo.
    pub turns: u32,
    /// How many cycles have run then, fewer where the machine has ended.
    pub cycles: u64,
    /// Behind the undo: the count, the pc, a register with its word, the word at 32, and what was put.
    pub count: u64,
    pub pc: u32,
    pub reg: (u8, u32),
    pub word: u32,
    pub output: &'static str,
    /// The places of the records that the last cycle committed.
    pub last: &'static [u32],
    pub flush: Option<FlushRow>,
    /// At the end: how it ended, the count, the cycles, the word at 32, and what was put.
    pub end: End,
    pub end_count: u64,
    pub end_cycles: u64,
    pub end_word: u32,
    pub end_output: &'static str,
}

/// `addi x1, x0, -1`, `sw x1, 32(x0)`, `sh x0, 34(x0)`, `sb x0, 33(x0)`, `lw x2, 32(x0)`, and the halt; the word at 32 is 44332211.
/// It becomes ffffffff, 0000ffff and then 000000ff.
const STORES: Program = program![
    0xfff00093, 0x02102023, 0x02001123, 0x020000a3, 0x02002103, 0x05d00893, 0x00000073, 0,
    0x44332211
];

/// `addi x10, x0, 65`, `addi x17, x0, 1`, the `ecall` that puts `A`, and the halt with 65.
const PUTS: Program = program![0x04100513, 0x00100893, 0x00000073, 0x05d00893, 0x00000073];

/// `addi x1, x0, 5` and `ebreak`.
const BREAKS: Program = program![0x00500093, 0x00100073];

/// `addi x0, x0, 5` and `ebreak`.
const IGNORES: Program = program![0x00500013, 0x00100073];

/// A word is stored over by `STORES` under `Lockstep`, and taken back in the cycle of its commit.
const A_WORD: Row = Row {
    name: "a word that is owed",
    program: STORES,
    port: 1,
    leader: Leader::Lockstep,
    turns: 14,
    cycles: 14,
    count: 1,
    pc: 4,
    reg: (1, 0xffffffff),
    word: 0x44332211,
    output: "",
    last: &[4],
    flush: None,
    end: End::Halt(0),
    end_count: 7,
    end_cycles: 56,
    end_word: 0x000000ff,
    end_output: "",
};

/// The put of `PUTS` under `Lockstep`, taken back in the cycle of its commit.
const A_PUT: Row = Row {
    name: "a put",
    program: PUTS,
    turns: 21,
    cycles: 21,
    count: 2,
    pc: 8,
    reg: (10, 65),
    word: 0,
    last: &[8],
    end: End::Halt(65),
    end_count: 5,
    end_cycles: 42,
    end_word: 0,
    end_output: "A",
    ..A_WORD
};

/// `Lockstep` hands a claim over in the cycle behind a commit or an undo, and it commits six cycles later: an instruction
/// takes 7 cycles. Under `Scalar` each cycle from the seventh on commits one, and behind an undo in cycle c each from c + 7 on.
pub(super) static ROWS: [Row; 14] = rows! { Row:
    A_WORD { name: "a register, back to the start", turns: 7, cycles: 7, count: 0, pc: 0, reg: (1, 0), last: &[0] }
    A_WORD {}
    A_WORD { name: "a half over a word", turns: 21, cycles: 21, count: 2, pc: 8, word: 0xffffffff, last: &[8] }
    A_WORD { name: "a byte over a half", turns: 28, cycles: 28, count: 3, pc: 12, word: 0x0000ffff, last: &[12] }
    // The byte is in memory, and the load's claim has waited since cycle 29.
    A_WORD { name: "a byte that is in memory, with a claim pending", turns: 30, cycles: 30, count: 3, pc: 12, word: 0x0000ffff, last: &[],
        end_cycles: 58 }
    A_WORD { name: "a load", turns: 35, cycles: 35, count: 4, pc: 16, reg: (2, 0), word: 0x000000ff, last: &[16] }
    // Memory takes a store in cycles 6 and 12. Of the seven claims of cycles 1 to 7, three or four have committed.
    A_WORD { name: "a half over a word that is owed, with four claims pending", port: 6, leader: Leader::Scalar, turns: 9, cycles: 9,
        count: 2, pc: 8, word: 0xffffffff, last: &[8], end_cycles: 20 }
    A_WORD { name: "a byte over two stores that are owed, with three claims pending", port: 6, leader: Leader::Scalar, turns: 10,
        cycles: 10, count: 3, pc: 12, word: 0x0000ffff, last: &[12], end_cycles: 20 }
    A_WORD { name: "a write to x0", program: IGNORES, turns: 7, cycles: 7, count: 0, pc: 0, reg: (0, 0), word: 0, last: &[0],
        end: End::Trap(3), end_count: 2, end_cycles: 21, end_word: 0 }
    A_PUT {}
    A_PUT { name: "what comes behind a put", turns: 28, cycles: 28, count: 3, pc: 12, reg: (17, 1), output: "A", last: &[12] }
    A_PUT { name: "a halt", turns: 35, cycles: 35, count: 4, pc: 16, reg: (17, 93), output: "A", last: &[16] }
    A_WORD { name: "a trap", program: BREAKS, turns: 16, reg: (1, 5), word: 0, end: End::Trap(3), end_count: 2, end_cycles: 21,
        end_word: 0 }
    // The wrong claim of cycle 8 is judged in cycle 14, and the instruction that it is of runs solo since then.
    A_WORD { name: "a register, with an instruction solo", program: FIVE, leader: Leader::Misled(8), turns: 16, cycles: 16, count: 0, pc: 0,
        reg: (1, 0), word: 0, last: &[],
        flush: Some(FlushRow { cycle: 14, at: 1, cause: Cause::Differs(Diff { field: Field::Value, claimed: 92, due: 93 }) }),
        end_count: 3, end_cycles: 37, end_word: 0 }
};
