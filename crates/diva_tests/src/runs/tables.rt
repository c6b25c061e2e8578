// Programs that are run, and the text that is due.
use diva_isa::Record;
use diva_test_programs::{ADDS, FIVE, LOOP, Program, TWO_READS, laid, program, record, rows};

/// A run of one program.
#[derive(Clone, Copy)]
pub(super) struct Row {
    /// The command line; the program's file is `a.diva`, the script's `a.script`, and the tape's `a.tape`.
    pub line: &'static str,
    /// The script's bytes.
    pub script: &'static [u8],
    /// The tape's bytes.
    pub tape: &'static [u8],
    pub program: Program,
    pub status: u8,
    /// The text before the registers.
    pub counts: &'static str,
    /// The registers that are not 0 in the end.
    pub registers: &'static [(u8, u32)],
    /// The text behind the registers.
    pub rest: &'static str,
}

/// The cores that need no tape.
pub(super) const CORES: [&str; 7] = [
    "own", "lockstep", "scalar", "silent", "flood", "echo", "noise",
];

/// `FIVE` claimed one by one: its claims are of the cycles 1, 8 and 15, and commit in 7, 14 and 21.
pub(super) const ONE_BY_ONE: Row = Row {
    line: "run a.diva --core lockstep",
    script: b"",
    tape: b"",
    program: FIVE,
    status: 0,
    counts: "end halt 0\ncount 3\ncycles 21\nflushes 0 silent 0\noutput 0\n",
    registers: &[(1, 5), (17, 0x5d)],
    rest: "pc 00000008\n",
};

/// The text before the registers where the first claim of `FIVE` is wrong.
const FLUSHED: &str = "\
flush 7 at 0 value claimed 00000004 due 00000005
end halt 0
count 3
cycles 27
flushes 1 silent 0
output 0
";

/// `FIVE` by the program's own core, whose first claim is wrong.
const ONE_FLUSH: Row = Row {
    line: "run a.diva --core own",
    counts: FLUSHED,
    ..ONE_BY_ONE
};

/// `addi x1, x0, 7`, `div x3, x1, x2`, where x2 is 0, and the halt.
pub(super) const BY_ZERO: Program = program![0x00700093, 0x0220c1b3, 0x05d00893, 0x00000073];

/// `lui x1, 0x80000`, `addi x2, x0, -1`, `div x3, x1, x2`, `rem x4, x1, x2`, and the halt.
pub(super) const BY_MINUS_ONE: Program = program![
    0x800000b7, 0xfff00113, 0x0220c1b3, 0x0220e233, 0x05d00893, 0x00000073
];

/// `addi x0, x0, 7`, `add x1, x0, x0`, and the halt.
pub(super) const TO_X0: Program = program![0x00700013, 0x000000b3, 0x05d00893, 0x00000073];

/// `addi x1, x0, 85`, `sb x1, 33(x0)` into a word that `lw x2, 32(x0)` then loads, and the halt; the word at 32 is 44332211.
pub(super) const BYTE_INTO_WORD: Program = program![
    0x05500093, 0x021000a3, 0x02002103, 0x05d00893, 0x00000073, 0, 0, 0, 0x44332211
];

/// `addi x1, x0, 115`, `addi x17, x0, 93`, and `sw x1, 12(x0)`, which writes the halt's `ecall` over the next word, `addi x0, x0, 0`.
pub(super) const OVER_THE_NEXT: Program = program![0x07300093, 0x05d00893, 0x00102623, 0x00000013];

/// `addi x17, x0, 1`, `addi x10, x0, 65`, `ecall`, which puts a byte, and the halt, whose status is 65.
pub(super) const PUTS: Program = program![
    0x00100893, 0x04100513, 0x00000073, 0x05d00893, 0x00000073
];

/// Runs of programs that don't trap, but for one that runs past its memory.
pub(super) static ROWS: [Row; 25] = rows! { Row:
    ONE_BY_ONE {}
    ONE_FLUSH {}
    // The first claim is made wrong: the flush of cycle 7, the checker's own instruction in cycle 13, and
    // claims in cycles 14 and 21.
    ONE_BY_ONE { line: "run a.diva --core lockstep --script a.script", script: b"at 1 lane 0 flip value 0\n", counts: FLUSHED }
    // The program's own core makes that claim wrong itself; the script puts it right.
    ONE_BY_ONE { line: "run a.diva --script a.script", script: b"at 1 lane 0 flip value 0\n" }
    // The first claim is lost, and comes in cycle 2.
    ONE_BY_ONE { line: "run a.diva --script a.script --core lockstep", script: b"at 1 lane 0 lose",
        counts: "end halt 0\ncount 3\ncycles 22\nflushes 0 silent 0\noutput 0\n" }
    // Nothing comes up to cycle 100: the watchdog's flush of cycle 64, the checker's own instruction in
    // cycle 70, and claims in cycles 101 and 108.
    ONE_BY_ONE { line: "run a.diva --core lockstep --script a.script", script: b"at 1 hush 100",
        counts: "flush 64 at 0 silent 64\nend halt 0\ncount 3\ncycles 114\nflushes 1 silent 1\noutput 0\n" }
    // A script without rows changes nothing.
    ONE_BY_ONE { line: "run a.diva --core lockstep --script a.script", script: b"\n# at 1 hush 100 \xff\n\t \r\n" }
    ONE_FLUSH { line: "run a.diva" }
    ONE_BY_ONE { line: "run a.diva --core silent",
        counts: "flush 64 at 0 silent 64\nflush 134 at 1 silent 64\nflush 204 at 2 silent 64\nend halt 0\ncount 3\ncycles 210\n\
            flushes 3 silent 3\noutput 0\n" }
    ONE_BY_ONE { line: "run a.diva --width 1 --window 8 --stores 1 --watchdog 16 --core silent",
        counts: "flush 16 at 0 silent 16\nflush 38 at 1 silent 16\nflush 60 at 2 silent 16\nend halt 0\ncount 3\ncycles 66\n\
            flushes 3 silent 3\noutput 0\n" }
    // Each instruction is the checker's own, so each of both reads is done alone, and the second behind one that was: what
    // has committed is 0 and 1.
    ONE_BY_ONE { line: "run a.diva --core silent", program: TWO_READS,
        counts: "flush 64 at 0 silent 64\nflush 134 at 1 silent 64\nflush 204 at 2 silent 64\nflush 274 at 3 silent 64\nend halt 0\ncount 4\n\
            cycles 280\nflushes 4 silent 4\noutput 0\n",
        registers: &[(2, 1), (17, 0x5d)], rest: "pc 0000000c\n" }
    ONE_BY_ONE { line: "run a.diva --core lockstep --watchdog 16" }
    ONE_BY_ONE { line: "run a.diva --cycles 21 --core lockstep" }
    ONE_BY_ONE { line: "run a.diva --cycles 20 --core lockstep", status: 4,
        counts: "end none\ncount 2\ncycles 20\nflushes 0 silent 0\noutput 0\n" }
    ONE_BY_ONE { line: "run a.diva --dump 0:20 --core lockstep",
        rest: "pc 00000008\nmem 00000000 930050009308d0057300000000000000\nmem 00000010 00000000\n" }
    ONE_BY_ONE { line: "run a.diva --core lockstep --dump 3c:8", rest: "pc 00000008\nmem 0000003c 00000000........\n" }
    ONE_BY_ONE { line: "run a.diva --core silent --cycles 140", program: LOOP, status: 4,
        counts: "flush 64 at 0 silent 64\nflush 134 at 1 silent 64\nend none\ncount 2\ncycles 140\nflushes 2 silent 2\noutput 0\n",
        registers: &[], rest: "pc 00000000\n" }
    ONE_BY_ONE { program: BY_ZERO, counts: "end halt 0\ncount 4\ncycles 28\nflushes 0 silent 0\noutput 0\n",
        registers: &[(1, 7), (3, 0xffffffff), (17, 0x5d)], rest: "pc 0000000c\n" }
    ONE_BY_ONE { program: BY_MINUS_ONE, counts: "end halt 0\ncount 6\ncycles 42\nflushes 0 silent 0\noutput 0\n",
        registers: &[(1, 0x80000000), (2, 0xffffffff), (3, 0x80000000), (17, 0x5d)], rest: "pc 00000014\n" }
    ONE_BY_ONE { program: TO_X0, counts: "end halt 0\ncount 4\ncycles 28\nflushes 0 silent 0\noutput 0\n", registers: &[(17, 0x5d)],
        rest: "pc 0000000c\n" }
    ONE_BY_ONE { line: "run a.diva --core lockstep --dump 20:4", program: BYTE_INTO_WORD,
        counts: "end halt 0\ncount 5\ncycles 35\nflushes 0 silent 0\noutput 0\n", registers: &[(1, 0x55), (2, 0x44335511), (17, 0x5d)],
        rest: "pc 00000010\nmem 00000020 11553344\n" }
    // The word that is stored is fetched.
    ONE_BY_ONE { program: OVER_THE_NEXT, counts: "end halt 0\ncount 4\ncycles 28\nflushes 0 silent 0\noutput 0\n",
        registers: &[(1, 0x73), (17, 0x5d)], rest: "pc 0000000c\n" }
    ONE_BY_ONE { program: PUTS, counts: "end halt 65\ncount 5\ncycles 35\nflushes 0 silent 0\noutput 1\nout 41\n",
        registers: &[(10, 0x41), (17, 0x5d)], rest: "pc 00000010\n" }
    // 16 MiB: lui x1, 0x1000; addi x2, x0, 85; sw x2, -4(x1) into the last word, which lw x3, -4(x1)
    // then loads; the halt
    ONE_BY_ONE { line: "run a.diva --core lockstep --dump fffff8:10",
        program: Program { size: 0x100_0000, words: &[0x010000b7, 0x05500113, 0xfe20ae23, 0xffc0a183, 0x05d00893, 0x00000073] },
        counts: "end halt 0\ncount 6\ncycles 42\nflushes 0 silent 0\noutput 0\n",
        registers: &[(1, 0x100_0000), (2, 0x55), (3, 0x55), (17, 0x5d)], rest: "pc 00000014\nmem 00fffff8 0000000055000000....\n" }
    // addi x0, x0, 0, and no word behind it
    ONE_BY_ONE { program: Program { size: 4, words: &[0x00000013] }, status: 3,
        counts: "end trap 1\ncount 2\ncycles 14\nflushes 0 silent 0\noutput 0\n", registers: &[], rest: "pc 00000004\n" }
};

/// A claim that differs from the due record of `FIVE` in every field.
const ALL: Record = record![4, 0x13, 1, 2, 3, 6, 8, 1];

/// Claims that differ in one field and in all behind it: the field, the claim, and what the flush's
/// row says of them.
pub(super) static DIFFERING: [(&str, Record, &str); 8] = laid! {
    ("pc", ALL, "claimed 00000004 due 00000000"),
    ("word", Record { pc: 0, ..ALL }, "claimed 00000013 due 00500093"),
    ("src1", Record { pc: 0, word: ADDS.word, ..ALL }, "claimed 00000001 due 00000000"),
    ("src2", Record { pc: 0, word: ADDS.word, src1: 0, ..ALL }, "claimed 00000002 due 00000000"),
    ("addr", Record { addr: 3, value: 6, next: 8, end: 1, ..ADDS }, "claimed 00000003 due 00000000"),
    ("value", Record { value: 6, next: 8, end: 1, ..ADDS }, "claimed 00000006 due 00000005"),
    ("next", Record { next: 8, end: 1, ..ADDS }, "claimed 00000008 due 00000004"),
    ("end", Record { end: 1, ..ADDS }, "claimed 00000001 due 00000000"),
};

/// The number of a trap, and the word of the one instruction of a program that ends by it.
pub(super) static TRAPS: [(u8, &[u32]); 9] = [
    (0, &[0x006000e7]), // jalr x1, 6(x0)
    (2, &[0x0000100f]), // FENCE.I, which is outside the table
    (2, &[0xc020a0f3]), // csrrs x1, instret, x1, which would set bits
    (3, &[0x00100073]), // ebreak
    (4, &[0x04102103]), // lw x2, 65(x0), misaligned and outside
    (5, &[0x04002103]), // lw x2, 64(x0), the first byte outside
    (6, &[0x000010a3]), // sh x0, 1(x0)
    (7, &[0x04002023]), // sw x0, 64(x0)
    (8, &[0x00000073]), // ecall with x17 = 0
];

/// Puts "A" for ever: addi x17, x0, 1; addi x10, x0, 65; ecall; ecall; ecall; jal x0, -12.
pub(super) const CHATTER: Program = program![
    0x00100893, 0x04100513, 0x00000073, 0x00000073, 0x00000073, 0xff5ff06f
];

/// A core and its script, and what becomes of `CHATTER` by them: the line of a flush, the cycles, and the number of
/// flushes.
pub(super) static FULL: [(&str, &[u8], &str, u32, u32); 3] = [
    ("lockstep", b"", "", 611_688, 0),
    ("scalar", b"", "", 87_390, 0),
    (
        "scalar --script a.script",
        b"\
at 87384 lane 0 set value 41
at 87384 lane 0 set next 10
at 87384 lane 0 set end 0
",
        "flush 87390 at 87383 value claimed 00000041 due 00000000\n",
        87_396,
        1,
    ),
];
