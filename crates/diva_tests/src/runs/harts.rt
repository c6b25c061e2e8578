// Runs on two harts over one memory.
use super::{Outside, compare, five_files, run_program};
use crate::cores::counting;
use diva_test_programs::{FIVE, Program, image_file, program, registers_text, rows};
use std::alloc::Global;
use std::fmt::Write;
use std::test::Fail;

/// A run of one program on two harts.
#[derive(Clone, Copy)]
pub(super) struct Pair {
    /// The command line; the program's file is `a.diva`.
    pub line: &'static str,
    pub program: Program,
    pub status: u8,
    cycles: u32,
    /// Of each hart, the lines of its numbers and of its output.
    counts: [&'static str; 2],
    first: Hart,
    second: Hart,
    /// The line of shared memory, if one is asked for.
    memory: &'static str,
}

/// What one of the two harts leaves.
#[derive(Clone, Copy)]
struct Hart {
    end: &'static str,
    /// The registers that are not 0 in the end.
    registers: &'static [(u8, u32)],
    pc: u32,
}

/// `FIVE` where each hart claims one by one.
pub(super) const FIVE_PAIR: Pair = Pair {
    line: "duo a.diva --core lockstep",
    program: FIVE,
    status: 0,
    cycles: 21,
    counts: ["count 3\nflushes 0 silent 0\noutput 0\n"; 2],
    first: Hart {
        end: "halt 0",
        registers: &[(1, 5), (17, 0x5d)],
        pc: 8,
    },
    second: Hart {
        end: "halt 1",
        registers: &[(1, 5), (10, 1), (17, 0x5d)],
        pc: 8,
    },
    memory: "",
};

/// Each hart stores 1 in its slot, at 32 or 36, fences, and loads what the other stored.
const FENCED: Program = program![
    0x00100093, 0x00251293, 0x40500333, 0x0212a023, 0x0ff0000f, 0x02432103, 0x05d00893, 0x00000073
];

/// The lines of numbers and output of a hart of `FENCED` that is claimed one by one.
const NO_FLUSH: &str = "count 8\nflushes 0 silent 0\noutput 0\n";

/// The same of one that overlooks the other's store: it runs ahead of the checker.
const ONE_FLUSH: &str = "count 8\nflushes 1 silent 0\noutput 0\n";

/// The same of one whose core hands over nothing: each instruction is the checker's own, behind a flush of the watchdog.
const EIGHT_SILENT: &str = "count 8\nflushes 8 silent 8\noutput 0\n";

/// `FENCED` claimed one by one: the eight claims commit in the cycles 7 to 56, and each load is of a store that went to memory.
const FENCED_PAIR: Pair = Pair {
    line: "duo a.diva --core lockstep",
    program: FENCED,
    status: 0,
    cycles: 56,
    counts: [NO_FLUSH, NO_FLUSH],
    first: Hart {
        end: "halt 0",
        registers: &[(1, 1), (2, 1), (17, 0x5d)],
        pc: 28,
    },
    second: Hart {
        end: "halt 1",
        registers: &[(1, 1), (2, 1), (5, 4), (6, 0xfffffffc), (10, 1), (17, 0x5d)],
        pc: 28,
    },
    memory: "",
};

pub(super) static PAIRS: [Pair; 10] = rows! { Pair:
    FIVE_PAIR {}
    FENCED_PAIR {}
    // Slots of a word each, in shared memory.
    FENCED_PAIR { line: "duo a.diva --dump 20:16 --core lockstep --stores 1", memory: "mem 00000020 01000000010000000000000000000000\n" }
    // Memory's last 8 bytes, and 8 behind it.
    FENCED_PAIR { line: "duo a.diva --core lockstep --dump 38:16 --room 64", memory: "mem 00000038 0000000000000000................\n" }
    // The load is claimed in cycle 6 with what shared memory has, and judged in cycle 12, behind the other's store.
    FENCED_PAIR { line: "duo a.diva", cycles: 26, counts: [ONE_FLUSH, ONE_FLUSH] }
    // Each instruction commits 70 cycles behind the one before.
    FENCED_PAIR { line: "duo a.diva --core silent", cycles: 560, counts: [EIGHT_SILENT, EIGHT_SILENT] }
    // `ebreak` traps on both harts.
    FENCED_PAIR { program: program![0x00100073], status: 3, cycles: 7,
        counts: ["count 1\nflushes 0 silent 0\noutput 0\n", "count 1\nflushes 0 silent 0\noutput 0\n"],
        first: Hart { end: "trap 3", registers: &[], pc: 0 }, second: Hart { end: "trap 3", registers: &[(10, 1)], pc: 0 } }
    // `bne x10, x0, 12`: hart 0 halts, and hart 1 traps at once.
    FENCED_PAIR { line: "duo a.diva --core scalar",
        program: program![0x00051663, 0x05d00893, 0x00000073, 0x00100073], status: 3, cycles: 9,
        counts: ["count 3\nflushes 0 silent 0\noutput 0\n", "count 2\nflushes 0 silent 0\noutput 0\n"],
        first: Hart { end: "halt 0", registers: &[(17, 0x5d)], pc: 8 }, second: Hart { end: "trap 3", registers: &[(10, 1)], pc: 12 } }
    // `beq x10, x0, 8`: hart 0 halts, and hart 1 jumps to where it is for ever.
    FENCED_PAIR { line: "duo a.diva --cycles 100", program: program![0x00050463, 0x0000006f, 0x05d00893, 0x00000073],
        status: 4, cycles: 100, counts: ["count 3\nflushes 0 silent 0\noutput 0\n", "count 94\nflushes 0 silent 0\noutput 0\n"],
        first: Hart { end: "halt 0", registers: &[(17, 0x5d)], pc: 12 }, second: Hart { end: "none", registers: &[(10, 1)], pc: 4 } }
    // Both halts are of cycle 21.
    FENCED_PAIR { line: "duo a.diva --core lockstep --cycles 20", program: FIVE, status: 4, cycles: 20,
        counts: ["count 2\nflushes 0 silent 0\noutput 0\n", "count 2\nflushes 0 silent 0\noutput 0\n"],
        first: Hart { end: "none", registers: &[(1, 5), (17, 0x5d)], pc: 8 },
        second: Hart { end: "none", registers: &[(1, 5), (10, 1), (17, 0x5d)], pc: 8 } }
};

/// The whole text of a run on two harts.
pub(super) fn pair_text(alloc: Global, pair: &Pair) -> Result<String, Fail> {
    let mut text = format!(in alloc; "cycles {}\n", pair.cycles)?;
    let harts = [pair.first, pair.second];
    for (number, (counts, hart)) in pair.counts.iter().zip(harts).enumerate() {
        let Hart { end, pc, .. } = hart;
        let registers = registers_text(alloc, hart.registers)?;
        write!(
            text,
            "hart {number}\nend {end}\n{counts}{registers}pc {pc:08x}\n"
        )?;
    }
    text.push_str(pair.memory)?;
    Ok(text)
}

#[test]
fn programs_on_two_harts(rt: HostRuntime) -> Result<(), Fail> {
    let alloc = rt.alloc();
    for pair in &PAIRS {
        let outside = Outside::sound(alloc, image_file(alloc, pair.program)?);
        let text = pair_text(alloc, pair)?;
        compare(&rt, pair.line, outside, pair.status, text.as_str())?;
    }
    Ok(())
}

/// Each hart has a core of its own: the one that the program is handed is not asked.
#[test]
fn cores_of_two_harts(rt: HostRuntime) -> Result<(), Fail> {
    let mut core = counting();
    let answer = run_program(&mut core, "duo a.diva", five_files(rt.alloc())?)?;
    assert_eq!(rt; (answer.status, core.calls), (0, 0));
    Ok(())
}
