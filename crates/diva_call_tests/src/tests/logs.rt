// Runs of a core that has a line of a log for each instruction.
use super::calls::drives_to;
use diva_claims::{ClaimsCore, Said, SaidEnd};
use diva_core::{Cause, Diff, Field, FlushRow};
use std::test::Fail;

/// A line that says nothing.
const OPEN: Said = Said {
    pc: None,
    word: None,
    src1: None,
    src2: None,
    addr: None,
    value: None,
    next: None,
    end: None,
    rd: None,
    mask: None,
};

/// All of the first instruction of `FIVE`, `addi x1, x0, 5`.
const ADDED: Said = Said {
    pc: Some(0),
    word: Some(0x00500093),
    src1: Some(0),
    src2: Some(0),
    addr: Some(0),
    value: Some(5),
    next: Some(4),
    end: Some(SaidEnd::Number(0)),
    rd: Some(1),
    mask: Some(0),
};

/// Some of the second, `addi x17, x0, 93`.
const ASKED: Said = Said {
    pc: Some(4),
    value: Some(93),
    rd: Some(17),
    ..OPEN
};

/// Some of the third, `ecall`, which halts with status 0.
const HALTED: Said = Said {
    pc: Some(8),
    src1: Some(93),
    end: Some(SaidEnd::Number(256)),
    rd: Some(0),
    ..OPEN
};

/// The second with a wrong value.
const WRONG_VALUE: Said = Said {
    value: Some(92),
    ..ASKED
};

/// The first, as if it wrote x2.
const OTHER_REGISTER: Said = Said {
    rd: Some(2),
    ..ADDED
};

/// The second, as if it stored a word.
const STORED: Said = Said {
    mask: Some(15),
    ..ASKED
};

/// The third, as if it trapped.
const TRAPPED: Said = Said {
    end: Some(SaidEnd::SomeTrap),
    ..HALTED
};

/// An end that is never due.
const NEVER: u32 = 0xffff_ffff;

/// The lines of a core, the cycle in which `FIVE` ends under it, and if a flush comes, its cycle and place, and the first field that
/// differs with what is claimed and due.
///
/// A claim is handed over in the cycle after a commit and judged six cycles later, so right lines commit in the cycles 7, 14 and 21. A
/// wrong line is flushed in the cycle in which it would have committed, and the checker's own instruction commits six cycles later.
static RUNS: [(&[Said], u64, Option<(u64, u64, Field, u32, u32)>); 6] = [
    (&[ADDED, ASKED, HALTED], 21, None),
    (&[OPEN, OPEN, OPEN], 21, None),
    (
        &[ADDED, WRONG_VALUE, HALTED],
        27,
        Some((14, 1, Field::Value, 92, 93)),
    ),
    (
        &[OTHER_REGISTER, ASKED, HALTED],
        27,
        Some((7, 0, Field::End, NEVER, 0)),
    ),
    (
        &[ADDED, STORED, HALTED],
        27,
        Some((14, 1, Field::End, NEVER, 0)),
    ),
    (
        &[ADDED, ASKED, TRAPPED],
        27,
        Some((21, 2, Field::End, NEVER, 256)),
    ),
];

#[test]
fn lines_right_and_wrong(rt: HostRuntime) -> Result<(), Fail> {
    for &(lines, cycles, flush) in &RUNS {
        let mut core = ClaimsCore::new(Vec::from_slice(rt.alloc(), lines)?);
        let row = flush.map(|(cycle, at, field, claimed, due)| FlushRow {
            cycle,
            at,
            cause: Cause::Differs(Diff {
                field,
                claimed,
                due,
            }),
        });
        drives_to(&rt, rt.alloc(), 64, &mut core, cycles, row)?;
    }
    Ok(())
}

/// The second line commits in cycle 14, and there is no third: the watchdog barks 64 cycles later, and the checker's own instruction
/// commits in cycle 84.
#[test]
fn lines_that_end_first(rt: HostRuntime) -> Result<(), Fail> {
    let mut core = ClaimsCore::new(Vec::from_slice(rt.alloc(), &[ADDED, ASKED])?);
    let row = FlushRow {
        cycle: 78,
        at: 2,
        cause: Cause::Silent(64),
    };
    drives_to(&rt, rt.alloc(), 64, &mut core, 84, Some(row))
}
