// Tapes that are played, written, and refused.
use super::tables::{ONE_BY_ONE, Row};
use super::{Outside, compare, compare_rows, run_program};
use crate::cores::flipped;
use diva_test_programs::{
    FIVE_FILE, LOOP, THREE_READS, TWO_STORES, image_file, laid, program, rows,
};
use std::test::Fail;

/// `TWO_STORES`, of which two instructions are claimed in each of the first two cycles.
pub(super) const STORES: Row = Row {
    line: "run a.diva --core tape --tape a.tape --stores 4",
    tape: b"\
0 2002023 0 0 20 0 4 0 ; 4 2002223 0 0 24 0 8 0
8 5d00893 0 0 0 5d c 0 ; c 73 5d 0 0 0 c 100
",
    program: TWO_STORES,
    counts: "end halt 0\ncount 4\ncycles 8\nflushes 0 silent 0\noutput 0\n",
    registers: &[(17, 0x5d)],
    rest: "pc 0000000c\n",
    ..ONE_BY_ONE
};

static ROWS: [Row; 7] = rows! { Row:
    STORES {}
    // With one place in the store queue, cycle 7 commits the first store only, and 8 the second and the
    // third instruction.
    STORES { line: "run a.diva --core tape --tape a.tape --stores 1",
        counts: "end halt 0\ncount 4\ncycles 9\nflushes 0 silent 0\noutput 0\n" }
    // A wrong claim of cycle 10 is judged in cycle 16, in which the watchdog would bark too.
    ONE_BY_ONE { line: "run a.diva --core tape --tape a.tape --watchdog 16", tape: b"\n\n\n\n\n\n\n\n\n0 500093 0 0 0 4 4 0",
        counts: "flush 16 at 0 value claimed 00000004 due 00000005\nflush 38 at 1 silent 16\nflush 60 at 2 silent 16\nend halt 0\ncount 3\n\
            cycles 66\nflushes 3 silent 2\noutput 0\n" }
    // Lists of eight where there is room for two: the other six are dropped.
    ONE_BY_ONE { line: "run a.diva --core tape --tape a.tape",
        tape: b"0 500093 0 0 0 5 4 0;4 5d00893 0 0 0 5D 8 0;0 500093 0 0 0 5 4 0;0 500093 0 0 0 5 4 0;\
            0 500093 0 0 0 5 4 0;0 500093 0 0 0 5 4 0;0 500093 0 0 0 5 4 0;0 500093 0 0 0 5 4 0\n\
            8 73 5d 0 0 0 8 100;8 73 5d 0 0 0 8 100;8 73 5d 0 0 0 8 100;8 73 5d 0 0 0 8 100;\
            8 73 5d 0 0 0 8 100;8 73 5d 0 0 0 8 100;8 73 5d 0 0 0 8 100;8 73 5d 0 0 0 8 100 # the end\n",
        counts: "end halt 0\ncount 3\ncycles 8\nflushes 0 silent 0\noutput 0\n" }
    // A tape under a script: its first claim is wrong, and is put right.
    ONE_BY_ONE { line: "run a.diva --core tape --tape a.tape --script a.script", script: b"at 1 lane 0 set value 5",
        tape: b"0 500093 0 0 0 4 4 0\n4 5d00893 0 0 0 5d 8 0\n8 73 5d 0 0 0 8 100\n",
        counts: "end halt 0\ncount 3\ncycles 9\nflushes 0 silent 0\noutput 0\n" }
    // The read of x2 has 3 instructions before it, and is claimed to have 4. Cycle 7 commits two claims; cycle 8 commits the read to
    // x0 and judges that one. The checker's own commits in cycle 14, and the claims of cycle 15 in 21.
    ONE_BY_ONE { line: "run a.diva --core tape --tape a.tape",
        tape: b"0 fff00093 0 0 0 ffffffff 4 0 ; 4 c82020f3 0 0 0 0 8 0\n8 c0202073 0 0 0 2 c 0 ; c c0202173 0 0 0 4 10 0\n\n\n\n\n\n\n\n\n\n\n\
            \n\n10 5d00893 0 0 0 5d 14 0 ; 14 73 5d 0 0 0 14 100\n",
        program: THREE_READS,
        counts: "flush 8 at 3 value claimed 00000004 due 00000003\nend halt 0\ncount 6\ncycles 21\nflushes 1 silent 0\noutput 0\n",
        registers: &[(2, 3), (17, 0x5d)], rest: "pc 00000014\n" }
    // addi x17, x0, 93; the halt; rdinstret x1. The read is claimed behind the halt, as if that went on: it is dropped with the
    // end, and is no instruction of the machine.
    ONE_BY_ONE { line: "run a.diva --core tape --tape a.tape",
        tape: b"0 5d00893 0 0 0 5d 4 0 ; 4 73 5d 0 0 0 4 100\n8 c02020f3 0 0 0 2 c 0",
        program: program![0x05d00893, 0x00000073, 0xc02020f3],
        counts: "end halt 0\ncount 2\ncycles 7\nflushes 0 silent 0\noutput 0\n", registers: &[(17, 0x5d)], rest: "pc 00000004\n" }
};

#[test]
fn tapes_that_are_played(rt: HostRuntime) -> Result<(), Fail> {
    compare_rows(&rt, rt.alloc(), &ROWS)
}

/// What is written of `FIVE` in lockstep: 21 lines, of which the first, the eighth and the fifteenth have
/// a claim.
pub(super) const IN_LOCKSTEP: &str = "\
00000000 00500093 00000000 00000000 00000000 00000005 00000004 00000000






00000004 05d00893 00000000 00000000 00000000 0000005d 00000008 00000000






00000008 00000073 0000005d 00000000 00000000 00000000 00000008 00000100






";

/// One call of the flood: eight claims of zeros, of which a tape has the last too.
pub(super) const FLOODED: &str = "\
00000000 00000000 00000000 00000000 00000000 00000000 00000000 00000000 ; \
00000000 00000000 00000000 00000000 00000000 00000000 00000000 00000000 ; \
00000000 00000000 00000000 00000000 00000000 00000000 00000000 00000000 ; \
00000000 00000000 00000000 00000000 00000000 00000000 00000000 00000000 ; \
00000000 00000000 00000000 00000000 00000000 00000000 00000000 00000000 ; \
00000000 00000000 00000000 00000000 00000000 00000000 00000000 00000000 ; \
00000000 00000000 00000000 00000000 00000000 00000000 00000000 00000000 ; \
00000000 00000000 00000000 00000000 00000000 00000000 00000000 00000000
";

/// Three calls of the echo: the first claim again while it is pending.
const ECHOED: &str = "\
00000000 00500093 00000000 00000000 00000000 00000005 00000004 00000000
00000000 00500093 00000000 00000000 00000000 00000005 00000004 00000000
00000000 00500093 00000000 00000000 00000000 00000005 00000004 00000000
";

/// Two calls of the noise: the first sixteen numbers of the generator from 0 on, as Python computes them.
const NOISY: &str = "\
3c6ef35f 47502932 d1ccf6e9 aaf95334 6252e503 9f2ec686 57fe6c2d a3d95fa8
81fdbee7 94f0af1a cbf633b1 bcd1195c 9d23e50b e296f6ee 01ba5175 83c6b450
";

/// The same where a script flips bit 0 of the first claim's pc.
const NOISY_AND_FLIPPED: &str = "\
3c6ef35e 47502932 d1ccf6e9 aaf95334 6252e503 9f2ec686 57fe6c2d a3d95fa8
81fdbee7 94f0af1a cbf633b1 bcd1195c 9d23e50b e296f6ee 01ba5175 83c6b450
";

#[test]
fn tapes_that_are_written(rt: HostRuntime) -> Result<(), Fail> {
    let alloc = rt.alloc();
    for (line, status, text) in [
        ("tape a.diva --core lockstep", 0, IN_LOCKSTEP),
        ("tape a.diva --core silent --cycles 3", 4, "\n\n\n"),
        ("tape a.diva --core flood --cycles 1", 4, FLOODED),
        ("tape a.diva --core echo --cycles 3", 4, ECHOED),
        ("tape a.diva --core noise --cycles 2", 4, NOISY),
        (
            "tape a.diva --core noise --cycles 2 --script a.script",
            4,
            NOISY_AND_FLIPPED,
        ),
    ] {
        let outside = Outside {
            script: Vec::from_slice(alloc, b"at 1 lane 0 flip pc 0")?,
            ..Outside::sound(alloc, Vec::from_slice(alloc, &FIVE_FILE)?)
        };
        compare(&rt, line, outside, status, text)?;
    }
    Ok(())
}

/// The tape of a run that a script flips, loses, doubles and hushes is played: the text is that of the run.
#[test]
fn tapes_that_are_replayed(rt: HostRuntime) -> Result<(), Fail> {
    let alloc = rt.alloc();
    let outside = |tape| -> Result<Outside, Fail> {
        Ok(Outside {
            script: Vec::from_slice(alloc, SCRIPT)?,
            tape,
            ..Outside::sound(alloc, image_file(alloc, LOOP)?)
        })
    };
    let command = "a.diva --core scalar --script a.script --cycles 300";
    let line = format!(in alloc; "tape {command}")?;
    let tape = run_program(&mut flipped(), line.as_str(), outside(Vec::new(alloc))?)?;
    let line = format!(in alloc; "run {command}")?;
    let run = run_program(&mut flipped(), line.as_str(), outside(Vec::new(alloc))?)?;
    assert_eq!(rt; tape.status, run.status);
    compare(
        &rt,
        "run a.diva --core tape --tape a.tape --cycles 300",
        outside(tape.text)?,
        run.status,
        str::from_utf8(&run.text)?,
    )
}

const SCRIPT: &[u8] = b"\
at 1 lane 0 flip value 3
at 20 lane 0 lose
at 30 lane 0 double
at 60 hush 80
at 250 lane 0 flip next 31
at 251 lane 0 set src1 7
";

/// Tapes with a fault of each kind, and the first one's kind and line.
#[test]
fn tapes_that_are_refused(rt: HostRuntime) -> Result<(), Fail> {
    let alloc = rt.alloc();
    let rows: [(&[u8], &str); 9] = laid! {
    (b"0 1 2", "2 at 1"),
    (b"0 1 2 3 4 5 6 g", "1 at 1"),
    (b"0 1 2 3 4 5 6 000000007", "1 at 1"),
    (b"0 1 2 3 4 5 6 7 8", "2 at 1"),
    (b";", "2 at 1"),
    (b"0 1 2 3 4 5 6 7 ;", "2 at 1"),
    (b"0 0 0 0 0 0 0 0;0 0 0 0 0 0 0 0;0 0 0 0 0 0 0 0;0 0 0 0 0 0 0 0;\
            0 0 0 0 0 0 0 0;0 0 0 0 0 0 0 0;0 0 0 0 0 0 0 0;0 0 0 0 0 0 0 0;0 0 0 0 0 0 0 0",
        "3 at 1"),
    (b"# \xff ;\n\n0 1 2 3 4 5 6 7 # ;\n;0 x", "1 at 4"),
    (b"0 1 2 3 4 5 6\n\xff", "2 at 1"),
};
    for (tape, fault) in rows {
        let outside = Outside {
            tape: Vec::from_slice(alloc, tape)?,
            ..Outside::sound(alloc, Vec::from_slice(alloc, &FIVE_FILE)?)
        };
        let text = format!(in alloc; "refused tape {fault}\n")?;
        compare(
            &rt,
            "run a.diva --core tape --tape a.tape",
            outside,
            5,
            text.as_str(),
        )?;
    }
    Ok(())
}
