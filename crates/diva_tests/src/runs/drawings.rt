// Runs that are drawn: in text, and as a log for a viewer.
use super::{Answer, answer_from, compare_answer, files_and_sink, five_files, words_of};
use crate::cores::counting;
use diva_outside::What;
use diva_source::NoSource;
use diva_workbench::{Hands, lab_top};
use std::alloc::Global;
use std::test::Fail;

/// A line of the workbench on the image `FIVE`, with this script, and the status and the text that are due.
pub(super) struct Drawn {
    pub line: &'static str,
    script: &'static [u8],
    pub status: u8,
    pub text: &'static str,
}

/// The usage line of that program.
const LAB_USAGE: &str = "\
usage: diva_lab log|draw IMAGE, judge IMAGE LOG, inject IMAGE COUNT SEED, rate FILE.., with options, or the words of diva
";

/// The claim of cycle 1 has a wrong value, which the stage that executes finds in cycle 5. It flushes in cycle 7, and its
/// instruction runs solo.
pub(super) const LOGGED: &str = "\
Kanata\t0004
C=\t0
C\t1
I\t0\t0\t0
L\t0\t0\t0: 00000000 00500093 addi x1, x0, 5
L\t0\t1\trecord src1 00000000 src2 00000000 addr 00000000 value 00000004 next 00000004 end 00000000
S\t0\t0\taccepted
C\t1
S\t0\t0\tfetch
C\t1
S\t0\t0\tdecode
C\t1
S\t0\t0\toperands
C\t1
S\t0\t0\texecute
L\t0\t1\t\\nvalue claimed 00000004 due 00000005
C\t1
S\t0\t0\tmemory
C\t1
I\t1\t1\t0
L\t1\t0\t0: 00000000 00500093 addi x1, x0, 5
L\t1\t1\trecord src1 00000000 src2 00000000 addr 00000000 value 00000005 next 00000004 end 00000000
S\t1\t0\tsolo
L\t1\t1\t\\nvalue claimed 00000004 due 00000005
R\t0\t0\t1
C\t1
S\t1\t0\tfetch
";

/// Each row as it is drawn where it ends, and the scale.
pub(super) static ROWS: [Drawn; 13] = [
    Drawn {
        line: "draw a.diva --core scalar",
        script: b"",
        status: 0,
        text: "\
addi x1, x0, 5              A  F  D  O  X  M  C
addi x17, x0, 93               A  F  D  O  X  M  C
ecall                             A  F  D  O  X  M  C
cycle                       1  2  3  4  5  6  7  8  9
",
    },
    // The first claim flushes, and drops those that are pending behind it.
    Drawn {
        line: "draw a.diva --core scalar --cycles 15",
        script: b"at 1 lane 0 flip value 0\n",
        status: 4,
        text: "\
addi x1, x0, 5              A  F  D  O  X  M  !
addi x17, x0, 93               A  F  D  O  X  -
ecall                             A  F  D  O  -
addi x1, x0, 5                                S  F  D  O  X  M  C
addi x17, x0, 93                                                   A  F
ecall                                                                 A
cycle                       1  2  3  4  5  6  7  8  9 10 11 12 13 14 15
",
    },
    // Eight claims of zeros are handed over in each cycle, of which two are accepted; a voting lane that lies changes nothing.
    Drawn {
        line: "draw a.diva --core flood --cycles 3 --liar 1",
        script: b"",
        status: 4,
        text: "\
.word 0x00000000            A  F  D
.word 0x00000000            A  F  D
.word 0x00000000               A  F
.word 0x00000000               A  F
.word 0x00000000                  A
.word 0x00000000                  A
cycle                       1  2  3
",
    },
    // Of the second of these runs three cycles alone: the rows that have ended by then, or have not begun, are not drawn.
    Drawn {
        line: "draw a.diva --core scalar --cycles 15 --from 7 --to 9",
        script: b"at 1 lane 0 flip value 0\n",
        status: 4,
        text: "\
addi x1, x0, 5              !
addi x17, x0, 93            -
ecall                       -
addi x1, x0, 5              S  F  D
cycle                       7  8  9
",
    },
    // The first claim commits in cycle 7, and is drawn up to cycle 2.
    Drawn {
        line: "draw a.diva --core scalar --to 2",
        script: b"",
        status: 0,
        text: "\
addi x1, x0, 5              A  F
addi x17, x0, 93               A
cycle                       1  2
",
    },
    // The run has ended before.
    Drawn {
        line: "draw a.diva --core scalar --from 10 --to 10",
        script: b"",
        status: 0,
        text: "cycle                     \n",
    },
    Drawn {
        line: "log a.diva --core lockstep --cycles 8",
        script: b"at 1 lane 0 flip value 0\n",
        status: 4,
        text: LOGGED,
    },
    // It does what the other program does too.
    Drawn {
        line: "dis a.diva",
        script: b"",
        status: 0,
        text: "00000000 00500093 addi x1, x0, 5\n00000004 05d00893 addi x17, x0, 93\n00000008 00000073 ecall\n",
    },
    Drawn {
        line: "draw a.diva --trace",
        script: b"",
        status: 2,
        text: LAB_USAGE,
    },
    Drawn {
        line: "log a.diva --dump 0:4",
        script: b"",
        status: 2,
        text: LAB_USAGE,
    },
    Drawn {
        line: "draw a.diva --from 3 --to 2",
        script: b"",
        status: 2,
        text: LAB_USAGE,
    },
    Drawn {
        line: "log a.diva --to 2",
        script: b"",
        status: 2,
        text: LAB_USAGE,
    },
    Drawn {
        line: "log b.diva",
        script: b"",
        status: 8,
        text: "unreadable image\n",
    },
];

/// What the program answers on a row.
fn answer(alloc: Global, row: &Drawn) -> Result<Answer, Fail> {
    let mut words = words_of(alloc, row.line)?;
    if !row.script.is_empty() {
        words.push("--script")?;
        words.push("a.script")?;
    }
    let outside = five_files(alloc)?.with(What::Script, row.script)?;
    let (mut files, mut sink) = files_and_sink(outside)?;
    let mut hands = Hands {
        core: counting(),
        source: NoSource::new(),
    };
    let status = lab_top(alloc, &words, &mut files, &mut sink, &mut hands);
    answer_from(alloc, status, files, &sink)
}

#[test]
fn runs_that_are_drawn(rt: HostRuntime) -> Result<(), Fail> {
    let alloc = rt.alloc();
    for row in &ROWS {
        let answer = answer(alloc, row)?;
        compare_answer(&rt, row.line, &answer, row.status, row.text)?;
    }
    Ok(())
}
