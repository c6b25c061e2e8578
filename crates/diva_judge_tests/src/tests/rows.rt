// Logs and what is written of them.
use super::{Outside, judged};
use std::test::Fail;

/// A log of `FIVE`, the options with which it is judged, and the status and the text that are due.
struct Row {
    log: &'static str,
    options: &'static str,
    status: u8,
    text: &'static str,
}

static ROWS: [Row; 20] = [
    // Each instruction has its line, and all that the lines say is due, whatever they leave out.
    Row {
        log: "0 500093 0 0 0 5 4 0 1 0\n4 05D00893 - - - 5d 8 0\n8 73 5d 0 - - 8 100 0 0\n",
        options: "",
        status: 0,
        text: "end halt 0\njudged 3 of 3 wrong 0\n",
    },
    Row {
        log: "- - - - - - - -\n# a comment, and a line without words\n\n\t- - - - - - - - - - # more\r\n- - - - - - - -",
        options: "--watchdog 16 --width 4 --port 6",
        status: 0,
        text: "end halt 0\njudged 3 of 3 wrong 0\n",
    },
    // A field, the register, the bytes and the trap: the first in the order of the words.
    Row {
        log: "0 500093 0 0 0 4 4 0 2 f\n- - - - - - - -\n- - - - - - - -\n",
        options: "",
        status: 6,
        text: "wrong 0 at 00000000 00500093 addi x1, x0, 5: value claimed 00000004 due 00000005\nend halt 0\njudged 3 of 3 wrong 1\n",
    },
    Row {
        log: "- - - - - - - -\n0 - - - - - - - 2 f\n- - - - - - - -\n",
        options: "--port 3",
        status: 6,
        text: "wrong 1 at 00000004 05d00893 addi x17, x0, 93: pc claimed 00000000 due 00000004\nend halt 0\njudged 3 of 3 wrong 1\n",
    },
    Row {
        log: "- - - - - - - - 2 f\n- - - - - - - -\n- - - - - - - -\n",
        options: "",
        status: 6,
        text: "wrong 0 at 00000000 00500093 addi x1, x0, 5: rd claimed 00000002 due 00000001\nend halt 0\njudged 3 of 3 wrong 1\n",
    },
    Row {
        log: "- - - - - - - - 1 f\n- - - - - - - -\n- - - - - - - -\n",
        options: "",
        status: 6,
        text: "wrong 0 at 00000000 00500093 addi x1, x0, 5: mask claimed 0000000f due 00000000\nend halt 0\njudged 3 of 3 wrong 1\n",
    },
    Row {
        log: "- - - - - - - t\n- - - - - - - -\n- - - - - - - 1\n",
        options: "",
        status: 6,
        text: "wrong 0 at 00000000 00500093 addi x1, x0, 5: end claimed t due 00000000\n\
wrong 2 at 00000008 00000073 ecall: end claimed 00000001 due 00000100\nend halt 0\njudged 3 of 3 wrong 2\n",
    },
    // What a wrong line claims is nothing that the next line is judged by.
    Row {
        log: "- - - - - 6 - -\n- - - - - 5d - -\n- - 6 - - - - -\n",
        options: "",
        status: 6,
        text: "wrong 0 at 00000000 00500093 addi x1, x0, 5: value claimed 00000006 due 00000005\n\
wrong 2 at 00000008 00000073 ecall: src1 claimed 00000006 due 0000005d\nend halt 0\njudged 3 of 3 wrong 2\n",
    },
    // The log ends before the program does, or after it.
    Row {
        log: "- - - - - - - -\n- - - - - - - -\n",
        options: "",
        status: 4,
        text: "missing 2 at 00000008 00000073 ecall\nend none\njudged 2 of 2 wrong 0\n",
    },
    Row {
        log: "",
        options: "",
        status: 4,
        text: "missing 0 at 00000000 00500093 addi x1, x0, 5\nend none\njudged 0 of 0 wrong 0\n",
    },
    Row {
        log: "1 - - - - - - -\n",
        options: "",
        status: 6,
        text: "wrong 0 at 00000000 00500093 addi x1, x0, 5: pc claimed 00000001 due 00000000\n\
missing 1 at 00000004 05d00893 addi x17, x0, 93\nend none\njudged 1 of 1 wrong 1\n",
    },
    Row {
        log: "- - - - - - - -\n- - - - - - - -\n- - - - - - - -\n8 - - - - - - -\n- - - - - - - -\n",
        options: "",
        status: 6,
        text: "left over 2\nend halt 0\njudged 3 of 5 wrong 0\n",
    },
    // After so many wrong lines no further one is judged; all are read.
    Row {
        log: "1 - - - - - - -\n1 - - - - - - -\n1 - - - - - - -\n",
        options: "--stop 2",
        status: 6,
        text: "wrong 0 at 00000000 00500093 addi x1, x0, 5: pc claimed 00000001 due 00000000\n\
wrong 1 at 00000004 05d00893 addi x17, x0, 93: pc claimed 00000001 due 00000004\nend none\njudged 2 of 3 wrong 2\n",
    },
    Row {
        log: "1 - - - - - - -\n1 x - - - - - -\n",
        options: "--stop 1",
        status: 5,
        text: "wrong 0 at 00000000 00500093 addi x1, x0, 5: pc claimed 00000001 due 00000000\nrefused log 1 at 2\n",
    },
    // Each line is answered.
    Row {
        log: "0 - - - - - - -\n0 - - - - - - -\n- - - - - - - 100\n- - - - - - - -\n",
        options: "--answer",
        status: 6,
        text: "ok\ndue 00000004 05d00893 00000000 00000000 00000000 0000005d 00000008 00000000\nok\nover\n\
left over 1\nend halt 0\njudged 3 of 4 wrong 1\n",
    },
    // Lines are counted from 1, with those that have no words; a line's first fault tells.
    Row {
        log: "# a log\n\n- - - - - - - -\n- - - - - - -\n",
        options: "",
        status: 5,
        text: "refused log 2 at 4\n",
    },
    Row {
        log: "- - - - - - - - -\n",
        options: "",
        status: 5,
        text: "refused log 2 at 1\n",
    },
    Row {
        log: "- - - - - - - - - - x\n",
        options: "",
        status: 5,
        text: "refused log 2 at 1\n",
    },
    Row {
        log: "- - - - - - t -\n",
        options: "",
        status: 5,
        text: "refused log 1 at 1\n",
    },
    Row {
        log: "000000000 - - - - - - -\n",
        options: "",
        status: 5,
        text: "refused log 1 at 1\n",
    },
];

#[test]
fn logs_that_are_judged(rt: HostRuntime) -> Result<(), Fail> {
    let alloc = rt.alloc();
    for row in &ROWS {
        let mut line = String::from_str(alloc, "judge a.diva a.log")?;
        if !row.options.is_empty() {
            line.push(' ')?;
            line.push_str(row.options)?;
        }
        let outside = Outside {
            log: row.log.as_bytes(),
            piece: 7,
            failing_reads: &[],
            failing_puts: &[],
        };
        let answer = judged(alloc, line.as_str(), &outside)?;
        assert_eq!(rt; answer.status, row.status, "{}", row.log);
        assert_eq!(rt; str::from_utf8(&answer.text)?, row.text, "{}", row.log);
    }
    Ok(())
}
