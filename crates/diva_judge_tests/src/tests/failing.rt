// Logs that can't be read, texts that can't be written, and words that are not taken.
use super::{Outside, judged};
use std::test::Fail;

/// A log of `FIVE` whose first line is wrong.
const LOG: &[u8] = b"- - - - - 6 - -\n- - - - - - - -\n- - - - - - - -\n";

/// The row of that line.
const WRONG: &str =
    "wrong 0 at 00000000 00500093 addi x1, x0, 5: value claimed 00000006 due 00000005\n";

/// What is written last.
const LAST: &str = "end halt 0\njudged 3 of 3 wrong 1\n";

#[test]
fn reads_that_fail(rt: HostRuntime) -> Result<(), Fail> {
    let alloc = rt.alloc();
    // The first call opens the log, the second reads 16 bytes of it, which are its first line, and the third reads the second line.
    for (call, has_row) in [(1, false), (2, false), (3, true), (4, true), (5, true)] {
        let outside = Outside {
            log: LOG,
            piece: 16,
            failing_reads: &[call],
            failing_puts: &[],
        };
        let answer = judged(alloc, "judge a.diva a.log", &outside)?;
        let mut due = String::from_str(alloc, if has_row { WRONG } else { "" })?;
        due.push_str("unreadable log\n")?;
        assert_eq!(rt; answer.status, 8, "{call}");
        assert_eq!(rt; str::from_utf8(&answer.text)?, due.as_str(), "{call}");
    }
    Ok(())
}

#[test]
fn puts_that_fail(rt: HostRuntime) -> Result<(), Fail> {
    let alloc = rt.alloc();
    let mut due = String::from_str(alloc, WRONG)?;
    due.push_str(LAST)?;
    for call in 1..4 {
        let outside = Outside {
            log: LOG,
            piece: 5,
            failing_reads: &[],
            failing_puts: &[call],
        };
        let answer = judged(alloc, "judge a.diva a.log", &outside)?;
        assert_eq!(rt; answer.status, 9, "{call}");
        assert!(rt; due.as_bytes().starts_with(&answer.text), "{call}");
        assert!(rt; answer.text.len() < due.len(), "{call}");
    }
    Ok(())
}

#[test]
fn words_that_are_not_taken(rt: HostRuntime) -> Result<(), Fail> {
    let alloc = rt.alloc();
    let outside = Outside {
        log: LOG,
        piece: 64,
        failing_reads: &[],
        failing_puts: &[],
    };
    for (line, status, text) in [
        ("judge a.diva b.log", 8, "unreadable log\n"),
        ("judge b.diva a.log", 8, "unreadable image\n"),
        ("judge a.diva", 2, USAGE),
        ("judge a.diva a.log --core scalar", 2, USAGE),
        ("judge a.diva a.log --stop 0", 2, USAGE),
        ("judge a.diva a.log --width 5", 2, USAGE),
    ] {
        let answer = judged(alloc, line, &outside)?;
        assert_eq!(rt; answer.status, status, "{line}");
        assert_eq!(rt; str::from_utf8(&answer.text)?, text, "{line}");
    }
    Ok(())
}

/// The usage line of the workbench.
const USAGE: &str = "\
usage: diva_lab log|draw IMAGE, judge IMAGE LOG, inject IMAGE COUNT SEED, rate FILE.., with options, or the words of diva
";
