// Scripts that are refused, and the most rows that a script has.
use super::{FIVE_TEXT, compare, five_files};
use diva_outside::What;
use std::test::Fail;

const LINE: &str = "run a.diva --core lockstep --script a.script";

/// Scripts with a fault of each kind, and the first one's kind and line.
static REFUSED: [(&[u8], &str); 11] = [
    (b"on 1 lane 0 lose", "1 at 1"),
    (b"at 1 line 0 lose", "1 at 1"),
    (b"\xff", "1 at 1"),
    (b"at 0 hush 3", "2 at 1"),
    (b"at 1 lane 0 set value 123456789", "2 at 1"),
    (b"at 1 lane 0 flip next 32", "2 at 1"),
    (b"at 1 lane 0 set values 5", "3 at 1"),
    (b"at 1 lane 0", "4 at 1"),
    (b"at 1 lane 0 lose it", "4 at 1"),
    (
        b"# \xff\n\nat 1 lane 0 lose # a row\nat 1 lane 8 lose",
        "2 at 4",
    ),
    (b"at 1 hush 2\nat 1 hush\nat x", "4 at 2"),
];

#[test]
fn scripts_that_are_refused(rt: HostRuntime) -> Result<(), Fail> {
    let alloc = rt.alloc();
    for &(script, fault) in &REFUSED {
        let outside = five_files(alloc)?.with(What::Script, script)?;
        let text = format!(in alloc; "refused script {fault}\n")?;
        compare(&rt, LINE, outside, 5, text.as_str())?;
    }
    Ok(())
}

/// 4,096 rows are taken; here they name cycles behind the run's end, and a comment of any byte follows. One more is
/// refused at its line.
#[test]
fn scripts_of_many_rows(rt: HostRuntime) -> Result<(), Fail> {
    let alloc = rt.alloc();
    for (rows, status, text) in [
        (4096, 0, FIVE_TEXT),
        (4097, 5, "refused script 5 at 4097\n"),
    ] {
        let script = "at 22 lane 0 lose\n".repeat(alloc, rows)?;
        let outside = five_files(alloc)?
            .with(What::Script, script.as_bytes())?
            .with(What::Script, b"# \xff")?;
        compare(&rt, LINE, outside, status, text)?;
    }
    Ok(())
}
