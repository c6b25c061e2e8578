// Tapes that are read, played and written. What is due is taken from the text of the format.
use crate::tests::cores::list_of;
use diva_core::Claim;
use diva_tape::{Tape, TapeCore, TapeFault, tape_piece};
use diva_test_programs::ADDS;
use std::alloc::{AllocError, Global};
use std::test::Fail;

/// Eight claims of zeros.
const EIGHT: &str = "0 0 0 0 0 0 0 0;0 0 0 0 0 0 0 0;0 0 0 0 0 0 0 0;0 0 0 0 0 0 0 0;\
0 0 0 0 0 0 0 0;0 0 0 0 0 0 0 0;0 0 0 0 0 0 0 0;0 0 0 0 0 0 0 0";

#[test]
fn faults_of_a_line(rt: HostRuntime) -> Result<(), Fail> {
    for (text, line, kind) in [
        (b"0 1 2".as_slice(), 1, 2),
        (b";", 1, 2),
        (b"# \xff;\n\n ; \r\n", 3, 2),
        (b"# \xff;\n\n0 0 0 0 0 0 0 0 ;", 3, 2),
        (b"# \xff;\n\n;0 0 0 0 0 0 0 0\n", 3, 2),
        (b"0 0 0 0 0 0 0 0\n0 0 0 0 0 0 0 0;;0 0 0 0 0 0 0 0", 2, 2),
        (b"0 0 0 0 0 0 0 0 0", 1, 2),
        (b"0 1 2; \xff", 1, 1),
        (b"123456789 0 0 0 0 0 0 0", 1, 1),
        (b"0x1 0 0 0 0 0 0 0", 1, 1),
        (b"# \xff;\n\n0 0 0 0 0 0 0 g\n0 1 2", 3, 1),
        (b"0 0 0 0 0 0 0 g 0 # 0", 1, 1),
    ] {
        assert_eq!(rt;
            fault_of(rt.alloc(), text),
            Some(TapeFault::Bad { line, kind }),
            "{text:?}"
        );
    }
    Ok(())
}

#[test]
fn faults_behind_eight_claims(rt: HostRuntime) -> Result<(), Fail> {
    for (before, after, line, kind) in [
        ("", ";0 0 0 0 0 0 0 0", 1, 3),
        ("# none\n\n", " ; 0 0 0 0 0 0 0 0\n", 3, 3),
        ("", ";0 0 0 0 0 0 0", 1, 2),
        ("0;", "", 1, 2),
        ("", ";0 0 0 0 0 0 0 x", 1, 1),
        ("", ";0 0 0 0 0 0 0 0;0 1 2 x", 1, 1),
    ] {
        let text = format!(in rt.alloc(); "{before}{EIGHT}{after}")?;
        let due = Some(TapeFault::Bad { line, kind });
        assert_eq!(rt; fault_of(rt.alloc(), text.as_bytes()), due, "{text}");
    }
    Ok(())
}

/// Why a text is no tape, if it is none.
fn fault_of(alloc: Global, text: &[u8]) -> Option<TapeFault> {
    Tape::read(alloc, text).err()
}

/// What the core of a tape hands over in some calls, a line for each.
fn played(alloc: Global, tape: &str, calls: u64) -> Result<Vec<u8>, Fail> {
    let tape = Tape::read(alloc, tape.as_bytes())?;
    let mut core = TapeCore::new(&tape);
    let mut text = Vec::new(alloc);
    for cycle in 0..calls {
        let list = list_of(alloc, &mut core, cycle, 0)?;
        push_line(&mut text, list.as_slice())?;
    }
    Ok(text)
}

/// Appends the pieces of a list, and a line feed.
fn push_line(text: &mut Vec<u8>, list: &[Claim]) -> Result<(), AllocError> {
    let mut first = true;
    for claim in list {
        text.extend_from_slice(tape_piece(claim, first).bytes())?;
        first = false;
    }
    text.push(b'\n')?;
    Ok(())
}

#[test]
fn lists_of_a_tape(rt: HostRuntime) -> Result<(), Fail> {
    for (text, calls, due) in [
        ("", 2, "\n\n"),
        (
            "\n\n\n\n\n\n\n\n\n0 500093 0 0 0 4 4 0",
            11,
            "\n\n\n\n\n\n\n\n\n00000000 00500093 00000000 00000000 00000000 00000004 00000004 00000000\n\n",
        ),
        (
            "# ;\n1 2 3 4 5 6 7 8;9 aB Cd 0000000e F 10 fFFFffff 12 # ; x\n \t\r\n1 0 0 0 0 0 0 0\r\n",
            4,
            "\n00000001 00000002 00000003 00000004 00000005 00000006 00000007 00000008 ; \
00000009 000000ab 000000cd 0000000e 0000000f 00000010 ffffffff 00000012\n\n\
00000001 00000000 00000000 00000000 00000000 00000000 00000000 00000000\n",
        ),
    ] {
        let written = played(rt.alloc(), text, calls)?;
        assert_eq!(rt; written.as_slice(), due.as_bytes(), "{text:?}");
    }
    Ok(())
}

#[test]
fn eight_claims_in_a_call(rt: HostRuntime) -> Result<(), Fail> {
    let written = played(rt.alloc(), EIGHT, 2)?;
    assert_eq!(rt; written.len(), 8 * 71 + 7 * 3 + 2);
    Ok(())
}

#[test]
fn pieces(rt: HostRuntime) -> Result<(), Fail> {
    for (first, due) in [
        (
            true,
            "00000000 00500093 00000000 00000000 00000000 00000005 00000004 00000000",
        ),
        (
            false,
            " ; 00000000 00500093 00000000 00000000 00000000 00000005 00000004 00000000",
        ),
    ] {
        assert_eq!(rt; tape_piece(&ADDS, first).bytes(), due.as_bytes());
    }
    Ok(())
}
