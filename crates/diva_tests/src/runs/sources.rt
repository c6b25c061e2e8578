// Sources that are assembled, images that are listed, and what is refused of both.
use super::{Outside, compare, run_program};
use crate::cores::flipped;
use diva_test_programs::{FIVE_FILE, Program, image_file, program};
use std::alloc::Global;
use std::test::Fail;

/// The source of `FIVE`.
pub(super) const FIVE_SOURCE: &[u8] = b".size 64\naddi x1, x0, 5\nli a7, 93\necall\n";

/// The listing of `FIVE`.
pub(super) const FIVE_LISTING: &str = "\
00000000 00500093 addi x1, x0, 5
00000004 05d00893 addi x17, x0, 93
00000008 00000073 ecall
";

/// A jump forward and a branch back.
const BOTH_WAYS_SOURCE: &[u8] = b"a: j b\nb: bne x1, x0, a";

/// The program of that source, whose size is the least that holds its words.
const BOTH_WAYS: Program = Program {
    size: 8,
    words: &[0x0040006f, 0xfe009ee3],
};

/// A source and no image.
fn with_source(alloc: Global, source: &[u8]) -> Result<Outside, Fail> {
    Ok(Outside {
        source: Vec::from_slice(alloc, source)?,
        ..Outside::sound(alloc, Vec::new(alloc))
    })
}

#[test]
fn sources_that_are_assembled(rt: HostRuntime) -> Result<(), Fail> {
    let alloc = rt.alloc();
    for (source, file) in [
        (FIVE_SOURCE, Vec::from_slice(alloc, &FIVE_FILE)?),
        (BOTH_WAYS_SOURCE, image_file(alloc, BOTH_WAYS)?),
    ] {
        let answer = run_program(&mut flipped(), "asm a.s", with_source(alloc, source)?)?;
        assert_eq!(rt; answer.status, 0);
        assert_eq!(rt; answer.text.as_slice(), file.as_slice());
    }
    Ok(())
}

#[test]
fn images_that_are_listed(rt: HostRuntime) -> Result<(), Fail> {
    let alloc = rt.alloc();
    // The payload of the last one ends within its second word, behind which are zeros.
    let mut cut = image_file(alloc, program![0x00000013, 0x00000073])?;
    cut.truncate(29);
    if let Some(length) = cut.get_mut(20) {
        *length = 5;
    }
    for (file, text) in [
        (Vec::from_slice(alloc, &FIVE_FILE)?, FIVE_LISTING),
        (
            image_file(alloc, BOTH_WAYS)?,
            "00000000 0040006f jal x0, 0x00000004\n\
            00000004 fe009ee3 bne x1, x0, 0x00000000\n",
        ),
        (
            cut,
            "00000000 00000013 addi x0, x0, 0\n00000004 00000073 ecall\n",
        ),
        (image_file(alloc, program![])?, ""),
    ] {
        compare(&rt, "dis a.diva", Outside::sound(alloc, file), 0, text)?;
    }
    Ok(())
}

#[test]
fn sources_that_are_refused(rt: HostRuntime) -> Result<(), Fail> {
    let alloc = rt.alloc();
    for (source, text) in [
        (b"addi x1, x0, 2048".as_slice(), "refused source 4 at 1\n"),
        (b"j c", "refused source 5 at 1\n"),
        (b"nop\nj c\nfoo", "refused source 1 at 3\n"),
        (b".size 6", "refused source 11 at 0\n"),
    ] {
        compare(&rt, "asm a.s", with_source(alloc, source)?, 5, text)?;
    }
    let cut = Outside::sound(alloc, Vec::from_slice(alloc, b"DIVA")?);
    compare(&rt, "dis a.diva", cut, 5, "refused image 1 at 4\n")
}

#[test]
fn files_that_are_not_there(rt: HostRuntime) -> Result<(), Fail> {
    let alloc = rt.alloc();
    for (line, text) in [
        ("asm b.s", "unreadable source\n"),
        ("asm -", "unreadable source\n"),
        ("dis b.diva", "unreadable image\n"),
    ] {
        compare(&rt, line, with_source(alloc, b"")?, 8, text)?;
    }
    Ok(())
}
