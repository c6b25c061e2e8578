// Images in version 2: they are run and listed as in version 1, refused by their own faults, and written by `migrate`.
use super::refusals::compare_refused;
use super::sources::FIVE_LISTING;
use super::{FIVE_TEXT, Outside, compare, run_unasked};
use diva_test_programs::{FIVE_FILE, FIVE_SEGMENTED, altered, file_of, laid};
use std::alloc::Global;
use std::process::Abort;
use std::test::Fail;

#[test]
fn segments_that_are_run_and_listed(rt: HostRuntime) -> Result<(), Fail> {
    let alloc = rt.alloc();
    for (line, text) in [
        ("run a.diva --core lockstep", FIVE_TEXT),
        ("dis a.diva", FIVE_LISTING),
    ] {
        let outside = Outside::sound(alloc, Vec::from_slice(alloc, &FIVE_SEGMENTED)?);
        compare(&rt, line, outside, 0, text)?;
    }
    Ok(())
}

/// The image of `FIVE` in version 2 with another length and one byte changed, and the kind and the place of its fault.
static REFUSED: [(usize, usize, u8, u8, u32); 8] = laid! {
    (24, 0, b'D', 11, 24), (31, 0, b'D', 11, 31), (32, 0, b'D', 8, 32), (43, 0, b'D', 8, 43), (45, 0, b'D', 9, 44), (44, 4, 3, 3, 4),
    (44, 20, 17, 10, 20), (44, 28, 0, 12, 24),
};

#[test]
fn segments_that_are_refused(rt: HostRuntime) -> Result<(), Fail> {
    let alloc = rt.alloc();
    for &(len, at, byte, kind, place) in &REFUSED {
        for line in ["run a.diva", "migrate a.diva"] {
            let file = altered(alloc, &FIVE_SEGMENTED, len, at, byte)?;
            compare_refused(&rt, alloc, line, file, kind, place)?;
        }
    }
    Ok(())
}

/// Segments of an image of 192 bytes at 0: addresses and lengths, their bytes, and how many zeros follow these.
type Segments = (&'static [(u32, u32)], &'static [u8], usize);

/// Segments as somebody laid them, and as they are written. A block has 64 bytes, but for the last one, which ends where the
/// last segment does.
static MIGRATED: [(Segments, Segments); 7] = [
    // They touch; they stand apart in one block; one begins within a block, and one ends where a block does.
    ((&[(0, 4), (4, 2)], b"abcdef", 0), (&[(0, 6)], b"abcdef", 0)),
    ((&[(0, 2), (4, 2)], b"abcd", 0), (&[(0, 6)], b"ab\0\0cd", 0)),
    ((&[(66, 2)], b"ab", 0), (&[(64, 4)], b"\0\0ab", 0)),
    ((&[(0, 2), (63, 1)], b"ab", 1), (&[(0, 64)], b"ab", 62)),
    // Blocks of zeros are left out, before others and behind them.
    ((&[(0, 1), (66, 1)], b"\0a", 0), (&[(64, 3)], b"\0\0a", 0)),
    ((&[(0, 2), (64, 3)], b"ab", 3), (&[(0, 64)], b"ab", 62)),
    ((&[(4, 4), (100, 2)], b"", 6), (&[], b"", 0)),
];

#[test]
fn images_that_are_migrated(rt: HostRuntime) -> Result<(), Fail> {
    let alloc = rt.alloc();
    let five = Vec::from_slice(alloc, &FIVE_FILE)?;
    compare_migrated(&rt, alloc, five, &FIVE_SEGMENTED)?;
    for &(given, due) in &MIGRATED {
        let due = segmented(alloc, due)?;
        compare_migrated(&rt, alloc, segmented(alloc, given)?, &due)?;
    }
    Ok(())
}

/// The file of these segments.
fn segmented(alloc: Global, (pairs, bytes, zeros): Segments) -> Result<Vec<u8>, Fail> {
    let header = [2, 0, 192, 0, u32::try_from(pairs.len())?];
    let mut file = file_of(alloc, header, pairs, bytes)?;
    file.resize(file.len().saturating_add(zeros), 0)?;
    Ok(file)
}

/// Compares what `migrate` writes of an image, in one put, and what it then writes of that.
fn compare_migrated(rt: &impl Abort, alloc: Global, file: Vec<u8>, due: &[u8]) -> Result<(), Fail> {
    for file in [file, Vec::from_slice(alloc, due)?] {
        let answer = run_unasked(rt, "migrate a.diva", Outside::sound(alloc, file))?;
        assert_eq!(rt; answer.status, 0);
        assert_eq!(rt; answer.text.as_slice(), due);
    }
    Ok(())
}
