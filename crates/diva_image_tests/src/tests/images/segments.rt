// Images in version 2 that are read, and the faults of such.
use diva_image::{Image, ImageFault, read};
use diva_test_programs::{FIVE_SEGMENTED, altered, file_of};
use std::alloc::Global;
use std::process::Abort;
use std::test::Fail;

/// The kind and the place of a fault, `None` where bytes are an image.
type Due = Option<(u8, u32)>;

/// Compares the fault of these bytes.
fn compare_fault(rt: &impl Abort, alloc: Global, file: &[u8], due: Due, name: &str) {
    let due = due.map(|(kind, place)| ImageFault::Bad { kind, place });
    assert_eq!(rt; read(alloc, file).err(), due, "{name}");
}

/// Headers with nothing behind them: version, base, size, entry and the last number.
static HEADERS: [([u32; 5], Due); 38] = [
    // The version.
    ([0, 0x1000, 0x100, 0x1000, 0], Some((3, 4))),
    ([1, 0x1000, 0x100, 0x1000, 0], None),
    ([2, 0x1000, 0x100, 0x1000, 0], None),
    ([3, 0x1000, 0x100, 0x1000, 0], Some((3, 4))),
    ([0x101, 0x1000, 0x100, 0x1000, 0], Some((3, 4))),
    ([0x102, 0x1000, 0x100, 0x1000, 0], Some((3, 4))),
    ([0x0200_0000, 0x1000, 0x100, 0x1000, 0], Some((3, 4))),
    ([3, 0x1002, 0x100, 0x1000, 0], Some((3, 4))),
    // Base.
    ([2, 0x1001, 0x100, 0x1004, 0], Some((4, 8))),
    ([2, 0x1002, 0x100, 0x1004, 0], Some((4, 8))),
    ([2, 0x1004, 0x100, 0x1004, 0], None),
    ([2, 0x1001, 0, 0x1001, 0], Some((4, 8))),
    // Size.
    ([2, 0x1000, 0, 0x1000, 0], Some((5, 12))),
    ([2, 0x1000, 4, 0x1000, 0], None),
    ([2, 0x1000, 6, 0x1000, 0], Some((5, 12))),
    ([2, 0x1000, 0x0100_0000, 0x1000, 0], None),
    ([2, 0x1000, 0x0100_0004, 0x1000, 0], Some((5, 12))),
    ([2, 0xffff_fffc, 4, 0xffff_fffc, 0], None),
    ([2, 0xffff_fffc, 8, 0xffff_fffc, 0], Some((5, 12))),
    ([2, 0x1000, 0, 0x1001, 0], Some((5, 12))),
    ([2, 0x1000, 6, 0x1000, 17], Some((5, 12))),
    // Entry.
    ([2, 0x1000, 0x100, 0x0ffc, 0], Some((6, 16))),
    ([2, 0x1000, 0x100, 0x1002, 0], Some((6, 16))),
    ([2, 0x1000, 0x100, 0x10fc, 0], None),
    ([2, 0x1000, 0x100, 0x1100, 0], Some((6, 16))),
    ([2, 0xffff_ff00, 0x100, 0xffff_fffc, 0], None),
    ([2, 0xffff_ff00, 0x100, 0, 0], Some((6, 16))),
    ([2, 0x1000, 0x100, 0x1100, 1], Some((6, 16))),
    ([2, 0x1000, 0x100, 0x1100, 17], Some((6, 16))),
    // The number of segments, and the length in version 1.
    ([2, 0x1000, 0x100, 0x1000, 1], Some((11, 24))),
    ([2, 0x1000, 0x100, 0x1000, 16], Some((11, 24))),
    ([2, 0x1000, 0x100, 0x1000, 17], Some((10, 20))),
    ([2, 0x1000, 0x100, 0x1000, 0x2000_0000], Some((10, 20))),
    ([2, 0x1000, 0x100, 0x1000, 0xffff_ffff], Some((10, 20))),
    ([1, 0x1000, 0x100, 0x1000, 17], Some((8, 24))),
    ([1, 0x1000, 0x100, 0x1000, 0x100], Some((8, 24))),
    ([1, 0x1000, 0x100, 0x1000, 0x101], Some((7, 20))),
    ([1, 0x1000, 0x100, 0x1000, 0xffff_ffff], Some((7, 20))),
];

#[test]
fn headers_of_both_versions(rt: HostRuntime) -> Result<(), Fail> {
    let alloc = rt.alloc();
    for &(header, due) in &HEADERS {
        let name = format!(in alloc; "{header:?}")?;
        let file = file_of(alloc, header, &[], &[])?;
        compare_fault(&rt, alloc, &file, due, name.as_str());
    }
    Ok(())
}

/// An image of one segment, of each length and with each of its letters changed. A file that is too short is told before
/// its letters, and they are told before the version.
#[test]
fn one_segment_cut_or_altered(rt: HostRuntime) -> Result<(), Fail> {
    let alloc = rt.alloc();
    for len in 0..46 {
        let due = match len {
            0..24 => Some((1, len)),
            24..32 => Some((11, len)),
            32..44 => Some((8, len)),
            44 => None,
            _ => Some((9, 44)),
        };
        let name = format!(in alloc; "{len} bytes")?;
        let file = altered(alloc, &FIVE_SEGMENTED, len as usize, 0, b'D')?;
        compare_fault(&rt, alloc, &file, due, name.as_str());
    }
    for at in 0..4 {
        let name = format!(in alloc; "letter {at}")?;
        for (len, due) in [(23, (1, 23)), (44, (2, 0))] {
            let other = altered(alloc, &FIVE_SEGMENTED, len, 4, 3)?;
            let file = altered(alloc, &other, len, at, b'd')?;
            compare_fault(&rt, alloc, &file, Some(due), name.as_str());
        }
    }
    Ok(())
}

/// Base and size of an image, which is entered at its base.
type Memory = (u32, u32);

/// It ends at 128.
const LOW: Memory = (64, 64);

/// It ends where the addresses do.
const HIGH: Memory = (0xffff_ff00, 0x100);

/// An address sixteen bytes below that end.
const TOP: u32 = 0xffff_fff0;

/// A header of version 2, of these numbers.
fn header_of((base, size): Memory, count: u32) -> [u32; 5] {
    [2, base, size, base, count]
}

/// The number of segments, the pairs that stand there, how many bytes follow them, and the kind and the place of the fault.
static REFUSED: [(Memory, u32, &[(u32, u32)], usize, u8, u32); 28] = [
    // More segments than a file may have: their pairs are missing, or bad.
    (LOW, 17, &[], 1, 10, 20),
    (LOW, 17, &[(64, 0); 17], 0, 10, 20),
    // The last pair is cut short, and another one is bad.
    (LOW, 2, &[(64, 0)], 7, 11, 39),
    (LOW, 16, &[(64, 0); 15], 7, 11, 151),
    // One segment, which has no bytes, begins too low, or ends too high.
    (LOW, 1, &[(64, 0)], 0, 12, 24),
    (LOW, 1, &[(128, 0)], 0, 12, 24),
    (LOW, 1, &[(63, 4)], 4, 12, 24),
    (LOW, 1, &[(125, 4)], 4, 12, 24),
    (LOW, 1, &[(64, 65)], 65, 12, 24),
    (LOW, 1, &[(64, 0xffff_ffff)], 8, 12, 24),
    (HIGH, 1, &[(TOP, 17)], 17, 12, 24),
    ((0xffff_ff00, 0xfc), 1, &[(TOP, 16)], 16, 12, 24),
    // Two segments, which overlap, or of which the upper one comes first.
    (LOW, 2, &[(64, 5), (68, 4)], 9, 12, 32),
    (LOW, 2, &[(80, 4), (64, 4)], 8, 12, 32),
    (HIGH, 2, &[(TOP, 16), (TOP, 16)], 32, 12, 32),
    // Three bad segments, the first of which has no bytes, begins below base, begins below the end of the one before it, ends
    // behind memory, or ends behind all addresses.
    (LOW, 4, &[(70, 4), (80, 0), (60, 4), (126, 4)], 12, 12, 32),
    (LOW, 3, &[(60, 4), (126, 4), (80, 0)], 8, 12, 24),
    (LOW, 4, &[(72, 8), (79, 4), (96, 0), (126, 4)], 16, 12, 32),
    (LOW, 4, &[(70, 4), (126, 4), (80, 0), (60, 4)], 12, 12, 32),
    (HIGH, 3, &[(TOP, 32), (TOP, 0), (0, 4)], 36, 12, 24),
    // More segments than memory has bytes.
    ((64, 4), 5, &[(64, 1); 5], 5, 12, 32),
    // A bad segment, and bytes that are missing, or one too many.
    (LOW, 2, &[(64, 4), (72, 0)], 0, 12, 32),
    (LOW, 1, &[(64, 0)], 1, 12, 24),
    // Bytes that are missing, or too many.
    (LOW, 1, &[(64, 4)], 0, 8, 32),
    (LOW, 2, &[(64, 4), (80, 6)], 9, 8, 49),
    (LOW, 2, &[(64, 4), (80, 6)], 11, 9, 50),
    (LOW, 0, &[], 1, 9, 24),
    (LOW, 0, &[(64, 0)], 0, 9, 24),
];

#[test]
fn segments_with_a_fault(rt: HostRuntime) -> Result<(), Fail> {
    let alloc = rt.alloc();
    for &(memory, count, pairs, len, kind, place) in &REFUSED {
        let bytes = vec![in alloc; 0x11; len]?;
        let file = file_of(alloc, header_of(memory, count), pairs, &bytes)?;
        let name = format!(in alloc; "{memory:?} {count} {pairs:?} {len}")?;
        compare_fault(&rt, alloc, &file, Some((kind, place)), name.as_str());
    }
    Ok(())
}

/// The pairs of some segments, their bytes, and the payload that they make.
static READ: [(Memory, &[(u32, u32)], &[u8], &[u8]); 9] = [
    (LOW, &[], b"", b""),
    (LOW, &[(64, 1)], b"a", b"a"),
    (LOW, &[(64, 5), (69, 3)], b"abcdefgh", b"abcdefgh"),
    (LOW, &[(66, 1), (70, 2)], b"abc", b"\0\0a\0\0\0bc"),
    (LOW, &[(65, 1), (67, 1)], b"\0\0", b"\0\0\0\0"),
    ((64, 4), &[(64, 4)], b"abcd", b"abcd"),
    ((64, 8), &[(69, 3)], b"abc", b"\0\0\0\0\0abc"),
    ((0xffff_fffc, 4), &[(0xffff_fffe, 2)], b"ab", b"\0\0ab"),
    ((64, 0x0100_0000), &[(64, 1)], b"a", b"a"),
];

#[test]
fn segments_that_are_read(rt: HostRuntime) -> Result<(), Fail> {
    let alloc = rt.alloc();
    for &(memory, pairs, bytes, payload) in &READ {
        let header = header_of(memory, u32::try_from(pairs.len())?);
        let image = read(alloc, &file_of(alloc, header, pairs, bytes)?)?;
        compare_image(&rt, &image, memory, payload);
    }
    Ok(())
}

/// Compares the parts of an image that is entered at its base.
fn compare_image(rt: &impl Abort, image: &Image, (base, size): Memory, payload: &[u8]) {
    let parts = (image.base, image.size, image.entry);
    assert_eq!(rt; parts, (base, size, base));
    assert_eq!(rt; image.payload.bytes(), payload, "{base:x} {size:x}");
}

/// Memory that has room for seventeen segments.
const ROOMY: Memory = (64, 256);

/// So many segments of the bytes `abcd`, each of which begins eight bytes behind the one before it.
fn apart(alloc: Global, count: u32) -> Result<Vec<u8>, Fail> {
    let mut pairs = Vec::new(alloc);
    for n in 0..count {
        pairs.push((n.wrapping_mul(8).wrapping_add(64), 4))?;
    }
    let bytes = "abcd".repeat(alloc, count as usize)?;
    Ok(file_of(alloc, header_of(ROOMY, count), &pairs, bytes.as_bytes())?)
}

/// Sixteen segments are read. Their table ends at 152, and their bytes at 216. At 144 stands the last pair, whose length is at
/// 148, and at 20 how many there are.
#[test]
fn as_many_segments_as_there_may_be(rt: HostRuntime) -> Result<(), Fail> {
    let alloc = rt.alloc();
    let sixteen = apart(alloc, 16)?;
    let payload = "abcd\0\0\0\0".repeat(alloc, 16)?;
    let payload = payload.as_bytes().get(..124).ok_or("it is shorter")?;
    compare_image(&rt, &read(alloc, &sixteen)?, ROOMY, payload);
    for (len, at, byte, kind, place) in [
        (151, 0, b'D', 11, 151),
        (152, 0, b'D', 8, 152),
        (215, 0, b'D', 8, 215),
        (217, 0, b'D', 9, 216),
        (216, 148, 0, 12, 144),
        (216, 148, 5, 8, 216),
        (216, 20, 17, 10, 20),
    ] {
        let file = altered(alloc, &sixteen, len, at, byte)?;
        let name = format!(in alloc; "{len} {at} {byte}")?;
        compare_fault(&rt, alloc, &file, Some((kind, place)), name.as_str());
    }
    compare_fault(&rt, alloc, &apart(alloc, 17)?, Some((10, 20)), "seventeen");
    Ok(())
}
