// Images that are written in version 2, and read again.
ghost use Rattle.std.specs.Prelude.{◌<◌};

use diva_image::{Image, read, write, write2};
use diva_test_programs::file_of;
use std::alloc::Global;
use std::process::Abort;
use std::test::Fail;

/// Compares what is written of an image of 4,096 bytes that is entered at its base. Its payload has so many bytes, of which
/// those at these places are letters and the others 0; and the segments are due that these pairs name.
fn compare_written(
    rt: &impl Abort,
    alloc: Global,
    base: u32,
    len: usize,
    places: &[usize],
    pairs: &[(u32, u32)],
) -> Result<(), Fail> {
    let mut payload = vec![in alloc; 0; len]?;
    let mut letter = b'a';
    for &place in places {
        if let Some(byte) = payload.get_mut(place) {
            *byte = letter;
            letter = letter.wrapping_add(1);
        }
    }
    let mut bytes = Vec::new(alloc);
    for &(addr, len) in pairs {
        let from = addr.wrapping_sub(base) as usize;
        let segment = payload
            .get(from..from + len as usize)
            .ok_or("no such segment")?;
        bytes.extend_from_slice(segment)?;
    }
    let header = [2, base, 4096, base, u32::try_from(pairs.len())?];
    let due = file_of(alloc, header, pairs, &bytes)?;
    let image = Image::new(base, 4096, base, payload).ok_or("no image")?;
    assert_eq!(rt;
        write2(alloc, &image)?.as_slice(),
        due.as_slice(),
        "{base:x} {len} {places:?}"
    );
    Ok(())
}

/// The base of an image, the length of its payload, the places of bytes that are not 0, and the segments that are due.
static WRITTEN: [(u32, usize, &[usize], &[(u32, u32)]); 19] = [
    // Zeros alone, or nothing.
    (0x1000, 0, &[], &[]),
    (0x1000, 1, &[], &[]),
    (0x1000, 64, &[], &[]),
    (0x1000, 200, &[], &[]),
    // A block with one letter, at its either end; the block behind it is one of a zero.
    (0x1000, 64, &[0], &[(0x1000, 64)]),
    (0x1000, 65, &[63], &[(0x1000, 64)]),
    // The payload ends within a block.
    (0x1000, 12, &[0], &[(0x1000, 12)]),
    (0x1000, 65, &[64], &[(0x1040, 1)]),
    (0x1000, 100, &[70], &[(0x1040, 36)]),
    (0x1000, 100, &[0, 99], &[(0x1000, 100)]),
    // Blocks that touch are one segment, and such that do not are two.
    (0x1000, 192, &[63, 64], &[(0x1000, 128)]),
    (0x1000, 192, &[64, 191], &[(0x1040, 128)]),
    (0x1000, 192, &[0, 191], &[(0x1000, 64), (0x1080, 64)]),
    (0, 300, &[0, 64, 192, 299], &[(0, 128), (192, 108)]),
    // Blocks are counted from base.
    (0x1004, 192, &[60], &[(0x1004, 64)]),
    (0x103c, 192, &[4], &[(0x103c, 64)]),
    (0x1004, 192, &[63, 128], &[(0x1004, 64), (0x1084, 64)]),
    // The ends of the addresses.
    (0, 4096, &[0, 4095], &[(0, 64), (4032, 64)]),
    (0xffff_f000, 4096, &[4095], &[(0xffff_ffc0, 64)]),
];

#[test]
fn images_in_version_two(rt: HostRuntime) -> Result<(), Fail> {
    for &(base, len, places, pairs) in &WRITTEN {
        compare_written(&rt, rt.alloc(), base, len, places, pairs)?;
    }
    Ok(())
}

/// How many stretches there are, each a block with a block of zeros behind it; the length of the payload; how many segments are
/// due, and the length of the last one. Where there are seventeen stretches, the sixteenth segment begins at 1,920 as the
/// sixteenth stretch does, and goes on to the end of the last block that is not blank.
static STRETCHES: [(u32, usize, u32, u32); 8] = [
    (1, 4096, 1, 64),
    (15, 4096, 15, 64),
    (16, 4096, 16, 64),
    (16, 1921, 16, 1),
    (17, 4096, 16, 192),
    (17, 2049, 16, 129),
    (18, 4096, 16, 320),
    (32, 4096, 16, 2112),
];

#[test]
fn more_stretches_than_segments(rt: HostRuntime) -> Result<(), Fail> {
    let alloc = rt.alloc();
    for &(stretches, len, segments, last) in &STRETCHES {
        let mut places = Vec::new(alloc);
        for n in 0..stretches {
            places.push(128 * n as usize)?;
        }
        let mut pairs = Vec::new(alloc);
        for n in 0..segments {
            pairs.push((n.wrapping_mul(128).wrapping_add(0x1000), 64))?;
        }
        if let Some(pair) = pairs.last_mut() {
            pair.1 = last;
        }
        compare_written(&rt, alloc, 0x1000, len, &places, &pairs)?;
    }
    Ok(())
}

/// Numbers that follow one another.
#[derive(Clone, Copy)]
struct Numbers {
    last: u32,
}

impl Numbers {
    /// The next number below a limit.
    fn below(&mut self, limit: u32) -> u32
        requires { 0 < limit }
        ensures { result < limit }
    {
        self.last = self
            .last
            .wrapping_mul(1_664_525)
            .wrapping_add(1_013_904_223);
        (self.last >> 16) % limit
    }
}

/// An image of at most 4,096 bytes, whose blocks hold one byte that is not 0, or none.
fn drawn(alloc: Global, numbers: &mut Numbers) -> Result<Image, Fail> {
    let words = match numbers.below(2) {
        0 => 1024 - numbers.below(64),
        _ => 1 + numbers.below(1024),
    };
    let size = 4 * words;
    let base = match numbers.below(3) {
        0 => 0,
        1 => 4 * numbers.below(65536),
        _ => 0u32.wrapping_sub(size),
    };
    let entry = base.wrapping_add(4 * numbers.below(words));
    let len = match numbers.below(4) {
        0 => numbers.below(size + 1),
        _ => size,
    };
    let mut payload = vec![in alloc; 0; len as usize]?;
    let blank = 2 + numbers.below(4);
    for block in payload.chunks_mut(64) {
        let place = numbers.below(64);
        let value = 1 + numbers.below(255);
        if numbers.below(8) > blank
            && let Some(byte) = block.get_mut(place as usize)
        {
            *byte = u8::try_from(value)?;
        }
    }
    Ok(Image::new(base, size, entry, payload).ok_or("no image")?)
}

/// What is written in version 1 is read to the same image. What is written in version 2 is read to one that begins the same,
/// and of that the same bytes are written. The number that stands for all bytes of version 2 is that of a program in Python,
/// which drew these images too and wrote them by the format alone; 15 of them have more than sixteen stretches.
#[test]
fn images_that_are_written_and_read(rt: HostRuntime) -> Result<(), Fail> {
    let alloc = rt.alloc();
    let mut numbers = Numbers { last: 1 };
    let mut mark = 0x811c_9dc5;
    for _ in 0..200 {
        let image = drawn(alloc, &mut numbers)?;
        let whole = read(alloc, &write(alloc, &image)?)?;
        compare_places(&rt, &whole, &image);
        assert_eq!(rt; whole.payload.bytes(), image.payload.bytes());
        let bytes = write2(alloc, &image)?;
        let again = read(alloc, &bytes)?;
        compare_places(&rt, &again, &image);
        assert_eq!(rt;
            memory_of(alloc, &again)?.as_slice(),
            memory_of(alloc, &image)?.as_slice()
        );
        assert_eq!(rt; write2(alloc, &again)?.as_slice(), bytes.as_slice());
        mark = marked(mark, &bytes);
    }
    assert_eq!(rt; mark, 0xb6bf_47b4);
    Ok(())
}

/// Compares where the memory of two images lies, and where they are entered.
fn compare_places(rt: &impl Abort, image: &Image, due: &Image) {
    let places = (image.base, image.size, image.entry);
    assert_eq!(rt; places, (due.base, due.size, due.entry));
}

/// The bytes of an image's memory.
fn memory_of(alloc: Global, image: &Image) -> Result<Vec<u8>, Fail> {
    let mut memory = Vec::from_slice(alloc, image.payload.bytes())?;
    memory.resize(image.size as usize, 0)?;
    Ok(memory)
}

/// A number that stands for all bytes so far, with these behind them: FNV-1a in 32 bits.
fn marked(mark: u32, bytes: &[u8]) -> u32 {
    bytes.iter().fold(
        mark,
        |mark, &byte| (mark ^ u32::from(byte)).wrapping_mul(0x0100_0193),
    )
}
