// What is inside memory and read at its ends, and which bytes are apart from stores.
use diva_memory::{Interval, Memory, Span};
use std::test::Fail;

/// An address, a number of bytes, and whether they are inside the eight bytes from 32 on.
static INSIDE: [(u32, u32, bool); 11] = [
    (32, 8, true),
    (32, 9, false),
    (31, 1, false),
    (31, 2, false),
    (39, 1, true),
    (39, 2, false),
    (40, 0, true),
    (40, 1, false),
    (41, 0, false),
    (0xffff_ffff, 1, false),
    (0xffff_ffff, 34, false),
];

/// What is read of them at an address: the byte, the half word and the word. A half word may stand anywhere.
static READS: [(u32, Option<u8>, Option<u16>, Option<u32>); 7] = [
    (31, None, None, None),
    (32, Some(0x11), Some(0x2211), Some(0x4433_2211)),
    (33, Some(0x22), Some(0x3322), None),
    (36, Some(0x55), Some(0x6655), Some(0x8877_6655)),
    (38, Some(0x77), Some(0x8877), None),
    (39, Some(0x88), None, None),
    (40, None, None, None),
];

#[test]
fn bytes_at_the_ends_of_memory(rt: HostRuntime) -> Result<(), Fail> {
    let bytes = [0x11, 0x22, 0x33, 0x44, 0x55, 0x66, 0x77, 0x88];
    let memory = Memory::new(rt.alloc(), 32, 8, &bytes)?;
    for &(addr, n, due) in &INSIDE {
        assert_eq!(rt; memory.inside(addr, n), due, "{addr}, {n}");
    }
    for &(addr, byte, half, word) in &READS {
        let read = (memory.byte(addr), memory.half(addr), memory.word(addr));
        assert_eq!(rt; read, (byte, half, word), "{addr}");
    }
    Ok(())
}

/// The last word that there is.
#[test]
fn bytes_up_to_the_last_address(rt: HostRuntime) -> Result<(), Fail> {
    let memory = Memory::new(rt.alloc(), 0xffff_fffc, 4, &[])?;
    assert_eq!(rt; memory.word(0xffff_fffc), Some(0));
    assert_eq!(rt;
        [
            memory.inside(0xffff_fffc, 4),
            memory.inside(0xffff_ffff, 1),
            memory.inside(0xffff_ffff, 2),
            memory.inside(0, 1)
        ],
        [true, true, false, false]
    );
    Ok(())
}

/// A word at 40, and then a byte at 32 too: what lies between the two is not apart, though neither stores there.
#[test]
fn bytes_apart_from_an_interval(rt: HostRuntime) {
    let mut interval = Interval::empty();
    assert_eq!(rt; apart(&interval), [true; 5]);
    interval.widen(40, 4);
    assert_eq!(rt; apart(&interval), [true, true, true, false, true]);
    interval.widen(32, 1);
    assert_eq!(rt; apart(&interval), [true, false, false, false, true]);
}

/// Whether the byte at 31, that at 32, the four at 36, the four at 37, and those up to the last address are apart.
fn apart(interval: &Interval) -> [bool; 5] {
    [
        interval.is_apart(31, 1),
        interval.is_apart(32, 1),
        interval.is_apart(36, 4),
        interval.is_apart(37, 4),
        interval.is_apart(44, 0xffff_ffd4),
    ]
}

/// A store at place 2 is the youngest. It is in the span while one item of the first three is left; the next one makes the
/// interval anew.
#[test]
fn bytes_apart_from_a_span(rt: HostRuntime) {
    let mut span = Span::none();
    assert!(rt; span.is_apart(40, 4));
    span.extend(2, 40, 4);
    span.drop_oldest(2);
    assert!(rt; !span.is_apart(43, 1));
    span.drop_oldest(1);
    assert!(rt; span.is_apart(43, 1));
    span.extend(0, 8, 4);
    assert!(rt; span.is_apart(43, 1));
    assert!(rt; !span.is_apart(8, 1));
}
