// Images in version 1: one that is read and written, and faults of it.
mod migrated;
mod segments;

use diva_image::{ImageFault, read, write};
use std::test::Fail;

/// An image of three words, which lie at 0 in a memory of 64 bytes and are entered at 0; and one byte more.
static BYTES: [u8; 37] = [
    0x44, 0x49, 0x56, 0x41, 0x01, 0, 0, 0, 0, 0, 0, 0, 0x40, 0, 0, 0, 0, 0, 0, 0, 0x0c, 0, 0, 0,
    0x93, 0x00, 0x50, 0x00, 0x93, 0x08, 0xd0, 0x05, 0x73, 0, 0, 0, 0,
];

#[test]
fn an_image_is_read_and_written(rt: HostRuntime) -> Result<(), Fail> {
    let image = read(rt.alloc(), &BYTES[..36])?;
    let parts = (image.base, image.size, image.entry, image.payload.bytes());
    assert_eq!(rt; parts, (0, 64, 0, &BYTES[24..36]));
    assert_eq!(rt; write(rt.alloc(), &image)?.as_slice(), &BYTES[..36]);
    Ok(())
}

#[test]
fn images_with_a_fault(rt: HostRuntime) {
    for (len, kind, place) in [(37, 9, 36), (35, 8, 35), (23, 1, 23)] {
        let fault = read(rt.alloc(), &BYTES[..len]).err();
        assert_eq!(rt; fault, Some(ImageFault::Bad { kind, place }), "{len} bytes");
    }
}
