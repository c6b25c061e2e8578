// Images of seeds that were worked out by hand, or by a program of another language.
use diva_soak::soak_image;
use std::test::Fail;

/// From the seed 1 the first number is 3c88596c: kind 1, x8, x2, x1, so sub x8, x2, x1. The halt follows it.
#[test]
fn image_of_one_instruction(rt: HostRuntime) -> Result<(), Fail> {
    let image = soak_image(rt.alloc(), 1, 1)?;
    assert_eq!(rt; (image.base, image.size, image.entry), (0, 2064, 2048));
    let code = [
        0x33, 0x04, 0x11, 0x40, 0x13, 0, 0, 0, 0x93, 0x08, 0xd0, 0x05, 0x73, 0, 0, 0,
    ];
    let mut due = Vec::from_slice(rt.alloc(), &[0; 2048])?;
    due.extend_from_slice(&code)?;
    assert_eq!(rt; image.payload.bytes(), due.as_slice());
    Ok(())
}

/// The first 24 words of the seed 7, of all kinds but one twice. A program in Python worked them out, which puts each word together
/// from the manual's formats.
static OF_SEVEN: [u32; 24] = [
    0x40318433, 0x55802183, 0x02516433, 0x75402203, 0x0cf10213, 0x24202823, 0x0070c433, 0x43020213,
    0x5ea20293, 0x1a402383, 0x4e002383, 0x0210e1b3, 0x023402b3, 0x0240e233, 0x027363b3, 0x26102423,
    0x0e302223, 0x021381b3, 0x026183b3, 0x30302423, 0x00514433, 0x025383b3, 0x4bb40313, 0x00544463,
];

#[test]
fn words_of_seven(rt: HostRuntime) -> Result<(), Fail> {
    let image = soak_image(rt.alloc(), 7, 24)?;
    let bytes = image.payload.bytes();
    assert_eq!(rt; bytes.len(), 2048 + 4 * 27);
    for (bytes, word) in bytes.chunks(4).skip(512).zip(OF_SEVEN.iter()) {
        assert_eq!(rt; bytes, word.to_le_bytes().as_slice());
    }
    Ok(())
}
