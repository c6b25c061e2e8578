// Words both ways: those that an assembler made, FENCE, and some outside the table.

mod encodings;

use diva_decode::{Instr, Op, decode, encode, valid};
use encodings::{ENCODINGS, Encoding, OUTSIDE};
use std::test::Fail;

#[test]
fn words_outside_the_table_and_fence(rt: HostRuntime) -> Result<(), Fail> {
    for &word in &OUTSIDE {
        assert_eq!(rt; decode(word), None, "at {word:08x}");
    }

    let fence = Instr {
        op: Op::Fence,
        rd: 0,
        rs1: 0,
        rs2: 0,
        imm: 0,
    };
    assert!(rt; valid(&fence));
    assert_eq!(rt; encode(&fence), 0x0ff0_000f);
    Ok(())
}

#[test]
fn words_of_the_gnu_assembler(rt: HostRuntime) -> Result<(), Fail> {
    for &Encoding(word, op, rd, rs1, rs2, imm) in &ENCODINGS {
        let instr = Instr {
            op,
            rd,
            rs1,
            rs2,
            imm,
        };
        assert_eq!(rt; decode(word), Some(instr), "at {word:08x}");
        assert!(rt; valid(&instr), "at {word:08x}");
        assert_eq!(rt; encode(&instr), word, "at {word:08x}");
    }
    Ok(())
}
