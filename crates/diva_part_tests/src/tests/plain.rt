// Three instructions on the plain machine, up to its end, one by one and several at once.
use diva_isa::Plain;
use diva_test_programs::{ADDS, HALTS};
use std::test::Fail;

/// `addi x1, x0, 5`, `addi x17, x0, 93` and `ecall`, which halts with what x10 holds.
const PROGRAM: [u8; 12] = [
    0x93, 0x00, 0x50, 0x00, 0x93, 0x08, 0xd0, 0x05, 0x73, 0x00, 0x00, 0x00,
];

#[test]
fn three_instructions(rt: HostRuntime) -> Result<(), Fail> {
    let mut plain = Plain::new(rt.alloc(), 0, 64, 0, &PROGRAM)?;
    assert_eq!(rt; plain.record(), Some(ADDS));
    plain.step();
    assert_eq!(rt; plain.reg(1), 5);
    plain.run(8);
    assert_eq!(rt; plain.record(), None);
    assert_eq!(rt; plain.ended(), 256);
    assert_eq!(rt; plain.count(), 3);
    assert_eq!(rt; plain.byte(8), Some(0x73));
    assert_eq!(rt; plain.byte(64), None);
    assert!(rt; plain.output().is_empty());
    Ok(())
}

#[test]
fn a_run_without_a_machine(rt: HostRuntime) -> Result<(), Fail> {
    let mut plain = Plain::new(rt.alloc(), 0, 64, 0, &PROGRAM)?;
    let first = plain.record();
    plain.run(2);
    let third = plain.record();
    plain.run(1);
    assert_eq!(rt;
        (first, third, plain.record()),
        (Some(ADDS), Some(HALTS), None)
    );
    assert_eq!(rt; (plain.count(), plain.ended(), plain.reg(1)), (3, 256, 5));
    Ok(())
}
