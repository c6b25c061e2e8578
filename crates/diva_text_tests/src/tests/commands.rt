// Commands of a session: each kind of fault, and each command.
use diva_debug::{Command, CommandFault, MemRange, RegisterNumber, StepCount, commands};
use diva_test_programs::laid;
use std::test::Fail;

/// Texts with the line and the kind of their first fault.
static FAULTS: [(&str, u64, u8); 26] = laid! {
    ("jump 1", 1, 1), ("why\r\nwhy1", 2, 1), ("STEP 1", 1, 1), ("backs 1", 1, 1), ("step 0", 1, 2), ("step 1000001", 1, 2),
    ("step 00000000001", 1, 2), ("step x 2", 1, 2), ("until 123456789", 1, 2), ("back 0", 1, 2), ("back 1000001", 1, 2), ("back x", 1, 2),
    ("reg 32", 1, 2), ("mem g 1 1", 1, 2), ("mem 0 0", 1, 2), ("mem 0 33", 1, 2), ("mem ffffffff 2", 1, 2), ("step", 1, 3),
    ("step # 1", 1, 3), ("step 1 2", 1, 3), ("back", 1, 3), ("back 1 2", 1, 3), ("mem 0", 1, 3), ("mem ffffffff 1 1", 1, 3),
    ("why 1", 1, 3), ("\n# jump\n step 1\nstep\njump", 4, 3),
};

#[test]
fn first_faults(rt: HostRuntime) {
    for &(text, line, kind) in &FAULTS {
        let fault = commands(rt.alloc(), text.as_bytes()).err();
        assert_eq!(rt; fault, Some(CommandFault::Bad { line, kind }), "{text:?}");
    }
}

#[test]
fn all_commands(rt: HostRuntime) -> Result<(), Fail> {
    let text = b"step 01\r\n\n\tuntil fF # \xff\nback 1000000\n reg 31\nmem FFFFFFE0 32\nwhy";
    let read = commands(rt.alloc(), text)?;
    let due = [
        Command::Step(StepCount::new(1).ok_or("a step")?),
        Command::Until(0xff),
        Command::Back(StepCount::new(1_000_000).ok_or("the most")?),
        Command::Reg(RegisterNumber::new(31).ok_or("a register")?),
        Command::Mem(MemRange::new(0xffff_ffe0, 32).ok_or("the last bytes")?),
        Command::Why,
    ];
    assert_eq!(rt; read.as_slice(), due.as_slice());
    Ok(())
}
