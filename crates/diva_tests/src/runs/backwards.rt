// Sessions that go back through the program: over stores of each width, a put and the end, and over flushes.
use super::sessions::with_commands;
use super::{compare, compare_by};
use diva_ooo::Ooo;
use diva_outside::What;
use diva_test_programs::{FIVE, Program, program};
use std::test::Fail;

/// Stores of each width, a put and a halt: `lui x5, 0x89abc`, `addi x5, x5, 1246`, `sw x5, 48(x0)`, `sh x5, 52(x0)`,
/// `sb x5, 57(x0)`, `addi x17, x0, 1`, `addi x10, x0, 65`, `ecall`, `addi x17, x0, 93`, `ecall`.
const OVERWRITES: Program = program![
    0x89abc2b7, 0x4de28293, 0x02502823, 0x02501a23, 0x02500ca3, 0x00100893, 0x04100513, 0x00000073,
    0x05d00893, 0x00000073
];

/// Forth, back over each store, over the put, over the end and to the very start, and forth again.
const COMMANDS: &str = "\
step 5\nmem 30 12\nback 1\nmem 30 12\nback 1\nmem 30 12\nback 1\nmem 30 12\nback 1\nreg 5\nback 1\nreg 5\nback 1
step 5\nmem 30 12\nstep 3\nback 1\nreg 10\nstep 9\nback 2\nreg 17\nback 8\nmem 30 12\nuntil 20\nmem 30 12\nstep 2
";

/// The replies, as an emulator that is not of this repository gave the states.
const REPLIES: &str = "\
at 5 pc 00000014
mem 00000030 dec4ab89dec4000000de0000
at 4 pc 00000010
mem 00000030 dec4ab89dec4000000000000
at 3 pc 0000000c
mem 00000030 dec4ab890000000000000000
at 2 pc 00000008
mem 00000030 000000000000000000000000
at 1 pc 00000004
x5 89abc000
at 0 pc 00000000
x5 00000000
kept 0
at 5 pc 00000014
mem 00000030 dec4ab89dec4000000de0000
at 8 pc 00000020
at 7 pc 0000001c
x10 00000041
ended 10 halt 65
at 8 pc 00000020
x17 00000001
at 0 pc 00000000
mem 00000030 000000000000000000000000
at 8 pc 00000020
mem 00000030 dec4ab89dec4000000de0000
ended 10 halt 65
";

/// Each core, and numbers with which stores are owed for long, or none is but one. The script spoils some claims.
const OPTIONS: [&str; 10] = [
    "",
    "--core lockstep",
    "--core scalar",
    "--core silent",
    "--core flood",
    "--core echo",
    "--core noise",
    "--core scalar --stores 6 --port 6",
    "--core scalar --stores 1 --port 3 --watchdog 16",
    "--script a.script --stores 6 --port 6",
];

const SCRIPT: &str =
    "at 5 lane 0 flip value 3\nat 9 lane 0 set next 0\nat 21 hush 90\nat 130 lane 0 double\n";

#[test]
fn the_same_replies_under_each_core(rt: HostRuntime) -> Result<(), Fail> {
    let alloc = rt.alloc();
    for options in &OPTIONS {
        let line = format!(in alloc; "debug a.diva a.commands {options}")?;
        let outside = with_commands(alloc, OVERWRITES, COMMANDS)?.with(
            What::Script,
            SCRIPT.as_bytes(),
        )?;
        let mut own = Ooo::new(alloc)?;
        compare_by(&rt, &mut own, line.as_str(), outside, 0, REPLIES)?;
    }
    Ok(())
}

/// What `why` says is not taken back. A claim of the second instruction is wrong, and judged in cycle 8; behind that
/// nothing is. The silent core is flushed in the cycles 64 and 134, six cycles before the same instruction commits.
#[test]
fn flushes_that_are_not_taken_back(rt: HostRuntime) -> Result<(), Fail> {
    let alloc = rt.alloc();
    for (line, script, commands, text) in [
        (
            "debug a.diva a.commands --core scalar --script a.script",
            "at 2 lane 0 flip value 0",
            "step 2\nwhy\nback 2\nwhy\nstep 2\nwhy",
            "at 2 pc 00000008\nflush 8 at 1 value claimed 0000005c due 0000005d\nat 0 pc 00000000\n\
                flush 8 at 1 value claimed 0000005c due 0000005d\nat 2 pc 00000008\n\
                flush 8 at 1 value claimed 0000005c due 0000005d\n",
        ),
        (
            "debug a.diva a.commands --core silent",
            "",
            "why\nstep 1\nwhy\nback 1\nwhy\nstep 1\nwhy",
            "no flush\nat 1 pc 00000004\nflush 64 at 0 silent 64\nat 0 pc 00000000\n\
                flush 64 at 0 silent 64\nat 1 pc 00000004\nflush 134 at 0 silent 64\n",
        ),
    ] {
        let outside = with_commands(alloc, FIVE, commands)?.with(What::Script, script.as_bytes())?;
        compare(&rt, line, outside, 0, text)?;
    }
    Ok(())
}
