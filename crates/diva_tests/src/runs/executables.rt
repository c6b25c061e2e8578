// Command lines over small executables.
pub(super) mod files;

use super::campaigns::FIRST_CYCLE;
use super::harts::{FIVE_PAIR, pair_text};
use super::tables::{CORES, Row};
use super::texts::text_due;
use super::{FIVE_TEXT, Outside, compare, compare_unasked, image_files, run_program};
use crate::cores::flipped;
use diva_ooo::Ooo;
use diva_outside::What;
use diva_test_programs::{FIVE_FILE, file_of, laid};
use files::{GAP, HIGH, ODD, OUTSIDE, ROOM, THREE, WRITES};
use std::alloc::{AllocError, Global};
use std::fmt::Write;
use std::test::Fail;

/// These bytes as the image's file, and the commands.
fn with_commands(alloc: Global, file: &[u8]) -> Result<Outside, AllocError> {
    image_files(alloc, file)?.with(What::Commands, COMMANDS)
}

/// The commands that are answered: two steps, a register, and the rest.
const COMMANDS: &[u8] = b"step 2\nreg 17\nstep 5\n";

/// What these commands write of the three instructions.
const REPLIES: &str = "at 2 pc 0001005c\nx17 0000005d\nended 3 halt 0\n";

/// What is written of them behind the registers, by the options and by the file. Up to there it is what is written of `FIVE`.
static THREE_RUNS: [(&str, &[u8], &str); 7] = laid! {
    ("", &THREE, "pc 0001005c\n"),
    ("--room 64", &THREE, "pc 0001005c\n"),
    // Memory ends behind the third word, or behind the room.
    ("--dump 1005c:8", &THREE, "pc 0001005c\nmem 0001005c 73000000........\n"),
    ("--room 4 --dump 1005c:12", &THREE, "pc 0001005c\nmem 0001005c 7300000000000000........\n"),
    // Behind the memory of an image there is no room.
    ("--room 64", &FIVE_FILE, "pc 00000008\n"),
    ("--dump 3c:8", &FIVE_FILE, "pc 00000008\nmem 0000003c 00000000........\n"),
    ("--room 64 --dump 3c:8", &FIVE_FILE, "pc 00000008\nmem 0000003c 00000000........\n"),
};

#[test]
fn three_instructions(rt: HostRuntime) -> Result<(), Fail> {
    let alloc = rt.alloc();
    for &(options, file, rest) in &THREE_RUNS {
        let line = format!(in alloc; "run a.diva --core lockstep {options}")?;
        let text = FIVE_TEXT.replace(alloc, "pc 00000008\n", rest)?;
        compare(
            &rt,
            line.as_str(),
            image_files(alloc, file)?,
            0,
            text.as_str(),
        )?;
    }
    Ok(())
}

/// What is written of them where nothing is dumped: what is written of `FIVE`, the same instructions at 0, but for the pc.
pub(super) fn three_text(alloc: Global) -> Result<String, Fail> {
    Ok(FIVE_TEXT.replace(alloc, "pc 00000008", "pc 0001005c")?)
}

/// What two harts write of them: what they write of `FIVE` but for the pc.
pub(super) fn pair_of_three(alloc: Global) -> Result<String, Fail> {
    Ok(pair_text(alloc, &FIVE_PAIR)?.replace(alloc, "pc 00000008", "pc 0001005c")?)
}

#[test]
fn three_instructions_on_two_harts(rt: HostRuntime) -> Result<(), Fail> {
    let alloc = rt.alloc();
    let pair = pair_of_three(alloc)?;
    for (options, memory) in [
        ("--dump 1005c:8", "73000000........"),
        ("--room 4 --dump 1005c:12", "7300000000000000........"),
    ] {
        let line = format!(in alloc; "duo a.diva --core lockstep {options}")?;
        let text = format!(in alloc; "{pair}mem 0001005c {memory}\n")?;
        compare(
            &rt,
            line.as_str(),
            image_files(alloc, &THREE)?,
            0,
            text.as_str(),
        )?;
    }
    Ok(())
}

/// The tape of the three instructions where they are claimed one by one: in the cycles 1, 8 and 15 of 21.
const THREE_TAPE: &str = "\
00010054 00500093 00000000 00000000 00000000 00000005 00010058 00000000






00010058 05d00893 00000000 00000000 00000000 0000005d 0001005c 00000000






0001005c 00000073 0000005d 00000000 00000000 00000000 0001005c 00000100






";

/// A campaign of the three instructions over the first cycle: what is written of `FIVE`, but for the pc.
const THREE_CAMPAIGN: Row = Row {
    rest: "pc 0001005c\n",
    ..FIRST_CYCLE
};

/// Command lines over the three instructions, and what they write.
static THREE_TEXTS: [(&str, &str); 5] = [
    (
        "dis a.diva",
        "\
00010054 00500093 addi x1, x0, 5
00010058 05d00893 addi x17, x0, 93
0001005c 00000073 ecall
",
    ),
    ("tape a.diva --core lockstep", THREE_TAPE),
    ("tape a.diva --core lockstep --room 64", THREE_TAPE),
    ("debug a.diva a.commands --core scalar", REPLIES),
    ("debug a.diva a.commands --core scalar --room 64", REPLIES),
];

#[test]
fn listings_campaigns_tapes_and_replies(rt: HostRuntime) -> Result<(), Fail> {
    let alloc = rt.alloc();
    for &(line, text) in &THREE_TEXTS {
        compare(&rt, line, with_commands(alloc, &THREE)?, 0, text)?;
    }
    let text = text_due(alloc, &THREE_CAMPAIGN)?;
    compare(
        &rt,
        THREE_CAMPAIGN.line,
        image_files(alloc, &THREE)?,
        0,
        text.as_str(),
    )
}

/// Command lines, and the numbers behind `DIVA` in the image that they write: the version, base, size, entry, one segment, its
/// address, and how many bytes it has, which are the three instructions.
static MIGRATED: [(&str, &[u8], [u32; 7]); 4] = [
    (
        "migrate a.diva",
        &THREE,
        [2, 0x1_0054, 12, 0x1_0054, 1, 0x1_0054, 12],
    ),
    (
        "migrate a.diva --room 64",
        &THREE,
        [2, 0x1_0054, 76, 0x1_0054, 1, 0x1_0054, 12],
    ),
    ("migrate a.diva", &FIVE_FILE, [2, 0, 64, 0, 1, 0, 12]),
    (
        "migrate a.diva --room 64",
        &FIVE_FILE,
        [2, 0, 64, 0, 1, 0, 12],
    ),
];

#[test]
fn images_of_executables(rt: HostRuntime) -> Result<(), Fail> {
    let alloc = rt.alloc();
    for &(line, file, numbers) in &MIGRATED {
        let [version, base, size, entry, count, addr, len] = numbers;
        let header = [version, base, size, entry, count];
        let due = file_of(alloc, header, &[(addr, len)], &FIVE_FILE[24..])?;
        let answer = run_program(&mut flipped(), line, image_files(alloc, file)?)?;
        assert_eq!(rt; answer.status, 0, "{line}");
        assert_eq!(rt; answer.text.as_slice(), due.as_slice(), "{line}");
    }
    Ok(())
}

/// The commands that read an executable.
const COMMAND_LINES: [&str; 7] = [
    "run a.diva",
    "duo a.diva",
    "tape a.diva",
    "debug a.diva a.commands",
    "migrate a.diva",
    "dis a.diva",
    "campaign a.diva 1",
];

/// The three instructions with the type of a shared object, and without their words.
#[test]
fn three_instructions_that_are_refused(rt: HostRuntime) -> Result<(), Fail> {
    let alloc = rt.alloc();
    let mut shared = THREE;
    shared[16] = 3;
    for &line in &COMMAND_LINES {
        let outside = with_commands(alloc, &shared)?;
        compare_unasked(&rt, line, outside, 5, "refused image 22 at 16\n")?;
        let outside = with_commands(alloc, &THREE[..84])?;
        compare_unasked(&rt, line, outside, 5, "refused image 27 at 52\n")?;
    }
    Ok(())
}

/// Executables with the room that each is given, and what is written of their fault.
static REFUSED: [(&[u8], u32, &str); 4] = laid! {
    (&HIGH, 228, "refused image 29 at 0\n"),
    (&GAP, 16_777_212, "refused image 29 at 0\n"),
    (&GAP, 16_740_356, "refused image 29 at 0\n"),
    (&ROOM, 0, "refused image 30 at 24\n"),
};

#[test]
fn rooms_that_are_refused(rt: HostRuntime) -> Result<(), Fail> {
    let alloc = rt.alloc();
    for &(file, room, text) in &REFUSED {
        for command in [
            "run a.diva",
            "duo a.diva",
            "tape a.diva",
            "debug a.diva a.commands",
            "migrate a.diva",
        ] {
            let line = format!(in alloc; "{command} --room {room}")?;
            compare_unasked(&rt, line.as_str(), with_commands(alloc, file)?, 5, text)?;
        }
    }
    Ok(())
}

/// Executables with the room that each is given, the status, and the lines of end, count and output. Those that halt and have no room
/// ended so after as many instructions in `qemu-riscv32`, an emulator that is independent of this repository.
static RUNS: [(&str, &[u8], u32, u8, &str); 13] = laid! {
    ("three", &THREE, 0, 0, "end halt 0\ncount 3\noutput 0\n"),
    ("three", &THREE, 64, 0, "end halt 0\ncount 3\noutput 0\n"),
    ("gap", &GAP, 0, 0, "end halt 120\ncount 526\noutput 0\n"),
    ("gap", &GAP, 16_740_352, 0, "end halt 120\ncount 526\noutput 0\n"),
    ("odd", &ODD, 0, 0, "end halt 44\ncount 14\noutput 0\n"),
    ("odd", &ODD, 16, 0, "end halt 44\ncount 14\noutput 0\n"),
    ("room", &ROOM, 4, 3, "end trap 2\ncount 1\noutput 0\n"),
    ("room", &ROOM, 64, 3, "end trap 2\ncount 1\noutput 0\n"),
    ("high", &HIGH, 0, 3, "end trap 7\ncount 3\noutput 0\n"),
    ("high", &HIGH, 224, 0, "end halt 9\ncount 8\noutput 0\n"),
    ("outside", &OUTSIDE, 0, 3, "end trap 5\ncount 3\noutput 0\n"),
    ("outside", &OUTSIDE, 4, 0, "end halt 3\ncount 6\noutput 0\n"),
    ("writes", &WRITES, 0, 0, "end halt 11\ncount 10\noutput 0\n"),
};

/// The lines of end, count and output.
fn lasting_lines(alloc: Global, text: &str) -> Result<String, Fail> {
    let mut lines = String::new(alloc);
    for line in text.lines() {
        if ["end", "count", "out"]
            .iter()
            .any(|word| line.starts_with(word))
        {
            writeln!(lines, "{line}")?;
        }
    }
    Ok(lines)
}

/// The same comes under every core. The slowest one takes 70 cycles an instruction.
#[test]
fn executables_under_every_core(rt: HostRuntime) -> Result<(), Fail> {
    let alloc = rt.alloc();
    for &(name, file, room, status, due) in &RUNS {
        for core in CORES {
            let line = format!(in alloc; "run a.diva --core {core} --room {room} --cycles 100000")?;
            let outside = image_files(alloc, file)?;
            let answer = run_program(&mut Ooo::new(alloc)?, line.as_str(), outside)?;
            assert_eq!(rt; answer.status, status, "{name}: {line}");
            let lines = lasting_lines(alloc, str::from_utf8(&answer.text)?)?;
            assert_eq!(rt; lines.as_str(), due, "{name}: {line}");
        }
    }
    Ok(())
}
