// Scripts, and lists under them. What is due is taken from the text of the format.
use crate::tests::cores::list_of;
use diva_core::{Claim, Claims, Core, Field, Told, View};
use diva_faults::{Change, Faulty, Row, Script, ScriptFault, flip_at};
use diva_test_programs::{NOTHING, laid};
use std::alloc::{AllocError, Global};
use std::process::Abort;
use std::test::Fail;

/// Before the line that is tried: a comment, an empty line and a row.
const BEFORE: &[u8] = b"# \xff\n\nat 1 lane 0 lose\n";

/// Lines with the kind of their fault.
static FAULTS: [(&str, u8); 28] = laid! {
    ("foo", 1), ("At 1 hush 1", 1), ("at 1 foo", 1), ("at 1 lane 0 foo 0", 1), ("at 0 hush 3", 2), ("at 1000000001 hush 1", 2),
    ("at x foo", 2), ("at 1 lane 8 foo", 2), ("at 1 lane 0 flip pc 32", 2), ("at 1 lane 0 set pc 123456789", 2), ("at 1 hush 0", 2),
    ("at 1 hush 1000000001 1", 2), ("at 1 lane 0 flip rd 32", 3), ("at 1 lane 0 set Pc", 3), ("at", 4), ("at 1", 4), ("at 1 lane", 4),
    ("at 1 lane 0", 4), ("at 1 lane 0 flip", 4), ("at 1 lane 0 flip pc", 4), ("at 1 lane 0 flip pc 0 0", 4), ("at 1 lane 0 set pc # 0", 4),
    ("at 1 lane 0 set pc 0 0", 4), ("at 1 lane 0 lose 0", 4), ("at 1 lane 0 double 0", 4), ("at 1 hush", 4), ("at 1 hush 1 1", 4),
    ("at 1 lane 8 lose\nfoo", 2),
};

#[test]
fn faults_of_a_line(rt: HostRuntime) -> Result<(), Fail> {
    for &(line, kind) in &FAULTS {
        let answer = read_behind(rt.alloc(), BEFORE, line)?;
        let due = Err(ScriptFault::Bad { line: 4, kind });
        assert_eq!(rt; answer, due, "{line}");
    }
    Ok(())
}

/// Places of a campaign's flips, with the line of a script that says the same.
static FLIPS: [(u32, &[u8]); 7] = [
    (0, b"at 1 lane 0 flip pc 0"),
    (31, b"at 1 lane 0 flip pc 31"),
    (32, b"at 1 lane 0 flip word 0"),
    (165, b"at 1 lane 0 flip value 5"),
    (255, b"at 1 lane 0 flip end 31"),
    (256, b"at 2 lane 0 flip pc 0"),
    (8191, b"at 32 lane 0 flip end 31"),
];

#[test]
fn rows_of_flips(rt: HostRuntime) -> Result<(), Fail> {
    let alloc = rt.alloc();
    for &(place, line) in &FLIPS {
        let due = Script::read(alloc, line)?;
        let script = Script::of_row(alloc, flip_at(place))?;
        assert_eq!(rt; script.rows(), due.rows(), "{place}");
    }
    Ok(())
}

/// Behind 4,096 rows, a row is one too many, and a line that is none has its own fault.
#[test]
fn most_rows(rt: HostRuntime) -> Result<(), Fail> {
    let full = "at 1 lane 0 lose\n".repeat(rt.alloc(), 4096)?;
    for (line, due) in [
        ("", Ok(4096)),
        ("# none", Ok(4096)),
        (
            "at 2 hush 1",
            Err(ScriptFault::Bad {
                line: 4097,
                kind: 5,
            }),
        ),
        (
            "at 2",
            Err(ScriptFault::Bad {
                line: 4097,
                kind: 4,
            }),
        ),
    ] {
        let answer = read_behind(rt.alloc(), full.as_bytes(), line)?;
        assert_eq!(rt; answer, due, "{line}");
    }
    Ok(())
}

/// How many rows the script has of these lines and a further one, or its fault.
fn read_behind(
    alloc: Global,
    before: &[u8],
    line: &str,
) -> Result<Result<usize, ScriptFault>, AllocError> {
    let mut text = Vec::from_slice(alloc, before)?;
    text.extend_from_slice(line.as_bytes())?;
    Ok(match Script::read(alloc, &text) {
        Ok(script) => Ok(script.rows().len()),
        Err(fault) => Err(fault),
    })
}

/// A script with each kind of row.
const SCRIPT: &[u8] = b"at 1 lane 0 flip value 31 # c\n\tat 1000000000 lane 7 set end ffffFFFF\r
at 2 lane 3 lose\nat 3 lane 4 double\n \nat 004 hush 1000000000";

/// Its rows.
static ROWS: [Row; 5] = [
    Row::Lane {
        cycle: 1,
        lane: 0,
        change: Change::Flip {
            field: Field::Value,
            bit: 31,
        },
    },
    Row::Lane {
        cycle: 1_000_000_000,
        lane: 7,
        change: Change::Set {
            field: Field::End,
            value: 0xffff_ffff,
        },
    },
    Row::Lane {
        cycle: 2,
        lane: 3,
        change: Change::Lose,
    },
    Row::Lane {
        cycle: 3,
        lane: 4,
        change: Change::Double,
    },
    Row::Hush {
        cycle: 4,
        cycles: 1_000_000_000,
    },
];

#[test]
fn rows_of_a_script(rt: HostRuntime) -> Result<(), Fail> {
    let script = Script::read(rt.alloc(), SCRIPT)?;
    assert_eq!(rt; script.rows(), ROWS.as_slice());
    Ok(())
}

/// Scripts with the first cycle that a row of theirs touches, and the one behind the last.
static TOUCHED: [(&str, u64, u64); 6] = laid! {
    ("", u64::MAX, 0),
    ("at 7 lane 0 lose", 7, 8),
    ("at 7 hush 3", 7, 10),
    ("at 9 lane 0 lose\nat 2 hush 4\nat 3 lane 1 double", 2, 10),
    ("at 5 hush 1000\nat 900 lane 0 lose", 5, 1005),
    ("at 1000000000 lane 7 flip pc 1", 1_000_000_000, 1_000_000_001),
};

#[test]
fn cycles_that_rows_touch(rt: HostRuntime) -> Result<(), Fail> {
    for &(text, first, end) in &TOUCHED {
        let script = Script::read(rt.alloc(), text.as_bytes())?;
        assert_eq!(rt; script.first_cycle(), first, "{text:?}");
        assert_eq!(rt; script.end_cycle(), end, "{text:?}");
    }
    Ok(())
}

/// Hands over `count` claims in each call, of the values 0, 1 and so on, and counts the calls.
#[derive(Drop)]
struct Steady {
    count: u32,
    calls: u32,
}

impl Core for Steady {
    ghost use Rattle.std.specs.Prelude.{⊤};

    ghost gives = { λ before told state list after. ⊤ };

    fn cycle(&mut self, _told: &Told, _view: &View<'_>, out: &mut Claims) {
        self.calls = self.calls.saturating_add(1);
        for value in 0..self.count {
            if out.len() < Claims::MOST {
                out.push(Claim {
                    value,
                    ..Claim::default()
                });
            }
        }
    }
}

/// What `Steady` hands over in a cycle under a script. It is asked once.
fn list_under(
    rt: &impl Abort,
    alloc: Global,
    script: &str,
    count: u32,
    cycle: u64,
) -> Result<Claims, Fail> {
    let script = Script::read(alloc, script.as_bytes())?;
    let mut core = Steady { count, calls: 0 };
    let list = list_of(alloc, &mut Faulty::new(&mut core, &script), cycle, 4)?;
    assert_eq!(rt; core.calls, 1);
    Ok(list)
}

/// Scripts, how many claims come before them, a cycle, and the values that are then handed over.
static LISTS: [(&str, u32, u64, &[u32]); 17] = laid! {
    ("", 2, 1, &[0, 1]),
    ("at 5 lane 0 lose\nat 5 lane 0 set value 7", 3, 5, &[7, 2]),
    ("at 5 lane 0 set value 7\nat 5 lane 0 lose", 3, 5, &[1, 2]),
    ("at 5 lane 0 lose\nat 4 lane 0 double", 3, 5, &[1, 2]),
    ("at 5 lane 0 lose\nat 4 lane 0 double", 3, 4, &[0, 0, 1, 2]),
    ("at 5 lane 0 lose\nat 4 lane 0 double", 3, 6, &[0, 1, 2]),
    ("at 5 lane 0 lose\nat 4 lane 0 double", 3, 3, &[0, 1, 2]),
    ("at 5 lane 3 lose\nat 5 lane 4 double", 3, 5, &[0, 1, 2]),
    ("at 5 lane 3 double\nat 5 lane 2 double\nat 5 lane 3 flip value 4", 3, 5, &[0, 1, 2, 18]),
    ("at 5 lane 6 double", 7, 5, &[0, 1, 2, 3, 4, 5, 6, 6]),
    ("at 5 lane 6 double", 8, 5, &[0, 1, 2, 3, 4, 5, 6, 7]),
    ("at 5 lane 7 lose\nat 5 lane 0 double", 8, 5, &[0, 0, 1, 2, 3, 4, 5, 6]),
    ("at 5 hush 1\nat 5 lane 0 double", 1, 5, &[]),
    ("at 9 hush 1\nat 5 hush 10\nat 8 lane 0 double", 1, 4, &[0]),
    ("at 9 hush 1\nat 5 hush 10\nat 8 lane 0 double", 1, 8, &[]),
    ("at 9 hush 1\nat 5 hush 10\nat 8 lane 0 double", 1, 14, &[]),
    ("at 9 hush 1\nat 5 hush 10\nat 8 lane 0 double", 1, 15, &[0]),
};

#[test]
fn lists_of_values(rt: HostRuntime) -> Result<(), Fail> {
    for &(script, count, cycle, due) in &LISTS {
        let list = list_under(&rt, rt.alloc(), script, count, cycle)?;
        let values = values_of(rt.alloc(), list.as_slice())?;
        assert_eq!(rt; values.as_slice(), due, "{script} in {cycle}");
    }
    Ok(())
}

fn values_of(alloc: Global, list: &[Claim]) -> Result<Vec<u32>, AllocError> {
    let mut values = Vec::new(alloc);
    for claim in list {
        values.push(claim.value)?;
    }
    Ok(values)
}

/// The fields by their names in a script, each with a claim of zeros in which it has a number.
fn claims_with(number: u32) -> [(&'static str, Claim); 8] {
    laid! {
        ("pc", Claim { pc: number, ..NOTHING }), ("word", Claim { word: number, ..NOTHING }),
        ("src1", Claim { src1: number, ..NOTHING }), ("src2", Claim { src2: number, ..NOTHING }),
        ("addr", Claim { addr: number, ..NOTHING }), ("value", Claim { value: number, ..NOTHING }),
        ("next", Claim { next: number, ..NOTHING }), ("end", Claim { end: number, ..NOTHING }),
    }
}

/// A claim of zeros in which the highest bit of a field is flipped, or which has another number there.
#[test]
fn every_field(rt: HostRuntime) -> Result<(), Fail> {
    for (change, word, number) in [("flip", "31", 0x8000_0000), ("set", "aB", 0xab)] {
        for (field, due) in claims_with(number) {
            let script = format!(in rt.alloc(); "at 1 lane 0 {change} {field} {word}")?;
            let list = list_under(&rt, rt.alloc(), script.as_str(), 1, 1)?;
            assert_eq!(rt; list.as_slice(), [due].as_slice(), "{change} {field}");
        }
    }
    Ok(())
}
