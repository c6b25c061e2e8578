// All that is seen of two harts, between some cycles of a run.
ghost use Rattle.std.specs.Prelude.{◌<◌};

use crate::tests::harts::{Flush, GO_0, GO_1, compare_flushes, duo_of, word_at};
use diva_core::Field;
use diva_duo::{Action, Drive, Duo, drive2};
use diva_isa::End;
use diva_tape::{Tape, TapeCore};
use diva_test_programs::{Numbers, laid, numbers};
use std::process::Abort;
use std::test::Fail;

/// `addi x17, x0, 1` and `ecall`, which puts x10; `addi x1, x10, 1`, `sw x1, 48(x0)`, `lw x2, 48(x0)`, and the halt.
const WORDS: [u32; 7] = [
    0x00100893, 0x00000073, 0x00150093, 0x02102823, 0x03002103, 0x05d00893, 0x00000073,
];

/// Hart 0's load is claimed in cycle 3 with the value 9. The next claims follow in cycle 16, behind the checker's own.
const FIRST: &[u8] = b"\
0 100893 0 0 0 1 4 0 ; 4 73 1 0 0 0 8 0\n8 150093 0 0 0 1 c 0\nc 2102823 0 1 30 1 10 0 ; 10 3002103 0 0 30 9 14 0\n\
14 5d00893 0 0 0 5d 18 0 ; 18 73 5d 0 0 0 18 100\n\n\n\n\n\n\n\n\n\n\n\n14 5d00893 0 0 0 5d 18 0 ; 18 73 5d 0 0 0 18 100";

/// Hart 1's store is claimed in cycle 9, and nothing behind it.
const SECOND: &[u8] =
    b"0 100893 0 0 0 1 4 0\n4 73 1 1 0 1 8 0\n\n\n\n\n\n\n8 150093 1 0 0 2 c 0 ; c 2102823 0 2 30 2 10 0";

/// What is seen behind so many cycles.
struct Moment {
    cycles: u32,
    last: &'static [Action],
    told: [Numbers; 2],
    ends: [End; 2],
    output: [&'static [u8]; 2],
    /// The word at 48 in memory, and as each hart sees it.
    word: (u32, [u32; 2]),
    flushes: [&'static [Flush]; 2],
}

static MOMENTS: [Moment; 6] = laid! {
    // At the beginning.
    Moment { cycles: 0, last: &[], told: [(0, 0, 0, 0, 2, 0, false, false), (0, 0, 0, 0, 2, 0, false, false)],
        ends: [End::GoesOn, End::GoesOn], output: [b"", b""], word: (0, [0, 0]), flushes: [&[], &[]] },
    // Hart 0's load has been flushed, and its store is owed: hart 0 alone sees it.
    Moment { cycles: 9, last: &[GO_0], told: [(4, 16, 1, 0, 0, 0, false, false), (2, 8, 0, 2, 2, 1, false, false)],
        ends: [End::GoesOn, End::GoesOn], output: [b"\x00", b"\x01"], word: (0, [1, 0]),
        flushes: [&[(9, 4, Some((Field::Value, 9, 1)))], &[]] },
    // The checker's own load has committed, and hart 1's store is owed.
    Moment { cycles: 15, last: &[GO_0, GO_1, GO_1], told: [(5, 20, 1, 0, 2, 0, false, false), (4, 16, 0, 0, 2, 0, false, false)],
        ends: [End::GoesOn, End::GoesOn], output: [b"\x00", b"\x01"], word: (1, [1, 2]),
        flushes: [&[(9, 4, Some((Field::Value, 9, 1)))], &[]] },
    // Hart 0 has ended. Nothing of hart 1 is pending, and a claim is due.
    Moment { cycles: 24, last: &[], told: [(7, 24, 1, 0, 0, 0, false, true), (4, 16, 0, 0, 2, 9, true, false)],
        ends: [End::Halt(0), End::GoesOn], output: [b"\x00", b"\x01"], word: (2, [2, 2]),
        flushes: [&[(9, 4, Some((Field::Value, 9, 1)))], &[]] },
    // Its watchdog flushes.
    Moment { cycles: 31, last: &[], told: [(7, 24, 1, 0, 0, 0, false, true), (4, 16, 1, 0, 0, 16, false, false)],
        ends: [End::Halt(0), End::GoesOn], output: [b"\x00", b"\x01"], word: (2, [2, 2]),
        flushes: [&[(9, 4, Some((Field::Value, 9, 1)))], &[(31, 4, None)]] },
    // Both have ended, and nothing is owed.
    Moment { cycles: 81, last: &[GO_1], told: [(7, 24, 1, 0, 0, 0, false, true), (7, 24, 3, 0, 0, 0, false, true)],
        ends: [End::Halt(0), End::Halt(1)], output: [b"\x00", b"\x01"], word: (2, [2, 2]),
        flushes: [&[(9, 4, Some((Field::Value, 9, 1)))], &[(31, 4, None), (53, 5, None), (75, 6, None)]] },
};

/// Drives two harts until so many cycles have run.
fn drive_to(
    rt: &impl Abort,
    duo: &mut Duo,
    first: &mut TapeCore<'_>,
    second: &mut TapeCore<'_>,
    cycles: u32,
) {
    assert!(rt; duo.cycles() <= u64::from(cycles));
    let budget = u64::from(cycles) - duo.cycles();
    let driven = drive2(duo, first, second, budget);
    assert_eq!(rt; driven == Drive::Ended, duo.ended());
}

/// Compares what is seen of two harts.
fn compare_moment(rt: &impl Abort, duo: &Duo, moment: &Moment) {
    let cycles = moment.cycles;
    assert_eq!(rt;
        (duo.cycles(), duo.last()),
        (u64::from(cycles), moment.last)
    );
    compare_hart(rt, duo, 0, moment);
    compare_hart(rt, duo, 1, moment);
    assert_eq!(rt; word_at(duo, 48), moment.word.0, "behind cycle {cycles}");
    assert_eq!(rt; (duo.byte(63), duo.byte(64)), (Some(0), None));
}

/// Compares what is seen of a hart, 0 or 1.
fn compare_hart(rt: &impl Abort, duo: &Duo, hart: u8, moment: &Moment)
    requires { hart < 2 }
{
    let (cycles, place) = (moment.cycles, usize::from(hart));
    let (told, due, end) = (duo.told(hart), moment.told[place], moment.ends[place]);
    assert_eq!(rt;
        (told.cycle, numbers(told)),
        (u64::from(cycles) + 1, due),
        "{hart}"
    );
    assert_eq!(rt;
        (
            duo.end(hart),
            duo.goes_on(hart),
            duo.count(hart),
            duo.output(hart)
        ),
        (end, end == End::GoesOn, due.0, moment.output[place]),
        "hart {hart} behind cycle {cycles}"
    );
    let view = duo.view(hart);
    assert_eq!(rt;
        (view.word(48), view.pc(), view.out_len() as usize),
        (
            Some(moment.word.1[place]),
            due.1,
            moment.output[place].len()
        ),
        "hart {hart} behind cycle {cycles}"
    );
    compare_flushes(rt, duo, hart, moment.flushes[place], 16, "flushes");
}

#[test]
fn all_that_is_seen(rt: HostRuntime) -> Result<(), Fail> {
    let mut duo = duo_of(rt.alloc(), 64, &WORDS, [2, 16, 4, 16])?;
    let first_tape = Tape::read(rt.alloc(), FIRST)?;
    let second_tape = Tape::read(rt.alloc(), SECOND)?;
    let mut first = TapeCore::new(&first_tape);
    let mut second = TapeCore::new(&second_tape);
    for moment in &MOMENTS {
        drive_to(&rt, &mut duo, &mut first, &mut second, moment.cycles);
        compare_moment(&rt, &duo, moment);
    }
    assert!(rt; duo.ended());
    Ok(())
}
