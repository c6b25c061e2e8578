// Small programs whose outcome depends on when each hart goes on.
ghost use Rattle.std.specs.Prelude.{◌<◌};

mod cores;
mod shapes;
mod tables;

use crate::tests::harts::{duo_of, word_at};
use cores::Planned;
use diva_core::{Cause, Diff, Field, FlushRow};
use diva_duo::{Drive, Duo, drive2};
use diva_tape::{Scalar, Tape, TapeCore};
use shapes::{Came, SHAPES, Shape};
use std::alloc::{AllocError, Global};
use std::process::Abort;
use std::test::Fail;
use tables::{Foretold, Litmus, Outcome, PROGRAMS, Seen};

/// Plans of cores that hand over at most 1, 2 or 4 claims a call, from cycle 6 on. Behind the first so many places they are plans
/// of cores that begin so many cycles earlier.
static PLANS: [[u8; 6]; 3] = [[0, 0, 0, 0, 0, 1], [0, 0, 0, 0, 0, 2], [0, 0, 0, 0, 0, 4]];

/// What all runs of a program came to.
#[derive(Drop)]
struct Tally {
    /// How often each of the program's outcomes came.
    times: [u32; 4],
    flushes: u64,
    cycles: u64,
}

impl Tally {
    /// Notes what harts came to: one of the program's outcomes.
    fn note(&mut self, rt: &impl Abort, duo: &Duo, litmus: &Litmus) {
        let came = outcome(duo, litmus.seen);
        let place = litmus
            .outcomes
            .iter()
            .position(|(outcome, _)| *outcome == came);
        assert!(rt; place.is_some(), "{}: {came:?}", litmus.name);
        for (at, times) in self.times.iter_mut().enumerate() {
            if place == Some(at) {
                *times = times.saturating_add(1);
            }
        }
        self.flushes = self
            .flushes
            .saturating_add(duo.flushes(0))
            .saturating_add(duo.flushes(1));
        self.cycles = self.cycles.saturating_add(duo.cycles());
    }
}

/// Two harts of a program that accept four claims a cycle, driven until they are over under cores that go by plans and values.
fn driven(
    rt: &impl Abort,
    alloc: Global,
    litmus: &Litmus,
    plans: [&[u8]; 2],
    values: [&[u32]; 2],
) -> Result<Duo, Fail> {
    let mut duo = duo_of(alloc, 128, litmus.words, [4, 16, 4, 64])?;
    let mut first = planned(alloc, plans[0], values[0])?;
    let mut second = planned(alloc, plans[1], values[1])?;
    let driven = drive2(&mut duo, &mut first, &mut second, 100);
    assert_eq!(rt; driven, Drive::Ended, "{}", litmus.name);
    Ok(duo)
}

/// A core that goes by a plan, and for whose loads values are foretold.
fn planned<'a>(
    alloc: Global,
    plan: &'a [u8],
    values: &'a [u32],
) -> Result<Planned<'a>, AllocError> {
    Ok(Planned {
        plan,
        values,
        loads: 0,
        scalar: Scalar::new(alloc)?,
    })
}

/// What a program's harts came to.
fn outcome(duo: &Duo, seen: [Seen; 2]) -> Outcome {
    seen.map(|seen| match seen {
        Seen::Register { hart, number } => duo.view(hart.min(1)).reg(number.min(31)),
        Seen::Word(addr) => word_at(duo, addr),
    })
}

/// Drives a program under each pair of plans, and compares how often each outcome came, and the flushes and cycles.
fn compare_runs(rt: &impl Abort, alloc: Global, litmus: &Litmus) -> Result<(), Fail> {
    let mut tally = Tally {
        times: [0; 4],
        flushes: 0,
        cycles: 0,
    };
    for first in &PLANS {
        for earlier in 0..first.len() {
            drive_against_all(rt, alloc, litmus, &first[earlier..], &mut tally)?;
        }
    }
    for (&(outcome, due), times) in litmus.outcomes.iter().zip(tally.times) {
        assert_eq!(rt; times, due, "{}: {outcome:?}", litmus.name);
    }
    let (flushes, cycles) = (tally.flushes, tally.cycles);
    assert_eq!(rt;
        (flushes, cycles),
        (litmus.flushes, litmus.cycles),
        "{}",
        litmus.name
    );
    Ok(())
}

/// Drives a program under a plan for hart 0 and each of the plans for hart 1.
fn drive_against_all(
    rt: &impl Abort,
    alloc: Global,
    litmus: &Litmus,
    plan: &[u8],
    tally: &mut Tally,
) -> Result<(), Fail> {
    for second in &PLANS {
        for earlier in 0..second.len() {
            let duo = driven(rt, alloc, litmus, [plan, &second[earlier..]], [&[], &[]])?;
            tally.note(rt, &duo, litmus);
        }
    }
    Ok(())
}

/// Drives a program under cores to which values are foretold, and compares the outcome and the flushes of each hart.
fn compare_foretold(
    rt: &impl Abort,
    alloc: Global,
    litmus: &Litmus,
    &(due, flushes, plans, values): &Foretold,
) -> Result<(), Fail> {
    let duo = driven(rt, alloc, litmus, plans, values)?;
    assert_eq!(rt;
        (outcome(&duo, litmus.seen), [duo.flushes(0), duo.flushes(1)]),
        (due, flushes),
        "{}, {values:?}",
        litmus.name
    );
    Ok(())
}

/// How many cycles later than the other one each hart begins, in the runs of a shape.
static LATE: [[u32; 2]; 7] = [[3, 0], [2, 0], [1, 0], [0, 0], [0, 1], [0, 2], [0, 3]];

/// Plays the claims of a shape in each of its runs, and compares what becomes of them.
fn compare_shape(rt: &impl Abort, alloc: Global, shape: &Shape) -> Result<(), Fail> {
    for (&late, &came) in LATE.iter().zip(&shape.came) {
        let duo = played(rt, alloc, shape, late)?;
        let due = match came {
            Came::Comes => (true, [false, false]),
            Came::Otherwise => (false, [false, false]),
            Came::Flushes(harts) => (false, harts),
        };
        assert_eq!(rt;
            (
                outcome(&duo, shape.seen) == shape.outcome,
                [duo.flushes(0) != 0, duo.flushes(1) != 0]
            ),
            due,
            "{}, {late:?}",
            shape.name
        );
        assert_eq!(rt;
            [refuses_value(&duo, 0), refuses_value(&duo, 1)],
            due.1,
            "{}, {late:?}",
            shape.name
        );
    }
    Ok(())
}

/// Two harts that are over, to which the tapes of a shape were played, so many cycles late.
fn played(rt: &impl Abort, alloc: Global, shape: &Shape, late: [u32; 2]) -> Result<Duo, Fail> {
    let mut duo = duo_of(alloc, 128, shape.words, [4, 16, 4, 64])?;
    let first_tape = late_tape(alloc, shape.tapes[0], late[0])?;
    let second_tape = late_tape(alloc, shape.tapes[1], late[1])?;
    let mut first = TapeCore::new(&first_tape);
    let mut second = TapeCore::new(&second_tape);
    let driven = drive2(&mut duo, &mut first, &mut second, 500);
    assert_eq!(rt; driven, Drive::Ended, "{}", shape.name);
    Ok(duo)
}

/// A tape behind so many empty lists.
fn late_tape(alloc: Global, tape: &[u8], late: u32) -> Result<Tape, Fail> {
    let mut text = Vec::new(alloc);
    for _ in 0..late {
        text.push(b'\n')?;
    }
    text.extend_from_slice(tape)?;
    Ok(Tape::read(alloc, text.as_slice())?)
}

/// Whether the first flush of a hart, 0 or 1, came since a value that was claimed was not due.
fn refuses_value(duo: &Duo, hart: u8) -> bool
    requires { hart < 2 }
{
    match duo.log(hart).first() {
        Some(
            FlushRow {
                cause: Cause::Differs(Diff { field, .. }),
                ..
            },
        ) => matches!(field, Field::Value),
        _ => false,
    }
}

#[test]
fn outcomes_that_come(rt: HostRuntime) -> Result<(), Fail> {
    for litmus in &PROGRAMS {
        compare_runs(&rt, rt.alloc(), litmus)?;
        for foretold in litmus.foretold {
            compare_foretold(&rt, rt.alloc(), litmus, foretold)?;
        }
    }
    Ok(())
}

#[test]
fn shapes_by_their_names(rt: HostRuntime) -> Result<(), Fail> {
    for shape in &SHAPES {
        compare_shape(&rt, rt.alloc(), shape)?;
    }
    Ok(())
}
