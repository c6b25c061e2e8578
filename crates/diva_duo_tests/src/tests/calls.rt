// Two harts on given lists, action by action.
mod tables;

use crate::tests::harts::{GO_0, GO_1, compare_flushes, duo_of, word_at};
use diva_duo::{Action, Drive, Duo, drive2};
use diva_tape::{Tape, TapeCore};
use std::alloc::Global;
use std::process::Abort;
use std::test::Fail;
use tables::{ENDS, ORDERS, Row, VALUES, WAITS};

/// Plays the tapes of a row, cycle by cycle, and compares what each cycle does to the harts. They are over behind the last of
/// the row's cycles, and not before.
fn compare_cycles(rt: &impl Abort, alloc: Global, row: &Row) -> Result<(), Fail> {
    let mut duo = duo_of(alloc, 64, row.words, row.numbers)?;
    let first_tape = Tape::read(alloc, row.tapes[0])?;
    let second_tape = Tape::read(alloc, row.tapes[1])?;
    let mut first = TapeCore::new(&first_tape);
    let mut second = TapeCore::new(&second_tape);
    for before in 0..row.cycles {
        assert_eq!(rt; duo.cycles(), u64::from(before), "{}", row.name);
        let driven = drive2(&mut duo, &mut first, &mut second, 1);
        compare_cycle(rt, &duo, row, before + 1, driven);
    }
    compare_end(rt, &duo, row);
    Ok(())
}

/// Compares what a cycle did to the harts, and whether they are over.
fn compare_cycle(rt: &impl Abort, duo: &Duo, row: &Row, cycle: u32, driven: Drive) {
    let is_last = cycle == row.cycles;
    let due = if is_last { Drive::Ended } else { Drive::Budget };
    assert_eq!(rt;
        (duo.last(), driven, duo.ended()),
        (actions_in(row, cycle), due, is_last),
        "{}, cycle {cycle}",
        row.name
    );
}

/// What a cycle of the row is to do.
fn actions_in(row: &Row, cycle: u32) -> &'static [Action] {
    match row.actions.iter().find(|(of, _)| *of == cycle) {
        Some((_, actions)) => actions,
        None => &[],
    }
}

/// How often a row has an action.
fn times(row: &Row, action: Action) -> u64 {
    let mut times = 0u64;
    for (_, actions) in row.actions {
        for &other in *actions {
            if other == action {
                times = times.saturating_add(1);
            }
        }
    }
    times
}

/// Compares what has become of the harts, and of memory.
fn compare_end(rt: &impl Abort, duo: &Duo, row: &Row) {
    let name = row.name;
    let counts = [GO_0, GO_1].map(|action| times(row, action));
    assert_eq!(rt; [duo.count(0), duo.count(1)], counts, "{name}");
    assert_eq!(rt; [duo.end(0), duo.end(1)], row.ends, "{name}");
    let limit = row.numbers[3];
    compare_flushes(rt, duo, 0, row.flushes[0], limit, name);
    compare_flushes(rt, duo, 1, row.flushes[1], limit, name);
    for &(hart, register, value) in row.registers {
        let seen = duo.view(hart.min(1)).reg(register.min(31));
        assert_eq!(rt; seen, value, "{name}, register {register} of hart {hart}");
    }
    for &(addr, word) in row.stored {
        assert_eq!(rt; word_at(duo, addr), word, "{name}, address {addr}");
    }
}

/// Plays all rows.
fn compare_rows(rt: &impl Abort, alloc: Global, rows: &[Row]) -> Result<(), Fail> {
    for row in rows {
        compare_cycles(rt, alloc, row)?;
    }
    Ok(())
}

#[test]
fn stores_and_fences_that_wait(rt: HostRuntime) -> Result<(), Fail> {
    compare_rows(&rt, rt.alloc(), &WAITS)
}

#[test]
fn harts_that_end_with_stores_owed(rt: HostRuntime) -> Result<(), Fail> {
    compare_rows(&rt, rt.alloc(), &ENDS)
}

#[test]
fn values_that_change_meanwhile(rt: HostRuntime) -> Result<(), Fail> {
    compare_rows(&rt, rt.alloc(), &VALUES)
}

#[test]
fn two_stores_in_one_word(rt: HostRuntime) -> Result<(), Fail> {
    compare_rows(&rt, rt.alloc(), &ORDERS)
}
