// Several claims in a cycle, right and wrong ones, and what the machine makes of them.
mod tables;

use diva_core::{Claims, Diff};
use diva_isa::Record;
use diva_machine::{Config, Machine, turn};
use diva_test_programs::{Lists, image_file};
use std::alloc::Global;
use std::process::Abort;
use std::test::Fail;
use tables::{ROWS, Row};

/// A new machine of the row's sizes, with its program.
fn machine(alloc: Global, row: &Row) -> Result<Machine, Fail> {
    let image = diva_image::read(alloc, &image_file(alloc, row.program)?)?;
    let config = Config::new(row.width, row.window, row.stores, 64).ok_or(
        "a number out of its range",
    )?;
    Ok(Machine::new(alloc, &image, config)?)
}

/// Takes the turns of a row, and compares what each cycle commits, and what is pending after some. A
/// further turn on a machine that has ended commits nothing.
fn compare_turns(rt: &impl Abort, alloc: Global, row: &Row) -> Result<(), Fail> {
    let mut m = machine(alloc, row)?;
    let mut core = Lists { lists: row.lists };
    let mut list = Claims::new();
    for before in 0..row.cycles {
        take_turn(rt, &mut m, &mut core, &mut list, before);
        compare_cycle(rt, &m, row, before + 1);
    }
    compare_end(rt, &m, row);
    if !m.goes_on() {
        take_turn(rt, &mut m, &mut core, &mut list, row.cycles);
        let counts = (m.cycles(), m.last().len(), list.len());
        assert_eq!(rt; counts, (u64::from(row.cycles), 0, 0), "{}", row.name);
    }
    Ok(())
}

/// Takes a turn of a machine after so many cycles.
fn take_turn(
    rt: &impl Abort,
    m: &mut Machine,
    core: &mut Lists<'_>,
    list: &mut Claims,
    before: u32,
) {
    assert_eq!(rt; m.cycles(), u64::from(before));
    turn(m, core, list);
}

/// Compares what a cycle has committed, what is pending after it, and what the stages have found.
fn compare_cycle(rt: &impl Abort, m: &Machine, row: &Row, cycle: u32) {
    let name = row.name;
    assert_eq!(rt; m.last(), commits_in(row, cycle), "{name}, cycle {cycle}");
    if let Some((_, due)) = row.pending.iter().find(|(of, _)| *of == cycle) {
        compare_pending(rt, m, due, name);
    }
    for &(_, place, verdict) in row.verdicts.iter().filter(|(of, ..)| *of == cycle) {
        compare_verdict(rt, m, place, verdict, name);
    }
}

/// Compares the claims that are pending, the oldest first, each with the cycle of its acceptance. A claim
/// is decoded from two cycles after that on.
fn compare_pending(rt: &impl Abort, m: &Machine, due: &[(Record, u64)], name: &str) {
    let cycles = m.cycles();
    assert_eq!(rt;
        m.told().pending as usize,
        due.len(),
        "{name}, cycle {cycles}"
    );
    for (place, &(claim, accepted)) in due.iter().enumerate() {
        let entry = m.entry(place);
        assert_eq!(rt;
            (entry.claim, entry.cycle, entry.decoded.is_some()),
            (claim, accepted, cycles.saturating_sub(accepted) >= 2),
            "{name}, cycle {cycles}, place {place}"
        );
    }
}

/// Compares what the stages have found in the pending claim at a place.
fn compare_verdict(rt: &impl Abort, m: &Machine, place: usize, verdict: Option<Diff>, name: &str) {
    assert!(rt; place < m.told().pending as usize);
    let cycles = m.cycles();
    assert_eq!(rt;
        m.entry(place).verdict,
        verdict,
        "{name}, cycle {cycles}, place {place}"
    );
}

/// Compares what has become of the machine.
fn compare_end(rt: &impl Abort, m: &Machine, row: &Row) {
    let flushes = u64::from(row.flush.is_some());
    assert_eq!(rt;
        (m.cycles(), m.ended(), m.count(), m.flushes(), m.newest()),
        (
            u64::from(row.cycles),
            row.end,
            row.count,
            flushes,
            row.flush
        ),
        "{}",
        row.name
    );
}

/// What a cycle of the row is to commit.
fn commits_in(row: &Row, cycle: u32) -> &'static [Record] {
    match row.commits.iter().find(|(of, _)| *of == cycle) {
        Some((_, records)) => records,
        None => &[],
    }
}

#[test]
fn lists_of_several_claims(rt: HostRuntime) -> Result<(), Fail> {
    for row in &ROWS {
        compare_turns(&rt, rt.alloc(), row)?;
    }
    Ok(())
}
