// The last instruction is taken back, and the machine goes on.
ghost use Rattle.std.specs.Prelude.{IfSome};
ghost use Rattle.diva_core.specs.Undone.{CanUndo};

mod tables;

use diva_core::{Claims, Core};
use diva_isa::{Undo, undo_of};
use diva_machine::{Config, Drive, Machine, drive, turn};
use diva_tape::{Lockstep, Scalar};
use diva_test_programs::{Misled, image_file};
use std::alloc::Global;
use std::process::Abort;
use std::test::Fail;
use tables::{Leader, ROWS, Row};

/// A new machine of width 1 with the row's port and program.
fn machine(alloc: Global, row: &Row) -> Result<Machine, Fail> {
    let image = diva_image::read(alloc, &image_file(alloc, row.program)?)?;
    let config = Config::new(1, 8, 4, 64).ok_or("a number out of its range")?;
    let config = config.with_port(row.port).ok_or("a port out of its range")?;
    Ok(Machine::new(alloc, &image, config)?)
}

/// Takes a turn, where the machine goes on: what the last instruction overwrote that has committed by then. `before` is the same before
/// the turn.
fn take_turn<C: Core>(
    rt: &impl Abort,
    m: &mut Machine,
    core: &mut C,
    list: &mut Claims,
    before: Option<Undo>,
) -> Option<Undo>
    requires { IfSome before (λ u. CanUndo m.old.timed u) }
    ensures { IfSome result (λ u. CanUndo m.new.timed u) }
{
    assert!(rt; m.cycles() < 1000);
    if !m.goes_on() {
        return before;
    }
    let count = m.count();
    let next = undo_of(&m.view());
    turn(m, core, list);
    match m.count() - count {
        0 => before,
        1 => Some(next),
        _ => None,
    }
}

/// Takes the row's turns, takes the last instruction back, compares what is then seen, and drives the machine to its end.
fn compare_row<C: Core>(
    rt: &impl Abort,
    alloc: Global,
    core: &mut C,
    row: &Row,
) -> Result<(), Fail> {
    let mut m = machine(alloc, row)?;
    let mut list = Claims::new();
    let mut last = None;
    for _ in 0..row.turns {
        last = take_turn(rt, &mut m, core, &mut list, last);
    }
    let undo = last.ok_or("no instruction has committed")?;
    m.undo(&undo);
    compare_told(rt, &m, row);
    compare_behind(rt, &m, row);
    assert!(rt; m.cycles() < 1000);
    let driven = drive(&mut m, core, 1000);
    compare_end(rt, &m, driven, row);
    Ok(())
}

/// Compares what a core is told behind the undo: nothing is pending, there is room for a claim, and none is due.
fn compare_told(rt: &impl Abort, m: &Machine, row: &Row) {
    let told = m.told();
    let epoch = u64::from(row.flush.is_some()).saturating_add(1);
    assert_eq!(rt;
        (told.cycle, told.count, told.pc, told.epoch),
        (row.cycles.saturating_add(1), row.count, row.pc, epoch),
        "{}",
        row.name
    );
    assert_eq!(rt;
        (told.pending, told.room, told.idle, told.due, told.ended),
        (0, 1, 0, false, false),
        "{}",
        row.name
    );
}

/// Compares what else is seen behind the undo.
fn compare_behind(rt: &impl Abort, m: &Machine, row: &Row) {
    let name = row.name;
    let (n, word) = row.reg;
    let view = m.view();
    assert!(rt; n < 32);
    assert_eq!(rt;
        (view.pc(), view.instret(), view.reg(n), view.word(32)),
        (row.pc, row.count, word, Some(row.word)),
        "{name}"
    );
    assert_eq!(rt; m.output(), row.output.as_bytes(), "{name}");
    assert!(rt;
        m.last().iter().map(|r| r.pc).eq(row.last.iter().copied()),
        "{name}"
    );
    let flushes = u64::from(row.flush.is_some());
    assert_eq!(rt;
        (m.cycles(), m.undos(), m.flushes(), m.newest()),
        (row.cycles, 1, flushes, row.flush),
        "{name}"
    );
    assert_eq!(rt; m.log(), row.flush.as_slice(), "{name}");
}

/// Compares what has become of the machine.
fn compare_end(rt: &impl Abort, m: &Machine, driven: Drive, row: &Row) {
    assert_eq!(rt;
        (driven, m.ended(), m.count(), m.cycles(), m.view().word(32)),
        (
            Drive::Ended,
            row.end,
            row.end_count,
            row.end_cycles,
            Some(row.end_word)
        ),
        "{}",
        row.name
    );
    assert_eq!(rt; m.output(), row.end_output.as_bytes(), "{}", row.name);
}

#[test]
fn instructions_that_are_taken_back(rt: HostRuntime) -> Result<(), Fail> {
    let alloc = rt.alloc();
    for row in &ROWS {
        match row.leader {
            Leader::Lockstep => compare_row(&rt, alloc, &mut Lockstep, row)?,
            Leader::Scalar => compare_row(&rt, alloc, &mut Scalar::new(alloc)?, row)?,
            Leader::Misled(cycle) => {
                let core = Lockstep;
                compare_row(&rt, alloc, &mut Misled { cycle, core }, row)?;
            }
        }
    }
    Ok(())
}
