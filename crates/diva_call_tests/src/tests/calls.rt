// Calls of a machine's parts, and of a machine that is driven.
ghost use Rattle.std.specs.Prelude.{◌≡◌, ◌≤◌, IfOk};

mod cores;

use cores::{Late, Prompted};
use diva_core::{Cause, Core, FlushRow};
use diva_machine::{Config, Drive, End, Machine, Reach, drive, drive_to};
use diva_tape::{Lockstep, Silent};
use diva_test_programs::{
    FIVE, FIVE_FILE, FOUR_STORES, LOOP, Misled, Program, WRONG_VALUE, image_file,
};
use std::alloc::Global;
use std::process::Abort;
use std::test::Fail;

/// A machine of two claims a cycle, sixteen pending and four stores that begins with the program.
fn machine(alloc: Global, program: Program, limit: u32) -> Result<Machine, Fail>
    ensures { IfOk result (λ m. m.timed.cycles ≡ 0) }
{
    let image = diva_image::read(alloc, &image_file(alloc, program)?)?;
    let config = Config::new(2, 16, 4, limit).ok_or("a number out of its range")?;
    Ok(Machine::new(alloc, &image, config)?)
}

/// Drives a machine of `FIVE`, and compares the end, the cycles and the one flush, where there is one.
pub(super) fn drives_to<C: Core>(
    rt: &impl Abort,
    alloc: Global,
    limit: u32,
    core: &mut C,
    cycles: u64,
    flush: Option<FlushRow>,
) -> Result<(), Fail> {
    let mut m = machine(alloc, FIVE, limit)?;
    let driven = drive(&mut m, core, 1000);
    compare_end(rt, &m, driven, cycles, flush);
    Ok(())
}

/// Compares what has become of a driven machine of `FIVE`.
fn compare_end(rt: &impl Abort, m: &Machine, driven: Drive, cycles: u64, flush: Option<FlushRow>) {
    let (flushes, silent) = match flush {
        None => (0, 0),
        Some(row) => (1, u64::from(matches!(row.cause, Cause::Silent(_)))),
    };
    assert_eq!(rt;
        (driven, m.ended(), m.count(), m.cycles(), m.newest()),
        (Drive::Ended, End::Halt(0), 3, cycles, flush)
    );
    assert_eq!(rt; m.log(), flush.as_slice());
    assert_eq!(rt; (m.flushes(), m.silent()), (flushes, silent));
}

/// A wrong claim of cycle 1 is judged in cycle 7, and the checker's own instruction commits in cycle
/// 13. The next ones are claimed in cycles 14 and 21, and commit in 20 and 27.
///
/// With a watchdog's limit of 16 a claim of cycle 10 commits in cycle 16, just in time. One of cycle
/// 11 would be ready in cycle 17: the watchdog flushes in cycle 16, the checker's own instruction
/// commits in cycle 22, and claims follow in cycles 23 and 30.
#[test]
fn flushes_to_the_cycle(rt: HostRuntime) -> Result<(), Fail> {
    let silent = FlushRow {
        cycle: 16,
        at: 0,
        cause: Cause::Silent(16),
    };
    let alloc = rt.alloc();
    let mut misled = Misled {
        cycle: 1,
        core: Lockstep,
    };
    drives_to(&rt, alloc, 64, &mut misled, 27, Some(WRONG_VALUE))?;
    drives_to(&rt, alloc, 16, &mut Late { first: 10 }, 30, None)?;
    drives_to(&rt, alloc, 16, &mut Late { first: 11 }, 36, Some(silent))
}

/// A port, and a core that hands over each claim when it is due or so many calls later, with the cycle in which `FOUR_STORES` ends,
/// one place in its store queue and a watchdog's limit of 16, and how often it is flushed.
///
/// Where the port opens in each cycle, a claim is due where idle is 9 before the cycle: that of cycle 10 commits in 16, and
/// each other one 16 cycles later. One call later it would commit in 17, so the watchdog flushes in 16, and the checker's own
/// instruction commits in 22.
///
/// Where it opens in each sixth cycle, a claim is due where idle is 4: that of cycle 5 commits in 11, and each other one 11
/// cycles later. In the six cycles of its stages the port opens once, so a store that is claimed with nothing pending finds
/// a place, and up to five calls later it is still in time.
static PROMPTED: [(u32, u32, u64, u64); 5] = [
    (1, 0, 96, 0),
    (1, 1, 132, 6),
    (6, 0, 66, 0),
    (6, 5, 96, 0),
    (6, 6, 132, 6),
];

#[test]
fn claims_that_come_when_they_are_due(rt: HostRuntime) -> Result<(), Fail> {
    let alloc = rt.alloc();
    let image = diva_image::read(alloc, &image_file(alloc, FOUR_STORES)?)?;
    for &(port, late, cycles, flushes) in &PROMPTED {
        let config = Config::new(2, 16, 1, 16).ok_or("a number out of its range")?;
        let config = config.with_port(port).ok_or("a port out of its range")?;
        let mut m = Machine::new(alloc, &image, config)?;
        let mut core = Prompted { late, missed: 0 };
        let driven = drive(&mut m, &mut core, 1000);
        assert_eq!(rt;
            (driven, m.ended(), m.count()),
            (Drive::Ended, End::Halt(0), 6)
        );
        assert_eq!(rt; (m.cycles(), m.flushes()), (cycles, flushes));
    }
    Ok(())
}

/// A count and a budget of cycles, how a drive of `FIVE` by `Lockstep` stops, and the count and the cycles then: its three instructions
/// commit in the cycles 7, 14 and 21. The count is looked at before the end and the budget.
static COUNTS: [(u64, u64, Reach, u64, u64); 6] = [
    (0, 1000, Reach::Reached, 0, 0),
    (2, 1000, Reach::Reached, 2, 14),
    (2, 14, Reach::Reached, 2, 14),
    (2, 13, Reach::Budget, 1, 13),
    (3, 1000, Reach::Reached, 3, 21),
    (4, 1000, Reach::Ended, 3, 21),
];

/// A machine of one claim a cycle that begins with `FIVE`.
fn narrow(alloc: Global) -> Result<Machine, Fail>
    ensures width { IfOk result (λ m. m.timed.config.width ≡ 1) }
    ensures count { IfOk result (λ m. m.timed.count ≡ 0) }
    ensures cycles { IfOk result (λ m. m.timed.cycles ≡ 0) }
{
    let image = diva_image::read(alloc, &image_file(alloc, FIVE)?)?;
    let config = Config::new(1, 16, 4, 64).ok_or("a number out of its range")?;
    Ok(Machine::new(alloc, &image, config)?)
}

#[test]
fn drives_to_a_count(rt: HostRuntime) -> Result<(), Fail> {
    for &(target, budget, due, count, cycles) in &COUNTS {
        assert!(rt; budget <= 1000);
        let mut m = narrow(rt.alloc())?;
        let reach = drive_to(&mut m, &mut Lockstep, target, budget);
        assert_eq!(rt;
            (reach, m.count(), m.cycles()),
            (due, count, cycles),
            "{target}, {budget}"
        );
    }
    Ok(())
}

/// A core that hands over nothing is flushed in cycle 64 and then every 70 cycles. 1,024 rows are
/// kept, and the newest beside them.
#[test]
fn more_flushes_than_are_kept(rt: HostRuntime) -> Result<(), Fail> {
    let mut m = machine(rt.alloc(), LOOP, 64)?;
    let driven = drive(&mut m, &mut Silent, 64 + 70 * 1024);
    compare_kept(&rt, &m, driven);
    Ok(())
}

/// Compares the count of the flushes and of the rows that are kept, the first and the last of these, and the newest row.
fn compare_kept(rt: &impl Abort, m: &Machine, driven: Drive) {
    assert_eq!(rt;
        (driven, m.flushes(), m.silent(), m.count(), m.log().len()),
        (Drive::Budget, 1025, 1025, 1024, 1024)
    );
    assert_eq!(rt;
        (
            m.log().first().copied(),
            m.log().last().copied(),
            m.newest()
        ),
        (silent_row(0), silent_row(1023), silent_row(1024))
    );
}

/// The row of a flush of the silent core, of which there were so many before.
fn silent_row(before: u64) -> Option<FlushRow>
    requires { before ≤ 1024 }
{
    Some(FlushRow {
        cycle: 64 + 70 * before,
        at: before,
        cause: Cause::Silent(64),
    })
}

#[test]
fn parts_of_a_machine(rt: HostRuntime) -> Result<(), Fail> {
    assert!(rt; Config::new(2, 16, 7, 64).is_none());
    let config = Config::new(2, 16, 4, 64).ok_or("a number out of its range")?;
    assert_eq!(rt; config.port(), 1);
    assert_eq!(rt;
        [0, 1, 6, 7].map(|port| config.with_port(port).map(|config| config.port())),
        [None, Some(1), Some(6), None]
    );
    let file = image_file(rt.alloc(), FIVE)?;
    assert_eq!(rt; file.as_slice(), FIVE_FILE.as_slice());
    Ok(())
}
