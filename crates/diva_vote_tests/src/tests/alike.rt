// Two machines, of which one is voted on: what they show, cycle by cycle.
ghost use Rattle.diva_vote.specs.Polls.{AlwaysTwoAreRight};

use crate::tests::lanes::{Alternating, ODD, Witness, field_by, next_number, recall_alternating};
use crate::tests::machines::{
    AnyCore, Kind, PRODUCTS, PRODUCTS_COUNT, PRODUCTS_OUTPUT, SIZE, machine_of,
};
use diva_core::{Claims, Core};
use diva_faults::{Faulty, Script};
use diva_isa::End;
use diva_machine::{Config, Machine, turn, turn_voted};
use diva_test_programs::numbers;
use diva_vote::{Honest, Lane, recall_two_honest};
use std::alloc::Global;
use std::cell::Cell;
use std::process::Abort;
use std::test::Fail;

/// More cycles than a run has.
const CYCLES: u32 = 1000;

/// A run: the core, what a script spoils in its claims, the machine's numbers, and what is due.
#[derive(Clone, Copy)]
struct Run<'a> {
    name: &'a str,
    kind: Kind,
    script: &'a Script,
    config: Config,
    /// The cycles until the end.
    cycles: u64,
    /// How many flushes come.
    flushes: u64,
}

/// Compares what two machines show, but for the pending claims, the registers and memory.
fn compare_numbers(rt: &impl Abort, plain: &Machine, voted: &Machine, name: &str) {
    let cycle = plain.cycles();
    assert_eq!(rt; voted.cycles(), cycle, "{name}");
    assert_eq!(rt;
        numbers(voted.told()),
        numbers(plain.told()),
        "{name}, cycle {cycle}"
    );
    assert_eq!(rt;
        (
            voted.count(),
            voted.flushes(),
            voted.silent(),
            voted.newest()
        ),
        (
            plain.count(),
            plain.flushes(),
            plain.silent(),
            plain.newest()
        ),
        "{name}, cycle {cycle}"
    );
    assert_eq!(rt; voted.last(), plain.last(), "{name}, cycle {cycle}");
    assert_eq!(rt;
        (voted.output(), voted.ended(), voted.goes_on()),
        (plain.output(), plain.ended(), plain.goes_on()),
        "{name}, cycle {cycle}"
    );
}

/// Compares the pending claims of two machines, with what the stages have noted of each.
fn compare_pending(rt: &impl Abort, plain: &Machine, voted: &Machine, name: &str) {
    let (cycle, pending) = (plain.cycles(), plain.told().pending);
    assert_eq!(rt; voted.told().pending, pending, "{name}, cycle {cycle}");
    for at in 0..pending as usize {
        assert_eq!(rt;
            voted.entry(at),
            plain.entry(at),
            "{name}, cycle {cycle}, place {at}"
        );
    }
}

/// Compares the registers and memory of two machines.
fn compare_state(rt: &impl Abort, plain: &Machine, voted: &Machine, name: &str) {
    let cycle = plain.cycles();
    let (due, shown) = (plain.view(), voted.view());
    assert_eq!(rt; shown.pc(), due.pc(), "{name}, cycle {cycle}");
    for n in 0..32 {
        assert_eq!(rt; shown.reg(n), due.reg(n), "{name}, cycle {cycle}, x{n}");
    }
    for word in 0..SIZE / 4 {
        let addr = word * 4;
        assert_eq!(rt;
            shown.word(addr),
            due.word(addr),
            "{name}, cycle {cycle}, {addr}"
        );
    }
}

/// Compares all that two machines show.
fn compare(rt: &impl Abort, plain: &Machine, voted: &Machine, name: &str) {
    compare_numbers(rt, plain, voted, name);
    compare_pending(rt, plain, voted, name);
    compare_state(rt, plain, voted, name);
}

/// Compares what has become of a machine of `PRODUCTS`.
fn compare_end(rt: &impl Abort, m: &Machine, run: &Run<'_>) {
    assert_eq!(rt;
        (m.ended(), m.count(), m.output()),
        (End::Halt(164), PRODUCTS_COUNT, PRODUCTS_OUTPUT.as_slice()),
        "{}",
        run.name
    );
    assert_eq!(rt;
        (m.cycles(), m.flushes(), m.silent()),
        (run.cycles, run.flushes, 0),
        "{}",
        run.name
    );
}

/// Takes a turn of the machine that is not voted on.
fn take_turn<C: Core>(rt: &impl Abort, m: &mut Machine, core: &mut C, list: &mut Claims) {
    assert!(rt; m.cycles() < 10_000);
    turn(m, core, list);
}

/// Takes a turn of the machine that is voted on.
fn take_voted_turn<C: Core, A: Lane, B: Lane, L: Lane>(
    rt: &impl Abort,
    m: &mut Machine,
    core: &mut C,
    list: &mut Claims,
    a: &mut A,
    b: &mut B,
    l: &mut L,
)
    requires { AlwaysTwoAreRight A.says B.says L.says a.old b.old l.old }
    ensures { AlwaysTwoAreRight A.says B.says L.says a.new b.new l.new }
{
    assert!(rt; m.cycles() < 10_000);
    turn_voted(m, core, list, a, b, l);
}

/// Takes turns of two machines, of which one is voted on, until a turn behind their end, and compares them behind each.
fn compare_run<A: Lane, B: Lane, L: Lane>(
    rt: &impl Abort,
    alloc: Global,
    run: &Run<'_>,
    a: &mut A,
    b: &mut B,
    l: &mut L,
) -> Result<(), Fail>
    requires { AlwaysTwoAreRight A.says B.says L.says a.old b.old l.old }
{
    let mut plain = machine_of(alloc, &PRODUCTS, run.config)?;
    let mut voted = machine_of(alloc, &PRODUCTS, run.config)?;
    let mut inner = AnyCore::new(alloc, run.kind)?;
    let mut voted_inner = AnyCore::new(alloc, run.kind)?;
    let mut core = Faulty::new(&mut inner, run.script);
    let mut voted_core = Faulty::new(&mut voted_inner, run.script);
    let (mut list, mut voted_list) = (Claims::new(), Claims::new());
    for _ in 0..CYCLES {
        let over = !plain.goes_on();
        take_turn(rt, &mut plain, &mut core, &mut list);
        take_voted_turn(rt, &mut voted, &mut voted_core, &mut voted_list, a, b, l);
        compare(rt, &plain, &voted, run.name);
        assert_eq!(rt; voted_list.as_slice(), list.as_slice(), "{}", run.name);
        if over {
            break;
        }
    }
    compare_end(rt, &voted, run);
    Ok(())
}

/// Puts each lane that is not to be believed in each of the three places.
fn compare_lanes(rt: &impl Abort, alloc: Global, run: &Run<'_>) -> Result<(), Fail> {
    for odd in &ODD {
        let [mut first, mut second, mut third] = [*odd; 3];
        recall_two_honest(&first, &Honest, &Honest);
        compare_run(rt, alloc, run, &mut first, &mut Honest, &mut Honest)?;
        recall_two_honest(&Honest, &second, &Honest);
        compare_run(rt, alloc, run, &mut Honest, &mut second, &mut Honest)?;
        recall_two_honest(&Honest, &Honest, &third);
        compare_run(rt, alloc, run, &mut Honest, &mut Honest, &mut third)?;
    }
    Ok(())
}

/// Puts two lanes in the first two places that lie in turn, and one in the third that watches what a liar says.
fn compare_alternating(rt: &impl Abort, alloc: Global, run: &Run<'_>) -> Result<(), Fail> {
    let (mut first, mut second) = (Alternating { lies: true }, Alternating { lies: false });
    recall_alternating(&first, &second, &Honest);
    compare_run(rt, alloc, run, &mut first, &mut second, &mut Honest)?;
    let asked = Cell::new(0);
    let mut watching = Witness::new(&asked, 2);
    recall_two_honest(&Honest, &Honest, &watching);
    compare_run(rt, alloc, run, &mut Honest, &mut Honest, &mut watching)?;
    assert_eq!(rt; watching.strays, 0, "{}", run.name);
    assert_eq!(rt; watching.denials > 0, run.flushes > 0, "{}", run.name);
    Ok(())
}

/// The cores of the runs in which nothing is spoiled, with the cycle of the end and how many flushes come. 64 instructions are
/// counted, and a claim is ready six cycles after the one in which it is handed over.
///
/// With one after the other, each seventh cycle commits one; with one in each cycle, each cycle does from the seventh on. Where all
/// claims are wrong, a flush comes in the seventh cycle, and the checker's own instruction commits six cycles later: one in thirteen
/// cycles. `Echo` is right once: that claim commits in the seventh cycle, the same claim again is flushed in the eighth, and the
/// checker's own instruction commits in the fourteenth: two in fourteen cycles. No store waits: between a store and the next one,
/// three instructions later at the earliest, memory's port opens at least once.
static RUNS: [(&str, Kind, u64, u64); 5] = [
    ("lockstep", Kind::Lockstep, 448, 0),
    ("scalar", Kind::Scalar, 70, 0),
    ("noise", Kind::Noise, 832, 64),
    ("echo", Kind::Echo, 448, 32),
    ("flood", Kind::Flood, 832, 64),
];

/// The cores of those in which a script spoils the claims of the odd cycles, with the cycle of the end and how many flushes come.
///
/// With one after the other, the wrong claim of cycle 1 is flushed in 7, the checker's own instruction commits in 13, and the right
/// claim of cycle 14 in 20: two in twenty cycles. With one in each cycle, the checker's own instruction commits in 13 too. Then the
/// right claim of cycle 14 commits in 20, the wrong one of cycle 15 is flushed in 21, and the checker's own instruction commits in
/// 27: two in fourteen cycles. The last instruction is the right claim of the cycle 14 * 32.
static SPOILED: [(&str, Kind, u64, u64); 2] = [
    ("spoiled lockstep", Kind::Lockstep, 640, 32),
    ("spoiled scalar", Kind::Scalar, 454, 32),
];

/// How many rows a script has at most.
const MOST_ROWS: u32 = 4096;

/// A script that flips one bit of some field in the first claim of every other cycle, from the first on. So there are right claims
/// behind wrong ones, and some commit. The fields and the bits are those of a generator.
fn spoiling(alloc: Global) -> Result<Script, Fail> {
    let mut text = String::new(alloc);
    let mut number = 1;
    for row in 0..MOST_ROWS {
        number = next_number(number);
        let cycle = 1 + 2 * row;
        let bit = number >> 27;
        let name = str::from_utf8(field_by(number >> 16).name())?;
        write!(text, "at {cycle} lane 0 flip {name} {bit}\n")?;
    }
    let script = Script::read(alloc, text.as_bytes())?;
    Ok(script)
}

/// Does the runs of some cores under a script, on machines of the usual numbers and of others: four claims in a cycle, eight pending,
/// one store that memory takes in each third cycle, and a watchdog's limit of 16.
fn compare_cores(
    rt: &impl Abort,
    alloc: Global,
    cores: &[(&str, Kind, u64, u64)],
    script: &Script,
) -> Result<(), Fail> {
    let other = Config::new(4, 8, 1, 16).ok_or("a number out of its range")?;
    let other = other.with_port(3).ok_or("a port out of its range")?;
    for &(name, kind, cycles, flushes) in cores {
        for config in [Config::default(), other] {
            let run = Run {
                name,
                kind,
                script,
                config,
                cycles,
                flushes,
            };
            compare_lanes(rt, alloc, &run)?;
            compare_alternating(rt, alloc, &run)?;
        }
    }
    Ok(())
}

/// Where nothing is spoiled, whatever one lane of three answers, and where two lie in turn.
#[test]
fn one_lane_of_three_changes_nothing(rt: HostRuntime) -> Result<(), Fail> {
    let alloc = rt.alloc();
    compare_cores(&rt, alloc, &RUNS, &Script::none(alloc))
}

/// Where a script of as many rows as there can be spoils the claims.
#[test]
fn one_lane_of_three_hides_nothing(rt: HostRuntime) -> Result<(), Fail> {
    let alloc = rt.alloc();
    let script = spoiling(alloc)?;
    assert_eq!(rt; script.rows().len(), MOST_ROWS as usize);
    compare_cores(&rt, alloc, &SPOILED, &script)
}
