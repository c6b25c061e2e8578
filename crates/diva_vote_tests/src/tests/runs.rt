// Short runs: how often each lane is asked, and of what.
ghost use Rattle.diva_vote.specs.Polls.{AlwaysTwoAreRight};

use crate::tests::lanes::{Alternating, Witness, recall_alternating};
use crate::tests::machines::{AnyCore, Kind, machine_of};
use diva_core::{Cause, Claims, Diff, Field, FlushRow};
use diva_faults::{Faulty, Script};
use diva_isa::End;
use diva_machine::{Config, Drive, drive_voted, turn_voted};
use diva_test_programs::{FIVE, WRONG_VALUE, laid};
use diva_vote::Stage::{Execute, Fetch, Memory, Operands};
use diva_vote::{Honest, Lane, Liar, Outvoted, Stage, recall_two_honest};
use std::alloc::Global;
use std::cell::Cell;
use std::process::Abort;
use std::test::Fail;

/// A run of `FIVE`: the core, what a script spoils in its claims, and what is due.
struct Run {
    name: &'static str,
    kind: Kind,
    script: &'static str,
    /// The cycles until the end.
    cycles: u64,
    /// The one flush, where there is one.
    flush: Option<FlushRow>,
    /// What each lane is asked, in order: the cycle, the stage, and the pc of the claim.
    asked: &'static [(u64, Stage, u32)],
}

/// What is claimed in cycle c is asked about in cycle c + 1 at the fetch, in c + 3, c + 4 and c + 5 at the three other stages, and
/// is judged in cycle c + 6 at the earliest. Within a cycle the oldest claim comes first.
static RUNS: [Run; 6] = laid! {
    // The three instructions are claimed in the cycles 1, 8 and 15.
    Run { name: "one after the other", kind: Kind::Lockstep, script: "", cycles: 21, flush: None,
        asked: &[(2, Fetch, 0), (4, Operands, 0), (5, Execute, 0), (6, Memory, 0), (9, Fetch, 4), (11, Operands, 4), (12, Execute, 4),
            (13, Memory, 4), (16, Fetch, 8), (18, Operands, 8), (19, Execute, 8), (20, Memory, 8)] },
    // The first claim is flushed in cycle 7, and the checker's own instruction, of which no lane is asked, commits in cycle 13. The
    // others are claimed in the cycles 14 and 21.
    Run { name: "a wrong value", kind: Kind::Lockstep, script: "at 1 lane 0 flip value 0", cycles: 27, flush: Some(WRONG_VALUE),
        asked: &[(2, Fetch, 0), (4, Operands, 0), (5, Execute, 0), (6, Memory, 0), (15, Fetch, 4), (17, Operands, 4), (18, Execute, 4),
            (19, Memory, 4), (22, Fetch, 8), (24, Operands, 8), (25, Execute, 8), (26, Memory, 8)] },
    // The same. The fetch finds that the first claim is wrong, and each later stage asks the lanes all the same.
    Run { name: "a wrong pc", kind: Kind::Lockstep, script: "at 1 lane 0 flip pc 0", cycles: 27,
        flush: Some(FlushRow { cycle: 7, at: 0, cause: Cause::Differs(Diff { field: Field::Pc, claimed: 1, due: 0, }), }),
        asked: &[(2, Fetch, 1), (4, Operands, 1), (5, Execute, 1), (6, Memory, 1), (15, Fetch, 4), (17, Operands, 4), (18, Execute, 4),
            (19, Memory, 4), (22, Fetch, 8), (24, Operands, 8), (25, Execute, 8), (26, Memory, 8)] },
    // They are claimed in the cycles 1, 2 and 3, and commit in 7, 8 and 9.
    Run { name: "one in each cycle", kind: Kind::Scalar, script: "", cycles: 9, flush: None,
        asked: &[(2, Fetch, 0), (3, Fetch, 4), (4, Operands, 0), (4, Fetch, 8), (5, Execute, 0), (5, Operands, 4), (6, Memory, 0),
            (6, Execute, 4), (6, Operands, 8), (7, Memory, 4), (7, Execute, 8), (8, Memory, 8)] },
    // The first claim is flushed in cycle 7, the two others with it, and no lane is asked in that cycle. The checker's own
    // instruction commits in cycle 13; the others are claimed again in the cycles 14 and 15, and commit in 20 and 21.
    Run { name: "a wrong value before others", kind: Kind::Scalar, script: "at 1 lane 0 flip value 0", cycles: 21, flush: Some(WRONG_VALUE),
        asked: &[(2, Fetch, 0), (3, Fetch, 4), (4, Operands, 0), (4, Fetch, 8), (5, Execute, 0), (5, Operands, 4), (6, Memory, 0),
            (6, Execute, 4), (6, Operands, 8), (15, Fetch, 4), (16, Fetch, 8), (17, Operands, 4), (18, Execute, 4), (18, Operands, 8),
            (19, Memory, 4), (19, Execute, 8), (20, Memory, 8)] },
    // Two are claimed in cycle 1 and the third in cycle 2. Two commit in cycle 7, and the third in cycle 8.
    Run { name: "two in a cycle", kind: Kind::Pair, script: "", cycles: 8, flush: None,
        asked: &[(2, Fetch, 0), (2, Fetch, 4), (3, Fetch, 8), (4, Operands, 0), (4, Operands, 4), (5, Execute, 0), (5, Execute, 4),
            (5, Operands, 8), (6, Memory, 0), (6, Memory, 4), (6, Execute, 8), (7, Memory, 8)] },
};

/// Drives a machine of `FIVE` as a row says, and compares what becomes of it, and how often each lane was outvoted.
fn compare_run<A: Lane, B: Lane, L: Lane>(
    rt: &impl Abort,
    alloc: Global,
    run: &Run,
    outvoted: [usize; 3],
    a: &mut A,
    b: &mut B,
    l: &mut L,
) -> Result<(), Fail>
    requires { AlwaysTwoAreRight A.says B.says L.says a.old b.old l.old }
{
    let script = Script::read(alloc, run.script.as_bytes())?;
    let mut inner = AnyCore::new(alloc, run.kind)?;
    let mut core = Faulty::new(&mut inner, &script);
    let mut m = machine_of(alloc, FIVE.words, Config::default())?;
    let driven = drive_voted(&mut m, &mut core, a, b, l, 1000);
    assert_eq!(rt;
        (driven, m.ended(), m.cycles(), m.count()),
        (Drive::Ended, End::Halt(0), run.cycles, 3),
        "{}",
        run.name
    );
    assert_eq!(rt; m.log(), run.flush.as_slice(), "{}", run.name);
    assert_eq!(rt; (m.view().reg(1), m.silent()), (5, 0), "{}", run.name);
    let [first, second, third] = outvoted.map(|times| times as u64);
    let due = Outvoted {
        first,
        second,
        third,
    };
    assert_eq!(rt; m.outvoted(), due, "{}", run.name);
    Ok(())
}

/// Takes the turns of a row, and compares what each of three lanes was asked behind each.
fn compare_cycles(rt: &impl Abort, alloc: Global, run: &Run) -> Result<(), Fail> {
    let script = Script::read(alloc, run.script.as_bytes())?;
    let mut inner = AnyCore::new(alloc, run.kind)?;
    let mut core = Faulty::new(&mut inner, &script);
    let mut m = machine_of(alloc, FIVE.words, Config::default())?;
    let mut list = Claims::new();
    let asked = Cell::new(0);
    let [mut a, mut b, mut l] = Witness::all(&asked);
    for cycle in 1..=run.cycles {
        assert!(rt; m.cycles() < cycle && cycle < 1000);
        recall_two_honest(&a, &b, &l);
        turn_voted(&mut m, &mut core, &mut list, &mut a, &mut b, &mut l);
        compare_notes(rt, run, cycle, &a);
        compare_notes(rt, run, cycle, &b);
        compare_notes(rt, run, cycle, &l);
    }
    assert_eq!(rt; m.ended(), End::Halt(0), "{}", run.name);
    Ok(())
}

/// Compares what a lane was asked behind a cycle with what a row has until then.
fn compare_notes(rt: &impl Abort, run: &Run, cycle: u64, lane: &Witness<'_>) {
    let name = run.name;
    let due = run.asked.iter().filter(|(of, ..)| *of <= cycle);
    let notes = lane.notes();
    assert_eq!(rt; notes.len(), due.count(), "{name}, cycle {cycle}");
    for (note, &(_, stage, pc)) in notes.iter().zip(run.asked) {
        assert_eq!(rt; *note, (stage, pc), "{name}, cycle {cycle}");
    }
}

/// Each of three lanes is asked in each cycle what a row has, in that order.
#[test]
fn what_a_lane_is_asked(rt: HostRuntime) -> Result<(), Fail> {
    let alloc = rt.alloc();
    for run in &RUNS {
        compare_cycles(&rt, alloc, run)?;
    }
    Ok(())
}

/// A liar at each place is outvoted at each question, and nobody else is.
#[test]
fn how_often_a_liar_is_outvoted(rt: HostRuntime) -> Result<(), Fail> {
    let alloc = rt.alloc();
    for run in &RUNS {
        let all = run.asked.len();
        let (mut a, mut b) = (Honest, Honest);
        recall_two_honest(&Liar, &a, &b);
        compare_run(&rt, alloc, run, [all, 0, 0], &mut Liar, &mut a, &mut b)?;
        recall_two_honest(&a, &Liar, &b);
        compare_run(&rt, alloc, run, [0, all, 0], &mut a, &mut Liar, &mut b)?;
        recall_two_honest(&a, &b, &Liar);
        compare_run(&rt, alloc, run, [0, 0, all], &mut a, &mut b, &mut Liar)?;
    }
    Ok(())
}

/// Two lanes that lie in turn, never both to one question, are outvoted in turn: the first at the first question, the second at the
/// second one, and so on. In the first row each of the two is outvoted 6 times.
#[test]
fn two_lanes_lie_in_turn(rt: HostRuntime) -> Result<(), Fail> {
    let alloc = rt.alloc();
    for run in &RUNS {
        let all = run.asked.len();
        let due = [all.div_ceil(2), all / 2, 0];
        let (mut first, mut second) = (Alternating { lies: true }, Alternating { lies: false });
        recall_alternating(&first, &second, &Honest);
        compare_run(&rt, alloc, run, due, &mut first, &mut second, &mut Honest)?;
    }
    Ok(())
}

/// Of three lanes the first is asked first, the second next, and the third last, each as often as a row has questions: in the first row 12
/// times, once for each claim and stage. A machine that asks none about a claim in which an earlier stage found a difference asks less often.
#[test]
fn in_which_order_lanes_are_asked(rt: HostRuntime) -> Result<(), Fail> {
    let alloc = rt.alloc();
    for run in &RUNS {
        let asked = Cell::new(0);
        let [mut a, mut b, mut l] = Witness::all(&asked);
        recall_two_honest(&a, &b, &l);
        compare_run(&rt, alloc, run, [0; 3], &mut a, &mut b, &mut l)?;
        let out_of_turn = [a.out_of_turn, b.out_of_turn, l.out_of_turn];
        assert_eq!(rt; out_of_turn, [0; 3], "{}", run.name);
        assert_eq!(rt;
            [a.calls, b.calls, l.calls],
            [run.asked.len(); 3],
            "{}",
            run.name
        );
    }
    Ok(())
}
