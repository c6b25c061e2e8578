// Runs that a watcher of the test's own sees, turn by turn.
ghost use Rattle.std.specs.Prelude.{◌≡◌, ◌≤◌, ◌^◌, IfOk};

use diva_cli::{Watcher, watch};
use diva_core::{Claims, Config, CopyCore};
use diva_machine::Machine;
use diva_outside::{MemSink, Sink, SinkFailed};
use diva_tape::{Echo, Lockstep, Silent};
use diva_test_programs::{FIVE, image_file};
use std::alloc::Global;
use std::process::Abort;
use std::test::Fail;

/// Counts the turns that it sees and what they commit, and writes a dot for each turn.
#[derive(Clone, Copy, Debug)]
struct Dots {
    turns: usize,
    commits: usize,
}

impl Watcher for Dots {
    ghost use Rattle.std.specs.Prelude.{◌≡◌, codes, ⊤};

    ghost puts = { λ before seen after text. text ≡ codes "." };

    ghost says = { λ list. ⊤ };

    ghost can = { λ watcher n. ⊤ };

    fn see<S: Sink>(
        &mut self,
        _first: u64,
        m: &Machine,
        _list: &Claims,
        sink: &mut S,
    ) -> Result<(), SinkFailed> {
        self.turns = self.turns.saturating_add(1);
        self.commits = self.commits.saturating_add(m.last().len());
        sink.put(b".")
    }
}

/// A machine of two claims a cycle, sixteen pending, four stores and a limit of 64 that begins with `FIVE`.
fn machine(alloc: Global) -> Result<Machine, Fail>
    ensures { IfOk result (λ m. m.timed.cycles ≡ 0) }
{
    let image = diva_image::read(alloc, &image_file(alloc, FIVE)?)?;
    let config = Config::new(2, 16, 4, 64).ok_or("a number out of its range")?;
    Ok(Machine::new(alloc, &image, config)?)
}

/// Watches a run of `FIVE` for so many cycles at most, and compares what was seen of it, and how many dots were written.
fn compare_watched<C: CopyCore + Drop>(
    rt: &impl Abort,
    alloc: Global,
    core: &mut C,
    budget: u64,
    turns: usize,
    commits: usize,
) -> Result<(), Fail>
    requires { budget ≤ 2 ^ 60 }
{
    let mut m = machine(alloc)?;
    let mut sink = MemSink::new(alloc, 1024, Vec::new(alloc))?;
    let mut dots = Dots {
        turns: 0,
        commits: 0,
    };
    watch(&mut m, core, budget, &mut dots, &mut sink)?;
    assert_eq!(rt;
        (dots.turns, dots.commits, sink.bytes().len()),
        (turns, commits, turns)
    );
    Ok(())
}

/// Each turn is seen, up to the one in which the machine ends or the budget is run: with a core that waits the three instructions
/// commit in the cycles 7, 14 and 21, and with one that is silent in 70, 140 and 210.
#[test]
fn each_turn_is_seen(rt: HostRuntime) -> Result<(), Fail> {
    let alloc = rt.alloc();
    compare_watched(&rt, alloc, &mut Lockstep, 1000, 21, 3)?;
    compare_watched(&rt, alloc, &mut Lockstep, 20, 20, 2)?;
    compare_watched(&rt, alloc, &mut Lockstep, 0, 0, 0)?;
    compare_watched(&rt, alloc, &mut Echo, 1000, 21, 3)?;
    compare_watched(&rt, alloc, &mut Silent, 1000, 210, 3)
}

/// After a put that failed no turn is taken: of three dots the last one does not fit.
#[test]
fn a_failed_put_ends_the_watch(rt: HostRuntime) -> Result<(), Fail> {
    let alloc = rt.alloc();
    let mut m = machine(alloc)?;
    let mut sink = MemSink::new(alloc, 2, Vec::new(alloc))?;
    let mut dots = Dots {
        turns: 0,
        commits: 0,
    };
    let watched = watch(&mut m, &mut Lockstep, 1000, &mut dots, &mut sink);
    assert!(rt; watched.is_err());
    assert_eq!(rt;
        (m.cycles(), dots.turns, sink.bytes()),
        (3, 3, b"..".as_slice())
    );
    Ok(())
}
