// What became of the runs under a fault, beside the run that has none.
ghost use Rattle.std.specs.Prelude.{◌≡◌, ◌==◌, ◌&&◌, ℕ, not, option_map};
ghost use Rattle.std.specs.List.{list_any};
ghost use Rattle.diva_core.specs.declared.flushes.FlushRow.{FlushRow as Flush};
ghost use Rattle.diva_isa.specs.End.{end_of};
ghost use Rattle.diva_open.specs.Ends.{open_end_of};
ghost use Rattle.diva_trial.specs.Trials.{capped, has_bytes_of, is_same, is_trap, latency_of, open_end, open_outcome, outcome_of};

use diva_core::{FlushRow, View};
use diva_faults::Row;
use diva_inject::{OpenOutcome, Outcome};
use diva_isa::End;
use diva_machine::Machine;
use diva_open::{OpenEnd, OpenMachine};

/// What became of the runs under the fault of a number: `free` is the machine of the run without a fault, `last` that of the run with the
/// checker, and `left` that of the run without it, each at its end.
pub(crate) fn outcome_of(
    number: u32,
    fault: &Row,
    hit: bool,
    free: &Machine,
    last: &Machine,
    left: &OpenMachine,
) -> Outcome
    ensures { result ≡ outcome_of number fault.now hit free.now.timed last.now.timed left.now }
{
    Outcome {
        number,
        fault: *fault,
        hit,
        flushes: capped(last.flushes()),
        latency: latency_of(fault, free.log(), last.log()),
        cycles: capped(last.cycles()),
        same: is_same(last, free),
        open_run: open_outcome(free, left),
        open_place: capped_place(left.place()),
        open_end: open_end(left.ended()),
    }
}

/// A number as far as one of 32 bits goes. No run of the program is so long.
fn capped(number: u64) -> u32
    ensures { result ≡ capped number }
{
    number.min(u64::from(u32::MAX)) as u32
}

fn capped_place(place: Option<u64>) -> Option<u32>
    ensures { result ≡ option_map capped place }
{
    match place {
        Some(place) => Some(capped(place)),
        None => None,
    }
}

/// Whether a checked run came to what another one came to.
fn is_same(last: &Machine, free: &Machine) -> bool
    ensures { result ≡ is_same last.now.timed free.now.timed }
{
    let due = free.view();
    let left = last.view();
    last.ended() == free.ended()
        && last.count() == free.count()
        && last.output() == free.output()
        && left.regs() == due.regs()
        && left.pc() == due.pc()
        && has_bytes_of(&left, &due)
}

/// Whether two states have the same memory.
fn has_bytes_of(left: &View<'_>, due: &View<'_>) -> bool
    ensures { result ≡ has_bytes_of left.now due.now }
{
    left.has_bytes_of(due)
}

/// Whether an open run came to what a checked one came to.
fn masks(left: &OpenMachine, free: &Machine) -> bool
    ensures { result ≡ is_same left.now.timed free.now.timed }
{
    let due = free.view();
    let view = left.view();
    left.ended() == OpenEnd::from(free.ended())
        && left.count() == free.count()
        && left.output() == free.output()
        && view.regs() == due.regs()
        && view.pc() == due.pc()
        && has_bytes_of(&view, &due)
}

/// What became of an open run.
fn open_outcome(free: &Machine, left: &OpenMachine) -> OpenOutcome
    ensures { result ≡ open_outcome free.now.timed left.now.timed }
{
    if left.ended() == OpenEnd::Stray {
        OpenOutcome::Stray
    } else if masks(left, free) {
        OpenOutcome::Masked
    } else if left.goes_on() && !free.goes_on() {
        OpenOutcome::Hang
    } else if traps_otherwise(left.ended(), free.ended()) {
        OpenOutcome::Trap
    } else {
        OpenOutcome::Silent
    }
}

/// Whether an open run trapped, and the run without a fault did not, or by another trap.
fn traps_otherwise(end: OpenEnd, free: End) -> bool
    ensures { (left due : ℕ) → end ≡ open_end_of left → free ≡ end_of due → result ≡ (is_trap left && not (left == due)) }
{
    match end {
        OpenEnd::Trap(number) => free != End::Trap(number),
        OpenEnd::GoesOn | OpenEnd::Halt(_) | OpenEnd::Stray => false,
    }
}

/// How an open run ended, if it came to no claim that can't be applied.
fn open_end(end: OpenEnd) -> Option<End>
    ensures { (number : ℕ) → end ≡ open_end_of number → result ≡ open_end number }
{
    match end {
        OpenEnd::GoesOn => Some(End::GoesOn),
        OpenEnd::Halt(status) => Some(End::Halt(status)),
        OpenEnd::Trap(number) => Some(End::Trap(number)),
        OpenEnd::Stray => None,
    }
}

/// How many cycles came from a fault's first to the first flush that it caused, of those flushes that are kept.
fn latency_of(fault: &Row, known: &[FlushRow], rows: &[FlushRow]) -> Option<u32>
    ensures { result ≡ option_map capped (latency_of fault.now known.now rows.now) }
{
    let first = u64::from(fault.cycle());
    for row in rows {
        if first <= row.cycle && !has_cycle(known, row.cycle) {
            return Some(capped(row.cycle - first));
        }
    }
    None
}

/// Whether one of some flushes came in this cycle.
fn has_cycle(rows: &[FlushRow], cycle: u64) -> bool
    ensures { result ≡ list_any (λ (row : Flush). row.cycle == cycle) rows.now }
{
    rows.iter().any(|row| row.cycle == cycle)
}
