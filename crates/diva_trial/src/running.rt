// A core under a script that drives a machine, and what a fault changes of that.
ghost use Rattle.std.specs.Prelude.{◌≡◌, ◌≢◌, ◌≤◌, ◌<◌, ◌^◌, ◌+◌, ◌∷◌, ◌↔◌, [], length, take, true, false};
ghost use Rattle.diva_isa.specs.State.{goes_on};
ghost use Rattle.diva_faults.specs.Lists.{laid_in};
ghost use Rattle.diva_faults.specs.Rows.{IsRow, row_cycle};
ghost use Rattle.diva_trial.specs.Inner.{AreAlike, IsOver, IsStruckTurn, StandsOn, StandsStruck};

use crate::driven::Driven;
use diva_core::{Claim, Claims, Core, Told, first_difference};
use diva_faults::{Row, Script};

/// Has a core under a script drive a machine until so many cycles have run since it was new, or it ends.
#[inline(never)]
pub(crate) fn run_plain<M: Driven, C: Core>(m: &mut M, core: &mut C, script: &Script, until: u64)
    requires most { until ≤ 2 ^ 60 }
    requires within { (M.seen m.old).timed.cycles ≤ until }
    ensures stands { StandsOn M.step C.gives script.now (M.seen m.old) core.old (M.seen m.new) core.new }
    ensures over { IsOver until (M.seen m.new) }
    ensures alike { AreAlike (M.seen m.old) (M.seen m.new) }
{
    let mut list = Claims::new();
    while m.cycles() < until && m.goes_on() {
        list.clear();
        core.cycle(&m.told(), &m.view(), &mut list);
        script.lay(m.cycles() + 1, &mut list);
        m.cycle(&list);
    }
}

/// The same under a fault. Whether it hit, so that the machine accepted other claims in some cycle.
#[inline(never)]
pub(crate) fn run_struck<M: Driven, C: Core>(
    m: &mut M,
    core: &mut C,
    script: &Script,
    fault: &Row,
    until: u64,
) -> bool
    requires fault { IsRow fault.now }
    requires most { until ≤ 2 ^ 60 }
    requires within { (M.seen m.old).timed.cycles ≤ until }
    requires before { (M.seen m.old).timed.cycles < row_cycle fault.now }
    ensures struck { StandsStruck M.step C.gives script.now fault.now (M.seen m.old) core.old (M.seen m.new) core.new result }
    ensures over { IsOver until (M.seen m.new) }
    ensures alike { AreAlike (M.seen m.old) (M.seen m.new) }
{
    let mut list = Claims::new();
    let mut hit = false;
    while m.cycles() < until && m.goes_on() {
        list.clear();
        let struck = turn_struck(m, core, script, fault, &mut list);
        hit = hit || struck;
    }
    hit
}

/// One turn under a fault.
#[inline(always)]
fn turn_struck<M: Driven, C: Core>(
    m: &mut M,
    core: &mut C,
    script: &Script,
    fault: &Row,
    list: &mut Claims,
) -> bool
    requires fault { IsRow fault.now }
    requires few { (M.seen m.old).timed.cycles < 2 ^ 60 }
    requires on { goes_on (M.seen m.old).timed.arch ≡ true }
    requires list { list.old ≡ [] }
    ensures turn { IsStruckTurn M.step C.gives script.now fault.now
        (M.seen m.old) core.old (M.seen m.new) core.new result }
    ensures raised { (M.seen m.new).timed.cycles ≡ (M.seen m.old).timed.cycles + 1 }
    ensures alike { AreAlike (M.seen m.old) (M.seen m.new) }
{
    let told = m.told();
    core.cycle(&told, &m.view(), list);
    script.lay(told.cycle, list);
    let others = strike(fault, &told, list);
    m.cycle(list);
    let accepted = are_accepted(&told, &m.told());
    others && accepted
}

/// Whether claims were accepted in a cycle: it neither flushed nor ended, by what is told before it and after it.
#[inline(always)]
fn are_accepted(before: &Told, after: &Told) -> bool
    ensures { (result ≡ true) ↔ ((after.now.ended ≡ false) × (after.now.epoch ≡ before.now.epoch)) }
{
    !after.ended && after.epoch == before.epoch
}

/// Lays a fault over the list of a cycle. Whether other claims are accepted then, if any are.
#[inline(always)]
fn strike(fault: &Row, told: &Told, list: &mut Claims) -> bool
    requires { IsRow fault.now }
    ensures list { list.new ≡ laid_in told.now.cycle list.old fault.now }
    ensures others { (result ≡ true) ↔ (take told.now.room list.old ≢ take told.now.room list.new) }
{
    if told.cycle < u64::from(fault.cycle()) || u64::from(fault.end()) <= told.cycle {
        return false;
    }
    strike_within(fault, told, list)
}

/// The same in a cycle that the fault touches.
#[inline(never)]
fn strike_within(fault: &Row, told: &Told, list: &mut Claims) -> bool
    requires { IsRow fault.now }
    ensures list { list.new ≡ laid_in told.now.cycle list.old fault.now }
    ensures others { (result ≡ true) ↔ (take told.now.room list.old ≢ take told.now.room list.new) }
{
    let plain = copy_of(list);
    fault.lay_in(told.cycle, list);
    !are_same(first_of(&plain, told.room), first_of(list, told.room))
}

/// The first claims of a list, at most so many.
fn first_of(list: &Claims, most: u32) -> &[Claim]
    ensures { result.now ≡ take most list.entry.now }
{
    let claims = list.as_slice();
    &claims[..claims.len().min(most as usize)]
}

/// A copy of a list.
fn copy_of(list: &Claims) -> Claims
    ensures { result ≡ list.now }
{
    let mut copy = Claims::new();
    for claim in list.as_slice() {
        copy.push(*claim);
    }
    copy
}

/// Whether claims are the same.
fn are_same(some: &[Claim], others: &[Claim]) -> bool
    ensures { (result ≡ true) ↔ (some.now ≡ others.now) }
{
    if some.len() != others.len() {
        return false;
    }
    for place in 0..some.len() {
        if first_difference(&some[place], &others[place]).is_some() {
            return false;
        }
    }
    true
}
