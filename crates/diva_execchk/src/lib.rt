//! The checker's last two stages: what a pending claim says that its instruction computed, and had of memory.
//!
//! The fields are those of the rows `execute` and `memory` of `diva_core`'s `specs/Stages.antt`, compared with the record
//! that is due after the older claims: the stores of these lie over memory, and the bytes that they put count, as they do
//! themselves.
#![tactic(auto)]

ghost use Rattle.std.specs.Prelude.{◌≡◌, ◌<◌, [], ◌∷◌, length, true, None, Some, slice_get};
ghost use Rattle.diva_decode.specs.Table.{row_of};
ghost use Rattle.diva_isa.specs.Kind.{kind, moves_memory};
ghost use Rattle.diva_isa.specs.State.{State};
ghost use Rattle.diva_isa.specs.Step.{record_of};
ghost use Rattle.diva_isa.specs.declared.record.Record.{Record};
ghost use Rattle.diva_core.specs.declared.pending.Entry.{Entry};
ghost use Rattle.diva_core.specs.Difference.{difference_in};
ghost use Rattle.diva_core.specs.Older.{before_entry};
ghost use Rattle.diva_core.specs.Stages.{Answers, Finds, earlier, execute, is_memory_by, memory, outcome_fields};

use diva_core::{Bypass, Claim, Diff, Entry, Field, Pending, View};
use diva_decode::{Instr, decode};
use diva_isa::{Look, Outcome, Record, access, address, execute, fetch, finish, kind_of};

/// The first difference in addr and, but for loads and stores, in value, next and end between the claim at a place (the oldest
/// is at 0) and the record that is due after the older claims, `None` where there is none. Where the older claims have ended
/// the machine, or pc, word, src1 or src2 differs, nothing is said of the answer.
#[inline(always)]
pub fn check(pending: &Pending, at: usize, view: &View<'_>) -> Option<Diff>
    requires { at < length pending.now.items }
    ensures { (e : Entry) → slice_get pending.now.items at ≡ Some e
        → Answers execute (before_entry view.now pending.now.items at) e.claim result }
{
    let entry = pending.at(at);
    let state = Bypass::new(pending, at, view);
    match entry.decoded {
        Some(i) => compare(&entry.claim, &i, &state),
        None => check_anew(pending, at, &view.copied()),
    }
}

/// The first difference in value, next and end of a load or a store between the claim at a place (the oldest is at 0) and the
/// record that is due after the older claims, `None` where there is none. Where the older claims have ended the machine, or a
/// field before value differs, nothing is said of the answer.
#[inline(always)]
#[tactic(auto, unfolding(diva_core::specs::Stages::fields_at))]
pub fn check_memory(pending: &Pending, at: usize, view: &View<'_>) -> Option<Diff>
    requires { at < length pending.now.items }
    ensures { (e : Entry) → slice_get pending.now.items at ≡ Some e
        → Answers memory (before_entry view.now pending.now.items at) e.claim result }
{
    let entry = pending.at(at);
    match entry.decoded {
        Some(i) if is_memory(Some(i)) => check_access(pending, at, entry, &i, view),
        Some(_) => None,
        None => check_memory_anew(pending, at, &view.copied()),
    }
}

/// The same of a claim that is at hand, and whose word is known to say a load or a store.
#[inline(always)]
pub fn check_access(
    pending: &Pending,
    at: usize,
    entry: &Entry,
    i: &Instr,
    view: &View<'_>,
) -> Option<Diff>
    requires place { at < length pending.now.items }
    requires entry { slice_get pending.now.items at ≡ Some entry.now }
    requires says { row_of entry.now.claim.word ≡ Some i.now }
    requires access { moves_memory (kind i.now.op) ≡ true }
    ensures { Answers memory (before_entry view.now pending.now.items at) entry.now.claim result }
{
    let state = Bypass::new(pending, at, view);
    compare_with(&entry.claim, access(&state, i, &entry.claim))
}

/// The same, where what the word says was not noted.
#[cold]
#[inline(never)]
#[tactic(auto, unfolding(diva_core::specs::Stages::fields_at))]
fn check_memory_anew(pending: &Pending, at: usize, view: &View<'_>) -> Option<Diff>
    requires { at < length pending.now.items }
    ensures { (e : Entry) → slice_get pending.now.items at ≡ Some e
        → Answers memory (before_entry view.now pending.now.items at) e.claim result }
{
    let entry = pending.at(at);
    let decoded = decode(entry.claim.word);
    if is_memory(decoded) {
        return compare_outcome(&entry.claim, decoded, &Bypass::new(pending, at, view));
    }
    None
}

/// The first difference in addr and, but for loads and stores, in value, next and end between a claim and the record that is
/// due in a state. The claim's word says the instruction `i`.
#[inline(always)]
#[tactic(auto, using(diva_core::proofs::Agreeing::address_due))]
fn compare<L: Look>(claim: &Claim, i: &Instr, state: &L) -> Option<Diff>
    requires { row_of claim.now.word ≡ Some i.now }
    ensures { Finds execute claim.now (record_of (L.shows state.now)) result }
{
    if is_memory(Some(*i)) {
        let addr = address(Some(*i), claim.src1);
        if claim.addr != addr {
            return Some(Diff::new(Field::Addr, claim.addr, addr));
        }
        return None;
    }
    if claim.addr != 0 {
        return Some(Diff::new(Field::Addr, claim.addr, 0));
    }
    compare_with(claim, execute(state, i, claim))
}

/// The same, where the claim's word says nothing.
fn compare_unread<L: Look>(claim: &Claim, state: &L) -> Option<Diff>
    requires { row_of claim.now.word ≡ None }
    ensures { Finds execute claim.now (record_of (L.shows state.now)) result }
{
    if claim.addr != 0 {
        return Some(Diff::new(Field::Addr, claim.addr, 0));
    }
    compare_outcome(claim, None, state)
}

/// The same, where what the word says was not noted.
#[cold]
#[inline(never)]
fn check_anew(pending: &Pending, at: usize, view: &View<'_>) -> Option<Diff>
    requires { at < length pending.now.items }
    ensures { (e : Entry) → slice_get pending.now.items at ≡ Some e
        → Answers execute (before_entry view.now pending.now.items at) e.claim result }
{
    let claim = &pending.at(at).claim;
    let state = Bypass::new(pending, at, view);
    match decode(claim.word) {
        Some(i) => compare(claim, &i, &state),
        None => compare_unread(claim, &state),
    }
}

/// The first difference in value, next and end between a claim and the record that is due in a state.
#[inline(always)]
fn compare_outcome<L: Look>(claim: &Claim, decoded: Option<Instr>, state: &L) -> Option<Diff>
    requires { decoded ≡ row_of claim.now.word }
    ensures { let due = record_of (L.shows state.now) in
        difference_in (earlier memory) claim.now due ≡ None → result ≡ difference_in outcome_fields claim.now due }
{
    compare_with(claim, outcome(claim, decoded, state))
}

/// The first difference in value, next and end between a claim and what is due.
#[inline(always)]
#[tactic(auto, using(diva_core::proofs::Agreeing::outcome_due))]
fn compare_with(claim: &Claim, due: Outcome) -> Option<Diff>
    ensures { (x : Record) → record claim.now { value = due.value; next = due.next; end = due.end } ≡ x
        → result ≡ difference_in outcome_fields claim.now x }
{
    if claim.value != due.value {
        return Some(Diff::new(Field::Value, claim.value, due.value));
    }
    if claim.next != due.next {
        return Some(Diff::new(Field::Next, claim.next, due.next));
    }
    if claim.end != due.end {
        return Some(Diff::new(Field::End, claim.end, due.end));
    }
    None
}

/// Gives a record whose pc, word, src1 and src2 are due in a state its other fields. Those four stay.
pub fn solo(r: &mut Record, view: &View<'_>)
    ensures due { let due = record_of view.now in difference_in (earlier execute) r.old due ≡ None → r.new ≡ due }
    ensures rest { r.new
        ≡ record r.new { pc = r.old.pc; word = r.old.word; src1 = r.old.src1; src2 = r.old.src2 } }
{
    let decoded = decode(r.word);
    let placed = placed(*r, decoded);
    *r = placed.ending_in(outcome(&placed, decoded, view));
}

/// Whether what a word says is a load or a store.
#[inline(always)]
pub fn is_memory(decoded: Option<Instr>) -> bool
    ensures { result ≡ is_memory_by decoded }
{
    match decoded {
        Some(i) => kind_of(i.op).moves_memory(),
        None => false,
    }
}

/// The record with the address that its instruction has.
#[tactic(auto, using(diva_core::proofs::Agreeing::address_filled, diva_core::proofs::Agreeing::placed_agrees))]
fn placed(r: Record, decoded: Option<Instr>) -> Record
    requires { decoded ≡ row_of r.word }
    ensures due { (s : State) → difference_in (earlier execute) r (record_of s) ≡ None
        → difference_in (earlier memory) result (record_of s) ≡ None }
    ensures rest { result ≡ record r { addr = result.addr } }
{
    Record {
        addr: address(decoded, r.src1),
        ..r
    }
}

/// What an instruction comes to in a state, by the first five fields of its record.
#[inline(always)]
#[tactic(auto, using(diva_core::proofs::Agreeing::outcome_filled))]
fn outcome<L: Look>(r: &Record, decoded: Option<Instr>, state: &L) -> Outcome
    requires { decoded ≡ row_of r.now.word }
    ensures { let due = record_of (L.shows state.now) in
        difference_in (earlier memory) r.now due ≡ None
        → record r.now { value = result.value; next = result.next; end = result.end } ≡ due }
{
    // Whether the word is there tells a fetch outside memory from a word that is not of the table.
    let there = decoded.is_some() || fetch(state).is_some();
    finish(state, there, decoded, r)
}
