// The checker's stages: what a pending claim passes through at each age, and what the solo instruction does.
ghost use Rattle.std.specs.Prelude.{◌≡◌, ◌≤◌, ◌<◌, ◌+◌, ◌-◌, ℕ, length, map, true, None, Some, slice_get, slice_set, IsTrue};
ghost use Rattle.std.specs.Option.{option_or};
ghost use Rattle.diva_decode.specs.Table.{row_of};
ghost use Rattle.diva_core.specs.declared.pending.Entry.{Entry};
ghost use Rattle.diva_core.specs.Entries.{pending_claim_of};
ghost use Rattle.diva_core.specs.Future.{IsFuture};
ghost use Rattle.diva_core.specs.Older.{before_entry};
ghost use Rattle.diva_core.specs.Stages.{Answers, execute, fetch, memory, operands};
ghost use Rattle.diva_isa.specs.Kind.{kind, moves_memory};
ghost use Rattle.diva_isa.specs.State.{State};
ghost use Rattle.diva_vote.specs.Questions.{stage_row};
ghost use Rattle.diva_machine.specs.Staged.{IsFilled, last_stage};
ghost use Rattle.diva_machine.specs.Inner.{HasPassed};

use crate::arch::Arch;
use diva_core::{Diff, Entry, Field, FutureFile, Pending, View};
use diva_decode::Instr;
use diva_execchk::{check_access, is_memory};
use diva_isa::Record;
use diva_vote::{Stage, check};

/// The age at which a claim, or the solo instruction, passes through the stage of the fetch.
pub(crate) const FETCH_STAGE: u64 = 1;

/// The age at which a claim is decoded.
pub(crate) const DECODE_STAGE: u64 = 2;

/// The age at which a claim, or the solo instruction, passes through the stage of operands.
pub(crate) const OPERANDS_STAGE: u64 = 3;

/// The age at which a claim, or the solo instruction, passes through the stage that executes.
pub(crate) const EXECUTE_STAGE: u64 = 4;

/// The age at which a claim, or the solo instruction, passes through the last stage.
pub(crate) const LAST_STAGE: u64 = 5;

/// What a claim passes through at each age: the checks themselves, or three lanes that vote.
pub(crate) trait Stages {
    ghost use Rattle.std.specs.Prelude.{◌++◌, List};
    ghost use Rattle.diva_core.specs.Entries.{pending_claim_of};
    ghost use Rattle.diva_core.specs.Future.{IsFuture};
    ghost use Rattle.diva_core.specs.Older.{before_entry};
    ghost use Rattle.diva_core.specs.declared.pending.Entry.{Entry};
    ghost use Rattle.diva_vote.specs.Questions.{Question};
    ghost use Rattle.diva_machine.specs.Asked.{asked_at};
    ghost use Rattle.diva_machine.specs.Inner.{HasPassed};
    ghost use Rattle.diva_machine.specs.Staged.{last_stage};

    /// They answer as the checks do.
    ghost sound: { Self → Type 0 };

    /// What they were, the questions that were put to them since, in order, and what they are then.
    ghost led: { Self → List Question → Self → Type 0 };

    /// The claim at a place comes to an age, and passes through that age's stage. A difference that an earlier stage found
    /// stays.
    fn pass(
        &mut self,
        pending: &mut Pending,
        future: &mut FutureFile,
        at: usize,
        arch: &Arch,
        age: u64,
    )
        requires sound { sound self.old }
        requires place { at < length pending.old.items }
        requires age { 1 ≤ age }
        requires young { age ≤ last_stage }
        requires future { IsFuture arch.now.state pending.old.items future.old }
        ensures sound { sound self.new }
        ensures led { (e : Entry) (first : Self) (before : List Question) → slice_get pending.old.items at ≡ Some e
            → led first before self.old
            → led first
            (before ++ asked_at age (before_entry (record arch.now.state { end = 0 }) pending.old.items at) e.claim) self.new }
        ensures future { IsFuture arch.now.state pending.new.items future.new }
        ensures waits { map pending_claim_of pending.new.items ≡ map pending_claim_of pending.old.items }
        ensures capacity { pending.new.capacity ≡ pending.old.capacity }
        ensures advanced { HasPassed arch.now.state age at pending.old.items pending.new.items };
}

/// The stages that are the checks. No lane is asked.
///
/// Most claims agree. So each stage asks whether there is a difference, and only where there is one it is noted, by a call
/// that looks for it once more.
#[derive(Drop)]
pub(crate) struct Checks;

impl Stages for Checks {
    ghost use Rattle.std.specs.Prelude.{⊤};

    ghost sound = { λ checks. ⊤ };

    ghost led = { λ before questions after. ⊤ };

    #[inline(always)]
    #[tactic(auto, using(crate::proofs::Staging::future_same))]
    fn pass(
        &mut self,
        pending: &mut Pending,
        future: &mut FutureFile,
        at: usize,
        arch: &Arch,
        age: u64,
    ) {
        match age {
            FETCH_STAGE => pass_fetch(pending, at, arch),
            DECODE_STAGE => note_decoded(pending, at),
            OPERANDS_STAGE => pass_operands(pending, future, at, arch),
            EXECUTE_STAGE => pass_execute(pending, at, arch),
            LAST_STAGE => pass_last(pending, at, arch),
            // No claim comes to these. The compiler knows that an age is below 8: with an arm for each number it needs no test.
            0 => {}
            6 => {}
            7 => {}
            _ => unreachable!(),
        }
    }
}

/// The stage of the fetch.
#[inline(always)]
fn pass_fetch(pending: &mut Pending, at: usize, arch: &Arch)
    requires { at < length pending.old.items }
    ensures waits { map pending_claim_of pending.new.items ≡ map pending_claim_of pending.old.items }
    ensures capacity { pending.new.capacity ≡ pending.old.capacity }
    ensures advanced { HasPassed arch.now.state fetch.age at pending.old.items pending.new.items }
{
    if diva_fetchchk::check(pending, at, &arch.view()).is_some() {
        note_check(Stage::Fetch, pending, at, arch);
    }
}

/// The stage of operands. The future file has the registers after the older claims, and takes in the result of this one.
#[inline(always)]
#[tactic(auto, using(crate::proofs::Staging::future_same))]
fn pass_operands(pending: &mut Pending, future: &mut FutureFile, at: usize, arch: &Arch)
    requires place { at < length pending.old.items }
    requires future { IsFuture arch.now.state pending.old.items future.old }
    ensures future { IsFuture arch.now.state pending.new.items future.new }
    ensures waits { map pending_claim_of pending.new.items ≡ map pending_claim_of pending.old.items }
    ensures capacity { pending.new.capacity ≡ pending.old.capacity }
    ensures advanced { HasPassed arch.now.state operands.age at pending.old.items pending.new.items }
{
    pending.recall();
    let entry = pending.at(at);
    if future.claims() == at
        && entry.decoded.is_some()
        && diva_opchk::check_in(entry, future.regs()).is_none()
    {
        future.keep(entry);
    } else {
        note_operands(pending, future, at, arch);
    }
}

/// The same, where there is a difference, or the future file is not up to the claim: the older claims are then looked
/// through.
#[cold]
#[inline(never)]
#[tactic(auto, using(crate::proofs::Staging::future_same))]
fn note_operands(pending: &mut Pending, future: &mut FutureFile, at: usize, arch: &Arch)
    requires place { at < length pending.old.items }
    requires future { IsFuture arch.now.state pending.old.items future.old }
    ensures future { IsFuture arch.now.state pending.new.items future.new }
    ensures waits { map pending_claim_of pending.new.items ≡ map pending_claim_of pending.old.items }
    ensures capacity { pending.new.capacity ≡ pending.old.capacity }
    ensures advanced { HasPassed arch.now.state operands.age at pending.old.items pending.new.items }
{
    keep_next(future, pending, at);
    note_check(Stage::Operands, pending, at, arch);
}

/// The claim at a place leaves its result in the future file, where it is the next one to do so.
pub(crate) fn keep_next(future: &mut FutureFile, pending: &Pending, at: usize)
    requires { at < length pending.now.items }
    ensures { (s : State) → IsFuture s pending.now.items future.old → IsFuture s pending.now.items future.new }
{
    if future.claims() == at {
        pending.recall();
        future.keep(pending.at(at));
    }
}

/// The stage that executes.
#[inline(always)]
fn pass_execute(pending: &mut Pending, at: usize, arch: &Arch)
    requires { at < length pending.old.items }
    ensures waits { map pending_claim_of pending.new.items ≡ map pending_claim_of pending.old.items }
    ensures capacity { pending.new.capacity ≡ pending.old.capacity }
    ensures advanced { HasPassed arch.now.state execute.age at pending.old.items pending.new.items }
{
    if pending.at(at).decoded.is_none()
        || diva_execchk::check(pending, at, &arch.view()).is_some()
    {
        note_check(Stage::Execute, pending, at, arch);
    }
}

/// The last stage: of a claim that is no load and no store it compares nothing, and needs no view.
#[inline(always)]
fn pass_last(pending: &mut Pending, at: usize, arch: &Arch)
    requires { at < length pending.old.items }
    ensures waits { map pending_claim_of pending.new.items ≡ map pending_claim_of pending.old.items }
    ensures capacity { pending.new.capacity ≡ pending.old.capacity }
    ensures advanced { HasPassed arch.now.state memory.age at pending.old.items pending.new.items }
{
    let entry = pending.at(at);
    let agrees = match entry.decoded {
        Some(i) => !is_memory(Some(i)) || access_agrees(pending, at, entry, &i, arch),
        None => false,
    };
    if !agrees {
        note_check(Stage::Memory, pending, at, arch);
    }
}

/// Whether a claim that is at hand, and whose word says a load or a store, agrees with what is due of it. It is a call: few claims
/// are one.
#[inline(never)]
fn access_agrees(pending: &Pending, at: usize, entry: &Entry, i: &Instr, arch: &Arch) -> bool
    requires place { at < length pending.now.items }
    requires entry { slice_get pending.now.items at ≡ Some entry.now }
    requires says { row_of entry.now.claim.word ≡ Some i.now }
    requires access { moves_memory (kind i.now.op) ≡ true }
    ensures { IsTrue result → Answers memory
        (before_entry (record arch.now.state { end = 0 }) pending.now.items at) entry.now.claim None }
{
    check_access(pending, at, entry, i, &arch.view()).is_none()
}

/// Notes what the check of a stage finds in the claim at a place.
#[cold]
#[inline(never)]
fn note_check(stage: Stage, pending: &mut Pending, at: usize, arch: &Arch)
    requires { at < length pending.old.items }
    ensures waits { map pending_claim_of pending.new.items ≡ map pending_claim_of pending.old.items }
    ensures capacity { pending.new.capacity ≡ pending.old.capacity }
    ensures advanced { HasPassed arch.now.state (stage_row stage).age at pending.old.items pending.new.items }
{
    let found = check(stage, pending, at, &arch.view());
    note(pending, at, found);
}

/// Decodes the claim at a place.
#[inline(always)]
pub(crate) fn note_decoded(pending: &mut Pending, at: usize)
    requires { at < length pending.old.items }
    ensures items { (e : Entry) → slice_get pending.old.items at ≡ Some e
        → pending.new.items ≡ slice_set pending.old.items at (record e { decoded = row_of e.claim.word }) }
    ensures waits { map pending_claim_of pending.new.items ≡ map pending_claim_of pending.old.items }
    ensures capacity { pending.new.capacity ≡ pending.old.capacity }
{
    pending.note_decoded(at);
}

/// Gives the claim at a place what its stage found, unless an earlier stage found a difference: that one stays.
#[inline(always)]
pub(crate) fn note(pending: &mut Pending, at: usize, found: Option<Diff>)
    requires { at < length pending.old.items }
    ensures items { (e : Entry) → slice_get pending.old.items at ≡ Some e
        → pending.new.items ≡ slice_set pending.old.items at (record e { verdict = option_or e.verdict found }) }
    ensures waits { map pending_claim_of pending.new.items ≡ map pending_claim_of pending.old.items }
    ensures capacity { pending.new.capacity ≡ pending.old.capacity }
{
    if let Some(diff) = found {
        note_difference(pending, at, diff.field, diff.claimed, diff.due);
    }
}

#[cold]
#[inline(never)]
fn note_difference(pending: &mut Pending, at: usize, field: Field, claimed: u32, due: u32)
    requires { at < length pending.old.items }
    ensures items { (e : Entry) → slice_get pending.old.items at ≡ Some e
        → pending.new.items ≡ slice_set pending.old.items at
        (record e { verdict = option_or e.verdict (Some (record { field = field; claimed = claimed; due = due })) }) }
    ensures waits { map pending_claim_of pending.new.items ≡ map pending_claim_of pending.old.items }
    ensures capacity { pending.new.capacity ≡ pending.old.capacity }
{
    let entry = pending.at(at);
    if entry.verdict.is_some() {
        return;
    }
    let decoded = entry.decoded;
    pending.set(at, decoded, Some(Diff::new(field, claimed, due)));
}

/// The record of the solo instruction comes to an age, and gets the fields of that age's stage.
#[tactic(auto, using(crate::proofs::Verdicts::fields_kept), unfolding(diva_core::specs::Stages::fields_at))]
pub(crate) fn fill(r: &mut Record, view: &View<'_>, age: u64)
    requires { 1 ≤ age }
    ensures { IsFilled view.now (age - 1) r.old → IsFilled view.now age r.new }
{
    match age {
        FETCH_STAGE => diva_fetchchk::solo(r, view),
        OPERANDS_STAGE => diva_opchk::solo(r, view),
        EXECUTE_STAGE => diva_execchk::solo(r, view),
        _ => {}
    }
}
