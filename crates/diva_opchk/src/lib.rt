//! The checker's stage of operands: the words that a pending claim says its instruction read.
//!
//! The fields are those of the row `operands` of `diva_core`'s `specs/Stages.antt`, compared with the record that is due after
//! the older claims: what they say that they wrote bypasses the register file.
#![tactic(auto)]

ghost use Rattle.std.specs.Prelude.{◌≡◌, ◌<◌, length, None, Some, IfSome, slice_get};
ghost use Rattle.diva_decode.specs.Table.{row_of, HasRegisters};
ghost use Rattle.diva_isa.specs.State.{State};
ghost use Rattle.diva_isa.specs.Step.{record_of};
ghost use Rattle.diva_isa.specs.declared.record.Record.{Record};
ghost use Rattle.diva_core.specs.declared.pending.Entry.{Entry};
ghost use Rattle.diva_core.specs.Difference.{difference_in};
ghost use Rattle.diva_core.specs.Entries.{IsDecoded};
ghost use Rattle.diva_core.specs.Older.{before_entry};
ghost use Rattle.diva_core.specs.Stages.{Answers, Finds, earlier, is_memory, operands};

use diva_core::{Bypass, Claim, Diff, Entry, Field, Pending, View};
use diva_decode::{Instr, decode};
use diva_isa::{Look, Operands, Record, Regs, sources, sources_in};

/// The first difference in src1 and src2 between the claim at a place (the oldest is at 0) and the record that is due after the
/// older claims, `None` where there is none. Where the older claims have ended the machine, or pc and word differ, nothing is
/// said of the answer.
#[inline(always)]
pub fn check(pending: &Pending, at: usize, view: &View<'_>) -> Option<Diff>
    requires { at < length pending.now.items }
    ensures { (e : Entry) → slice_get pending.now.items at ≡ Some e
        → Answers operands (before_entry view.now pending.now.items at) e.claim result }
{
    let entry = pending.at(at);
    let state = Bypass::new(pending, at, view);
    match entry.decoded {
        Some(decoded) => compare(&entry.claim, Some(decoded), &state),
        None => check_anew(pending, at, &view.copied()),
    }
}

/// The first difference in src1 and src2 between an entry's claim and the record that is due after the older claims, `None`
/// where there is none. Where [`check`] looks through the older claims, this call is handed the registers after them, `regs`.
/// Where the older claims have ended the machine, or pc and word differ, nothing is said of the answer.
#[inline(always)]
pub fn check_in(entry: &Entry, regs: &Regs) -> Option<Diff>
    requires { IsDecoded entry.now }
    ensures { (s : State) → s.regs ≡ regs.now → Answers operands s entry.now.claim result }
{
    differs(&entry.claim, sources_in(regs, entry.decoded()))
}

/// The first difference in src1 and src2 between a claim and the record that is due in a state. `decoded` is what the claim's
/// word says.
#[inline(always)]
#[tactic(auto, using(diva_core::proofs::Agreeing::operands_due))]
fn compare<L: Look>(claim: &Claim, decoded: Option<Instr>, state: &L) -> Option<Diff>
    requires row { decoded ≡ row_of claim.now.word }
    requires registers { IfSome decoded HasRegisters }
    ensures { Finds operands claim.now (record_of (L.shows state.now)) result }
{
    differs(claim, sources(state, decoded))
}

/// The first difference in src1 and src2 between a claim and what its instruction reads.
#[inline(always)]
fn differs(claim: &Claim, read: Operands) -> Option<Diff>
    ensures { (due : Record) → read.first ≡ due.src1 → read.second ≡ due.src2
        → result ≡ difference_in (operands.fields (is_memory due)) claim.now due }
{
    if claim.src1 != read.first {
        return Some(Diff::new(Field::Src1, claim.src1, read.first));
    }
    if claim.src2 != read.second {
        return Some(Diff::new(Field::Src2, claim.src2, read.second));
    }
    None
}

/// The same, where what the word says was not noted.
#[cold]
#[inline(never)]
fn check_anew(pending: &Pending, at: usize, view: &View<'_>) -> Option<Diff>
    requires { at < length pending.now.items }
    ensures { (e : Entry) → slice_get pending.now.items at ≡ Some e
        → Answers operands (before_entry view.now pending.now.items at) e.claim result }
{
    let claim = &pending.at(at).claim;
    compare(claim, decode(claim.word), &Bypass::new(pending, at, view))
}

/// Gives a record whose pc and word are due the words that its instruction reads from a state. Its other fields stay.
pub fn solo(r: &mut Record, view: &View<'_>)
    ensures due { let due = record_of view.now in
        difference_in (earlier operands) r.old due ≡ None → r.new ≡ record r.old { src1 = due.src1; src2 = due.src2 } }
    ensures rest { r.new ≡ record r.old { src1 = r.new.src1; src2 = r.new.src2 } }
{
    *r = fill(*r, decode(r.word), view);
}

#[inline]
#[tactic(auto, using(diva_core::proofs::Agreeing::operands_filled))]
fn fill<L: Look>(r: Record, decoded: Option<Instr>, state: &L) -> Record
    requires row { decoded ≡ row_of r.word }
    requires registers { IfSome decoded HasRegisters }
    ensures due { let due = record_of (L.shows state.now) in
        difference_in (earlier operands) r due ≡ None → result ≡ record r { src1 = due.src1; src2 = due.src2 } }
    ensures rest { result ≡ record r { src1 = result.src1; src2 = result.src2 } }
{
    let read = sources(state, decoded);
    Record {
        src1: read.first,
        src2: read.second,
        ..r
    }
}
