// A run as a log in the Kanata format, version 4.
ghost use Rattle.std.specs.Prelude.{◌≡◌, ◌≤◌, ◌<◌, ◌+◌, ◌-◌, ◌*◌, ◌^◌, ◌++◌, ◌∷◌, [], length, drop, slice_get, Some};
ghost use Rattle.std.specs.List.{concat};
ghost use Rattle.diva_outside.specs.Lent.{lent};
ghost use Rattle.diva_outside.specs.Sink.{PutsTo};
ghost use Rattle.diva_drawing.specs.Pieces.{Passes};
ghost use Rattle.diva_drawing.specs.Log.{claim_text, claims_text, cycle_line, end_line, end_lines, ended_text, ending_number, flush_text, log_begin, noted_text, open_text, solo_text, surplus_text, was_noted};
ghost use Rattle.diva_drawing.specs.Rows.{accepted_claims, committed_rows, open_rows};

use crate::block::Block;
use crate::rows::{Ending, accepted_claims, begun_rows, committed_rows, dropped_rows, open_rows};
use crate::snapshot::{Snapshot, SnapshotClaim, SnapshotSolo};
use crate::stages::{Numbers, cause_line, note_lead, push_stage};
use diva_asm::list_line;
use diva_core::{Cause, Claim, Claims, Diff, FlushRow};
use diva_outside::{Line, LineList, Sink, SinkFailed, put_line, put_lines};
use diva_trace::line_of;

/// Puts the first lines of a log. Where that fails, a prefix of them was appended.
pub fn begin_log<S: Sink>(sink: &mut S) -> Result<(), SinkFailed>
    ensures { PutsTo (lent S.account sink.old sink.new) log_begin result }
{
    put_line(&first_lines(), sink)
}

/// The first lines of a log.
#[tactic(auto, unfolding(crate::specs::Log::log_begin))]
fn first_lines() -> Line
    ensures { result ≡ log_begin }
{
    line_of!(text b"Kanata\t0004\nC=\t0\n")
}

/// Puts the lines of what goes on after a cycle, or begins in it: `row` is the number of the oldest such row. They are put in pieces.
/// Where a put fails, a prefix of them was appended.
pub(crate) fn put_open<S: Sink>(
    block: &mut Block,
    row: u64,
    before: &Snapshot,
    after: &Snapshot,
    handed: &Claims,
    sink: &mut S,
) -> Result<(), SinkFailed>
    requires row { row < 2 ^ 63 }
    requires count { after.now.count ≤ 2 ^ 62 }
    ensures { PutsTo (lent S.account sink.old sink.new) (open_text row before.now after.now handed.now) result }
{
    block.clear();
    push_open(block, row, before, after, handed, sink)?;
    block.put(sink)
}

/// Appends these lines to those that are held, which are put where they fill a piece.
#[tactic(auto, unfolding(crate::specs::Log::open_text))]
fn push_open<S: Sink>(
    block: &mut Block,
    row: u64,
    before: &Snapshot,
    after: &Snapshot,
    handed: &Claims,
    sink: &mut S,
) -> Result<(), SinkFailed>
    requires row { row < 2 ^ 63 }
    requires count { after.now.count ≤ 2 ^ 62 }
    ensures { Passes (lent S.account sink.old sink.new) (open_text row before.now after.now handed.now) block.old block.new result }
{
    push_cycle(block, sink)?;
    push_claims(block, row, before, after, sink)?;
    push_solo(block, row, after, sink)?;
    push_others(block, row, before, after, handed, sink)
}

/// Appends the claims of the list that were not accepted, below the newest row.
fn push_others<S: Sink>(
    block: &mut Block,
    row: u64,
    before: &Snapshot,
    after: &Snapshot,
    handed: &Claims,
    sink: &mut S,
) -> Result<(), SinkFailed>
    requires { row < 2 ^ 63 }
    ensures { Passes (lent S.account sink.old sink.new)
        (surplus_text (row + open_rows after.now - 1) (drop (accepted_claims before.now after.now) handed.now))
        block.old block.new result }
{
    let newest = (row + open_rows(after)).saturating_sub(1);
    let accepted = accepted_claims(before, after);
    let surplus = handed.as_slice().get(accepted..).unwrap_or(&[]);
    push_surplus(block, newest, surplus, sink)
}

/// Appends the line of the next cycle.
fn push_cycle<S: Sink>(block: &mut Block, sink: &mut S) -> Result<(), SinkFailed>
    ensures { Passes (lent S.account sink.old sink.new) cycle_line block.old block.new result }
{
    block.push(&line_of!(text b"C\t1\n"), sink)
}

/// Appends the lines of the pending claims, the oldest first.
fn push_claims<S: Sink>(
    block: &mut Block,
    row: u64,
    before: &Snapshot,
    after: &Snapshot,
    sink: &mut S,
) -> Result<(), SinkFailed>
    requires row { row < 2 ^ 63 }
    requires count { after.now.count ≤ 2 ^ 62 }
    ensures { Passes (lent S.account sink.old sink.new) (claims_text row after.now.count after.now.cycles
        (drop (committed_rows before.now after.now) before.now.claims) after.now.claims) block.old block.new result }
{
    let committed = committed_rows(before, after) as usize;
    let was = before.claims().get(committed..).unwrap_or(&[]);
    let numbers = Numbers {
        row,
        place: after.count(),
    };
    push_each(block, numbers, after.cycles(), was, after.claims(), sink)
}

/// Appends the lines of some pending claims, the oldest first, which has these numbers. Those that were pending before the cycle are
/// given as they were then.
fn push_each<S: Sink>(
    block: &mut Block,
    first: Numbers,
    now: u64,
    was: &[SnapshotClaim],
    claims: &[SnapshotClaim],
    sink: &mut S,
) -> Result<(), SinkFailed>
    requires few { length claims.now ≤ 64 }
    requires row { first.row < 2 ^ 63 }
    requires place { first.place ≤ 2 ^ 62 }
    ensures { Passes (lent S.account sink.old sink.new)
        (claims_text first.row first.place now was.now claims.now) block.old block.new result }
{
    for n in 0..claims.len() {
        block.make_room(768, sink)?;
        push_numbered(block, first, now, was, claims, n);
    }
    Ok(())
}

/// Appends the lines of the claim at a place among these.
fn push_numbered(
    block: &mut Block,
    first: Numbers,
    now: u64,
    was: &[SnapshotClaim],
    claims: &[SnapshotClaim],
    n: usize,
)
    requires room { length block.old + 768 ≤ 4096 }
    requires inside { n < length claims.now }
    requires few { length claims.now ≤ 64 }
    requires row { first.row < 2 ^ 63 }
    requires place { first.place ≤ 2 ^ 62 }
    ensures bytes { block.new ≡ block.old
        ++ claim_text (first.row + n) (first.place + n) now (was_noted (slice_get was.now n)) (slice_get claims.now n) }
    ensures len { length block.new ≤ length block.old + 768 }
{
    let numbers = Numbers {
        row: first.row + n as u64,
        place: first.place + n as u64,
    };
    push_claim(block, numbers, now, was_noted(was, n), &claims[n]);
}

/// Appends the lines of a pending claim, of which a verdict had been noted before the cycle or not.
fn push_claim(block: &mut Block, numbers: Numbers, now: u64, noted: bool, claim: &SnapshotClaim)
    requires room { length block.old + 768 ≤ 4096 }
    ensures bytes { block.new ≡ block.old ++ claim_text numbers.row numbers.place now noted (Some claim.now) }
    ensures len { length block.new ≤ length block.old + 768 }
{
    let age = now.saturating_sub(claim.cycle);
    push_stage(block, b"accepted", numbers, &claim.claim, age);
    push_noted(block, numbers.row, noted, claim.verdict);
}

/// Whether a verdict is noted of the claim at a place, if there is one.
fn was_noted(claims: &[SnapshotClaim], at: usize) -> bool
    ensures { result ≡ was_noted (slice_get claims.now at) }
{
    match claims.get(at) {
        Some(claim) => claim.verdict.is_some(),
        None => false,
    }
}

/// Appends the verdict of a claim, where it was not noted before.
fn push_noted(block: &mut Block, row: u64, before: bool, verdict: Option<Diff>)
    requires { length block.old + 128 ≤ 4096 }
    ensures bytes { block.new ≡ block.old ++ noted_text row before verdict }
    ensures len { length block.new ≤ length block.old + 128 }
{
    if let Some(diff) = verdict
        && !before
    {
        block.line(&cause_line(row, &Cause::Differs(diff)));
    }
}

/// Appends the lines of the instruction that runs solo, if one does.
fn push_solo<S: Sink>(
    block: &mut Block,
    row: u64,
    after: &Snapshot,
    sink: &mut S,
) -> Result<(), SinkFailed>
    ensures { Passes (lent S.account sink.old sink.new)
        (solo_text row after.now.count after.now.cycles after.now.newest after.now.solo) block.old block.new result }
{
    block.make_room(768, sink)?;
    push_alone(block, row, after);
    Ok(())
}

/// Appends the same lines, for which there is room.
fn push_alone(block: &mut Block, row: u64, after: &Snapshot)
    requires { length block.old + 768 ≤ 4096 }
    ensures { block.new ≡ block.old ++ solo_text row after.now.count after.now.cycles after.now.newest after.now.solo }
{
    let Some(solo) = &after.solo else {
        return;
    };
    let numbers = Numbers {
        row,
        place: after.count,
    };
    let age = after.cycles.saturating_sub(solo.since);
    push_stage(block, b"solo", numbers, &solo.due, age);
    push_flush(block, row, age, after.newest);
}

/// Appends the cause of the flush that started an instruction solo, where it starts in this cycle.
fn push_flush(block: &mut Block, row: u64, age: u64, newest: Option<FlushRow>)
    requires { length block.old + 128 ≤ 4096 }
    ensures bytes { block.new ≡ block.old ++ flush_text row age newest }
    ensures len { length block.new ≤ length block.old + 128 }
{
    if let Some(flush) = newest
        && age == 0
    {
        block.line(&cause_line(row, &flush.cause));
    }
}

/// Appends claims that were not accepted, below a row.
fn push_surplus<S: Sink>(
    block: &mut Block,
    row: u64,
    claims: &[Claim],
    sink: &mut S,
) -> Result<(), SinkFailed>
    ensures { Passes (lent S.account sink.old sink.new) (surplus_text row claims.now) block.old block.new result }
{
    for claim in claims {
        block.make_room(256, sink)?;
        push_dropped(block, row, claim);
    }
    Ok(())
}

/// Appends a claim that was not accepted.
fn push_dropped(block: &mut Block, row: u64, claim: &Claim)
    requires { length block.old + 256 ≤ 4096 }
    ensures { block.new ≡ block.old ++ surplus_text row (claim.now ∷ []) }
{
    let mut lead = note_lead(row);
    lead.text(b"\\ndropped ");
    block.line(&lead);
    block.line(&list_line(claim.pc, claim.word));
}

/// Puts the lines of the rows that end in a cycle: `row` is the number of the oldest that was open. Where a put fails, a
/// prefix of them was appended.
#[tactic(auto, unfolding(crate::specs::Log::ended_text))]
pub(crate) fn put_ended<S: Sink>(
    row: u64,
    before: &Snapshot,
    after: &Snapshot,
    sink: &mut S,
) -> Result<(), SinkFailed>
    requires row { row < 2 ^ 62 }
    requires count { after.now.count ≤ 2 ^ 62 }
    ensures { PutsTo (lent S.account sink.old sink.new) (ended_text row before.now after.now) result }
{
    let committed = committed_rows(before, after);
    let dropped = dropped_rows(before, after);
    put_ends(Ending::Commits, row, before.count(), committed, sink)?;
    put_ends(Ending::Drops, row + committed, after.count(), dropped, sink)
}

/// Puts the lines of so many rows that end, one behind the other; the first has this number and this place. Where a put fails, a
/// prefix of them was appended.
fn put_ends<S: Sink>(
    ending: Ending,
    row: u64,
    place: u64,
    count: u64,
    sink: &mut S,
) -> Result<(), SinkFailed>
    requires row { row + count < 2 ^ 64 }
    requires place { place + count < 2 ^ 64 }
    ensures { PutsTo (lent S.account sink.old sink.new) (concat (end_lines ending row place count)) result }
{
    let lines = EndLines {
        ending,
        row,
        place,
        count,
    };
    put_lines(&lines, sink)
}

/// The lines of some rows that end, one behind the other.
#[derive(Drop)]
struct EndLines {
    ending: Ending,
    row: u64,
    place: u64,
    count: u64,
    ghost fits: { (row + count < 2 ^ 64) × (place + count < 2 ^ 64) },
}

impl LineList for EndLines {
    ghost use Rattle.diva_drawing.specs.Log.{end_lines};

    ghost lines = { λ s. end_lines s.ending s.row s.place s.count };

    #[tactic(auto, using(diva_trace::proofs::Numbered::length_numbered))]
    fn count(&self) -> usize {
        self.count as usize
    }

    #[tactic(auto, using(diva_trace::proofs::Numbered::length_numbered, diva_trace::proofs::Numbered::line_numbered))]
    fn line(&self, at: usize) -> Line {
        end_line(self.ending, self.row + at as u64, self.place + at as u64)
    }
}

/// A row ends.
#[tactic(auto, unfolding(crate::specs::Log::end_line))]
fn end_line(ending: Ending, row: u64, place: u64) -> Line
    ensures { result ≡ end_line ending row place }
{
    line_of!(
        text b"R\t", decimal row,
        text b"\t", decimal place,
        text b"\t", decimal ending_number(ending),
        text b"\n",
    )
}

/// The number of an ending in the log.
fn ending_number(ending: Ending) -> u64
    ensures { result ≡ ending_number ending }
{
    match ending {
        Ending::Commits => 0,
        Ending::Flushes | Ending::Drops | Ending::Stays => 1,
    }
}
