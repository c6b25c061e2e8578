// A run as a drawing in text.
ghost use Rattle.std.specs.Prelude.{◌≡◌, ◌≤◌, ◌++◌, ◌-◌, codes, length, map, min};
ghost use Rattle.std.specs.List.{concat};
ghost use Rattle.diva_outside.specs.Lent.{lent};
ghost use Rattle.diva_outside.specs.Sink.{PutsTo};
ghost use Rattle.diva_drawing.specs.Pieces.{Passes};
ghost use Rattle.diva_drawing.specs.Drawing.{cell, claim_row, committed_claims, drawn_cycle, drawn_end, dropped_claim_rows, dropped_claims, ended_solo, first_drop, last_letter, letter, listed_in, name_text, number_cell, padded, row_text, rows_text, scale_text, solo_rows};

use crate::block::Block;
use crate::excerpt::Excerpt;
use crate::rows::{DrawnRow, Ending, committed_rows, dropped_rows};
use crate::snapshot::{Snapshot, SnapshotClaim, SnapshotSolo};
use diva_asm::list_line;
use diva_core::Cause;
use diva_isa::Record;
use diva_outside::{Line, LineList, Sink, SinkFailed};
use diva_trace::line_of;

/// As many blanks as the name of a row has bytes.
const BLANKS: &[u8; 26] = b"                          ";

/// Puts the rows that end in a cycle, before and behind which this was seen of a machine. Where a put fails, a prefix of them was
/// appended.
pub(crate) fn put_drawn<S: Sink>(
    before: &Snapshot,
    after: &Snapshot,
    excerpt: Excerpt,
    block: &mut Block,
    sink: &mut S,
) -> Result<(), SinkFailed>
    ensures { PutsTo (lent S.account sink.old sink.new) (drawn_cycle excerpt before.now after.now) result }
{
    let last = after.cycles();
    let solo = ended_solo(before, after);
    let commits = committed_claims(before, after);
    let drops = dropped_claims(before, after);
    let first = first_drop(before, after);
    put_solo(solo, last, Ending::Commits, excerpt, block, sink)?;
    put_claims(commits, last, Ending::Commits, excerpt, block, sink)?;
    put_dropped(drops, last, first, excerpt, block, sink)
}

/// The instruction that ran solo and committed in a cycle, if one did.
fn ended_solo(before: &Snapshot, after: &Snapshot) -> Option<SnapshotSolo>
    ensures { result ≡ ended_solo before.now after.now }
{
    if committed_rows(before, after) == 0 {
        None
    } else {
        before.solo()
    }
}

/// The claims that committed in a cycle.
#[tactic(auto, using(std::proofs::lemmas::List::take_min))]
fn committed_claims<'a>(before: &'a Snapshot, after: &Snapshot) -> &'a [SnapshotClaim]
    ensures { result.now ≡ committed_claims before.now after.now }
{
    let claims = before.claims();
    let committed = committed_rows(before, after) as usize;
    &claims[..committed.min(claims.len())]
}

/// The claims that were dropped in a cycle.
#[tactic(auto, using(std::proofs::lemmas::List::take_min))]
fn dropped_claims<'a>(before: &'a Snapshot, after: &Snapshot) -> &'a [SnapshotClaim]
    ensures { result.now ≡ dropped_claims before.now after.now }
{
    let committed = committed_rows(before, after) as usize;
    let others = before.claims().get(committed..).unwrap_or(&[]);
    let dropped = dropped_rows(before, after) as usize;
    &others[..dropped.min(others.len())]
}

/// Puts the rows that are open at last, and the scale. Where a put fails, a prefix of them was appended.
pub(crate) fn put_stopped<S: Sink>(
    last: &Snapshot,
    excerpt: Excerpt,
    block: &mut Block,
    sink: &mut S,
) -> Result<(), SinkFailed>
    ensures { PutsTo (lent S.account sink.old sink.new) (drawn_end excerpt last.now) result }
{
    let cycles = last.cycles();
    put_solo(last.solo(), cycles, Ending::Stays, excerpt, block, sink)?;
    put_claims(last.claims(), cycles, Ending::Stays, excerpt, block, sink)?;
    put_scale(cycles, excerpt, block, sink)
}

/// How the first of the claims that are dropped in a cycle ends: it flushes, where it is the one that differed.
fn first_drop(before: &Snapshot, after: &Snapshot) -> Ending
    ensures { result ≡ first_drop before.now after.now }
{
    let has_differed = after
        .newest
        .is_some_and(|flush| matches!(flush.cause, Cause::Differs(_)));
    if after.flushes != before.flushes && has_differed {
        Ending::Flushes
    } else {
        Ending::Drops
    }
}

/// Puts the row of an instruction that ran solo, if one did.
fn put_solo<S: Sink>(
    solo: Option<SnapshotSolo>,
    last: u64,
    ending: Ending,
    excerpt: Excerpt,
    block: &mut Block,
    sink: &mut S,
) -> Result<(), SinkFailed>
    ensures { PutsTo (lent S.account sink.old sink.new) (rows_text excerpt (solo_rows last ending solo)) result }
{
    match solo {
        Some(solo) => put_row(
            &DrawnRow {
                claim: solo.due,
                since: solo.since,
                solo: true,
                last,
                ending,
            },
            excerpt,
            block,
            sink,
        ),
        None => Ok(()),
    }
}

/// Puts the rows of some claims that end alike.
fn put_claims<S: Sink>(
    claims: &[SnapshotClaim],
    last: u64,
    ending: Ending,
    excerpt: Excerpt,
    block: &mut Block,
    sink: &mut S,
) -> Result<(), SinkFailed>
    ensures { PutsTo (lent S.account sink.old sink.new) (rows_text excerpt (map (claim_row last ending) claims.now)) result }
{
    for claim in claims {
        put_row(&claim_row(claim, last, ending), excerpt, block, sink)?;
    }
    Ok(())
}

/// Puts the rows of claims that are dropped, the first of which ends so.
fn put_dropped<S: Sink>(
    claims: &[SnapshotClaim],
    last: u64,
    first: Ending,
    excerpt: Excerpt,
    block: &mut Block,
    sink: &mut S,
) -> Result<(), SinkFailed>
    ensures { PutsTo (lent S.account sink.old sink.new) (rows_text excerpt (dropped_claim_rows last first claims.now)) result }
{
    match claims {
        [] => Ok(()),
        [claim, others @ ..] => {
            put_row(&claim_row(claim, last, first), excerpt, block, sink)?;
            put_claims(others, last, Ending::Drops, excerpt, block, sink)
        }
    }
}

/// The row of a claim.
fn claim_row(claim: &SnapshotClaim, last: u64, ending: Ending) -> DrawnRow
    ensures { result ≡ claim_row last ending claim.now }
{
    DrawnRow {
        claim: claim.claim,
        since: claim.cycle,
        solo: false,
        last,
        ending,
    }
}

/// Puts a row, the listed instruction and its cells, if it has a cell in the excerpt.
#[tactic(auto, unfolding(crate::specs::Drawing::row_text))]
fn put_row<S: Sink>(
    row: &DrawnRow,
    excerpt: Excerpt,
    block: &mut Block,
    sink: &mut S,
) -> Result<(), SinkFailed>
    ensures { PutsTo (lent S.account sink.old sink.new) (row_text excerpt row.now) result }
{
    if excerpt.to < row.since || row.last < excerpt.from {
        return Ok(());
    }
    let cells = Cells {
        row,
        last: row.last,
        excerpt,
    };
    put_cells(&name_line(&row.claim), &cells, block, sink)
}

/// Puts a name, with cells behind it, as one line, in pieces. Where a put fails, a prefix of it was appended.
fn put_cells<L: LineList, S: Sink>(
    name: &Line,
    cells: &L,
    block: &mut Block,
    sink: &mut S,
) -> Result<(), SinkFailed>
    ensures { PutsTo (lent S.account sink.old sink.new) (name.now ++ concat (L.lines cells.now) ++ codes "\n") result }
{
    block.clear();
    block.line(name);
    push_cells(cells, block, sink)?;
    block.push(&line_end(), sink)?;
    block.put(sink)
}

/// Appends cells to what is held, in pieces.
fn push_cells<L: LineList, S: Sink>(
    cells: &L,
    block: &mut Block,
    sink: &mut S,
) -> Result<(), SinkFailed>
    ensures { Passes (lent S.account sink.old sink.new) (concat (L.lines cells.now)) block.old block.new result }
{
    for at in 0..cells.count() {
        block.push(&cells.line(at), sink)?;
    }
    Ok(())
}

/// What ends a line.
fn line_end() -> Line
    ensures { result ≡ codes "\n" }
{
    line_of!(text b"\n")
}

/// The name of a row: what the listing has of the word, without its address and its digits.
fn name_line(claim: &Record) -> Line
    ensures { result ≡ name_text claim.now }
{
    let listed = list_line(claim.pc, claim.word);
    padded(listed_text(&listed))
}

/// What a line of the listing has behind the address and the digits, without its line feed.
fn listed_text(line: &Line) -> &[u8]
    ensures text { result.now ≡ listed_in line.now }
    ensures short { length result.now ≤ 110 }
{
    let text = line.bytes();
    let text = &text[..text.len().saturating_sub(1)];
    text.get(18..).unwrap_or(b"")
}

/// A text with blanks behind it, as wide as the name of a row.
#[tactic(auto, unfolding(crate::specs::Drawing::blanks))]
fn padded(text: &[u8]) -> Line
    requires { length text.now ≤ 110 }
    ensures { result ≡ padded text.now }
{
    line_of!(text text, text BLANKS.get(text.len()..).unwrap_or(b""))
}

/// The cells of a row in the excerpt, up to its last one.
#[derive(Drop)]
struct Cells<'a> {
    row: &'a DrawnRow,
    /// The row's last cycle.
    last: u64,
    excerpt: Excerpt,
    ghost same: { last ≡ row.now.last },
}

impl LineList for Cells<'_> {
    ghost use Rattle.diva_drawing.specs.Drawing.{cells};

    ghost lines = { λ s. cells s.excerpt s.row.now };

    #[tactic(auto, using(crate::proofs::Excerpts::length_numbered_in))]
    fn count(&self) -> usize {
        columns(self.last, self.excerpt)
    }

    #[tactic(auto, using(crate::proofs::Excerpts::length_numbered_in, crate::proofs::Excerpts::line_numbered_in))]
    fn line(&self, at: usize) -> Line {
        cell(
            self.row,
            self.excerpt.from.saturating_sub(1) + at as u64 + 1,
        )
    }
}

/// How many cycles of the excerpt there are up to a last cycle.
fn columns(last: u64, excerpt: Excerpt) -> usize
    ensures { result ≡ min excerpt.to last - (excerpt.from - 1) }
{
    excerpt
        .to
        .min(last)
        .saturating_sub(excerpt.from.saturating_sub(1)) as usize
}

/// The cell of a row in a cycle.
fn cell(row: &DrawnRow, cycle: u64) -> Line
    ensures { result ≡ cell row.now cycle }
{
    let mut line = Line::new();
    if cycle < row.since {
        line.text(b"   ");
        return line;
    }
    let stays = letter(row.solo, cycle - row.since);
    line.text(b"  ");
    line.push(if cycle == row.last {
        last_letter(stays, row.ending)
    } else {
        stays
    });
    line
}

/// The letter of a row at an age.
#[tactic(auto, using(crate::proofs::Waiting::letter_waits))]
fn letter(solo: bool, age: u64) -> u8
    ensures { result ≡ letter solo age }
{
    match age {
        0 if solo => b'S',
        0 => b'A',
        1 => b'F',
        2 => b'D',
        3 => b'O',
        4 => b'X',
        5 => b'M',
        _ => b'.',
    }
}

/// The letter of a row in its last cycle.
fn last_letter(stays: u8, ending: Ending) -> u8
    ensures { result ≡ last_letter stays ending }
{
    match ending {
        Ending::Commits => b'C',
        Ending::Flushes => b'!',
        Ending::Drops => b'-',
        Ending::Stays => stays,
    }
}

/// Puts the scale: the last two digits of each cycle's number.
#[tactic(auto, unfolding(crate::specs::Drawing::scale_text))]
fn put_scale<S: Sink>(
    last: u64,
    excerpt: Excerpt,
    block: &mut Block,
    sink: &mut S,
) -> Result<(), SinkFailed>
    ensures { PutsTo (lent S.account sink.old sink.new) (scale_text excerpt last) result }
{
    put_cells(&padded(b"cycle"), &Scale { last, excerpt }, block, sink)
}

/// The numbers of the cycles in the excerpt, up to a last one.
#[derive(Drop)]
struct Scale {
    last: u64,
    excerpt: Excerpt,
}

impl LineList for Scale {
    ghost use Rattle.diva_drawing.specs.Drawing.{scale};

    ghost lines = { λ s. scale s.excerpt s.last };

    #[tactic(auto, using(crate::proofs::Excerpts::length_numbered_in))]
    fn count(&self) -> usize {
        columns(self.last, self.excerpt)
    }

    #[tactic(auto, using(crate::proofs::Excerpts::length_numbered_in, crate::proofs::Excerpts::line_numbered_in))]
    fn line(&self, at: usize) -> Line {
        number_cell(self.excerpt.from.saturating_sub(1) + at as u64 + 1)
    }
}

/// The last two digits of a cycle's number.
fn number_cell(cycle: u64) -> Line
    ensures { result ≡ number_cell cycle }
{
    let digits = cycle % 100;
    line_of!(text if digits < 10 { b"  " } else { b" " }, decimal digits)
}
