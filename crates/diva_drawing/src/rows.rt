// Rows, and what becomes of them in a cycle.
ghost use Rattle.std.specs.Prelude.{◌≡◌, ◌≤◌, ◌<◌, ◌+◌, ◌^◌};
ghost use Rattle.diva_drawing.specs.Rows.{accepted_claims, begun_rows, committed_rows, dropped_rows, is_cut, open_rows, still_open_rows};

use crate::snapshot::Snapshot;
use diva_isa::Record;

/// How a row ends.
#[derive(Clone, Copy, Debug, PartialEq, Eq)]
pub enum Ending {
    /// The claim, or the instruction that ran solo, commits.
    Commits,
    /// The claim differs from the due record, and so the machine flushes.
    Flushes,
    /// The claim is dropped: the machine flushes, or an older claim has ended it.
    Drops,
    /// It is open at the end of the run.
    Stays,
}

/// A row that is drawn.
#[derive(Clone, Copy, Debug)]
pub struct DrawnRow {
    /// The claim, or the record of the instruction that ran solo.
    pub claim: Record,
    /// The cycle in which it begins.
    pub since: u64,
    /// Whether the instruction runs solo.
    pub solo: bool,
    /// Its last cycle.
    pub last: u64,
    /// How it ends.
    pub ending: Ending,
}

/// How many rows are open: those of the pending claims, or that of the instruction that runs solo.
pub(crate) fn open_rows(s: &Snapshot) -> u64
    ensures value { result ≡ open_rows s.now }
    ensures few { result ≤ 65 }
{
    s.claims.len() as u64 + u64::from(s.solo.is_some())
}

/// How many of them ended in a cycle since they committed.
pub(crate) fn committed_rows(before: &Snapshot, after: &Snapshot) -> u64
    ensures { result ≡ committed_rows before.now after.now }
{
    after.count.saturating_sub(before.count)
}

/// Whether the machine flushed in a cycle, or ended.
fn is_cut(before: &Snapshot, after: &Snapshot) -> bool
    ensures { result ≡ is_cut before.now after.now }
{
    after.flushes != before.flushes || !after.goes_on
}

/// How many rows were dropped in a cycle.
pub(crate) fn dropped_rows(before: &Snapshot, after: &Snapshot) -> u64
    ensures value { result ≡ dropped_rows before.now after.now }
    ensures few { result ≤ 65 }
{
    if is_cut(before, after) {
        open_rows(before).saturating_sub(committed_rows(before, after))
    } else {
        0
    }
}

/// How many rows began in a cycle.
pub(crate) fn begun_rows(before: &Snapshot, after: &Snapshot) -> u64
    ensures value { result ≡ begun_rows before.now after.now }
    ensures few { result ≤ 65 }
{
    let ended = committed_rows(before, after).saturating_add(dropped_rows(before, after));
    open_rows(after).saturating_sub(open_rows(before).saturating_sub(ended))
}

/// How many claims were accepted in a cycle.
pub(crate) fn accepted_claims(before: &Snapshot, after: &Snapshot) -> usize
    ensures { result ≡ accepted_claims before.now after.now }
{
    if is_cut(before, after) {
        0
    } else {
        begun_rows(before, after) as usize
    }
}
