// The rows of a script by cycle.
ghost use Rattle.std.specs.Prelude.{◌≡◌, ◌+◌, ◌≤◌, ◌<◌, ℕ, [], length, take, fold, slice_index, nat_lt, IfOk};
ghost use Rattle.std.specs.List.{All};
ghost use Rattle.std.specs.List.Sorted.{IsNonDecreasingBy, IsPartitionPoint};
ghost use Rattle.diva_faults.specs.Lists.{laid_in, scripted};
ghost use Rattle.diva_faults.specs.Rows.{row_cycle, IsScriptRow};
ghost use Rattle.diva_faults.specs.Schedules.{AreLike};
ghost use Rattle.diva_faults.specs.Inner.{latest_end};

use crate::rows::Row;
use diva_core::Claims;
use std::alloc::{AllocError, Global};
use std::marker::Model;

/// The rows of a script in the order of their cycles, those of one cycle in the file's order.
///
/// A cycle costs two binary searches, and the rows that name it.
#[derive(Debug, Drop)]
pub(crate) struct Schedule {
    rows: Vec<Row>,
    /// Beside each row, the cycle after the last one of the hushes up to it, 0 if there is none.
    hush_ends: Vec<u32>,
}

impl Model for Schedule {
    ghost use Rattle.std.specs.Prelude.{List};
    ghost use Rattle.diva_faults.specs.declared.rows.Row.{Row};
    ghost use Rattle.diva_faults.specs.Inner.{IsSchedule};

    ghost Value = { List Row };

    ghost view = { λ s. s.rows.items };

    ghost invariant = { λ s. IsSchedule s.rows.items s.hush_ends.items };
}

impl Schedule {
    /// The schedule of no rows.
    pub(crate) fn none(alloc: Global) -> Self
        ensures { result ≡ [] }
    {
        Schedule {
            rows: Vec::new(alloc),
            hush_ends: Vec::new(alloc),
        }
    }

    /// The schedule of some rows.
    pub(crate) fn new(alloc: Global, rows: &[Row]) -> Result<Self, AllocError>
        requires { All IsScriptRow rows.now }
        ensures { IfOk result (λ schedule. AreLike schedule rows.now) }
    {
        let rows = by_cycle(alloc, rows)?;
        let hush_ends = hush_ends_of(alloc, &rows)?;
        Ok(Schedule { rows, hush_ends })
    }

    /// Lays the rows of a cycle over a list. It is called, so that what is made part of a core's loop stays small.
    #[inline(never)]
    pub(crate) fn lay(&self, cycle: u64, list: &mut Claims)
        ensures { list.new ≡ scripted self.now cycle list.old }
    {
        let begun = begun_by(&self.rows, cycle);
        if self.is_hushed(begun, cycle) {
            list.clear();
        } else {
            let rows = &self.rows[..begun];
            let earlier = begun_before(rows, cycle);
            lay_all(&rows[earlier..], cycle, list);
        }
    }

    /// Whether one of the first `begun` rows is a hush that ends after a cycle.
    fn is_hushed(&self, begun: usize, cycle: u64) -> bool
        requires { begun ≤ length self.now }
        ensures { result ≡ nat_lt cycle (latest_end (take begun self.now)) }
    {
        begun > 0 && cycle < u64::from(self.hush_ends[begun - 1])
    }
}

/// The rows in the order of their cycles, those of one cycle in the order that they have.
fn by_cycle(alloc: Global, rows: &[Row]) -> Result<Vec<Row>, AllocError>
    requires { All IsScriptRow rows.now }
    ensures ranges { IfOk result (λ sorted. All IsScriptRow sorted.items) }
    ensures sorted { IfOk result (λ sorted. IsNonDecreasingBy row_cycle sorted.items) }
    ensures same { IfOk result (λ sorted. AreLike sorted.items rows.now) }
{
    let mut sorted = rows.to_vec(alloc)?;
    sorted.sort_by_key(|row| row.cycle())?;
    Ok(sorted)
}

/// How many rows name a cycle or an earlier one.
fn begun_by(rows: &[Row], cycle: u64) -> usize
    requires { IsNonDecreasingBy row_cycle rows.now }
    ensures within { result ≤ length rows.now }
    ensures begun { IsPartitionPoint (λ row. row_cycle row ≤ cycle) (λ row. cycle < row_cycle row) rows.now result }
{
    rows.partition_point(|row| u64::from(row.cycle()) <= cycle)
}

/// How many rows name a cycle before another.
fn begun_before(rows: &[Row], cycle: u64) -> usize
    requires { IsNonDecreasingBy row_cycle rows.now }
    ensures within { result ≤ length rows.now }
    ensures begun { IsPartitionPoint (λ row. row_cycle row < cycle) (λ row. cycle ≤ row_cycle row) rows.now result }
{
    rows.partition_point(|row| u64::from(row.cycle()) < cycle)
}

/// Lays rows over the list of a cycle, one after the other.
fn lay_all(rows: &[Row], cycle: u64, list: &mut Claims)
    requires { All IsScriptRow rows.now }
    ensures { list.new ≡ fold (laid_in cycle) list.old rows.now }
{
    for row in rows {
        row.lay_in(cycle, list);
    }
}

/// Beside each row, the latest end of the hushes up to it.
fn hush_ends_of(alloc: Global, rows: &[Row]) -> Result<Vec<u32>, AllocError>
    requires { All IsScriptRow rows.now }
    ensures beside { IfOk result (λ ends. length ends.items ≡ length rows.now) }
    ensures latest { IfOk result (λ ends. (k : ℕ) → k < length rows.now → slice_index ends.items k ≡ latest_end (take (k + 1) rows.now)) }
{
    let mut ends = Vec::new(alloc);
    let mut latest = 0;
    for row in rows {
        latest = latest.max(row.hush_end());
        ends.push(latest)?;
    }
    Ok(ends)
}
