// A script, as it is read.
ghost use Rattle.std.specs.Prelude.{◌≡◌, [], ◌∷◌, Ok, IfOk, IfErr};
ghost use Rattle.std.specs.List.{All};
ghost use Rattle.diva_outside.specs.TextFaults.{IsFirstFault};
ghost use Rattle.diva_faults.specs.Lists.{scripted};
ghost use Rattle.diva_faults.specs.Reading.{script_of};
ghost use Rattle.diva_faults.specs.Rows.{IsScriptRow};
ghost use Rattle.diva_faults.specs.Touched.{end_of_rows, first_touched};

use crate::fault::ScriptFault;
use crate::reading::read_rows;
use crate::rows::Row;
use crate::schedule::Schedule;
use diva_core::Claims;
use std::alloc::{AllocError, Global};
use std::marker::Model;

/// The rows of a script: at most 4,096, in the order of the file.
///
/// A cycle before the first that a row touches, or after the last, costs two comparisons if a core is asked under the script, and nothing
/// if it is asked by itself: no row changes its list then. `first_cycle` and `end_cycle` say which cycles these are.
///
/// No call but `read` and `of_row` takes memory.
#[derive(Debug, Drop)]
pub struct Script {
    rows: Vec<Row>,
    schedule: Schedule,
    /// The first cycle that a row touches.
    first: u64,
    /// The cycle after the last one that a row touches.
    end: u64,
}

impl Model for Script {
    ghost use Rattle.std.specs.Prelude.{List};
    ghost use Rattle.diva_faults.specs.declared.rows.Row.{Row};
    ghost use Rattle.diva_faults.specs.Inner.{IsScript};

    ghost Value = { List Row };

    ghost view = { λ s. s.rows.items };

    ghost invariant = { λ s. IsScript s.rows.items s.schedule s.first s.end };
}

impl Script {
    /// The script of a text. The error is its first fault, or `Memory` if memory runs out.
    ///
    /// Lines without words are skipped. Every other line is a row: `at C lane L flip FIELD B`, `at C lane L set FIELD H`,
    /// `at C lane L lose`, `at C lane L double` or `at C hush K`. C and K are 1 to 1,000,000,000, L is 0 to 7, B is 0 to
    /// 31, all decimal; H is hex; FIELD is pc, word, src1, src2, addr, value, next or end.
    pub fn read(alloc: Global, bytes: &[u8]) -> Result<Self, ScriptFault>
        ensures rows { IfOk result (λ script. script_of bytes.now ≡ Ok script) }
        ensures fault { IfErr result (IsFirstFault (script_of bytes.now)) }
    {
        let rows = read_rows(alloc, bytes)?;
        Ok(Script::of(alloc, rows)?)
    }

    /// The script that has no rows.
    pub fn none(alloc: Global) -> Self
        ensures { result ≡ [] }
    {
        Script {
            rows: Vec::new(alloc),
            schedule: Schedule::none(alloc),
            first: u64::MAX,
            end: 0,
        }
    }

    /// The script that has just this row, which does not last. The error: out of memory.
    pub fn of_row(alloc: Global, row: Row) -> Result<Self, AllocError>
        requires { IsScriptRow row }
        ensures { IfOk result (λ script. script ≡ row ∷ []) }
    {
        let mut rows = Vec::new(alloc);
        rows.push(row)?;
        Script::of(alloc, rows)
    }

    /// The rows, in the order of the file.
    pub fn rows(&self) -> &[Row]
        ensures value { result.now ≡ self.now }
        ensures ranges { All IsScriptRow result.now }
    {
        &self.rows
    }

    /// The first cycle that a row touches. If there is no row, it is 2^64-1, and no machine comes to it.
    pub fn first_cycle(&self) -> u64
        ensures { result ≡ first_touched self.now }
    {
        self.first
    }

    /// The cycle after the last one that a row touches, 0 if there is no row.
    pub fn end_cycle(&self) -> u64
        ensures { result ≡ end_of_rows self.now }
    {
        self.end
    }

    /// Lays the rows of a cycle over the list of that cycle.
    #[inline(always)]
    pub fn lay(&self, cycle: u64, list: &mut Claims)
        ensures { list.new ≡ scripted self.now cycle list.old }
    {
        if self.first <= cycle && cycle < self.end {
            self.schedule.lay(cycle, list);
        }
    }

    fn of(alloc: Global, rows: Vec<Row>) -> Result<Self, AllocError>
        requires { All IsScriptRow rows.items }
        ensures { IfOk result (λ script. script ≡ rows.items) }
    {
        let schedule = Schedule::new(alloc, &rows)?;
        let first = first_of(&rows);
        let end = end_of(&rows);
        Ok(Script {
            rows,
            schedule,
            first,
            end,
        })
    }
}

/// The first cycle that a row touches.
fn first_of(rows: &[Row]) -> u64
    ensures { result ≡ first_touched rows.now }
{
    let mut first = u64::MAX;
    for row in rows {
        first = first.min(u64::from(row.cycle()));
    }
    first
}

/// The cycle after the last one that a row touches.
fn end_of(rows: &[Row]) -> u64
    requires { All IsScriptRow rows.now }
    ensures { result ≡ end_of_rows rows.now }
{
    let mut end = 0;
    for row in rows {
        end = end.max(u64::from(row.end()));
    }
    end
}
