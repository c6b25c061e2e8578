// The text that is due of a run.
use super::tables::Row;
use diva_test_programs::registers_text;
use std::alloc::Global;
use std::test::Fail;

/// The whole text of a row.
pub(super) fn text_due(alloc: Global, row: &Row) -> Result<String, Fail> {
    let registers = registers_text(alloc, row.registers)?;
    Ok(format!(in alloc; "{}{registers}{}", row.counts, row.rest)?)
}
