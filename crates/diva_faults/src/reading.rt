// The rows of a text, or its first fault.
ghost use Rattle.std.specs.Prelude.{◌≡◌, ◌<◌, find, IfOk, IfErr, Ok};
ghost use Rattle.std.specs.List.{All};
ghost use Rattle.std.specs.Str.{bytes_eq};
ghost use Rattle.diva_core.specs.Difference.{all_fields, field_name};
ghost use Rattle.diva_outside.specs.NextWords.{others_of};
ghost use Rattle.diva_outside.specs.TextFaults.{IsFirstFault};
ghost use Rattle.diva_faults.specs.Reading.{change_in, field_in, flip_in, hush_in, lane_in, part_in, row_in, script_of, set_in};
ghost use Rattle.diva_faults.specs.Rows.{IsChange, IsCycle, IsScriptRow};

use crate::fault::{Kind, ScriptFault};
use crate::rows::{Change, Row};
use diva_core::Field;
use diva_outside::{ItemReader, LineWords, is_word, read_items};
use std::alloc::Global;

/// The most rows that a script has.
const MOST_ROWS: usize = 4096;

/// The rows of a text in their order, or its first fault.
#[tactic(auto, unfolding(crate::specs::Reading::script_of))]
pub(crate) fn read_rows(alloc: Global, text: &[u8]) -> Result<Vec<Row>, ScriptFault>
    ensures rows { IfOk result (λ rows. script_of text.now ≡ Ok rows.items) }
    ensures ranges { IfOk result (λ rows. All IsScriptRow rows.items) }
    ensures fault { IfErr result (IsFirstFault (script_of text.now)) }
{
    read_items(alloc, &RowReader, text)
}

/// Reads the rows of a script.
struct RowReader;

impl ItemReader for RowReader {
    ghost use Rattle.diva_faults.specs.Reading.{row_in, surplus_row};
    ghost use Rattle.diva_faults.specs.Rows.{IsScriptRow};

    type Item = Row;

    type Kind = Kind;

    ghost item = { row_in };

    ghost keeps = { IsScriptRow };

    ghost surplus = { surplus_row };

    fn item(&self, word: &[u8], words: &mut LineWords<'_>) -> Result<Row, Kind> {
        row_in(word, words)
    }

    fn surplus(&self, count: usize) -> Option<Kind> {
        if count < MOST_ROWS {
            None
        } else {
            Some(Kind::RowCount)
        }
    }
}

/// `at C`, and what follows.
#[tactic(auto, unfolding(crate::specs::Reading::row_in))]
fn row_in(word: &[u8], words: &mut LineWords<'_>) -> Result<Row, Kind>
    ensures row { result ≡ row_in word.now words.old }
    ensures ranges { IfOk result IsScriptRow }
{
    if !is_word(word, b"at") {
        return Err(Kind::Keyword);
    }
    let cycle = words.number(1, 1_000_000_000)?;
    part_in(cycle, words)
}

/// After `at C`: `lane L` and a change, or `hush K`.
#[tactic(auto, unfolding(crate::specs::Reading::part_in))]
fn part_in(cycle: u32, words: &mut LineWords<'_>) -> Result<Row, Kind>
    requires { IsCycle cycle }
    ensures row { result ≡ part_in cycle words.old }
    ensures ranges { IfOk result IsScriptRow }
{
    let Some(word) = words.next() else {
        return Err(Kind::WordCount);
    };
    if is_word(word, b"lane") {
        lane_in(cycle, words)
    } else if is_word(word, b"hush") {
        hush_in(cycle, words)
    } else {
        Err(Kind::Keyword)
    }
}

/// After `hush`: K.
#[tactic(auto, unfolding(crate::specs::Reading::hush_in))]
fn hush_in(cycle: u32, words: &mut LineWords<'_>) -> Result<Row, Kind>
    requires { IsCycle cycle }
    ensures row { result ≡ hush_in cycle words.old }
    ensures ranges { IfOk result IsScriptRow }
{
    let cycles = words.number(1, 1_000_000_000)?;
    words.end()?;
    Ok(Row::Hush { cycle, cycles })
}

/// After `lane`: L and a change.
#[tactic(auto, unfolding(crate::specs::Reading::lane_in))]
fn lane_in(cycle: u32, words: &mut LineWords<'_>) -> Result<Row, Kind>
    requires { IsCycle cycle }
    ensures row { result ≡ lane_in cycle words.old }
    ensures ranges { IfOk result IsScriptRow }
{
    let lane = words.number(0, 7)? as u8;
    let change = change_in(words)?;
    Ok(Row::Lane {
        cycle,
        lane,
        change,
    })
}

/// `flip FIELD B`, `set FIELD H`, `lose` or `double`.
#[tactic(auto, unfolding(crate::specs::Reading::change_in))]
fn change_in(words: &mut LineWords<'_>) -> Result<Change, Kind>
    ensures change { result ≡ change_in words.old }
    ensures ranges { IfOk result IsChange }
{
    let Some(word) = words.next() else {
        return Err(Kind::WordCount);
    };
    if is_word(word, b"flip") {
        flip_in(words)
    } else if is_word(word, b"set") {
        set_in(words)
    } else if is_word(word, b"lose") {
        words.end()?;
        Ok(Change::Lose)
    } else if is_word(word, b"double") {
        words.end()?;
        Ok(Change::Double)
    } else {
        Err(Kind::Keyword)
    }
}

/// After `flip`: FIELD B.
#[tactic(auto, unfolding(crate::specs::Reading::flip_in))]
fn flip_in(words: &mut LineWords<'_>) -> Result<Change, Kind>
    ensures change { result ≡ flip_in words.old }
    ensures ranges { IfOk result IsChange }
{
    let field = first_field(words)?;
    let bit = words.number(0, 31)? as u8;
    words.end()?;
    Ok(Change::Flip { field, bit })
}

/// After `set`: FIELD H.
#[tactic(auto, unfolding(crate::specs::Reading::set_in))]
fn set_in(words: &mut LineWords<'_>) -> Result<Change, Kind>
    ensures change { result ≡ set_in words.old }
    ensures ranges { IfOk result IsChange }
{
    let field = first_field(words)?;
    let value = words.hex()?;
    words.end()?;
    Ok(Change::Set { field, value })
}

/// The next word as a field's name.
#[tactic(auto, unfolding(crate::specs::Reading::field_in))]
fn first_field(words: &mut LineWords<'_>) -> Result<Field, Kind>
    ensures field { result ≡ field_in words.old }
    ensures others { words.new ≡ others_of words.old }
{
    match words.next() {
        Some(word) => field_named(word).ok_or(Kind::FieldName),
        None => Err(Kind::WordCount),
    }
}

/// The field of a name.
fn field_named(word: &[u8]) -> Option<Field>
    ensures { result ≡ find (λ field. bytes_eq word.now (field_name field)) all_fields }
{
    Field::ALL
        .iter()
        .copied()
        .find(|field| is_word(word, field.name()))
}
