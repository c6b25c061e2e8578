// The cells of a line, which commas separate, each as what is due there.
ghost use Rattle.std.specs.Prelude.{◌≡◌, ◌≤◌, ◌<◌, ◌+◌, ◌^◌, ◌-◌, ◌∷◌, codes, find, position, IfSome, length, Some, None, true, false};
ghost use Rattle.std.specs.List.{count_by};
ghost use Rattle.std.specs.Str.{bytes_eq};
ghost use Rattle.diva_core.specs.Difference.{all_fields, field_name};
ghost use Rattle.diva_outside.specs.Numbers.{spelled_number};
ghost use Rattle.diva_outside.specs.NextWords.{others_of};
ghost use Rattle.diva_rate.specs.Cells.{answer_of, bit_of, cells_of, ending_of, field_of, first_cell, if_filled, is_comma, model_of, number_of, number_to};
ghost use Rattle.diva_rate.specs.Inner.{cells_left};
ghost use Rattle.diva_rate.specs.Names.{all_endings, all_models, ending_name, model_name};

use crate::fault::Kind;
use crate::injection::{FaultModel, OpenEnding};
use diva_core::Field;
use diva_outside::is_word;
use std::marker::Model;

/// The greatest number that a cell may have.
const MOST: u64 = 9_223_372_036_854_775_807;

/// The cells of a line that are yet to come.
#[derive(Debug, Drop)]
pub(crate) struct Cells<'a> {
    rest: &'a [u8],
    is_over: bool,
}

impl<'a> Model for Cells<'a> {
    ghost use Rattle.std.specs.Prelude.{List};
    ghost use Rattle.diva_outside.specs.Text.{Text};
    ghost use Rattle.diva_rate.specs.Inner.{cells_left};

    ghost Value = { List Text };

    ghost view = { λ cells. cells_left cells.is_over cells.rest.now };
}

/// The cells of a line.
pub(crate) fn cut_line(line: &[u8]) -> Cells<'_>
    ensures { result ≡ cells_of line.now }
{
    Cells {
        rest: line,
        is_over: false,
    }
}

/// How many cells a line has.
#[tactic(auto, using(crate::proofs::Cutting::cells_commas))]
pub(crate) fn cell_count(line: &[u8]) -> usize
    ensures { result ≡ length (cells_of line.now) }
{
    commas(line) + 1
}

/// How many commas a line has.
fn commas(line: &[u8]) -> usize
    ensures count { result ≡ count_by is_comma line.now }
    ensures few { result ≤ length line.now }
{
    let mut count = 0;
    for byte in line {
        if *byte == b',' {
            count += 1;
        }
    }
    count
}

impl<'a> Cells<'a> {
    /// The next cell, which is empty if none is left.
    pub(crate) fn next(&mut self) -> &'a [u8]
        ensures cell { result.now ≡ first_cell self.old }
        ensures others { self.new ≡ others_of self.old }
    {
        if self.is_over {
            return &[];
        }
        let (cell, rest, is_over) = cut(self.rest);
        self.rest = rest;
        self.is_over = is_over;
        cell
    }
}

/// The first cell of a text, what follows its comma, and whether there is none.
#[tactic(auto, using(crate::proofs::Cutting::cut_at, crate::proofs::Cutting::cut_end))]
fn cut(text: &[u8]) -> (&[u8], &[u8], bool)
    ensures { cells_of text.now ≡ result.0.now ∷ cells_left result.2 result.1.now }
{
    match comma_place(text) {
        Some(place) => (&text[..place], &text[place + 1..], false),
        None => (text, &[], true),
    }
}

/// The place of the first comma.
fn comma_place(text: &[u8]) -> Option<usize>
    ensures { result ≡ position is_comma text.now }
{
    text.iter().position(|byte| *byte == b',')
}

/// A number below 2^63.
pub(crate) fn number(cell: &[u8]) -> Result<u64, Kind>
    ensures { result ≡ number_of cell.now }
{
    number_to(MOST, cell).ok_or(Kind::Number)
}

/// A bit: a number up to 31.
pub(crate) fn bit(cell: &[u8]) -> Result<u8, Kind>
    ensures { result ≡ bit_of cell.now }
{
    match number_to(31, cell) {
        Some(number) => Ok(number as u8),
        None => Err(Kind::Number),
    }
}

/// The name of a model.
pub(crate) fn model(cell: &[u8]) -> Result<FaultModel, Kind>
    ensures { result ≡ model_of cell.now }
{
    model_named(cell).ok_or(Kind::Word)
}

fn model_named(cell: &[u8]) -> Option<FaultModel>
    ensures { result ≡ find (λ model. bytes_eq cell.now (model_name model)) all_models }
{
    FaultModel::ALL
        .iter()
        .copied()
        .find(|model| is_word(cell, model.name()))
}

/// The name of a field.
pub(crate) fn field(cell: &[u8]) -> Result<Field, Kind>
    ensures { result ≡ field_of cell.now }
{
    field_named(cell).ok_or(Kind::Word)
}

fn field_named(cell: &[u8]) -> Option<Field>
    ensures { result ≡ find (λ field. bytes_eq cell.now (field_name field)) all_fields }
{
    Field::ALL
        .iter()
        .copied()
        .find(|field| is_word(cell, field.name()))
}

/// The name of an ending of an open run.
pub(crate) fn ending(cell: &[u8]) -> Result<OpenEnding, Kind>
    ensures { result ≡ ending_of cell.now }
{
    ending_named(cell).ok_or(Kind::Word)
}

fn ending_named(cell: &[u8]) -> Option<OpenEnding>
    ensures { result ≡ find (λ ending. bytes_eq cell.now (ending_name ending)) all_endings }
{
    OpenEnding::ALL
        .iter()
        .copied()
        .find(|ending| is_word(cell, ending.name()))
}

/// Yes or no.
pub(crate) fn answer(cell: &[u8]) -> Result<bool, Kind>
    ensures { result ≡ answer_of cell.now }
{
    if is_word(cell, b"yes") {
        Ok(true)
    } else if is_word(cell, b"no") {
        Ok(false)
    } else {
        Err(Kind::Word)
    }
}

/// A number below 2^63, if the cell is not empty.
pub(crate) fn optional_number(cell: &[u8]) -> Result<Option<u64>, Kind>
    ensures { result ≡ if_filled number_of cell.now }
{
    if cell.is_empty() {
        return Ok(None);
    }
    Ok(Some(number(cell)?))
}

/// A bit, if the cell is not empty.
pub(crate) fn optional_bit(cell: &[u8]) -> Result<Option<u8>, Kind>
    ensures { result ≡ if_filled bit_of cell.now }
{
    if cell.is_empty() {
        return Ok(None);
    }
    Ok(Some(bit(cell)?))
}

/// A field, if the cell is not empty.
pub(crate) fn optional_field(cell: &[u8]) -> Result<Option<Field>, Kind>
    ensures { result ≡ if_filled field_of cell.now }
{
    if cell.is_empty() {
        return Ok(None);
    }
    Ok(Some(field(cell)?))
}

/// The number up to `most` that one to 19 decimal digits spell.
#[tactic(auto, unfolding(crate::specs::Cells::number_to))]
fn number_to(most: u64, cell: &[u8]) -> Option<u64>
    ensures value { result ≡ number_to most cell.now }
    ensures small { IfSome result (λ n. n ≤ most) }
{
    match spelled(cell) {
        Some(number) if number <= u128::from(most) => Some(number as u64),
        _ => None,
    }
}

/// The number that one to 19 decimal digits spell.
fn spelled(cell: &[u8]) -> Option<u128>
    ensures { result ≡ spelled_number 10 19 cell.now }
{
    if cell.is_empty() || 19 < cell.len() {
        return None;
    }
    let mut number = 0;
    for byte in cell {
        let Some(digit) = char::from(*byte).to_digit(10) else {
            return None;
        };
        number = number * 10 + u128::from(digit);
    }
    Some(number)
}
