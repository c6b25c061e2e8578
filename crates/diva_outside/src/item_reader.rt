// Texts of items: each line that has words is one.
ghost use Rattle.std.specs.Prelude.{◌≡◌, ◌≤◌, length, List, ℕ, IfOk, IfErr, IfSome, Ok, Result, Option};
ghost use Rattle.std.specs.List.{All};
ghost use Rattle.diva_outside.specs.Items.{if_words, items_of};
ghost use Rattle.diva_outside.specs.Text.{Text};
ghost use Rattle.diva_outside.specs.TextFaults.{IsFirstFault};
ghost use Rattle.diva_outside.specs.Words.{words_of};

use crate::line_words::{LineWords, words};
use crate::text_fault::{FaultKind, TextFault};
use crate::text_lines::lines;
use std::alloc::Global;

/// How the words of a line are read to an item.
pub trait ItemReader {
    /// What a line is read to.
    type Item: Drop;

    /// The kinds of the faults of a line.
    type Kind: FaultKind;

    /// The item of a line by its first word and the others, or the kind of its fault.
    ghost item: { Text → List Text → Result Self.Item Self.Kind };

    /// What holds of each item.
    ghost keeps: { Self.Item → Type 0 };

    /// The kind of the fault of an item that is one too many behind so many, if it is.
    ghost surplus: { ℕ → Option Self.Kind };

    /// Reads the item of a line, whose first word is taken already.
    fn item(&self, word: &[u8], words: &mut LineWords<'_>) -> Result<Self::Item, Self::Kind>
        ensures item { result ≡ item word.now words.old }
        ensures keeps { IfOk result keeps };

    /// Whether one more item is one too many behind so many.
    fn surplus(&self, count: usize) -> Option<Self::Kind>
        ensures { result ≡ surplus count };
}

/// The items of a text in their order, one for each line that has words. The error is its first fault, or that memory ran out.
pub fn read_items<R: ItemReader>(
    alloc: Global,
    reader: &R,
    text: &[u8],
) -> Result<Vec<R::Item>, TextFault>
    ensures items { IfOk result (λ items. items_of R.Kind.number R.item R.surplus text.now ≡ Ok items.items) }
    ensures few { IfOk result (λ items. length items.items ≤ length text.now) }
    ensures keeps { IfOk result (λ items. All R.keeps items.items) }
    ensures fault { IfErr result (IsFirstFault (items_of R.Kind.number R.item R.surplus text.now)) }
{
    let mut items = Vec::new(alloc);
    let mut number = 0;
    for line in lines(text) {
        number += 1;
        match line_item(reader, line) {
            Ok(Some(item)) => {
                if let Some(kind) = reader.surplus(items.len()) {
                    return Err(TextFault::at(number, kind));
                }
                if items.push(item).is_err() {
                    return Err(TextFault::Memory);
                }
            }
            Ok(None) => {}
            Err(kind) => return Err(TextFault::at(number, kind)),
        }
    }
    Ok(items)
}

/// The item of a line, if it has words.
fn line_item<R: ItemReader>(reader: &R, line: &[u8]) -> Result<Option<R::Item>, R::Kind>
    ensures item { result ≡ if_words R.item (words_of line.now) }
    ensures keeps { IfOk result (λ item. IfSome item R.keeps) }
{
    let mut words = words(line);
    match words.next() {
        Some(word) => Ok(Some(reader.item(word, &mut words)?)),
        None => Ok(None),
    }
}
