// The lines of a text.
ghost use Rattle.std.specs.Prelude.{◌≡◌, ◌≤◌, length, position};
ghost use Rattle.std.specs.Iterator.{YieldsFirstRef, item_count};
ghost use Rattle.std.specs.List.{after_first, before_first};
ghost use Rattle.diva_outside.specs.Lines.{is_feed, lines_of};

use std::marker::Model;

/// The lines of a text that are yet to come, each without its line feed.
#[derive(Debug, Drop)]
pub struct TextLines<'a> {
    rest: &'a [u8],
}

impl<'a> Model for TextLines<'a> {
    ghost use Rattle.std.specs.Prelude.{List};
    ghost use Rattle.diva_outside.specs.Text.{Text};
    ghost use Rattle.diva_outside.specs.Lines.{lines_of};

    ghost Value = { List Text };

    ghost view = { λ lines. lines_of lines.rest.now };
}

/// The lines of a text: each ends with a line feed, which the last one may lack. A text that ends with a line feed
/// has no further line, so there are no more lines than bytes.
#[tactic(auto, using(crate::proofs::Splitting::lines_few))]
pub fn lines(text: &[u8]) -> TextLines<'_>
    ensures lines { result ≡ lines_of text.now }
    ensures few { length result ≤ length text.now }
{
    TextLines { rest: text }
}

impl<'a> Iterator for TextLines<'a> {
    type Item = &'a [u8];

    ghost next_gives = { YieldsFirstRef (λ lines. lines) };

    ghost remaining = { item_count (λ lines. lines) };

    fn next(&mut self) -> Option<&'a [u8]> {
        if self.rest.is_empty() {
            return None;
        }
        let (line, rest) = cut_line(self.rest);
        self.rest = rest;
        Some(line)
    }
}

/// The first line of a text, without its line feed, and what follows it.
#[tactic(auto, using(crate::proofs::Splitting::after_place, crate::proofs::Splitting::before_end, crate::proofs::Splitting::after_end))]
fn cut_line(text: &[u8]) -> (&[u8], &[u8])
    ensures line { result.0.now ≡ before_first is_feed text.now }
    ensures rest { result.1.now ≡ after_first is_feed text.now }
{
    match feed_place(text) {
        Some(place) => (&text[..place], &text[place + 1..]),
        None => (text, &[]),
    }
}

/// The place of the first line feed.
fn feed_place(text: &[u8]) -> Option<usize>
    ensures { result ≡ position is_feed text.now }
{
    text.iter().position(|byte| *byte == b'\n')
}
