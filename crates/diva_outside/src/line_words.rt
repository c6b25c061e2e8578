// The words of a line.
ghost use Rattle.std.specs.Prelude.{◌≡◌, position};
ghost use Rattle.std.specs.Iterator.{YieldsFirstRef, item_count};
ghost use Rattle.std.specs.List.{before_first};
ghost use Rattle.diva_outside.specs.Words.{begins_comment, from_first, is_blank, is_letter, words_of};

use std::marker::Model;

/// The words of a line that are yet to come.
#[derive(Debug, Drop)]
pub struct LineWords<'a> {
    rest: &'a [u8],
}

impl<'a> Model for LineWords<'a> {
    ghost use Rattle.std.specs.Prelude.{List};
    ghost use Rattle.diva_outside.specs.Text.{Text};
    ghost use Rattle.diva_outside.specs.Words.{words_in};

    ghost Value = { List Text };

    ghost view = { λ words. words_in words.rest.now };
}

/// The words of a line, which blanks (space, tab and carriage return) separate. `#` begins a comment to the line's
/// end, in which any byte may stand, and which has no words.
pub fn words(line: &[u8]) -> LineWords<'_>
    ensures { result ≡ words_of line.now }
{
    LineWords {
        rest: without_comment(line),
    }
}

impl<'a> Iterator for LineWords<'a> {
    type Item = &'a [u8];

    ghost next_gives = { YieldsFirstRef (λ words. words) };

    ghost remaining = { item_count (λ words. words) };

    fn next(&mut self) -> Option<&'a [u8]> {
        let (word, rest) = cut_word(without_blanks(self.rest));
        self.rest = rest;
        if word.is_empty() {
            return None;
        }
        Some(word)
    }
}

/// What stands before the comment of a line; the whole line where it has none.
#[tactic(auto, using(crate::proofs::Splitting::before_end))]
pub fn without_comment(line: &[u8]) -> &[u8]
    ensures { result.now ≡ before_first begins_comment line.now }
{
    match comment_place(line) {
        Some(place) => &line[..place],
        None => line,
    }
}

/// A text from its first byte on that is no blank.
#[tactic(auto, using(crate::proofs::Splitting::from_place, crate::proofs::Splitting::from_end))]
fn without_blanks(text: &[u8]) -> &[u8]
    ensures { result.now ≡ from_first is_letter text.now }
{
    match letter_place(text) {
        Some(place) => &text[place..],
        None => &[],
    }
}

/// What stands before the first blank, and what stands from it on.
#[tactic(auto, using(crate::proofs::Splitting::from_place, crate::proofs::Splitting::before_end, crate::proofs::Splitting::from_end))]
fn cut_word(text: &[u8]) -> (&[u8], &[u8])
    ensures word { result.0.now ≡ before_first is_blank text.now }
    ensures rest { result.1.now ≡ from_first is_blank text.now }
{
    match blank_place(text) {
        Some(place) => (&text[..place], &text[place..]),
        None => (text, &[]),
    }
}

fn comment_place(line: &[u8]) -> Option<usize>
    ensures { result ≡ position begins_comment line.now }
{
    line.iter().position(|byte| *byte == b'#')
}

fn letter_place(text: &[u8]) -> Option<usize>
    ensures { result ≡ position is_letter text.now }
{
    text.iter().position(|byte| !is_blank(*byte))
}

fn blank_place(text: &[u8]) -> Option<usize>
    ensures { result ≡ position is_blank text.now }
{
    text.iter().position(|byte| is_blank(*byte))
}

/// A space, a tab or a carriage return.
fn is_blank(byte: u8) -> bool
    ensures { result ≡ is_blank byte }
{
    byte == b' ' || byte == b'\t' || byte == b'\r'
}
