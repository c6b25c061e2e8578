// The parts of a line, between which `;` stands.
ghost use Rattle.std.specs.Prelude.{◌≡◌, ◌∷◌, position};
ghost use Rattle.std.specs.List.{slice_split};
ghost use Rattle.std.specs.Option.{option_copied};
ghost use Rattle.std.specs.Iterator.{YieldsFirstRef, item_count};
ghost use Rattle.diva_tape.specs.LineParts.{parts_left};
ghost use Rattle.diva_tape.specs.Tapes.{parts_of, separates};

use diva_outside::without_comment;
use std::marker::Model;

/// The parts of a text that are yet to come, which `;` separates.
#[derive(Debug, Drop)]
pub(crate) struct LineParts<'a> {
    rest: Option<&'a [u8]>,
}

impl<'a> Model for LineParts<'a> {
    ghost use Rattle.std.specs.Prelude.{List};
    ghost use Rattle.std.specs.Option.{option_copied};
    ghost use Rattle.diva_outside.specs.Text.{Text};
    ghost use Rattle.diva_tape.specs.LineParts.{parts_left};

    ghost Value = { List Text };

    ghost view = { λ parts. parts_left (option_copied parts.rest) };
}

/// The parts of a line, its comment left out: one more than it has `;`.
pub(crate) fn parts(line: &[u8]) -> LineParts<'_>
    ensures { result ≡ parts_of line.now }
{
    LineParts {
        rest: Some(without_comment(line)),
    }
}

impl<'a> Iterator for LineParts<'a> {
    type Item = &'a [u8];

    ghost next_gives = { YieldsFirstRef (λ parts. parts) };

    ghost remaining = { item_count (λ parts. parts) };

    fn next(&mut self) -> Option<&'a [u8]> {
        let text = self.rest?;
        let (part, rest) = cut_part(text);
        self.rest = rest;
        Some(part)
    }
}

/// What stands before the first `;`, and what stands behind it, if there is one.
#[tactic(auto, using(crate::proofs::Parting::part_cut, crate::proofs::Parting::part_whole))]
fn cut_part(text: &[u8]) -> (&[u8], Option<&[u8]>)
    ensures { slice_split separates text.now ≡ result.0.now ∷ parts_left (option_copied result.1) }
{
    match separator_place(text) {
        Some(place) => (&text[..place], Some(&text[place + 1..])),
        None => (text, None),
    }
}

fn separator_place(text: &[u8]) -> Option<usize>
    ensures { result ≡ position separates text.now }
{
    text.iter().position(|byte| *byte == b';')
}
