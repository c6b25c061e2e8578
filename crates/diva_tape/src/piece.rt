// The text of a claim in a line of a tape.
ghost use Rattle.std.specs.Prelude.{◌≡◌, List, Ok};
ghost use Rattle.std.specs.List.{All};
ghost use Rattle.diva_isa.specs.declared.record.Record.{Record};
ghost use Rattle.diva_tape.specs.TapeText.{piece_text, tape_text, IsClaim, IsList};
ghost use Rattle.diva_tape.specs.Tapes.{tape_of};

use diva_core::Claim;
use diva_outside::Line;

/// A claim in its line of a tape: its eight numbers in the order of the fields, in eight digits each, with a space between
/// two of them. ` ; ` stands before every claim of a line but the first.
///
/// The pieces of a list with a line feed behind them, list after list, are a tape of those lists.
#[tactic(auto, unfolding(crate::specs::TapeText::piece_text))]
pub fn tape_piece(claim: &Claim, first: bool) -> Line
    ensures text { result ≡ piece_text claim.now first }
    ensures numbers { IsClaim claim.now }
    ensures reads_back { (lists : List (List Record)) → All IsList lists → tape_of (tape_text lists) ≡ Ok lists }
{
    let mut line = Line::new();
    if !first {
        line.text(b" ; ");
    }
    line.hex_word(claim.pc);
    for number in [
        claim.word,
        claim.src1,
        claim.src2,
        claim.addr,
        claim.value,
        claim.next,
        claim.end,
    ] {
        line.push(b' ');
        line.hex_word(number);
    }
    line
}
