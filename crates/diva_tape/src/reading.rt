// The list of a tape's line, or the kind of its fault.
ghost use Rattle.std.specs.Prelude.{◌≡◌};
ghost use Rattle.diva_tape.specs.LineParts.{claim_in};
ghost use Rattle.diva_tape.specs.Tapes.{list_from, list_in};

use crate::fault::Kind;
use crate::line_parts::{LineParts, parts};
use diva_core::{Claim, Claims};
use diva_outside::{hex, words};

/// The list of a line: nothing where the line has no words.
#[tactic(auto, unfolding(crate::specs::Tapes::list_in))]
pub(crate) fn list_in(line: &[u8]) -> Result<Claims, Kind>
    ensures { result ≡ list_in line.now }
{
    if words(line).next().is_none() {
        return Ok(Claims::new());
    }
    list_from(parts(line))
}

/// The list of a line's parts.
#[tactic(auto, unfolding(crate::specs::Tapes::list_from))]
fn list_from(parts: LineParts<'_>) -> Result<Claims, Kind>
    ensures { result ≡ list_from parts.entry }
{
    let mut list = Claims::new();
    let mut is_miscounted = false;
    let mut is_overfull = false;
    for part in parts {
        match claim_in(part)? {
            Some(_) if list.is_full() => is_overfull = true,
            Some(claim) => list.push(claim),
            None => is_miscounted = true,
        }
    }
    if is_miscounted {
        Err(Kind::NumberCount)
    } else if is_overfull {
        Err(Kind::ClaimCount)
    } else {
        Ok(list)
    }
}

/// The claim of a part; `None` where the part has other than eight numbers.
#[tactic(auto, unfolding(crate::specs::LineParts::claim_in))]
fn claim_in(part: &[u8]) -> Result<Option<Claim>, Kind>
    ensures { result ≡ claim_in part.now }
{
    let mut numbers = [0; 8];
    let mut count = 0;
    let mut is_over = false;
    for word in words(part) {
        let Some(number) = hex(word) else {
            return Err(Kind::Word);
        };
        if count < numbers.len() {
            numbers[count] = number;
            count += 1;
        } else {
            is_over = true;
        }
    }
    if count < numbers.len() || is_over {
        return Ok(None);
    }
    let [pc, word, src1, src2, addr, value, next, end] = numbers;
    Ok(Some(Claim {
        pc,
        word,
        src1,
        src2,
        addr,
        value,
        next,
        end,
    }))
}
