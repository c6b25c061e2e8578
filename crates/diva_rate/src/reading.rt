// What a line says of an injected fault.
ghost use Rattle.std.specs.Prelude.{◌≡◌};
ghost use Rattle.diva_rate.specs.Injections.{effect_in, injection_in, injection_of};

use crate::cells::{
    Cells, answer, cell_count, cut_line, ending, model, number, optional_bit, optional_field,
    optional_number,
};
use crate::fault::Kind;
use crate::injection::{Effect, Injection};

/// How many cells a line has.
const CELLS: usize = 14;

/// What a line of 14 cells says.
#[tactic(auto, unfolding(crate::specs::Injections::injection_of))]
pub(crate) fn injection_of(line: &[u8]) -> Result<Injection, Kind>
    ensures { result ≡ injection_of line.now }
{
    if cell_count(line) != CELLS {
        return Err(Kind::CellCount);
    }
    injection_in(&mut cut_line(line))
}

/// Fault, model, cycle, lane, field, bit, and what became of the run. The cycle and the lane are not kept.
#[tactic(auto, unfolding(crate::specs::Injections::injection_in))]
fn injection_in(cells: &mut Cells<'_>) -> Result<Injection, Kind>
    ensures { result ≡ injection_in cells.old }
{
    let fault = number(cells.next())?;
    let model = model(cells.next())?;
    number(cells.next())?;
    optional_number(cells.next())?;
    let field = optional_field(cells.next())?;
    let bit = optional_bit(cells.next())?;
    let effect = effect_in(cells)?;
    Ok(Injection {
        fault,
        model,
        field,
        bit,
        effect,
    })
}

/// What became of the run. The place in the open run is not kept, and how that ended, the last cell, may be any text.
#[tactic(auto, unfolding(crate::specs::Injections::effect_in))]
fn effect_in(cells: &mut Cells<'_>) -> Result<Effect, Kind>
    ensures { result ≡ effect_in cells.old }
{
    let hit = answer(cells.next())?;
    let flushes = number(cells.next())?;
    let latency = optional_number(cells.next())?;
    let cycles = number(cells.next())?;
    let same = answer(cells.next())?;
    let ending = ending(cells.next())?;
    optional_number(cells.next())?;
    Ok(Effect {
        hit,
        flushes,
        latency,
        cycles,
        same,
        ending,
    })
}
