// The flips of a campaign, by place.
ghost use Rattle.std.specs.Prelude.{◌≡◌};
ghost use Rattle.diva_faults.specs.Flips.{flip_at};
ghost use Rattle.diva_faults.specs.Rows.{IsScriptRow};

use crate::rows::{Change, Row};
use diva_core::Field;

/// How many flips there are of one claim: 32 bits of each of 8 fields.
pub const FLIPS_IN_CYCLE: u32 = 256;

/// The flip at a place: cycle by cycle from 1 on, in each field by field, and in each bit by bit from the lowest; always of the
/// first claim of the cycle's list.
pub fn flip_at(place: u32) -> Row
    ensures row { result ≡ flip_at place }
    ensures ranges { IsScriptRow result }
{
    let in_cycle = place % FLIPS_IN_CYCLE;
    Row::Lane {
        cycle: place / FLIPS_IN_CYCLE + 1,
        lane: 0,
        change: Change::Flip {
            field: Field::ALL[(in_cycle / 32) as usize],
            bit: (in_cycle % 32) as u8,
        },
    }
}
