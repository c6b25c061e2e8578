// The image of a seed.
ghost use Rattle.std.specs.Prelude.{◌≡◌, ◌≤◌, IfOk};
ghost use Rattle.diva_image.specs.ImageLayout.{layout};
ghost use Rattle.diva_image.specs.Layout.{most_size};
ghost use Rattle.diva_soak.specs.Soak.{soak_of, soak_size};

use crate::payload::payload;
use diva_image::{Image, Payload};
use std::alloc::{AllocError, Global};

/// The image of a seed: `length` instructions that the seed draws, at least one and no more than the largest memory has room for,
/// and behind them a halt with status 0.
///
/// Memory begins at 0 with 2,048 bytes of data, which are 0; the code follows, and is entered where it begins. The
/// instructions read and write x1 to x8, load and store words of the data alone, and branch forward only.
///
/// The error is that memory ran out.
pub fn soak_image(alloc: Global, seed: u32, length: u32) -> Result<Image, AllocError>
    requires least { 1 ≤ length }
    requires most { soak_size length ≤ most_size }
    ensures { IfOk result (λ i. layout i ≡ soak_of seed length) }
{
    let bytes = match payload(alloc, seed, length) {
        Ok(bytes) => bytes,
        Err(fault) => return Err(fault),
    };
    Ok(Image {
        base: 0,
        size: 2048 + 4 * (length + 3),
        entry: 2048,
        payload: Payload::new(bytes),
    })
}
