// An image to its bytes, in version 1.
ghost use Rattle.std.specs.Prelude.{◌≡◌, IfOk, Ok};
ghost use Rattle.diva_image.specs.Images.{image_bytes};
ghost use Rattle.diva_image.specs.ImageLayout.{layout, Reads};

use crate::Image;
use crate::header::{HEADER_SIZE, Header};
use crate::version::Version;
use std::alloc::{AllocError, Global};

/// The bytes of an image in version 1, which [`read`](crate::read) makes the same image of. There is one spelling of each
/// image. The one error is that memory runs out.
#[tactic(auto, using(crate::proofs::Again::read_again))]
pub fn write(alloc: Global, image: &Image) -> Result<Vec<u8>, AllocError>
    ensures bytes { IfOk result (λ bytes. bytes.items ≡ image_bytes (layout image.now)) }
    ensures read_again { IfOk result (λ bytes. Reads bytes.items (Ok image.now)) }
{
    spelled(alloc, image)
}

/// The header, and the payload.
fn spelled(alloc: Global, image: &Image) -> Result<Vec<u8>, AllocError>
    ensures { IfOk result (λ bytes. bytes.items ≡ image_bytes (layout image.now)) }
{
    let payload = image.payload.bytes();
    let header = Header {
        version: Version::One,
        base: image.base,
        size: image.size,
        entry: image.entry,
        last: payload.len() as u32,
    };
    let mut bytes = Vec::with_capacity(alloc, HEADER_SIZE + payload.len())?;
    header.write(&mut bytes)?;
    bytes.extend_from_slice(payload)?;
    Ok(bytes)
}
