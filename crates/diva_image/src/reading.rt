// Bytes to an image, or to their first fault.
ghost use Rattle.std.specs.Prelude.{◌≡◌, ◌≤◌, ◌+◌, length, drop, IfOk, IfErr, OnOk, IsNone, None, Some};
ghost use Rattle.diva_image.specs.Header.{header_size};
ghost use Rattle.diva_image.specs.Images.{fault_of, whole_fault};
ghost use Rattle.diva_image.specs.Inner.{IsHeader};
ghost use Rattle.diva_image.specs.ImageLayout.{Reads};
ghost use Rattle.diva_image.specs.declared.version.Version.TheVariants.{One, Two};

use crate::fault::Fault;
use crate::header::{HEADER_SIZE, Header, length_fault, payload_fault};
use crate::table::{data_place, faultless_segments, memory_from};
use crate::version::Version;
use crate::{Image, ImageFault, Payload};
use std::alloc::Global;

/// The image of the bytes, in version 1 or 2. The error is their first fault or, where they have none, `Memory` if memory runs
/// out.
///
/// The time that it takes is linear in the bytes and in the payload.
#[tactic(auto, unfolding(crate::specs::Images::fault_of))]
pub fn read(alloc: Global, bytes: &[u8]) -> Result<Image, ImageFault>
    ensures { Reads bytes.now result }
{
    match Header::read(bytes) {
        Ok(header) => match header.version {
            Version::One => read_whole(alloc, bytes, &header),
            Version::Two => read_segmented(alloc, bytes, &header),
        },
        Err(fault) => Err(fault.into()),
    }
}

/// The image of a file of version 1, whose payload stands behind the header.
#[tactic(auto, unfolding(crate::specs::Images::fault_of))]
fn read_whole(alloc: Global, bytes: &[u8], header: &Header) -> Result<Image, ImageFault>
    requires header { IsHeader bytes.now header.now }
    requires version { header.now.version ≡ One }
    ensures { Reads bytes.now result }
{
    match whole_fault(bytes, header) {
        Some(fault) => Err(fault.into()),
        None => Ok(Image {
            base: header.base,
            size: header.size,
            entry: header.entry,
            payload: Payload::new(bytes[HEADER_SIZE..].to_vec(alloc)?),
        }),
    }
}

/// The first fault behind the header of a file of version 1.
#[tactic(auto, unfolding(crate::specs::Images::whole_fault))]
fn whole_fault(bytes: &[u8], header: &Header) -> Option<Fault>
    requires { IsHeader bytes.now header.now }
    ensures first { result ≡ whole_fault bytes.now }
    ensures rules { IsNone result → (header.now.last ≤ header.now.size) × (length bytes.now ≡ header_size + header.now.last) }
{
    if let Some(fault) = payload_fault(header.size, header.last) {
        return Some(fault);
    }
    length_fault(bytes.len(), HEADER_SIZE as u32 + header.last)
}

/// The image of a file of version 2, whose payload is that of its segments.
#[tactic(auto, unfolding(crate::specs::Images::fault_of))]
fn read_segmented(alloc: Global, bytes: &[u8], header: &Header) -> Result<Image, ImageFault>
    requires header { IsHeader bytes.now header.now }
    requires version { header.now.version ≡ Two }
    ensures { Reads bytes.now result }
{
    match faultless_segments(bytes, header) {
        Ok(segments) => {
            let data = &bytes[data_place(header)..];
            Ok(Image {
                base: header.base,
                size: header.size,
                entry: header.entry,
                payload: Payload::new(memory_from(alloc, header.base, segments.as_slice(), data)?),
            })
        }
        Err(fault) => Err(fault.into()),
    }
}
