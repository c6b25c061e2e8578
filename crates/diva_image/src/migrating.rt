// An image to its bytes, in version 2.
ghost use Rattle.std.specs.Prelude.{◌≡◌, ◌≤◌, ◌<◌, ◌+◌, ◌-◌, ◌^◌, ◌++◌, length, IfOk, OnOk, IsTrue, ◌↔◌};
ghost use Rattle.std.specs.List.{flat_map};
ghost use Rattle.diva_image.specs.ImageLayout.{layout};
ghost use Rattle.diva_image.specs.Layout.{most_size};
ghost use Rattle.diva_image.specs.Inner.{ArePlaced};
ghost use Rattle.diva_image.specs.Migrated.{BeginsAgain, blocks_of, bytes_at, canonical, is_zero_block, limited, pair_bytes, segmented_bytes, stretches};
ghost use Rattle.diva_image.specs.Segments.{most_segments};

use crate::Image;
use crate::header::{HEADER_SIZE, Header, push_number};
use crate::segment::Segment;
use crate::segments::Segments;
use crate::table::{PAIR_SIZE, total};
use crate::version::Version;
use std::alloc::{AllocError, Global};

/// How many bytes a block has. A segment is made of whole blocks, counted from base.
const BLOCK_SIZE: usize = 64;

/// The bytes of an image in version 2, of which [`read`](crate::read) makes an image that begins as this one does: zeros
/// at the payload's end are not kept. There is one spelling of each image.
///
/// The payload is cut from base into blocks of 64 bytes, the last of which is perhaps shorter. Each stretch of blocks that
/// hold a byte other than 0 is a segment; where there are more than 16 stretches, the sixteenth segment goes on to the end
/// of the last one. The one error is that memory runs out.
#[tactic(auto, using(crate::proofs::Beginning::begins_again))]
pub fn write2(alloc: Global, image: &Image) -> Result<Vec<u8>, AllocError>
    ensures bytes { IfOk result (λ bytes. bytes.items ≡ segmented_bytes (layout image.now)) }
    ensures begins { IfOk result (λ bytes. BeginsAgain (layout image.now) bytes.items) }
{
    segmented(alloc, image)
}

/// The header, the table, and the bytes of the segments.
fn segmented(alloc: Global, image: &Image) -> Result<Vec<u8>, AllocError>
    ensures { IfOk result (λ bytes. bytes.items ≡ segmented_bytes (layout image.now)) }
{
    let canonical = canonical(image.base, image.payload.bytes());
    let segments = canonical.as_slice();
    let header = Header {
        version: Version::Two,
        base: image.base,
        size: image.size,
        entry: image.entry,
        last: segments.len() as u32,
    };
    let len = HEADER_SIZE + PAIR_SIZE * segments.len() + total(segments) as usize;
    let mut bytes = Vec::with_capacity(alloc, len)?;
    header.write(&mut bytes)?;
    push_table(&mut bytes, segments)?;
    push_data(&mut bytes, image, segments)?;
    Ok(bytes)
}

/// The segments of a payload that begins at base.
fn canonical(base: u32, payload: &[u8]) -> Segments
    requires small { length payload.now ≤ most_size }
    requires range { base + length payload.now ≤ 2 ^ 32 }
    ensures value { result ≡ limited (most_segments - 1) (stretches base (blocks_of payload.now)) }
    ensures placed { ArePlaced base (base + length payload.now) result }
{
    let mut segments = Segments::new();
    let mut addr = u64::from(base);
    for block in payload.chunks(BLOCK_SIZE) {
        if !is_zero_block(block) {
            segments.extend(Segment {
                addr: addr as u32,
                len: block.len() as u32,
            });
        }
        addr += block.len() as u64;
    }
    segments
}

/// Whether each byte of a block is 0.
fn is_zero_block(block: &[u8]) -> bool
    ensures { result ≡ is_zero_block block.now }
{
    block.iter().all(|byte| *byte == 0)
}

/// Appends the table.
fn push_table(bytes: &mut Vec<u8>, segments: &[Segment]) -> Result<(), AllocError>
    ensures { OnOk result (bytes.new.items ≡ bytes.old.items ++ flat_map pair_bytes segments.now) }
{
    for segment in segments {
        push_number(bytes, segment.addr)?;
        push_number(bytes, segment.len)?;
    }
    Ok(())
}

/// Appends the bytes of each segment.
fn push_data(bytes: &mut Vec<u8>, image: &Image, segments: &[Segment]) -> Result<(), AllocError>
    requires { ArePlaced image.now.base (image.now.base + length image.now.payload) segments.now }
    ensures { OnOk result (bytes.new.items ≡ bytes.old.items ++ flat_map (bytes_at image.now.base image.now.payload) segments.now) }
{
    let payload = image.payload.bytes();
    for segment in segments {
        let from = (segment.addr - image.base) as usize;
        bytes.extend_from_slice(&payload[from..from + segment.len as usize])?;
    }
    Ok(())
}
