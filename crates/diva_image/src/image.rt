// An image, whose type keeps its rules.
ghost use Rattle.std.specs.Prelude.{◌≡◌, length, option_map};
ghost use Rattle.diva_image.specs.Inner.{IsLayout};

use crate::Payload;
use crate::header::{Header, payload_fault};
use crate::version::Version;

/// What a machine starts with: its memory, which ends at 2^32 at the latest, and where it is entered.
#[derive(Drop)]
pub struct Image {
    /// The first address of memory, a multiple of 4.
    pub base: u32,
    /// How many bytes memory has: a multiple of 4, from 4 to [`MOST_SIZE`](crate::MOST_SIZE).
    pub size: u32,
    /// The address of the first instruction: a multiple of 4 in memory.
    pub entry: u32,
    /// The first bytes of memory, `size` at most. Zeros follow them.
    pub payload: Payload,
    ghost rules: { IsLayout base size entry (length payload) },
}

impl Image {
    ghost use Rattle.diva_image.specs.Images.{image_from};
    ghost use Rattle.diva_image.specs.ImageLayout.{layout};

    /// The image of these parts, `None` exactly where they break one of its rules.
    #[tactic(auto, using(crate::proofs::Rules::too_long), unfolding(crate::specs::Images::payload_fault))]
    pub fn new(base: u32, size: u32, entry: u32, payload: Vec<u8>) -> Option<Self>
        ensures { option_map layout result ≡ image_from base size entry payload.items }
    {
        if (size as usize) < payload.len() {
            return None;
        }
        let header = Header {
            version: Version::One,
            base,
            size,
            entry,
            last: payload.len() as u32,
        };
        if header.fault().is_some() {
            return None;
        }
        Some(Image {
            base,
            size,
            entry,
            payload: Payload::new(payload),
        })
    }
}
