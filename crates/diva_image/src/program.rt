// What a command takes for an image, to an image or to its first fault.
ghost use Rattle.std.specs.Prelude.{◌≡◌, ◌≤◌, ◌<◌, ◌%◌, ◌^◌, length};
ghost use Rattle.diva_image.specs.Programs.{ReadsIn};

use crate::{Image, ImageFault, read, read_elf};
use std::alloc::Global;

/// The first bytes of an executable.
const ELF_MAGIC: &[u8; 4] = b"\x7fELF";

/// The image of a file of fewer than 2^32 bytes, which is an image or an executable; behind what an executable loads, memory has
/// `room` bytes more, a multiple of 4 below 2^24, which has no effect on an image. The error is its first fault or, where it has
/// none, `Memory` if memory runs out.
#[tactic(auto, unfolding(crate::specs::Programs::fault_in, crate::specs::Programs::image_in))]
pub fn read_program(alloc: Global, bytes: &[u8], room: u32) -> Result<Image, ImageFault>
    requires short { length bytes.now < 2 ^ 32 }
    requires aligned { room % 4 ≡ 0 }
    requires small { room < 2 ^ 24 }
    ensures { ReadsIn room bytes.now result }
{
    if bytes.starts_with(ELF_MAGIC) {
        read_elf(alloc, bytes, room)
    } else {
        read(alloc, bytes)
    }
}
