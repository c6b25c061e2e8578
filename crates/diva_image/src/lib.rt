//! Image files and executables: what a machine's memory begins with, and where it is entered.
//!
//! An image's file is the four letters "DIVA", then five numbers of four bytes each, the lowest byte first: the version, base, size,
//! entry and one more. In version 1 that is a length, and exactly so many bytes follow, which are loaded at base. In version 2
//! it is a number of segments; a pair of numbers follows for each, its address and how many bytes it has, and then the bytes
//! of the segments one after another.
//!
//! An executable is an ELF file of 32 bits for RISC-V, linked to lie at fixed addresses. Its program headers say what is loaded.
//!
//! - `image`: `Image`, whose type keeps the rules of an image.
//! - `payload`: `Payload`, the bytes of an image.
//! - `reading`: `read`, from bytes to an image or to their first fault.
//! - `writing`: `write`, from an image to its bytes in version 1; `migrating`: `write2`, to those in version 2.
//! - `elf`: `read_elf`, from an executable to an image; `elf_header`: its headers, with the places of their fields.
//! - `program`: `read_program`, from either kind of file.
//! - `header`, `version`: the header of an image's file, read and written, and its faults.
//! - `table`: the segments of a file, and their faults; `segments`, `segment`: lists of segments.
//! - `memory`: the bytes that memory begins with, part after part.
//! - `fault`: `ImageFault`, why bytes are not an image.
//!
//! `specs/`, in the order in which it is best read: `Layout` says what an image is, and when two begin the same; `Header`,
//! `Segments` and `Images` which image a file is, or what its first fault is, and the bytes in version 1; `Elf` the same of an
//! executable; `ImageLayout` what is read of either; `Migrated` the bytes in version 2; `Programs` what a command takes for an
//! image. `Inner` is for private contracts alone.
#![tactic(auto)]

mod elf;
mod elf_header;
mod fault;
mod header;
mod image;
mod memory;
mod migrating;
mod payload;
mod program;
mod reading;
mod segment;
mod segments;
mod table;
mod version;
mod writing;

pub use elf::read_elf;
pub use fault::ImageFault;
pub use header::{HEADER_SIZE, MOST_SIZE};
pub use image::Image;
pub use migrating::write2;
pub use payload::Payload;
pub use program::read_program;
pub use reading::read;
pub use segments::MOST_SEGMENTS;
pub use table::PAIR_SIZE;
pub use writing::write;
