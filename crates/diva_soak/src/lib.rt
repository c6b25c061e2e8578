//! A large valid image from a number.
//!
//! - `image`: `soak_image`, the image of a seed.
//! - `payload`: the bytes of its memory, data and code.
//! - `drawing`: the instruction that a number draws.
//! - `laws`: that the state which such an image starts halts.
//!
//! `specs/Soak.antt` says what the image is, `specs/Halts.antt` what it is to halt.
#![tactic(auto)]

mod drawing;
mod image;
pub mod laws;
mod payload;

pub use image::soak_image;
