//! The numbers that follow a seed.
//!
//! - `generator`: `next_number`, the number that follows another.
//!
//! The rule is in `specs/Generator.antt`.
#![tactic(auto)]

mod generator;

pub use generator::next_number;
