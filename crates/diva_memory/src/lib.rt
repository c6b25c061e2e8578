//! The memory of the machine: the bytes from a first address on.
//!
//! - `memory`: `Memory`, the bytes, and how they are read and written.
//! - `readable`: `Readable`, what can be read byte by byte, as memory is.
//! - `interval`: `Interval`, addresses between which stores lie that are not in memory yet.
//! - `span`: `Span`, up to which item such stores go in a list of many things, and their interval.
//!
//! What is inside, what a read gives and what a write changes is defined in `specs/Bytes.antt`,
//! which the crates above cite for their states too; what lies in an interval in `specs/Interval.antt`, and in a span in
//! `specs/Span.antt`.
#![tactic(auto)]

mod interval;
mod memory;
mod readable;
mod span;

pub use interval::Interval;
pub use memory::Memory;
pub use readable::Readable;
pub use span::Span;
