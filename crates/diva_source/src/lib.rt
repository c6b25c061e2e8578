//! A text that is read piece by piece, so that one of any length can be read in memory that doesn't grow with it.
//!
//! - `source`: the trait `Source`, texts by name, one of which is open.
//! - `disk_source`: `DiskSource`, files of the operating system, and standard input.
//! - `mem_source`: `MemSource`, texts in memory, which are read in pieces of a given size, and where calls fail as a test asks for it.
//! - `no_source`: `NoSource`, a source without texts.
//! - `source_lines`: `SourceLines`, the lines of the text that a source has open, one after the other. `piece`: the bytes that were read of
//!   it, and are yet to come. `line_scan`: how they are read to words.
//! - `few_words`: `FewWords`, the words of a line, as far as they are kept.
//! - `laws`: that the lines that are read are those of the text.
//!
//! `specs/` says what is known of a source (`Source`), and of each kind of source (`DiskSource`, `MemSource`, `NoSource`); which lines are
//! read of it (`SourceLines`, `Pieces`), and what is kept of their words (`KeptWords`, `Scanned`).
#![tactic(auto)]

mod disk_source;
mod few_words;
pub mod laws;
mod line_scan;
mod mem_source;
mod no_source;
mod piece;
mod source;
mod source_lines;
#[cfg(test)]
mod tests;

pub use disk_source::DiskSource;
pub use few_words::FewWords;
pub use mem_source::MemSource;
pub use no_source::NoSource;
pub use source::{Source, SourceFailed};
pub use source_lines::SourceLines;
