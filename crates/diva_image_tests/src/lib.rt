//! Tests of image files and of executables, over the crate that reads and writes them.
//!
//! - `images`: an image in version 1 that is read and written, and faults of it; in version 2 `images/segments` has images that are
//!   read or refused, and `images/migrated` images that are written and read again;
//! - `executables`: what is read of executables: `executables/rows` writes them field by field, `executables/headers` changes their
//!   headers, `executables/loads` their program headers, and `executables/memory` what memory they have.
//!
//! What is due was worked out by hand from the rules, or by a program in Python; none of it is taken from what this repository's
//! code answered.
#![tactic(auto)]

#[cfg(test)]
mod tests;
