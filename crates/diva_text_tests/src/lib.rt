//! Tests of the texts that the program reads and writes, over the crates that read and write them.
//!
//! - `args`: command lines, with what they ask for, and such as are refused; `args/lab`: those of the workbench.
//! - `asm`: sources and words that were worked out by hand, and some that an assembler made: `asm/sources`, `asm/gnu`.
//! - `scripts`: scripts, and lists under them. `tapes`: tapes that are read, played and written. `cores`: what a core hands over.
//! - `commands`: commands of a session. `run_texts`: the text of a run, that of two harts, and other lines.
//! - `outside`: files, sinks and numbers, and the lines and words of texts. `disk`: what is asked of a disk and a writer.
//!
//! What is due was worked out by hand from `docs/FORMATS.md`, or came from an outside tool; none of it is taken from what
//! this repository's code answered.
#![tactic(auto)]

#[cfg(test)]
mod tests;
