//! Tests of logs that are judged, over the workbench.
//!
//! - `rows`: logs of the program `FIVE`, each with the status and the text that are due;
//! - `failing`: logs that can't be opened or read to their end, and a sink that fails.
//!
//! What is due was worked out by hand from the rules; none of it is taken from what this repository's code answered.
#![tactic(auto)]

#[cfg(test)]
mod tests;
