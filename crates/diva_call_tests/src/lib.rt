//! Tests of a machine, of a session, of a core and of images of seeds, call by call.
//!
//! - `calls`: calls of a machine's parts, and of a machine that is driven: `calls/cores` has a core that begins late, and one that
//!   claims when it has to or later;
//! - `lists`: several claims in a cycle, right and wrong ones, and what each cycle commits: `lists/tables` has the lists;
//! - `logs`: runs of a core that has a line of a log for each instruction;
//! - `undo`: the last instruction is taken back, and the machine goes on: `undo/tables` has the moments;
//! - `sessions`: sessions that go back;
//! - `out_of_order`: what the out-of-order core hands over: `out_of_order/tables` has the programs;
//! - `soaks`: images of seeds.
//!
//! What is due was worked out by hand from the rules, or by a program in Python; none of it is taken from what this repository's
//! code answered.
#![tactic(auto)]

#[cfg(test)]
mod tests;
