//! Tests of the whole program: command lines over files and a sink in memory, with the status and the text that are due.
//!
//! - `cores`: a core that claims a wrong value once, and one that counts its calls;
//! - `runs`: the runs. `runs/tables` has the programs that are run, `runs/pipelined` those that are run ahead of the checker,
//!   `runs/tapes` tapes that are played, written and refused, `runs/ports` stores that memory takes in some cycles only, `runs/staged`
//!   tapes whose claims are checked while older ones are pending, `runs/scripts` scripts that are refused, `runs/traces` commit lines,
//!   `runs/sessions` the commands of the debugger, `runs/backwards` those that go back, `runs/sources` sources that are assembled and
//!   images that are listed, `runs/harts` runs on two harts, `runs/campaigns` campaigns of flips, `runs/lanes` runs in which lanes vote,
//!   `runs/hostile` cores that are wrong by their rule, `runs/segments` images in version 2, also as `migrate` writes them,
//!   `runs/executables` small executables, which `runs/executables/files` has as other tools laid them, `runs/soaks` images of seeds,
//!   `runs/drawings` runs that are drawn, `runs/watched` runs that a watcher sees, `runs/refusals` what is not run, and `runs/failing` the order of loads and puts, which also
//!   fail in turn; `runs/noting` notes them, and `runs/texts` writes the text that is due.
//!
//! What is due was worked out by hand from the rules, or came from an outside tool; none of it is taken from what this repository's
//! code answered.
#![tactic(auto)]

#[cfg(test)]
mod cores;
#[cfg(test)]
mod runs;
