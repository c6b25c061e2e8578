//! Tests of three lanes that vote, by themselves and in the place of a machine's checks.
//!
//! - `votes`: of which three answers which one is taken, and what is counted of them;
//! - `lanes`: lanes that answer as the checks do, and note what they are asked, when, and what a liar says; and lanes that are not to be
//!   believed, of which two may lie in turn;
//! - `machines`: a small program, machines that begin with words, and one type for all their cores;
//! - `runs`: short runs: how often each lane is asked, of what and in which order, cycle by cycle, also where a claim is wrong or is
//!   dropped, and how often each is outvoted;
//! - `alike`: longer runs of two machines, of which one is voted on, and one lane in three answers anything, or two lie in turn: both
//!   show the same, cycle by cycle.
//!
//! What is due in `votes` and `runs`, and how and when the runs of `alike` end, was worked out by hand from the rules that
//! `docs/MACHINE.md` states. In `alike` the machine that is not voted on says what the other one has to show. None of it is taken
//! from what the code under test answered.
#![tactic(auto)]

#[cfg(test)]
mod tests;
