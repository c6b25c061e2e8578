//! Tests of two harts over one memory: what each cycle does to them, what they can come to together, and what is seen of them.
//!
//! - `harts`: two harts that begin with a program, cores that play tapes, and words of memory;
//! - `calls`: two harts on given lists, action by action, with what has become of them: `calls/tables` has the lists;
//! - `litmus`: small programs whose outcome depends on when each hart goes on: each outcome that the rules allow comes, and no
//!   other one, however late the cores begin and however many claims they hand over; `litmus/tables` has the programs, `litmus/shapes`
//!   lists under the usual names, and `litmus/cores` a core that begins late and hands over several claims in a cycle;
//! - `moments`: all that is seen of two harts, between some cycles of a run;
//! - `drives`: budgets of a drive, the cores that it asks, and lists for harts that are over.
//!
//! What is due was worked out by a program in Python that knows nothing of this one; the little of `drives` was worked out by
//! hand. None of it is taken from what this repository's code answered.
#![tactic(auto)]

#[cfg(test)]
mod tests;
