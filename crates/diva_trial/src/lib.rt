//! Runs of an image under one fault each, with the checker and without it, and what became of them.
//!
//! - `trials`: `Trials`, the run without a fault, and the runs under each.
//! - `lines`: `put_trials`, which makes the runs under some faults, and puts a line of each.
//! - `kept`: the machines of that run that are kept, so that a run under a fault begins shortly before it.
//! - `running`: a core under a script that drives a machine, and what a fault changes of that.
//! - `driven`: what a machine with its checker and one without have in common here.
//! - `outcomes`: what became of the runs under a fault.
//! - `tests`: lines of faults, worked out by hand.
//!
//! `specs/Paths.antt` has the paths of a machine and a core, and what a hit is; `specs/Trials.antt` what is told of the runs, and
//! `specs/Lines.antt` what is put of them. `Inner` is for
//! private contracts alone.
#![tactic(auto)]

mod driven;
mod kept;
mod lines;
mod outcomes;
mod running;
#[cfg(test)]
mod tests;
mod trials;

pub use lines::{Faults, put_trials};
pub use trials::Trials;
