//! Scripts: what is to go wrong in a core, cycle by cycle.
//!
//! - `rows`: what a row does, `Row` and `Change`, and which cycles it touches. `lists`: a row that is laid over the list of a cycle,
//!   `Row::lay_in`.
//! - `script`: the rows of a text, with the first cycle that they touch and the one after the last, `Script`. `reading`: how
//!   they are read, line by line and word by word. `fault`: why a text is no script, `ScriptFault`.
//! - `flips`: the rows of a campaign, which flip one bit each.
//! - `faulty`: a core under a script, `Faulty`. `laws`: what holds of every script and every row.
//! - `schedule`: the rows of a script by cycle.
//! - `tests`: rows that are laid by themselves, worked out by hand.
//!
//! `specs/Reading.antt` has the script of a text, with `Kinds` the kinds of its faults, `specs/Rows.antt` the ranges of a
//! row's numbers, `specs/Touched.antt` which cycles rows touch, `specs/Lists.antt` what a row and a script make of a list,
//! `specs/Spoiled.antt` what a core under a script means, `specs/Flips.antt` the rows of a campaign. `Inner`, and `Schedules` of rows
//! by cycle, are for private contracts alone.
#![tactic(auto)]

mod fault;
mod faulty;
mod flips;
pub mod laws;
mod lists;
mod reading;
mod rows;
mod schedule;
mod script;
#[cfg(test)]
mod tests;

pub use fault::ScriptFault;
pub use faulty::Faulty;
pub use flips::{FLIPS_IN_CYCLE, flip_at};
pub use rows::{Change, Row};
pub use script::Script;
