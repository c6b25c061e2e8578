//! A core that hands over what a log says of each instruction: the trace of a core that somebody else made.
//!
//! - `said`: what a line of a log says of an instruction, `Said`, and the record that is made of it.
//! - `wrong`: what is wrong with a line, `Wrong`.
//! - `claims_core`: `ClaimsCore`, which hands over what is said, a line for each instruction.
//! - `line_core`: `LineCore`, which has the line of the next instruction alone.
//! - `laws`: what the flushes of a run say of the lines, and the lines of the flushes; and what it comes to if a machine judges one line.
//!
//! `specs/Said.antt` says what a line says, what is filled in if it says nothing, and when it is right; `specs/Calls.antt` what the core
//! hands over; `specs/Found.antt` what a flush tells of a line; `specs/Wrong.antt` what is wrong with one; `specs/Judged.antt` what it
//! comes to if a machine judges it.
#![tactic(auto)]

mod claims_core;
pub mod laws;
mod line_core;
mod said;
mod wrong;

pub use claims_core::ClaimsCore;
pub use line_core::LineCore;
pub use said::{Said, SaidEnd};
pub use wrong::Wrong;
