//! The open machine: what becomes of a run without the checker.
//!
//! - `arch`: the committed state, which does what a record says, right or wrong;
//! - `parts`: the parts of the machine, and the phases of a cycle over them;
//! - `machine`: the machine between cycles, `OpenMachine`;
//! - `ends`: how it has ended, `OpenEnd`;
//! - `turns`: an open machine and a core, turn by turn, `drive_open`;
//! - `laws`: right lists lead it to the same state as the machine with its checker, and while none but due records leave its state is the
//!   table's;
//! - `tests`: short runs, worked out by hand.
//!
//! What a cycle does is `open_cycle_of` of `specs/Open.antt`, over the phases of `diva_core`'s definitions; how an open machine ends stands in
//! `specs/Ends.antt`, what a drive does in `specs/Turns.antt`, what holds between cycles in `specs/Machine.antt`, and the open machine of
//! a timed one in `specs/Laws.antt`. `Inner` is for private contracts alone. `proofs/` has what follows.
#![tactic(auto)]

mod arch;
mod ends;
pub mod laws;
mod machine;
mod parts;
#[cfg(test)]
mod tests;
mod turns;

pub use ends::OpenEnd;
pub use machine::OpenMachine;
pub use turns::drive_open;
