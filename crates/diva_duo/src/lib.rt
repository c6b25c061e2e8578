//! Two harts over one memory: two checkers, each with a core, registers and a buffer of stores of its own, as in a fault-tolerant
//! multiprocessor. Store buffering can be seen on it.
//!
//! - `duo`: both harts between two cycles, `Duo`;
//! - `hart`: one of them, and its phases of a cycle;
//! - `action`: what a cycle does to the harts, `Action`;
//! - `drives`: two harts and their cores, turn by turn, `drive2`;
//! - `worked`: runs that were worked out by hand, which the definitions give.
//!
//! What a cycle does is `duo_cycle_of` of `specs/Duo.antt`: phase by phase the timed machine's of `diva_core`, under the rule of
//! `specs/Rules.antt`. `specs/Harts.antt` has the store-buffer machine, to which a cycle is some actions, `specs/Between.antt` what
//! holds between cycles and how soon a hart goes on, `specs/Headline.antt` what each hart commits and why it is flushed, and
//! `specs/Turns.antt` the turns of two harts and their cores. `Shown` is what contracts see of a duo, `Which` one of its two harts,
//! and `Programs` the program of `worked`; `Inner` is for private contracts alone.
#![tactic(auto)]

mod action;
mod drives;
mod duo;
mod hart;
pub mod worked;

pub use action::Action;
pub use diva_hart::Drive;
pub use drives::drive2;
pub use duo::Duo;
