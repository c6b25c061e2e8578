//! The processor's timed machine: a checker that commits nothing that it has not recomputed.
//!
//! - `arch`: the committed state, memory with what the hart has for itself;
//! - `stages`: what a pending claim passes through at each age, `Stages`: the checks, `Checks`;
//! - `panel`: or three lanes that vote in their place, with how often each was outvoted, `Panel`;
//! - `parts`: the parts of the machine, and the phases of a cycle over them;
//! - `machine`: the machine between cycles, `Machine`;
//! - `ends`: how a drive to a count stopped, `Reach`; of another drive `Drive` of `diva_hart` says so;
//! - `turns`: a machine and a core, turn by turn, `turn` and `drive`;
//! - `voted`: the same where lanes vote, `turn_voted` and `drive_voted`;
//! - `reaching`: turns until so many instructions have committed, `drive_to`.
//!
//! How wide and deep the machine is, `Config`, is told by `diva_core`. The committed state but memory, and what is under way
//! (pending claims, solo instruction, watchdog, log and number of undos), are the parts that `diva_hart` has for a hart, as is memory's port.
//!
//! What a cycle does is `cycle_of` of `diva_core`'s definitions; `specs/Start.antt` of `diva_hart` says in which
//! state an image starts, `specs/Machine.antt` what contracts see of a machine, `specs/Cycles.antt` what a cycle and a turn promise of
//! one, `specs/Drives.antt` what a drive does, `specs/Counts.antt` how it stands to a count, `specs/Staged.antt` what the stages note of a
//! claim by its age, and `specs/Asked.antt` what is asked of lanes that vote. `Inner`, and `Panels` of lanes that are lent to the stages,
//! are for private contracts alone.
#![tactic(auto)]

mod arch;
mod ends;
mod machine;
mod panel;
mod parts;
mod reaching;
mod stages;
mod turns;
mod voted;

pub use diva_core::Config;
pub use diva_hart::{DEPTH, Drive, KEPT_ROWS};
pub use diva_isa::End;
pub use ends::Reach;
pub use machine::Machine;
pub use reaching::drive_to;
pub use turns::{drive, turn};
pub use voted::{drive_voted, turn_voted};
