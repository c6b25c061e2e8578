//! The workbench over the files, the sink and the core that it is handed: all that `diva` does, and commands of its own.
//!
//! - `lab`: `lab_top`, from the words to the status; `lab_work`, which does a job: one of its own, or one of `diva`, by `work` of `diva_cli`;
//! - `drawing`: the commands `log` and `draw`, and `Drawer`, the watcher that draws a run;
//! - `judging`: the command `judge`; `injecting`: `inject`.
//!
//! How a run is made ready and driven stands in `diva_cli`, what is drawn of a cycle in `diva_drawing`, how a log is judged in `diva_judge`,
//! how runs under faults are made in `diva_trial`, and how the lines of such runs are rated in `diva_rating`. What is promised here:
//!
//! - `specs/DrawTexts.antt`: the text of `log` and of `draw`; `specs/Judges.antt`: that of `judge`; `specs/Injects.antt`: that of `inject`;
//! - `specs/Lab.antt`: the workbench, as `specs/Program.antt` of `diva_cli` has `diva`, and what its jobs came to.
//!
//! `specs/Draws.antt` and `Injecting` are what the parts of this crate promise one another.
#![tactic(auto)]

mod drawing;
mod injecting;
mod judging;
mod lab;

pub use lab::{Hands, lab_top, lab_work};
