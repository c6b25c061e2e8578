//! The words of the workbench's command line, read as a job: those of `diva`, and commands of its own besides.
//!
//! They are read by the parts that `diva_args` reads its own words by, so that the same option means the same to both programs. What
//! is here is proved without `diva`, and `diva` without it.
//!
//! - `lab`: `read_lab_words`, from words to a job, `LabJob`.
//! - `commands`: the table of the commands that `diva` has not. `rows`: the numbers that their words can give.
//! - `draw`: the commands `log` and `draw`. `judge`: the command `judge`.
//! - `inject`: the command `inject`. `choices`: lists of names, which its options take. `rate`: the command `rate`, and `FileNames`.
//!
//! `specs/Lab.antt` says which job the words ask for, over the table of commands (`Commands`) and the numbers (`Rows`);
//! `specs/Inject.antt` what those of `inject` ask for, with `Choices`, what a list of names stands for, and `specs/Rate.antt` what
//! those of `rate` do. `Inner` is for private contracts alone.
#![tactic(auto)]

mod choices;
mod commands;
mod draw;
mod inject;
mod judge;
mod lab;
mod rate;
mod rows;

pub use draw::{DrawOptions, Format};
pub use inject::{FaultCount, FaultCycle, InjectOptions};
pub use judge::JudgeOptions;
pub use lab::{LabJob, read_lab_words};
pub use rate::FileNames;
