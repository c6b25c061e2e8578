//! The words of the command line, read as a job: a command with its options.
//!
//! The commands, their words and their options stand in one table, in the code and in the definitions; `clap` reads
//! the words by it. The rules on the values of options, such as the range of a number, are this crate's own.
//!
//! - `read`: `read_words`, from words to a job, and `job_named`, the job of one command.
//! - `parts`: what words are read by, here and in other programs that have commands of their own besides.
//! - `command`: the table of commands, and `clap`'s command of it.
//! - `values`: the values of options as cores, numbers, parts of memory and places of voting lanes.
//! - `rows`: the numbers that words can give, a row for each, with its word, its range and its default.
//! - `job`: `Job` and its parts, whose types keep the ranges of the numbers. `campaign`: those of the command `campaign`.
//! - `file_name`: `FileName`, the name of a file. `ranged`: `Ranged`, a number that keeps a range.
//! - `fault`: `ArgsFault`, why there is no job.
//!
//! `specs/Line.antt` says which job the words ask for, over the table of commands (`Command`), the numbers (`Rows`) and the
//! rules on values (`Values`). `specs/Options.antt` has what contracts see of a job, `specs/Fault.antt` why there is none, and
//! `specs/Plain.antt` what a plain line is. `specs/Table.antt` shows a row of the code's table as one of the definitions'.
#![tactic(auto)]

mod campaign;
mod command;
mod fault;
mod file_name;
mod job;
pub mod parts;
mod ranged;
mod read;
mod rows;
mod values;

pub use campaign::CampaignOptions;
pub use fault::ArgsFault;
pub use file_name::FileName;
pub use job::{
    CoreChoice, DebugOptions, DumpRange, DuoOptions, HartCore, Job, LanePlace, MigrateOptions,
    RunOptions, Setup, SoakOptions, TapeOptions,
};
pub use ranged::Ranged;
pub use read::{job_named, read_words};
pub use rows::{CampaignCycles, Cycles, LastCycle, SoakLength};
