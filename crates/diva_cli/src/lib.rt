//! The program over the files, the sink and the core that it is handed.
//!
//! - `program`: `top`, from the words to the status; `work`, which does a job, has an arm for each command;
//! - `run` (with `tape`), `duo`, `debug`, `images` (`asm`, `dis` and `migrate`), `soak`, `campaign`: these commands;
//! - `files`: the kinds of files, and how a file of any kind is loaded and read; `loading`: the files of a job, one after another;
//! - `driving`: the core that the command line chose, and how a task is done with it; `tasks`: the things that are done with a machine
//!   or a session and any core, under a script or without one; `scripted`: how a script is kept out of the cycles that none of its rows
//!   touches;
//! - `watching`: `Watcher`, what looks at a run turn by turn and writes of it, and `watch`; commit lines and tapes;
//! - `lanes`: the lanes that may be asked, `Lanes`; `checking`: how claims are checked, by the checks alone or by three of these lanes
//!   that vote, of which one lies;
//! - `replying`: commands that move a machine, and the replies to them;
//! - `writing`: what is written of machines at the end, and the status that goes with it; `lines`: the usage line;
//! - `sure`: `top_sure`, the program over files and a sink that never fail;
//! - `laws`: that the text of a run, and that of `soak`, is determined (`own_run_is_determined`), that what is promised of
//!   the text of a run is the same with a liar in any place and without (`one_liar_is_outvoted`), and what a session of one part says of its
//!   lists (`run_is_one_part`).
//!
//! A program that has commands of its own, as the workbench does (`diva_workbench`), does any other job by `work`, drives a run of its
//! own by `make_ready`, `Watched::drive` and `end_status`, and has what a run begins with by `load_machine_files` if it makes the machines.
//!
//! What a process is (words to a job, files in order, a status with its cause) stands in `diva_process`. What is promised here, each part in a
//! file of `specs/`, in the order in which it is best read:
//!
//! - `Changes`: what became of what the program was handed; `Lanes`: what lanes were asked; `Lines`: the usage line;
//! - `Wanted`: which files a job wants, and what is wrong with their bytes;
//! - `Texts`: the text of each command; `Sessions`: what holds of the machine of a session, and of a run, which is a session of one part;
//!   `Driven`: what drove it; `Runs`: a run, with the text of `run`;
//! - `TapeTexts`: the text of `tape`; `DebugTexts`, with `Replies`: that of `debug`; `ImageTexts`: those of `asm`, `dis` and `migrate`;
//!   `SoakTexts`: that of `soak`; `DuoTexts`: that of `duo`; `CampaignTexts`: that of `campaign`; `Cuts`: in which part of a text
//!   a sink failed;
//! - `Program`: the program `diva`, and what its jobs came to;
//! - `Watched`: what a watcher sees of a run, and what is written of it; `Ready`: what a run begins with, and what drives it then;
//! - `Determined`: what is determined of a run; `Sure`: what files that never fail hold.
//!
//! `Tasks` and `Parts` are what the parts of the program promise one another.
#![tactic(auto)]

mod campaign;
mod checking;
mod debug;
mod driving;
mod duo;
mod files;
mod images;
mod lanes;
pub mod laws;
mod lines;
mod loading;
mod program;
mod replying;
mod run;
mod scripted;
mod soak;
mod sure;
mod tasks;
mod watching;
mod writing;

pub use diva_process::Failure;
pub use diva_soak::soak_image;
pub use driving::CoreInUse;
pub use lanes::{LanePair, Lanes};
pub use loading::{Loaded, Ready, load_machine_files, make_ready};
pub use program::{top, work};
pub use sure::top_sure;
pub use tasks::Watched;
pub use watching::{CommitLines, TapeLines, Watcher, watch};
pub use writing::end_status;
