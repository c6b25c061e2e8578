//! What a program is, apart from what its commands do: words that ask for a job, files that are loaded in order, a text that is put to
//! a sink, and a status with its cause. Nothing here knows a machine.
//!
//! - `front`: the trait `Front`, what makes one program of it: how words are read, and how a job is done.
//! - `process`: `run_process`, from the words to the status, over any front. Its contract is the program's.
//! - `status`: `Status`, what a program ends with, and its number.
//! - `stop`: `Stop`, why the files of a job can't be used; `Failure`, why there is no whole answer.
//! - `lines`: the lines that say why a file can't be used. `writing`: how these, and any one line, are written; `words`: the
//!   words of a process, as a program takes them.
//!
//! What is promised, each part in a file of `specs/`, in the order in which it is best read:
//!
//! - `Programs`: what a program is, what a job of it came to, and what it was asked; `Lines`: the lines of files that can't be used;
//! - `Stops`: files that can be used, and at which of a job's files loading stops;
//! - `Answers`: what is answered, and why; `Statuses`: what each status says;
//! - `Promises`: what a job promises, `KeepsPromises`, of which all statuses are read; `Process`: what a program promises of its words,
//!   `IsProcess`; `Writing`: what a command's own functions promise of what they write.
#![tactic(auto)]

mod front;
mod lines;
mod process;
mod status;
mod stop;
mod words;
mod writing;

pub use front::Front;
pub use process::run_process;
pub use status::Status;
pub use stop::{Failure, Stop};
pub use words::borrowed;
pub use writing::{write_line, write_stop};
