//! The log of a core, judged: what it says of each instruction of a program is compared with what is due, line by line, by a machine with
//! its checker, in memory that does not grow with the log.
//!
//! - `log`: `judge`, which judges a whole log as it is read, and puts what comes of it as it goes. `terms`: `Terms`, how it is judged;
//!   `verdict`: `Verdict`, what it comes to.
//! - `judging`: `judge_line`, which has the machine judge the line of its next instruction.
//! - `log_line`: `read_said`, what the words of a line say, and `Kind`, the kinds of its faults.
//! - `rows`: what is written of lines, and last.
//!
//! What is promised, each part in a file of `specs/`, in the order in which it is best read: `Logs` has what a log says, `Judgement` what
//! its lines come to, `Texts` what is written of it, and `Judging` what `judge` promises, with the sentences that a reader wants of a
//! verdict, `IsWholeRight` and `HasWrongLine`. `Inner` is for private contracts alone.
#![tactic(auto)]

mod judging;
mod log;
mod log_line;
mod rows;
mod terms;
mod verdict;

pub use judging::judge_line;
pub use log::judge;
pub use log_line::{Kind, read_said};
pub use rows::put_unreadable;
pub use terms::Terms;
pub use verdict::Verdict;
