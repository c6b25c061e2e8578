//! A debugger's sessions: commands that move a machine along the table's steps, and lines that show it.
//!
//! - `numbers`: the numbers of commands, each in its range: `StepCount`, `RegisterNumber`, `MemRange`.
//! - `command`: `Command`. `reading`: `commands`, those of a text, line by line and word by word. `fault`: why a text has
//!   none, `CommandFault`.
//! - `undos`: what the newest instructions overwrote, `Undos`. `rewindable`: a machine that these can take back, `Rewindable`.
//! - `moving`: a machine and a core, moved by instructions. `replies`: the line that shows a machine.
//! - `session`: such a machine and the core that it borrows, `Session`; `reply_to`, the same over a machine that is kept
//!   elsewhere.
//!
//! `specs/Reading.antt` has the commands of a text, with `Ranges` the ranges of their numbers and `Kinds` the kinds of faults,
//! `specs/Moves.antt` how far a command moves a machine, and where it leads,
//! `specs/Replies.antt` the replies, `specs/Undos.antt` when undos are those of the newest instructions, `specs/Rewindable.antt`
//! what a machine with its undos is and how a command leads it, and `specs/Sessions.antt` what a session holds. `Inner` is for
//! private contracts alone.
#![tactic(auto)]

mod command;
mod fault;
mod moving;
mod numbers;
mod reading;
mod replies;
mod rewindable;
mod session;
mod undos;

pub use command::Command;
pub use fault::CommandFault;
pub use numbers::{MemRange, RegisterNumber, StepCount};
pub use reading::commands;
pub use rewindable::Rewindable;
pub use session::{Session, reply_to};
pub use undos::Undos;
