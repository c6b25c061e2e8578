//! What a machine and each hart of two have in common: the committed state but memory, what is under way, and memory's port.
//!
//! - `arch`: registers, pc, output, count, end and store queue, `HartArch`; memory is lent to each of its calls;
//! - `under_way`: the pending claims, the solo instruction, the watchdog, the log and the number of undos, `UnderWay`;
//! - `log`: the flushes, as rows and as counts, `Log`;
//! - `port`: when memory takes a store, `Port`;
//! - `ends`: how a drive stopped, `Drive`.
//!
//! `specs/Start.antt` says in which state an image starts, `specs/HartArch.antt` what state a hart sees, and what becomes of it by a
//! record; `specs/UnderWay.antt` says which timed machine a state and what is under way make up. What a log has, and what a row more makes
//! of it, stands in `diva_core`, in `specs/Timed.antt` (`Log`) and `specs/Cycle.antt` (`logged`). `Inner` says what to judge a claim does to
//! such a machine, and to judge some: for private contracts of the machine and of a hart of two alone.
#![tactic(auto)]

mod arch;
mod ends;
mod log;
mod port;
mod under_way;

pub use arch::HartArch;
pub use ends::Drive;
pub use log::{KEPT_ROWS, Log};
pub use port::Port;
pub use under_way::{DEPTH, UnderWay};
