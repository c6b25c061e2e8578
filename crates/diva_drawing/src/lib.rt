//! A run, drawn: what becomes of each claim in each cycle, as a log for the Konata viewer or as a drawing in text.
//!
//! All that is drawn of a cycle is what a machine shows before it and behind it: the instructions that have committed, the flushes and
//! the newest of them, the pending claims with their ages and verdicts, and the instruction that runs solo. The stages have the names of
//! `docs/MACHINE.md`.
//!
//! - `snapshot`: `Snapshot`, what is seen of a machine between two cycles.
//! - `rows`: rows, one for each claim that became pending and each instruction that was started solo: how many begin and end in a cycle.
//! - `block`: `Block`, a text of some lines, which is one put, or goes in pieces.
//! - `excerpt`: `Excerpt`, the cycles of a run that a drawing has.
//! - `pen`: `Pen`, which is shown a machine cycle by cycle, and draws what becomes of its rows in one of the two formats.
//! - `log`: a run as a log in the Kanata format, version 4, which the Konata viewer reads; `begin_log`.
//! - `stages`: the lines of a row by its age.
//! - `drawing`: a run as a drawing, a column for each cycle of an excerpt.
//!
//! `specs/` says what is seen of a machine (`Snapshot`), what becomes of rows (`Rows`), and the text of each of the two (`Log`, `Drawing`).
//! `Pieces` is for private contracts alone.
#![tactic(auto)]

mod block;
mod drawing;
mod excerpt;
mod log;
mod pen;
mod rows;
mod snapshot;
mod stages;

pub use excerpt::Excerpt;
pub use log::begin_log;
pub use pen::Pen;
pub use rows::{DrawnRow, Ending};
pub use snapshot::{Snapshot, SnapshotClaim, SnapshotSolo};
