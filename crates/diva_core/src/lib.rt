//! What cores, checks and the machine share.
//!
//! - `config`: how wide and deep the machine is, `Config`;
//! - `records`: the records of one cycle, `Records`;
//! - `claims`: what a core hands over, `Claim` and `Claims`;
//! - `told`, `view`: what a core is told and shown before a cycle, `Told` and `View`;
//! - `cores`: the trait `Core`, with its one meaning `gives`, and `CopyCore` of those that can be copied;
//! - `output`: the bytes that the program put, `Output`;
//! - `pending`: the claims that wait to be judged, `Entry` and `Pending`;
//! - `future`: the registers as the oldest pending claims leave them, `FutureFile`;
//! - `bypass`: the state in which a pending claim stands, `Bypass`, over what `walks` finds in older claims;
//! - `effects`: which bytes of memory an effect changes;
//! - `differences`: how a claim differs from the due record, `Field`, `Diff` and `first_difference`;
//! - `flushes`: why the machine flushed, `Cause` and `FlushRow`.
//!
//! `specs/` holds the timed machine that contracts speak of: the machine and what a core is told of
//! it (`Timed`, `Told`), its cycle phase by phase (`Cycle`), first differences (`Difference`), what is
//! noted of pending claims (`Entries`), the state in which each of them stands (`Older`, over
//! `Effects`), what the oldest of them leave in the registers (`Future`), what each stage of the checker compares (`Stages`),
//! turns of a machine and a core (`History`), what holds between cycles (`Machine`), right lists and calm machines (`Right`), the
//! machine without its last instruction (`Undone`), sessions, which are turns and instructions that are taken back (`Legs`), and the
//! words of what a cycle, a turn and a run promise (`Headline`), and a cycle of any hart (`HartCycle`). `Inner` is for private contracts alone.
//! `proofs/` has the laws that follow.
#![tactic(auto)]

mod bypass;
mod claims;
mod config;
mod cores;
mod differences;
mod effects;
mod flushes;
mod future;
mod output;
mod pending;
mod records;
mod told;
mod view;
mod walks;

pub use bypass::Bypass;
pub use claims::{Claim, Claims};
pub use config::Config;
pub use cores::{CopyCore, Core};
pub use differences::{Diff, Field, difference_in, first_difference};
pub use effects::{byte_in, is_apart};
pub use flushes::{Cause, FlushRow};
pub use future::FutureFile;
pub use output::Output;
pub use pending::{Entry, Pending};
pub use records::Records;
pub use told::Told;
pub use view::View;
